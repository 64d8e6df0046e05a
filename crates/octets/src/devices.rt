//! Inputs and outputs. Each device counts its failures, and each output how often it was finished, up to 2^64 - 1.
ghost use Rattle.std.specs.Prelude.{◌≡◌, ℕ, ◌<◌, Bool, List, Option, Some};
ghost use Rattle.std.specs.Iterator.{Count};
ghost use Rattle.octets.specs.Devices.{next_count, IsPossibleInput, input_members, output_members, Reads, Writes, Finishes};
ghost use Rattle.octets.specs.Octets.{IsOctets};

use crate::Fault;

/// A source of octets.
pub trait Input {
    /// All octets that were read from it so far.
    ghost consumed: { Self → List ℕ };

    /// A read has found the end.
    ghost is_at_end: { Self → Bool };

    /// The bound, if there is one, of the octets before its end or a failure.
    ghost remaining: { Self → Count };

    /// How often it has failed.
    ghost failures: { Self → ℕ };

    /// All its octets, if they are known.
    ghost source: { Self → Option (List ℕ) };

    /// Reads octets into the front of `buf` and returns how many. If `buf` has room, 0 is the end. A read that fails finds no end, and may
    /// leave anything in `buf`. A read without room does nothing.
    fn read(&mut self, buf: &mut [u8]) -> Result<usize, Fault>
        ensures does { Reads (input_members consumed is_at_end failures) remaining source self.old self.new buf.old buf.new result };

    /// What was read from it is octets.
    ghost gives_octets: { (input : Self) → IsOctets (consumed input) };

    /// If its octets are known, what was read from it is a beginning of them, and all of them at the end.
    ghost gives_source: { (input : Self) (octets : List ℕ) → source input ≡ Some octets
        → IsPossibleInput (record { octets = consumed input; ended = is_at_end input }) octets };
}

/// A destination of octets.
pub trait Output {
    /// All octets that were written to it so far.
    ghost written: { Self → List ℕ };

    /// All that was written to it was brought to where it belongs.
    ghost is_finished: { Self → Bool };

    /// How often it was finished.
    ghost endings: { Self → ℕ };

    /// How often it has failed.
    ghost failures: { Self → ℕ };

    /// Writes octets from the front of `octets` and returns how many: at least one, if there are any. A write of nothing does nothing.
    fn write(&mut self, octets: &[u8]) -> Result<usize, Fault>
        ensures does { Writes (output_members written is_finished endings failures) self.old self.new octets.now result };

    /// Brings all that was written to where it belongs.
    fn finish(&mut self) -> Result<(), Fault>
        ensures does { Finishes (output_members written is_finished endings failures) self.old self.new result };
}

/// Adds 1 to a count, which stays at its greatest value.
pub(crate) fn count_one(count: &mut u64)
    ensures { count.new ≡ next_count count.old }
{
    *count = count.saturating_add(1);
}
