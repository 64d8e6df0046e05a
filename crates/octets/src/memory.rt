//! Devices over memory.
ghost use Rattle.std.specs.Prelude.{◌≡◌, ℕ, ◌↔◌, ◌+◌, ◌<◌, ◌≤◌, [], length, take, drop, IfOk, IfErr, IsOk, IsErr, Ok, true, false};
ghost use Rattle.octets.specs.Devices.{next_count, input_members, output_members, Reads, Writes, Finishes};
ghost use Rattle.octets.specs.Octets.{IsOctets};
ghost use Rattle.octets.specs.Code.Views.{front_of, is_read, rest_of, failures_of, source_of, source_is_given, read_count, write_count};

use crate::devices::count_one;
use crate::laws::are_octets;
use crate::{Fault, Input, Output, Refusal};
use std::alloc::Global;
use std::marker::Model;

/// An input of octets in memory. It never fails.
#[derive(Drop)]
pub struct MemoryInput<'a> {
    octets: &'a [u8],
    position: usize,
    step: usize,
    ghost known: { (n : ℕ) → IsOctets (take n octets.now) },
}

impl<'a> Model for MemoryInput<'a> {
    ghost use Rattle.std.specs.Prelude.{◌<◌, ◌≤◌, length};
    ghost use Rattle.octets.specs.Code.Views.{Contents};

    ghost Value = { Contents };

    ghost view = { λ s. record { octets = s.octets.now; position = s.position; step = s.step; fronts_are_octets = s.known } };

    ghost invariant = { λ s. (s.position ≤ length s.octets.now) × (0 < s.step) };
}

impl<'a> MemoryInput<'a> {
    /// An input of these octets, of which one read returns at most `step`.
    pub fn new(octets: &'a [u8], step: usize) -> MemoryInput<'a>
        requires { 0 < step }
        ensures octets { result.octets ≡ octets.entry.now }
        ensures begins { result.position ≡ 0 }
        ensures step { result.step ≡ step }
    {
        are_octets(octets);
        MemoryInput {
            octets,
            position: 0,
            step,
        }
    }
}

impl<'a> Input for MemoryInput<'a> {
    ghost consumed = { front_of };

    ghost is_at_end = { is_read };

    ghost remaining = { rest_of };

    ghost failures = { failures_of };

    ghost source = { source_of };

    ghost gives_octets = { λ c. c.fronts_are_octets c.position };

    ghost gives_source = { source_is_given };

    fn read(&mut self, buf: &mut [u8]) -> Result<usize, Fault>
        ensures count { result ≡ Ok (read_count self.old (length buf.old)) }
        ensures moves { self.new ≡ record self.old
            { position = self.old.position + read_count self.old (length buf.old) } }
        ensures rest { IfOk result (λ n. drop n buf.new ≡ drop n buf.old) }

        // What the trait says.
        ensures does { Reads (input_members front_of is_read failures_of) rest_of source_of self.old self.new buf.old buf.new result }
    {
        let rest = &self.octets[self.position..];
        let n = rest.len().min(buf.len()).min(self.step);
        buf[..n].copy_from_slice(&rest[..n]);
        self.position += n;
        Ok(n)
    }
}

/// An output that keeps what is written, up to the room that it was made with. A write without room fails.
#[derive(Drop)]
pub struct MemoryOutput {
    octets: Vec<u8>,
    room: usize,
    unfinished: bool,
    endings: u64,
    failures: u64,
}

impl Model for MemoryOutput {
    ghost use Rattle.std.specs.Prelude.{◌≤◌, length, not};
    ghost use Rattle.std.specs.Vec.{vec_capacity};
    ghost use Rattle.octets.specs.Code.Views.{Store};

    ghost Value = { Store };

    ghost view = { λ s. record { octets = s.octets.items; room = s.room; is_finished = not s.unfinished; endings = s.endings; failures = s.failures } };

    ghost invariant = { λ s. (length s.octets.items ≤ s.room) × (s.room ≤ vec_capacity s.octets) };
}

impl MemoryOutput {
    /// An empty output with room for so many octets. Fails only with `Memory`.
    pub fn new(alloc: Global, room: usize) -> Result<MemoryOutput, Refusal>
        ensures empty { IfOk result (λ out. out ≡ record { octets = []; room = room; is_finished = false; endings = 0; failures = 0 }) }
        ensures memory { IfErr result (λ e. e ≡ Refusal.Memory) }
    {
        Ok(MemoryOutput {
            octets: Vec::with_capacity(alloc, room)?,
            room,
            unfinished: true,
            endings: 0,
            failures: 0,
        })
    }

    /// What was written.
    pub fn octets(&self) -> &[u8]
        ensures { result.now ≡ self.now.octets }
    {
        self.octets.as_slice()
    }

    /// The output has to be finished again.
    pub(crate) fn reopen(&mut self)
        ensures { self.new ≡ record self.old { is_finished = false } }
    {
        self.unfinished = true;
    }

    /// Whether what was written was finished.
    pub fn is_finished(&self) -> bool
        ensures { result ≡ self.now.is_finished }
    {
        !self.unfinished
    }
}

impl Output for MemoryOutput {
    ghost written = { λ s. s.octets };

    ghost is_finished = { λ s. s.is_finished };

    ghost endings = { λ s. s.endings };

    ghost failures = { λ s. s.failures };

    fn write(&mut self, octets: &[u8]) -> Result<usize, Fault>
        ensures count { IfOk result (λ n. n ≡ write_count self.old (length octets.now)) }
        ensures full { IsErr result ↔ ((0 < length octets.now) × (write_count self.old (length octets.now) ≡ 0)) }
        ensures same_room { self.new.room ≡ self.old.room }

        // What the trait says.
        ensures does { Writes (output_members (λ s. s.octets) (λ s. s.is_finished) (λ s. s.endings) (λ s. s.failures)) self.old self.new octets.now result }
    {
        if octets.is_empty() {
            return Ok(0);
        }
        self.reopen();
        let n = octets.len().min(self.room - self.octets.len());
        if n == 0 {
            count_one(&mut self.failures);
            return Err(Fault::Writing);
        }
        if self.octets.extend_from_slice(&octets[..n]).is_err() {
            unreachable!();
        }
        Ok(n)
    }

    fn finish(&mut self) -> Result<(), Fault>
        ensures moves { self.new ≡ record self.old { is_finished = true; endings = next_count self.old.endings } }
        ensures never_fails { IsOk result }

        // What the trait says.
        ensures does { Finishes (output_members (λ s. s.octets) (λ s. s.is_finished) (λ s. s.endings) (λ s. s.failures)) self.old self.new result }
    {
        self.unfinished = false;
        count_one(&mut self.endings);
        Ok(())
    }
}
