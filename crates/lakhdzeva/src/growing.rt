//! An output in memory that grows.
ghost use Rattle.std.specs.Prelude.{◌≡◌, [], length, IfOk};
ghost use Rattle.octets.specs.Devices.{output_members, Writes};

use octets::{Fault, Output};
use std::alloc::Global;

/// An output that keeps all that is written. It fails only if memory is refused.
#[derive(Drop)]
pub(crate) struct GrowingOutput {
    octets: Vec<u8>,
    is_finished: bool,
    endings: u64,
    failures: u64,
}

impl GrowingOutput {
    pub(crate) fn new(alloc: Global) -> GrowingOutput
        ensures { result.octets.items ≡ [] }
    {
        GrowingOutput {
            octets: Vec::new(alloc),
            is_finished: false,
            endings: 0,
            failures: 0,
        }
    }

    /// What was written.
    pub(crate) fn into_octets(self) -> Vec<u8>
        ensures { result ≡ self.octets }
    {
        let GrowingOutput { octets, .. } = self;
        octets
    }
}

impl Output for GrowingOutput {
    ghost written = { λ s. s.octets.items };

    ghost is_finished = { λ s. s.is_finished };

    ghost endings = { λ s. s.endings };

    ghost failures = { λ s. s.failures };

    fn write(&mut self, octets: &[u8]) -> Result<usize, Fault>
        ensures whole { IfOk result (λ n. n ≡ length octets.now) }

        // What the trait says.
        ensures does { Writes (output_members (λ s. s.octets.items) (λ s. s.is_finished) (λ s. s.endings) (λ s. s.failures)) self.old self.new octets.now result }
    {
        if octets.is_empty() {
            return Ok(0);
        }
        self.is_finished = false;
        if self.octets.extend_from_slice(octets).is_err() {
            self.failures = self.failures.saturating_add(1);
            return Err(Fault::Writing);
        }
        Ok(octets.len())
    }

    fn finish(&mut self) -> Result<(), Fault> {
        self.is_finished = true;
        self.endings = self.endings.saturating_add(1);
        Ok(())
    }
}
