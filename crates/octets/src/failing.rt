//! Devices over memory that fail, to test what a call leaves behind when one of its devices fails.
ghost use Rattle.std.specs.Prelude.{◌≡◌, ◌↔◌, ◌<◌, [], length, drop, true, false, IfOk, IfErr, IsOk, OnOk, Ok, Err, MatchResult};
ghost use Rattle.octets.specs.Devices.{next_count, input_members, output_members, Reads, Writes, Finishes};
ghost use Rattle.octets.specs.Code.Failing.{is_due, room_for, uncalled, fails_next, after_failure, after_result};
ghost use Rattle.octets.specs.Code.Views.{front_of, moved_by};

use crate::devices::count_one;
use crate::{Fault, Input, MemoryInput, MemoryOutput, Output, Refusal};
use std::alloc::Global;

/// When a device fails. Its calls are counted from 0: reads with room, writes that are not empty, and `finish`.
#[derive(Clone, Copy, Debug, PartialEq, Eq)]
pub enum Failing {
    /// At this call only.
    Once(u64),
    /// At this call and at each later one.
    From(u64),
    /// At each call after so many octets have passed.
    After(usize),
}

impl Failing {
    /// Whether it fails at this call, after so many octets have passed.
    fn is_due(self, call: u64, passed: usize) -> bool
        ensures { result ≡ is_due self call passed }
    {
        match self {
            Failing::Once(at) => call == at,
            Failing::From(first) => first <= call,
            Failing::After(most) => most <= passed,
        }
    }

    /// How many of `len` octets may pass.
    fn room(self, passed: usize, len: usize) -> usize
        ensures { result ≡ room_for self passed len }
    {
        match self {
            Failing::After(most) => len.min(most.saturating_sub(passed)),
            _ => len,
        }
    }
}

/// An input of octets in memory that fails as `Failing` says.
#[derive(Drop)]
pub struct FailingInput<'a> {
    input: MemoryInput<'a>,
    failing: Failing,
    passed: usize,
    calls: u64,
    failures: u64,
}

impl<'a> FailingInput<'a> {
    ghost use Rattle.octets.specs.Code.FailingDevices.{input_contents, input_consumed, input_failures, input_course};

    /// An input of what the input over memory reads, until it fails.
    pub fn new(input: MemoryInput<'a>, failing: Failing) -> FailingInput<'a>
        ensures contents { input_contents result ≡ input.entry }
        ensures consumed { input_consumed result ≡ front_of input.entry }
        ensures course { input_course result ≡ uncalled failing }
        ensures failures { input_failures result ≡ 0 }
    {
        FailingInput {
            input,
            failing,
            passed: 0,
            calls: 0,
            failures: 0,
        }
    }

    /// How often it has failed.
    pub fn failures(&self) -> u64
        ensures { result ≡ input_failures self.now }
    {
        self.failures
    }
}

impl<'a> Input for FailingInput<'a> {
    ghost use Rattle.octets.specs.Code.FailingDevices.{input_contents, input_consumed, input_is_at_end, input_remaining, input_failures, input_source, input_course, input_count};
    ghost use Rattle.octets.specs.Code.Views.{source_is_given};

    ghost consumed = { input_consumed };

    ghost is_at_end = { input_is_at_end };

    ghost remaining = { input_remaining };

    ghost failures = { input_failures };

    ghost source = { input_source };

    ghost gives_octets = { λ s. s.input.fronts_are_octets s.input.position };

    ghost gives_source = { λ s. source_is_given s.input };

    fn read(&mut self, buf: &mut [u8]) -> Result<usize, Fault>
        ensures due { 0 < length buf.old → (fails_next (input_course self.old) ≡ true) ↔ (result ≡ Err Fault.Reading) }
        ensures count { IfOk result (λ n. n ≡ input_count self.old (length buf.old)) }
        ensures moves { 0 < length buf.old → IfOk result (λ n. input_contents self.new ≡ moved_by n (input_contents self.old)) }
        ensures rest { MatchResult result (λ n. drop n buf.new ≡ drop n buf.old)
            (λ _. (buf.new ≡ buf.old) × (input_contents self.new ≡ input_contents self.old)) }
        ensures course { 0 < length buf.old → input_course self.new ≡ after_result result (input_course self.old) }

        // What the trait says.
        ensures does { Reads (input_members input_consumed input_is_at_end input_failures) input_remaining input_source
            self.old self.new buf.old buf.new result }
    {
        if buf.is_empty() {
            return Ok(0);
        }
        let is_due = self.failing.is_due(self.calls, self.passed);
        self.calls = self.calls.saturating_add(1);
        if is_due {
            count_one(&mut self.failures);
            return Err(Fault::Reading);
        }
        let room = self.failing.room(self.passed, buf.len());
        let n = self.input.read(&mut buf[..room])?;
        self.passed = self.passed.saturating_add(n);
        Ok(n)
    }
}

/// An output that keeps what is written, some octets at a write. It fails as `Failing` says, and after its room.
#[derive(Drop)]
pub struct FailingOutput {
    output: MemoryOutput,
    step: usize,
    failing: Failing,
    passed: usize,
    calls: u64,
    failures: u64,
    ghost moves: { 0 < step },
}

impl FailingOutput {
    ghost use Rattle.octets.specs.Code.FailingDevices.{output_written, output_is_finished, output_endings, output_failures, output_course, output_room, output_step};

    /// An empty output with room for so many octets, of which a write takes at most `step`. Fails only with `Memory`.
    pub fn new(
        alloc: Global,
        room: usize,
        step: usize,
        failing: Failing,
    ) -> Result<FailingOutput, Refusal>
        requires { 0 < step }
        ensures empty { IfOk result (λ out. (output_written out ≡ []) × (output_is_finished out ≡ false) × (output_endings out ≡ 0)
            × (output_failures out ≡ 0)) }
        ensures course { IfOk result (λ out. (output_course out ≡ uncalled failing) × (output_room out ≡ room) × (output_step out ≡ step)) }
        ensures memory { IfErr result (λ e. e ≡ Refusal.Memory) }
    {
        Ok(FailingOutput {
            output: MemoryOutput::new(alloc, room)?,
            step,
            failing,
            passed: 0,
            calls: 0,
            failures: 0,
        })
    }

    /// What was written.
    pub fn octets(&self) -> &[u8]
        ensures { result.now ≡ output_written self.now }
    {
        self.output.octets()
    }

    /// Whether what was written was finished.
    pub fn is_finished(&self) -> bool
        ensures { result ≡ output_is_finished self.now }
    {
        self.output.is_finished()
    }

    /// How often it has failed.
    pub fn failures(&self) -> u64
        ensures { result ≡ output_failures self.now }
    {
        self.failures
    }

    /// Counts a call, and fails if it is to fail.
    fn call(&mut self) -> Result<(), Fault>
        ensures works { OnOk result (self.new.failures ≡ self.old.failures) }
        ensures fails { IfErr result (λ e. (e ≡ Fault.Writing) × (self.new.failures ≡ next_count self.old.failures)) }
        ensures same { (self.new.output ≡ self.old.output) × (self.new.step ≡ self.old.step) }
        ensures course { output_course self.new ≡ after_failure (output_course self.old) }
        ensures due { (fails_next (output_course self.old) ≡ true) ↔ (result ≡ Err Fault.Writing) }
    {
        let is_due = self.failing.is_due(self.calls, self.passed);
        self.calls = self.calls.saturating_add(1);
        if is_due {
            count_one(&mut self.failures);
            return Err(Fault::Writing);
        }
        Ok(())
    }
}

impl Output for FailingOutput {
    ghost use Rattle.octets.specs.Code.FailingDevices.{output_written, output_is_finished, output_endings, output_failures, output_course, output_room, output_step, output_count};

    ghost written = { output_written };

    ghost is_finished = { output_is_finished };

    ghost endings = { output_endings };

    ghost failures = { output_failures };

    fn write(&mut self, octets: &[u8]) -> Result<usize, Fault>
        ensures due { 0 < length octets.now → fails_next (output_course self.old) ≡ true → result ≡ Err Fault.Writing }
        ensures succeeds { fails_next (output_course self.old) ≡ false → length (output_written self.old) < output_room self.old → IsOk result }
        ensures count { IfOk result (λ n. n ≡ output_count self.old (length octets.now)) }
        ensures course { 0 < length octets.now → output_course self.new ≡ after_result result (output_course self.old) }
        ensures same { (output_room self.new ≡ output_room self.old) × (output_step self.new ≡ output_step self.old) }

        // What the trait says.
        ensures does { Writes (output_members output_written output_is_finished output_endings output_failures) self.old self.new octets.now result }
    {
        if octets.is_empty() {
            return Ok(0);
        }
        self.output.reopen();
        self.call()?;
        let room = self.failing.room(self.passed, octets.len().min(self.step));
        match self.output.write(&octets[..room]) {
            Ok(n) => {
                self.passed = self.passed.saturating_add(n);
                Ok(n)
            }
            Err(fault) => {
                count_one(&mut self.failures);
                Err(fault)
            }
        }
    }

    fn finish(&mut self) -> Result<(), Fault>
        ensures due { (fails_next (output_course self.old) ≡ true) ↔ (result ≡ Err Fault.Writing) }
        ensures course { output_course self.new ≡ after_failure (output_course self.old) }
        ensures same_room { (output_room self.new ≡ output_room self.old) × (output_step self.new ≡ output_step self.old) }

        // What the trait says.
        ensures does { Finishes (output_members output_written output_is_finished output_endings output_failures) self.old self.new result }
    {
        self.call()?;
        self.output.finish()
    }
}
