//! Runs in which one read or write fails: each call of each device in turn.
ghost use Rattle.std.specs.Prelude.{◌<◌, IfOk};

use crate::answer::{Answer, Cause, Written};
use crate::bad::Bad;
use crate::fields::{Name, Row, read_number};
use crate::runs::Given;
use jose::{Inputs, Outputs, parse, run};
use octets::{Failing, FailingInput, FailingOutput, MemoryInput, Refusal};
use std::alloc::Global;

/// The devices: `-i`, `-I`, `-k`, `-R`, `-o` and `-O`.
const DEVICES: usize = 6;

const NAMES: [&str; DEVICES] = ["-i", "-I", "-k", "-R", "-o", "-O"];

/// The first output.
const TEXT_OUT: usize = 4;

const CONTENT_OUT: usize = 5;

/// More calls than a device of a row has.
const MOST: u64 = 1000;

/// The room of an output.
const ROOM: usize = 20_000;

/// The place of a device in `NAMES`. The text of `jws sig` is `-s`.
fn device(name: &str) -> Result<usize, Bad>
    ensures below { IfOk result (λ n. n < 6) }
{
    match name {
        "-i" | "-s" => Ok(0),
        "-I" => Ok(1),
        "-k" => Ok(2),
        "-R" => Ok(3),
        "-o" => Ok(4),
        "-O" => Ok(5),
        _ => Err(Bad::Text("no device has this name")),
    }
}

/// The outcome of a run, with the failures of its devices.
#[derive(Drop)]
struct Run {
    result: Result<(), Refusal>,
    text: FailingOutput,
    content: FailingOutput,
    failures: [u64; DEVICES],
}

/// What a row says of the calls of its devices.
#[derive(Drop)]
pub(crate) struct Calls<'a> {
    words: &'a [String],
    given: Given<'a>,
    answer: Answer<'a>,
    /// The input that is read while its text is written, if there is one.
    streams: usize,
    /// How many calls each device has if a call reads or writes as many octets as there are. An input that is read to its end has one call
    /// that returns all of it and one that finds the end, and the random input has one call for everything that is drawn. An output has one
    /// call for each text that is written to it and one that finishes it.
    counts: [u64; DEVICES],
}

impl<'a> Calls<'a> {
    pub(crate) fn of(
        row: &Row<'a>,
        words: &'a [String],
        given: Given<'a>,
        answer: Answer<'a>,
    ) -> Result<Calls<'a>, Bad> {
        let mut counts = [0; DEVICES];
        for part in row.text(Name::Calls).split(", ") {
            let Some((name, count)) = part.split_once(' ') else {
                return Err(Bad::Text("calls are not like `-i 2, -o 1`"));
            };
            counts[device(name)?] = read_number(count)?;
        }
        let streams = match row.first(Name::Streams) {
            Some(_) => device(row.text(Name::Streams))?,
            None => DEVICES,
        };
        Ok(Calls {
            words,
            given,
            answer,
            streams,
            counts,
        })
    }

    /// The octets that each output holds after a run in which nothing fails.
    fn wanted(&self, device: usize) -> &'a [u8] {
        let written = if device == TEXT_OUT {
            self.answer.text
        } else {
            self.answer.content
        };
        match written {
            Written::Whole(octets) => octets,
            _ => b"",
        }
    }

    /// How many calls the device has if a call reads or writes one octet: one for each octet that is read or written, one that finds the end
    /// of an input that is read to its end, and one that finishes an output. A device that is not called with more octets is not called
    /// here.
    fn octet_calls(&self, device: usize) -> u64
        requires { device < 6 }
    {
        let lens = [
            self.given.text.len().saturating_add(1),
            self.given.content.len().saturating_add(1),
            self.given.keys.len().saturating_add(1),
            self.given.random.len(),
            self.wanted(TEXT_OUT).len().saturating_add(1),
            self.wanted(CONTENT_OUT).len().saturating_add(1),
        ];
        if self.counts[device] == 0 {
            0
        } else {
            lens[device] as u64
        }
    }

    /// A run in which this device fails, and with this many octets at a call.
    fn performed(
        &self,
        alloc: Global,
        device: usize,
        failing: Failing,
        step: usize,
    ) -> Result<Run, Bad>
        requires { 0 < step }
    {
        let never = Failing::Once(u64::MAX);
        let of = |it: usize| if it == device { failing } else { never };
        let mut inputs = Inputs {
            text: FailingInput::new(MemoryInput::new(self.given.text, step), of(0)),
            content: FailingInput::new(MemoryInput::new(self.given.content, step), of(1)),
            keys: FailingInput::new(MemoryInput::new(self.given.keys, step), of(2)),
            random: FailingInput::new(MemoryInput::new(self.given.random, step), of(3)),
        };
        let mut outputs = Outputs {
            text: FailingOutput::new(alloc, ROOM, step, of(TEXT_OUT))?,
            content: FailingOutput::new(alloc, ROOM, step, of(CONTENT_OUT))?,
        };
        let invocation = parse(alloc, self.words)?;
        let result = run(alloc, &invocation, &mut inputs, &mut outputs);
        let failures = [
            inputs.text.failures(),
            inputs.content.failures(),
            inputs.keys.failures(),
            inputs.random.failures(),
            outputs.text.failures(),
            outputs.content.failures(),
        ];
        let Outputs { text, content } = outputs;
        Ok(Run {
            result,
            text,
            content,
            failures,
        })
    }

    /// Whether the run ended as the row says, and wrote everything.
    fn is_whole(&self, run: &Run) -> bool {
        self.answer.cause.is_of(&run.result)
            && self
                .answer
                .text
                .is_in(run.text.octets(), run.text.is_finished())
            && self
                .answer
                .content
                .is_in(run.content.octets(), run.content.is_finished())
    }

    /// Whether the failure of this device is reported, and each output holds a beginning of what it would hold without it. Nothing is
    /// written if an input fails that is not read while its text is written, and no text if `-O` fails.
    fn is_reported(&self, run: &Run, device: usize) -> bool {
        let cause = if device < TEXT_OUT {
            Cause::Named("2 Read")
        } else {
            Cause::Named("3 Write")
        };
        let is_only = run
            .failures
            .iter()
            .enumerate()
            .all(|(it, count)| *count == if it == device { 1 } else { 0 });
        let begins = self.wanted(TEXT_OUT).starts_with(run.text.octets())
            && self.wanted(CONTENT_OUT).starts_with(run.content.octets());
        let is_before = device < TEXT_OUT && device != self.streams;
        let untouched = Written::Untouched;
        is_only
            && begins
            && cause.is_of(&run.result)
            && (!is_before && device != CONTENT_OUT
                || untouched.is_in(run.text.octets(), run.text.is_finished()))
            && (!is_before || untouched.is_in(run.content.octets(), run.content.is_finished()))
    }

    /// Each call of the device fails in turn, alone or with all later ones, until a run meets no failure. There are this many calls.
    /// Returns what is wrong, if anything is.
    fn in_turn(
        &self,
        alloc: Global,
        device: usize,
        step: usize,
        is_alone: bool,
        calls: u64,
    ) -> Result<Option<&'static str>, Bad>
        requires { 0 < step }
    {
        for call in 0..MOST {
            let failing = if is_alone {
                Failing::Once(call)
            } else {
                Failing::From(call)
            };
            let run = self.performed(alloc, device, failing, step)?;
            if run.failures == [0; DEVICES] {
                if call != calls {
                    return Ok(Some("a device has another number of calls"));
                }
                let whole = "without a failure it has another answer";
                return Ok(if self.is_whole(&run) {
                    None
                } else {
                    Some(whole)
                });
            }
            if !self.is_reported(&run, device) {
                return Ok(Some("a failure is not reported, or leaves other octets"));
            }
        }
        Ok(Some("each run has a failure"))
    }

    /// Each call of each device fails in turn. Returns what is wrong, with the device.
    pub(crate) fn all_in_turn(
        &self,
        alloc: Global,
    ) -> Result<Option<(&'static str, &'static str)>, Bad> {
        for device in 0..DEVICES {
            let counts = [self.counts[device], self.octet_calls(device)];
            for (calls, step) in counts.iter().zip([4096, 1]) {
                for is_alone in [true, false] {
                    let wrong = self.in_turn(alloc, device, step, is_alone, *calls)?;
                    if let Some(wrong) = wrong {
                        return Ok(Some((NAMES[device], wrong)));
                    }
                }
            }
        }
        Ok(None)
    }
}
