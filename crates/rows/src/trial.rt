//! Trying a row with each of its inputs.
use crate::answer::{Answer, Cause, Difference, Spelled};
use crate::bad::Bad;
use crate::failing::Calls;
use crate::fields::{Name, Row, read_count};
use crate::runs::{Done, Given, over_memory, over_readers, words_of};
use jose::report;
use keys::KeySet;
use objects::Jwe;
use octets::MemoryOutput;
use std::alloc::Global;
use tokens::{Work, jwe_decrypt};

/// How many octets each output can hold, unless the row says otherwise.
const ROOM: usize = 3_000_000;

/// How many octets the inputs give at a read, unless the row says otherwise.
const READS: &str = "4096 1";

/// A row, and where it is.
#[derive(Drop)]
pub(crate) struct Trial<'a> {
    pub(crate) file: &'a str,
    pub(crate) line: usize,
    pub(crate) row: Row<'a>,
    pub(crate) is_right: bool,
}

/// A run that a row asks for, with the answer that it must have.
#[derive(Clone, Copy)]
struct Case<'a, 'r> {
    words: &'a [String],
    given: Given<'a>,
    answer: Answer<'r>,
}

impl<'a> Trial<'a> {
    /// Prints a difference.
    fn tell(
        &mut self,
        rt: &HostRuntime,
        case: &Case<'_, '_>,
        difference: &Difference<'_>,
    ) -> Result<(), Bad> {
        self.is_right = false;
        print!(rt;
            "{}:{}: {}",
            self.file,
            self.line,
            self.row.text(Name::Test)
        )?;
        if let Some(name) = self.row.first(Name::Note) {
            print!(rt; ", {}", Spelled(name))?;
        }
        print!(rt; ":")?;
        for word in case.words {
            print!(rt; " {}", Spelled(word.as_bytes()))?;
        }
        println!(rt; ": {difference}")?;
        Ok(())
    }

    /// Tries the row with each combination of its commands and inputs.
    pub(crate) fn all(&mut self, rt: &HostRuntime) -> Result<(), Bad> {
        let alloc = rt.alloc();
        let row = self.row;
        let answer = Answer::of(&row)?;
        let more = row.each(alloc, Name::Word)?;
        let texts = row.inputs(alloc, Name::Text)?;
        let contents = row.inputs(alloc, Name::Content)?;
        let all_keys = row.inputs(alloc, Name::Keys)?;
        let randoms = row.inputs(alloc, Name::Random)?;
        let runs = row.each(alloc, Name::Run)?;
        if runs.is_empty() {
            return Err(Bad::Text("a row has no run"));
        }
        for line in &runs {
            let words = words_of(alloc, line, more.as_slice())?;
            for text in &texts {
                for content in &contents {
                    for keys in &all_keys {
                        for random in &randoms {
                            let case = Case {
                                words: words.as_slice(),
                                given: Given {
                                    text,
                                    content,
                                    keys,
                                    random,
                                },
                                answer,
                            };
                            self.one(rt, &case)?;
                        }
                    }
                }
            }
        }
        Ok(())
    }

    /// Tries one combination.
    fn one(&mut self, rt: &HostRuntime, case: &Case<'_, '_>) -> Result<(), Bad> {
        let row = self.row;
        if row.first(Name::Calls).is_some() {
            return self.failing(rt, case);
        }
        if row.first(Name::Cut).is_some() {
            return self.cut(rt, case);
        }
        if row.first(Name::Flip).is_some() {
            return self.flipped(rt, case);
        }
        if row.first(Name::Then).is_some() {
            return self.followed(rt, case);
        }
        if row.first(Name::Iterations).is_some() {
            return self.work(rt, case);
        }
        self.plain(rt, case)
    }

    /// The room of each output.
    fn room(&self) -> Result<usize, Bad> {
        match self.row.first(Name::Room) {
            Some(_) => read_count(self.row.text(Name::Room)),
            None => Ok(ROOM),
        }
    }

    /// Runs the command over the inputs, with each number of octets at a read.
    fn plain(&mut self, rt: &HostRuntime, case: &Case<'_, '_>) -> Result<(), Bad> {
        let room = self.room()?;
        if self.row.first(Name::Fails).is_some() {
            let fails = Name::read(self.row.text(Name::Fails))?;
            let done = over_readers(rt.alloc(), case.words, &case.given, fails, room)?;
            return self.compare(rt, case, &done);
        }
        let reads = match self.row.text(Name::Reads) {
            "" => READS,
            reads => reads,
        };
        for step in reads.split(' ') {
            let step = read_count(step)?;
            let done = over_memory(rt.alloc(), case.words, &case.given, step, room)?;
            self.compare(rt, case, &done)?;
        }
        Ok(())
    }

    /// Compares a run, and what it reports, with the answer.
    fn compare(&mut self, rt: &HostRuntime, case: &Case<'_, '_>, done: &Done) -> Result<(), Bad> {
        if !case.answer.cause.is_of(&done.result) {
            return self.tell(rt, case, &Difference::Result(done.result));
        }
        let mut errors = MemoryOutput::new(rt.alloc(), 100)?;
        let status = report(done.result, &mut errors);
        if let Some(line) = case.answer.cause.line() {
            if !is_line(errors.octets(), line) || status != u8::from(done.result.is_err()) {
                return self.tell(rt, case, &Difference::Report(errors.octets(), status));
            }
        }
        match Difference::of_outputs(&case.answer, &done.text, &done.content) {
            Some(difference) => self.tell(rt, case, &difference),
            None => Ok(()),
        }
    }

    /// Each call of each device fails in turn.
    fn failing(&mut self, rt: &HostRuntime, case: &Case<'_, '_>) -> Result<(), Bad> {
        let calls = Calls::of(&self.row, case.words, case.given, case.answer)?;
        match calls.all_in_turn(rt.alloc())? {
            Some((device, wrong)) => {
                println!(rt; "{}:{}: calls of {device}", self.file, self.line)?;
                self.tell(rt, case, &Difference::Other(wrong))
            }
            None => Ok(()),
        }
    }

    /// Runs the command over each stated beginning of an input, such as those of `-i 0..174 178`.
    fn cut(&mut self, rt: &HostRuntime, case: &Case<'_, '_>) -> Result<(), Bad> {
        let Some((name, lengths)) = self.row.text(Name::Cut).split_once(' ') else {
            return Err(Bad::Text("a cut is not like `-i 0..9 12`"));
        };
        let name = Name::read(name)?;
        for range in lengths.split(' ') {
            let (from, to) = match range.split_once("..") {
                Some((from, to)) => (read_count(from)?, read_count(to)?),
                None => (read_count(range)?, read_count(range)?.saturating_add(1)),
            };
            for len in from..to {
                let whole = input_of(&case.given, name)?;
                let Some(octets) = whole.get(..len) else {
                    return Err(Bad::Text("a cut is longer than the input"));
                };
                self.replaced(rt, case, name, octets)?;
            }
        }
        Ok(())
    }

    /// Runs the command over an input with each of its bits changed.
    fn flipped(&mut self, rt: &HostRuntime, case: &Case<'_, '_>) -> Result<(), Bad> {
        let name = Name::read(self.row.text(Name::Flip))?;
        let mut octets = Vec::from_slice(rt.alloc(), input_of(&case.given, name)?)?;
        for place in 0..octets.len() {
            for bit in [1u8, 2, 4, 8, 16, 32, 64, 128] {
                change(&mut octets, place, bit);
                self.replaced(rt, case, name, octets.as_slice())?;
                change(&mut octets, place, bit);
            }
        }
        Ok(())
    }

    /// Runs the command with other octets in an input.
    fn replaced(
        &mut self,
        rt: &HostRuntime,
        case: &Case<'_, '_>,
        name: Name,
        octets: &[u8],
    ) -> Result<(), Bad> {
        let Given { text, keys, .. } = case.given;
        let given = Given {
            text: if name == Name::Text { octets } else { text },
            content: case.given.content,
            keys: if name == Name::Text { keys } else { octets },
            random: case.given.random,
        };
        let room = self.room()?;
        let done = over_memory(rt.alloc(), case.words, &given, 4096, room)?;
        let case = Case {
            words: case.words,
            given,
            answer: case.answer,
        };
        self.compare(rt, &case, &done)
    }

    /// Runs the command, and then another one over its outputs, which must have the answer.
    fn followed(&mut self, rt: &HostRuntime, case: &Case<'_, '_>) -> Result<(), Bad> {
        let room = self.room()?;
        let first = over_memory(rt.alloc(), case.words, &case.given, 4096, room)?;
        if first.result.is_err() {
            return self.tell(rt, case, &Difference::Result(first.result));
        }
        let then = self.row.first(Name::Then).unwrap_or(b"");
        let words = words_of(rt.alloc(), then, &[])?;
        let given = Given {
            text: first.text.octets(),
            content: first.content.octets(),
            keys: case.given.keys,
            random: b"",
        };
        let done = over_memory(rt.alloc(), words.as_slice(), &given, 4096, room)?;
        let then = Case {
            words: words.as_slice(),
            given,
            answer: case.answer,
        };
        self.compare(rt, &then, &done)
    }

    /// Decrypts by the call of crate `tokens`, whose work no command reports.
    fn work(&mut self, rt: &HostRuntime, case: &Case<'_, '_>) -> Result<(), Bad> {
        let wanted = Work {
            iterations: self.row.number(Name::Iterations)?.unwrap_or(0),
            unwraps: self.row.number(Name::Unwraps)?.unwrap_or(0),
            openings: self.row.number(Name::Openings)?.unwrap_or(0),
        };
        let (work, done) = decrypted(rt.alloc(), case.given.text, case.given.keys)?;
        if work != wanted {
            println!(rt; "{}:{}: {work:?}", self.file, self.line)?;
            return self.tell(rt, case, &Difference::Other("other work is reported"));
        }
        self.compare(rt, case, &done)
    }
}

/// The work and the outcome of decrypting.
fn decrypted(alloc: Global, text: &[u8], keys: &[u8]) -> Result<(Work, Done), Bad> {
    let set = KeySet::read(alloc, keys, false)?;
    let jwe = Jwe::read(alloc, text, None)?;
    let mut content = MemoryOutput::new(alloc, ROOM)?;
    let (work, result) = jwe_decrypt(alloc, &set, jwe, &mut content);
    let done = Done {
        result,
        text: MemoryOutput::new(alloc, 0)?,
        content,
    };
    Ok((work, done))
}

/// Whether a report is the line of this refusal, or nothing without one.
fn is_line(octets: &[u8], refusal: &str) -> bool {
    if refusal.is_empty() {
        return octets.is_empty();
    }
    match octets.strip_prefix(b"jose: ") {
        Some(rest) => rest.strip_suffix(b"\n") == Some(refusal.as_bytes()),
        None => false,
    }
}

/// The octets of an input that a row cuts or changes.
fn input_of<'a>(given: &Given<'a>, name: Name) -> Result<&'a [u8], Bad> {
    match name {
        Name::Text => Ok(given.text),
        Name::Keys => Ok(given.keys),
        _ => Err(Bad::Text("only -i and -k are cut or changed")),
    }
}

/// Changes a bit of one octet.
fn change(octets: &mut Vec<u8>, place: usize, bit: u8) {
    if let Some(octet) = octets.get_mut(place) {
        *octet ^= bit;
    }
}
