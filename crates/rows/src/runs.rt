//! Runs of a command over memory.
ghost use Rattle.std.specs.Prelude.{◌<◌};
ghost use Rattle.jose.specs.Ports.{AreFinite};

use crate::bad::Bad;
use crate::fields::Name;
use jose::{Inputs, Outputs, parse, run};
use octets::{Input, MemoryInput, MemoryOutput, ReaderInput, Refusal};
use std::alloc::Global;
use std::io;
use std::io::Read;

/// The octets of the inputs.
#[derive(Clone, Copy)]
pub(crate) struct Given<'a> {
    pub(crate) text: &'a [u8],
    pub(crate) content: &'a [u8],
    pub(crate) keys: &'a [u8],
    pub(crate) random: &'a [u8],
}

/// The outcome of a run.
#[derive(Drop)]
pub(crate) struct Done {
    pub(crate) result: Result<(), Refusal>,
    pub(crate) text: MemoryOutput,
    pub(crate) content: MemoryOutput,
}

/// Reads the words and does what they ask, over these inputs and over outputs with room for this many octets.
fn performed<I: Input>(
    alloc: Global,
    words: &[String],
    inputs: &mut Inputs<I>,
    room: usize,
) -> Result<Done, Bad>
    requires { AreFinite I.remaining inputs.old }
{
    let mut outputs = Outputs {
        text: MemoryOutput::new(alloc, room)?,
        content: MemoryOutput::new(alloc, room)?,
    };
    let result = match parse(alloc, words) {
        Ok(invocation) => run(alloc, &invocation, inputs, &mut outputs),
        Err(refusal) => Err(refusal),
    };
    let Outputs { text, content } = outputs;
    Ok(Done {
        result,
        text,
        content,
    })
}

/// A run over inputs that return at most `step` octets at a read, and over outputs with room for `room` octets.
pub(crate) fn over_memory(
    alloc: Global,
    words: &[String],
    given: &Given<'_>,
    step: usize,
    room: usize,
) -> Result<Done, Bad> {
    let step = step.max(1);
    let mut inputs = Inputs {
        text: MemoryInput::new(given.text, step),
        content: MemoryInput::new(given.content, step),
        keys: MemoryInput::new(given.keys, step),
        random: MemoryInput::new(given.random, step),
    };
    performed(alloc, words, &mut inputs, room)
}

/// A run over readers, of which this one fails after all of its octets.
pub(crate) fn over_readers(
    alloc: Global,
    words: &[String],
    given: &Given<'_>,
    fails: Name,
    room: usize,
) -> Result<Done, Bad> {
    let mut inputs = Inputs {
        text: ReaderInput::new(Breaking::new(given.text, fails == Name::Text)),
        content: ReaderInput::new(Breaking::new(given.content, fails == Name::Content)),
        keys: ReaderInput::new(Breaking::new(given.keys, fails == Name::Keys)),
        random: ReaderInput::new(Breaking::new(given.random, fails == Name::Random)),
    };
    performed(alloc, words, &mut inputs, room)
}

/// A reader of these octets, which then fails or ends.
#[derive(Drop)]
struct Breaking<'a> {
    octets: &'a [u8],
    fails: bool,
}

impl<'a> Breaking<'a> {
    fn new(octets: &'a [u8], fails: bool) -> Breaking<'a> {
        Breaking { octets, fails }
    }
}

impl<'a> Read for Breaking<'a> {
    fn read(&mut self, buf: &mut [u8]) -> io::Result<usize> {
        if self.octets.is_empty() && self.fails {
            return Err(io::Error::from(io::ErrorKind::Other));
        }
        self.octets.read(buf)
    }
}

/// The words of a command line, which have one blank between them, and more words after them.
pub(crate) fn words_of(alloc: Global, line: &[u8], more: &[&[u8]]) -> Result<Vec<String>, Bad> {
    let mut words = Vec::new(alloc);
    for word in text_of(line).split(' ') {
        words.push(String::from_str(alloc, word)?)?;
    }
    for word in more {
        words.push(String::from_str(alloc, text_of(word))?)?;
    }
    Ok(words)
}

/// The octets as text, or nothing if they are none.
fn text_of(octets: &[u8]) -> &str {
    str::from_utf8(octets).unwrap_or("")
}
