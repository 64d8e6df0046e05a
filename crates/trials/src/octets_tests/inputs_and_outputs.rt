//! Each device in use: over memory, over readers and writers, and over those that are slow or fail.
use crate::expected::{expect_octets, expect_same};
use crate::octets_tests::whole::repeated;
use octets::{
    Fault, Input, MemoryInput, MemoryOutput, Output, ReaderInput, Refusal, WriterOutput, draw,
    read_to_end, write_whole,
};
use std::alloc::Global;
use std::io;
use std::io::{Read, Write};
use std::process::Abort;
use std::test::Fail;

/// The result of a read into four octets.
fn next_four<I: Input>(input: &mut I) -> (Result<usize, Fault>, [u8; 4]) {
    let mut octets = [0u8; 4];
    let result = input.read(&mut octets);
    (result, octets)
}

#[test]
fn an_input_gives_its_octets_and_then_the_end(rt: HostRuntime) {
    let mut whole = MemoryInput::new(b"abcde", 9);
    let mut slow = MemoryInput::new(b"ab", 1);
    let mut reader = ReaderInput::new(b"abcde".as_slice());
    for (octets, n, slow_octets, slow_n) in [
        (*b"abcd", 4, *b"a\0\0\0", 1),
        (*b"e\0\0\0", 1, *b"b\0\0\0", 1),
        (*b"\0\0\0\0", 0, *b"\0\0\0\0", 0),
        (*b"\0\0\0\0", 0, *b"\0\0\0\0", 0),
    ] {
        expect_same(&rt, next_four(&mut whole), (Ok(n), octets), "whole");
        expect_same(&rt, next_four(&mut slow), (Ok(slow_n), slow_octets), "slow");
        expect_same(&rt, next_four(&mut reader), (Ok(n), octets), "a reader");
    }
}

/// One call writes each of these octet strings, with this result.
fn expect_writes<O: Output>(
    rt: &impl Abort,
    out: &mut O,
    writes: &[(&[u8], Result<usize, Fault>)],
) {
    for (octets, result) in writes {
        expect_same(rt, out.write(octets), *result, octets.len());
    }
}

#[test]
fn an_output_takes_what_it_has_room_for(rt: HostRuntime) -> Result<(), Fail> {
    let mut out = MemoryOutput::new(rt.alloc(), 5)?;
    let writes: [(&[u8], Result<usize, Fault>); 4] = [
        (b"abc", Ok(3)),
        (b"", Ok(0)),
        (b"def", Ok(2)),
        (b"f", Err(Fault::Writing)),
    ];
    expect_writes(&rt, &mut out, &writes);
    assert!(rt; !out.is_finished());
    expect_same(&rt, out.finish(), Ok(()), "the end");
    assert!(rt; out.is_finished());
    expect_octets(&rt, out.octets(), b"abcde");
    Ok(())
}

#[test]
fn a_writer_gets_what_an_output_takes(rt: HostRuntime) -> Result<(), Fail> {
    let mut kept = Vec::new(rt.alloc());
    let mut out = WriterOutput::new(&mut kept);
    let writes: [(&[u8], Result<usize, Fault>); 3] = [
        (b"abc", Ok(3)),
        (b"", Ok(0)),
        (b"de", Ok(2)),
    ];
    expect_writes(&rt, &mut out, &writes);
    expect_same(&rt, out.finish(), Ok(()), "the end");
    drop(out);
    expect_octets(&rt, &kept, b"abcde");
    Ok(())
}

/// A reader and a writer that always fail.
#[derive(Drop)]
struct Broken;

impl Read for Broken {
    fn read(&mut self, _buf: &mut [u8]) -> io::Result<usize> {
        Err(io::Error::from(io::ErrorKind::Other))
    }
}

impl Write for Broken {
    fn write(&mut self, _octets: &[u8]) -> io::Result<usize> {
        Err(io::Error::from(io::ErrorKind::Other))
    }

    fn flush(&mut self) -> io::Result<()> {
        Err(io::Error::from(io::ErrorKind::Other))
    }
}

#[test]
fn what_fails_below_is_a_fault(rt: HostRuntime) {
    let mut octets = [0u8; 4];
    let read = ReaderInput::new(Broken).read(&mut octets);
    expect_same(&rt, read, Err(Fault::Reading), "reading");
    let written = WriterOutput::new(Broken).write(b"abc");
    expect_same(&rt, written, Err(Fault::Writing), "writing");
    let finished = WriterOutput::new(Broken).finish();
    expect_same(&rt, finished, Err(Fault::Writing), "the end");
    // A writer that takes nothing: a slice without room.
    let mut none = [0u8; 0];
    let written = WriterOutput::new(none.as_mut_slice()).write(b"abc");
    expect_same(&rt, written, Err(Fault::Writing), "no room");
}

/// A reader and a writer. Signals interrupt each of its calls three times, and then one octet is read or written.
#[derive(Drop)]
struct Slow<'a> {
    gives: &'a [u8],
    taken: Vec<u8>,
    is_flushed: bool,
    turn: u8,
}

impl<'a> Slow<'a> {
    fn new(alloc: Global, gives: &'a [u8]) -> Slow<'a> {
        Slow {
            gives,
            taken: Vec::new(alloc),
            is_flushed: false,
            turn: 0,
        }
    }

    fn interrupt(&mut self) -> io::Result<()> {
        self.turn = self.turn % 4 + 1;
        if self.turn < 4 {
            Err(io::Error::from(io::ErrorKind::Interrupted))
        } else {
            Ok(())
        }
    }
}

impl<'a> Read for Slow<'a> {
    fn read(&mut self, buf: &mut [u8]) -> io::Result<usize> {
        self.interrupt()?;
        let n = self.gives.len().min(buf.len()).min(1);
        buf[..n].copy_from_slice(&self.gives[..n]);
        self.gives = &self.gives[n..];
        Ok(n)
    }
}

impl<'a> Write for Slow<'a> {
    fn write(&mut self, octets: &[u8]) -> io::Result<usize> {
        self.interrupt()?;
        let n = octets.len().min(1);
        self.taken.extend_from_slice(&octets[..n])?;
        Ok(n)
    }

    fn flush(&mut self) -> io::Result<()> {
        self.interrupt()?;
        self.is_flushed = true;
        Ok(())
    }
}

/// A read into `len` octets reads these.
fn expect_read<I: Input>(rt: &impl Abort, input: &mut I, len: usize, octets: &[u8]) {
    let mut place = [0u8; 4];
    assert!(rt; len <= 4 && octets.len() <= 4);
    expect_same(rt, input.read(&mut place[..len]), Ok(octets.len()), len);
    expect_octets(rt, &place[..octets.len()], octets);
}

#[test]
fn an_interrupted_and_slow_reader_is_no_fault(rt: HostRuntime) {
    let mut input = ReaderInput::new(Slow::new(rt.alloc(), b"abcdef"));
    expect_read(&rt, &mut input, 0, b"");
    expect_read(&rt, &mut input, 1, b"a");
    expect_read(&rt, &mut input, 4, b"b");
    let mut octets = [0u8; 4];
    expect_same(&rt, draw(&mut input, &mut octets), Ok(()), "four octets");
    expect_octets(&rt, &octets, b"cdef");
    expect_read(&rt, &mut input, 4, b"");
}

#[test]
fn an_interrupted_and_slow_writer_is_no_fault(rt: HostRuntime) -> Result<(), Fail> {
    let hundred = repeated(rt.alloc(), b"foo", 33, b"f")?;
    let many = repeated(rt.alloc(), b"foo", 33_333, b"f")?;
    let mut writer = Slow::new(rt.alloc(), b"");
    let mut out = WriterOutput::new(&mut writer);
    let writes: [(&[u8], Result<usize, Fault>); 3] = [(b"", Ok(0)), (b"f", Ok(1)), (b"oo", Ok(1))];
    expect_writes(&rt, &mut out, &writes);
    let wholes: [&[u8]; 4] = [b"o", &hundred, b"oo", &many];
    for octets in wholes {
        expect_same(&rt, write_whole(&mut out, octets), Ok(()), octets.len());
    }
    expect_same(&rt, out.finish(), Ok(()), "the end");
    drop(out);
    assert!(rt; writer.is_flushed);
    let all = repeated(rt.alloc(), b"foo", 33_368, b"f")?;
    expect_octets(&rt, &writer.taken, &all);
    Ok(())
}

#[test]
fn slow_octets_are_read(rt: HostRuntime) -> Result<(), Fail> {
    let octets = repeated(rt.alloc(), b"foo", 23_333, b"f")?;
    let mut input = MemoryInput::new(&octets, 1);
    expect_octets(&rt, &read_to_end(rt.alloc(), &mut input)?, &octets);
    let mut input = ReaderInput::new(Slow::new(rt.alloc(), &octets));
    expect_octets(&rt, &read_to_end(rt.alloc(), &mut input)?, &octets);
    Ok(())
}

#[test]
fn a_draw_takes_what_it_draws(rt: HostRuntime) {
    let mut octets = [0u8; 2];
    let drawn = draw(&mut ReaderInput::new(Broken), &mut octets);
    expect_same(&rt, drawn, Err(Refusal::Read), "a reader that fails");
    let mut random = MemoryInput::new(b"abc", 1);
    expect_same(&rt, draw(&mut random, &mut octets), Ok(()), "two octets");
    expect_read(&rt, &mut random, 4, b"c");
}
