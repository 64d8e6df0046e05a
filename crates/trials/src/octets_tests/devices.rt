//! Devices over readers and writers that fail, are interrupted, or pass long texts.
use crate::expected::{expect_octets, expect_same};
use crate::octets_tests::whole::repeated;
use octets::{Fault, Input, Output, PIECE, ReaderInput, Refusal, WriterOutput, draw, write_whole};
use std::alloc::Global;
use std::io;
use std::io::{ErrorKind, Read, Write};
use std::process::Abort;
use std::test::Fail;

/// A reader and a writer whose first calls fail with one kind. Then all its octets are read, and it takes all.
#[derive(Drop)]
struct Failing<'a> {
    kind: ErrorKind,
    failures: usize,
    calls: usize,
    gives: &'a [u8],
    taken: Vec<u8>,
    flushes: usize,
}

impl<'a> Failing<'a> {
    fn new(alloc: Global, kind: ErrorKind, failures: usize, gives: &'a [u8]) -> Failing<'a> {
        Failing {
            kind,
            failures,
            calls: 0,
            gives,
            taken: Vec::new(alloc),
            flushes: 0,
        }
    }

    fn call(&mut self) -> io::Result<()> {
        self.calls = self.calls.saturating_add(1);
        if self.calls <= self.failures {
            Err(io::Error::from(self.kind))
        } else {
            Ok(())
        }
    }
}

impl<'a> Read for Failing<'a> {
    fn read(&mut self, buf: &mut [u8]) -> io::Result<usize> {
        self.call()?;
        self.gives.read(buf)
    }
}

impl<'a> Write for Failing<'a> {
    fn write(&mut self, octets: &[u8]) -> io::Result<usize> {
        self.call()?;
        self.taken.extend_from_slice(octets)?;
        Ok(octets.len())
    }

    fn flush(&mut self) -> io::Result<()> {
        self.call()?;
        self.flushes = self.flushes.saturating_add(1);
        Ok(())
    }
}

/// Each kind of failure except an interruption.
const KINDS: &[ErrorKind] = &[
    ErrorKind::NotFound,
    ErrorKind::PermissionDenied,
    ErrorKind::ConnectionRefused,
    ErrorKind::ConnectionReset,
    ErrorKind::HostUnreachable,
    ErrorKind::NetworkUnreachable,
    ErrorKind::ConnectionAborted,
    ErrorKind::NotConnected,
    ErrorKind::AddrInUse,
    ErrorKind::AddrNotAvailable,
    ErrorKind::NetworkDown,
    ErrorKind::BrokenPipe,
    ErrorKind::AlreadyExists,
    ErrorKind::WouldBlock,
    ErrorKind::NotADirectory,
    ErrorKind::IsADirectory,
    ErrorKind::DirectoryNotEmpty,
    ErrorKind::ReadOnlyFilesystem,
    ErrorKind::FilesystemLoop,
    ErrorKind::StaleNetworkFileHandle,
    ErrorKind::InvalidInput,
    ErrorKind::InvalidData,
    ErrorKind::TimedOut,
    ErrorKind::WriteZero,
    ErrorKind::StorageFull,
    ErrorKind::NotSeekable,
    ErrorKind::QuotaExceeded,
    ErrorKind::FileTooLarge,
    ErrorKind::ResourceBusy,
    ErrorKind::ExecutableFileBusy,
    ErrorKind::Deadlock,
    ErrorKind::CrossesDevices,
    ErrorKind::TooManyLinks,
    ErrorKind::InvalidFilename,
    ErrorKind::ArgumentListTooLong,
    ErrorKind::Unsupported,
    ErrorKind::UnexpectedEof,
    ErrorKind::OutOfMemory,
    ErrorKind::InProgress,
    ErrorKind::Other,
    ErrorKind::Uncategorized,
];

/// A read returns this answer.
fn expect_reading<R: Read>(
    rt: &impl Abort,
    input: &mut ReaderInput<R>,
    answer: Result<usize, Fault>,
    kind: ErrorKind,
) {
    let mut place = *b"........";
    expect_same(rt, input.read(&mut place), answer, kind);
    if answer.is_ok() {
        expect_octets(rt, &place, b"abc.....");
    }
}

/// Each read that fails so is one fault. The next read starts at the front of the octets.
fn fails_to_read<R: Abort + AllocGlobal>(rt: &R, kind: ErrorKind, times: usize) {
    let mut reader = Failing::new(rt.alloc(), kind, times, b"abc");
    let mut input = ReaderInput::new(&mut reader);
    for _ in 0..times {
        expect_reading(rt, &mut input, Err(Fault::Reading), kind);
    }
    expect_reading(rt, &mut input, Ok(3), kind);
    drop(input);
    expect_same(rt, reader.calls, times.saturating_add(1), kind);
}

/// Each write that fails so is one fault. The next write takes the octets.
fn fails_to_write<R: Abort + AllocGlobal>(rt: &R, kind: ErrorKind, times: usize) {
    let mut writer = Failing::new(rt.alloc(), kind, times, b"");
    let mut out = WriterOutput::new(&mut writer);
    for _ in 0..times {
        expect_same(rt, out.write(b"abc"), Err(Fault::Writing), kind);
    }
    expect_same(rt, out.write(b"def"), Ok(3), kind);
    expect_same(rt, out.finish(), Ok(()), kind);
    drop(out);
    let calls = (writer.calls, writer.flushes);
    expect_same(rt, calls, (times.saturating_add(2), 1), kind);
    expect_octets(rt, &writer.taken, b"def");
}

/// Each `finish` whose flush fails so is one fault. The next `finish` works.
fn fails_to_finish<R: Abort + AllocGlobal>(rt: &R, kind: ErrorKind, times: usize) {
    let mut writer = Failing::new(rt.alloc(), kind, times, b"");
    let mut out = WriterOutput::new(&mut writer);
    for _ in 0..times {
        expect_same(rt, out.finish(), Err(Fault::Writing), kind);
    }
    expect_same(rt, out.finish(), Ok(()), kind);
    drop(out);
    let calls = (writer.calls, writer.flushes);
    expect_same(rt, calls, (times.saturating_add(1), 1), kind);
}

/// How often a call fails in a row, before it works.
const TIMES: &[usize] = &[1, 2, 3];

#[test]
fn each_kind_of_failure_is_reported_as_often_as_it_comes(rt: HostRuntime) {
    for kind in KINDS {
        for times in TIMES {
            fails_to_read(&rt, *kind, *times);
            fails_to_write(&rt, *kind, *times);
            fails_to_finish(&rt, *kind, *times);
        }
    }
}

/// A writer whose writes work, and whose first flushes fail with one kind.
#[derive(Drop)]
struct FailingAtItsEnd {
    kind: ErrorKind,
    failures: usize,
    taken: Vec<u8>,
    flushes: usize,
}

impl Write for FailingAtItsEnd {
    fn write(&mut self, octets: &[u8]) -> io::Result<usize> {
        self.taken.extend_from_slice(octets)?;
        Ok(octets.len())
    }

    fn flush(&mut self) -> io::Result<()> {
        self.flushes = self.flushes.saturating_add(1);
        if self.flushes <= self.failures {
            Err(io::Error::from(self.kind))
        } else {
            Ok(())
        }
    }
}

/// What was written is there once, and each `finish` that fails so is reported.
fn ends_after_failures<R: Abort + AllocGlobal>(rt: &R, kind: ErrorKind, failures: usize) {
    let mut writer = FailingAtItsEnd {
        kind,
        failures,
        taken: Vec::new(rt.alloc()),
        flushes: 0,
    };
    let mut out = WriterOutput::new(&mut writer);
    expect_same(rt, write_whole(&mut out, b"abc"), Ok(()), kind);
    for _ in 0..failures {
        expect_same(rt, out.finish(), Err(Fault::Writing), kind);
    }
    expect_same(rt, out.finish(), Ok(()), kind);
    drop(out);
    expect_same(rt, writer.flushes, failures.saturating_add(1), kind);
    expect_octets(rt, &writer.taken, b"abc");
}

#[test]
fn a_failing_end_is_reported_although_all_was_taken(rt: HostRuntime) {
    for kind in KINDS {
        for failures in TIMES {
            ends_after_failures(&rt, *kind, *failures);
        }
    }
}

/// After a write that failed, `finish` flushes what the writer took.
#[test]
fn an_output_is_finished_after_a_write_that_failed(rt: HostRuntime) {
    let mut writer = Failing::new(rt.alloc(), ErrorKind::StorageFull, 1, b"");
    let mut out = WriterOutput::new(&mut writer);
    expect_same(&rt, out.write(b"abc"), Err(Fault::Writing), "writing");
    expect_same(&rt, out.finish(), Ok(()), "the end");
    drop(out);
    expect_same(&rt, (writer.calls, writer.flushes), (2, 1), "calls");
    expect_octets(&rt, &writer.taken, b"");
}

/// How many signals interrupt a call, one after another.
const MANY: usize = 100_000;

#[test]
fn a_read_is_made_again_after_many_interruptions(rt: HostRuntime) {
    let mut reader = Failing::new(rt.alloc(), ErrorKind::Interrupted, MANY, b"abc");
    let mut input = ReaderInput::new(&mut reader);
    expect_reading(&rt, &mut input, Ok(3), ErrorKind::Interrupted);
    drop(input);
    expect_same(&rt, reader.calls, MANY + 1, "calls");
}

#[test]
fn a_write_is_made_again_after_many_interruptions(rt: HostRuntime) {
    let mut writer = Failing::new(rt.alloc(), ErrorKind::Interrupted, MANY, b"");
    let mut out = WriterOutput::new(&mut writer);
    expect_same(&rt, out.write(b"abc"), Ok(3), "writing");
    drop(out);
    expect_same(&rt, writer.calls, MANY + 1, "calls");
    expect_octets(&rt, &writer.taken, b"abc");
}

#[test]
fn a_flush_is_made_again_after_many_interruptions(rt: HostRuntime) {
    let mut writer = Failing::new(rt.alloc(), ErrorKind::Interrupted, MANY, b"");
    let mut out = WriterOutput::new(&mut writer);
    expect_same(&rt, out.finish(), Ok(()), "the end");
    drop(out);
    let calls = (writer.calls, writer.flushes);
    expect_same(&rt, calls, (MANY + 1, 1), "calls");
}

/// A read and a write of nothing do not call the device below, which would fail. The octets are there for the next read.
#[test]
fn a_read_and_a_write_of_nothing_do_nothing(rt: HostRuntime) {
    let mut device = Failing::new(rt.alloc(), ErrorKind::Other, 1, b"abc");
    let mut input = ReaderInput::new(&mut device);
    expect_same(&rt, input.read(&mut []), Ok(0), "no room");
    expect_same(&rt, draw(&mut input, &mut []), Ok(()), "no octets");
    let mut octets = [0u8; 3];
    let refused = draw(&mut input, &mut octets);
    expect_same(&rt, refused, Err(Refusal::Read), "the failure");
    expect_same(&rt, input.read(&mut []), Ok(0), "no room again");
    expect_same(&rt, draw(&mut input, &mut octets), Ok(()), "the octets");
    expect_octets(&rt, &octets, b"abc");
    drop(input);
    expect_same(&rt, device.calls, 2, "calls");
    let mut out = WriterOutput::new(&mut device);
    expect_same(&rt, out.write(b""), Ok(0), "nothing");
    expect_same(&rt, write_whole(&mut out, b""), Ok(()), "nothing at all");
    drop(out);
    expect_same(&rt, device.calls, 2, "calls");
}

/// The octets go through a reader and a writer, `room` octets at a time, or `PIECE` if that is less.
fn passes<R: Abort + AllocGlobal>(rt: &R, octets: &[u8], room: usize) -> Result<(), Fail> {
    let mut buf = repeated(rt.alloc(), b"\0", room, b"")?;
    let mut input = ReaderInput::new(octets);
    let mut kept = Vec::new(rt.alloc());
    let mut out = WriterOutput::new(&mut kept);
    for _ in 0..octets.len() / room.min(PIECE).max(1) + 1 {
        passes_once(rt, &mut input, &mut out, &mut buf);
    }
    expect_same(rt, input.read(&mut buf), Ok(0), "the end");
    expect_same(rt, out.finish(), Ok(()), "the end");
    drop(out);
    expect_octets(rt, &kept, octets);
    Ok(())
}

/// One write takes what one read returns.
fn passes_once<I: Input, O: Output>(rt: &impl Abort, input: &mut I, out: &mut O, buf: &mut [u8]) {
    let n = input.read(buf).unwrap_or(0);
    assert!(rt; n <= PIECE);
    assert!(rt; n <= buf.len());
    expect_same(rt, out.write(&buf[..n]), Ok(n), n);
}

/// How many octets a read or a write has room for.
const ROOMS: &[usize] = &[4095, 4097, 65536];

/// 2,100,001 octets.
#[test]
fn long_octets_pass_through_a_reader_and_a_writer(rt: HostRuntime) -> Result<(), Fail> {
    let octets = repeated(rt.alloc(), b"foo", 700_000, b"f")?;
    for room in ROOMS {
        passes(&rt, &octets, *room)?;
    }
    Ok(())
}
