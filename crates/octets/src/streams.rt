//! Devices over std's readers and writers. What passed through one is kept for contracts only.
ghost use Rattle.std.specs.Prelude.{◌≡◌, ◌≢◌, ◌+◌, ◌-◌, ◌^◌, ◌<◌, ◌≤◌, [], length, take, drop, true, false, IfOk, IfErr, Ok, MatchResult, IsTrue};
ghost use Rattle.std.specs.Iterator.{at_most};
ghost use Rattle.std.specs.Io.KnownBytes.{Consumes, Keeps, IsAtEnd, ReadConsumes, WriteAppends};
ghost use Rattle.std.specs.IoError.{error_kind};
ghost use Rattle.octets.specs.Devices.{input_members, output_members, Reads, Writes, Finishes};
ghost use Rattle.octets.specs.Code.Streams.{most_octets};
ghost use Rattle.octets.specs.Octets.{IsOctets};

use crate::devices::count_one;
use crate::laws::are_octets;
use crate::sizes::PIECE;
use crate::transcript::Transcript;
use crate::{Fault, Input, Output};
use std::io;
use std::io::{ErrorKind, Read, Write};

/// A read after this many octets fails.
const MOST_OCTETS: u64 = 1 << 62;

/// An input over a reader. One read returns at most [`PIECE`] octets. A read that a signal interrupted is made again. A read after 2^62 octets
/// fails.
#[derive(Drop)]
pub struct ReaderInput<R> {
    reader: R,
    count: u64,
    is_at_end: bool,
    failures: u64,
    transcript: Transcript,
    ghost few: { count ≤ most_octets },
    ghost known: { IsOctets transcript.octets },
}

impl<R: Read> ReaderInput<R> {
    ghost use Rattle.octets.specs.Code.Views.{reader_of, consumed_of, is_at_end_of, remaining_of, read_failures_of};

    /// An input of what the reader reads.
    pub fn new(reader: R) -> ReaderInput<R>
        ensures reader { reader_of result ≡ reader }
        ensures consumed { consumed_of result ≡ [] }
        ensures begins { is_at_end_of result ≡ false }
        ensures remaining { remaining_of result ≡ at_most most_octets }
        ensures failures { read_failures_of result ≡ 0 }
    {
        ReaderInput {
            reader,
            count: 0,
            is_at_end: false,
            failures: 0,
            transcript: Transcript::new(),
        }
    }
}

impl<R: Read> Input for ReaderInput<R> {
    ghost use Rattle.octets.specs.Code.Views.{reader_of, consumed_of, is_at_end_of, remaining_of, read_failures_of, unknown_source, nothing_is_known};

    ghost consumed = { consumed_of };

    ghost is_at_end = { is_at_end_of };

    ghost remaining = { remaining_of };

    ghost failures = { read_failures_of };

    ghost source = { unknown_source };

    ghost gives_octets = { λ input. input.known };

    ghost gives_source = { nothing_is_known };

    fn read(&mut self, buf: &mut [u8]) -> Result<usize, Fault>
        // If the octets of the reader are known, these are read, and the end is that of the reader.
        ensures source { MatchResult result
            (λ n. Consumes (R.remaining (reader_of self.old)) (R.remaining (reader_of self.new)) (take n buf.new))
            (λ _. Keeps (R.remaining (reader_of self.old)) (R.remaining (reader_of self.new))) }
        ensures source_end { is_at_end_of self.old ≡ false → is_at_end_of self.new ≡ true
            → IsAtEnd (R.remaining (reader_of self.new)) }
        // Behind the octets that were read the buffer is unchanged, and after a failure all of it is.
        ensures rest { MatchResult result (λ n. drop n buf.new ≡ drop n buf.old) (λ _. buf.new ≡ buf.old) }
        // After its end the reader is not asked again.
        ensures ended { IsTrue (is_at_end_of self.old) → (result ≡ Ok 0) × (self.new ≡ self.old) × (buf.new ≡ buf.old) }

        // What the trait says.
        ensures does { Reads (input_members consumed_of is_at_end_of read_failures_of) remaining_of unknown_source self.old self.new buf.old buf.new result }
    {
        if self.is_at_end || buf.is_empty() {
            return Ok(0);
        }
        let left = (MOST_OCTETS - self.count) as usize;
        let room = buf.len().min(left).min(PIECE);
        let mut piece = [0u8; PIECE];
        let taken = if room == 0 {
            None
        } else {
            read_once(&mut self.reader, &mut piece[..room]).ok()
        };
        let Some(n) = taken else {
            count_one(&mut self.failures);
            return Err(Fault::Reading);
        };
        are_octets(&piece[..n]);
        buf[..n].copy_from_slice(&piece[..n]);
        self.transcript.append(&buf[..n]);
        self.count += n as u64;
        self.is_at_end = n == 0;
        Ok(n)
    }
}

/// One read, which is made again if a signal interrupted it.
fn read_once<R: Read>(reader: &mut R, buf: &mut [u8]) -> io::Result<usize>
    ensures count { IfOk result (λ n. n ≤ length buf.new) }
    ensures source { ReadConsumes (R.remaining reader.old) (R.remaining reader.new) result buf.new }
    ensures retried { IfErr result (λ e. error_kind e ≢ ErrorKind.Interrupted) }
{
    'reads: for _ in 0..u64::MAX {
        match reader.read(buf) {
            Err(e) if e.kind() == ErrorKind::Interrupted => continue 'reads,
            result => return result,
        }
    }
    Err(io::Error::from(ErrorKind::Other))
}

/// An output over a writer. A write that a signal interrupted is made again. A write that takes nothing fails.
#[derive(Drop)]
pub struct WriterOutput<W> {
    writer: W,
    is_finished: bool,
    endings: u64,
    failures: u64,
    transcript: Transcript,
}

impl<W: Write> WriterOutput<W> {
    ghost use Rattle.octets.specs.Code.Views.{writer_of, written_of, is_finished_of, endings_of, write_failures_of};

    /// An output to the writer.
    pub fn new(writer: W) -> WriterOutput<W>
        ensures writer { writer_of result ≡ writer }
        ensures written { written_of result ≡ [] }
        ensures unfinished { is_finished_of result ≡ false }
        ensures endings { endings_of result ≡ 0 }
        ensures failures { write_failures_of result ≡ 0 }
    {
        WriterOutput {
            writer,
            is_finished: false,
            endings: 0,
            failures: 0,
            transcript: Transcript::new(),
        }
    }
}

impl<W: Write> Output for WriterOutput<W> {
    ghost use Rattle.octets.specs.Code.Views.{writer_of, written_of, is_finished_of, endings_of, write_failures_of};

    ghost written = { written_of };

    ghost is_finished = { is_finished_of };

    ghost endings = { endings_of };

    ghost failures = { write_failures_of };

    fn write(&mut self, octets: &[u8]) -> Result<usize, Fault>
        // If the contents of the writer are known, what was written follows them.
        ensures sink { WriteAppends (W.contents (writer_of self.old)) (W.contents (writer_of self.new)) result octets.now }

        // What the trait says.
        ensures does { Writes (output_members written_of is_finished_of endings_of write_failures_of) self.old self.new octets.now result }
    {
        if octets.is_empty() {
            return Ok(0);
        }
        self.is_finished = false;
        match write_once(&mut self.writer, octets) {
            Ok(n) if n > 0 => {
                self.transcript.append(&octets[..n]);
                Ok(n)
            }
            _ => {
                count_one(&mut self.failures);
                Err(Fault::Writing)
            }
        }
    }

    fn finish(&mut self) -> Result<(), Fault>
        ensures sink { Keeps (W.contents (writer_of self.old)) (W.contents (writer_of self.new)) }

        // What the trait says.
        ensures does { Finishes (output_members written_of is_finished_of endings_of write_failures_of) self.old self.new result }
    {
        if flush_once(&mut self.writer).is_err() {
            count_one(&mut self.failures);
            return Err(Fault::Writing);
        }
        self.is_finished = true;
        count_one(&mut self.endings);
        Ok(())
    }
}

/// One write, which is made again if a signal interrupted it.
fn write_once<W: Write>(writer: &mut W, octets: &[u8]) -> io::Result<usize>
    ensures count { IfOk result (λ n. n ≤ length octets.now) }
    ensures sink { WriteAppends (W.contents writer.old) (W.contents writer.new) result octets.now }
    ensures retried { IfErr result (λ e. error_kind e ≢ ErrorKind.Interrupted) }
{
    'writes: for _ in 0..u64::MAX {
        match writer.write(octets) {
            Err(e) if e.kind() == ErrorKind::Interrupted => continue 'writes,
            result => return result,
        }
    }
    Err(io::Error::from(ErrorKind::Other))
}

/// One flush, which is made again if a signal interrupted it.
fn flush_once<W: Write>(writer: &mut W) -> io::Result<()>
    ensures sink { Keeps (W.contents writer.old) (W.contents writer.new) }
    ensures retried { IfErr result (λ e. error_kind e ≢ ErrorKind.Interrupted) }
{
    'flushes: for _ in 0..u64::MAX {
        match writer.flush() {
            Err(e) if e.kind() == ErrorKind::Interrupted => continue 'flushes,
            result => return result,
        }
    }
    Err(io::Error::from(ErrorKind::Other))
}
