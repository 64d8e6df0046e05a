//! Reading an input to its end, or exactly as many octets as are needed, and writing all of a text.
ghost use Rattle.std.specs.Prelude.{◌≡◌, ◌<◌, ◌≤◌, ◌++◌, length, take, drop, Ok, IfOk, OnOk, OnErr, IfErr, IsTrue};
ghost use Rattle.std.specs.Iterator.{IsFinite, size};
ghost use Rattle.octets.specs.Devices.{next_count, appended, observed, AppendsPrefixOf, IsFinishedOnce};
ghost use Rattle.octets.specs.Code.Streams.{Extends};
ghost use Rattle.octets.specs.Octets.{IsOctets};
ghost use Rattle.octets.specs.Code.Results.{IsReadingFailure, IsDrawingFailure};

use crate::laws::are_octets;
use crate::sizes::PIECE;
use crate::{Input, Output, Refusal};
use std::alloc::Global;

/// Reads the input to its end. Refuses with `Read` if it fails, and with `Memory`.
pub fn read_to_end<I: Input>(alloc: Global, input: &mut I) -> Result<Vec<u8>, Refusal>
    requires { IsFinite (I.remaining input.old) }
    ensures whole { IfOk result (λ octets. (I.consumed input.new ≡ I.consumed input.old ++ octets.items)
        × IsTrue (I.is_at_end input.new)) }
    ensures same_source { I.source input.new ≡ I.source input.old }
    ensures works { OnOk result (I.failures input.new ≡ I.failures input.old) }
    ensures fails { IfErr result (IsReadingFailure (I.failures input.old) (I.failures input.new)) }
    ensures extends { Extends (I.consumed input.old) (I.consumed input.new) }
{
    let mut octets = Vec::new(alloc);
    let mut buf = [0u8; PIECE];
    'reads: loop {
        let n = input.read(&mut buf)?;
        if n == 0 {
            return Ok(octets);
        }
        octets.extend_from_slice(&buf[..n])?;
    }
}

/// Reads the next piece of a content into the front of `buf` and returns its length, which is 0 only at the end. Refuses with `Read` if the
/// input fails.
pub(crate) fn read_piece<I: Input>(content: &mut I, buf: &mut [u8; PIECE]) -> Result<usize, Refusal>
    requires { IsFinite (I.remaining content.old) }
    ensures within { IfOk result (λ n. n ≤ PIECE) }
    ensures piece { IfOk result (λ n. I.consumed content.new ≡ I.consumed content.old ++ take n buf.new) }
    ensures octets { OnOk result (IsOctets buf.new) }
    ensures end { result ≡ Ok 0 → IsTrue (I.is_at_end content.new) }
    ensures nearer { IsFinite (I.remaining content.new)
        × IfOk result (λ n. 0 < n → size (I.remaining content.new) < size (I.remaining content.old)) }
    ensures same_source { I.source content.new ≡ I.source content.old }
    ensures works { OnOk result (I.failures content.new ≡ I.failures content.old) }
    ensures cause { OnErr result (result ≡ Err Refusal.Read) }
    ensures fails { OnErr result ((I.consumed content.new ≡ I.consumed content.old)
        × (I.failures content.new ≡ next_count (I.failures content.old))) }
{
    let n = content.read(buf)?;
    are_octets(buf);
    Ok(n)
}

/// Fills `out` from the random input, and reads exactly so many octets of it. Refuses with `Read` if the input fails, and with `Random` if
/// it ends too early. Then the front of `out` has what was read, and the rest is unchanged.
pub fn draw<I: Input>(random: &mut I, out: &mut [u8]) -> Result<(), Refusal>
    ensures octets { OnOk result (I.consumed random.new ≡ I.consumed random.old ++ out.new) }
    ensures taken { let drawn = appended (I.consumed random.old) (I.consumed random.new)
        in out.new ≡ drawn ++ drop (length drawn) out.old }
    ensures same_source { I.source random.new ≡ I.source random.old }
    ensures works { OnOk result (I.failures random.new ≡ I.failures random.old) }
    ensures fails { IfErr result (IsDrawingFailure (length out.old)
        (observed I.consumed I.is_at_end random.old random.new)
        (I.failures random.old) (I.failures random.new)) }
    ensures extends { Extends (I.consumed random.old) (I.consumed random.new) }
    ensures at_most { length (appended (I.consumed random.old) (I.consumed random.new)) ≤ length out.old }
    ensures untouched { length out.old ≡ 0 → random.new ≡ random.old }
{
    let mut buf = [0u8; PIECE];
    let mut filled = 0;
    'draws: while filled < out.len() {
        let room = (out.len() - filled).min(PIECE);
        let n = random.read(&mut buf[..room])?;
        if n == 0 {
            return Err(Refusal::Random);
        }
        out[filled..filled + n].copy_from_slice(&buf[..n]);
        filled += n;
    }
    Ok(())
}

/// How many octets were written before an output failed.
#[derive(Clone, Copy, Debug, PartialEq, Eq)]
pub struct Partial {
    pub written: usize,
}

impl From<Partial> for Refusal {
    ghost use Rattle.octets.specs.declared.refusal.Refusal.TheVariants.{Write};

    ghost from_gives = { λ _ refusal. refusal ≡ Write };

    fn from(_: Partial) -> Refusal {
        Refusal::Write
    }
}

/// Writes all of the octets. After a failure `Partial` says exactly how many were written. Writing nothing does nothing.
pub fn write_whole<O: Output>(out: &mut O, octets: &[u8]) -> Result<(), Partial>
    ensures all { OnOk result (O.written out.new ≡ O.written out.old ++ octets.now) }
    ensures part { IfErr result (λ e. (e.written < length octets.now)
        × (O.written out.new ≡ O.written out.old ++ take e.written octets.now)) }
    ensures works { OnOk result (O.failures out.new ≡ O.failures out.old) }
    ensures fails { OnErr result (O.failures out.new ≡ next_count (O.failures out.old)) }
    ensures nothing { length octets.now ≡ 0 → out.new ≡ out.old }
    ensures endings { O.endings out.new ≡ O.endings out.old }
{
    let mut written = 0;
    'writes: while written < octets.len() {
        match out.write(&octets[written..]) {
            Ok(n) => written += n,
            Err(_) => return Err(Partial { written }),
        }
    }
    Ok(())
}

/// Writes all of the octets, and then finishes, once. If the output fails, a beginning of the octets is written, and the output is not
/// finished.
pub fn emit<O: Output>(out: &mut O, octets: &[u8]) -> Result<(), Refusal>
    ensures all { OnOk result (O.written out.new ≡ O.written out.old ++ octets.now) }
    ensures finished { OnOk result (IsFinishedOnce O.is_finished O.endings out.old out.new) }
    ensures unfinished { OnErr result (O.endings out.new ≡ O.endings out.old) }
    ensures works { OnOk result (O.failures out.new ≡ O.failures out.old) }
    ensures part { OnErr result (AppendsPrefixOf octets.now (O.written out.old) (O.written out.new)) }
    ensures cause { OnErr result (result ≡ Err Refusal.Write) }
    ensures fails { OnErr result (O.failures out.new ≡ next_count (O.failures out.old)) }
{
    write_whole(out, octets)?;
    Ok(out.finish()?)
}
