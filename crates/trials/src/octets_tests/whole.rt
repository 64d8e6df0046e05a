//! Calls that read, draw and write whole octet strings, also long ones.
use crate::expected::{expect_octets, expect_same};
use octets::{
    B64Writer, MemoryInput, MemoryOutput, Partial, ReaderInput, Refusal, draw, emit, pump,
    read_to_end, write_whole,
};
use std::alloc::{AllocError, Global};
use std::process::Abort;
use std::test::Fail;

/// The octets `times` times, and then `last`.
pub(crate) fn repeated(
    alloc: Global,
    octets: &[u8],
    times: usize,
    last: &[u8],
) -> Result<Vec<u8>, AllocError> {
    let mut all = Vec::new(alloc);
    for _ in 0..times {
        all.extend_from_slice(octets)?;
    }
    all.extend_from_slice(last)?;
    Ok(all)
}

/// 2,100,001 octets.
pub(crate) fn long_octets(alloc: Global) -> Result<Vec<u8>, AllocError> {
    repeated(alloc, b"foo", 700_000, b"f")
}

#[test]
fn long_octets_are_read(rt: HostRuntime) -> Result<(), Fail> {
    let octets = long_octets(rt.alloc())?;
    for step in [4096, 3_000_000usize] {
        let mut input = MemoryInput::new(&octets, step);
        expect_octets(&rt, &read_to_end(rt.alloc(), &mut input)?, &octets);
    }
    let mut input = ReaderInput::new(octets.as_slice());
    expect_octets(&rt, &read_to_end(rt.alloc(), &mut input)?, &octets);
    Ok(())
}

#[test]
fn long_octets_are_read_in_pieces(rt: HostRuntime) -> Result<(), Fail> {
    let octets = long_octets(rt.alloc())?;
    let text = repeated(rt.alloc(), b"Zm9v", 700_000, b"Zg")?;
    for step in [1000, 5000usize] {
        let mut out = MemoryOutput::new(rt.alloc(), text.len())?;
        let mut input = MemoryInput::new(&octets, step);
        let pumped = pump(&mut input, B64Writer::start(), b"", &mut out);
        expect_same(&rt, pumped, Ok(()), step);
        expect_octets(&rt, out.octets(), &text);
    }
    Ok(())
}

#[test]
fn long_octets_are_drawn(rt: HostRuntime) -> Result<(), Fail> {
    let octets = long_octets(rt.alloc())?;
    let mut out = repeated(rt.alloc(), b"\0", octets.len(), b"")?;
    for step in [4096, 3_000_000usize] {
        let mut random = MemoryInput::new(&octets, step);
        expect_same(&rt, draw(&mut random, &mut out), Ok(()), step);
        expect_octets(&rt, &out, &octets);
        out.fill(0);
    }
    Ok(())
}

#[test]
fn long_octets_are_written(rt: HostRuntime) -> Result<(), Fail> {
    let octets = long_octets(rt.alloc())?;
    let mut out = MemoryOutput::new(rt.alloc(), 4_200_002)?;
    expect_same(&rt, write_whole(&mut out, &octets), Ok(()), "the first");
    expect_octets(&rt, out.octets(), &octets);
    expect_same(&rt, emit(&mut out, &octets), Ok(()), "the second");
    expect_octets(&rt, out.octets(), &repeated(rt.alloc(), &octets, 2, b"")?);
    Ok(())
}

#[test]
fn a_text_is_written_whole_or_partial_counts_the_octets(rt: HostRuntime) -> Result<(), Fail> {
    let mut out = MemoryOutput::new(rt.alloc(), 5)?;
    expect_same(&rt, write_whole(&mut out, b"abc"), Ok(()), "abc");
    let part = Err(Partial { written: 2 });
    expect_same(&rt, write_whole(&mut out, b"defg"), part, "defg");
    expect_octets(&rt, out.octets(), b"abcde");
    Ok(())
}

/// A draw of `len` octets leaves these in five that were zero.
fn expect_draw(
    rt: &impl Abort,
    random: &[u8],
    len: usize,
    step: usize,
    answer: Result<(), Refusal>,
    filled: &[u8],
) {
    assert!(rt; len <= 5 && step > 0);
    let mut random = MemoryInput::new(random, step);
    let mut out = [0u8; 5];
    expect_same(rt, draw(&mut random, &mut out[..len]), answer, len);
    expect_octets(rt, &out, filled);
}

#[test]
fn draws_are_filled_or_refused(rt: HostRuntime) {
    for (octets, len, step, result, filled) in [
        ("abcde", 4, 1, Ok(()), "abcd\0"),
        ("abcde", 4, 3, Ok(()), "abcd\0"),
        ("abcde", 5, 9, Ok(()), "abcde"),
        ("abcde", 5, 2, Ok(()), "abcde"),
        ("abc", 4, 2, Err(Refusal::Random), "abc\0\0"),
        ("", 1, 1, Err(Refusal::Random), "\0\0\0\0\0"),
        ("", 0, 1, Ok(()), "\0\0\0\0\0"),
    ] {
        expect_draw(&rt, octets.as_bytes(), len, step, result, filled.as_bytes());
    }
}
