//! Base64url: the vectors of RFC 4648, texts that are not strict, and long ones.
use crate::expected::{expect_octets, expect_same};
use crate::octets_tests::whole::{long_octets, repeated};
use octets::{B64Writer, Refusal, b64_append, b64_decode, b64_encode};
use std::alloc::{AllocError, Global};
use std::process::Abort;
use std::test::Fail;

#[test]
fn rfc4648_section_10(rt: HostRuntime) -> Result<(), Fail> {
    for (octets, text) in [
        ("", ""),
        ("f", "Zg"),
        ("fo", "Zm8"),
        ("foo", "Zm9v"),
        ("foob", "Zm9vYg"),
        ("fooba", "Zm9vYmE"),
        ("foobar", "Zm9vYmFy"),
    ] {
        let encoded = b64_encode(rt.alloc(), octets.as_bytes())?;
        expect_octets(&rt, encoded.as_bytes(), text.as_bytes());
        let decoded = b64_decode(rt.alloc(), text.as_bytes())?;
        expect_octets(&rt, &decoded, octets.as_bytes());
    }
    Ok(())
}

/// The text of octets that are fed in pieces of `step` octets.
fn fed(rt: &impl Abort, alloc: Global, octets: &[u8], step: usize) -> Result<Vec<u8>, AllocError> {
    assert!(rt; step > 0);
    let mut text = Vec::new(alloc);
    let mut out = [0u8; 5488];
    let mut writer = B64Writer::start();
    for piece in octets.chunks(step) {
        assert!(rt; piece.len() <= 4096);
        let n = writer.feed(piece, &mut out);
        text.extend_from_slice(&out[..n])?;
    }
    let mut last = [0u8; 4];
    let n = writer.finish(&mut last);
    text.extend_from_slice(&last[..n])?;
    Ok(text)
}

#[test]
fn a_text_comes_whole_from_any_pieces(rt: HostRuntime) -> Result<(), Fail> {
    let octets = [0xa5; 100];
    let whole = b64_encode(rt.alloc(), &octets)?;
    for step in 1..12usize {
        let text = fed(&rt, rt.alloc(), &octets, step)?;
        expect_same(&rt, text.as_slice(), whole.as_bytes(), step);
    }
    Ok(())
}

#[test]
fn a_text_is_appended(rt: HostRuntime) -> Result<(), Fail> {
    let mut text = b64_encode(rt.alloc(), b"foo")?;
    b64_append(&mut text, b"fo")?;
    expect_octets(&rt, text.as_bytes(), b"Zm9vZm8");
    Ok(())
}

/// The characters of the values 0 to 63 in order (RFC 4648 table 2).
#[test]
fn the_alphabet_is_url_safe(rt: HostRuntime) -> Result<(), Fail> {
    let text = b"ABCDEFGHIJKLMNOPQRSTUVWXYZabcdefghijklmnopqrstuvwxyz0123456789-_";
    let octets =
        b"\x00\x10\x83\x10\x51\x87\x20\x92\x8b\x30\xd3\x8f\x41\x14\x93\x51\x55\x97\x61\x96\x9b\x71\xd7\x9f\x82\x18\xa3\x92\x59\xa7\xa2\x9a\xab\xb2\xdb\xaf\xc3\x1c\xb3\xd3\x5d\xb7\xe3\x9e\xbb\xf3\xdf\xbf";
    expect_octets(&rt, b64_encode(rt.alloc(), octets)?.as_bytes(), text);
    expect_octets(&rt, &b64_decode(rt.alloc(), text)?, octets);
    Ok(())
}

const NOT_STRICT: [&str; 26] = [
    // Trailing bits, after two characters and after three.
    "Zh",
    "ZmB",
    "-_9",
    "AB",
    // Padding.
    "Zg==",
    "Zm8=",
    "Zm9vYg==",
    "Zg=",
    "=",
    "Zm9v=",
    // A length of 1 modulo 4.
    "Z",
    "Zm9vY",
    "Zm9vYmFyZ",
    // The other alphabet.
    "+/8",
    "-/8",
    "+_8",
    // White space and line ends, inside and at the end.
    "Zm 9v",
    "Zm\n9v",
    "Zm9v\n",
    "Zm9v\r\n",
    "\tZm9v",
    "Zm9v ",
    // Characters of neither alphabet.
    "Zm.v",
    "Zm9*",
    "Zm\u{e9}v",
    "Zm9v\u{0}",
];

#[test]
fn a_text_that_is_not_strict_is_refused(rt: HostRuntime) {
    for text in NOT_STRICT {
        let refusal = b64_decode(rt.alloc(), text.as_bytes()).err();
        expect_same(&rt, refusal, Some(Refusal::Base64), text);
    }
}

/// Their text.
fn long_text(alloc: Global) -> Result<Vec<u8>, AllocError> {
    repeated(alloc, b"Zm9v", 700_000, b"Zg")
}

#[test]
fn long_octets_have_their_text(rt: HostRuntime) -> Result<(), Fail> {
    let octets = long_octets(rt.alloc())?;
    let text = long_text(rt.alloc())?;
    expect_octets(&rt, b64_encode(rt.alloc(), &octets)?.as_bytes(), &text);
    expect_octets(&rt, &b64_decode(rt.alloc(), &text)?, &octets);
    expect_octets(&rt, &fed(&rt, rt.alloc(), &octets, 4000)?, &text);
    Ok(())
}

#[test]
fn a_long_text_is_appended(rt: HostRuntime) -> Result<(), Fail> {
    let mut all = String::from_str(rt.alloc(), "Zm9v")?;
    b64_append(&mut all, &long_octets(rt.alloc())?)?;
    let text = repeated(rt.alloc(), b"Zm9v", 700_001, b"Zg")?;
    expect_octets(&rt, all.as_bytes(), &text);
    Ok(())
}
