//! Signed objects that are read and written, and texts that are refused, in the order of docs/SPECIFICATION.md.
use crate::expected::{expect_octets_at, expect_same};
use objects::Jws;
use octets::{MemoryOutput, Refusal};
use std::alloc::{AllocError, Global};
use std::process::Abort;

/// Texts that are refused, and the causes.
const REFUSED: &[(&str, Refusal)] = &[
    // JSON form without a signature, or without a payload.
    (" \n{\"payload\":\"YWJj\"}", Refusal::Form),
    ("{\"signature\":\"sxvq\"}", Refusal::Form),
    // Lists and headers of a wrong type, lists that do not hold objects or hold no signature, and members that may not be next to a list.
    ("{\"payload\":\"YWJj\",\"signatures\":[]}", Refusal::Form),
    ("{\"payload\":\"YWJj\",\"signatures\":\"\"}", Refusal::Form),
    ("{\"payload\":\"YWJj\",\"signatures\":null}", Refusal::Form),
    (
        "{\"payload\":\"YWJj\",\"signature\":\"\",\"protected\":null}",
        Refusal::Form,
    ),
    (
        "{\"payload\":\"YWJj\",\"signature\":\"\",\"header\":null}",
        Refusal::Form,
    ),
    ("{\"payload\":\"YWJj\",\"signatures\":[1]}", Refusal::Form),
    ("{\"payload\":\"YWJj\",\"signatures\":[{}]}", Refusal::Form),
    (
        "{\"payload\":\"YWJj\",\"signature\":\"\",\"signatures\":[{\"signature\":\"sxvq\"}]}",
        Refusal::Form,
    ),
    (
        "{\"payload\":\"YWJj\",\"protected\":\"e30\",\"signatures\":[{\"signature\":\"sxvq\"}]}",
        Refusal::Form,
    ),
    (
        "{\"payload\":\"YWJj\",\"header\":{\"a\":1},\"signatures\":[{\"signature\":\"sxvq\"}]}",
        Refusal::Form,
    ),
    // Each step is done over all signatures before the next step.
    (
        "{\"payload\":\"YWJj\",\"signatures\":[{\"protected\":\"x\",\"signature\":\"\"},{\"signature\":1}]}",
        Refusal::Form,
    ),
    (
        "{\"payload\":\"YWJj\",\"signatures\":[{\"protected\":\"eA\",\"signature\":\"\"},{\"signature\":\"x\"}]}",
        Refusal::Base64,
    ),
    (
        "{\"payload\":\"YWJj\",\"signatures\":[{\"signature\":\"\"},{\"protected\":\"eA\",\"signature\":\"\"}]}",
        Refusal::Json,
    ),
    (
        "{\"payload\":\"YWJj\",\"signatures\":[{\"protected\":\"WzFd\",\"signature\":\"\"},{\"protected\":\"eA\",\"signature\":\"\"}]}",
        Refusal::Header,
    ),
    (
        "{\"payload\":\"YWJj\",\"signatures\":[{\"header\":{\"alg\":\"HS256\",\"crit\":1},\"signature\":\"\"},{\"signature\":\"\"}]}",
        Refusal::Header,
    ),
    (
        "{\"payload\":\"YWJj\",\"signatures\":[{\"header\":{\"alg\":\"HS256\"},\"signature\":\"\"},{\"header\":{\"alg\":\"HS256\",\"crit\":1},\"signature\":\"\"}]}",
        Refusal::Unsupported,
    ),
    // A name in both headers of a signature.
    (
        "{\"payload\":\"YWJj\",\"protected\":\"eyJhbGciOiJIUzI1NiJ9\",\"header\":{\"alg\":\"HS256\"},\"signature\":\"\"}",
        Refusal::Header,
    ),
    // Texts that do not have three parts.
    ("", Refusal::Form),
    ("eyJhbGciOiJIUzI1NiJ9.YWJj", Refusal::Form),
    ("=.=.=.=", Refusal::Form),
    // Trailing bits, in the header, the payload and the signature.
    ("eyJhbGciOiJIUzI1NiJ.YWJj.sxvq", Refusal::Base64),
    ("eyJhbGciOiJIUzI1NiJ9.YWK.sxvq", Refusal::Base64),
    ("eyJhbGciOiJIUzI1NiJ9.YWJj.sx", Refusal::Base64),
    // The header: no JSON, a float, and a list.
    ("eyJhbGciOiJIUzI1NiI.YWJj.", Refusal::Json),
    ("eyJhbGciOiJIUzI1NiIsIngiOjEuNX0.YWJj.", Refusal::Number),
    ("WyJhbGciXQ.YWJj.", Refusal::Header),
    // No `alg`, no header, and an `alg` that is a number.
    ("e30.YWJj.", Refusal::Header),
    (".YWJj.", Refusal::Header),
    ("eyJhbGciOjF9.YWJj.", Refusal::Header),
    // A `crit` is refused whatever it holds, but a missing `alg` is refused before it.
    (
        "eyJhbGciOiJIUzI1NiIsImNyaXQiOltdfQ.YWJj.",
        Refusal::Unsupported,
    ),
    ("eyJjcml0IjpbXX0.YWJj.", Refusal::Header),
];

fn expect_refused<R: Abort + AllocGlobal>(rt: &R, text: &str, refusal: Refusal) {
    match Jws::read(rt.alloc(), text.as_bytes(), None) {
        Ok(_) => assert!(rt; false, "at {text}"),
        Err(refused) => expect_same(rt, refused, refusal, text),
    }
}

#[test]
fn the_first_cause_refuses_a_signed_text(rt: HostRuntime) {
    for (text, refusal) in REFUSED {
        expect_refused(&rt, text, *refusal);
    }
}

/// How the text of a payload may end after 4,096 characters, and the cause of a refusal.
const ENDS: &[(&str, Option<Refusal>)] = &[
    ("", None),
    ("YWI", None),
    ("YWJj", None),
    // Trailing bits, one character too many, another alphabet, padding and line ends.
    ("YWJ", Some(Refusal::Base64)),
    ("YWJjY", Some(Refusal::Base64)),
    ("YW+/", Some(Refusal::Base64)),
    ("YWI=", Some(Refusal::Base64)),
    ("YWJj\n", Some(Refusal::Base64)),
    ("YWJj\r\n", Some(Refusal::Base64)),
];

/// A token with a payload whose text has this end.
fn long_token(alloc: Global, end: &str) -> Result<String, AllocError> {
    let mut text = String::from_str(alloc, "eyJhbGciOiJIUzI1NiJ9.")?;
    for _ in 0..1024 {
        text.push_str("YWJj")?;
    }
    text.push_str(end)?;
    text.push_str(".sxvq")?;
    Ok(text)
}

/// The object is written as it was read, and the payload is written as it is copied.
fn expect_written_back<R: Abort + AllocGlobal>(rt: &R, text: &str) {
    let jws = Jws::read(rt.alloc(), text.as_bytes(), None).expect(rt, "an object");
    let compact = jws
        .to_compact(rt.alloc(), false)
        .expect(rt, "a compact text");
    expect_octets_at(rt, compact.as_bytes(), text.as_bytes(), "the compact text");
    let payload = jws.payload(rt.alloc()).expect(rt, "memory");
    let mut out = MemoryOutput::new(rt.alloc(), 4096).expect(rt, "memory");
    expect_same(rt, jws.write_payload(&mut out), Ok(()), "writing");
    expect_octets_at(rt, out.octets(), &payload, "the payload");
    assert!(rt; payload.starts_with(b"abcabc"));
}

#[test]
fn a_long_payload_is_read_to_its_end(rt: HostRuntime) {
    for (end, refusal) in ENDS {
        let text = long_token(rt.alloc(), end).expect(&rt, "memory");
        match refusal {
            Some(refusal) => expect_refused(&rt, &text, *refusal),
            None => expect_written_back(&rt, &text),
        }
    }
}
