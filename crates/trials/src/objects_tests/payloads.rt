//! Payloads that are copied: a long one, and none.
use crate::expected::expect_octets_at;
use crate::objects_tests::{ABC_DETACHED, ABC_FLATTENED_DETACHED, EMPTY_SIGNED, repeated};
use objects::Jws;
use std::process::Abort;
use std::test::Fail;

/// The payload of 75,000 octets is copied from an object with these texts before and after it.
fn expect_copied<R: Abort + AllocGlobal>(rt: &R, front: &str, back: &str) -> Result<(), Fail> {
    let payload = repeated(rt.alloc(), "", "aaa", 25_000, "")?;
    let text = repeated(rt.alloc(), front, "YWFh", 25_000, back)?;
    let jws = Jws::read(rt.alloc(), text.as_bytes(), None).expect(rt, "it is read");
    let copy = jws.payload(rt.alloc()).expect(rt, "it is copied");
    expect_octets_at(rt, &copy, payload.as_bytes(), "a long payload");
    Ok(())
}

#[test]
fn a_long_payload_is_copied(rt: HostRuntime) -> Result<(), Fail> {
    expect_copied(&rt, "eyJhbGciOiJIUzI1NiJ9.", ".AA")?;
    let back = "\",\"protected\":\"eyJhbGciOiJIUzI1NiJ9\",\"signature\":\"AA\"}";
    expect_copied(&rt, "{\"payload\":\"", back)
}

/// Objects with an empty payload.
const EMPTY_PAYLOADS: &[&str] = &[
    EMPTY_SIGNED,
    "{\"payload\":\"\",\"header\":{\"alg\":\"HS256\"},\"signature\":\"\"}",
    "{\"payload\":\"\",\"signatures\":[{\"header\":{\"alg\":\"HS256\"},\"signature\":\"\"},{\"header\":{\"alg\":\"HS256\"},\"signature\":\"\"}]}",
];

/// Objects without their payload.
const WITHOUT_PAYLOAD: &[&str] = &[ABC_DETACHED, ABC_FLATTENED_DETACHED];

/// The object of this text, with the payload that is handed in, if there is one, has an empty payload.
fn expect_empty<R: Abort + AllocGlobal>(rt: &R, text: &str, detached: Option<Vec<u8>>) {
    let jws = Jws::read(rt.alloc(), text.as_bytes(), detached).expect(rt, "it is read");
    let copy = jws.payload(rt.alloc()).expect(rt, "it is copied");
    expect_octets_at(rt, &copy, b"", text);
}

#[test]
fn an_empty_payload_is_copied(rt: HostRuntime) {
    for text in EMPTY_PAYLOADS {
        expect_empty(&rt, text, None);
    }
    for text in WITHOUT_PAYLOAD {
        expect_empty(&rt, text, Some(Vec::new(rt.alloc())));
    }
}
