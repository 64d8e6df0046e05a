//! Objects that are built from their members, or refused, by docs/SPECIFICATION.md.
use crate::expected::expect_same;
use objects::{Jwe, JweParts, Jws, JwsParts, RecipientParts, SignatureParts};
use octets::Refusal;
use serde_json::{Map, Value};
use std::process::Abort;

/// The members of a JSON object. Their numbers may be any.
fn members<R: Abort + AllocGlobal>(rt: &R, text: &str) -> Map<String, Value> {
    match Value::from_str(rt.alloc(), text) {
        Ok(Value::Object(members)) => members,
        _ => panic!(rt; "no object: {text}"),
    }
}

fn octets<R: Abort + AllocGlobal>(rt: &R, octets: &[u8]) -> Vec<u8> {
    Vec::from_slice(rt.alloc(), octets).expect(rt, "memory")
}

fn text<R: Abort + AllocGlobal>(rt: &R, text: &str) -> String {
    String::from_str(rt.alloc(), text).expect(rt, "memory")
}

fn signature<R: Abort + AllocGlobal>(rt: &R, protected: &str, header: &str) -> SignatureParts {
    SignatureParts {
        protected: text(rt, protected),
        header: members(rt, header),
        signature: octets(rt, b"\x01\x02"),
    }
}

/// A signed object with `count` copies of the signature.
fn signed<R: Abort + AllocGlobal>(
    rt: &R,
    protected: &str,
    header: &str,
    count: usize,
) -> Result<Jws<'static>, Refusal> {
    let mut signatures = Vec::new(rt.alloc());
    for _ in 0..count {
        let pushed = signatures.push(signature(rt, protected, header));
        assert!(rt; pushed.is_ok());
    }
    let payload = octets(rt, b"abc");
    let parts = JwsParts {
        payload,
        signatures,
    };
    Jws::build(rt.alloc(), parts)
}

/// A protected header, an unprotected header, the number of signatures that have them, and the cause of a refusal.
const SIGNED: &[(&str, &str, usize, Option<Refusal>)] = &[
    // Whole records, with one signature and with 256.
    ("eyJhbGciOiJIUzI1NiJ9", "{}", 1, None),
    ("eyJhbGciOiJIUzI1NiJ9", "{\"kid\":\"1\"}", 256, None),
    ("", "{\"alg\":\"HS256\"}", 1, None),
    // The text nests at most 127 deep, so the header of one signature may be 126 deep.
    (
        "eyJhbGciOiJIUzI1NiJ9",
        "{\"x\":[[[[[[[[[[[[[[[[[[[[[[[[[[[[[[[[[[[[[[[[[[[[[[[[[[[[[[[[[[[[[[[[[[[[[[[[[[[[[[[[[[[[[[[[[[[[[[[[[[[[[[[[[[[[[[[[[[[[[[[[[[[[[]]]]]]]]]]]]]]]]]]]]]]]]]]]]]]]]]]]]]]]]]]]]]]]]]]]]]]]]]]]]]]]]]]]]]]]]]]]]]]]]]]]]]]]]]]]]]]]]]]]]]]]]]]]]]]]]]]]]]]]]]]]]]}",
        1,
        None,
    ),
    (
        "eyJhbGciOiJIUzI1NiJ9",
        "{\"x\":[[[[[[[[[[[[[[[[[[[[[[[[[[[[[[[[[[[[[[[[[[[[[[[[[[[[[[[[[[[[[[[[[[[[[[[[[[[[[[[[[[[[[[[[[[[[[[[[[[[[[[[[[[[[[[[[[[[[[[[[[[[[[[]]]]]]]]]]]]]]]]]]]]]]]]]]]]]]]]]]]]]]]]]]]]]]]]]]]]]]]]]]]]]]]]]]]]]]]]]]]]]]]]]]]]]]]]]]]]]]]]]]]]]]]]]]]]]]]]]]]]]]]]]]]]]]}",
        1,
        Some(Refusal::Json),
    ),
    // A number that is not whole, no signature, too many signatures, and faults of the protected header.
    (
        "eyJhbGciOiJIUzI1NiJ9",
        "{\"x\":[1.5]}",
        1,
        Some(Refusal::Number),
    ),
    ("eyJhbGciOiJIUzI1NiJ9", "{}", 0, Some(Refusal::Form)),
    ("eyJhbGciOiJIUzI1NiJ9", "{}", 257, Some(Refusal::Limit)),
    ("AB", "{}", 1, Some(Refusal::Base64)),
    ("e30=", "{}", 1, Some(Refusal::Base64)),
    ("ew", "{}", 1, Some(Refusal::Json)),
    ("MS41", "{}", 1, Some(Refusal::Number)),
    ("WzFd", "{}", 1, Some(Refusal::Header)),
    // The joint header, and a `crit`.
    (
        "eyJhbGciOiJIUzI1NiJ9",
        "{\"alg\":\"HS256\"}",
        1,
        Some(Refusal::Header),
    ),
    ("e30", "{}", 1, Some(Refusal::Header)),
    ("", "{\"alg\":1}", 1, Some(Refusal::Header)),
    (
        "eyJhbGciOiJIUzI1NiJ9",
        "{\"crit\":[]}",
        1,
        Some(Refusal::Unsupported),
    ),
    ("eyJhbGciOiJIUzI1NiJ9", "{\"zip\":1}", 1, None),
];

#[test]
fn a_signed_object_is_made_or_refused(rt: HostRuntime) {
    for (protected, header, count, refusal) in SIGNED {
        let found = signed(&rt, protected, header, *count).err();
        expect_same(&rt, found, *refusal, (protected, header));
    }
}

fn recipient<R: Abort + AllocGlobal>(rt: &R, header: &str) -> RecipientParts {
    RecipientParts {
        header: members(rt, header),
        encrypted_key: octets(rt, b"\x03"),
    }
}

/// An encrypted object with `count` copies of the recipient.
fn encrypted<R: Abort + AllocGlobal>(
    rt: &R,
    protected: &str,
    unprotected: &str,
    header: &str,
    count: usize,
) -> Result<Jwe, Refusal> {
    let mut recipients = Vec::new(rt.alloc());
    for _ in 0..count {
        let pushed = recipients.push(recipient(rt, header));
        assert!(rt; pushed.is_ok());
    }
    let parts = JweParts {
        protected: text(rt, protected),
        unprotected: members(rt, unprotected),
        iv: octets(rt, b"\x04"),
        aad: octets(rt, b"\x05"),
        ciphertext: octets(rt, b"\x06"),
        tag: octets(rt, b"\x07"),
        recipients,
    };
    Jwe::build(rt.alloc(), parts)
}

/// A protected header, a shared header, the header of each recipient, the number of recipients, and the cause of a refusal.
const ENCRYPTED: &[(&str, &str, &str, usize, Option<Refusal>)] = &[
    // Whole records, with one recipient and with 256.
    (
        "eyJlbmMiOiJBMTI4R0NNIn0",
        "{}",
        "{\"alg\":\"dir\"}",
        1,
        None,
    ),
    (
        "eyJlbmMiOiJBMTI4R0NNIn0",
        "{\"alg\":\"dir\"}",
        "{\"kid\":\"1\"}",
        256,
        None,
    ),
    ("", "{\"alg\":\"dir\",\"enc\":\"A128GCM\"}", "{}", 1, None),
    // The text nests at most 127 deep, so the header of one recipient may be 126 deep, and so may the shared header.
    (
        "eyJlbmMiOiJBMTI4R0NNIn0",
        "{}",
        "{\"alg\":\"dir\",\"x\":[[[[[[[[[[[[[[[[[[[[[[[[[[[[[[[[[[[[[[[[[[[[[[[[[[[[[[[[[[[[[[[[[[[[[[[[[[[[[[[[[[[[[[[[[[[[[[[[[[[[[[[[[[[[[[[[[[[[[[[[[[[[[]]]]]]]]]]]]]]]]]]]]]]]]]]]]]]]]]]]]]]]]]]]]]]]]]]]]]]]]]]]]]]]]]]]]]]]]]]]]]]]]]]]]]]]]]]]]]]]]]]]]]]]]]]]]]]]]]]]]]]]]]]]]]}",
        1,
        None,
    ),
    (
        "eyJlbmMiOiJBMTI4R0NNIn0",
        "{}",
        "{\"alg\":\"dir\",\"x\":[[[[[[[[[[[[[[[[[[[[[[[[[[[[[[[[[[[[[[[[[[[[[[[[[[[[[[[[[[[[[[[[[[[[[[[[[[[[[[[[[[[[[[[[[[[[[[[[[[[[[[[[[[[[[[[[[[[[[[[[[[[[[[]]]]]]]]]]]]]]]]]]]]]]]]]]]]]]]]]]]]]]]]]]]]]]]]]]]]]]]]]]]]]]]]]]]]]]]]]]]]]]]]]]]]]]]]]]]]]]]]]]]]]]]]]]]]]]]]]]]]]]]]]]]]]]}",
        1,
        Some(Refusal::Json),
    ),
    (
        "eyJlbmMiOiJBMTI4R0NNIn0",
        "{\"x\":[[[[[[[[[[[[[[[[[[[[[[[[[[[[[[[[[[[[[[[[[[[[[[[[[[[[[[[[[[[[[[[[[[[[[[[[[[[[[[[[[[[[[[[[[[[[[[[[[[[[[[[[[[[[[[[[[[[[[[[[[[[[[]]]]]]]]]]]]]]]]]]]]]]]]]]]]]]]]]]]]]]]]]]]]]]]]]]]]]]]]]]]]]]]]]]]]]]]]]]]]]]]]]]]]]]]]]]]]]]]]]]]]]]]]]]]]]]]]]]]]]]]]]]]]]}",
        "{\"alg\":\"dir\"}",
        1,
        None,
    ),
    (
        "eyJlbmMiOiJBMTI4R0NNIn0",
        "{\"x\":[[[[[[[[[[[[[[[[[[[[[[[[[[[[[[[[[[[[[[[[[[[[[[[[[[[[[[[[[[[[[[[[[[[[[[[[[[[[[[[[[[[[[[[[[[[[[[[[[[[[[[[[[[[[[[[[[[[[[[[[[[[[[[]]]]]]]]]]]]]]]]]]]]]]]]]]]]]]]]]]]]]]]]]]]]]]]]]]]]]]]]]]]]]]]]]]]]]]]]]]]]]]]]]]]]]]]]]]]]]]]]]]]]]]]]]]]]]]]]]]]]]]]]]]]]]]}",
        "{\"alg\":\"dir\"}",
        1,
        Some(Refusal::Json),
    ),
    // A number that is not whole, no recipient, too many recipients, and faults of the protected header.
    (
        "eyJlbmMiOiJBMTI4R0NNIn0",
        "{\"x\":1.5}",
        "{\"alg\":\"dir\"}",
        1,
        Some(Refusal::Number),
    ),
    (
        "eyJlbmMiOiJBMTI4R0NNIn0",
        "{}",
        "{\"alg\":\"dir\",\"x\":{\"y\":1e2}}",
        1,
        Some(Refusal::Number),
    ),
    (
        "eyJlbmMiOiJBMTI4R0NNIn0",
        "{}",
        "{\"alg\":\"dir\"}",
        0,
        Some(Refusal::Form),
    ),
    (
        "eyJlbmMiOiJBMTI4R0NNIn0",
        "{}",
        "{\"alg\":\"dir\"}",
        257,
        Some(Refusal::Limit),
    ),
    ("AB", "{}", "{}", 1, Some(Refusal::Base64)),
    ("ew", "{}", "{}", 1, Some(Refusal::Json)),
    ("MS41", "{}", "{}", 1, Some(Refusal::Number)),
    ("WzFd", "{}", "{}", 1, Some(Refusal::Header)),
    // The joint header, a `crit` and a `zip`.
    (
        "eyJlbmMiOiJBMTI4R0NNIn0",
        "{\"alg\":\"dir\"}",
        "{\"alg\":\"dir\"}",
        1,
        Some(Refusal::Header),
    ),
    (
        "eyJlbmMiOiJBMTI4R0NNIn0",
        "{\"enc\":\"A128GCM\"}",
        "{\"alg\":\"dir\"}",
        1,
        Some(Refusal::Header),
    ),
    (
        "eyJlbmMiOiJBMTI4R0NNIn0",
        "{}",
        "{}",
        1,
        Some(Refusal::Header),
    ),
    (
        "eyJlbmMiOiJBMTI4R0NNIn0",
        "{\"alg\":1}",
        "{}",
        1,
        Some(Refusal::Header),
    ),
    ("", "{\"alg\":\"dir\"}", "{}", 1, Some(Refusal::Header)),
    (
        "eyJlbmMiOiJBMTI4R0NNIn0",
        "{\"alg\":\"PBES2-HS256+A128KW\",\"p2c\":1}",
        "{}",
        1,
        Some(Refusal::Header),
    ),
    (
        "eyJlbmMiOiJBMTI4R0NNIn0",
        "{\"alg\":\"dir\"}",
        "{\"crit\":1}",
        1,
        Some(Refusal::Unsupported),
    ),
    (
        "eyJlbmMiOiJBMTI4R0NNIn0",
        "{\"alg\":\"dir\",\"zip\":\"DEF\"}",
        "{}",
        1,
        Some(Refusal::Unsupported),
    ),
];

#[test]
fn an_encrypted_object_is_made_or_refused(rt: HostRuntime) {
    for (protected, unprotected, header, count, refusal) in ENCRYPTED {
        let found = encrypted(&rt, protected, unprotected, header, *count).err();
        expect_same(&rt, found, *refusal, (protected, unprotected, header));
    }
}

/// A signed object with `count` signatures is written as this text.
fn expect_jws<R: Abort + AllocGlobal>(rt: &R, header: &str, count: usize, json: &str) {
    let made = signed(rt, "eyJhbGciOiJIUzI1NiJ9", header, count).expect(rt, "an object");
    let written = made.to_json(rt.alloc(), false).expect(rt, "memory");
    expect_same(rt, written.as_str(), json, header);
}

#[test]
fn signed_objects_are_made_of_their_members(rt: HostRuntime) {
    expect_jws(
        &rt,
        "{}",
        1,
        "{\"payload\":\"YWJj\",\"protected\":\"eyJhbGciOiJIUzI1NiJ9\",\"signature\":\"AQI\"}",
    );
    expect_jws(
        &rt,
        "{\"kid\":\"1\",\"a\":[-9223372036854775808,18446744073709551615]}",
        2,
        "{\"payload\":\"YWJj\",\"signatures\":[{\"header\":{\"a\":[-9223372036854775808,18446744073709551615],\"kid\":\"1\"},\"protected\":\"eyJhbGciOiJIUzI1NiJ9\",\"signature\":\"AQI\"},{\"header\":{\"a\":[-9223372036854775808,18446744073709551615],\"kid\":\"1\"},\"protected\":\"eyJhbGciOiJIUzI1NiJ9\",\"signature\":\"AQI\"}]}",
    );
}

/// An encrypted object with `count` recipients is written as this text.
fn expect_jwe<R: Abort + AllocGlobal>(rt: &R, count: usize, json: &str) {
    let made = encrypted(
        rt,
        "eyJlbmMiOiJBMTI4R0NNIn0",
        "{\"x\":1}",
        "{\"alg\":\"dir\"}",
        count,
    );
    let made = made.expect(rt, "an object");
    let written = made.to_json(rt.alloc(), false).expect(rt, "memory");
    expect_same(rt, written.as_str(), json, count);
}

#[test]
fn encrypted_objects_are_made_of_their_members(rt: HostRuntime) {
    expect_jwe(
        &rt,
        1,
        "{\"aad\":\"BQ\",\"ciphertext\":\"Bg\",\"encrypted_key\":\"Aw\",\"header\":{\"alg\":\"dir\"},\"iv\":\"BA\",\"protected\":\"eyJlbmMiOiJBMTI4R0NNIn0\",\"tag\":\"Bw\",\"unprotected\":{\"x\":1}}",
    );
    expect_jwe(
        &rt,
        2,
        "{\"aad\":\"BQ\",\"ciphertext\":\"Bg\",\"iv\":\"BA\",\"protected\":\"eyJlbmMiOiJBMTI4R0NNIn0\",\"recipients\":[{\"encrypted_key\":\"Aw\",\"header\":{\"alg\":\"dir\"}},{\"encrypted_key\":\"Aw\",\"header\":{\"alg\":\"dir\"}}],\"tag\":\"Bw\",\"unprotected\":{\"x\":1}}",
    );
}
