//! Encrypted objects that are read and written, and texts that are refused, in the order of docs/SPECIFICATION.md.
use crate::expected::{expect_octets_at, expect_same};
use crate::objects_tests::rfc7516::{RFC7516_A3, RFC7516_A3_FLATTENED, RFC7516_A5_REORDERED};
use objects::{Jwe, KeyManagement, Recipient};
use octets::Refusal;
use std::process::Abort;
use std::test::Fail;

/// The recipient's key is managed in this way. `salt` and `count` are the salt input and the count of a password, or the initialization
/// vector of a key wrap in GCM and the length of its tag.
pub(crate) fn expect_management(
    rt: &impl Abort,
    recipient: &Recipient,
    way: &str,
    salt: &[u8],
    count: u64,
) {
    let (found, p2s, p2c): (&str, &[u8], u64) = match recipient.management() {
        KeyManagement::Unknown => ("unknown", b"", 0),
        KeyManagement::Direct => ("direct", b"", 0),
        KeyManagement::KeyWrap => ("key wrap", b"", 0),
        KeyManagement::Password { p2s, p2c } => ("password", p2s.octets(), *p2c),
        KeyManagement::GcmKeyWrap { iv, tag } => (
            "key wrap in GCM",
            iv.octets(),
            tag.octets().len() as u64,
        ),
    };
    expect_octets_at(rt, found.as_bytes(), way.as_bytes(), recipient.alg());
    expect_octets_at(rt, p2s, salt, recipient.alg());
    expect_same(rt, p2c, count, recipient.alg());
}

/// Joint headers, and how the key of their recipient is managed (RFC 7518 section 4.1): the way, and the parameters that it reads.
const MANAGED: &[(&str, &str, &[u8], u64)] = &[
    ("\"alg\":\"dir\"", "direct", b"", 0),
    ("\"alg\":\"A128KW\"", "key wrap", b"", 0),
    ("\"alg\":\"A192KW\"", "key wrap", b"", 0),
    ("\"alg\":\"A256KW\",\"p2c\":true", "key wrap", b"", 0),
    (
        "\"alg\":\"PBES2-HS256+A128KW\",\"p2s\":\"AAECAwQFBgc\",\"p2c\":1",
        "password",
        b"\0\x01\x02\x03\x04\x05\x06\x07",
        1,
    ),
    (
        "\"alg\":\"PBES2-HS384+A192KW\",\"p2s\":\"_____________w\",\"p2c\":4096",
        "password",
        b"\xff\xff\xff\xff\xff\xff\xff\xff\xff\xff",
        4096,
    ),
    (
        "\"alg\":\"PBES2-HS512+A256KW\",\"p2s\":\"AAECAwQFBgc\",\"p2c\":18446744073709551615",
        "password",
        b"\0\x01\x02\x03\x04\x05\x06\x07",
        18446744073709551615,
    ),
    (
        "\"alg\":\"A128GCMKW\",\"iv\":\"AAECAwQFBgcICQoL\",\"tag\":\"DA0ODwABAgMEBQYHCAkKCw\"",
        "key wrap in GCM",
        b"\0\x01\x02\x03\x04\x05\x06\x07\x08\x09\x0a\x0b",
        16,
    ),
    (
        "\"alg\":\"A192GCMKW\",\"iv\":\"\",\"tag\":\"_w\"",
        "key wrap in GCM",
        b"",
        1,
    ),
    (
        "\"alg\":\"A256GCMKW\",\"iv\":\"_w\",\"tag\":\"\"",
        "key wrap in GCM",
        b"\xff",
        0,
    ),
    ("\"alg\":\"RSA1_5\",\"p2s\":8", "unknown", b"", 0),
    ("\"alg\":\"a128kw\"", "unknown", b"", 0),
];

#[test]
fn a_key_is_managed_by_its_algorithm(rt: HostRuntime) -> Result<(), Fail> {
    for (members, way, salt, count) in MANAGED {
        let text = format!(in rt.alloc();
            "{{\"header\":{{{members},\"enc\":\"A128GCM\"}},\"ciphertext\":\"\"}}"
        )?;
        let jwe = Jwe::read(rt.alloc(), text.as_bytes(), None).expect(&rt, members);
        match jwe.recipients() {
            [recipient] => expect_management(&rt, recipient, way, salt, *count),
            _ => assert!(rt; false),
        }
    }
    Ok(())
}

/// Each of these texts is refused for its cause.
fn expect_refused<R: Abort + AllocGlobal>(rt: &R, rows: &[(&str, Refusal)]) {
    for (text, refusal) in rows {
        match Jwe::read(rt.alloc(), text.as_bytes(), None) {
            Ok(_) => assert!(rt; false, "at {text}"),
            Err(refused) => expect_same(rt, refused, *refusal, text),
        }
    }
}

/// Texts in compact form, in the order of their causes.
const COMPACT_TEXTS: &[(&str, Refusal)] = &[
    // Texts that do not have five parts.
    ("", Refusal::Form),
    ("...", Refusal::Form),
    (".....", Refusal::Form),
    // Trailing bits in each part.
    ("e3.....", Refusal::Form),
    ("e31....", Refusal::Base64),
    ("e30.AB...", Refusal::Base64),
    ("e30..AB..", Refusal::Base64),
    ("e30...AB.", Refusal::Base64),
    ("e30....AB", Refusal::Base64),
    // No `alg`.
    ("e30....", Refusal::Header),
    ("....", Refusal::Header),
];

#[test]
fn compact_texts_are_refused_in_order(rt: HostRuntime) {
    expect_refused(&rt, COMPACT_TEXTS);
}

/// Texts in JSON form, in the order of their causes.
const JSON_TEXTS: &[(&str, Refusal)] = &[
    // JSON texts: no JSON, a float, and members of other types.
    ("{", Refusal::Json),
    ("{\"ciphertext\":1.5}", Refusal::Number),
    (" {}", Refusal::Form),
    ("{\"ciphertext\":1}", Refusal::Form),
    ("{\"ciphertext\":\"AB\",\"iv\":1}", Refusal::Form),
    ("{\"ciphertext\":\"AB\",\"header\":[]}", Refusal::Form),
    ("{\"ciphertext\":\"AB\",\"tag\":1}", Refusal::Form),
    ("{\"ciphertext\":\"AB\",\"unprotected\":1}", Refusal::Form),
    ("{\"ciphertext\":\"AB\",\"aad\":null}", Refusal::Form),
    ("{\"ciphertext\":\"AB\",\"protected\":{}}", Refusal::Form),
    ("{\"ciphertext\":\"AB\",\"encrypted_key\":1}", Refusal::Form),
    // Lists of a wrong type, lists that do not hold objects or hold no recipient, and members that may not be next to a list.
    ("{\"ciphertext\":\"\",\"recipients\":[]}", Refusal::Form),
    ("{\"ciphertext\":\"\",\"recipients\":{}}", Refusal::Form),
    ("{\"ciphertext\":\"\",\"recipients\":null}", Refusal::Form),
    (
        "{\"ciphertext\":\"\",\"recipients\":[{},\"\"]}",
        Refusal::Form,
    ),
    (
        "{\"ciphertext\":\"\",\"recipients\":[{\"header\":1}]}",
        Refusal::Form,
    ),
    (
        "{\"ciphertext\":\"\",\"encrypted_key\":\"AA\",\"recipients\":[{}]}",
        Refusal::Form,
    ),
    (
        "{\"ciphertext\":\"\",\"header\":{\"x\":1},\"recipients\":[{}]}",
        Refusal::Form,
    ),
    (
        "{\"ciphertext\":\"\",\"header\":\"\",\"recipients\":[{}]}",
        Refusal::Form,
    ),
    // Each step is done over all recipients before the next step.
    (
        "{\"ciphertext\":\"AB\",\"recipients\":[{},{\"encrypted_key\":1}]}",
        Refusal::Form,
    ),
    (
        "{\"ciphertext\":\"\",\"protected\":\"AA\",\"recipients\":[{},{\"encrypted_key\":\"AB\"}]}",
        Refusal::Base64,
    ),
    (
        "{\"ciphertext\":\"\",\"header\":{},\"encrypted_key\":\"\",\"recipients\":[{}]}",
        Refusal::Header,
    ),
    (
        "{\"ciphertext\":\"AB\",\"protected\":\"AA\"}",
        Refusal::Base64,
    ),
    // Each member is decoded before the protected header is read.
    (
        "{\"ciphertext\":\"\",\"iv\":\"AB\",\"protected\":\"AA\"}",
        Refusal::Base64,
    ),
    (
        "{\"ciphertext\":\"\",\"tag\":\"AB\",\"protected\":\"AA\"}",
        Refusal::Base64,
    ),
    (
        "{\"ciphertext\":\"\",\"aad\":\"AB\",\"protected\":\"AA\"}",
        Refusal::Base64,
    ),
    (
        "{\"ciphertext\":\"\",\"encrypted_key\":\"AB\",\"protected\":\"AA\"}",
        Refusal::Base64,
    ),
];

#[test]
fn json_texts_are_refused_in_order(rt: HostRuntime) {
    expect_refused(&rt, JSON_TEXTS);
}

/// Texts in JSON form whose headers are refused, in the order of their causes.
const HEADERS: &[(&str, Refusal)] = &[
    // The protected header: no JSON, a float, and a list.
    ("{\"ciphertext\":\"\",\"protected\":\"AA\"}", Refusal::Json),
    (
        "{\"ciphertext\":\"\",\"protected\":\"MS41\"}",
        Refusal::Number,
    ),
    (
        "{\"ciphertext\":\"\",\"protected\":\"WzFd\"}",
        Refusal::Header,
    ),
    // The joint header: no `enc`, a name in two parts, and a `zip`.
    (
        "{\"ciphertext\":\"\",\"header\":{\"alg\":\"dir\"}}",
        Refusal::Header,
    ),
    (
        "{\"ciphertext\":\"\",\"header\":{\"alg\":\"dir\",\"enc\":\"x\"},\"unprotected\":{\"enc\":\"x\"}}",
        Refusal::Header,
    ),
    (
        "{\"ciphertext\":\"\",\"header\":{\"alg\":\"dir\",\"enc\":\"x\"},\"unprotected\":{\"zip\":1}}",
        Refusal::Unsupported,
    ),
    // The headers of the second recipient: no `alg`, another `enc`, and, in the last row, a `crit`.
    (
        "{\"ciphertext\":\"\",\"unprotected\":{\"enc\":\"x\"},\"recipients\":[{\"header\":{\"alg\":\"dir\",\"crit\":1}},{}]}",
        Refusal::Header,
    ),
    (
        "{\"ciphertext\":\"\",\"unprotected\":{\"alg\":\"dir\"},\"recipients\":[{\"header\":{\"enc\":\"x\",\"zip\":1}},{\"header\":{\"enc\":\"y\"}}]}",
        Refusal::Header,
    ),
    // Another `enc` in the header of the third recipient.
    (
        "{\"ciphertext\":\"\",\"unprotected\":{\"alg\":\"dir\"},\"recipients\":[{\"header\":{\"enc\":\"x\"}},{\"header\":{\"enc\":\"x\"}},{\"header\":{\"enc\":\"y\"}}]}",
        Refusal::Header,
    ),
    (
        "{\"ciphertext\":\"\",\"unprotected\":{\"alg\":\"dir\",\"enc\":\"x\"},\"recipients\":[{},{\"header\":{\"crit\":1}}]}",
        Refusal::Unsupported,
    ),
];

#[test]
fn headers_are_refused_in_order(rt: HostRuntime) {
    expect_refused(&rt, HEADERS);
}

/// Objects as they are read, in flattened JSON form, and in compact form if it has room for them.
const WRITTEN: &[(&str, &str, Option<&str>)] = &[
    (RFC7516_A3, RFC7516_A3_FLATTENED, Some(RFC7516_A3)),
    (
        RFC7516_A5_REORDERED,
        "{\"ciphertext\":\"KDlTtXchhZTGufMYmOYGS4HffxPSUrfmqCHXaI9wOGY\",\"encrypted_key\":\"6KB707dM9YTIgHtLvtgWQ8mKwboJW3of9locizkDTHzBC2IlrT1oOQ\",\"header\":{\"alg\":\"A128KW\",\"kid\":\"7\"},\"iv\":\"AxY8DCtDaGlsbGljb3RoZQ\",\"protected\":\"eyJlbmMiOiJBMTI4Q0JDLUhTMjU2In0\",\"tag\":\"Mz-VPPyU4RlcuYv1IwIvzw\",\"unprotected\":{\"jku\":\"https://server.example.com/keys.jwks\"}}",
        None,
    ),
    // Additional data, a recipient's header and a shared header each have no place in a compact text.
    (
        "{\"aad\":\"YQ\",\"ciphertext\":\"\",\"protected\":\"eyJhbGciOiJkaXIiLCJlbmMiOiJBMTI4R0NNIn0\"}",
        "{\"aad\":\"YQ\",\"ciphertext\":\"\",\"protected\":\"eyJhbGciOiJkaXIiLCJlbmMiOiJBMTI4R0NNIn0\"}",
        None,
    ),
    (
        " {\"header\":{\"enc\":\"A128GCM\",\"alg\":\"dir\"},\"ciphertext\":\"AA\"}",
        "{\"ciphertext\":\"AA\",\"header\":{\"alg\":\"dir\",\"enc\":\"A128GCM\"}}",
        None,
    ),
    (
        "{\"unprotected\":{\"enc\":\"A128GCM\",\"alg\":\"dir\"},\"ciphertext\":\"AA\"}",
        "{\"ciphertext\":\"AA\",\"unprotected\":{\"alg\":\"dir\",\"enc\":\"A128GCM\"}}",
        None,
    ),
    // Empty optional members are left out.
    (
        "{\"aad\":\"\",\"ciphertext\":\"\",\"encrypted_key\":\"\",\"header\":{},\"iv\":\"\",\"protected\":\"eyJhbGciOiJkaXIiLCJlbmMiOiJBMTI4R0NNIn0\",\"tag\":\"\",\"unprotected\":{}}",
        "{\"ciphertext\":\"\",\"protected\":\"eyJhbGciOiJkaXIiLCJlbmMiOiJBMTI4R0NNIn0\"}",
        Some("eyJhbGciOiJkaXIiLCJlbmMiOiJBMTI4R0NNIn0...."),
    ),
];

fn expect_written<R: Abort + AllocGlobal>(rt: &R, text: &str, json: &str, compact: Option<&str>) {
    let jwe = Jwe::read(rt.alloc(), text.as_bytes(), None).expect(rt, "an object");
    let written = jwe.to_json(rt.alloc(), false).expect(rt, "memory");
    expect_octets_at(rt, written.as_bytes(), json.as_bytes(), text);
    expect_compact(rt, &jwe, compact, text);
}

fn expect_compact<R: Abort + AllocGlobal>(rt: &R, jwe: &Jwe, compact: Option<&str>, at: &str) {
    match (jwe.to_compact(rt.alloc(), false), compact) {
        (Ok(text), Some(compact)) => expect_octets_at(rt, text.as_bytes(), compact.as_bytes(), at),
        (Err(refused), None) => expect_same(rt, refused, Refusal::NotCompact, at),
        _ => assert!(rt; false, "at {at}"),
    }
}

#[test]
fn an_object_is_written_in_each_form_that_has_room(rt: HostRuntime) {
    for &(text, json, compact) in WRITTEN {
        expect_written(&rt, text, json, compact);
        expect_written(&rt, json, json, compact);
    }
}
