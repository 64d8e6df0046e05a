//! Headers that are read and headers that are refused, as tables, by RFC 7515 section 4 and RFC 7516 section 4.
use crate::expected::expect_same;
use crate::objects_tests::rfc7517::{expect_cty, read_header};
use objects::{Header, Jws, Signature, read_protected};
use octets::Refusal;
use std::process::Abort;

/// Protected headers, and how many members each of them has.
const PROTECTED: &[(&[u8], Result<usize, Refusal>)] = &[
    (b"", Ok(0)),
    (b"{}", Ok(0)),
    (b"{\"alg\":\"HS256\",\"kid\":1}", Ok(2)),
    (b"{\"alg\":\"HS256\",\"alg\":\"HS512\"}", Ok(1)),
    (b" {} ", Ok(0)),
    (b" ", Err(Refusal::Json)),
    (b"\xef\xbb\xbf{}", Err(Refusal::Json)),
    (b"{}\0", Err(Refusal::Json)),
    (b"{}{}", Err(Refusal::Json)),
    (b"{\"alg\":\"\xff\"}", Err(Refusal::Json)),
    (b"{\"alg\":\"\\ud800\"}", Err(Refusal::Json)),
    (b"1.5", Err(Refusal::Number)),
    (b"{\"p2c\":1.5}", Err(Refusal::Number)),
    (b"[\"alg\"]", Err(Refusal::Header)),
    (b"null", Err(Refusal::Header)),
];

fn expect_members<R: Abort + AllocGlobal>(rt: &R, octets: &[u8], expected: Result<usize, Refusal>) {
    let count = match read_protected(rt.alloc(), octets) {
        Ok(members) => Ok(members.len()),
        Err(refusal) => Err(refusal),
    };
    expect_same(rt, count, expected, octets);
}

#[test]
fn protected_headers_are_objects(rt: HostRuntime) {
    for (octets, expected) in PROTECTED {
        expect_members(&rt, octets, *expected);
    }
}

/// Three parts of a header, and the cause if they make no header.
const PARTS: &[(&str, &str, &str, Option<Refusal>)] = &[
    ("{\"alg\":1}", "{\"enc\":1}", "{\"kid\":1}", None),
    ("{\"alg\":1}", "{\"Alg\":1}", "{\"al\":1}", None),
    ("{\"alg\":1}", "{\"alg\":1}", "{}", Some(Refusal::Header)),
    (
        "{\"alg\":1,\"kid\":1}",
        "{}",
        "{\"kid\":2}",
        Some(Refusal::Header),
    ),
    (
        "{}",
        "{\"enc\":1}",
        "{\"a\":1,\"\\u0065nc\":null}",
        Some(Refusal::Header),
    ),
];

fn expect_joint<R: Abort + AllocGlobal>(
    rt: &R,
    protected: &str,
    unprotected: &str,
    per_recipient: &str,
    refusal: Option<Refusal>,
) {
    let protected = read_header(rt, protected);
    let unprotected = read_header(rt, unprotected);
    let per_recipient = read_header(rt, per_recipient);
    let header = Header::joint(Some(&protected), Some(&unprotected), Some(&per_recipient));
    match header {
        Ok(_) => assert!(rt; refusal.is_none()),
        Err(refused) => assert!(rt; refusal == Some(refused)),
    }
}

#[test]
fn no_name_is_in_two_parts(rt: HostRuntime) {
    for (protected, unprotected, per_recipient, refusal) in PARTS {
        expect_joint(&rt, protected, unprotected, per_recipient, *refusal);
    }
}

/// Headers and their `alg`.
const ALGORITHMS: &[(&str, Result<Option<&str>, Refusal>)] = &[
    ("{\"enc\":\"A128GCM\"}", Ok(None)),
    ("{\"alg\":\"dir\",\"enc\":1}", Ok(Some("dir"))),
    ("{\"alg\":\"HS256\",\"alg\":\"HS512\"}", Ok(Some("HS512"))),
    ("{\"alg\":null}", Err(Refusal::Header)),
];

fn expect_alg<R: Abort + AllocGlobal>(rt: &R, text: &str, expected: Result<Option<&str>, Refusal>) {
    let members = read_header(rt, text);
    let header = Header::joint(Some(&members), None, None).expect(rt, "a joint header");
    expect_same(rt, header.alg(), expected, text);
}

#[test]
fn an_algorithm_is_a_string(rt: HostRuntime) {
    for (text, expected) in ALGORITHMS {
        expect_alg(&rt, text, *expected);
    }
}

/// Headers and their `enc`.
const ENCRYPTIONS: &[(&str, Result<Option<&str>, Refusal>)] = &[
    ("{\"alg\":\"dir\"}", Ok(None)),
    ("{\"alg\":1,\"enc\":\"A128GCM\"}", Ok(Some("A128GCM"))),
    ("{\"enc\":[\"A128GCM\"]}", Err(Refusal::Header)),
];

fn expect_enc<R: Abort + AllocGlobal>(rt: &R, text: &str, expected: Result<Option<&str>, Refusal>) {
    let members = read_header(rt, text);
    let header = Header::joint(None, Some(&members), None).expect(rt, "a joint header");
    expect_same(rt, header.enc(), expected, text);
}

#[test]
fn a_content_encryption_is_a_string(rt: HostRuntime) {
    for (text, expected) in ENCRYPTIONS {
        expect_enc(&rt, text, *expected);
    }
}

/// Headers and their `p2c`.
const COUNTS: &[(&str, Result<Option<u64>, Refusal>)] = &[
    ("{}", Ok(None)),
    ("{\"p2c\":0}", Ok(Some(0))),
    ("{\"p2c\":1}", Ok(Some(1))),
    (
        "{\"p2c\":18446744073709551615}",
        Ok(Some(18446744073709551615)),
    ),
    ("{\"p2c\":-1}", Err(Refusal::Header)),
    ("{\"p2c\":\"x\"}", Err(Refusal::Header)),
];

fn expect_p2c<R: Abort + AllocGlobal>(rt: &R, text: &str, expected: Result<Option<u64>, Refusal>) {
    let members = read_header(rt, text);
    let header = Header::joint(None, None, Some(&members)).expect(rt, "a joint header");
    expect_same(rt, header.p2c(), expected, text);
}

#[test]
fn a_count_is_a_whole_number(rt: HostRuntime) {
    for (text, expected) in COUNTS {
        expect_p2c(&rt, text, *expected);
    }
}

/// Headers and the number of octets in their `p2s`.
const SALTS: &[(&str, Result<Option<u64>, Refusal>)] = &[
    ("{}", Ok(None)),
    ("{\"p2s\":\"c2FsdC1vY3Q\"}", Ok(Some(8))),
    ("{\"p2s\":\"c2FsdC03bw\"}", Err(Refusal::Header)),
    ("{\"p2s\":\"\"}", Err(Refusal::Header)),
    ("{\"p2s\":\"c2FsdC1vY3Q=\"}", Err(Refusal::Header)),
    ("{\"p2s\":\"c2FsdC1vY3R\"}", Err(Refusal::Header)),
    ("{\"p2s\":8}", Err(Refusal::Header)),
];

fn expect_p2s<R: Abort + AllocGlobal>(rt: &R, text: &str, expected: Result<Option<u64>, Refusal>) {
    let members = read_header(rt, text);
    let header = Header::joint(Some(&members), None, None).expect(rt, "a joint header");
    let len = match header.p2s(rt.alloc()) {
        Ok(Some(octets)) => Ok(Some(octets.len() as u64)),
        Ok(None) => Ok(None),
        Err(refusal) => Err(refusal),
    };
    expect_same(rt, len, expected, text);
}

#[test]
fn a_salt_has_eight_octets_at_least(rt: HostRuntime) {
    for (text, expected) in SALTS {
        expect_p2s(&rt, text, *expected);
    }
}

/// Values of `iv` or `tag`, and the number of their octets.
const OCTETS: &[(&str, Result<Option<u64>, Refusal>)] = &[
    ("\"\"", Ok(Some(0))),
    ("\"AA\"", Ok(Some(1))),
    ("\"KkYT0GX_2jHlfqN_\"", Ok(Some(12))),
    ("\"kfPduVQ3T3H6vnewt--ksw\"", Ok(Some(16))),
    ("\"KkYT0GX/2jHlfqN/\"", Err(Refusal::Header)),
    ("\"AA==\"", Err(Refusal::Header)),
    ("\"AB\"", Err(Refusal::Header)),
    ("null", Err(Refusal::Header)),
    ("12", Err(Refusal::Header)),
];

fn expect_octets_read(
    rt: &impl Abort,
    read: Result<Option<Vec<u8>>, Refusal>,
    expected: Result<Option<u64>, Refusal>,
    text: &str,
) {
    let len = match read {
        Ok(Some(octets)) => Ok(Some(octets.len() as u64)),
        Ok(None) => Ok(None),
        Err(refusal) => Err(refusal),
    };
    expect_same(rt, len, expected, text);
}

/// A header with this `iv` has the expected octets in it, and has no `tag`.
fn expect_iv<R: Abort + AllocGlobal>(rt: &R, held: &str, expected: Result<Option<u64>, Refusal>) {
    let text = format!(in rt.alloc(); "{{\"iv\":{held}}}").expect(rt, "memory");
    let members = read_header(rt, text.as_str());
    let header = Header::joint(Some(&members), None, None).expect(rt, "a joint header");
    expect_octets_read(rt, header.iv(rt.alloc()), expected, held);
    expect_octets_read(rt, header.tag(rt.alloc()), Ok(None), held);
}

fn expect_tag<R: Abort + AllocGlobal>(rt: &R, held: &str, expected: Result<Option<u64>, Refusal>) {
    let text = format!(in rt.alloc(); "{{\"tag\":{held}}}").expect(rt, "memory");
    let members = read_header(rt, text.as_str());
    let header = Header::joint(None, None, Some(&members)).expect(rt, "a joint header");
    expect_octets_read(rt, header.tag(rt.alloc()), expected, held);
    expect_octets_read(rt, header.iv(rt.alloc()), Ok(None), held);
}

#[test]
fn initialization_vectors_and_tags_have_any_octets(rt: HostRuntime) {
    for (held, expected) in OCTETS {
        expect_iv(&rt, held, *expected);
        expect_tag(&rt, held, *expected);
    }
}

fn expect_signature_header(rt: &impl Abort, signature: &Signature) {
    let header = signature.joint_header();
    expect_same(rt, header.alg(), Ok(Some("HS256")), "alg");
    expect_cty(rt, &header);
}

/// A signature with a protected `alg` and an unprotected `cty`.
#[test]
fn a_signature_has_a_joint_header(rt: HostRuntime) {
    let text =
        "{\"payload\":\"YWJj\",\"protected\":\"eyJhbGciOiJIUzI1NiJ9\",\"header\":{\"cty\":\"jwk+json\"},\"signature\":\"\"}";
    let jws = Jws::read(rt.alloc(), text.as_bytes(), None).expect(&rt, "an object");
    match jws.signatures() {
        [signature] => expect_signature_header(&rt, signature),
        _ => assert!(&rt; false),
    }
}
