//! RFC 7517, JSON Web Key: the header of appendix C.2.
use crate::expected::{expect_octets_at, expect_same};
use objects::{Header, Jwe, read_protected};
use serde_json::{Map, Value};
use std::process::Abort;

pub(crate) fn read_header<R: Abort + AllocGlobal>(rt: &R, text: &str) -> Map<String, Value> {
    read_protected(rt.alloc(), text.as_bytes()).expect(rt, "a header")
}

/// The parameters of RFC 7517 appendix C.2.
fn expect_parameters(rt: &impl Abort, header: &Header<'_>) {
    expect_same(rt, header.alg(), Ok(Some("PBES2-HS256+A128KW")), "alg");
    expect_same(rt, header.enc(), Ok(Some("A128CBC-HS256")), "enc");
    expect_same(rt, header.p2c(), Ok(Some(4096)), "p2c");
}

/// Its salt.
fn expect_salt<R: Abort + AllocGlobal>(rt: &R, header: &Header<'_>) {
    match header.p2s(rt.alloc()) {
        Ok(Some(salt)) => expect_octets_at(
            rt,
            &salt,
            b"\xd9\x60\x93\x70\x96\x75\x46\xf7\x7f\x08\x9b\x89\xae\x2a\x50\xd7",
            "the salt",
        ),
        _ => assert!(rt; false),
    }
}

/// Its `cty`.
pub(crate) fn expect_cty(rt: &impl Abort, header: &Header<'_>) {
    match header.get("cty") {
        Some(value) => expect_same(rt, value.as_str(), Some("jwk+json"), "cty"),
        None => assert!(rt; false),
    }
    assert!(rt; header.has("cty"));
    assert!(rt; !header.has("crit"));
}

/// The header of RFC 7517 appendix C.2, in three parts.
#[test]
fn rfc7517_appendix_c2(rt: HostRuntime) {
    let protected = read_header(
        &rt,
        "{\"alg\":\"PBES2-HS256+A128KW\",\"p2s\":\"2WCTcJZ1Rvd_CJuJripQ1w\"}",
    );
    let unprotected = read_header(&rt, "{\"p2c\":4096,\"cty\":\"jwk+json\"}");
    let per_recipient = read_header(&rt, "{\"enc\":\"A128CBC-HS256\"}");
    let header = Header::joint(Some(&protected), Some(&unprotected), Some(&per_recipient));
    let header = header.expect(&rt, "a joint header");
    expect_parameters(&rt, &header);
    expect_salt(&rt, &header);
    expect_cty(&rt, &header);
}

fn expect_recipient_header<R: Abort + AllocGlobal>(rt: &R, header: &Header<'_>) {
    expect_parameters(rt, header);
    expect_salt(rt, header);
    expect_cty(rt, header);
}

/// The parameters of RFC 7517 appendix C.2 in the three headers of the second recipient.
#[test]
fn rfc7517_appendix_c2_of_a_recipient(rt: HostRuntime) {
    let text =
        "{\"ciphertext\":\"\",\"protected\":\"eyJlbmMiOiJBMTI4Q0JDLUhTMjU2In0\",\"recipients\":[{\"header\":{\"alg\":\"A128KW\"}},{\"header\":{\"alg\":\"PBES2-HS256+A128KW\",\"p2s\":\"2WCTcJZ1Rvd_CJuJripQ1w\"}}],\"unprotected\":{\"p2c\":4096,\"cty\":\"jwk+json\"}}";
    let jwe = Jwe::read(rt.alloc(), text.as_bytes(), None).expect(&rt, "an object");
    match jwe.recipients() {
        [_, recipient] => expect_recipient_header(&rt, &jwe.joint_header(recipient)),
        _ => assert!(&rt; false),
    }
}
