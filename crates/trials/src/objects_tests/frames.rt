//! The texts around a content and around its signatures or its tag: RFC 7515 and RFC 7516 section 7, in the layout of
//! docs/SPECIFICATION.md.
use crate::expected::expect_same;
use crate::objects_tests::ABC;
use crate::objects_tests::rfc7516::RFC7516_A3;
use objects::{Jwe, Jws};
use octets::Refusal;
use std::alloc::{AllocError, Global};
use std::process::Abort;

/// The texts one after another, each followed by a star.
fn with_stars(
    alloc: Global,
    texts: Result<Vec<String>, Refusal>,
) -> Result<Result<String, Refusal>, AllocError> {
    let texts = match texts {
        Ok(texts) => texts,
        Err(refusal) => return Ok(Err(refusal)),
    };
    let mut all = String::new(alloc);
    for text in &texts {
        all.push_str(text)?;
        all.push('*')?;
    }
    Ok(Ok(all))
}

/// The texts are these, or the refusal is this one.
fn expect_frame<R: Abort + AllocGlobal>(
    rt: &R,
    texts: Result<Vec<String>, Refusal>,
    wanted: Result<&str, Refusal>,
    at: &str,
) {
    let found = with_stars(rt.alloc(), texts).expect(rt, "memory");
    match (found, wanted) {
        (Ok(found), Ok(wanted)) => expect_same(rt, found.as_str(), wanted, at),
        (found, wanted) => expect_same(rt, found.err(), wanted.err(), at),
    }
}

/// A signed object, whether the form is compact, whether the payload is detached, and the texts.
const JWS_FRAMES: &[(&str, bool, bool, Result<&str, Refusal>)] = &[
    (ABC, true, false, Ok("eyJhbGciOiJIUzI1NiJ9.*.**")),
    (ABC, true, true, Ok("eyJhbGciOiJIUzI1NiJ9..**")),
    (
        ABC,
        false,
        false,
        Ok("{\"payload\":\"*\",\"protected\":\"eyJhbGciOiJIUzI1NiJ9\",\"signature\":\"*\"}*"),
    ),
    (
        ABC,
        false,
        true,
        Ok("{\"protected\":\"eyJhbGciOiJIUzI1NiJ9\",\"signature\":\"*\"}*"),
    ),
    (
        "{\"payload\":\"YWJj\",\"signatures\":[{\"header\":{\"alg\":\"x\"},\"signature\":\"AA\"},{\"protected\":\"eyJhbGciOiJIUzI1NiJ9\",\"signature\":\"AQ\"}]}",
        false,
        false,
        Ok(
            "{\"payload\":\"*\",\"signatures\":[{\"header\":{\"alg\":\"x\"},\"signature\":\"*\"},{\"protected\":\"eyJhbGciOiJIUzI1NiJ9\",\"signature\":\"*\"}]}*",
        ),
    ),
    (
        "{\"payload\":\"YWJj\",\"header\":{\"alg\":\"x\"},\"signature\":\"AA\"}",
        true,
        true,
        Err(Refusal::NotCompact),
    ),
];

#[test]
fn a_signed_object_has_a_frame(rt: HostRuntime) {
    for (text, compact, detach, wanted) in JWS_FRAMES {
        let jws = Jws::read(rt.alloc(), text.as_bytes(), None).expect(&rt, "an object");
        let texts = jws.frame(rt.alloc(), *compact, *detach);
        expect_frame(&rt, texts, *wanted, text);
    }
}

/// An encrypted object, whether the form is compact, whether the ciphertext is detached, and the texts.
const JWE_FRAMES: &[(&str, bool, bool, Result<&str, Refusal>)] = &[
    (
        RFC7516_A3,
        true,
        false,
        Ok(
            "eyJhbGciOiJBMTI4S1ciLCJlbmMiOiJBMTI4Q0JDLUhTMjU2In0.6KB707dM9YTIgHtLvtgWQ8mKwboJW3of9locizkDTHzBC2IlrT1oOQ.AxY8DCtDaGlsbGljb3RoZQ.*.**",
        ),
    ),
    (
        RFC7516_A3,
        false,
        true,
        Ok(
            "{\"encrypted_key\":\"6KB707dM9YTIgHtLvtgWQ8mKwboJW3of9locizkDTHzBC2IlrT1oOQ\",\"iv\":\"AxY8DCtDaGlsbGljb3RoZQ\",\"protected\":\"eyJhbGciOiJBMTI4S1ciLCJlbmMiOiJBMTI4Q0JDLUhTMjU2In0\",\"tag\":\"*\"}*",
        ),
    ),
    (
        "{\"aad\":\"YQ\",\"ciphertext\":\"AA\",\"header\":{\"alg\":\"dir\"},\"tag\":\"AQ\",\"unprotected\":{\"enc\":\"A128GCM\"}}",
        false,
        false,
        Ok(
            "{\"aad\":\"YQ\",\"ciphertext\":\"*\",\"header\":{\"alg\":\"dir\"},\"tag\":\"*\",\"unprotected\":{\"enc\":\"A128GCM\"}}*",
        ),
    ),
    (
        "{\"aad\":\"YQ\",\"ciphertext\":\"AA\",\"protected\":\"eyJhbGciOiJkaXIiLCJlbmMiOiJBMTI4R0NNIn0\"}",
        true,
        false,
        Err(Refusal::NotCompact),
    ),
];

#[test]
fn an_encrypted_object_has_a_frame(rt: HostRuntime) {
    for (text, compact, detach, wanted) in JWE_FRAMES {
        let jwe = Jwe::read(rt.alloc(), text.as_bytes(), None).expect(&rt, "an object");
        let texts = jwe.frame(rt.alloc(), *compact, *detach);
        expect_frame(&rt, texts, *wanted, text);
    }
}
