//! Decrypting for a caller who allows few iterations of PBKDF2 (RFC 7518 section 4.8). The object was composed in Python with `hashlib` and
//! its package `cryptography`.
use crate::expected::{expect_octets_at, expect_same};
use crate::tokens_tests::KEY_TO_15;
use keys::KeySet;
use objects::Jwe;
use octets::{MemoryOutput, Refusal};
use std::test::Fail;
use tokens::jwe_decrypt_within;

/// The plaintext of RFC 7516 appendix A.3.
const LINE: &[u8] = b"Live long and prosper.";

/// The key of the octets `password`.
const PASSWORD: &str = "{\"kty\":\"oct\",\"k\":\"cGFzc3dvcmQ\"}";

/// The same key, for one algorithm.
const PASSWORD_128: &str = "{\"kty\":\"oct\",\"k\":\"cGFzc3dvcmQ\",\"alg\":\"PBES2-HS256+A128KW\"}";

/// `LINE`, encrypted to `PASSWORD` with 1,000 iterations.
const BY_PASSWORD: &[u8] =
    b"eyJhbGciOiJQQkVTMi1IUzI1NitBMTI4S1ciLCJlbmMiOiJBMTI4R0NNIiwicDJjIjoxMDAwLCJwMnMiOiJBQUVDQXdRRkJnY0lDUW9MREEwT0R3In0.P7qa4q6sFsLVTL-5LcgwyME_-f33uJCT.ICEiIyQlJicoKSor.2L3zwrFELWSRIfmDxsnEsN5_ET5PAw.Zpwq9dFJU6Glkm3L10FGqA";

/// Another password, the password, and a key for signatures, which is no password.
const SEVERAL_KEYS: &str =
    "{\"keys\":[{\"kty\":\"oct\",\"k\":\"cGFzc3dvcmR4\"},{\"kty\":\"oct\",\"k\":\"cGFzc3dvcmQ\"},{\"kty\":\"oct\",\"k\":\"cGFzc3dvcmQ\",\"alg\":\"HS256\"}]}";

const REFUSED: Result<(), Refusal> = Err(Refusal::Limit);

/// Keys, the most iterations, the answer, and how many iterations were made.
const WITHIN: &[(&str, u64, Result<(), Refusal>, u64)] = &[
    (PASSWORD, 0, REFUSED, 0),
    (PASSWORD, 999, REFUSED, 0),
    (PASSWORD, 1_000, Ok(()), 1_000),
    (PASSWORD_128, 999, REFUSED, 0),
    (PASSWORD_128, 18_446_744_073_709_551_615, Ok(()), 1_000),
    (SEVERAL_KEYS, 1_999, REFUSED, 0),
    (SEVERAL_KEYS, 2_000, Ok(()), 2_000),
    (KEY_TO_15, 1_000, Err(Refusal::NotOpened), 1_000),
];

#[test]
fn no_more_iterations_are_made_than_the_caller_allows(rt: HostRuntime) -> Result<(), Fail> {
    for &(keys, most, answer, made) in WITHIN {
        let set = KeySet::read(rt.alloc(), keys.as_bytes(), false)?;
        let jwe = Jwe::read(rt.alloc(), BY_PASSWORD, None)?;
        let mut plaintext = MemoryOutput::new(rt.alloc(), 64)?;
        let (work, found) = jwe_decrypt_within(rt.alloc(), &set, jwe, most, &mut plaintext);
        expect_same(&rt, found, answer, keys);
        expect_same(&rt, work.iterations, made, keys);
        let wanted: &[u8] = if answer.is_ok() { LINE } else { b"" };
        expect_octets_at(&rt, plaintext.octets(), wanted, keys);
    }
    Ok(())
}
