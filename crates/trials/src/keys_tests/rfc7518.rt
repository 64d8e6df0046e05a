//! RFC 7518, JSON Web Algorithms: the names of the signature algorithms (section 3.1) and the lengths of all keys, row by row with values
//! written from the standard. The other names and appendix B are in crate `ciphers`.
use crate::expected::expect_same;
use ciphers::{ContentAlg, KeyAlg};
use keys::{Algorithm, KeySet, SignatureAlg};
use octets::{Refusal, b64_append};
use std::alloc::Global;
use std::process::Abort;

const SIGNATURE_ALGS: &[(&str, SignatureAlg)] = &[
    ("HS256", SignatureAlg::Hs256),
    ("HS384", SignatureAlg::Hs384),
    ("HS512", SignatureAlg::Hs512),
];

/// Names that no algorithm of signatures has.
const OTHER_NAMES: &[&str] = &[
    "", "none", "hs256", "HS256 ", "RS256", "dir", "A128KW", "A128GCM",
];

fn expect_signature_alg(rt: &impl Abort, name: &str, alg: Option<SignatureAlg>) {
    expect_same(rt, SignatureAlg::named(name), alg, name);
}

#[test]
fn signature_algorithms_have_their_names(rt: HostRuntime) {
    for &(name, alg) in SIGNATURE_ALGS {
        expect_signature_alg(&rt, name, Some(alg));
        expect_same(&rt, alg.name(), name, name);
    }
}

#[test]
fn other_names_are_no_signature_algorithm(rt: HostRuntime) {
    for &name in OTHER_NAMES {
        expect_signature_alg(&rt, name, None);
    }
}

/// A key of `len` zero octets that also has these members.
pub(crate) fn key_of(alloc: Global, len: usize, members: &str) -> Result<KeySet, Refusal> {
    let mut text = String::from_str(alloc, "{\"kty\":\"oct\",\"k\":\"")?;
    let zeros = [0u8; 4096];
    b64_append(&mut text, &zeros[..len.min(4096)])?;
    text.push('"')?;
    text.push_str(members)?;
    text.push('}')?;
    KeySet::read(alloc, text.as_bytes(), true)
}

/// Whether a key of `len` zero octets with these members fits the algorithm.
pub(crate) fn fits<R: Abort + AllocGlobal>(
    rt: &R,
    len: usize,
    members: &str,
    algorithm: Algorithm,
) -> bool {
    let set = key_of(rt.alloc(), len, members).expect(rt, "a key");
    set.keys().first().expect(rt, "one key").fits(algorithm)
}

fn expect_fit<R: Abort + AllocGlobal>(rt: &R, len: usize, algorithm: Algorithm, fit: bool) {
    expect_same(rt, fits(rt, len, "", algorithm), fit, (algorithm, len));
}

/// One octet less than the length of the hash value, this length, and one octet more.
const SIGNATURE_LENGTHS: &[(SignatureAlg, usize, usize, usize)] = &[
    (SignatureAlg::Hs256, 31, 32, 33),
    (SignatureAlg::Hs384, 47, 48, 49),
    (SignatureAlg::Hs512, 63, 64, 65),
];

#[test]
fn a_signature_key_is_at_least_as_long_as_the_hash(rt: HostRuntime) {
    for &(alg, shorter, len, longer) in SIGNATURE_LENGTHS {
        let algorithm = Algorithm::Signature(alg);
        expect_fit(&rt, shorter, algorithm, false);
        expect_fit(&rt, len, algorithm, true);
        expect_fit(&rt, longer, algorithm, true);
    }
}

/// One octet less than the length that fits, this length, and one octet more.
const ENCRYPTION_LENGTHS: &[(KeyAlg, ContentAlg, usize, usize, usize)] = &[
    (KeyAlg::A128Kw, ContentAlg::A256CbcHs512, 15, 16, 17),
    (KeyAlg::A192Kw, ContentAlg::A128CbcHs256, 23, 24, 25),
    (KeyAlg::A256Kw, ContentAlg::A128Gcm, 31, 32, 33),
    (KeyAlg::A128GcmKw, ContentAlg::A256CbcHs512, 15, 16, 17),
    (KeyAlg::A192GcmKw, ContentAlg::A128CbcHs256, 23, 24, 25),
    (KeyAlg::A256GcmKw, ContentAlg::A128Gcm, 31, 32, 33),
    (KeyAlg::Dir, ContentAlg::A128CbcHs256, 31, 32, 33),
    (KeyAlg::Dir, ContentAlg::A192CbcHs384, 47, 48, 49),
    (KeyAlg::Dir, ContentAlg::A256CbcHs512, 63, 64, 65),
    (KeyAlg::Dir, ContentAlg::A128Gcm, 15, 16, 17),
    (KeyAlg::Dir, ContentAlg::A192Gcm, 23, 24, 25),
    (KeyAlg::Dir, ContentAlg::A256Gcm, 31, 32, 33),
];

#[test]
fn a_key_of_encryption_has_one_length(rt: HostRuntime) {
    for &(alg, enc, shorter, len, longer) in ENCRYPTION_LENGTHS {
        let algorithm = Algorithm::Encryption(alg, enc);
        expect_fit(&rt, shorter, algorithm, false);
        expect_fit(&rt, len, algorithm, true);
        expect_fit(&rt, longer, algorithm, false);
    }
}

const PASSWORD_ALGS: &[KeyAlg] = &[
    KeyAlg::Pbes2Hs256A128Kw,
    KeyAlg::Pbes2Hs384A192Kw,
    KeyAlg::Pbes2Hs512A256Kw,
];

const PASSWORD_LENGTHS: &[usize] = &[1, 15, 16, 17, 32, 65, 4096];

#[test]
fn a_password_has_any_length(rt: HostRuntime) {
    for &alg in PASSWORD_ALGS {
        let algorithm = Algorithm::Encryption(alg, ContentAlg::A128Gcm);
        for &len in PASSWORD_LENGTHS {
            expect_fit(&rt, len, algorithm, true);
        }
    }
}
