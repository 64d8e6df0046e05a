//! The names of RFC 7518's algorithms (sections 4.1 and 5.1), row by row with values written from the standard.
use crate::ciphers_tests::content::expect_len;
use ciphers::{ContentAlg, KeyAlg};
use std::process::Abort;

const MANAGEMENT_ALGS: &[(&str, KeyAlg)] = &[
    ("dir", KeyAlg::Dir),
    ("A128KW", KeyAlg::A128Kw),
    ("A192KW", KeyAlg::A192Kw),
    ("A256KW", KeyAlg::A256Kw),
    ("PBES2-HS256+A128KW", KeyAlg::Pbes2Hs256A128Kw),
    ("PBES2-HS384+A192KW", KeyAlg::Pbes2Hs384A192Kw),
    ("PBES2-HS512+A256KW", KeyAlg::Pbes2Hs512A256Kw),
    ("A128GCMKW", KeyAlg::A128GcmKw),
    ("A192GCMKW", KeyAlg::A192GcmKw),
    ("A256GCMKW", KeyAlg::A256GcmKw),
];

const ENCRYPTION_ALGS: &[(&str, ContentAlg)] = &[
    ("A128CBC-HS256", ContentAlg::A128CbcHs256),
    ("A192CBC-HS384", ContentAlg::A192CbcHs384),
    ("A256CBC-HS512", ContentAlg::A256CbcHs512),
    ("A128GCM", ContentAlg::A128Gcm),
    ("A192GCM", ContentAlg::A192Gcm),
    ("A256GCM", ContentAlg::A256Gcm),
];

/// Names that no algorithm of the two sorts has.
const OTHER_NAMES: &[&str] = &[
    "",
    "none",
    "HS256",
    "Dir",
    "A128kw",
    "A128GCMkw",
    "A128KWGCM",
    "PBES2-HS384+A256KW",
    "PBES2-HS256",
    "A128CBC-HS512",
    "A256gcm",
];

fn expect_management_alg(rt: &impl Abort, name: &str, alg: Option<KeyAlg>) {
    assert!(rt; KeyAlg::named(name) == alg);
}

fn expect_encryption_alg(rt: &impl Abort, name: &str, enc: Option<ContentAlg>) {
    assert!(rt; ContentAlg::named(name) == enc);
}

#[test]
fn management_algorithms_have_their_names(rt: HostRuntime) {
    for &(name, alg) in MANAGEMENT_ALGS {
        expect_management_alg(&rt, name, Some(alg));
        assert!(rt; alg.name() == name);
    }
}

/// The length of each algorithm's wrapping key, which is 0 if nothing is wrapped.
#[test]
fn management_algorithms_wrap_with_keys_of_their_lengths(rt: HostRuntime) {
    let lens = [0, 16, 24, 32, 16, 24, 32, 16, 24, 32];
    for (&(_, alg), len) in MANAGEMENT_ALGS.iter().zip(lens) {
        expect_len(&rt, alg.kek_len(), len);
    }
}

#[test]
fn encryption_algorithms_have_their_names(rt: HostRuntime) {
    for &(name, enc) in ENCRYPTION_ALGS {
        expect_encryption_alg(&rt, name, Some(enc));
        assert!(rt; enc.name() == name);
    }
}

#[test]
fn other_names_are_no_algorithm(rt: HostRuntime) {
    for &name in OTHER_NAMES {
        expect_management_alg(&rt, name, None);
        expect_encryption_alg(&rt, name, None);
    }
    expect_management_alg(&rt, "A128GCM", None);
    expect_encryption_alg(&rt, "dir", None);
}
