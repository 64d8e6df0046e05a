//! RFC 7517, JSON Web Key: what `use`, `key_ops` and `alg` allow (sections 4.2 to 4.4), row by row with values written from the standard.
use crate::expected::expect_same;
use crate::keys_tests::rfc7518::{fits, key_of};
use ciphers::{ContentAlg, KeyAlg};
use keys::{Algorithm, Operation, SignatureAlg};
use std::process::Abort;

/// Whether a key of one octet with these members allows the operation.
fn allows<R: Abort + AllocGlobal>(rt: &R, members: &str, operation: Operation) -> bool {
    let set = key_of(rt.alloc(), 1, members).expect(rt, "a key");
    set.keys().first().expect(rt, "one key").allows(operation)
}

/// Whether a key of `len` octets with this `alg` fits the algorithm.
fn fits_named<R: Abort + AllocGlobal>(
    rt: &R,
    len: usize,
    name: &str,
    algorithm: Algorithm,
) -> bool {
    let member = format!(in rt.alloc(); ",\"alg\":\"{name}\"").expect(rt, "memory");
    fits(rt, len, member.as_str(), algorithm)
}

const NAMES: &[&str] = &[
    "HS256",
    "HS384",
    "HS512",
    "dir",
    "A128KW",
    "A192KW",
    "A256KW",
    "PBES2-HS256+A128KW",
    "PBES2-HS384+A192KW",
    "PBES2-HS512+A256KW",
    "A128GCMKW",
    "A192GCMKW",
    "A256GCMKW",
    "A128CBC-HS256",
    "A192CBC-HS384",
    "A256CBC-HS512",
    "A128GCM",
    "A192GCM",
    "A256GCM",
    "none",
];

/// A key with this `alg` fits the algorithm exactly if the `alg` is one of the two names.
fn expect_fit_named<R: Abort + AllocGlobal>(
    rt: &R,
    len: usize,
    alg: &str,
    algorithm: Algorithm,
    name: &str,
    other: &str,
) {
    let is_named = alg == name || alg == other;
    expect_same(
        rt,
        fits_named(rt, len, alg, algorithm),
        is_named,
        (algorithm, alg),
    );
}

/// A key of `len` octets fits the algorithm by these two names and by no others.
fn expect_names<R: Abort + AllocGlobal>(
    rt: &R,
    algorithm: Algorithm,
    len: usize,
    name: &str,
    other: &str,
) {
    for &alg in NAMES {
        expect_fit_named(rt, len, alg, algorithm, name, other);
    }
}

const SIGNING: &[(SignatureAlg, usize, &str)] = &[
    (SignatureAlg::Hs256, 64, "HS256"),
    (SignatureAlg::Hs384, 64, "HS384"),
    (SignatureAlg::Hs512, 64, "HS512"),
];

#[test]
fn the_alg_of_a_key_names_no_other_signature(rt: HostRuntime) {
    for &(alg, len, name) in SIGNING {
        expect_names(&rt, Algorithm::Signature(alg), len, name, name);
    }
}

const WRAPPING: &[(KeyAlg, usize, &str)] = &[
    (KeyAlg::A128Kw, 16, "A128KW"),
    (KeyAlg::A192Kw, 24, "A192KW"),
    (KeyAlg::A256Kw, 32, "A256KW"),
    (KeyAlg::Pbes2Hs256A128Kw, 9, "PBES2-HS256+A128KW"),
    (KeyAlg::Pbes2Hs384A192Kw, 9, "PBES2-HS384+A192KW"),
    (KeyAlg::Pbes2Hs512A256Kw, 9, "PBES2-HS512+A256KW"),
    (KeyAlg::A128GcmKw, 16, "A128GCMKW"),
    (KeyAlg::A192GcmKw, 24, "A192GCMKW"),
    (KeyAlg::A256GcmKw, 32, "A256GCMKW"),
];

#[test]
fn the_alg_of_a_key_names_no_other_wrapping(rt: HostRuntime) {
    for &(alg, len, name) in WRAPPING {
        let algorithm = Algorithm::Encryption(alg, ContentAlg::A256Gcm);
        expect_names(&rt, algorithm, len, name, name);
    }
}

const DIRECT: &[(ContentAlg, usize, &str)] = &[
    (ContentAlg::A128CbcHs256, 32, "A128CBC-HS256"),
    (ContentAlg::A192CbcHs384, 48, "A192CBC-HS384"),
    (ContentAlg::A256CbcHs512, 64, "A256CBC-HS512"),
    (ContentAlg::A128Gcm, 16, "A128GCM"),
    (ContentAlg::A192Gcm, 24, "A192GCM"),
    (ContentAlg::A256Gcm, 32, "A256GCM"),
];

#[test]
fn the_alg_of_a_direct_key_names_dir_or_the_content_encryption(rt: HostRuntime) {
    for &(enc, len, name) in DIRECT {
        let algorithm = Algorithm::Encryption(KeyAlg::Dir, enc);
        expect_names(&rt, algorithm, len, "dir", name);
    }
}

fn expect_allowed<R: Abort + AllocGlobal>(
    rt: &R,
    members: &str,
    operation: Operation,
    allowed: bool,
) {
    expect_same(
        rt,
        allows(rt, members, operation),
        allowed,
        (operation, members),
    );
}

const KEY_OPS: &[&str; 9] = &[
    "sign",
    "verify",
    "encrypt",
    "decrypt",
    "wrapKey",
    "unwrapKey",
    "deriveKey",
    "deriveBits",
    "other",
];

/// Yes and no, in the tables below.
const Y: bool = true;

const N: bool = false;

/// Whether each name of `key_ops` alone allows the operation.
const BY_KEY_OPS: &[(Operation, [bool; 9])] = &[
    (Operation::Sign, [Y, N, N, N, N, N, N, N, N]),
    (Operation::Verify, [N, Y, N, N, N, N, N, N, N]),
    (Operation::Encrypt, [N, N, Y, N, N, N, N, N, N]),
    (Operation::Decrypt, [N, N, N, Y, N, N, N, N, N]),
    (Operation::WrapKey, [N, N, N, N, Y, N, N, N, N]),
    (Operation::UnwrapKey, [N, N, N, N, N, Y, N, N, N]),
    (Operation::WrapByPassword, [N, N, N, N, Y, N, Y, Y, N]),
    (Operation::UnwrapByPassword, [N, N, N, N, N, Y, Y, Y, N]),
];

fn expect_allowed_by_name<R: Abort + AllocGlobal>(
    rt: &R,
    name: &str,
    operation: Operation,
    allowed: bool,
) {
    let member = format!(in rt.alloc(); ",\"key_ops\":[\"x\",\"{name}\"]").expect(rt, "memory");
    expect_allowed(rt, member.as_str(), operation, allowed);
}

#[test]
fn each_name_in_key_ops_allows_its_operations(rt: HostRuntime) {
    for &(operation, by_name) in BY_KEY_OPS {
        for i in 0..9 {
            expect_allowed_by_name(&rt, KEY_OPS[i], operation, by_name[i]);
        }
    }
}

/// Whether a `use` of "sig" allows the operation, and whether a `use` of "enc" does.
const BY_USE: &[(Operation, bool, bool)] = &[
    (Operation::Sign, Y, N),
    (Operation::Verify, Y, N),
    (Operation::Encrypt, N, Y),
    (Operation::Decrypt, N, Y),
    (Operation::WrapKey, N, Y),
    (Operation::UnwrapKey, N, Y),
    (Operation::WrapByPassword, N, Y),
    (Operation::UnwrapByPassword, N, Y),
];

/// Members that allow no operation.
const FORBIDDING: &[&str] = &[
    ",\"use\":\"SIG\"",
    ",\"use\":\"\"",
    ",\"key_ops\":[]",
    ",\"use\":\"sig\",\"key_ops\":[]",
    ",\"use\":\"sig\",\"key_ops\":[\"encrypt\",\"decrypt\",\"wrapKey\",\"unwrapKey\"]",
    ",\"use\":\"enc\",\"key_ops\":[\"sign\",\"verify\"]",
];

#[test]
fn use_allows_signatures_or_encryption(rt: HostRuntime) {
    for &(operation, as_sig, as_enc) in BY_USE {
        expect_allowed(&rt, "", operation, true);
        expect_allowed(&rt, ",\"use\":\"sig\"", operation, as_sig);
        expect_allowed(&rt, ",\"use\":\"enc\"", operation, as_enc);
        for &members in FORBIDDING {
            expect_allowed(&rt, members, operation, false);
        }
    }
}

/// What a sender and a recipient do with a key for these algorithms (section 4.3; RFC 7518 sections 4.4 to 4.8).
const OPERATIONS: &[(KeyAlg, Operation, Operation)] = &[
    (KeyAlg::Dir, Operation::Encrypt, Operation::Decrypt),
    (KeyAlg::A128Kw, Operation::WrapKey, Operation::UnwrapKey),
    (KeyAlg::A192Kw, Operation::WrapKey, Operation::UnwrapKey),
    (KeyAlg::A256Kw, Operation::WrapKey, Operation::UnwrapKey),
    (KeyAlg::A128GcmKw, Operation::WrapKey, Operation::UnwrapKey),
    (KeyAlg::A192GcmKw, Operation::WrapKey, Operation::UnwrapKey),
    (KeyAlg::A256GcmKw, Operation::WrapKey, Operation::UnwrapKey),
    (
        KeyAlg::Pbes2Hs256A128Kw,
        Operation::WrapByPassword,
        Operation::UnwrapByPassword,
    ),
    (
        KeyAlg::Pbes2Hs384A192Kw,
        Operation::WrapByPassword,
        Operation::UnwrapByPassword,
    ),
    (
        KeyAlg::Pbes2Hs512A256Kw,
        Operation::WrapByPassword,
        Operation::UnwrapByPassword,
    ),
];

#[test]
fn each_algorithm_has_its_operations(rt: HostRuntime) {
    for &(alg, wrap, unwrap) in OPERATIONS {
        let (first, second) = Operation::of_management(alg);
        expect_same(&rt, first, wrap, "the sender");
        expect_same(&rt, second, unwrap, "the recipient");
    }
}
