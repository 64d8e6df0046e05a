//! One key with one salt, by the rows of other tests.
ghost use Rattle.std.specs.Prelude.{◌≡◌, ◌≤◌};
ghost use Rattle.ciphers.specs.Code.Demands.{IsKeyOf, IsCountOf, IsSaltOf};

use crate::ciphers_tests::delivery::{
    HS256_CEK, HS256_ENCRYPTED_KEY, HS384_CEK, HS384_ENCRYPTED_KEY, HS512_CEK, HS512_ENCRYPTED_KEY,
    P2S, PASSWORD, expect_cek, expect_no_cek, salted_parameters,
};
use ciphers::{ContentAlg, KeyAlg, KeyParameters, SaltedKey};
use std::process::Abort;

// The encrypted key delivers the content encryption key by so many iterations, and without its first octet it delivers none by as many.
fn expect_salted(
    rt: &impl Abort,
    alg: KeyAlg,
    enc: ContentAlg,
    key: &mut SaltedKey<'_>,
    parameters: KeyParameters<'_>,
    cek: &[u8],
    encrypted_key: &[u8],
)
    requires key_fits { IsKeyOf alg key.old.key }
    requires count_fits { IsCountOf alg parameters.p2c }
    requires salt_fits { IsSaltOf alg key.old.p2s parameters.p2s.now }
    ensures same { key.new ≡ key.old }
{
    let (delivered, iterations) = alg.unwrap_cek_salted(enc, key, parameters, encrypted_key);
    expect_cek(rt, delivered, cek);
    assert!(rt; iterations == u64::from(parameters.p2c));
    assert!(rt; !encrypted_key.is_empty());
    let (delivered, iterations) = alg.unwrap_cek_salted(enc, key, parameters, &encrypted_key[1..]);
    expect_no_cek(rt, delivered);
    assert!(rt; iterations == u64::from(parameters.p2c));
}

// Each hash in turn.
fn expect_each_hash(rt: &impl Abort, key: &mut SaltedKey<'_>)
    requires { key.old.p2s ≡ P2S.now }
    ensures same { key.new ≡ key.old }
{
    expect_salted(
        rt,
        KeyAlg::Pbes2Hs256A128Kw,
        ContentAlg::A256Gcm,
        key,
        salted_parameters(4096),
        HS256_CEK,
        HS256_ENCRYPTED_KEY,
    );
    expect_salted(
        rt,
        KeyAlg::Pbes2Hs384A192Kw,
        ContentAlg::A192Gcm,
        key,
        salted_parameters(2),
        HS384_CEK,
        HS384_ENCRYPTED_KEY,
    );
    expect_salted(
        rt,
        KeyAlg::Pbes2Hs512A256Kw,
        ContentAlg::A256CbcHs512,
        key,
        salted_parameters(2),
        HS512_CEK,
        HS512_ENCRYPTED_KEY,
    );
}

#[test]
fn one_salted_password_for_each_hash_twice(rt: HostRuntime) {
    let mut key = SaltedKey::new(PASSWORD, P2S);
    expect_each_hash(&rt, &mut key);
    expect_each_hash(&rt, &mut key);
}

// Where no password is used, the salt of the key is not read: RFC 3394 section 4.1.
#[test]
fn one_salted_key_of_a_key_wrap(rt: HostRuntime) {
    let mut key = SaltedKey::new(
        b"\x00\x01\x02\x03\x04\x05\x06\x07\x08\x09\x0a\x0b\x0c\x0d\x0e\x0f",
        P2S,
    );
    let none = KeyParameters {
        iv: b"",
        tag: b"",
        p2s: b"",
        p2c: 0,
    };
    expect_salted(
        &rt,
        KeyAlg::A128Kw,
        ContentAlg::A128Gcm,
        &mut key,
        none,
        b"\x00\x11\x22\x33\x44\x55\x66\x77\x88\x99\xaa\xbb\xcc\xdd\xee\xff",
        b"\x1f\xa6\x8b\x0a\x81\x12\xb4\x47\xae\xf3\x4b\xd8\xfb\x5a\x7b\x82\x9d\x3e\x86\x23\x71\xd2\xcf\xe5",
    );
}
