//! The lengths of RFC 7518's algorithms, row by row. What each is made of is shown by the vectors of the other tests.
ghost use Rattle.std.specs.Prelude.{◌≡◌, ◌≢◌, ◌%◌, ◌≤◌, length};
ghost use Rattle.ciphers.specs.Code.Demands.{IsKeyOf, IsCountOf, IsIvOf};

use crate::ciphers_tests::content::{expect_len, front, seal};
use crate::ciphers_tests::delivery::{expect_cek, expect_no_cek};
use ciphers::{Cek, ContentAlg, KeyAlg, KeyParameters};
use std::alloc::{AllocError, Global};
use std::process::Abort;
use std::test::Fail;

// Each content encryption algorithm with the lengths of its keys, IVs and tags (sections 5.2.3 to 5.3).
const CONTENT: [(ContentAlg, usize, usize, usize); 6] = [
    (ContentAlg::A128CbcHs256, 32, 16, 16),
    (ContentAlg::A192CbcHs384, 48, 16, 24),
    (ContentAlg::A256CbcHs512, 64, 16, 32),
    (ContentAlg::A128Gcm, 16, 12, 16),
    (ContentAlg::A192Gcm, 24, 12, 16),
    (ContentAlg::A256Gcm, 32, 12, 16),
];

const OCTETS: [u8; 64] = [3; 64];

fn expect_lengths(
    rt: &impl Abort,
    alloc: Global,
    alg: ContentAlg,
    cek_len: usize,
    iv_len: usize,
    tag_len: usize,
) -> Result<(), AllocError> {
    expect_len(rt, alg.cek_len(), cek_len);
    expect_len(rt, alg.iv_len(), iv_len);
    let (cek, iv) = (front(rt, &OCTETS, cek_len), front(rt, &OCTETS, iv_len));
    let (_, tag) = seal(rt, alloc, alg, cek, iv, b"", b"", 1)?;
    expect_len(rt, tag.len(), tag_len);
    Ok(())
}

#[test]
fn lengths_of_content_encryption(rt: HostRuntime) -> Result<(), Fail> {
    for (alg, cek_len, iv_len, tag_len) in CONTENT {
        expect_lengths(&rt, rt.alloc(), alg, cek_len, iv_len, tag_len)?;
    }
    Ok(())
}

// The encrypted key is eight octets longer, and delivers the content encryption key.
fn expect_key(
    rt: &impl Abort,
    alg: KeyAlg,
    enc: ContentAlg,
    key: &[u8],
    parameters: KeyParameters<'_>,
    cek: &[u8],
)
    requires key_fits { IsKeyOf alg key.now }
    requires count_fits { IsCountOf alg parameters.p2c }
    requires wraps { alg ≢ KeyAlg.Dir }
    requires iv_fits { IsIvOf alg parameters.iv.now }
    requires parts { length cek.now % 8 ≡ 0 }
    requires size { (16 ≤ length cek.now) × (length cek.now ≤ 64) }
{
    let mut out = [0; 72];
    let mut tag = [0; 16];
    let (n, tag_len) = alg.wrap_cek(key, parameters, &Cek::new(cek), &mut out, &mut tag);
    let longer = if parameters.iv.is_empty() { 8 } else { 0 };
    expect_len(rt, n, cek.len() + longer);
    let parameters = KeyParameters {
        tag: &tag[..tag_len],
        ..parameters
    };
    let (delivered, _) = alg.unwrap_cek(enc, key, parameters, &out[..n]);
    expect_cek(rt, delivered, cek);
}

// The encrypted key of each content encryption key delivers it (sections 4.4 and 4.8).
fn expect_every_key(rt: &impl Abort, alg: KeyAlg, key: &[u8], parameters: KeyParameters<'_>)
    requires key_fits { IsKeyOf alg key.now }
    requires count_fits { IsCountOf alg parameters.p2c }
    requires wraps { alg ≢ KeyAlg.Dir }
    requires iv_fits { IsIvOf alg parameters.iv.now }
{
    for (enc, len, _, _) in CONTENT {
        assert!(rt; 16 <= len && len <= 64 && len % 8 == 0);
        expect_key(rt, alg, enc, key, parameters, &OCTETS[..len]);
    }
}

#[test]
fn keys_of_key_wrap(rt: HostRuntime) {
    let none = KeyParameters {
        iv: b"",
        tag: b"",
        p2s: b"",
        p2c: 0,
    };
    expect_every_key(&rt, KeyAlg::A128Kw, &OCTETS[..16], none);
    expect_every_key(&rt, KeyAlg::A192Kw, &OCTETS[..24], none);
    expect_every_key(&rt, KeyAlg::A256Kw, &OCTETS[..32], none);
}

// Encrypted in GCM it is as long (section 4.7).
#[test]
fn keys_of_gcm(rt: HostRuntime) {
    let parameters = KeyParameters {
        iv: &OCTETS[..12],
        tag: b"",
        p2s: b"",
        p2c: 0,
    };
    expect_every_key(&rt, KeyAlg::A128GcmKw, &OCTETS[..16], parameters);
    expect_every_key(&rt, KeyAlg::A192GcmKw, &OCTETS[..24], parameters);
    expect_every_key(&rt, KeyAlg::A256GcmKw, &OCTETS[..32], parameters);
}

// Passwords of one octet and of 4,096.
#[test]
fn passwords_of_pbes2(rt: HostRuntime) {
    let parameters = KeyParameters {
        iv: b"",
        tag: b"",
        p2s: b"salt",
        p2c: 1,
    };
    for key in [[7_u8; 4096].as_slice(), b"p".as_slice()] {
        expect_every_key(&rt, KeyAlg::Pbes2Hs256A128Kw, key, parameters);
        expect_every_key(&rt, KeyAlg::Pbes2Hs384A192Kw, key, parameters);
        expect_every_key(&rt, KeyAlg::Pbes2Hs512A256Kw, key, parameters);
    }
}

fn direct(enc: ContentAlg, key: &[u8], encrypted_key: &[u8]) -> Option<Cek> {
    let none = KeyParameters {
        iv: b"",
        tag: b"",
        p2s: b"",
        p2c: 0,
    };
    KeyAlg::Dir.unwrap_cek(enc, key, none, encrypted_key).0
}

fn expect_no_encrypted_key(rt: &impl Abort, len: usize) {
    assert!(rt; 16 <= len && len <= 64 && len % 8 == 0);
    let key = &OCTETS[..len];
    let none = KeyParameters {
        iv: b"",
        tag: b"",
        p2s: b"",
        p2c: 0,
    };
    let (n, _) = KeyAlg::Dir.wrap_cek(key, none, &Cek::new(key), &mut [0; 72], &mut [0; 16]);
    expect_len(rt, n, 0);
}

fn expect_direct_use(rt: &impl Abort, enc: ContentAlg, len: usize) {
    assert!(rt; 0 < len && len <= 64);
    let key = &OCTETS[..len];
    expect_cek(rt, direct(enc, key, b""), key);
    expect_no_cek(rt, direct(enc, &OCTETS[..len - 1], b""));
    expect_no_cek(rt, direct(enc, key, b"\x00"));
}

// Used directly, a key has the length of a content encryption key, and no encrypted key (section 4.5).
#[test]
fn keys_of_direct_use(rt: HostRuntime) {
    for (enc, len, _, _) in CONTENT {
        expect_no_encrypted_key(&rt, len);
        expect_direct_use(&rt, enc, len);
    }
}
