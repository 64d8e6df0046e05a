//! Key management: RFC 7516 appendix A.3, RFC 7517 appendix C and rows of another program, changed texts and lengths.
ghost use Rattle.std.specs.Prelude.{◌≡◌, ◌≢◌, ◌+◌, ◌%◌, ◌<◌, ◌≤◌, length};
ghost use Rattle.ciphers.specs.Code.Demands.{IsKeyOf, IsCountOf, IsIvOf};

use crate::ciphers_tests::content::front;
use crate::expected::expect_octets;
use ciphers::{Cek, ContentAlg, KeyAlg, KeyParameters};
use std::process::Abort;

pub(crate) fn expect_cek(rt: &impl Abort, delivered: Option<Cek>, cek: &[u8]) {
    match delivered {
        Some(delivered) => expect_octets(rt, delivered.octets(), cek),
        None => assert!(rt; false),
    }
}

pub(crate) fn expect_no_cek(rt: &impl Abort, delivered: Option<Cek>) {
    assert!(rt; delivered.is_none());
}

// The encrypted key, and only that, delivers the content encryption key. Where no key is derived, `p2c` is 0 here.
fn expect_delivery(
    rt: &impl Abort,
    alg: KeyAlg,
    enc: ContentAlg,
    key: &[u8],
    parameters: KeyParameters<'_>,
    cek: &[u8],
    encrypted_key: &[u8],
)
    requires key_fits { IsKeyOf alg key.now }
    requires count_fits { IsCountOf alg parameters.p2c }
    requires parts { length cek.now % 8 ≡ 0 }
    requires size { (16 ≤ length cek.now) × (length cek.now ≤ 64) }
    requires direct { alg ≡ KeyAlg.Dir → cek.now ≡ key.now }
    requires iv_fits { IsIvOf alg parameters.iv.now }
{
    let mut out = [0; 72];
    let mut tag = [0; 16];
    let (len, tag_len) = alg.wrap_cek(key, parameters, &Cek::new(cek), &mut out, &mut tag);
    expect_octets(rt, &out[..len], encrypted_key);
    expect_octets(rt, &tag[..tag_len], parameters.tag);
    let (delivered, iterations) = alg.unwrap_cek(enc, key, parameters, encrypted_key);
    expect_cek(rt, delivered, cek);
    assert!(rt; iterations == u64::from(parameters.p2c));
    expect_exact(rt, alg, enc, key, parameters, encrypted_key);
}

// Another length, or another octet, delivers nothing.
fn expect_exact(
    rt: &impl Abort,
    alg: KeyAlg,
    enc: ContentAlg,
    key: &[u8],
    parameters: KeyParameters<'_>,
    encrypted_key: &[u8],
)
    requires key_fits { IsKeyOf alg key.now }
    requires count_fits { IsCountOf alg parameters.p2c }
{
    let len = encrypted_key.len();
    assert!(rt; len <= 72);
    let mut other = [0; 73];
    other[..len].copy_from_slice(encrypted_key);
    expect_nothing(rt, alg, enc, key, parameters, front(rt, &other, len + 1));
    if len > 8 {
        expect_nothing(rt, alg, enc, key, parameters, front(rt, &other, len - 8));
        other[len - 1] ^= 1;
        expect_nothing(rt, alg, enc, key, parameters, front(rt, &other, len));
    }
}

fn expect_nothing(
    rt: &impl Abort,
    alg: KeyAlg,
    enc: ContentAlg,
    key: &[u8],
    parameters: KeyParameters<'_>,
    encrypted_key: &[u8],
)
    requires key_fits { IsKeyOf alg key.now }
    requires count_fits { IsCountOf alg parameters.p2c }
{
    expect_no_cek(rt, alg.unwrap_cek(enc, key, parameters, encrypted_key).0);
}

pub(crate) const PASSWORD: &[u8] = b"Thus from my lips, by yours, my sin is purged.";

pub(crate) const P2S: &[u8] = b"\xd9\x60\x93\x70\x96\x75\x46\xf7\x7f\x08\x9b\x89\xae\x2a\x50\xd7";

// A content encryption key and its encrypted key, by the hash of the password's algorithm.
pub(crate) const HS256_CEK: &[u8] =
    b"\x6f\x1b\x19\x34\x42\x1d\x14\x4e\x5c\xb0\x38\xf0\x41\xd0\x52\x70\xa1\x83\x24\x37\xca\xec\xb9\xac\x81\x17\x99\xc2\xc3\x30\xfd\xb6";

pub(crate) const HS256_ENCRYPTED_KEY: &[u8] =
    b"\x4e\xba\x97\x3b\x0b\x8d\x51\xf0\xd5\xf5\x53\xd3\x35\xbc\x86\xbc\x42\x7d\x24\xc8\xde\x7c\x05\x67\xf9\x34\x75\xb8\x8c\x51\xf6\x9e\xa1\xb1\x14\x21\xf5\x39\x3b\x04";

pub(crate) const HS384_CEK: &[u8] =
    b"\x40\x41\x42\x43\x44\x45\x46\x47\x48\x49\x4a\x4b\x4c\x4d\x4e\x4f\x50\x51\x52\x53\x54\x55\x56\x57";

pub(crate) const HS384_ENCRYPTED_KEY: &[u8] =
    b"\xc3\xe2\x2c\xda\x5d\x94\x46\xff\xb2\x98\x1f\x8f\x2d\x29\x60\xce\x8e\xd3\x4a\x38\x41\xff\x26\xad\x1e\x6f\xd3\xdc\x07\xa7\x96\x06";

pub(crate) const HS512_CEK: &[u8] =
    b"\x40\x41\x42\x43\x44\x45\x46\x47\x48\x49\x4a\x4b\x4c\x4d\x4e\x4f\x50\x51\x52\x53\x54\x55\x56\x57\x58\x59\x5a\x5b\x5c\x5d\x5e\x5f\x60\x61\x62\x63\x64\x65\x66\x67\x68\x69\x6a\x6b\x6c\x6d\x6e\x6f\x70\x71\x72\x73\x74\x75\x76\x77\x78\x79\x7a\x7b\x7c\x7d\x7e\x7f";

pub(crate) const HS512_ENCRYPTED_KEY: &[u8] =
    b"\xbf\x35\x51\xf2\x35\xba\x51\x02\xa1\xc0\xc7\x0d\x28\x51\xdc\x63\xb7\xc9\x35\xad\x25\xcb\xa4\xd8\xc5\xed\x89\xeb\xf5\xeb\xa3\x8d\xb5\x57\x44\xab\xaf\x77\x64\x26\x2b\x9c\xf7\xbb\xa7\x2d\x4f\x14\x26\xf9\x44\xfa\xde\x7a\x49\xcf\x5b\x6a\x70\xe3\xac\x04\xdb\x4d\x47\xb9\xbd\x36\x88\x72\x87\x5e";

pub(crate) fn salted_parameters(p2c: u32) -> KeyParameters<'static>
    ensures p2s { result.p2s.now ≡ P2S.now }
    ensures p2c { result.p2c ≡ p2c }
{
    KeyParameters {
        iv: b"",
        tag: b"",
        p2s: P2S,
        p2c,
    }
}

#[test]
fn rfc7516_appendix_a_3_and_key_wraps(rt: HostRuntime) {
    expect_delivery(
        &rt,
        KeyAlg::Dir,
        ContentAlg::A128CbcHs256,
        b"\x00\x01\x02\x03\x04\x05\x06\x07\x08\x09\x0a\x0b\x0c\x0d\x0e\x0f\x10\x11\x12\x13\x14\x15\x16\x17\x18\x19\x1a\x1b\x1c\x1d\x1e\x1f",
        KeyParameters {
            iv: b"",
            tag: b"",
            p2s: b"",
            p2c: 0,
        },
        b"\x00\x01\x02\x03\x04\x05\x06\x07\x08\x09\x0a\x0b\x0c\x0d\x0e\x0f\x10\x11\x12\x13\x14\x15\x16\x17\x18\x19\x1a\x1b\x1c\x1d\x1e\x1f",
        b"",
    );
    expect_delivery(
        &rt,
        KeyAlg::A128Kw,
        ContentAlg::A128CbcHs256,
        b"\x19\xac\x20\x82\xe1\x72\x1a\xb5\x8a\x6a\xfe\xc0\x5f\x85\x4a\x52",
        KeyParameters {
            iv: b"",
            tag: b"",
            p2s: b"",
            p2c: 0,
        },
        b"\x04\xd3\x1f\xc5\x54\x9d\xfc\xfe\x0b\x64\x9d\xfa\x3f\xaa\x6a\xce\x6b\x7c\xd4\x2d\x6f\x6b\x09\xdb\xc8\xb1\x00\xf0\x8f\x9c\x2c\xcf",
        b"\xe8\xa0\x7b\xd3\xb7\x4c\xf5\x84\xc8\x80\x7b\x4b\xbe\xd8\x16\x43\xc9\x8a\xc1\xba\x09\x5b\x7a\x1f\xf6\x5a\x1c\x8b\x39\x03\x4c\x7c\xc1\x0b\x62\x25\xad\x3d\x68\x39",
    );
    expect_delivery(
        &rt,
        KeyAlg::A192Kw,
        ContentAlg::A192CbcHs384,
        b"\x00\x01\x02\x03\x04\x05\x06\x07\x08\x09\x0a\x0b\x0c\x0d\x0e\x0f\x10\x11\x12\x13\x14\x15\x16\x17",
        KeyParameters {
            iv: b"",
            tag: b"",
            p2s: b"",
            p2c: 0,
        },
        b"\x40\x41\x42\x43\x44\x45\x46\x47\x48\x49\x4a\x4b\x4c\x4d\x4e\x4f\x50\x51\x52\x53\x54\x55\x56\x57\x58\x59\x5a\x5b\x5c\x5d\x5e\x5f\x60\x61\x62\x63\x64\x65\x66\x67\x68\x69\x6a\x6b\x6c\x6d\x6e\x6f",
        b"\x3f\x15\x64\x4c\x8d\x42\x75\x13\x27\x6d\x04\x93\x07\xa4\x9a\x8d\xcc\x3e\x10\x18\xc5\x6f\x0d\x09\x4b\x3d\xf7\x4a\x84\x11\xac\x0d\xbf\x84\xb1\xb5\x41\x8c\x55\xf9\x11\xb5\x27\xf6\xe3\x90\x6b\xed\xd9\x1d\xb2\x45\x99\x97\x30\xb8",
    );
    expect_delivery(
        &rt,
        KeyAlg::A256Kw,
        ContentAlg::A128Gcm,
        b"\x00\x01\x02\x03\x04\x05\x06\x07\x08\x09\x0a\x0b\x0c\x0d\x0e\x0f\x10\x11\x12\x13\x14\x15\x16\x17\x18\x19\x1a\x1b\x1c\x1d\x1e\x1f",
        KeyParameters {
            iv: b"",
            tag: b"",
            p2s: b"",
            p2c: 0,
        },
        b"\x40\x41\x42\x43\x44\x45\x46\x47\x48\x49\x4a\x4b\x4c\x4d\x4e\x4f",
        b"\x51\x96\x46\xf4\xbd\xf9\x99\x80\xfa\xc8\x13\x86\xe9\xdd\xd7\xb1\xd0\xf7\x99\x3c\xe8\x19\xc4\x0f",
    );
}

#[test]
fn rfc7517_appendix_c_and_passwords(rt: HostRuntime) {
    expect_delivery(
        &rt,
        KeyAlg::Pbes2Hs256A128Kw,
        ContentAlg::A256Gcm,
        PASSWORD,
        salted_parameters(4096),
        HS256_CEK,
        HS256_ENCRYPTED_KEY,
    );
    expect_delivery(
        &rt,
        KeyAlg::Pbes2Hs384A192Kw,
        ContentAlg::A192Gcm,
        PASSWORD,
        salted_parameters(2),
        HS384_CEK,
        HS384_ENCRYPTED_KEY,
    );
    expect_delivery(
        &rt,
        KeyAlg::Pbes2Hs512A256Kw,
        ContentAlg::A256CbcHs512,
        PASSWORD,
        salted_parameters(2),
        HS512_CEK,
        HS512_ENCRYPTED_KEY,
    );
}

// The same by AES-GCM key wrap with a key of 16 octets.
fn expect_nothing_in_gcm(
    rt: &impl Abort,
    key: &[u8],
    parameters: KeyParameters<'_>,
    encrypted_key: &[u8],
)
    requires key_fits { IsKeyOf KeyAlg.A128GcmKw key.now }
{
    expect_nothing(
        rt,
        KeyAlg::A128GcmKw,
        ContentAlg::A128Gcm,
        key,
        parameters,
        encrypted_key,
    );
}

// The GCM specification's test case 2, and its parameters changed or cut.
#[test]
fn encryption_in_gcm(rt: HostRuntime) {
    let key = [0; 16];
    let parameters = KeyParameters {
        iv: b"\x00\x00\x00\x00\x00\x00\x00\x00\x00\x00\x00\x00",
        tag: b"\xab\x6e\x47\xd4\x2c\xec\x13\xbd\xf5\x3a\x67\xb2\x12\x57\xbd\xdf",
        p2s: b"",
        p2c: 0,
    };
    let encrypted_key = b"\x03\x88\xda\xce\x60\xb6\xa3\x92\xf3\x28\xc2\xb9\x71\xb2\xfe\x78";
    expect_delivery(
        &rt,
        KeyAlg::A128GcmKw,
        ContentAlg::A128Gcm,
        &key,
        parameters,
        &[0; 16],
        encrypted_key,
    );
    let cut = KeyParameters {
        iv: &parameters.iv[..11],
        ..parameters
    };
    expect_nothing_in_gcm(&rt, &key, cut, encrypted_key);
    let other = KeyParameters {
        tag: &[0; 16],
        ..parameters
    };
    expect_nothing_in_gcm(&rt, &key, other, encrypted_key);
    let short = KeyParameters {
        tag: &parameters.tag[..12],
        ..parameters
    };
    expect_nothing_in_gcm(&rt, &key, short, encrypted_key);
}
