//! A content of 70,001 octets, in one piece and in many. The expected values are those of another program, Python's hashlib.
use crate::prf_tests::vectors::{expect_end, expect_front};
use prf::{Hash, HashAlg, Hmac, Sha256, Sha384, Sha512, digest};
use std::alloc::{AllocError, Global};
use std::process::Abort;
use std::test::Fail;

/// Octets in which few pairs of neighbours repeat.
fn content(alloc: Global) -> Result<Vec<u8>, AllocError> {
    let mut octets = Vec::new(alloc);
    for i in 0..70_001_u32 {
        octets.push((i % 251) as u8)?;
    }
    Ok(octets)
}

const DIGESTS: [(HashAlg, &[u8]); 4] = [
    (
        HashAlg::S224,
        b"\x78\xa7\xee\x0e\x7d\x82\x46\xe8\x36\x5e\x7d\xd8\x9f\x6c\xfc\xbb\x3b\x83\xcd\x43\x2a\xeb\x3a\xa0\xd2\xa6\xb0\xac",
    ),
    (
        HashAlg::S256,
        b"\x0a\x3d\x39\x58\xe3\x85\x97\xb1\x8e\x8d\x3f\xaa\xd4\xf3\xd8\x8c\x28\x14\x68\xa8\x84\xfb\x9c\x3d\x07\xd6\x7a\x14\xbd\xc4\x76\xbc",
    ),
    (
        HashAlg::S384,
        b"\xcd\x0e\x9d\x78\xbf\x51\x80\xa1\x20\x65\x70\x3d\xe7\xa1\x9d\x9f\xa3\x8d\xc7\xd6\xbc\x17\x83\x42\x53\x62\x12\x68\x81\xaf\x0a\x3d\x98\x0f\xd9\xea\x40\x4b\x4b\x8f\xcb\xbb\x92\xef\x81\xc6\x75\xeb",
    ),
    (
        HashAlg::S512,
        b"\x05\x67\x41\xdf\x42\x0a\x49\xe5\x72\xcf\xc9\x9c\xcd\x0e\xc2\x82\x94\x3b\xe6\x7d\x0c\xa4\x6a\x3e\x15\xac\xd7\x71\x6c\xe1\xab\x01\x3c\x24\x78\x51\x79\xc8\xe6\xf1\x3e\x02\x45\xc0\x1f\x9a\x83\xf5\x6a\x41\xda\xdd\x61\x36\xca\x59\x09\x05\x5e\x13\x50\xe1\xf9\xfe",
    ),
];

#[test]
fn digests_of_a_long_content(rt: HostRuntime) -> Result<(), Fail> {
    let content = content(rt.alloc())?;
    for (hash, expected) in DIGESTS {
        let mut out = [0u8; 64];
        let len = digest(hash, &content, &mut out);
        expect_front(&rt, &out, len, expected);
    }
    Ok(())
}

/// The HMAC of the content under the key of RFC 4231's case 2, in pieces of `step` octets.
fn expect_code_in_steps<H: Hash>(rt: &impl Abort, content: &[u8], step: usize, code: &[u8]) {
    assert!(rt; step > 0);
    let mut mac = Hmac::<H>::new(b"Jefe");
    for piece in content.chunks(step) {
        mac.update(piece);
    }
    expect_end(rt, mac, code);
}

/// The same HMAC in one piece and in many.
fn expect_code<H: Hash>(rt: &impl Abort, content: &[u8], code: &[u8]) {
    expect_code_in_steps::<H>(rt, content, 70_001, code);
    expect_code_in_steps::<H>(rt, content, 4_096, code);
    expect_code_in_steps::<H>(rt, content, 999, code);
}

#[test]
fn codes_of_a_long_content(rt: HostRuntime) -> Result<(), Fail> {
    let content = content(rt.alloc())?;
    expect_code::<Sha256>(
        &rt,
        &content,
        b"\x29\x07\xf3\x86\x36\x0e\xcd\xb5\x0e\x2d\x7d\x14\x16\xf0\x3d\x7d\x8c\x92\x56\x18\xfb\xcb\xa4\x1a\x5f\xd7\x5c\xee\x75\xe6\x36\x37",
    );
    expect_code::<Sha384>(
        &rt,
        &content,
        b"\x70\x82\xa8\xef\x6d\xd3\x9f\x9c\xb8\x7e\x1e\x84\xab\xd7\xc2\xfc\xb0\xbc\x37\xe4\x7b\xd8\x85\x88\x79\x5c\x80\x42\x77\x55\x42\xe7\x4d\x19\xc4\xbe\x4c\xfb\x80\x70\x61\xa7\xd5\x8d\xe4\xea\x45\x25",
    );
    expect_code::<Sha512>(
        &rt,
        &content,
        b"\x29\x09\x5b\x4b\x4d\x83\x0d\xfd\xfe\x1c\xf6\x35\x5d\x9a\x7e\xfb\xd7\x40\xb9\x12\xaa\x08\xfd\xe8\xe2\x85\x91\x18\xad\x5d\x19\xf7\x4b\x4a\x40\xe8\x8a\x4d\x1d\x66\x05\x4c\xce\x26\x9f\xac\x66\x7b\xb1\x08\x33\x10\xa0\xd7\xaf\xd4\xe7\xe7\xa8\xfe\x88\x38\x12\x07",
    );
    Ok(())
}
