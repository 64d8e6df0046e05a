//! GCM: test cases of its specification (McGrew and Viega), texts that are cut, and texts that do not open.
ghost use Rattle.std.specs.Prelude.{◌<◌};

use crate::expected::{expect_octets, expect_same};
use aes::{Aes128, Aes192, Aes256, Block};
use modes::{Gcm, gcm_open};
use std::alloc::{AllocError, Global};
use std::process::Abort;
use std::test::Fail;

const IV: &[u8; 12] = b"\xca\xfe\xba\xbe\xfa\xce\xdb\xad\xde\xca\xf8\x88";

const AAD: &[u8; 20] =
    b"\xfe\xed\xfa\xce\xde\xad\xbe\xef\xfe\xed\xfa\xce\xde\xad\xbe\xef\xab\xad\xda\xd2";

const PLAINTEXT: &[u8; 60] =
    b"\xd9\x31\x32\x25\xf8\x84\x06\xe5\xa5\x59\x09\xc5\xaf\xf5\x26\x9a\x86\xa7\xa9\x53\x15\x34\xf7\xda\x2e\x4c\x30\x3d\x8a\x31\x8a\x72\x1c\x3c\x0c\x95\x95\x68\x09\x53\x2f\xcf\x0e\x24\x49\xa6\xb5\x25\xb1\x6a\xed\xf5\xaa\x0d\xe6\x57\xba\x63\x7b\x39";

// The GCM ciphertext and tag of the text in pieces of `step` octets and an empty one.
pub(crate) fn gcm<B: Block>(
    rt: &impl Abort,
    alloc: Global,
    cipher: B,
    iv: &[u8; 12],
    aad: &[u8],
    text: &[u8],
    step: usize,
) -> Result<(Vec<u8>, [u8; 16]), AllocError> {
    assert!(rt; step > 0);
    let mut all = Vec::new(alloc);
    let mut out = [0; 4112];
    let mut gcm = Gcm::start(cipher, iv, aad);
    for piece in text.chunks(step) {
        assert!(rt; piece.len() <= 4096);
        let n = gcm.feed(piece, &mut out).expect(rt, "no limit");
        all.extend_from_slice(&out[..n])?;
    }
    let n = gcm.feed(b"", &mut out).expect(rt, "no limit");
    all.extend_from_slice(&out[..n])?;
    Ok((all, gcm.finish()))
}

// The result of opening, and the buffer after it.
fn expect_opening<B: Block>(
    rt: &impl Abort,
    cipher: &B,
    iv: &[u8; 12],
    aad: &[u8],
    text: &mut [u8],
    tag: &[u8],
    answer: Option<usize>,
    left: &[u8],
) {
    let opened = gcm_open(cipher, iv, aad, text, tag);
    expect_same(rt, opened, answer, "opening");
    expect_octets(rt, text, left);
}

// The plaintext encrypts to the ciphertext and the tag, which open to it. With another tag the ciphertext stays.
fn expect_both_ways<B: Block>(
    rt: &impl Abort,
    alloc: Global,
    sealing: B,
    opening: &B,
    iv: &[u8; 12],
    aad: &[u8],
    plaintext: &[u8],
    ciphertext: &[u8],
    tag: &[u8; 16],
) -> Result<(), AllocError> {
    let (mut text, found) = gcm(rt, alloc, sealing, iv, aad, plaintext, 64)?;
    expect_octets(rt, &text, ciphertext);
    expect_octets(rt, &found, tag);
    let mut other = *tag;
    other[15] ^= 1;
    expect_opening(rt, opening, iv, aad, &mut text, &other, None, ciphertext);
    expect_opening(
        rt,
        opening,
        iv,
        aad,
        &mut text,
        &tag[..15],
        None,
        ciphertext,
    );
    let answer = Some(plaintext.len());
    expect_opening(rt, opening, iv, aad, &mut text, tag, answer, plaintext);
    Ok(())
}

#[test]
fn test_cases_1_and_2(rt: HostRuntime) -> Result<(), Fail> {
    let key = [0; 16];
    expect_both_ways(
        &rt,
        rt.alloc(),
        Aes128::new(&key),
        &Aes128::new(&key),
        &[0; 12],
        b"",
        b"",
        b"",
        b"\x58\xe2\xfc\xce\xfa\x7e\x30\x61\x36\x7f\x1d\x57\xa4\xe7\x45\x5a",
    )?;
    expect_both_ways(
        &rt,
        rt.alloc(),
        Aes128::new(&key),
        &Aes128::new(&key),
        &[0; 12],
        b"",
        &[0; 16],
        b"\x03\x88\xda\xce\x60\xb6\xa3\x92\xf3\x28\xc2\xb9\x71\xb2\xfe\x78",
        b"\xab\x6e\x47\xd4\x2c\xec\x13\xbd\xf5\x3a\x67\xb2\x12\x57\xbd\xdf",
    )?;
    Ok(())
}

#[test]
fn test_cases_4_10_and_16(rt: HostRuntime) -> Result<(), Fail> {
    let key = b"\xfe\xff\xe9\x92\x86\x65\x73\x1c\x6d\x6a\x8f\x94\x67\x30\x83\x08";
    expect_both_ways(
        &rt,
        rt.alloc(),
        Aes128::new(key),
        &Aes128::new(key),
        IV,
        AAD,
        PLAINTEXT,
        b"\x42\x83\x1e\xc2\x21\x77\x74\x24\x4b\x72\x21\xb7\x84\xd0\xd4\x9c\xe3\xaa\x21\x2f\x2c\x02\xa4\xe0\x35\xc1\x7e\x23\x29\xac\xa1\x2e\x21\xd5\x14\xb2\x54\x66\x93\x1c\x7d\x8f\x6a\x5a\xac\x84\xaa\x05\x1b\xa3\x0b\x39\x6a\x0a\xac\x97\x3d\x58\xe0\x91",
        b"\x5b\xc9\x4f\xbc\x32\x21\xa5\xdb\x94\xfa\xe9\x5a\xe7\x12\x1a\x47",
    )?;
    let key =
        b"\xfe\xff\xe9\x92\x86\x65\x73\x1c\x6d\x6a\x8f\x94\x67\x30\x83\x08\xfe\xff\xe9\x92\x86\x65\x73\x1c";
    expect_both_ways(
        &rt,
        rt.alloc(),
        Aes192::new(key),
        &Aes192::new(key),
        IV,
        AAD,
        PLAINTEXT,
        b"\x39\x80\xca\x0b\x3c\x00\xe8\x41\xeb\x06\xfa\xc4\x87\x2a\x27\x57\x85\x9e\x1c\xea\xa6\xef\xd9\x84\x62\x85\x93\xb4\x0c\xa1\xe1\x9c\x7d\x77\x3d\x00\xc1\x44\xc5\x25\xac\x61\x9d\x18\xc8\x4a\x3f\x47\x18\xe2\x44\x8b\x2f\xe3\x24\xd9\xcc\xda\x27\x10",
        b"\x25\x19\x49\x8e\x80\xf1\x47\x8f\x37\xba\x55\xbd\x6d\x27\x61\x8c",
    )?;
    let key =
        b"\xfe\xff\xe9\x92\x86\x65\x73\x1c\x6d\x6a\x8f\x94\x67\x30\x83\x08\xfe\xff\xe9\x92\x86\x65\x73\x1c\x6d\x6a\x8f\x94\x67\x30\x83\x08";
    expect_both_ways(
        &rt,
        rt.alloc(),
        Aes256::new(key),
        &Aes256::new(key),
        IV,
        AAD,
        PLAINTEXT,
        b"\x52\x2d\xc1\xf0\x99\x56\x7d\x07\xf4\x7f\x37\xa3\x2a\x84\x42\x7d\x64\x3a\x8c\xdc\xbf\xe5\xc0\xc9\x75\x98\xa2\xbd\x25\x55\xd1\xaa\x8c\xb0\x8e\x48\x59\x0d\xbb\x3d\xa7\xb0\x8b\x10\x56\x82\x88\x38\xc5\xf6\x1e\x63\x93\xba\x7a\x0a\xbc\xc9\xf6\x62",
        b"\x76\xfc\x6e\xce\x0f\x4e\x17\x68\xcd\xdf\x88\x53\xbb\x2d\x55\x1b",
    )?;
    Ok(())
}

#[test]
fn a_cut_changes_nothing(rt: HostRuntime) -> Result<(), Fail> {
    let key = [0; 16];
    let text = &PLAINTEXT[..50];
    let whole = gcm(&rt, rt.alloc(), Aes128::new(&key), IV, AAD, text, 50)?;
    for step in 1..50_usize {
        let sealed = gcm(&rt, rt.alloc(), Aes128::new(&key), IV, AAD, text, step)?;
        expect_same(&rt, &sealed, &whole, step);
    }
    Ok(())
}

// The GCM ciphertext and the tag of 50 octets in two pieces, cut at `cut`.
fn gcm_in_two(rt: &impl Abort, alloc: Global, cut: usize) -> Result<(Vec<u8>, [u8; 16]), AllocError>
    requires { cut < 51 }
{
    let mut all = Vec::new(alloc);
    let mut out = [0; 4112];
    let mut gcm = Gcm::start(Aes128::new(&[0; 16]), IV, AAD);
    let (front, back) = PLAINTEXT[..50].split_at(cut);
    let n = gcm.feed(front, &mut out).expect(rt, "no limit");
    all.extend_from_slice(&out[..n])?;
    let n = gcm.feed(back, &mut out).expect(rt, "no limit");
    all.extend_from_slice(&out[..n])?;
    Ok((all, gcm.finish()))
}

#[test]
fn a_cut_into_two_pieces_changes_nothing(rt: HostRuntime) -> Result<(), Fail> {
    let text = &PLAINTEXT[..50];
    let whole = gcm(&rt, rt.alloc(), Aes128::new(&[0; 16]), IV, AAD, text, 50)?;
    for cut in 0..51_usize {
        let sealed = gcm_in_two(&rt, rt.alloc(), cut)?;
        expect_same(&rt, &sealed, &whole, cut);
    }
    Ok(())
}
