//! Content encryption: RFC 7518 appendix B, RFC 7516 appendix A.3, pieces of every length, and what does not open.
use crate::expected::expect_octets;
use ciphers::{ContentAlg, Sealer};
use std::alloc::{AllocError, Global};
use std::process::Abort;
use std::test::Fail;

const IV: &[u8; 16] = b"\x1a\xf3\x8c\x2d\xc2\xb9\x6f\xfd\xd8\x66\x94\x09\x23\x41\xbc\x04";

const AAD: &[u8; 42] = b"The second principle of Auguste Kerckhoffs";

const PLAINTEXT: &[u8; 128] =
    b"A cipher system must not be required to be secret, and it must be able to fall into the hands of the enemy without inconvenience";

// The octets 0, 1, 2 and so on.
const KEY: [u8; 64] = [
    0, 1, 2, 3, 4, 5, 6, 7, 8, 9, 10, 11, 12, 13, 14, 15, 16, 17, 18, 19, 20, 21, 22, 23, 24, 25,
    26, 27, 28, 29, 30, 31, 32, 33, 34, 35, 36, 37, 38, 39, 40, 41, 42, 43, 44, 45, 46, 47, 48, 49,
    50, 51, 52, 53, 54, 55, 56, 57, 58, 59, 60, 61, 62, 63,
];

pub(crate) fn expect_len(rt: &impl Abort, found: usize, wanted: usize) {
    assert_eq!(rt; found, wanted);
}

// Adds what the piece adds to the ciphertext.
fn feed<S: Sealer>(
    rt: &impl Abort,
    sealer: &mut S,
    piece: &[u8],
    ciphertext: &mut Vec<u8>,
) -> Result<(), AllocError> {
    assert!(rt; piece.len() <= 4096);
    let mut out = [0; 4112];
    let n = sealer.feed(piece, &mut out).expect(rt, "no limit");
    ciphertext.extend_from_slice(&out[..n])
}

// Adds the end of the ciphertext. Its tag.
fn finish<S: Sealer>(
    alloc: Global,
    sealer: S,
    ciphertext: &mut Vec<u8>,
) -> Result<Vec<u8>, AllocError> {
    let mut last = [0; 16];
    let mut tag = [0; 32];
    let (n, tag_len) = sealer.finish(&mut last, &mut tag);
    ciphertext.extend_from_slice(&last[..n])?;
    let mut octets = Vec::new(alloc);
    octets.extend_from_slice(&tag[..tag_len])?;
    Ok(octets)
}

// What the sealing makes of the text in pieces of so many octets and an empty one: the ciphertext, and the tag.
fn feed_all<S: Sealer>(
    rt: &impl Abort,
    alloc: Global,
    mut sealer: S,
    text: &[u8],
    step: usize,
) -> Result<(Vec<u8>, Vec<u8>), AllocError> {
    assert!(rt; step > 0);
    let mut ciphertext = Vec::new(alloc);
    for piece in text.chunks(step) {
        feed(rt, &mut sealer, piece, &mut ciphertext)?;
    }
    feed(rt, &mut sealer, b"", &mut ciphertext)?;
    let tag = finish(alloc, sealer, &mut ciphertext)?;
    Ok((ciphertext, tag))
}

// The ciphertext of the text in pieces of so many octets, and the tag.
pub(crate) fn seal(
    rt: &impl Abort,
    alloc: Global,
    alg: ContentAlg,
    cek: &[u8],
    iv: &[u8],
    aad: &[u8],
    text: &[u8],
    step: usize,
) -> Result<(Vec<u8>, Vec<u8>), AllocError> {
    assert!(rt; cek.len() == alg.cek_len() && iv.len() == alg.iv_len());
    feed_all(rt, alloc, alg.seal(cek, iv, aad), text, step)
}

// What opening answers, and what then begins the place of the text.
pub(crate) fn expect_opening(
    rt: &impl Abort,
    alg: ContentAlg,
    cek: &[u8],
    iv: &[u8],
    aad: &[u8],
    text: &mut [u8],
    tag: &[u8],
    answer: Option<usize>,
    front: &[u8],
) {
    assert_eq!(rt; alg.open(cek, iv, aad, text, tag), answer);
    assert!(rt; text.starts_with(front));
}

// The plaintext is sealed to the ciphertext and the tag, and comes back.
fn expect_both_ways(
    rt: &impl Abort,
    alloc: Global,
    alg: ContentAlg,
    cek: &[u8],
    iv: &[u8],
    aad: &[u8],
    plaintext: &[u8],
    ciphertext: &[u8],
    tag: &[u8],
) -> Result<(), AllocError> {
    let (mut text, code) = seal(rt, alloc, alg, cek, iv, aad, plaintext, 4096)?;
    expect_octets(rt, &text, ciphertext);
    expect_octets(rt, &code, tag);
    let answer = Some(plaintext.len());
    expect_opening(rt, alg, cek, iv, aad, &mut text, tag, answer, plaintext);
    Ok(())
}

// The first octets.
pub(crate) fn front<'o>(rt: &impl Abort, octets: &'o [u8], len: usize) -> &'o [u8] {
    let (front, _) = octets.split_at_checked(len).expect(rt, "as many octets");
    front
}

// Appendices B.1 to B.3 of RFC 7518: the algorithm, the ciphertext and the tag.
const APPENDIX_B: [(ContentAlg, &[u8], &[u8]); 3] = [
    (
        ContentAlg::A128CbcHs256,
        b"\xc8\x0e\xdf\xa3\x2d\xdf\x39\xd5\xef\x00\xc0\xb4\x68\x83\x42\x79\xa2\xe4\x6a\x1b\x80\x49\xf7\x92\xf7\x6b\xfe\x54\xb9\x03\xa9\xc9\xa9\x4a\xc9\xb4\x7a\xd2\x65\x5c\x5f\x10\xf9\xae\xf7\x14\x27\xe2\xfc\x6f\x9b\x3f\x39\x9a\x22\x14\x89\xf1\x63\x62\xc7\x03\x23\x36\x09\xd4\x5a\xc6\x98\x64\xe3\x32\x1c\xf8\x29\x35\xac\x40\x96\xc8\x6e\x13\x33\x14\xc5\x40\x19\xe8\xca\x79\x80\xdf\xa4\xb9\xcf\x1b\x38\x4c\x48\x6f\x3a\x54\xc5\x10\x78\x15\x8e\xe5\xd7\x9d\xe5\x9f\xbd\x34\xd8\x48\xb3\xd6\x95\x50\xa6\x76\x46\x34\x44\x27\xad\xe5\x4b\x88\x51\xff\xb5\x98\xf7\xf8\x00\x74\xb9\x47\x3c\x82\xe2\xdb",
        b"\x65\x2c\x3f\xa3\x6b\x0a\x7c\x5b\x32\x19\xfa\xb3\xa3\x0b\xc1\xc4",
    ),
    (
        ContentAlg::A192CbcHs384,
        b"\xea\x65\xda\x6b\x59\xe6\x1e\xdb\x41\x9b\xe6\x2d\x19\x71\x2a\xe5\xd3\x03\xee\xb5\x00\x52\xd0\xdf\xd6\x69\x7f\x77\x22\x4c\x8e\xdb\x00\x0d\x27\x9b\xdc\x14\xc1\x07\x26\x54\xbd\x30\x94\x42\x30\xc6\x57\xbe\xd4\xca\x0c\x9f\x4a\x84\x66\xf2\x2b\x22\x6d\x17\x46\x21\x4b\xf8\xcf\xc2\x40\x0a\xdd\x9f\x51\x26\xe4\x79\x66\x3f\xc9\x0b\x3b\xed\x78\x7a\x2f\x0f\xfc\xbf\x39\x04\xbe\x2a\x64\x1d\x5c\x21\x05\xbf\xe5\x91\xba\xe2\x3b\x1d\x74\x49\xe5\x32\xee\xf6\x0a\x9a\xc8\xbb\x6c\x6b\x01\xd3\x5d\x49\x78\x7b\xcd\x57\xef\x48\x49\x27\xf2\x80\xad\xc9\x1a\xc0\xc4\xe7\x9c\x7b\x11\xef\xc6\x00\x54\xe3",
        b"\x84\x90\xac\x0e\x58\x94\x9b\xfe\x51\x87\x5d\x73\x3f\x93\xac\x20\x75\x16\x80\x39\xcc\xc7\x33\xd7",
    ),
    (
        ContentAlg::A256CbcHs512,
        b"\x4a\xff\xaa\xad\xb7\x8c\x31\xc5\xda\x4b\x1b\x59\x0d\x10\xff\xbd\x3d\xd8\xd5\xd3\x02\x42\x35\x26\x91\x2d\xa0\x37\xec\xbc\xc7\xbd\x82\x2c\x30\x1d\xd6\x7c\x37\x3b\xcc\xb5\x84\xad\x3e\x92\x79\xc2\xe6\xd1\x2a\x13\x74\xb7\x7f\x07\x75\x53\xdf\x82\x94\x10\x44\x6b\x36\xeb\xd9\x70\x66\x29\x6a\xe6\x42\x7e\xa7\x5c\x2e\x08\x46\xa1\x1a\x09\xcc\xf5\x37\x0d\xc8\x0b\xfe\xcb\xad\x28\xc7\x3f\x09\xb3\xa3\xb7\x5e\x66\x2a\x25\x94\x41\x0a\xe4\x96\xb2\xe2\xe6\x60\x9e\x31\xe6\xe0\x2c\xc8\x37\xf0\x53\xd2\x1f\x37\xff\x4f\x51\x95\x0b\xbe\x26\x38\xd0\x9d\xd7\xa4\x93\x09\x30\x80\x6d\x07\x03\xb1\xf6",
        b"\x4d\xd3\xb4\xc0\x88\xa7\xf4\x5c\x21\x68\x39\x64\x5b\x20\x12\xbf\x2e\x62\x69\xa8\xc5\x6a\x81\x6d\xbc\x1b\x26\x77\x61\x95\x5b\xc5",
    ),
];

#[test]
fn rfc7518_appendix_b(rt: HostRuntime) -> Result<(), Fail> {
    for (alg, ciphertext, tag) in APPENDIX_B {
        let cek = front(&rt, &KEY, alg.cek_len());
        expect_both_ways(
            &rt,
            rt.alloc(),
            alg,
            cek,
            IV,
            AAD,
            PLAINTEXT,
            ciphertext,
            tag,
        )?;
    }
    Ok(())
}

#[test]
fn rfc7516_appendix_a3(rt: HostRuntime) -> Result<(), Fail> {
    let alg = ContentAlg::A128CbcHs256;
    let cek =
        b"\x04\xd3\x1f\xc5\x54\x9d\xfc\xfe\x0b\x64\x9d\xfa\x3f\xaa\x6a\xce\x6b\x7c\xd4\x2d\x6f\x6b\x09\xdb\xc8\xb1\x00\xf0\x8f\x9c\x2c\xcf";
    let iv = b"\x03\x16\x3c\x0c\x2b\x43\x68\x69\x6c\x6c\x69\x63\x6f\x74\x68\x65";
    let aad = b"eyJhbGciOiJBMTI4S1ciLCJlbmMiOiJBMTI4Q0JDLUhTMjU2In0";
    let ciphertext =
        b"\x28\x39\x53\xb5\x77\x21\x85\x94\xc6\xb9\xf3\x18\x98\xe6\x06\x4b\x81\xdf\x7f\x13\xd2\x52\xb7\xe6\xa8\x21\xd7\x68\x8f\x70\x38\x66";
    let tag = b"\x53\x49\xbf\x62\x68\xcd\xd3\x80\xc9\xbd\xc7\x85\x20\x26\xc2\x55";
    expect_both_ways(
        &rt,
        rt.alloc(),
        alg,
        cek,
        iv,
        aad,
        b"Live long and prosper.",
        ciphertext,
        tag,
    )?;
    Ok(())
}

// Fifty octets in steps of each length have the ciphertext and the tag that they have as a whole.
fn expect_same_at_every_cut(
    rt: &impl Abort,
    alloc: Global,
    alg: ContentAlg,
    cek: &[u8],
    iv: &[u8],
) -> Result<(), AllocError> {
    let text = &PLAINTEXT[..50];
    let whole = seal(rt, alloc, alg, cek, iv, AAD, text, 50)?;
    for step in 1..50_usize {
        let sealed = seal(rt, alloc, alg, cek, iv, AAD, text, step)?;
        assert_eq!(rt; sealed, whole, "in steps of {step}");
    }
    Ok(())
}

#[test]
fn a_cut_changes_nothing(rt: HostRuntime) -> Result<(), Fail> {
    let alloc = rt.alloc();
    let iv = IV.as_slice();
    expect_same_at_every_cut(&rt, alloc, ContentAlg::A128CbcHs256, &KEY[..32], iv)?;
    expect_same_at_every_cut(&rt, alloc, ContentAlg::A256Gcm, &KEY[..32], &iv[..12])?;
    Ok(())
}

fn copy(alloc: Global, octets: &[u8]) -> Result<Vec<u8>, AllocError> {
    let mut copy = Vec::new(alloc);
    copy.extend_from_slice(octets)?;
    Ok(copy)
}

// The octets with these bits of one of them changed.
fn changed(
    rt: &impl Abort,
    alloc: Global,
    octets: &[u8],
    place: usize,
    bits: u8,
) -> Result<Vec<u8>, AllocError> {
    let mut copy = copy(alloc, octets)?;
    assert!(rt; place < copy.len());
    copy[place] ^= bits;
    Ok(copy)
}

// The text does not open, and stays.
fn expect_closed(
    rt: &impl Abort,
    alloc: Global,
    alg: ContentAlg,
    cek: &[u8],
    iv: &[u8],
    aad: &[u8],
    text: &[u8],
    tag: &[u8],
) -> Result<(), AllocError> {
    let mut place = copy(alloc, text)?;
    expect_opening(rt, alg, cek, iv, aad, &mut place, tag, None, text);
    Ok(())
}

// No octet of the ciphertext may be another.
fn expect_exact_text(
    rt: &impl Abort,
    alloc: Global,
    alg: ContentAlg,
    cek: &[u8],
    iv: &[u8],
    text: &[u8],
    tag: &[u8],
) -> Result<(), AllocError> {
    for i in 0..text.len() {
        let other = changed(rt, alloc, text, i, 1)?;
        expect_closed(rt, alloc, alg, cek, iv, AAD, &other, tag)?;
    }
    Ok(())
}

// No octet of the tag may be another, and none may lack.
fn expect_exact_tag(
    rt: &impl Abort,
    alloc: Global,
    alg: ContentAlg,
    cek: &[u8],
    iv: &[u8],
    text: &[u8],
    tag: &[u8],
) -> Result<(), AllocError> {
    for i in 0..tag.len() {
        let other = changed(rt, alloc, tag, i, 0x80)?;
        expect_closed(rt, alloc, alg, cek, iv, AAD, text, &other)?;
        expect_closed(rt, alloc, alg, cek, iv, AAD, text, &tag[..i])?;
    }
    Ok(())
}

// No octet of the additional data may be another, and none may lack.
fn expect_exact_aad(
    rt: &impl Abort,
    alloc: Global,
    alg: ContentAlg,
    cek: &[u8],
    iv: &[u8],
    text: &[u8],
    tag: &[u8],
) -> Result<(), AllocError> {
    for i in 0..42_usize {
        let other = changed(rt, alloc, AAD, i, 1)?;
        expect_closed(rt, alloc, alg, cek, iv, &other, text, tag)?;
        expect_closed(rt, alloc, alg, cek, iv, &AAD[..i], text, tag)?;
    }
    Ok(())
}

// Only what was sealed opens, and under no key or IV of another length.
fn expect_exact(rt: &impl Abort, alloc: Global, alg: ContentAlg) -> Result<(), AllocError> {
    let cek = front(rt, &KEY, alg.cek_len());
    let iv = front(rt, IV, alg.iv_len());
    let (text, tag) = seal(rt, alloc, alg, cek, iv, AAD, &PLAINTEXT[..50], 50)?;
    let (text, tag) = (text.as_slice(), tag.as_slice());
    expect_exact_text(rt, alloc, alg, cek, iv, text, tag)?;
    expect_exact_tag(rt, alloc, alg, cek, iv, text, tag)?;
    expect_exact_aad(rt, alloc, alg, cek, iv, text, tag)?;
    expect_closed(rt, alloc, alg, &KEY[..15], iv, AAD, text, tag)?;
    expect_closed(rt, alloc, alg, cek, &IV[..11], AAD, text, tag)
}

#[test]
fn no_other_octet_or_length_opens(rt: HostRuntime) -> Result<(), Fail> {
    for alg in [
        ContentAlg::A128CbcHs256,
        ContentAlg::A192CbcHs384,
        ContentAlg::A256CbcHs512,
        ContentAlg::A128Gcm,
        ContentAlg::A192Gcm,
        ContentAlg::A256Gcm,
    ] {
        expect_exact(&rt, rt.alloc(), alg)?;
    }
    Ok(())
}

// The test cases of the GCM specification (McGrew and Viega) that have an IV of twelve octets.
const GCM_IV: &[u8; 12] = b"\xca\xfe\xba\xbe\xfa\xce\xdb\xad\xde\xca\xf8\x88";

const GCM_AAD: &[u8; 20] =
    b"\xfe\xed\xfa\xce\xde\xad\xbe\xef\xfe\xed\xfa\xce\xde\xad\xbe\xef\xab\xad\xda\xd2";

const GCM_PLAINTEXT: &[u8; 64] =
    b"\xd9\x31\x32\x25\xf8\x84\x06\xe5\xa5\x59\x09\xc5\xaf\xf5\x26\x9a\x86\xa7\xa9\x53\x15\x34\xf7\xda\x2e\x4c\x30\x3d\x8a\x31\x8a\x72\x1c\x3c\x0c\x95\x95\x68\x09\x53\x2f\xcf\x0e\x24\x49\xa6\xb5\x25\xb1\x6a\xed\xf5\xaa\x0d\xe6\x57\xba\x63\x7b\x39\x1a\xaf\xd2\x55";

// Test cases 1 and 2, 7 and 8, 13 and 14, whose keys and IVs are zero: the tag of no text, and the ciphertext and the tag of a block of
// zero octets.
const OF_ZERO: [(ContentAlg, &[u8], &[u8], &[u8]); 3] = [
    (
        ContentAlg::A128Gcm,
        b"\x58\xe2\xfc\xce\xfa\x7e\x30\x61\x36\x7f\x1d\x57\xa4\xe7\x45\x5a",
        b"\x03\x88\xda\xce\x60\xb6\xa3\x92\xf3\x28\xc2\xb9\x71\xb2\xfe\x78",
        b"\xab\x6e\x47\xd4\x2c\xec\x13\xbd\xf5\x3a\x67\xb2\x12\x57\xbd\xdf",
    ),
    (
        ContentAlg::A192Gcm,
        b"\xcd\x33\xb2\x8a\xc7\x73\xf7\x4b\xa0\x0e\xd1\xf3\x12\x57\x24\x35",
        b"\x98\xe7\x24\x7c\x07\xf0\xfe\x41\x1c\x26\x7e\x43\x84\xb0\xf6\x00",
        b"\x2f\xf5\x8d\x80\x03\x39\x27\xab\x8e\xf4\xd4\x58\x75\x14\xf0\xfb",
    ),
    (
        ContentAlg::A256Gcm,
        b"\x53\x0f\x8a\xfb\xc7\x45\x36\xb9\xa9\x63\xb4\xf1\xc4\xcb\x73\x8b",
        b"\xce\xa7\x40\x3d\x4d\x60\x6b\x6e\x07\x4e\xc5\xd3\xba\xf3\x9d\x18",
        b"\xd0\xd1\xc8\xa7\x99\x99\x6b\xf0\x26\x5b\x98\xb5\xd4\x8a\xb9\x19",
    ),
];

// Test cases 3 and 4, 9 and 10, 15 and 16: the key, the ciphertext, its tag, and the tag of the first sixty octets of the text with
// additional data.
const OF_TEXT: [(ContentAlg, &[u8], &[u8; 64], &[u8], &[u8]); 3] = [
    (
        ContentAlg::A128Gcm,
        b"\xfe\xff\xe9\x92\x86\x65\x73\x1c\x6d\x6a\x8f\x94\x67\x30\x83\x08",
        b"\x42\x83\x1e\xc2\x21\x77\x74\x24\x4b\x72\x21\xb7\x84\xd0\xd4\x9c\xe3\xaa\x21\x2f\x2c\x02\xa4\xe0\x35\xc1\x7e\x23\x29\xac\xa1\x2e\x21\xd5\x14\xb2\x54\x66\x93\x1c\x7d\x8f\x6a\x5a\xac\x84\xaa\x05\x1b\xa3\x0b\x39\x6a\x0a\xac\x97\x3d\x58\xe0\x91\x47\x3f\x59\x85",
        b"\x4d\x5c\x2a\xf3\x27\xcd\x64\xa6\x2c\xf3\x5a\xbd\x2b\xa6\xfa\xb4",
        b"\x5b\xc9\x4f\xbc\x32\x21\xa5\xdb\x94\xfa\xe9\x5a\xe7\x12\x1a\x47",
    ),
    (
        ContentAlg::A192Gcm,
        b"\xfe\xff\xe9\x92\x86\x65\x73\x1c\x6d\x6a\x8f\x94\x67\x30\x83\x08\xfe\xff\xe9\x92\x86\x65\x73\x1c",
        b"\x39\x80\xca\x0b\x3c\x00\xe8\x41\xeb\x06\xfa\xc4\x87\x2a\x27\x57\x85\x9e\x1c\xea\xa6\xef\xd9\x84\x62\x85\x93\xb4\x0c\xa1\xe1\x9c\x7d\x77\x3d\x00\xc1\x44\xc5\x25\xac\x61\x9d\x18\xc8\x4a\x3f\x47\x18\xe2\x44\x8b\x2f\xe3\x24\xd9\xcc\xda\x27\x10\xac\xad\xe2\x56",
        b"\x99\x24\xa7\xc8\x58\x73\x36\xbf\xb1\x18\x02\x4d\xb8\x67\x4a\x14",
        b"\x25\x19\x49\x8e\x80\xf1\x47\x8f\x37\xba\x55\xbd\x6d\x27\x61\x8c",
    ),
    (
        ContentAlg::A256Gcm,
        b"\xfe\xff\xe9\x92\x86\x65\x73\x1c\x6d\x6a\x8f\x94\x67\x30\x83\x08\xfe\xff\xe9\x92\x86\x65\x73\x1c\x6d\x6a\x8f\x94\x67\x30\x83\x08",
        b"\x52\x2d\xc1\xf0\x99\x56\x7d\x07\xf4\x7f\x37\xa3\x2a\x84\x42\x7d\x64\x3a\x8c\xdc\xbf\xe5\xc0\xc9\x75\x98\xa2\xbd\x25\x55\xd1\xaa\x8c\xb0\x8e\x48\x59\x0d\xbb\x3d\xa7\xb0\x8b\x10\x56\x82\x88\x38\xc5\xf6\x1e\x63\x93\xba\x7a\x0a\xbc\xc9\xf6\x62\x89\x80\x15\xad",
        b"\xb0\x94\xda\xc5\xd9\x34\x71\xbd\xec\x1a\x50\x22\x70\xe3\xcc\x6c",
        b"\x76\xfc\x6e\xce\x0f\x4e\x17\x68\xcd\xdf\x88\x53\xbb\x2d\x55\x1b",
    ),
];

fn expect_of_zero(
    rt: &impl Abort,
    alloc: Global,
    alg: ContentAlg,
    none: &[u8],
    text: &[u8],
    tag: &[u8],
) -> Result<(), AllocError> {
    let cek = front(rt, &[0; 32], alg.cek_len());
    expect_both_ways(rt, alloc, alg, cek, &[0; 12], b"", b"", b"", none)?;
    expect_both_ways(rt, alloc, alg, cek, &[0; 12], b"", &[0; 16], text, tag)
}

fn expect_of_text(
    rt: &impl Abort,
    alloc: Global,
    alg: ContentAlg,
    cek: &[u8],
    text: &[u8; 64],
    whole: &[u8],
    part: &[u8],
) -> Result<(), AllocError> {
    let (plaintext, sixty) = (GCM_PLAINTEXT, &GCM_PLAINTEXT[..60]);
    expect_both_ways(rt, alloc, alg, cek, GCM_IV, b"", plaintext, text, whole)?;
    expect_both_ways(
        rt,
        alloc,
        alg,
        cek,
        GCM_IV,
        GCM_AAD,
        sixty,
        &text[..60],
        part,
    )
}

#[test]
fn gcm_test_cases_of_zero(rt: HostRuntime) -> Result<(), Fail> {
    for (alg, none, text, tag) in OF_ZERO {
        expect_of_zero(&rt, rt.alloc(), alg, none, text, tag)?;
    }
    Ok(())
}

#[test]
fn gcm_test_cases_of_a_text(rt: HostRuntime) -> Result<(), Fail> {
    for (alg, cek, text, whole, part) in OF_TEXT {
        expect_of_text(&rt, rt.alloc(), alg, cek, text, whole, part)?;
    }
    Ok(())
}
