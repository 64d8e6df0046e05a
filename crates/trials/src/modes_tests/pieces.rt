//! CBC, counter mode and GHASH: a toy cipher, the vectors of SP 800-38A, products, and texts that are cut.
ghost use Rattle.std.specs.Prelude.{◌≡◌, ◌<◌};
ghost use Rattle.aes.specs.Block.{IsCipher};
ghost use Rattle.trials.specs.Toy.{turned};

use crate::expected::{expect_octets, expect_same};
use aes::{Aes128, Aes192, Aes256, Block};
use modes::{Cbc, Ctr32, Ghash, cbc_open};
use std::alloc::{AllocError, Global};
use std::process::Abort;
use std::test::Fail;

// An insecure cipher: octet i of a block's text is octet i + 1 modulo 16 of the block, xor 1.
#[derive(Drop)]
pub(crate) struct Toy {
    ghost is_cipher: { IsCipher (turned 1) (turned 15) },
}

impl Toy {
    pub(crate) fn new() -> Toy {
        Toy {}
    }
}

impl Block for Toy {
    ghost encrypted = { λ k. turned 1 };

    ghost decrypted = { λ k. turned 15 };

    fn encrypt(&self, b: &[u8; 16]) -> [u8; 16] {
        turn(b, 1)
    }

    fn decrypt(&self, b: &[u8; 16]) -> [u8; 16] {
        turn(b, 15)
    }

    ghost is_cipher = { λ k. k.is_cipher };
}

// Each octet is the one n places further on, xor 1.
fn turn(b: &[u8; 16], n: usize) -> [u8; 16]
    requires { n < 16 }
    ensures { result ≡ turned n b.now }
{
    let mut out = [0; 16];
    for i in 0..16_usize {
        out[i] = b[(i + n) % 16] ^ 1;
    }
    out
}

const ZERO: [u8; 16] = [0; 16];

const IV: [u8; 16] = [0, 1, 2, 3, 4, 5, 6, 7, 8, 9, 10, 11, 12, 13, 14, 15];

const TEXT: [u8; 64] = [
    0x6b, 0xc1, 0xbe, 0xe2, 0x2e, 0x40, 0x9f, 0x96, 0xe9, 0x3d, 0x7e, 0x11, 0x73, 0x93, 0x17, 0x2a,
    0xae, 0x2d, 0x8a, 0x57, 0x1e, 0x03, 0xac, 0x9c, 0x9e, 0xb7, 0x6f, 0xac, 0x45, 0xaf, 0x8e, 0x51,
    0x30, 0xc8, 0x1c, 0x46, 0xa3, 0x5c, 0xe4, 0x11, 0xe5, 0xfb, 0xc1, 0x19, 0x1a, 0x0a, 0x52, 0xef,
    0xf6, 0x9f, 0x24, 0x45, 0xdf, 0x4f, 0x9b, 0x17, 0xad, 0x2b, 0x41, 0x7b, 0xe6, 0x6c, 0x37, 0x10,
];

// The CBC ciphertext of the text in pieces of `step` octets and an empty one.
pub(crate) fn cbc<B: Block>(
    rt: &impl Abort,
    alloc: Global,
    cipher: B,
    iv: &[u8; 16],
    text: &[u8],
    step: usize,
) -> Result<Vec<u8>, AllocError> {
    assert!(rt; step > 0);
    let mut all = Vec::new(alloc);
    let mut out = [0; 4112];
    let mut cbc = Cbc::start(cipher, iv);
    for piece in text.chunks(step) {
        assert!(rt; piece.len() <= 4096);
        let n = cbc.feed(piece, &mut out);
        all.extend_from_slice(&out[..n])?;
    }
    let n = cbc.feed(b"", &mut out);
    all.extend_from_slice(&out[..n])?;
    let mut last = [0; 16];
    cbc.finish(&mut last);
    all.extend_from_slice(&last)?;
    Ok(all)
}

// The text in counter mode, in pieces of `step` octets and an empty one.
pub(crate) fn ctr<B: Block>(
    rt: &impl Abort,
    alloc: Global,
    cipher: B,
    first: &[u8; 16],
    text: &[u8],
    step: usize,
) -> Result<Vec<u8>, AllocError> {
    assert!(rt; step > 0);
    let mut all = Vec::new(alloc);
    let mut out = [0; 4112];
    let mut ctr = Ctr32::start(cipher, first);
    for piece in text.chunks(step) {
        assert!(rt; piece.len() <= 4096);
        let n = ctr.feed(piece, &mut out);
        all.extend_from_slice(&out[..n])?;
    }
    let n = ctr.feed(b"", &mut out);
    all.extend_from_slice(&out[..n])?;
    ctr.finish();
    Ok(all)
}

// The hash of the text in pieces of `step` octets.
pub(crate) fn ghash(rt: &impl Abort, h: &[u8; 16], text: &[u8], step: usize) -> [u8; 16] {
    assert!(rt; step > 0);
    let mut ghash = Ghash::start(h);
    for piece in text.chunks(step) {
        ghash.feed(piece);
    }
    ghash.finish()
}

#[test]
fn a_toy_cipher_encrypts(rt: HostRuntime) -> Result<(), Fail> {
    let text = cbc(&rt, rt.alloc(), Toy::new(), &ZERO, b"", 16)?;
    expect_octets(&rt, &text, &[0x11; 16]);
    let text = cbc(&rt, rt.alloc(), Toy::new(), &ZERO, &ZERO, 16)?;
    expect_octets(
        &rt,
        &text,
        b"\x01\x01\x01\x01\x01\x01\x01\x01\x01\x01\x01\x01\x01\x01\x01\x01\x10\x10\x10\x10\x10\x10\x10\x10\x10\x10\x10\x10\x10\x10\x10\x10",
    );
    Ok(())
}

// The result of opening, and the front of the buffer after it.
fn expect_opening(rt: &impl Abort, text: &[u8; 16], answer: Option<usize>, front: &[u8]) {
    let mut place = *text;
    let opened = cbc_open(&Toy::new(), &ZERO, &mut place);
    expect_same(rt, opened, answer, "opening");
    assert!(rt; place.starts_with(front));
}

#[test]
fn a_toy_cipher_opens_what_is_padded(rt: HostRuntime) {
    expect_opening(&rt, &[0x11; 16], Some(0), b"");
    expect_opening(&rt, &ZERO, Some(15), &[1; 15]);
    expect_opening(&rt, &[1; 16], None, &[1; 16]);
    let mut other = [2; 16];
    other[14] = 3;
    expect_opening(&rt, &other, None, &other);
}

#[test]
fn a_part_of_a_block_is_no_ciphertext(rt: HostRuntime) {
    let mut buf = [0xee; 17];
    let opened = cbc_open(&Toy::new(), &ZERO, &mut buf);
    expect_same(&rt, opened, None, "17 octets");
    expect_octets(&rt, &buf, &[0xee; 17]);
    let opened = cbc_open(&Toy::new(), &ZERO, &mut []);
    expect_same(&rt, opened, None, "no octets");
}

// The text of SP 800-38A encrypts to these octets and a block of padding, which open to it.
fn expect_both_ways<B: Block>(
    rt: &impl Abort,
    alloc: Global,
    sealing: B,
    opening: &B,
    octets: &[u8; 64],
) -> Result<(), AllocError> {
    let mut text = cbc(rt, alloc, sealing, &IV, &TEXT, 64)?;
    expect_same(rt, text.len(), 80, "the length");
    assert!(rt; text.starts_with(octets));
    expect_same(rt, cbc_open(opening, &IV, &mut text), Some(64), "opening");
    assert!(rt; text.starts_with(&TEXT));
    Ok(())
}

#[test]
fn sp800_38a_appendix_f2(rt: HostRuntime) -> Result<(), Fail> {
    let key = [
        0x2b, 0x7e, 0x15, 0x16, 0x28, 0xae, 0xd2, 0xa6, 0xab, 0xf7, 0x15, 0x88, 0x09, 0xcf, 0x4f,
        0x3c,
    ];
    let text = [
        0x76, 0x49, 0xab, 0xac, 0x81, 0x19, 0xb2, 0x46, 0xce, 0xe9, 0x8e, 0x9b, 0x12, 0xe9, 0x19,
        0x7d, 0x50, 0x86, 0xcb, 0x9b, 0x50, 0x72, 0x19, 0xee, 0x95, 0xdb, 0x11, 0x3a, 0x91, 0x76,
        0x78, 0xb2, 0x73, 0xbe, 0xd6, 0xb8, 0xe3, 0xc1, 0x74, 0x3b, 0x71, 0x16, 0xe6, 0x9e, 0x22,
        0x22, 0x95, 0x16, 0x3f, 0xf1, 0xca, 0xa1, 0x68, 0x1f, 0xac, 0x09, 0x12, 0x0e, 0xca, 0x30,
        0x75, 0x86, 0xe1, 0xa7,
    ];
    let alloc = rt.alloc();
    expect_both_ways(&rt, alloc, Aes128::new(&key), &Aes128::new(&key), &text)?;
    let key = [
        0x8e, 0x73, 0xb0, 0xf7, 0xda, 0x0e, 0x64, 0x52, 0xc8, 0x10, 0xf3, 0x2b, 0x80, 0x90, 0x79,
        0xe5, 0x62, 0xf8, 0xea, 0xd2, 0x52, 0x2c, 0x6b, 0x7b,
    ];
    let text = [
        0x4f, 0x02, 0x1d, 0xb2, 0x43, 0xbc, 0x63, 0x3d, 0x71, 0x78, 0x18, 0x3a, 0x9f, 0xa0, 0x71,
        0xe8, 0xb4, 0xd9, 0xad, 0xa9, 0xad, 0x7d, 0xed, 0xf4, 0xe5, 0xe7, 0x38, 0x76, 0x3f, 0x69,
        0x14, 0x5a, 0x57, 0x1b, 0x24, 0x20, 0x12, 0xfb, 0x7a, 0xe0, 0x7f, 0xa9, 0xba, 0xac, 0x3d,
        0xf1, 0x02, 0xe0, 0x08, 0xb0, 0xe2, 0x79, 0x88, 0x59, 0x88, 0x81, 0xd9, 0x20, 0xa9, 0xe6,
        0x4f, 0x56, 0x15, 0xcd,
    ];
    expect_both_ways(&rt, alloc, Aes192::new(&key), &Aes192::new(&key), &text)?;
    let key = [
        0x60, 0x3d, 0xeb, 0x10, 0x15, 0xca, 0x71, 0xbe, 0x2b, 0x73, 0xae, 0xf0, 0x85, 0x7d, 0x77,
        0x81, 0x1f, 0x35, 0x2c, 0x07, 0x3b, 0x61, 0x08, 0xd7, 0x2d, 0x98, 0x10, 0xa3, 0x09, 0x14,
        0xdf, 0xf4,
    ];
    let text = [
        0xf5, 0x8c, 0x4c, 0x04, 0xd6, 0xe5, 0xf1, 0xba, 0x77, 0x9e, 0xab, 0xfb, 0x5f, 0x7b, 0xfb,
        0xd6, 0x9c, 0xfc, 0x4e, 0x96, 0x7e, 0xdb, 0x80, 0x8d, 0x67, 0x9f, 0x77, 0x7b, 0xc6, 0x70,
        0x2c, 0x7d, 0x39, 0xf2, 0x33, 0x69, 0xa9, 0xd9, 0xba, 0xcf, 0xa5, 0x30, 0xe2, 0x63, 0x04,
        0x23, 0x14, 0x61, 0xb2, 0xeb, 0x05, 0xe2, 0xc3, 0x9b, 0xe9, 0xfc, 0xda, 0x6c, 0x19, 0x07,
        0x8c, 0x6a, 0x9d, 0x1b,
    ];
    expect_both_ways(&rt, alloc, Aes256::new(&key), &Aes256::new(&key), &text)?;
    Ok(())
}

#[test]
fn padding_fills_a_block_or_is_one(rt: HostRuntime) -> Result<(), Fail> {
    for (length, expected) in [(0, 16), (15, 16), (16, 32), (17, 32)] {
        let text = cbc(&rt, rt.alloc(), Toy::new(), &IV, &TEXT[..length], 64)?;
        expect_same(&rt, text.len(), expected, length);
    }
    Ok(())
}

#[test]
fn a_cut_changes_nothing(rt: HostRuntime) -> Result<(), Fail> {
    let whole = cbc(&rt, rt.alloc(), Toy::new(), &IV, &TEXT[..50], 50)?;
    expect_same(&rt, whole.len(), 64, "the length");
    for step in 1..50_usize {
        let text = cbc(&rt, rt.alloc(), Toy::new(), &IV, &TEXT[..50], step)?;
        expect_same(&rt, text.as_slice(), whole.as_slice(), step);
    }
    Ok(())
}

#[test]
fn sums_of_blocks(rt: HostRuntime) {
    let top = 1_u128 << 120;
    let h = 0x66e94bd4ef8a2c3b884cfa59ca342b2e;
    let x = 0x0388dace60b6a392f328c2b971b2fe78;
    let y = 0x5e2ec746917062882c85b0685353deb7;
    for (h, first, second, expected) in [
        (0x80 * top, Some(x), y, x ^ y),
        (0x40 * top, None, 0x80 * top, 0x40 * top),
        (0x40 * top, None, 1, 0xe1 * top),
        (h, Some(x), 0x80, 0xf38cbb1ad69223dcc3457ae5b6b0f885),
    ] {
        let mut ghash = Ghash::start(&h.to_be_bytes());
        if let Some(block) = first {
            ghash.feed(&block.to_be_bytes());
        }
        ghash.feed(&second.to_be_bytes());
        expect_same(&rt, u128::from_be_bytes(ghash.finish()), expected, second);
    }
}

#[test]
fn a_cut_changes_no_sum(rt: HostRuntime) {
    let mut filled = [0; 64];
    filled[..50].copy_from_slice(&TEXT[..50]);
    let whole = ghash(&rt, &IV, &filled, 64);
    for step in 1..51_usize {
        expect_same(&rt, ghash(&rt, &IV, &TEXT[..50], step), whole, step);
    }
    let mut padded = Ghash::start(&IV);
    padded.feed(&TEXT[..50]);
    padded.pad();
    padded.feed(b"");
    expect_same(&rt, padded.finish(), whole, "the padding");
}

#[test]
fn the_counter_is_of_four_octets(rt: HostRuntime) -> Result<(), Fail> {
    let first = [0, 1, 2, 3, 4, 5, 6, 7, 8, 9, 10, 11, 0xff, 0xff, 0xff, 0xff];
    let text = ctr(&rt, rt.alloc(), Toy::new(), &first, &[0; 32], 32)?;
    let expected = [
        0, 3, 2, 5, 4, 7, 6, 9, 8, 11, 10, 0xfe, 0xfe, 0xfe, 0xfe, 1, 0, 3, 2, 5, 4, 7, 6, 9, 8,
        11, 10, 1, 1, 1, 1, 1,
    ];
    expect_octets(&rt, &text, &expected);
    Ok(())
}

#[test]
fn sp800_38a_appendix_f5_1(rt: HostRuntime) -> Result<(), Fail> {
    let key = [
        0x2b, 0x7e, 0x15, 0x16, 0x28, 0xae, 0xd2, 0xa6, 0xab, 0xf7, 0x15, 0x88, 0x09, 0xcf, 0x4f,
        0x3c,
    ];
    let first = [
        0xf0, 0xf1, 0xf2, 0xf3, 0xf4, 0xf5, 0xf6, 0xf7, 0xf8, 0xf9, 0xfa, 0xfb, 0xfc, 0xfd, 0xfe,
        0xff,
    ];
    let text = [
        0x87, 0x4d, 0x61, 0x91, 0xb6, 0x20, 0xe3, 0x26, 0x1b, 0xef, 0x68, 0x64, 0x99, 0x0d, 0xb6,
        0xce, 0x98, 0x06, 0xf6, 0x6b, 0x79, 0x70, 0xfd, 0xff, 0x86, 0x17, 0x18, 0x7b, 0xb9, 0xff,
        0xfd, 0xff, 0x5a, 0xe4, 0xdf, 0x3e, 0xdb, 0xd5, 0xd3, 0x5e, 0x5b, 0x4f, 0x09, 0x02, 0x0d,
        0xb0, 0x3e, 0xab, 0x1e, 0x03, 0x1d, 0xda, 0x2f, 0xbe, 0x03, 0xd1, 0x79, 0x21, 0x70, 0xa0,
        0xf3, 0x00, 0x9c, 0xee,
    ];
    for step in 1..65_usize {
        let found = ctr(&rt, rt.alloc(), Aes128::new(&key), &first, &TEXT, step)?;
        expect_same(&rt, found.as_slice(), text.as_slice(), step);
    }
    Ok(())
}

// The CBC ciphertext of 50 octets in two pieces, cut at `cut`.
fn cbc_in_two(alloc: Global, cut: usize) -> Result<Vec<u8>, AllocError>
    requires { cut < 51 }
{
    let mut all = Vec::new(alloc);
    let mut out = [0; 4112];
    let mut cbc = Cbc::start(Toy::new(), &IV);
    let n = cbc.feed(&TEXT[..cut], &mut out);
    all.extend_from_slice(&out[..n])?;
    let n = cbc.feed(&TEXT[cut..50], &mut out);
    all.extend_from_slice(&out[..n])?;
    let mut last = [0; 16];
    cbc.finish(&mut last);
    all.extend_from_slice(&last)?;
    Ok(all)
}

// These octets in counter mode, cut so.
fn ctr_in_two(alloc: Global, cut: usize) -> Result<Vec<u8>, AllocError>
    requires { cut < 51 }
{
    let mut all = Vec::new(alloc);
    let mut out = [0; 4112];
    let mut ctr = Ctr32::start(Toy::new(), &IV);
    let n = ctr.feed(&TEXT[..cut], &mut out);
    all.extend_from_slice(&out[..n])?;
    let n = ctr.feed(&TEXT[cut..50], &mut out);
    all.extend_from_slice(&out[..n])?;
    ctr.finish();
    Ok(all)
}

// Their hash, cut so.
fn ghash_in_two(cut: usize) -> [u8; 16]
    requires { cut < 51 }
{
    let mut ghash = Ghash::start(&IV);
    ghash.feed(&TEXT[..cut]);
    ghash.feed(&TEXT[cut..50]);
    ghash.finish()
}

#[test]
fn a_cut_into_two_pieces_changes_nothing(rt: HostRuntime) -> Result<(), Fail> {
    let ciphertext = cbc(&rt, rt.alloc(), Toy::new(), &IV, &TEXT[..50], 50)?;
    let counted = ctr(&rt, rt.alloc(), Toy::new(), &IV, &TEXT[..50], 50)?;
    let sum = ghash(&rt, &IV, &TEXT[..50], 50);
    for cut in 0..51_usize {
        expect_octets(&rt, &cbc_in_two(rt.alloc(), cut)?, &ciphertext);
        expect_octets(&rt, &ctr_in_two(rt.alloc(), cut)?, &counted);
        expect_same(&rt, ghash_in_two(cut), sum, cut);
    }
    Ok(())
}
