//! Key wrap: the vectors of RFC 3394, section 4, changed texts, and every length under each size of key.
ghost use Rattle.std.specs.Prelude.{◌≡◌, ◌+◌, ◌%◌, ◌≤◌, length};

use crate::expected::expect_octets;
use aes::{Aes128, Aes192, Aes256, Block};
use ciphers::{unwrap, wrap};
use std::process::Abort;

const KEK: [u8; 32] = [
    0, 1, 2, 3, 4, 5, 6, 7, 8, 9, 10, 11, 12, 13, 14, 15, 16, 17, 18, 19, 20, 21, 22, 23, 24, 25,
    26, 27, 28, 29, 30, 31,
];

const KEY_DATA: [u8; 32] = [
    0x00, 0x11, 0x22, 0x33, 0x44, 0x55, 0x66, 0x77, 0x88, 0x99, 0xaa, 0xbb, 0xcc, 0xdd, 0xee, 0xff,
    0x00, 0x01, 0x02, 0x03, 0x04, 0x05, 0x06, 0x07, 0x08, 0x09, 0x0a, 0x0b, 0x0c, 0x0d, 0x0e, 0x0f,
];

const WRAPPED: [u8; 24] = [
    0x1f, 0xa6, 0x8b, 0x0a, 0x81, 0x12, 0xb4, 0x47, 0xae, 0xf3, 0x4b, 0xd8, 0xfb, 0x5a, 0x7b, 0x82,
    0x9d, 0x3e, 0x86, 0x23, 0x71, 0xd2, 0xcf, 0xe5,
];

// The first octets of the key.
fn first<const N: usize>() -> [u8; N]
    requires { N ≤ 32 }
{
    let mut key = [0; N];
    for i in 0..N {
        key[i] = KEK[i];
    }
    key
}

// The key data wraps to the text, and the text unwraps to the key data.
fn expect_both_ways<B: Block>(rt: &impl Abort, kek: &B, key_data: &[u8], text: &[u8])
    requires parts { length key_data.now % 8 ≡ 0 }
    requires size { (16 ≤ length key_data.now) × (length key_data.now ≤ 64) }
    requires longer { length text.now ≡ length key_data.now + 8 }
{
    let mut buf = [0; 72];
    let wrapped = &mut buf[..text.len()];
    wrap(kek, key_data, wrapped);
    expect_octets(rt, wrapped, text);
    expect_unwraps(rt, kek, text, key_data);
}

// The text unwraps to the key data.
fn expect_unwraps<B: Block>(rt: &impl Abort, kek: &B, text: &[u8], key_data: &[u8])
    requires parts { length key_data.now % 8 ≡ 0 }
    requires size { (16 ≤ length key_data.now) × (length key_data.now ≤ 64) }
    requires longer { length text.now ≡ length key_data.now + 8 }
{
    let mut buf = [0; 64];
    let out = &mut buf[..key_data.len()];
    assert!(rt; unwrap(kek, text, out).is_some());
    expect_octets(rt, out, key_data);
}

// What the key data wraps to unwraps to it.
fn expect_comes_back<B: Block>(rt: &impl Abort, kek: &B, key_data: &[u8])
    requires parts { length key_data.now % 8 ≡ 0 }
    requires size { (16 ≤ length key_data.now) × (length key_data.now ≤ 64) }
{
    let mut buf = [0; 72];
    let wrapped = &mut buf[..key_data.len() + 8];
    wrap(kek, key_data, wrapped);
    expect_unwraps(rt, kek, wrapped, key_data);
}

#[test]
fn rfc3394_sections_4_1_to_4_3(rt: HostRuntime) {
    expect_both_ways(&rt, &Aes128::new(&first()), &KEY_DATA[..16], &WRAPPED);
    let text = [
        0x96, 0x77, 0x8b, 0x25, 0xae, 0x6c, 0xa4, 0x35, 0xf9, 0x2b, 0x5b, 0x97, 0xc0, 0x50, 0xae,
        0xd2, 0x46, 0x8a, 0xb8, 0xa1, 0x7a, 0xd8, 0x4e, 0x5d,
    ];
    expect_both_ways(&rt, &Aes192::new(&first()), &KEY_DATA[..16], &text);
    let text = [
        0x64, 0xe8, 0xc3, 0xf9, 0xce, 0x0f, 0x5b, 0xa2, 0x63, 0xe9, 0x77, 0x79, 0x05, 0x81, 0x8a,
        0x2a, 0x93, 0xc8, 0x19, 0x1e, 0x7d, 0x6e, 0x8a, 0xe7,
    ];
    expect_both_ways(&rt, &Aes256::new(&first()), &KEY_DATA[..16], &text);
}

#[test]
fn rfc3394_sections_4_4_to_4_6(rt: HostRuntime) {
    let text = [
        0x03, 0x1d, 0x33, 0x26, 0x4e, 0x15, 0xd3, 0x32, 0x68, 0xf2, 0x4e, 0xc2, 0x60, 0x74, 0x3e,
        0xdc, 0xe1, 0xc6, 0xc7, 0xdd, 0xee, 0x72, 0x5a, 0x93, 0x6b, 0xa8, 0x14, 0x91, 0x5c, 0x67,
        0x62, 0xd2,
    ];
    expect_both_ways(&rt, &Aes192::new(&first()), &KEY_DATA[..24], &text);
    let text = [
        0xa8, 0xf9, 0xbc, 0x16, 0x12, 0xc6, 0x8b, 0x3f, 0xf6, 0xe6, 0xf4, 0xfb, 0xe3, 0x0e, 0x71,
        0xe4, 0x76, 0x9c, 0x8b, 0x80, 0xa3, 0x2c, 0xb8, 0x95, 0x8c, 0xd5, 0xd1, 0x7d, 0x6b, 0x25,
        0x4d, 0xa1,
    ];
    expect_both_ways(&rt, &Aes256::new(&first()), &KEY_DATA[..24], &text);
    let text = [
        0x28, 0xc9, 0xf4, 0x04, 0xc4, 0xb8, 0x10, 0xf4, 0xcb, 0xcc, 0xb3, 0x5c, 0xfb, 0x87, 0xf8,
        0x26, 0x3f, 0x57, 0x86, 0xe2, 0xd8, 0x0e, 0xd3, 0x26, 0xcb, 0xc7, 0xf0, 0xe7, 0x1a, 0x99,
        0xf4, 0x3b, 0xfb, 0x98, 0x8b, 0x9b, 0x7a, 0x02, 0xdd, 0x21,
    ];
    expect_both_ways(&rt, &Aes256::new(&first()), &KEY_DATA, &text);
}

// The text unwraps to nothing, and the place stays.
fn expect_nothing<B: Block>(rt: &impl Abort, kek: &B, text: &[u8; 24]) {
    let mut out = [0xee; 16];
    assert!(rt; unwrap(kek, text, &mut out).is_none());
    expect_octets(rt, &out, &[0xee; 16]);
}

#[test]
fn no_changed_bit_unwraps(rt: HostRuntime) {
    let kek = Aes128::new(&first());
    for bit in 0..192_usize {
        let mut text = WRAPPED;
        text[bit / 8] ^= 1 << (bit % 8);
        expect_nothing(&rt, &kek, &text);
    }
}

// Key data of 16 to 64 octets comes back.
fn expect_round_trips<B: Block>(rt: &impl Abort, kek: &B) {
    let mut key_data = [0; 64];
    for i in 0..64_u8 {
        key_data[i as usize] = 255 - i;
    }
    for parts in 2..9_usize {
        expect_comes_back(rt, kek, &key_data[..8 * parts]);
    }
}

#[test]
fn every_length_comes_back(rt: HostRuntime) {
    expect_round_trips(&rt, &Aes128::new(&first()));
    expect_round_trips(&rt, &Aes192::new(&first()));
    expect_round_trips(&rt, &Aes256::new(&first()));
}
