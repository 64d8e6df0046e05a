//! The key expansion (FIPS 197 section 5.2), for a key of `nk` words of four octets. A round key is four words. The round keys are one
//! list, which is made word by word.
ghost use Rattle.std.specs.Prelude.{◌≡◌, ℕ, ◌+◌, ◌-◌, ◌*◌, ◌/◌, ◌%◌, ◌≤◌, ◌<◌, bit_xor, length, slice_index};
ghost use Rattle.aes.specs.KeyExpansion.{power_of_x, transformed, next_word, key_expansion};
ghost use Rattle.aes.specs.Octet.{octet_product};
ghost use Rattle.aes.specs.State.{word};

use crate::state::sub_word;
use std::simd::u8x4;

/// The product by x in the field of octets (section 4.2).
fn multiply_by_x(a: u8) -> u8
    ensures { result ≡ octet_product 2 a }
{
    let shifted = (a & 0x7f) << 1;
    if a & 0x80 == 0 {
        shifted
    } else {
        shifted ^ 0x1b
    }
}

/// The one octet of round constant j that is not zero: x^(j - 1).
fn round_constant(j: usize) -> u8
    requires { 0 < j }
    ensures { result ≡ power_of_x (j - 1) }
{
    let mut power = 1;
    for _i in 1..j {
        power = multiply_by_x(power);
    }
    power
}

/// The word at place i.
fn word(round_keys: &[u8], i: usize) -> u8x4
    requires { 4 * i + 4 ≤ length round_keys.now }
    ensures { (r : ℕ) → r < 4 → slice_index result r ≡ word round_keys.now i r }
{
    u8x4::from_slice(&round_keys[4 * i..])
}

/// The sum of two words.
fn sum(a: u8x4, b: u8x4) -> u8x4
    ensures { (r : ℕ) → r < 4 → slice_index result r ≡ bit_xor (slice_index a r) (slice_index b r) }
{
    a ^ b
}

/// The word turned by one octet.
fn rotated(word: u8x4) -> u8x4
    ensures { (r : ℕ) → r < 4 → slice_index result r ≡ slice_index word ((r + 1) % 4) }
{
    word.swizzle([1, 2, 3, 0])
}

/// The word before place i, transformed for place i.
fn transform(nk: usize, i: usize, word: u8x4) -> u8x4
    requires size { 0 < nk }
    requires place { nk ≤ i }
    ensures { (r : ℕ) → r < 4 → slice_index result r ≡ transformed nk i (slice_index word) r }
{
    if i % nk == 0 {
        sum(
            sub_word(rotated(word)),
            u8x4::from_array([round_constant(i / nk), 0, 0, 0]),
        )
    } else if nk > 6 && i % nk == 4 {
        sub_word(word)
    } else {
        word
    }
}

/// The word at place i, from the words before it.
fn next_word(nk: usize, round_keys: &[u8], i: usize) -> u8x4
    requires size { 0 < nk }
    requires place { nk ≤ i }
    requires before { 4 * i ≤ length round_keys.now }
    ensures { (r : ℕ) → r < 4 → slice_index result r ≡ next_word nk round_keys.now i r }
{
    let last = transform(nk, i, word(round_keys, i - 1));
    sum(word(round_keys, i - nk), last)
}

/// Writes all round keys: the words of the key, and those that follow.
pub(crate) fn key_expansion(nk: usize, key: &[u8], round_keys: &mut [u8])
    requires size { (0 < nk) × (nk ≤ 8) }
    requires key { length key.now ≡ 4 * nk }
    requires room { length round_keys.old ≡ 16 * (nk + 7) }
    ensures { round_keys.new ≡ key_expansion nk key.now }
{
    round_keys[..4 * nk].copy_from_slice(key);
    for i in nk..4 * (nk + 7) {
        let word = next_word(nk, round_keys, i);
        round_keys[4 * i..4 * i + 4].copy_from_slice(&word.to_array());
    }
}
