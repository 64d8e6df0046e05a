//! The steps of a round (FIPS 197 section 5.1) on each block of a vector. Between the rounds the octets are kept in the basis of `lookups`.
ghost use Rattle.std.specs.Prelude.{◌≡◌, ℕ, ◌+◌, ◌*◌, ◌%◌, ◌<◌, ◌≤◌, bit_xor, length, slice_index};
ghost use Rattle.aes.specs.SBox.{s_box};
ghost use Rattle.aes.specs.State.{at, square, word, sub_bytes, shift_rows, mix_columns, add_round_key};
ghost use Rattle.aes.specs.Code.Blocks.{block};
ghost use Rattle.aes.specs.Code.Kept.{plain};

use crate::lanes::Lanes;
use crate::lookups::{from_halves, from_inverse};
use crate::tables::{CONSTANT, KEPT, LAST, SUB, TWICE};
use std::simd::{Simd, u8x4, u8x16};

/// Row r turned to the left by r (section 5.1.2).
#[inline(always)]
fn shifted<const N: usize>(x: Simd<u8, N>) -> Simd<u8, N>
where
    Simd<u8, N>: Lanes<N>,
    ensures { (i : ℕ) → 16 * i + 16 ≤ N → block result i ≡ shift_rows (block x.entry i) }
{
    Simd::<u8, N>::reordered(x, [0, 5, 10, 15, 4, 9, 14, 3, 8, 13, 2, 7, 12, 1, 6, 11])
}

/// `shifted`, and then each column turned up by 1.
#[inline(always)]
fn shifted_up_1<const N: usize>(x: Simd<u8, N>) -> Simd<u8, N>
where
    Simd<u8, N>: Lanes<N>,
    ensures { (i : ℕ) → 16 * i + 16 ≤ N → block result i
        ≡ square (λ r c. at (block x.entry i) ((r + 1) % 4) ((c + (r + 1) % 4) % 4)) }
{
    Simd::<u8, N>::reordered(x, [5, 10, 15, 0, 9, 14, 3, 4, 13, 2, 7, 8, 1, 6, 11, 12])
}

/// `shifted`, and then each column turned up by 3.
#[inline(always)]
fn shifted_up_3<const N: usize>(x: Simd<u8, N>) -> Simd<u8, N>
where
    Simd<u8, N>: Lanes<N>,
    ensures { (i : ℕ) → 16 * i + 16 ≤ N → block result i
        ≡ square (λ r c. at (block x.entry i) ((r + 3) % 4) ((c + (r + 3) % 4) % 4)) }
{
    Simd::<u8, N>::reordered(x, [15, 0, 5, 10, 3, 4, 9, 14, 7, 8, 13, 2, 11, 12, 1, 6])
}

/// Each column turned up by 1.
#[inline(always)]
pub(crate) fn up_1<const N: usize>(x: Simd<u8, N>) -> Simd<u8, N>
where
    Simd<u8, N>: Lanes<N>,
    ensures { (i : ℕ) → 16 * i + 16 ≤ N → block result i ≡ square (λ r c. at (block x.entry i) ((r + 1) % 4) c) }
{
    Simd::<u8, N>::reordered(x, [1, 2, 3, 0, 5, 6, 7, 4, 9, 10, 11, 8, 13, 14, 15, 12])
}

/// The sums of two blocks each.
#[inline(always)]
pub(crate) fn sum<const N: usize>(a: Simd<u8, N>, b: Simd<u8, N>) -> Simd<u8, N>
    ensures { (i : ℕ) → 16 * i + 16 ≤ N → block result i
        ≡ square (λ r c. bit_xor (at (block a.entry i) r c) (at (block b.entry i) r c)) }
{
    a ^ b
}

/// The key words of a round.
#[inline(always)]
fn round_key(round_keys: &[u8], round: usize) -> u8x16
    requires { 16 * round + 16 ≤ length round_keys.now }
    ensures { result ≡ square (λ r c. word round_keys.now (4 * round + c) r) }
{
    u8x16::from_slice(&round_keys[16 * round..])
}

/// The sum with the key words of a round (section 5.1.4), in the standard basis.
#[inline(always)]
pub(crate) fn add_round_key<const N: usize>(
    round_keys: &[u8],
    round: usize,
    x: Simd<u8, N>,
) -> Simd<u8, N>
where
    Simd<u8, N>: Lanes<N>,
    requires { 16 * round + 16 ≤ length round_keys.now }
    ensures { (i : ℕ) → 16 * i + 16 ≤ N → block result i ≡ add_round_key round_keys.now round (block x.entry i) }
{
    sum(x, Simd::<u8, N>::repeated(round_key(round_keys, round)))
}

/// The blocks in the basis that is kept.
#[inline(always)]
pub(crate) fn keep<const N: usize>(x: Simd<u8, N>) -> Simd<u8, N>
where
    Simd<u8, N>: Lanes<N>,
    ensures { (i : ℕ) → 16 * i + 16 ≤ N → plain (block result i) ≡ block x.entry i }
{
    from_halves(KEPT, x)
}

/// The sum with the key words of a round (section 5.1.4).
#[inline(always)]
pub(crate) fn add_kept_round_key<const N: usize>(
    round_keys: &[u8],
    round: usize,
    x: Simd<u8, N>,
) -> Simd<u8, N>
where
    Simd<u8, N>: Lanes<N>,
    requires { 16 * round + 16 ≤ length round_keys.now }
    ensures { (i : ℕ) → 16 * i + 16 ≤ N → plain (block result i)
        ≡ add_round_key round_keys.now round (plain (block x.entry i)) }
{
    sum(
        x,
        Simd::<u8, N>::repeated(keep(round_key(round_keys, round))),
    )
}

/// The S-box on each octet, row r turned to the left by r, and each column multiplied by the matrix of the cipher (sections 5.1.1 to
/// 5.1.3). The sum of three constants of the S-box, and of two that are doubled, is one.
#[inline(always)]
pub(crate) fn sub_shift_mix<const N: usize>(x: Simd<u8, N>) -> Simd<u8, N>
where
    Simd<u8, N>: Lanes<N>,
    ensures { (i : ℕ) → 16 * i + 16 ≤ N → plain (block result i)
        ≡ mix_columns (shift_rows (sub_bytes (plain (block x.entry i)))) }
{
    let once = from_inverse(SUB, x);
    let pair = sum(shifted(from_inverse(TWICE, x)), shifted_up_1(once));
    sum(
        up_1(pair),
        sum(pair, shifted_up_3(once) ^ Simd::splat(CONSTANT)),
    )
}

/// The S-box on each octet (section 5.1.1), in the standard basis again.
#[inline(always)]
fn sub<const N: usize>(x: Simd<u8, N>) -> Simd<u8, N>
where
    Simd<u8, N>: Lanes<N>,
    ensures { (i : ℕ) → 16 * i + 16 ≤ N → block result i ≡ sub_bytes (plain (block x.entry i)) }
{
    from_inverse(LAST, x) ^ Simd::splat(0x63)
}

/// `sub`, and row r turned to the left by r (sections 5.1.1 and 5.1.2).
#[inline(always)]
pub(crate) fn sub_shift<const N: usize>(x: Simd<u8, N>) -> Simd<u8, N>
where
    Simd<u8, N>: Lanes<N>,
    ensures { (i : ℕ) → 16 * i + 16 ≤ N → block result i ≡ shift_rows (sub_bytes (plain (block x.entry i))) }
{
    shifted(sub(x))
}

/// The S-box on the octets of a word (section 5.2).
pub(crate) fn sub_word(word: u8x4) -> u8x4
    ensures { (r : ℕ) → r < 4 → slice_index result r ≡ s_box (slice_index word r) }
{
    let [a, b, c, d] = word.to_array();
    let x = u8x16::from_array([a, b, c, d, 0, 0, 0, 0, 0, 0, 0, 0, 0, 0, 0, 0]);
    let y = sub(keep(x)).to_array();
    u8x4::from_array([y[0], y[1], y[2], y[3]])
}
