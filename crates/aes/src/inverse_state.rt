//! The inverse steps of a round (FIPS 197 section 5.3). Between the rounds the S-box's sum of bits is already undone, and the octets are kept
//! in the basis of `lookups`.
ghost use Rattle.std.specs.Prelude.{◌≡◌, ℕ, ◌+◌, ◌*◌, ◌%◌, ◌≤◌};
ghost use Rattle.aes.specs.InverseCipher.{inverse_sub_bytes, inverse_shift_rows, inverse_mix_columns};
ghost use Rattle.aes.specs.State.{at, square};
ghost use Rattle.aes.specs.Code.Blocks.{block};
ghost use Rattle.aes.specs.Code.Kept.{summed};

use crate::lanes::Lanes;
use crate::lookups::{from_halves, from_inverse};
use crate::state::{sum, up_1};
use crate::tables::{RECIPROCAL, TIMES_9, TIMES_11, TIMES_13, TIMES_14, UNDONE};
use std::simd::Simd;

/// Each column turned up by 2.
#[inline(always)]
fn up_2<const N: usize>(x: Simd<u8, N>) -> Simd<u8, N>
where
    Simd<u8, N>: Lanes<N>,
    ensures { (i : ℕ) → 16 * i + 16 ≤ N → block result i ≡ square (λ r c. at (block x.entry i) ((r + 2) % 4) c) }
{
    Simd::<u8, N>::reordered(x, [2, 3, 0, 1, 6, 7, 4, 5, 10, 11, 8, 9, 14, 15, 12, 13])
}

/// Each column turned up by 3.
#[inline(always)]
fn up_3<const N: usize>(x: Simd<u8, N>) -> Simd<u8, N>
where
    Simd<u8, N>: Lanes<N>,
    ensures { (i : ℕ) → 16 * i + 16 ≤ N → block result i ≡ square (λ r c. at (block x.entry i) ((r + 3) % 4) c) }
{
    Simd::<u8, N>::reordered(x, [3, 0, 1, 2, 7, 4, 5, 6, 11, 8, 9, 10, 15, 12, 13, 14])
}

/// Row r turned to the right by r (section 5.3.1).
#[inline(always)]
fn shifted_back<const N: usize>(x: Simd<u8, N>) -> Simd<u8, N>
where
    Simd<u8, N>: Lanes<N>,
    ensures { (i : ℕ) → 16 * i + 16 ≤ N → block result i ≡ inverse_shift_rows (block x.entry i) }
{
    Simd::<u8, N>::reordered(x, [0, 13, 10, 7, 4, 1, 14, 11, 8, 5, 2, 15, 12, 9, 6, 3])
}

/// The blocks with the S-box's sum of bits undone, in the basis that is kept.
#[inline(always)]
pub(crate) fn keep_undone<const N: usize>(x: Simd<u8, N>) -> Simd<u8, N>
where
    Simd<u8, N>: Lanes<N>,
    ensures { (i : ℕ) → 16 * i + 16 ≤ N → summed (block result i) ≡ block x.entry i }
{
    from_halves(UNDONE, x)
}

/// Row r turned to the right by r, and the inverse of the S-box on each octet (sections 5.3.1 and 5.3.2), in the standard basis.
#[inline(always)]
pub(crate) fn inverse_shift_sub<const N: usize>(x: Simd<u8, N>) -> Simd<u8, N>
where
    Simd<u8, N>: Lanes<N>,
    ensures { (i : ℕ) → 16 * i + 16 ≤ N → block result i
        ≡ inverse_sub_bytes (inverse_shift_rows (summed (block x.entry i))) }
{
    from_inverse(RECIPROCAL, shifted_back(x))
}

/// Each column multiplied by the inverse matrix (section 5.3.3), from the standard basis.
#[inline(always)]
pub(crate) fn inverse_mix<const N: usize>(x: Simd<u8, N>) -> Simd<u8, N>
where
    Simd<u8, N>: Lanes<N>,
    ensures { (i : ℕ) → 16 * i + 16 ≤ N → summed (block result i) ≡ inverse_mix_columns (block x.entry i) }
{
    sum(
        sum(from_halves(TIMES_14, x), up_1(from_halves(TIMES_11, x))),
        sum(
            up_2(from_halves(TIMES_13, x)),
            up_3(from_halves(TIMES_9, x)),
        ),
    )
}
