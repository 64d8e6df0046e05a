//! The S-box, its inverse and products, on all octets of a vector at once: look-ups of half octets in registers, and sums. No address and no
//! branch depends on an octet where a register is looked up in by one instruction: on x86-64-v2 and later (`pshufb`) and on ARM64 (`tbl`). A
//! program for an older x86-64 is slow, and loads from addresses that depend on the key.
//!
//! A basis says which sums of elements of the field the eight bits of an octet stand for. FIPS 197 takes the powers of x. Between the rounds
//! the code keeps the octets in another basis, in which their halves are coordinates over the subfield of sixteen elements. All tables follow
//! from the field and this choice, and `scripts/aes-tables` computes them.
//!
//! An octet is i + k z', where i and k are in the subfield, and z has the conjugate z' = z + 1 and the norm n = z z'. It is kept as i in the
//! upper half and k in the lower half, and j is i + k. Its norm is N = i j + n k^2. The inverses of p = j + 1/(1/i + 1/(n k)) and
//! q = i + 1/(1/j + 1/(n k)) are (n k + i)/N and (n k + j)/N. So every function that is linear in 1/x is a function of p plus one of q, and
//! takes two look-ups, in any basis. The look-up of 1/0 gives 128, which stays at least 128 when something is added, and a look-up there
//! gives 0 (M. Hamburg, Accelerating AES with vector permute instructions).
ghost use Rattle.std.specs.Prelude.{◌≡◌, map};
ghost use Rattle.aes.specs.Code.LookUps.{low_of, high_of, sum_of, with_i_of, with_j_of, p_of, q_of, from_halves, from_inverse};

use crate::lanes::Lanes;
use crate::tables::{INVERSE, Pair, QUOTIENT};
use std::simd::Simd;

/// The lower half of each octet: k.
#[inline(always)]
fn low<const N: usize>(x: Simd<u8, N>) -> Simd<u8, N>
    ensures { result ≡ map low_of x.entry }
{
    x & Simd::splat(15)
}

/// The upper half of each octet: i.
#[inline(always)]
fn high<const N: usize>(x: Simd<u8, N>) -> Simd<u8, N>
    ensures { result ≡ map high_of x.entry }
{
    x >> Simd::splat(4)
}

/// The sum of both halves: j.
#[inline(always)]
fn sum<const N: usize>(x: Simd<u8, N>) -> Simd<u8, N>
    ensures { result ≡ map sum_of x.entry }
{
    high(x) ^ low(x)
}

/// 1/i + 1/(n k).
#[inline(always)]
fn with_i<const N: usize>(x: Simd<u8, N>) -> Simd<u8, N>
where
    Simd<u8, N>: Lanes<N>,
    ensures { result ≡ map with_i_of x.entry }
{
    Simd::<u8, N>::look_up(QUOTIENT, low(x)) ^ Simd::<u8, N>::look_up(INVERSE, high(x))
}

/// 1/j + 1/(n k).
#[inline(always)]
fn with_j<const N: usize>(x: Simd<u8, N>) -> Simd<u8, N>
where
    Simd<u8, N>: Lanes<N>,
    ensures { result ≡ map with_j_of x.entry }
{
    Simd::<u8, N>::look_up(QUOTIENT, low(x)) ^ Simd::<u8, N>::look_up(INVERSE, sum(x))
}

/// p: j + 1/(1/i + 1/(n k)).
#[inline(always)]
fn p<const N: usize>(x: Simd<u8, N>) -> Simd<u8, N>
where
    Simd<u8, N>: Lanes<N>,
    ensures { result ≡ map p_of x.entry }
{
    Simd::<u8, N>::look_up(INVERSE, with_i(x)) ^ sum(x)
}

/// q: i + 1/(1/j + 1/(n k)).
#[inline(always)]
fn q<const N: usize>(x: Simd<u8, N>) -> Simd<u8, N>
where
    Simd<u8, N>: Lanes<N>,
    ensures { result ≡ map q_of x.entry }
{
    Simd::<u8, N>::look_up(INVERSE, with_j(x)) ^ high(x)
}

/// A linear function of each octet, but for a constant.
#[inline(always)]
pub(crate) fn from_halves<const N: usize>(tables: Pair, x: Simd<u8, N>) -> Simd<u8, N>
where
    Simd<u8, N>: Lanes<N>,
    ensures { result ≡ map (from_halves tables) x.entry }
{
    Simd::<u8, N>::look_up(tables[0], low(x)) ^ Simd::<u8, N>::look_up(tables[1], high(x))
}

/// A linear function of the inverse of each octet, where the octet is kept.
#[inline(always)]
pub(crate) fn from_inverse<const N: usize>(tables: Pair, x: Simd<u8, N>) -> Simd<u8, N>
where
    Simd<u8, N>: Lanes<N>,
    ensures { result ≡ map (from_inverse tables) x.entry }
{
    Simd::<u8, N>::look_up(tables[0], p(x)) ^ Simd::<u8, N>::look_up(tables[1], q(x))
}
