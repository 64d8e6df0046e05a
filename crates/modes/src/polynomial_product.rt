//! Products of polynomials over two elements (SP 800-38D section 6.3), by products of numbers. There is no table, and no address and no
//! branch depends on a coefficient.
//!
//! Each factor is split into four numbers, which have every fourth of its bits. In a product of two of these at most eight ones meet in a
//! column, so that no carry reaches the next bit that is kept, four columns further on. What is kept is each fourth bit, which says whether
//! the number of ones in its column is odd.
ghost use Rattle.std.specs.Prelude.{◌≡◌, ℕ, ◌+◌, ◌*◌, ◌%◌, ◌^◌, ◌<◌, slice_index, bit_xor};
ghost use Rattle.aes.specs.Polynomial.{polynomial_product};

use std::simd::prelude::*;

/// The sum of the product of `a` and `x` and that of `b` and `y`.
#[inline(always)]
pub(crate) fn sum_of_products(a: u64, x: u64, b: u64, y: u64) -> u128
    ensures { result ≡ bit_xor (polynomial_product 128 a x) (polynomial_product 128 b y) }
{
    let (low, high) = product_64(u64x2::from_array([a, b]), u64x2::from_array([x, y]));
    ((high.reduce_xor() as u128) << 64) ^ low.reduce_xor() as u128
}

/// In each lane the product of `x` and `y`, the first 64 coefficients in one vector and those from x ^ 64 on in the other, by Karatsuba's
/// three products of halves.
#[inline(always)]
fn product_64(x: u64x2, y: u64x2) -> (u64x2, u64x2)
    ensures { (l : ℕ) → l < 2
        → slice_index result.1 l * 2 ^ 64 + slice_index result.0 l ≡ polynomial_product 128 (slice_index x l) (slice_index y l) }
{
    let x1 = x >> u64x2::splat(32);
    let y1 = y >> u64x2::splat(32);
    let front = product_32(x1, y1);
    let back = product_32(x, y);
    let sums = product_32(x1 ^ x, y1 ^ y);
    let middle = (sums ^ front) ^ back;
    (
        back ^ (middle << u64x2::splat(32)),
        front ^ (middle >> u64x2::splat(32)),
    )
}

/// In each lane the product of the first 32 coefficients of `x` and of `y`.
#[inline(always)]
fn product_32(x: u64x2, y: u64x2) -> u64x2
    ensures { (l : ℕ) → l < 2
        → slice_index result l ≡ polynomial_product 128 (slice_index x l % 2 ^ 32) (slice_index y l % 2 ^ 32) }
{
    let m0 = u64x2::splat(0x11111111);
    let m1 = u64x2::splat(0x22222222);
    let m2 = u64x2::splat(0x44444444);
    let m3 = u64x2::splat(0x88888888);
    let x0 = x & m0;
    let x1 = x & m1;
    let x2 = x & m2;
    let x3 = x & m3;
    let y0 = y & m0;
    let y1 = y & m1;
    let y2 = y & m2;
    let y3 = y & m3;
    let z0 = ((x0 * y0 ^ x1 * y3) ^ x2 * y2) ^ x3 * y1;
    let z1 = ((x0 * y1 ^ x1 * y0) ^ x2 * y3) ^ x3 * y2;
    let z2 = ((x0 * y2 ^ x1 * y1) ^ x2 * y0) ^ x3 * y3;
    let z3 = ((x0 * y3 ^ x1 * y2) ^ x2 * y1) ^ x3 * y0;
    (((z0 & u64x2::splat(0x1111111111111111)) ^ (z1 & u64x2::splat(0x2222222222222222)))
        ^ (z2 & u64x2::splat(0x4444444444444444)))
        ^ (z3 & u64x2::splat(0x8888888888888888))
}
