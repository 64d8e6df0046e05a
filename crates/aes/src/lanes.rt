//! Vectors of one block and of two. What is done to a vector is done to each of its blocks. A processor with registers of 32 octets, as
//! x86-64-v3 has, does it to two blocks in the time of one. On others a vector of two blocks is two registers.
ghost use Rattle.std.specs.Prelude.{◌≡◌, ℕ, ◌+◌, ◌*◌, ◌<◌, ◌≤◌, true, map};
ghost use Rattle.std.proofs.Common.{lit≤};
ghost use Rattle.std.specs.Simd.Lanes.{all_below, pick_l};
ghost use Rattle.aes.specs.Code.Blocks.{block};
ghost use Rattle.aes.specs.Code.LookUps.{AreInTable, entry};

use std::simd::{Simd, u8x16, u8x32};

/// The vectors of N octets, in blocks of sixteen.
pub(crate) trait Lanes<const N: usize> {
    /// There are at most two blocks.
    ghost few: { N ≤ 32 };

    /// The entry for each lane. It is 0 for a lane of 128 or more.
    fn look_up(table: [u8; 16], places: Simd<u8, N>) -> Simd<u8, N>
        requires { (i : ℕ) → AreInTable (block places i) }
        ensures { result ≡ map (entry table) places.entry };

    /// The octets of each block in another order, by the places that they have in it.
    fn reordered(x: Simd<u8, N>, places: [u8; 16]) -> Simd<u8, N>
        requires { all_below 16 places ≡ true }
        ensures { (i : ℕ) → 16 * i + 16 ≤ N → block result i ≡ pick_l 0 (block x.entry i) places };

    /// A vector whose blocks are all this one.
    fn repeated(b: u8x16) -> Simd<u8, N>
        ensures { (i : ℕ) → 16 * i + 16 ≤ N → block result i ≡ b };
}

impl Lanes<16> for u8x16 {
    ghost few = { lit≤ tt };

    #[inline(always)]
    fn look_up(table: [u8; 16], places: u8x16) -> u8x16
        requires { (i : ℕ) → AreInTable (block places i) }
        ensures { result ≡ map (entry table) places }
    {
        u8x16::from_array(table).swizzle_dyn(places)
    }

    #[inline(always)]
    fn reordered(x: u8x16, places: [u8; 16]) -> u8x16
        requires { all_below 16 places ≡ true }
        ensures { (i : ℕ) → 16 * i + 16 ≤ 16 → block result i ≡ pick_l 0 (block x i) places }
    {
        x.swizzle_dyn(u8x16::from_array(places))
    }

    #[inline(always)]
    fn repeated(b: u8x16) -> u8x16 {
        b
    }
}

impl Lanes<32> for u8x32 {
    ghost few = { lit≤ tt };

    #[inline(always)]
    fn look_up(table: [u8; 16], places: u8x32) -> u8x32
        requires { (i : ℕ) → AreInTable (block places i) }
        ensures { result ≡ map (entry table) places }
    {
        twice(u8x16::from_array(table)).swizzle_dyn_within::<16>(places)
    }

    #[inline(always)]
    fn reordered(x: u8x32, places: [u8; 16]) -> u8x32
        requires { all_below 16 places ≡ true }
        ensures { (i : ℕ) → 16 * i + 16 ≤ 32 → block result i ≡ pick_l 0 (block x i) places }
    {
        x.swizzle_dyn_within::<16>(twice(u8x16::from_array(places)))
    }

    #[inline(always)]
    fn repeated(b: u8x16) -> u8x32 {
        twice(b)
    }
}

/// Two blocks that are both this one.
#[inline(always)]
fn twice(b: u8x16) -> u8x32
    ensures { (i : ℕ) → i < 2 → block result i ≡ b }
{
    b.swizzle([
        0, 1, 2, 3, 4, 5, 6, 7, 8, 9, 10, 11, 12, 13, 14, 15, 0, 1, 2, 3, 4, 5, 6, 7, 8, 9, 10, 11,
        12, 13, 14, 15,
    ])
}
