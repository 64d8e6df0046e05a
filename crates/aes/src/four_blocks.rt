//! The rounds and their inverse (FIPS 197 sections 5.1 and 5.3) on four blocks at once, two in each of two vectors. The look-ups of one
//! vector fill the waits of the other.
ghost use Rattle.std.specs.Prelude.{◌≡◌, ◌+◌, ◌*◌, ◌≤◌, ◌<◌, [], ◌∷◌, length, map};
ghost use Rattle.aes.specs.Cipher.{cipher};
ghost use Rattle.aes.specs.InverseCipher.{inverse_cipher};
ghost use Rattle.aes.specs.Code.Blocks.{block};

use crate::cipher::{
    first_round, last_round, next_round, undo_first_round, undo_last_key, undo_round,
};
use std::simd::{u8x16, u8x32};

/// A vector of two blocks.
#[inline(always)]
fn side_by_side(a: [u8; 16], b: [u8; 16]) -> u8x32
    ensures first { block result 0 ≡ a }
    ensures second { block result 1 ≡ b }
{
    u8x16::from_array(a).shuffle(
        u8x16::from_array(b),
        [
            0, 1, 2, 3, 4, 5, 6, 7, 8, 9, 10, 11, 12, 13, 14, 15, 16, 17, 18, 19, 20, 21, 22, 23,
            24, 25, 26, 27, 28, 29, 30, 31,
        ],
    )
}

/// The two blocks of a vector.
#[inline(always)]
fn apart(x: u8x32) -> [[u8; 16]; 2]
    ensures { result ≡ block x 0 ∷ block x 1 ∷ [] }
{
    [
        x.extract::<0, 16>().to_array(),
        x.extract::<16, 16>().to_array(),
    ]
}

/// The blocks after all `nr` rounds.
pub(crate) fn cipher_4(round_keys: &[u8], nr: usize, blocks: &[[u8; 16]; 4]) -> [[u8; 16]; 4]
    requires rounds { (0 < nr) × (nr ≤ 14) }
    requires keys { 16 * nr + 16 ≤ length round_keys.now }
    ensures { result ≡ map (cipher nr round_keys.now) blocks.now }
{
    let [a, b, c, d] = *blocks;
    let mut front = first_round(round_keys, side_by_side(a, b));
    let mut back = first_round(round_keys, side_by_side(c, d));
    for round in 1..nr {
        front = next_round(round_keys, round, front);
        back = next_round(round_keys, round, back);
    }
    let [a, b] = apart(last_round(round_keys, nr, front));
    let [c, d] = apart(last_round(round_keys, nr, back));
    [a, b, c, d]
}

/// The blocks before all `nr` rounds.
pub(crate) fn inverse_cipher_4(
    round_keys: &[u8],
    nr: usize,
    blocks: &[[u8; 16]; 4],
) -> [[u8; 16]; 4]
    requires rounds { (0 < nr) × (nr ≤ 14) }
    requires keys { 16 * nr + 16 ≤ length round_keys.now }
    ensures { result ≡ map (inverse_cipher nr round_keys.now) blocks.now }
{
    let [a, b, c, d] = *blocks;
    let mut front = undo_last_key(round_keys, nr, side_by_side(a, b));
    let mut back = undo_last_key(round_keys, nr, side_by_side(c, d));
    for round in (1..nr).rev() {
        front = undo_round(round_keys, round, front);
        back = undo_round(round_keys, round, back);
    }
    let [a, b] = apart(undo_first_round(round_keys, front));
    let [c, d] = apart(undo_first_round(round_keys, back));
    [a, b, c, d]
}
