//! The rounds and their inverse (FIPS 197 sections 5.1 and 5.3) on each block of a vector, over the round keys of any size of key.
ghost use Rattle.std.specs.Prelude.{◌≡◌, ℕ, ◌+◌, ◌*◌, ◌≤◌, ◌<◌, length};
ghost use Rattle.aes.specs.Cipher.{cipher};
ghost use Rattle.aes.specs.InverseCipher.{inverse_sub_bytes, inverse_shift_rows, inverse_mix_columns, inverse_cipher};
ghost use Rattle.aes.specs.State.{sub_bytes, shift_rows, mix_columns, add_round_key};
ghost use Rattle.aes.specs.Code.Blocks.{block};
ghost use Rattle.aes.specs.Code.Kept.{plain, summed};

use crate::inverse_state::{inverse_mix, inverse_shift_sub, keep_undone};
use crate::lanes::Lanes;
use crate::state::{add_kept_round_key, add_round_key, keep, sub_shift, sub_shift_mix};
use std::simd::{Simd, u8x16};

/// The sum with the first key words.
#[inline(always)]
pub(crate) fn first_round<const N: usize>(round_keys: &[u8], x: Simd<u8, N>) -> Simd<u8, N>
where
    Simd<u8, N>: Lanes<N>,
    requires { 16 ≤ length round_keys.now }
    ensures { (i : ℕ) → 16 * i + 16 ≤ N → plain (block result i) ≡ add_round_key round_keys.now 0 (block x.entry i) }
{
    keep(add_round_key(round_keys, 0, x))
}

/// A round with all four steps.
#[inline(always)]
pub(crate) fn next_round<const N: usize>(
    round_keys: &[u8],
    round: usize,
    state: Simd<u8, N>,
) -> Simd<u8, N>
where
    Simd<u8, N>: Lanes<N>,
    requires { 16 * round + 16 ≤ length round_keys.now }
    ensures { (i : ℕ) → 16 * i + 16 ≤ N → plain (block result i)
        ≡ add_round_key round_keys.now round (mix_columns (shift_rows (sub_bytes (plain (block state.entry i))))) }
{
    add_kept_round_key(round_keys, round, sub_shift_mix(state))
}

/// The last round, which mixes no columns.
#[inline(always)]
pub(crate) fn last_round<const N: usize>(
    round_keys: &[u8],
    nr: usize,
    state: Simd<u8, N>,
) -> Simd<u8, N>
where
    Simd<u8, N>: Lanes<N>,
    requires { 16 * nr + 16 ≤ length round_keys.now }
    ensures { (i : ℕ) → 16 * i + 16 ≤ N → block result i
        ≡ add_round_key round_keys.now nr (shift_rows (sub_bytes (plain (block state.entry i)))) }
{
    add_round_key(round_keys, nr, sub_shift(state))
}

/// The block after all `nr` rounds.
pub(crate) fn cipher(round_keys: &[u8], nr: usize, b: &[u8; 16]) -> [u8; 16]
    requires rounds { (0 < nr) × (nr ≤ 14) }
    requires keys { 16 * nr + 16 ≤ length round_keys.now }
    ensures { result ≡ cipher nr round_keys.now b.now }
{
    let mut state = first_round(round_keys, u8x16::from_array(*b));
    for round in 1..nr {
        state = next_round(round_keys, round, state);
    }
    last_round(round_keys, nr, state).to_array()
}

/// The sum with the last key words, undone.
#[inline(always)]
pub(crate) fn undo_last_key<const N: usize>(
    round_keys: &[u8],
    nr: usize,
    x: Simd<u8, N>,
) -> Simd<u8, N>
where
    Simd<u8, N>: Lanes<N>,
    requires { 16 * nr + 16 ≤ length round_keys.now }
    ensures { (i : ℕ) → 16 * i + 16 ≤ N → summed (block result i) ≡ add_round_key round_keys.now nr (block x.entry i) }
{
    keep_undone(add_round_key(round_keys, nr, x))
}

/// The S-box and the shift of the rows of the round after this one undone, and then all of this one but for these two.
#[inline(always)]
pub(crate) fn undo_round<const N: usize>(
    round_keys: &[u8],
    round: usize,
    state: Simd<u8, N>,
) -> Simd<u8, N>
where
    Simd<u8, N>: Lanes<N>,
    requires { 16 * round + 16 ≤ length round_keys.now }
    ensures { (i : ℕ) → 16 * i + 16 ≤ N → summed (block result i)
        ≡ inverse_mix_columns (add_round_key round_keys.now round (inverse_sub_bytes (inverse_shift_rows (summed (block state.entry i))))) }
{
    inverse_mix(add_round_key(round_keys, round, inverse_shift_sub(state)))
}

/// The same, where the round is the sum with the first key words.
#[inline(always)]
pub(crate) fn undo_first_round<const N: usize>(round_keys: &[u8], state: Simd<u8, N>) -> Simd<u8, N>
where
    Simd<u8, N>: Lanes<N>,
    requires { 16 ≤ length round_keys.now }
    ensures { (i : ℕ) → 16 * i + 16 ≤ N → block result i
        ≡ add_round_key round_keys.now 0 (inverse_sub_bytes (inverse_shift_rows (summed (block state.entry i)))) }
{
    add_round_key(round_keys, 0, inverse_shift_sub(state))
}

/// The block before all `nr` rounds.
pub(crate) fn inverse_cipher(round_keys: &[u8], nr: usize, b: &[u8; 16]) -> [u8; 16]
    requires rounds { (0 < nr) × (nr ≤ 14) }
    requires keys { 16 * nr + 16 ≤ length round_keys.now }
    ensures { result ≡ inverse_cipher nr round_keys.now b.now }
{
    let mut state = undo_last_key(round_keys, nr, u8x16::from_array(*b));
    for round in (1..nr).rev() {
        let before = undo_round(round_keys, round, state);
        state = before;
    }
    undo_first_round(round_keys, state).to_array()
}
