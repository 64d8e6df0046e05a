//! The places of the dots in a compact text (RFC 7515 section 7.1, RFC 7516 section 7.1), found 32 octets at a time.
ghost use Rattle.std.specs.Prelude.{◌≡◌, ◌≤◌, nat_lt, length, position};
ghost use Rattle.std.specs.List.{position_or_len};
ghost use Rattle.objects.specs.Texts.{is_dot};

use std::simd::prelude::*;

/// The place of the first dot.
pub(crate) fn first_dot(text: &[u8]) -> Option<usize>
    ensures { result ≡ position is_dot text.now }
{
    let passed = without_dots(text);
    let i = first_dot_by_octets(&text[passed..])?;
    Some(passed + i)
}

/// The same, octet by octet.
fn first_dot_by_octets(text: &[u8]) -> Option<usize>
    ensures { result ≡ position is_dot text.now }
{
    text.iter().position(|c| *c == b'.')
}

/// A number of octets at the front of the text without a dot: those before the first block with a dot, or before the last octets, which are
/// no block.
fn without_dots(text: &[u8]) -> usize
    ensures none { result ≤ position_or_len is_dot text.now }
    ensures within { result ≤ length text.now }
{
    let (blocks, _) = text.as_chunks::<32>();
    for (i, block) in blocks.iter().enumerate() {
        if has_dot(block) {
            return 32 * i;
        }
    }
    32 * blocks.len()
}

/// Whether there is a dot in the block.
fn has_dot(block: &[u8; 32]) -> bool
    ensures { result ≡ nat_lt (position_or_len is_dot block.now) 32 }
{
    u8x32::from_array(*block)
        .simd_eq(u8x32::splat(b'.'))
        .to_bitmask()
        != 0
}
