//! Exclusive or and comparison of whole octet strings, 32 octets at a time.
ghost use Rattle.std.specs.Prelude.{◌≡◌, ◌↔◌, ◌+◌, ◌≤◌, length, bit_xor, IsTrue};
ghost use Rattle.std.specs.Simd.Lanes.{zip2, put_chunk, chunk};
ghost use Rattle.octets.specs.Octets.{xor_octets};

use std::simd::prelude::*;

/// Xors each of the other octets into the octet at its place. Both strings have the same length.
pub fn xor_into(octets: &mut [u8], other: &[u8])
    requires { length other.now ≡ length octets.old }
    ensures { octets.new ≡ xor_octets octets.old other.now }
{
    let (blocks, _) = other.as_chunks::<32>();
    for (i, block) in blocks.iter().enumerate() {
        xor_block(octets, 32 * i, block);
    }
    for i in 32 * blocks.len()..other.len() {
        octets[i] ^= other[i];
    }
}

/// Xors a block into the 32 octets at this place.
fn xor_block(octets: &mut [u8], at: usize, block: &[u8; 32])
    requires { at + 32 ≤ length octets.old }
    ensures { octets.new ≡ put_chunk at octets.old (zip2 bit_xor (chunk at 32 octets.old) block.now) }
{
    let sum = u8x32::from_slice(&octets[at..]) ^ u8x32::from_array(*block);
    sum.copy_to_slice(&mut octets[at..]);
}

/// Whether both are the same octets. It compares all of them, wherever they differ, but promises nothing of its time.
pub fn same_octets(a: &[u8], b: &[u8]) -> bool
    ensures { IsTrue result ↔ (a.now ≡ b.now) }
{
    if a.len() != b.len() {
        return false;
    }
    let (blocks, _) = a.as_chunks::<32>();
    let (others, _) = b.as_chunks::<32>();
    let mut difference = 0u8;
    for (i, block) in blocks.iter().enumerate() {
        difference |= block_difference(block, &others[i]);
    }
    for i in 32 * blocks.len()..a.len() {
        difference |= a[i] ^ b[i];
    }
    difference == 0
}

/// Zero exactly if both blocks are the same octets.
fn block_difference(a: &[u8; 32], b: &[u8; 32]) -> u8
    ensures { (result ≡ 0) ↔ (a.now ≡ b.now) }
{
    (u8x32::from_array(*a) ^ u8x32::from_array(*b)).reduce_or()
}
