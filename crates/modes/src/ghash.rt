//! GHASH of a text that comes in pieces (SP 800-38D sections 6.3 and 6.4).
ghost use Rattle.std.specs.Prelude.{◌≡◌, ℕ, ◌+◌, ◌*◌, ◌%◌, ◌<◌, ◌≤◌, List, [], ◌∷◌, ◌++◌, length};
ghost use Rattle.std.specs.Int.{w128, from_be_bytes};
ghost use Rattle.modes.specs.Cbc.{block};
ghost use Rattle.modes.specs.Ghash.{ghash_number, numbers, zero_filled, ghash};

use crate::hash_subkey::HashSubkey;
use crate::partial_block::PartialBlock;
use aes::laws::polynomial_laws;

/// A hash whose text comes in pieces.
#[derive(Drop)]
pub struct Ghash {
    subkey: HashSubkey,
    sum: u128,
    waiting: PartialBlock,
}

impl Ghash {
    ghost use Rattle.modes.specs.Code.Views.{HoldsGhash};

    /// A hash under `h` that was fed nothing yet.
    pub fn start(h: &[u8; 16]) -> Ghash
        ensures { HoldsGhash result h.now [] }
    {
        Ghash {
            subkey: HashSubkey::new(u128::from_be_bytes(*h)),
            sum: 0,
            waiting: PartialBlock::new(),
        }
    }

    /// Feeds the next piece.
    pub fn feed(&mut self, octets: &[u8])
        ensures { (h x : List ℕ) → HoldsGhash self.old h x → HoldsGhash self.new h (x ++ octets.now) }
    {
        let space = self.waiting.space();
        if octets.len() < space {
            self.waiting.push(octets);
            return;
        }
        let (front, rest) = octets.split_at(space);
        let whole = rest.len() / 16 * 16;
        let block = self.waiting.complete(front);
        self.sum = add_blocks(self.sum, &self.subkey, &block);
        self.sum = add_blocks(self.sum, &self.subkey, &rest[..whole]);
        self.waiting.push(&rest[whole..]);
    }

    /// Fills the block that waits with zero octets.
    pub fn pad(&mut self)
        ensures { (h x : List ℕ) → HoldsGhash self.old h x → HoldsGhash self.new h (zero_filled x) }
    {
        let space = self.waiting.space();
        if space < 16 {
            let zeros = [0; 16];
            self.feed(&zeros[..space]);
        }
    }

    /// The hash of the blocks, the last of which is filled with zero octets.
    pub fn finish(mut self) -> [u8; 16]
        ensures { (h x : List ℕ) → HoldsGhash self h x → result ≡ ghash h (zero_filled x) }
    {
        self.pad();
        self.sum.to_be_bytes()
    }
}

/// The sum with whole blocks added.
fn add_blocks(sum: u128, subkey: &HashSubkey, blocks: &[u8]) -> u128
    requires { length blocks.now % 16 ≡ 0 }
    ensures { (xs : List ℕ) → sum ≡ ghash_number subkey.now.h xs
        → result ≡ ghash_number subkey.now.h (xs ++ numbers blocks.now) }
{
    let mut total = sum;
    let pairs = blocks.len() / 32;
    for i in 0..pairs {
        total = add_both(
            total,
            subkey,
            block_at(blocks, 2 * i),
            block_at(blocks, 2 * i + 1),
        );
    }
    if blocks.len() % 32 == 0 {
        total
    } else {
        add_block(total, subkey, block_at(blocks, 2 * pairs))
    }
}

/// Block i as a number.
#[inline(always)]
fn block_at(blocks: &[u8], i: usize) -> u128
    requires { 16 * i + 16 ≤ length blocks.now }
    ensures { result ≡ from_be_bytes w128 (block blocks.now i) }
{
    let mut block = [0; 16];
    block.copy_from_slice(&blocks[16 * i..16 * i + 16]);
    u128::from_be_bytes(block)
}

/// The sum with two more blocks.
#[inline(always)]
fn add_both(sum: u128, subkey: &HashSubkey, x: u128, y: u128) -> u128
    ensures { (xs : List ℕ) → sum ≡ ghash_number subkey.now.h xs
        → result ≡ ghash_number subkey.now.h ((xs ++ x ∷ []) ++ y ∷ []) }
{
    polynomial_laws();
    subkey.times_both(sum ^ x, y)
}

/// The sum with one more block.
fn add_block(sum: u128, subkey: &HashSubkey, x: u128) -> u128
    ensures { (xs : List ℕ) → sum ≡ ghash_number subkey.now.h xs → result ≡ ghash_number subkey.now.h (xs ++ x ∷ []) }
{
    polynomial_laws();
    subkey.times(sum ^ x)
}
