//! CBC with padding, of a text that comes in pieces (SP 800-38A section 6.2; RFC 5652 section 6.3).
ghost use Rattle.std.specs.Prelude.{◌≡◌, ℕ, ◌+◌, ◌-◌, ◌*◌, ◌/◌, ◌%◌, ◌<◌, ◌≤◌, List, [], ◌++◌, length, take, drop};
ghost use Rattle.modes.specs.Cbc.{cbc, cbc_blocks, chained};

use crate::partial_block::PartialBlock;
use aes::Block;
use octets::{PIECE, SEALED_PIECE};
use std::simd::u8x16;

/// An encryption by CBC whose plaintext comes in pieces.
#[derive(Drop)]
pub struct Cbc<B> {
    cipher: B,
    previous: [u8; 16],
    waiting: PartialBlock,
}

impl<B: Block> Cbc<B> {
    ghost use Rattle.modes.specs.Code.Views.{HoldsCbc};

    /// An encryption that was fed nothing yet.
    pub fn start(cipher: B, iv: &[u8; 16]) -> Cbc<B>
        ensures { HoldsCbc B.encrypted result (B.encrypted cipher) iv.now [] }
    {
        Cbc {
            cipher,
            previous: *iv,
            waiting: PartialBlock::new(),
        }
    }

    /// Feeds the next piece, of at most `PIECE` octets. Writes the ciphertext of the blocks that are whole now to the front of `out` and
    /// returns its length.
    pub fn feed(&mut self, piece: &[u8], out: &mut [u8; SEALED_PIECE]) -> usize
        requires { length piece.now ≤ PIECE }
        ensures within { result ≤ SEALED_PIECE }
        ensures fed { (e : List ℕ → List ℕ) (iv p : List ℕ) → HoldsCbc B.encrypted self.old e iv p
            → HoldsCbc B.encrypted self.new e iv (p ++ piece.now) }
        ensures text { (e : List ℕ → List ℕ) (iv p : List ℕ) → HoldsCbc B.encrypted self.old e iv p
            → cbc_blocks e iv (p ++ piece.now) ≡ cbc_blocks e iv p ++ take result out.new }
        ensures len { (e : List ℕ → List ℕ) (iv p : List ℕ) → HoldsCbc B.encrypted self.old e iv p
            → 16 * (length p / 16) + result ≡ 16 * (length (p ++ piece.now) / 16) }
        ensures rest { drop result out.new ≡ drop result out.old }
    {
        let space = self.waiting.space();
        if piece.len() < space {
            self.waiting.push(piece);
            return 0;
        }
        let (front, rest) = piece.split_at(space);
        let whole = rest.len() / 16 * 16;
        let (first, others) = out.split_at_mut(16);
        let block = self.waiting.complete(front);
        encrypt_blocks(&self.cipher, &mut self.previous, &block, first);
        encrypt_blocks(
            &self.cipher,
            &mut self.previous,
            &rest[..whole],
            &mut others[..whole],
        );
        self.waiting.push(&rest[whole..]);
        16 + whole
    }

    /// Pads the octets that wait and returns the last block of the ciphertext.
    pub fn finish(mut self, out: &mut [u8; 16])
        ensures { (e : List ℕ → List ℕ) (iv p : List ℕ) → HoldsCbc B.encrypted self e iv p
            → cbc e iv p ≡ cbc_blocks e iv p ++ out.new }
    {
        let space = self.waiting.space();
        let padding = [space as u8; 16];
        let last = self.waiting.complete(&padding[..space]);
        encrypt_blocks(&self.cipher, &mut self.previous, &last, out);
    }
}

/// Encrypts whole blocks, and leaves the last block of their ciphertext in `previous`.
fn encrypt_blocks<B: Block>(cipher: &B, previous: &mut [u8; 16], blocks: &[u8], out: &mut [u8])
    requires whole { length blocks.now % 16 ≡ 0 }
    requires place { length out.old ≡ length blocks.now }
    ensures last { previous.new
        ≡ chained (B.encrypted cipher.now) previous.old blocks.now (length blocks.now / 16) }
    ensures text { out.new ≡ cbc_blocks (B.encrypted cipher.now) previous.old blocks.now }
{
    for i in 0..blocks.len() / 16 {
        let input = u8x16::from_array(*previous) ^ u8x16::from_slice(&blocks[16 * i..]);
        *previous = cipher.encrypt(&input.to_array());
        out[16 * i..16 * i + 16].copy_from_slice(previous);
    }
}
