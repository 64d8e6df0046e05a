//! HMAC (RFC 2104).
ghost use Rattle.std.specs.Prelude.{◌≡◌, ℕ, ◌≤◌, List, [], ◌++◌, length, take, drop, replicate};
ghost use Rattle.prf.specs.Hmac.{hmac, key_block, xor_each};

use crate::hash::Hash;
use std::marker::Model;

const INNER_PAD: u8 = 0x36;

const OUTER_PAD: u8 = 0x5c;

/// The block of a key (section 2): the key, or its hash if it is longer than a block, with zero octets up to the length of a block. Keys
/// that have the same block make the same HMACs. Contracts see its octets.
#[derive(Drop)]
pub struct KeyBlock {
    octets: [u8; 128],
    len: usize,
}

impl Model for KeyBlock {
    ghost use Rattle.std.specs.Prelude.{◌≤◌, List, ℕ, take};

    ghost Value = { List ℕ };

    ghost view = { λ s. take s.len s.octets };

    ghost invariant = { λ s. s.len ≤ 128 };
}

impl KeyBlock {
    /// The block of a key of any length, as long as a block of the hash.
    pub fn new<H: Hash>(key: &[u8]) -> KeyBlock
        ensures { result ≡ key_block H.function key.now }
    {
        let mut octets = [0u8; 128];
        put_key::<H>(key, &mut octets);
        KeyBlock {
            octets,
            len: H::block_len(),
        }
    }

    pub fn octets(&self) -> &[u8]
        ensures { result.now ≡ self.now }
    {
        &self.octets[..self.len]
    }
}

/// An HMAC whose text comes in pieces: the inner hash, of the key and the text so far, and the outer hash, of the key.
#[derive(Drop)]
pub struct Hmac<H: Hash> {
    inner: H,
    outer: H,
}

impl<H: Hash> Hmac<H> {
    ghost use Rattle.prf.specs.Code.Views.{HoldsHmac};

    /// The HMAC of the empty text, under a key of any length. The standards ask for a key at least as long as the digest.
    pub fn new(key: &[u8]) -> Hmac<H>
        ensures { HoldsHmac H.function H.holds result key.now [] }
    {
        let block = KeyBlock::new::<H>(key);
        Hmac {
            inner: padded_state(&block, INNER_PAD),
            outer: padded_state(&block, OUTER_PAD),
        }
    }

    /// Feeds the next piece of the text.
    pub fn update(&mut self, piece: &[u8])
        ensures { (key text : List ℕ) → HoldsHmac H.function H.holds self.old key text
            → HoldsHmac H.function H.holds self.new key (text ++ piece.now) }
    {
        self.inner.update(piece);
    }

    /// A copy of the state, which saves the work on the key for another text.
    pub fn fork(&self) -> Hmac<H>
        ensures { (key text : List ℕ) → HoldsHmac H.function H.holds self.now key text
            → HoldsHmac H.function H.holds result key text }
    {
        Hmac {
            inner: self.inner.fork(),
            outer: self.outer.fork(),
        }
    }

    /// Writes the HMAC of the text to the front of `out` and returns its length, which is that of the hash. The rest of `out` is unchanged.
    pub fn finish(self, out: &mut [u8; 64]) -> usize
        ensures code { (key text : List ℕ) → HoldsHmac H.function H.holds self key text
            → take result out.new ≡ hmac H.function key text }
        ensures len { result ≡ H.function.output_len }
        ensures rest { drop result out.new ≡ drop result out.old }
    {
        let Hmac { inner, mut outer } = self;
        let len = inner.finish(out);
        outer.update(&out[..len]);
        outer.finish(out)
    }
}

/// Writes the key, or its hash if it is longer than a block, to the front of a block of zero octets.
fn put_key<H: Hash>(key: &[u8], block: &mut [u8; 128])
    requires { block.old ≡ replicate 128 0 }
    ensures { take H.function.block_len block.new ≡ key_block H.function key.now }
{
    if key.len() > H::block_len() {
        let mut state = H::start();
        state.update(key);
        let mut digest = [0u8; 64];
        let len = state.finish(&mut digest);
        put_front(&digest[..len], block);
    } else {
        put_front(key, block);
    }
}

/// The state that was fed the key's block, each octet xor that of the pad.
fn padded_state<H: Hash>(block: &KeyBlock, pad: u8) -> H
    ensures { H.holds result (xor_each pad block.now) }
{
    let mut padded = block.octets;
    xor_with(&mut padded, pad);
    let mut state = H::start();
    state.update(&padded[..block.len]);
    state
}

/// Xors the octet of the pad into each octet.
fn xor_with(block: &mut [u8; 128], pad: u8)
    ensures { block.new ≡ xor_each pad block.old }
{
    for i in 0..128 {
        block[i] ^= pad;
    }
}

/// Copies the octets to the front of a block.
fn put_front(octets: &[u8], block: &mut [u8; 128])
    requires { length octets.now ≤ 128 }
    ensures { block.new ≡ octets.now ++ drop (length octets.now) block.old }
{
    block[..octets.len()].copy_from_slice(octets);
}
