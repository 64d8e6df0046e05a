//! GCM of a text that comes in pieces, and its opening in place (SP 800-38D sections 7.1 and 7.2). The steps are those of section 7.1: H
//! and J0, the ciphertext from the counter block after J0, S, and the tag.
ghost use Rattle.std.specs.Prelude.{◌≡◌, ◌↔◌, ℕ, ◌*◌, ◌%◌, ◌^◌, ◌<◌, ◌≤◌, List, [], ◌∷◌, ◌++◌, length, take, drop, IfOk, IfErr, IsErr, OnOk, OnErr, IfSome, IfNone};
ghost use Rattle.modes.specs.Gcm.{hash_subkey, pre_counter_block, gcm_ciphertext, gcm_tag, longest};
ghost use Rattle.modes.specs.Code.Opening.{IsGcmOpening};
ghost use Rattle.modes.specs.Ghash.{zero_filled, ghash};
ghost use Rattle.modes.specs.Code.Views.{HoldsGhash, HoldsGcm};
ghost use Rattle.octets.specs.Octets.{xor_octets};
ghost use Rattle.std.specs.Int.{w64, to_be_bytes};

use crate::ctr::{Ctr32, KeyStream};
use crate::ghash::Ghash;
use aes::Block;
use octets::{PIECE, Refusal, SEALED_PIECE, same_octets, xor_into};

/// The length of the longest plaintext in octets (section 5.2.1.1).
const LONGEST: u64 = (1 << 36) - 32;

/// An encryption by GCM whose plaintext comes in pieces.
#[derive(Drop)]
pub struct Gcm<B> {
    ctr: Ctr32<B>,
    hash: Ghash,
    tag_mask: [u8; 16],
    aad_bits: [u8; 8],
    len: u64,
}

impl<B: Block> Gcm<B> {
    /// An encryption that was fed nothing of the plaintext yet.
    pub fn start(cipher: B, iv: &[u8; 12], aad: &[u8]) -> Gcm<B>
        ensures { HoldsGcm B.encrypted result (B.encrypted cipher) iv.now aad.now [] }
    {
        let hash = aad_hash(&cipher, aad);
        let tag_mask = tag_mask(&cipher, iv);
        Gcm {
            ctr: Ctr32::start(cipher, &counter_block(iv, 2)),
            hash,
            tag_mask,
            aad_bits: bit_length(aad.len() as u64),
            len: 0,
        }
    }

    /// Feeds the next piece, of at most `PIECE` octets. Writes as many octets of the ciphertext to the front of `out` and returns their
    /// number. Refuses with `Limit`, and takes nothing, if the plaintext would be longer than 2^36 - 32 octets.
    pub fn feed(&mut self, piece: &[u8], out: &mut [u8; SEALED_PIECE]) -> Result<usize, Refusal>
        requires { length piece.now ≤ PIECE }
        ensures len { IfOk result (λ n. n ≡ length piece.now) }
        ensures fed { (e : List ℕ → List ℕ) (iv aad p : List ℕ) → HoldsGcm B.encrypted self.old e iv aad p
            → OnOk result (HoldsGcm B.encrypted self.new e iv aad (p ++ piece.now)) }
        ensures text { (e : List ℕ → List ℕ) (iv aad p : List ℕ) → HoldsGcm B.encrypted self.old e iv aad p
            → IfOk result (λ n. gcm_ciphertext e iv (p ++ piece.now) ≡ gcm_ciphertext e iv p ++ take n out.new) }
        ensures rest { IfOk result (λ n. drop n out.new ≡ drop n out.old) }
        ensures limit { (e : List ℕ → List ℕ) (iv aad p : List ℕ) → HoldsGcm B.encrypted self.old e iv aad p
            → IsErr result ↔ (longest < length (p ++ piece.now)) }
        ensures refusal { IfErr result (λ refusal. refusal ≡ Refusal.Limit) }
        ensures unchanged { OnErr result (self.new ≡ self.old) }
        ensures place { OnErr result (out.new ≡ out.old) }
    {
        let len = self.len.saturating_add(piece.len() as u64);
        if len > LONGEST {
            return Err(Refusal::Limit);
        }
        let n = self.ctr.feed(piece, out);
        self.hash.feed(&out[..n]);
        self.len = len;
        Ok(n)
    }

    /// The tag.
    pub fn finish(self) -> [u8; 16]
        ensures { (e : List ℕ → List ℕ) (iv aad p : List ℕ) → HoldsGcm B.encrypted self e iv aad p
            → result ≡ gcm_tag e iv aad (gcm_ciphertext e iv p) }
    {
        let Gcm {
            ctr: _,
            hash,
            tag_mask,
            aad_bits,
            len,
        } = self;
        tag_of(hash, &aad_bits, &bit_length(len), &tag_mask)
    }
}

/// Opens the ciphertext in `buf` to the plaintext and returns the length of the plaintext, which is the same. Returns `None`, with `buf`
/// unchanged, if no plaintext has this ciphertext and tag (section 7.2).
pub fn gcm_open<B: Block>(
    cipher: &B,
    iv: &[u8; 12],
    aad: &[u8],
    buf: &mut [u8],
    tag: &[u8],
) -> Option<usize>
    ensures opened { IfSome result (λ n. (n ≤ length buf.old)
        × IsGcmOpening (B.encrypted cipher.now) iv.now aad.now buf.old tag.now (take n buf.new)) }
    ensures whole { IfSome result (λ n. n ≡ length buf.old) }
    ensures nothing { IfNone result ((p : List ℕ) → IsGcmOpening (B.encrypted cipher.now) iv.now aad.now buf.old tag.now p → ⊥) }
    ensures unchanged { IfNone result (buf.new ≡ buf.old) }
{
    if buf.len() as u64 > LONGEST {
        return None;
    }
    let mut hash = aad_hash(cipher, aad);
    hash.feed(buf);
    let tag_mask = tag_mask(cipher, iv);
    let expected = tag_of(
        hash,
        &bit_length(aad.len() as u64),
        &bit_length(buf.len() as u64),
        &tag_mask,
    );
    if !same_octets(&expected, tag) {
        return None;
    }
    KeyStream::start(&counter_block(iv, 2)).apply(cipher, buf);
    Some(buf.len())
}

/// The counter block of the IV and this number. J0 has 1, and the ciphertext starts with 2 (steps 2 and 3).
fn counter_block(iv: &[u8; 12], number: u8) -> [u8; 16]
    ensures { result ≡ iv.now ++ 0 ∷ 0 ∷ 0 ∷ number ∷ [] }
{
    let mut block = [0; 16];
    block[..12].copy_from_slice(iv);
    block[15] = number;
    block
}

/// The number of bits of `len` octets, as eight octets.
fn bit_length(len: u64) -> [u8; 8]
    ensures { result ≡ to_be_bytes w64 (len * 8 % 2 ^ 64) }
{
    len.wrapping_mul(8).to_be_bytes()
}

/// The hash under H of the additional data (steps 1 and 5).
fn aad_hash<B: Block>(cipher: &B, aad: &[u8]) -> Ghash
    ensures { HoldsGhash result (hash_subkey (B.encrypted cipher.now)) (zero_filled aad.now) }
{
    let mut hash = Ghash::start(&cipher.encrypt(&[0; 16]));
    hash.feed(aad);
    hash.pad();
    hash
}

/// The encryption of J0, to which S is added (step 6).
fn tag_mask<B: Block>(cipher: &B, iv: &[u8; 12]) -> [u8; 16]
    ensures { result ≡ B.encrypted cipher.now (pre_counter_block iv.now) }
{
    cipher.encrypt(&counter_block(iv, 1))
}

/// The tag: the sum of the mask and S, which is the hash so far with both lengths after it (steps 5 and 6).
fn tag_of(
    mut hash: Ghash,
    aad_bits: &[u8; 8],
    ciphertext_bits: &[u8; 8],
    tag_mask: &[u8; 16],
) -> [u8; 16]
    ensures { (h x : List ℕ) → HoldsGhash hash h x
        → result ≡ xor_octets (ghash h ((zero_filled x ++ aad_bits.now) ++ ciphertext_bits.now)) tag_mask.now }
{
    hash.pad();
    hash.feed(aad_bits);
    hash.feed(ciphertext_bits);
    let mut tag = hash.finish();
    xor_into(&mut tag, tag_mask);
    tag
}
