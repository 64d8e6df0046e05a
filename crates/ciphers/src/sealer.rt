//! Encryptions of content that comes in pieces (RFC 7516 section 5.1, step 15).
ghost use Rattle.std.specs.Prelude.{◌≡◌, ◌↔◌, ℕ, ◌*◌, ◌≤◌, List, [], ◌++◌, length, take, drop, IfOk, IfErr, IsErr, OnOk, OnErr};
ghost use Rattle.ciphers.specs.Code.Views.{KeepsPace, HoldsGcmSealing};
ghost use Rattle.ciphers.specs.Algorithms.{aes_gcm};
ghost use Rattle.ciphers.specs.Sealing.{Sealing, IsTooLong, sealing_in};

use crate::arrays::array;
use crate::kek::Keyed;
use aes::Block;
use modes::Gcm;
use octets::{PIECE, Refusal, SEALED_PIECE};

/// The encryption of a plaintext that comes in pieces.
pub trait Sealer: Drop {
    /// Whether it was started for this sealing, and has taken this plaintext so far.
    ghost is_sealing: { Self → Sealing → List ℕ → Type 0 };

    /// Takes the next piece, of at most `PIECE` octets. Writes the next part of the ciphertext to the front of `out`, and returns its
    /// length. Refuses with `Limit` and takes nothing if the plaintext would be too long.
    fn feed(&mut self, piece: &[u8], out: &mut [u8; SEALED_PIECE]) -> Result<usize, Refusal>
        requires { length piece.now ≤ PIECE }
        ensures within { IfOk result (λ n. n ≤ SEALED_PIECE) }
        ensures fed { (s : Sealing) (p : List ℕ) → is_sealing self.old s p
            → OnOk result (is_sealing self.new s (p ++ piece.now)) }
        ensures text { (s : Sealing) (p : List ℕ) → is_sealing self.old s p
            → IfOk result (λ n. s.fixed (p ++ piece.now) ≡ s.fixed p ++ take n out.new) }
        ensures rest { IfOk result (λ n. drop n out.new ≡ drop n out.old) }
        ensures limit { (s : Sealing) (p : List ℕ) → is_sealing self.old s p
            → IsErr result ↔ IsTooLong s (p ++ piece.now) }
        ensures refusal { IfErr result (λ refusal. refusal ≡ Refusal.Limit) }
        ensures unchanged { OnErr result (self.new ≡ self.old) }
        ensures place { OnErr result (out.new ≡ out.old) };

    /// Writes the rest of the ciphertext to the front of `last`, and the tag to the front of `tag`. Returns both lengths. The rest of both
    /// buffers is unchanged.
    fn finish(self, last: &mut [u8; 16], tag: &mut [u8; 32]) -> (usize, usize)
        ensures within { (result.0 ≤ 16) × (result.1 ≤ 32) }
        ensures ciphertext { (s : Sealing) (p : List ℕ) → is_sealing self s p
            → (s.sealed p).ciphertext ≡ s.fixed p ++ take result.0 last.new }
        ensures tag { (s : Sealing) (p : List ℕ) → is_sealing self s p
            → (s.sealed p).tag ≡ take result.1 tag.new }
        ensures rest { (drop result.0 last.new ≡ drop result.0 last.old) × (drop result.1 tag.new ≡ drop result.1 tag.old) };

    /// The ciphertext that was written is at most sixteen octets shorter than the plaintext that was taken.
    ghost keeps_pace: { (x : Self) (s : Sealing) (p : List ℕ) → is_sealing x s p → KeepsPace s p };
}

/// Starts an encryption by AES-GCM under a content encryption key, before any of the plaintext.
pub(crate) fn start_gcm<B: Keyed>(cek: &[u8], iv: &[u8], aad: &[u8]) -> Gcm<B>
    requires cek_fits { length cek.now ≡ 4 * B.words }
    requires iv_fits { length iv.now ≡ 12 }
    ensures { (s : Sealing) → s ≡ sealing_in (aes_gcm B.words) cek.now iv.now aad.now → HoldsGcmSealing B.encrypted result s [] }
{
    Gcm::start(B::under(cek), &array(iv), aad)
}

impl<B: Block> Sealer for Gcm<B> {
    ghost is_sealing = { HoldsGcmSealing B.encrypted };

    fn feed(&mut self, piece: &[u8], out: &mut [u8; SEALED_PIECE]) -> Result<usize, Refusal> {
        Gcm::feed(self, piece, out)
    }

    fn finish(self, _last: &mut [u8; 16], tag: &mut [u8; 32]) -> (usize, usize) {
        tag[..16].copy_from_slice(&Gcm::finish(self));
        (0, 16)
    }

    ghost keeps_pace = { λ x s p r. r.pace };
}
