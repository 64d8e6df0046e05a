//! The content encryption algorithms (RFC 7518 section 5.1).
ghost use Rattle.std.specs.Prelude.{◌≡◌, ◌≤◌, ℕ, List, [], length, take, Some, IfSome, IfNone};
ghost use Rattle.ciphers.specs.Algorithms.{encryption_algs, encryption_name, encryption_alg_of};
ghost use Rattle.ciphers.specs.Sealing.{cek_len, cbc_alg_with, iv_len, sealing, IsOpening};
ghost use Rattle.ciphers.specs.Code.Views.{IsPaddingBehind};

use crate::arrays::array;
use crate::cbc_hmac::{CbcHmac, open_cbc_hmac};
use crate::kek::Keyed;
use crate::sealer::{Sealer, start_gcm};
use aes::{Aes128, Aes192, Aes256, Block};
use modes::{Gcm, gcm_open};
use octets::{Refusal, SEALED_PIECE};
use prf::{Hash, Sha256, Sha384, Sha512};

/// A content encryption algorithm: a value of `enc` (RFC 7518 section 5.1).
#[derive(Clone, Copy, Debug, PartialEq, Eq)]
pub enum ContentAlg {
    /// AES-128 in CBC with HMAC SHA-256: `A128CBC-HS256`.
    A128CbcHs256,
    /// AES-192 in CBC with HMAC SHA-384: `A192CBC-HS384`.
    A192CbcHs384,
    /// AES-256 in CBC with HMAC SHA-512: `A256CBC-HS512`.
    A256CbcHs512,
    /// AES-128 in Galois/Counter mode: `A128GCM`.
    A128Gcm,
    /// AES-192 in Galois/Counter mode: `A192GCM`.
    A192Gcm,
    /// AES-256 in Galois/Counter mode: `A256GCM`.
    A256Gcm,
}

impl ContentAlg {
    /// All of them.
    pub fn all() -> &'static [ContentAlg]
        ensures { result.now ≡ encryption_algs }
    {
        &[
            ContentAlg::A128CbcHs256,
            ContentAlg::A192CbcHs384,
            ContentAlg::A256CbcHs512,
            ContentAlg::A128Gcm,
            ContentAlg::A192Gcm,
            ContentAlg::A256Gcm,
        ]
    }

    /// The algorithm of this name.
    #[tactic(auto, unfolding(crate::specs::Algorithms::encryption_alg_of))]
    pub fn named(name: &str) -> Option<ContentAlg>
        ensures { result ≡ encryption_alg_of name.now }
    {
        match name {
            "A128CBC-HS256" => Some(ContentAlg::A128CbcHs256),
            "A192CBC-HS384" => Some(ContentAlg::A192CbcHs384),
            "A256CBC-HS512" => Some(ContentAlg::A256CbcHs512),
            "A128GCM" => Some(ContentAlg::A128Gcm),
            "A192GCM" => Some(ContentAlg::A192Gcm),
            "A256GCM" => Some(ContentAlg::A256Gcm),
            _ => None,
        }
    }

    /// Its name.
    #[tactic(auto, unfolding(crate::specs::Algorithms::encryption_alg_of))]
    pub fn name(self) -> &'static str
        ensures name { result.now ≡ encryption_name self }
        ensures found { encryption_alg_of result.now ≡ Some self }
    {
        match self {
            ContentAlg::A128CbcHs256 => "A128CBC-HS256",
            ContentAlg::A192CbcHs384 => "A192CBC-HS384",
            ContentAlg::A256CbcHs512 => "A256CBC-HS512",
            ContentAlg::A128Gcm => "A128GCM",
            ContentAlg::A192Gcm => "A192GCM",
            ContentAlg::A256Gcm => "A256GCM",
        }
    }

    /// The length of its content encryption key in octets (sections 5.2 and 5.3).
    pub fn cek_len(self) -> usize
        ensures len { result ≡ cek_len self }
        ensures most { result ≤ 64 }
    {
        match self {
            ContentAlg::A128CbcHs256 => 32,
            ContentAlg::A192CbcHs384 => 48,
            ContentAlg::A256CbcHs512 => 64,
            ContentAlg::A128Gcm => 16,
            ContentAlg::A192Gcm => 24,
            ContentAlg::A256Gcm => 32,
        }
    }

    /// The algorithm in CBC with HMAC whose content encryption keys have so many octets (section 5.2).
    pub fn cbc_with_cek_len(len: usize) -> Option<ContentAlg>
        ensures { result ≡ cbc_alg_with len }
    {
        match len {
            32 => Some(ContentAlg::A128CbcHs256),
            48 => Some(ContentAlg::A192CbcHs384),
            64 => Some(ContentAlg::A256CbcHs512),
            _ => None,
        }
    }

    /// The length of its IVs in octets.
    pub fn iv_len(self) -> usize
        ensures { result ≡ iv_len self }
    {
        match self {
            ContentAlg::A128CbcHs256 | ContentAlg::A192CbcHs384 | ContentAlg::A256CbcHs512 => 16,
            ContentAlg::A128Gcm | ContentAlg::A192Gcm | ContentAlg::A256Gcm => 12,
        }
    }

    /// Starts an encryption under the content encryption key, with the IV and the additional data. The caller must know that the key and
    /// the IV have the lengths of the algorithm.
    #[tactic(auto, unfolding(crate::specs::Sealing::sealing))]
    pub fn seal(self, cek: &[u8], iv: &[u8], aad: &[u8]) -> ContentSealer
        requires cek_fits { length cek.now ≡ cek_len self }
        requires iv_fits { length iv.now ≡ iv_len self }
        ensures { ⟦<ContentSealer as Sealer>⟧.is_sealing result (sealing self cek.now iv.now aad.now) [] }
    {
        match self {
            ContentAlg::A128CbcHs256 => ContentSealer::A128CbcHs256(CbcHmac::start(cek, iv, aad)),
            ContentAlg::A192CbcHs384 => ContentSealer::A192CbcHs384(CbcHmac::start(cek, iv, aad)),
            ContentAlg::A256CbcHs512 => ContentSealer::A256CbcHs512(CbcHmac::start(cek, iv, aad)),
            ContentAlg::A128Gcm => ContentSealer::A128Gcm(start_gcm(cek, iv, aad)),
            ContentAlg::A192Gcm => ContentSealer::A192Gcm(start_gcm(cek, iv, aad)),
            ContentAlg::A256Gcm => ContentSealer::A256Gcm(start_gcm(cek, iv, aad)),
        }
    }

    /// Decrypts the ciphertext in `buf` to the plaintext at its front, and returns the length of the plaintext. Its padding, if there is
    /// one, is behind it. Returns `None` and leaves `buf` unchanged if no plaintext has this ciphertext and tag, for example under a key or
    /// an IV of another length.
    #[tactic(auto, unfolding(crate::specs::Sealing::sealing), using(crate::proofs::Openings::nothing_behind, crate::proofs::Openings::nothing_in_gcm))]
    pub fn open(
        self,
        cek: &[u8],
        iv: &[u8],
        aad: &[u8],
        buf: &mut [u8],
        tag: &[u8],
    ) -> Option<usize>
        ensures opened { IfSome result (λ n. (n ≤ length buf.old)
            × IsOpening self cek.now iv.now aad.now buf.old tag.now (take n buf.new)) }
        ensures rest { IfSome result (λ n. IsPaddingBehind n buf.old buf.new) }
        ensures nothing { IfNone result ((p : List ℕ) → IsOpening self cek.now iv.now aad.now buf.old tag.now p → ⊥) }
        ensures unchanged { IfNone result (buf.new ≡ buf.old) }
    {
        if cek.len() != self.cek_len() || iv.len() != self.iv_len() {
            return None;
        }
        match self {
            ContentAlg::A128CbcHs256 => open_cbc_hmac::<Aes128, Sha256>(cek, iv, aad, buf, tag),
            ContentAlg::A192CbcHs384 => open_cbc_hmac::<Aes192, Sha384>(cek, iv, aad, buf, tag),
            ContentAlg::A256CbcHs512 => open_cbc_hmac::<Aes256, Sha512>(cek, iv, aad, buf, tag),
            ContentAlg::A128Gcm => gcm_open(&Aes128::under(cek), &array(iv), aad, buf, tag),
            ContentAlg::A192Gcm => gcm_open(&Aes192::under(cek), &array(iv), aad, buf, tag),
            ContentAlg::A256Gcm => gcm_open(&Aes256::under(cek), &array(iv), aad, buf, tag),
        }
    }
}

/// An encryption by any of the content encryption algorithms.
#[derive(Drop)]
pub enum ContentSealer {
    A128CbcHs256(CbcHmac<Aes128, Sha256>),
    A192CbcHs384(CbcHmac<Aes192, Sha384>),
    A256CbcHs512(CbcHmac<Aes256, Sha512>),
    A128Gcm(Gcm<Aes128>),
    A192Gcm(Gcm<Aes192>),
    A256Gcm(Gcm<Aes256>),
}

impl Sealer for ContentSealer {
    ghost use Rattle.ciphers.specs.Code.Views.{HoldsSealing, sealing_keeps_pace};

    ghost is_sealing = { λ x s p. HoldsSealing (record {
      aes128 = ⟦<Aes128 as Block>⟧.encrypted;
      aes192 = ⟦<Aes192 as Block>⟧.encrypted;
      aes256 = ⟦<Aes256 as Block>⟧.encrypted;
      sha256 = ⟦<Sha256 as Hash>⟧.function;
      sha384 = ⟦<Sha384 as Hash>⟧.function;
      sha512 = ⟦<Sha512 as Hash>⟧.function;
      holds_sha256 = ⟦<Sha256 as Hash>⟧.holds;
      holds_sha384 = ⟦<Sha384 as Hash>⟧.holds;
      holds_sha512 = ⟦<Sha512 as Hash>⟧.holds;
    }) x s p };

    fn feed(&mut self, piece: &[u8], out: &mut [u8; SEALED_PIECE]) -> Result<usize, Refusal> {
        match self {
            ContentSealer::A128CbcHs256(sealer) => Sealer::feed(sealer, piece, out),
            ContentSealer::A192CbcHs384(sealer) => Sealer::feed(sealer, piece, out),
            ContentSealer::A256CbcHs512(sealer) => Sealer::feed(sealer, piece, out),
            ContentSealer::A128Gcm(sealer) => Sealer::feed(sealer, piece, out),
            ContentSealer::A192Gcm(sealer) => Sealer::feed(sealer, piece, out),
            ContentSealer::A256Gcm(sealer) => Sealer::feed(sealer, piece, out),
        }
    }

    fn finish(self, last: &mut [u8; 16], tag: &mut [u8; 32]) -> (usize, usize) {
        match self {
            ContentSealer::A128CbcHs256(sealer) => Sealer::finish(sealer, last, tag),
            ContentSealer::A192CbcHs384(sealer) => Sealer::finish(sealer, last, tag),
            ContentSealer::A256CbcHs512(sealer) => Sealer::finish(sealer, last, tag),
            ContentSealer::A128Gcm(sealer) => Sealer::finish(sealer, last, tag),
            ContentSealer::A192Gcm(sealer) => Sealer::finish(sealer, last, tag),
            ContentSealer::A256Gcm(sealer) => Sealer::finish(sealer, last, tag),
        }
    }

    ghost keeps_pace = { λ x s p. sealing_keeps_pace _ x s p };
}
