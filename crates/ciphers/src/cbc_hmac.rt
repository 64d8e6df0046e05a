//! AES-CBC with HMAC (RFC 7518 section 5.2), over any block cipher and hash function.
ghost use Rattle.std.specs.Prelude.{◌≡◌, ℕ, ◌*◌, ◌≤◌, List, [], length, take, IfSome, IfNone};
ghost use Rattle.ciphers.specs.Algorithms.{aes_cbc_hmac, content_family};
ghost use Rattle.ciphers.specs.Sealing.{Sealing, sealing_in, IsOpening};
ghost use Rattle.ciphers.specs.Code.Views.{IsPaddingBehind};
ghost use Rattle.ciphers.specs.declared.content_alg.ContentAlg.{ContentAlg};

use crate::arrays::array;
use crate::authentication::Authentication;
use crate::kek::Keyed;
use crate::sealer::Sealer;
use aes::Block;
use modes::{Cbc, cbc_open};
use octets::{Refusal, SEALED_PIECE, same_octets};
use prf::Hash;

/// The encryption of a plaintext that comes in pieces.
#[derive(Drop)]
pub struct CbcHmac<B: Block, H: Hash> {
    cbc: Cbc<B>,
    authentication: Authentication<H>,
}

impl<B: Keyed, H: Hash> CbcHmac<B, H> {
    ghost use Rattle.ciphers.specs.Code.Views.{HoldsCbcHmac};

    /// Starts the encryption under a content encryption key, before any of the plaintext. The first half of this key is the MAC key, and the
    /// second half is the AES key (section 5.2.2.1, step 1).
    pub(crate) fn start(cek: &[u8], iv: &[u8], aad: &[u8]) -> CbcHmac<B, H>
        requires cek_fits { length cek.now ≡ 8 * B.words }
        requires iv_fits { length iv.now ≡ 16 }
        ensures { (s : Sealing) → s ≡ sealing_in (aes_cbc_hmac B.words H.function) cek.now iv.now aad.now
            → HoldsCbcHmac B.encrypted H.function H.holds result s [] }
    {
        let (mac_key, key) = cek.split_at(cek.len() / 2);
        CbcHmac {
            cbc: Cbc::start(B::under(key), &array(iv)),
            authentication: Authentication::start(mac_key, iv, aad),
        }
    }
}

impl<B: Block, H: Hash> Sealer for CbcHmac<B, H> {
    ghost use Rattle.ciphers.specs.Code.Views.{HoldsCbcHmac};

    ghost is_sealing = { HoldsCbcHmac B.encrypted H.function H.holds };

    fn feed(&mut self, piece: &[u8], out: &mut [u8; SEALED_PIECE]) -> Result<usize, Refusal> {
        let written = self.cbc.feed(piece, out);
        self.authentication.update(&out[..written]);
        Ok(written)
    }

    fn finish(self, last: &mut [u8; 16], tag: &mut [u8; 32]) -> (usize, usize) {
        let CbcHmac {
            cbc,
            mut authentication,
        } = self;
        cbc.finish(last);
        authentication.update(last);
        (16, authentication.finish(tag))
    }

    ghost keeps_pace = { λ x s p r. r.pace };
}

/// Decrypts the ciphertext in `buf` if the tag is right (section 5.2.2.2). The halves of the content encryption key are those of `start`.
pub(crate) fn open_cbc_hmac<B: Keyed, H: Hash>(
    cek: &[u8],
    iv: &[u8],
    aad: &[u8],
    buf: &mut [u8],
    tag: &[u8],
) -> Option<usize>
    requires cek_fits { length cek.now ≡ 8 * B.words }
    requires iv_fits { length iv.now ≡ 16 }
    ensures opened { (alg : ContentAlg) → content_family alg ≡ aes_cbc_hmac B.words H.function
        → IfSome result (λ n. (n ≤ length buf.old) × IsOpening alg cek.now iv.now aad.now buf.old tag.now (take n buf.new)) }
    ensures rest { IfSome result (λ n. IsPaddingBehind n buf.old buf.new) }
    ensures nothing { (alg : ContentAlg) → content_family alg ≡ aes_cbc_hmac B.words H.function
        → IfNone result ((p : List ℕ) → IsOpening alg cek.now iv.now aad.now buf.old tag.now p → ⊥) }
    ensures unchanged { IfNone result (buf.new ≡ buf.old) }
{
    let (mac_key, key) = cek.split_at(cek.len() / 2);
    let mut authentication = Authentication::<H>::start(mac_key, iv, aad);
    authentication.update(buf);
    let mut expected = [0; 32];
    let len = authentication.finish(&mut expected);
    if !same_octets(&expected[..len], tag) {
        return None;
    }
    cbc_open(&B::under(key), &array(iv), buf)
}
