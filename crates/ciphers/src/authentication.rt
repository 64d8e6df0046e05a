//! The authentication of AES-CBC with HMAC (RFC 7518 section 5.2.2.1).
ghost use Rattle.std.specs.Prelude.{◌≡◌, ℕ, ◌/◌, ◌≤◌, List, [], ◌++◌, length, take, drop};
ghost use Rattle.ciphers.specs.Sealing.{cbc_tag};

use prf::{Hash, Hmac};

/// The tag of a ciphertext that comes in pieces.
#[derive(Drop)]
pub(crate) struct Authentication<H: Hash> {
    mac: Hmac<H>,
    aad_bits: [u8; 8],
}

impl<H: Hash> Authentication<H> {
    ghost use Rattle.ciphers.specs.Code.Views.{HoldsAuthentication};

    /// Starts the tag, before any of the ciphertext.
    pub(crate) fn start(mac_key: &[u8], iv: &[u8], aad: &[u8]) -> Authentication<H>
        ensures { HoldsAuthentication H.function H.holds result mac_key.now iv.now aad.now [] }
    {
        let mut mac = Hmac::new(mac_key);
        mac.update(aad);
        mac.update(iv);
        Authentication {
            mac,
            aad_bits: (aad.len() as u64).wrapping_mul(8).to_be_bytes(),
        }
    }

    /// Takes the next piece of the ciphertext.
    pub(crate) fn update(&mut self, piece: &[u8])
        ensures { (mac_key iv aad c : List ℕ) → HoldsAuthentication H.function H.holds self.old mac_key iv aad c
            → HoldsAuthentication H.function H.holds self.new mac_key iv aad (c ++ piece.now) }
    {
        self.mac.update(piece);
    }

    /// Writes the tag to the front of `tag` and returns its length. The rest of `tag` is unchanged.
    pub(crate) fn finish(self, tag: &mut [u8; 32]) -> usize
        ensures within { result ≤ 32 }
        ensures tag { (mac_key iv aad c : List ℕ) → HoldsAuthentication H.function H.holds self mac_key iv aad c
            → take result tag.new ≡ cbc_tag H.function mac_key iv aad c }
        ensures rest { drop result tag.new ≡ drop result tag.old }
    {
        let Authentication { mut mac, aad_bits } = self;
        mac.update(&aad_bits);
        let mut code = [0; 64];
        let half = mac.finish(&mut code) / 2;
        tag[..half].copy_from_slice(&code[..half]);
        half
    }
}
