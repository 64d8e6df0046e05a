//! The HMAC of a message, which is a signature (RFC 7518 section 3.2).
ghost use Rattle.std.specs.Prelude.{◌≡◌, ℕ, List};
ghost use Rattle.prf.specs.Hmac.{hmac};
ghost use Rattle.prf.specs.Code.Views.{HoldsHmac};

use prf::{Hash, Hmac};
use std::marker::Model;

/// The length of the base64url text of the longest HMAC, which has 64 octets.
pub(crate) const MAC_TEXT: usize = 86;

/// A whole HMAC. Contracts see its octets.
#[derive(Drop)]
pub(crate) struct Mac {
    octets: [u8; 64],
    len: usize,
}

impl Model for Mac {
    ghost use Rattle.std.specs.Prelude.{◌≤◌, List, ℕ, take};

    ghost Value = { List ℕ };

    ghost view = { λ s. take s.len s.octets };

    ghost invariant = { λ s. s.len ≤ 64 };
}

impl Mac {
    /// The HMAC of all that was fed.
    pub(crate) fn finish<H: Hash>(mac: Hmac<H>) -> Mac
        ensures { (key text : List ℕ) → HoldsHmac H.function H.holds mac key text → result ≡ hmac H.function key text }
    {
        let mut octets = [0u8; 64];
        let len = mac.finish(&mut octets);
        Mac { octets, len }
    }

    pub(crate) fn octets(&self) -> &[u8]
        ensures { result.now ≡ self.now }
    {
        &self.octets[..self.len]
    }
}
