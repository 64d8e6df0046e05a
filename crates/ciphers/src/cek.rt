//! Content encryption keys.
ghost use Rattle.std.specs.Prelude.{◌≡◌, ◌≤◌, length};

use std::marker::Model;

/// A content encryption key, of at most 64 octets. Contracts see it as its octets.
#[derive(Drop)]
pub struct Cek {
    octets: [u8; 64],
    len: usize,
}

impl Model for Cek {
    ghost use Rattle.std.specs.Prelude.{◌≤◌, List, ℕ, take};

    ghost Value = { List ℕ };

    ghost view = { λ cek. take cek.len cek.octets };

    ghost invariant = { λ cek. cek.len ≤ 64 };
}

impl Cek {
    /// The key of these octets.
    pub fn new(octets: &[u8]) -> Cek
        requires { length octets.now ≤ 64 }
        ensures { result ≡ octets.now }
    {
        let mut array = [0; 64];
        let len = octets.len();
        array[..len].copy_from_slice(octets);
        Cek { octets: array, len }
    }

    /// Its octets.
    pub fn octets(&self) -> &[u8]
        ensures { result.now ≡ self.now }
    {
        &self.octets[..self.len]
    }
}
