//! A recipient's key with a salt input, and the keys that PBES2 derives from it (RFC 7518 section 4.8.1).
ghost use Rattle.std.specs.Prelude.{◌≡◌, ℕ, ◌*◌, ◌≤◌, List, ◌∷◌, ◌++◌, IfSome, codes, length};
ghost use Rattle.ciphers.specs.Delivery.{derived_key};
ghost use Rattle.octets.specs.Octets.{IsOctets};
ghost use Rattle.prf.specs.Pbkdf2.{block_count, iterate};
ghost use Rattle.prf.specs.Sha2.{sha256_function, sha384_function, sha512_function};

use octets::laws::are_octets;
use prf::{Hash, Sha256, Sha384, Sha512, first_iterate, pbkdf2_after};
use std::marker::Model;

/// A recipient's key, with a salt input p2s (RFC 7518 section 4.8.1.1). It keeps the first iterate of PBKDF2 for each hash that was needed
/// so far, so the salt is hashed once for each hash. Contracts see it as the key and p2s.
#[derive(Drop)]
pub struct SaltedKey<'a> {
    key: &'a [u8],
    p2s: &'a [u8],
    hs256: Option<[u8; 32]>,
    hs384: Option<[u8; 48]>,
    hs512: Option<[u8; 64]>,
}

impl<'a> Model for SaltedKey<'a> {
    ghost use Rattle.ciphers.specs.Code.Salted.{Salted, KeepsFirst};

    ghost Value = { Salted };

    ghost view = { λ s. record { key = s.key.now; p2s = s.p2s.now } };

    ghost invariant = { λ s. KeepsFirst s.key.now s.p2s.now s.hs256 s.hs384 s.hs512 };
}

impl<'a> SaltedKey<'a> {
    /// A key with a salt input for `KeyAlg::unwrap_cek_salted` (section 4.8.1.1). Both may have any length.
    pub fn new(key: &'a [u8], p2s: &'a [u8]) -> SaltedKey<'a>
        ensures { result ≡ record { key = key.now; p2s = p2s.now } }
    {
        SaltedKey {
            key,
            p2s,
            hs256: None,
            hs384: None,
            hs512: None,
        }
    }

    /// Salts the key with another p2s, and forgets what was kept. The p2s may have any length.
    pub fn salt(&mut self, p2s: &'a [u8])
        ensures { self.new ≡ record { key = self.old.key; p2s = p2s.entry.now } }
    {
        *self = SaltedKey::new(self.key, p2s);
    }

    /// The octets of the key.
    pub(crate) fn octets(&self) -> &'a [u8]
        ensures key { result.now ≡ self.now.key }
        ensures octets { IsOctets result.now }
    {
        are_octets(self.key);
        self.key
    }

    /// The key that PBES2-HS256+A128KW derives. The number counts the HMAC calls.
    pub(crate) fn derive_by_sha256(&mut self, p2c: u32) -> ([u8; 16], u64)
        requires { 1 ≤ p2c }
        ensures key { result.0 ≡ derived_key sha256_function (codes "PBES2-HS256+A128KW") 16 self.old.key self.old.p2s p2c }
        ensures calls { result.1 ≡ p2c }
        ensures same { self.new ≡ self.old }
    {
        let prefix = b"PBES2-HS256+A128KW\0";
        let first = keep_first::<Sha256, 32>(prefix, self.key, self.p2s, &mut self.hs256);
        derive_key::<Sha256, 16>(self.key, &first, p2c)
    }

    /// The key that PBES2-HS384+A192KW derives. The number counts the HMAC calls.
    pub(crate) fn derive_by_sha384(&mut self, p2c: u32) -> ([u8; 24], u64)
        requires { 1 ≤ p2c }
        ensures key { result.0 ≡ derived_key sha384_function (codes "PBES2-HS384+A192KW") 24 self.old.key self.old.p2s p2c }
        ensures calls { result.1 ≡ p2c }
        ensures same { self.new ≡ self.old }
    {
        let prefix = b"PBES2-HS384+A192KW\0";
        let first = keep_first::<Sha384, 48>(prefix, self.key, self.p2s, &mut self.hs384);
        derive_key::<Sha384, 24>(self.key, &first, p2c)
    }

    /// The key that PBES2-HS512+A256KW derives. The number counts the HMAC calls.
    pub(crate) fn derive_by_sha512(&mut self, p2c: u32) -> ([u8; 32], u64)
        requires { 1 ≤ p2c }
        ensures key { result.0 ≡ derived_key sha512_function (codes "PBES2-HS512+A256KW") 32 self.old.key self.old.p2s p2c }
        ensures calls { result.1 ≡ p2c }
        ensures same { self.new ≡ self.old }
    {
        let prefix = b"PBES2-HS512+A256KW\0";
        let first = keep_first::<Sha512, 64>(prefix, self.key, self.p2s, &mut self.hs512);
        derive_key::<Sha512, 32>(self.key, &first, p2c)
    }
}

/// Returns the first iterate with a salt that begins with this prefix (RFC 8018 section 5.2 step 3). The first call computes and keeps it.
fn keep_first<H: Hash, const L: usize>(
    prefix: &[u8],
    password: &[u8],
    p2s: &[u8],
    kept: &mut Option<[u8; L]>,
) -> [u8; L]
    requires whole { L ≡ H.function.output_len }
    requires kept { IfSome kept.old (λ first. first ≡ iterate H.function password.now (prefix.now ++ p2s.now) 1 1) }
    ensures first { result ≡ iterate H.function password.now (prefix.now ++ p2s.now) 1 1 }
    ensures keeps { IfSome kept.new (λ first. first ≡ iterate H.function password.now (prefix.now ++ p2s.now) 1 1) }
{
    if let Some(first) = kept {
        return *first;
    }
    let mut out = [0; 64];
    let len = first_iterate::<H>(password, [prefix, p2s], &mut out);
    let mut first = [0; L];
    first.copy_from_slice(&out[..len]);
    *kept = Some(first);
    first
}

/// Derives a key from a password and the first iterate (RFC 8018 section 5.2). The number counts the HMAC calls.
fn derive_key<H: Hash, const N: usize>(password: &[u8], first: &[u8], p2c: u32) -> ([u8; N], u64)
    requires whole { length first.now ≡ H.function.output_len }
    requires size { N ≤ H.function.output_len }
    requires iterated { 1 ≤ p2c }
    ensures key { (name p2s : List ℕ) → first.now ≡ iterate H.function password.now (name ++ 0 ∷ p2s) 1 1
        → result.0 ≡ derived_key H.function name N password.now p2s p2c }
    ensures calls { result.1 ≡ p2c * block_count H.function N }
{
    let mut key = [0; N];
    let calls = pbkdf2_after::<H>(password, first, p2c, &mut key);
    (key, calls)
}
