//! The algorithms of key management (RFC 7518 sections 4.4, 4.5, 4.7 and 4.8).
ghost use Rattle.std.specs.Prelude.{◌≡◌, ℕ, ◌%◌, ◌≤◌, List, [], length, take, drop, Some, IfSome, IfNone};
ghost use Rattle.ciphers.specs.Algorithms.{management_algs, management_name, management_alg_of, mode_of, kek_len, is_password_based};
ghost use Rattle.ciphers.specs.Delivery.{way_of, encrypted_key_of, key_tag_of, IsDelivered};
ghost use Rattle.ciphers.specs.Code.Demands.{IsKeyOf, IsCountOf, IsIvOf, IsSaltOf, iteration_count};
ghost use Rattle.ciphers.specs.KeyWrap.{IsUnwrapping};
ghost use Rattle.ciphers.specs.Sealing.{cek_len};
ghost use Rattle.ciphers.specs.Code.Views.{parameters_view, way_view, calls_made};
ghost use Rattle.modes.specs.Gcm.{gcm_ciphertext, gcm_tag};
ghost use Rattle.modes.specs.Code.Opening.{IsGcmOpening};

use crate::arrays::array;
use crate::cek::Cek;
use crate::content_alg::ContentAlg;
use crate::kek::{Kek, Keyed, Way};
use crate::key_wrap::{unwrap, wrap};
use crate::salted_key::SaltedKey;
use aes::{Aes128, Aes192, Aes256, Block};
use modes::{Gcm, gcm_open};
use octets::SEALED_PIECE;

/// An algorithm of key management: how a recipient's key delivers a content encryption key. It is a value of `alg` (RFC 7518 section 4.1).
#[derive(Clone, Copy, Debug, PartialEq, Eq)]
pub enum KeyAlg {
    /// The key is the content encryption key: `dir`.
    Dir,
    /// AES key wrap with a key of 128 bits: `A128KW`.
    A128Kw,
    /// AES key wrap with a key of 192 bits: `A192KW`.
    A192Kw,
    /// AES key wrap with a key of 256 bits: `A256KW`.
    A256Kw,
    /// Encryption by AES in GCM with a key of 128 bits: `A128GCMKW`.
    A128GcmKw,
    /// Encryption by AES in GCM with a key of 192 bits: `A192GCMKW`.
    A192GcmKw,
    /// Encryption by AES in GCM with a key of 256 bits: `A256GCMKW`.
    A256GcmKw,
    /// AES key wrap with a key of 128 bits that is derived from a password by HMAC SHA-256: `PBES2-HS256+A128KW`.
    Pbes2Hs256A128Kw,
    /// AES key wrap with a key of 192 bits that is derived from a password by HMAC SHA-384: `PBES2-HS384+A192KW`.
    Pbes2Hs384A192Kw,
    /// AES key wrap with a key of 256 bits that is derived from a password by HMAC SHA-512: `PBES2-HS512+A256KW`.
    Pbes2Hs512A256Kw,
}

/// How a key delivers the content encryption key (RFC 7518 section 4).
#[derive(Clone, Copy, Debug, PartialEq, Eq)]
pub enum KeyManagementMode {
    /// It is that key (section 4.5).
    Direct,
    /// It wraps it by AES key wrap (section 4.4).
    KeyWrap,
    /// It is a password, from which the key of an AES key wrap is derived (section 4.8).
    Password,
    /// It wraps it by AES in GCM (section 4.7).
    GcmKeyWrap,
}

/// The header parameters of a recipient that its algorithm reads: the initialization vector and the tag of an encryption in GCM
/// (section 4.7.1), or the salt input p2s and the count p2c of a password (section 4.8.1). Those that it does not read may be anything. So
/// may the tag when a key is wrapped.
#[derive(Clone, Copy)]
pub struct KeyParameters<'p> {
    pub iv: &'p [u8],
    pub tag: &'p [u8],
    pub p2s: &'p [u8],
    pub p2c: u32,
}

impl KeyAlg {
    /// All of them.
    pub fn all() -> &'static [KeyAlg]
        ensures { result.now ≡ management_algs }
    {
        &[
            KeyAlg::Dir,
            KeyAlg::A128Kw,
            KeyAlg::A192Kw,
            KeyAlg::A256Kw,
            KeyAlg::Pbes2Hs256A128Kw,
            KeyAlg::Pbes2Hs384A192Kw,
            KeyAlg::Pbes2Hs512A256Kw,
            KeyAlg::A128GcmKw,
            KeyAlg::A192GcmKw,
            KeyAlg::A256GcmKw,
        ]
    }

    /// The algorithm of this name.
    #[tactic(auto, unfolding(crate::specs::Algorithms::management_alg_among))]
    pub fn named(name: &str) -> Option<KeyAlg>
        ensures { result ≡ management_alg_of name.now }
    {
        match name {
            "dir" => Some(KeyAlg::Dir),
            "A128KW" => Some(KeyAlg::A128Kw),
            "A192KW" => Some(KeyAlg::A192Kw),
            "A256KW" => Some(KeyAlg::A256Kw),
            "PBES2-HS256+A128KW" => Some(KeyAlg::Pbes2Hs256A128Kw),
            "PBES2-HS384+A192KW" => Some(KeyAlg::Pbes2Hs384A192Kw),
            "PBES2-HS512+A256KW" => Some(KeyAlg::Pbes2Hs512A256Kw),
            "A128GCMKW" => Some(KeyAlg::A128GcmKw),
            "A192GCMKW" => Some(KeyAlg::A192GcmKw),
            "A256GCMKW" => Some(KeyAlg::A256GcmKw),
            _ => None,
        }
    }

    /// Its name.
    #[tactic(auto, unfolding(crate::specs::Algorithms::management_alg_among))]
    pub fn name(self) -> &'static str
        ensures name { result.now ≡ management_name self }
        ensures found { management_alg_of result.now ≡ Some self }
    {
        match self {
            KeyAlg::Dir => "dir",
            KeyAlg::A128Kw => "A128KW",
            KeyAlg::A192Kw => "A192KW",
            KeyAlg::A256Kw => "A256KW",
            KeyAlg::Pbes2Hs256A128Kw => "PBES2-HS256+A128KW",
            KeyAlg::Pbes2Hs384A192Kw => "PBES2-HS384+A192KW",
            KeyAlg::Pbes2Hs512A256Kw => "PBES2-HS512+A256KW",
            KeyAlg::A128GcmKw => "A128GCMKW",
            KeyAlg::A192GcmKw => "A192GCMKW",
            KeyAlg::A256GcmKw => "A256GCMKW",
        }
    }

    /// How its key delivers the content encryption key.
    pub fn mode(self) -> KeyManagementMode
        ensures { result ≡ mode_of self }
    {
        match self {
            KeyAlg::Dir => KeyManagementMode::Direct,
            KeyAlg::A128Kw | KeyAlg::A192Kw | KeyAlg::A256Kw => { KeyManagementMode::KeyWrap }
            KeyAlg::Pbes2Hs256A128Kw | KeyAlg::Pbes2Hs384A192Kw | KeyAlg::Pbes2Hs512A256Kw =>
                KeyManagementMode::Password,
            KeyAlg::A128GcmKw | KeyAlg::A192GcmKw | KeyAlg::A256GcmKw =>
                KeyManagementMode::GcmKeyWrap,
        }
    }

    /// The octets of the key of the wrap: 16, 24 or 32, and 0 where there is none.
    pub fn kek_len(self) -> usize
        ensures len { result ≡ kek_len self }
        ensures most { result ≤ 32 }
    {
        match self {
            KeyAlg::Dir => 0,
            KeyAlg::A128Kw | KeyAlg::Pbes2Hs256A128Kw | KeyAlg::A128GcmKw => 16,
            KeyAlg::A192Kw | KeyAlg::Pbes2Hs384A192Kw | KeyAlg::A192GcmKw => 24,
            KeyAlg::A256Kw | KeyAlg::Pbes2Hs512A256Kw | KeyAlg::A256GcmKw => 32,
        }
    }

    /// Its key is a password, from which the key of the wrap is derived (RFC 7518 section 4.8).
    pub fn is_password_based(self) -> bool
        ensures { result ≡ is_password_based self }
    {
        match self.mode() {
            KeyManagementMode::Password => true,
            KeyManagementMode::Direct
            | KeyManagementMode::KeyWrap
            | KeyManagementMode::GcmKeyWrap => false,
        }
    }

    /// Encrypts the content encryption key, of 16 to 64 octets in parts of 8, to the front of `encrypted_key`. The first result is the
    /// length of the encrypted key: 0 for `Dir`, where `cek` must be the key itself; the length of `cek` in GCM; otherwise 8 octets more.
    /// The second result is the length of the tag at the front of `tag`: 16 in GCM, otherwise 0.
    pub fn wrap_cek(
        self,
        key: &[u8],
        parameters: KeyParameters<'_>,
        cek: &Cek,
        encrypted_key: &mut [u8; 72],
        tag: &mut [u8; 16],
    ) -> (usize, usize)
        requires key_fits { IsKeyOf self key.now }
        requires count_fits { IsCountOf self parameters.p2c }
        requires parts { length cek.now % 8 ≡ 0 }
        requires size { (16 ≤ length cek.now) × (length cek.now ≤ 64) }
        requires direct { self ≡ KeyAlg.Dir → cek.now ≡ key.now }
        requires iv_fits { IsIvOf self parameters.iv.now }
        ensures within { (result.0 ≤ 72) × (result.1 ≤ 16) }
        ensures encrypted { take result.0 encrypted_key.new ≡ encrypted_key_of self key.now (parameters_view parameters.entry) cek.now }
        ensures tag { take result.1 tag.new ≡ key_tag_of self key.now (parameters_view parameters.entry) cek.now }
        ensures rest { (drop result.0 encrypted_key.new ≡ drop result.0 encrypted_key.old) × (drop result.1 tag.new ≡ drop result.1 tag.old) }
    {
        let mut salted = SaltedKey::new(key, parameters.p2s);
        match self.way(&mut salted, parameters) {
            Way::Direct => (0, 0),
            Way::Wrap(kek, _) => {
                let octets = cek.octets();
                let len = octets.len() + 8;
                wrap(&kek, octets, &mut encrypted_key[..len]);
                (len, 0)
            }
            Way::Encrypt(kek) => {
                let len = encrypt_cek(kek, &array(parameters.iv), cek.octets(), encrypted_key, tag);
                (len, 16)
            }
        }
    }

    /// Returns the content encryption key for `enc` that the encrypted key delivers, or `None` if it delivers none. The number counts the
    /// iterations of PBKDF2 that were made. It is 0 unless the key is a password.
    pub fn unwrap_cek(
        self,
        enc: ContentAlg,
        key: &[u8],
        parameters: KeyParameters<'_>,
        encrypted_key: &[u8],
    ) -> (Option<Cek>, u64)
        requires key_fits { IsKeyOf self key.now }
        requires count_fits { IsCountOf self parameters.p2c }
        ensures delivers { IfSome result.0 (IsDelivered self enc key.now (parameters_view parameters.entry) encrypted_key.now) }
        ensures nothing { IfNone result.0 ((cek : List ℕ)
            → IsDelivered self enc key.now (parameters_view parameters.entry) encrypted_key.now cek → ⊥) }
        ensures iterations { result.1 ≡ iteration_count self parameters.entry.p2c }
    {
        let mut salted = SaltedKey::new(key, parameters.p2s);
        self.unwrap_cek_salted(enc, &mut salted, parameters, encrypted_key)
    }

    /// Returns what `unwrap_cek` returns. It is for many recipients with one p2s: all calls with one salted key hash p2s once for each
    /// hash. If the key is a password, it must be salted with the p2s of the parameters (section 4.8.1.1).
    pub fn unwrap_cek_salted(
        self,
        enc: ContentAlg,
        key: &mut SaltedKey<'_>,
        parameters: KeyParameters<'_>,
        encrypted_key: &[u8],
    ) -> (Option<Cek>, u64)
        requires key_fits { IsKeyOf self key.old.key }
        requires count_fits { IsCountOf self parameters.p2c }
        requires salt_fits { IsSaltOf self key.old.p2s parameters.p2s.now }
        ensures delivers { IfSome result.0 (IsDelivered self enc key.old.key (parameters_view parameters.entry) encrypted_key.now) }
        ensures nothing { IfNone result.0 ((cek : List ℕ)
            → IsDelivered self enc key.old.key (parameters_view parameters.entry) encrypted_key.now cek → ⊥) }
        ensures iterations { result.1 ≡ iteration_count self parameters.entry.p2c }
        ensures same { key.new ≡ key.old }
    {
        match self.way(key, parameters) {
            Way::Direct => (direct_cek(enc, key.octets(), encrypted_key), 0),
            Way::Wrap(kek, calls) => (unwrapped_cek(enc, &kek, encrypted_key), calls),
            Way::Encrypt(kek) => {
                let cek = opened_cek(enc, &kek, parameters.iv, encrypted_key, parameters.tag);
                (cek, 0)
            }
        }
    }

    /// How the key delivers a content encryption key, with the cipher and the work of deriving its key.
    fn way(self, key: &mut SaltedKey<'_>, parameters: KeyParameters<'_>) -> Way
        requires key_fits { IsKeyOf self key.old.key }
        requires count_fits { IsCountOf self parameters.p2c }
        requires salt_fits { IsSaltOf self key.old.p2s parameters.p2s.now }
        ensures way { way_view ⟦<Kek as Block>⟧.encrypted result ≡ way_of self key.old.key (parameters_view parameters.entry) }
        ensures calls { calls_made result ≡ iteration_count self parameters.entry.p2c }
        ensures same { key.new ≡ key.old }
    {
        match self {
            KeyAlg::Dir => Way::Direct,
            KeyAlg::A128Kw => Way::Wrap(Kek::A128(Aes128::under(key.octets())), 0),
            KeyAlg::A192Kw => Way::Wrap(Kek::A192(Aes192::under(key.octets())), 0),
            KeyAlg::A256Kw => Way::Wrap(Kek::A256(Aes256::under(key.octets())), 0),
            KeyAlg::A128GcmKw => Way::Encrypt(Kek::A128(Aes128::under(key.octets()))),
            KeyAlg::A192GcmKw => Way::Encrypt(Kek::A192(Aes192::under(key.octets()))),
            KeyAlg::A256GcmKw => Way::Encrypt(Kek::A256(Aes256::under(key.octets()))),
            KeyAlg::Pbes2Hs256A128Kw => {
                let (derived, calls) = key.derive_by_sha256(parameters.p2c);
                Way::Wrap(Kek::A128(Aes128::under(&derived)), calls)
            }
            KeyAlg::Pbes2Hs384A192Kw => {
                let (derived, calls) = key.derive_by_sha384(parameters.p2c);
                Way::Wrap(Kek::A192(Aes192::under(&derived)), calls)
            }
            KeyAlg::Pbes2Hs512A256Kw => {
                let (derived, calls) = key.derive_by_sha512(parameters.p2c);
                Way::Wrap(Kek::A256(Aes256::under(&derived)), calls)
            }
        }
    }
}

/// Encrypts the content encryption key in GCM to the front of `encrypted_key`, and returns the length, which is that of `cek` (section
/// 4.7).
fn encrypt_cek<B: Block>(
    kek: B,
    iv: &[u8; 12],
    cek: &[u8],
    encrypted_key: &mut [u8; 72],
    tag: &mut [u8; 16],
) -> usize
    requires size { length cek.now ≤ 64 }
    ensures within { result ≤ 72 }
    ensures encrypted { take result encrypted_key.new ≡ gcm_ciphertext (B.encrypted kek) iv.now cek.now }
    ensures rest { drop result encrypted_key.new ≡ drop result encrypted_key.old }
    ensures tag { tag.new ≡ gcm_tag (B.encrypted kek) iv.now [] (gcm_ciphertext (B.encrypted kek) iv.now cek.now) }
{
    let mut gcm = Gcm::start(kek, iv, &[]);
    let mut text = [0; SEALED_PIECE];
    let len = match gcm.feed(cek, &mut text) {
        Ok(len) => len,
        Err(_) => unreachable!(),
    };
    encrypted_key[..len].copy_from_slice(&text[..len]);
    *tag = gcm.finish();
    len
}

/// Decrypts the encrypted key in GCM, if it has the right length (section 4.7).
fn opened_cek<B: Block>(
    enc: ContentAlg,
    kek: &B,
    iv: &[u8],
    encrypted_key: &[u8],
    tag: &[u8],
) -> Option<Cek>
    ensures delivers { IfSome result (λ cek. (length cek ≡ cek_len enc) × (length iv.now ≡ 12)
        × IsGcmOpening (B.encrypted kek.now) iv.now [] encrypted_key.now tag.now cek) }
    ensures nothing { IfNone result ((cek : List ℕ) → length cek ≡ cek_len enc → length iv.now ≡ 12
        → IsGcmOpening (B.encrypted kek.now) iv.now [] encrypted_key.now tag.now cek → ⊥) }
{
    let len = enc.cek_len();
    if iv.len() != 12 {
        return None;
    }
    if encrypted_key.len() != len {
        return None;
    }
    let mut octets = [0; 64];
    let octets = &mut octets[..len];
    octets.copy_from_slice(encrypted_key);
    let n = gcm_open(kek, &array(iv), &[], octets, tag)?;
    Some(Cek::new(&octets[..n]))
}

/// Returns the key itself, if it has the right length and the encrypted key is empty (section 4.5).
fn direct_cek(enc: ContentAlg, key: &[u8], encrypted_key: &[u8]) -> Option<Cek>
    ensures delivers { IfSome result (λ cek. (cek ≡ key.now) × (length key.now ≡ cek_len enc)
        × (encrypted_key.now ≡ [])) }
    ensures nothing { IfNone result (length key.now ≡ cek_len enc → encrypted_key.now ≡ [] → ⊥) }
{
    if !encrypted_key.is_empty() || key.len() != enc.cek_len() {
        return None;
    }
    Some(Cek::new(key))
}

/// Unwraps the encrypted key, if it has the right length (section 4.4).
fn unwrapped_cek<B: Block>(enc: ContentAlg, kek: &B, encrypted_key: &[u8]) -> Option<Cek>
    ensures delivers { IfSome result (λ cek. (length cek ≡ cek_len enc)
        × IsUnwrapping (B.encrypted kek.now) encrypted_key.now cek) }
    ensures nothing { IfNone result ((cek : List ℕ) → length cek ≡ cek_len enc
        → IsUnwrapping (B.encrypted kek.now) encrypted_key.now cek → ⊥) }
{
    let len = enc.cek_len();
    if encrypted_key.len() != len + 8 {
        return None;
    }
    let mut octets = [0; 64];
    let octets = &mut octets[..len];
    unwrap(kek, encrypted_key, octets)?;
    Some(Cek::new(octets))
}
