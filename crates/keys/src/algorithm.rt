//! The algorithms of signatures, and what every algorithm asks of a key: its name, its length, and the operations that it serves. It sees no
//! key and no JSON.
ghost use Rattle.std.specs.Prelude.{◌≡◌, ◌≤◌, true, Some};
ghost use Rattle.keys.specs.Algorithms.{signature_algs, signature_name, signature_alg_of, longest_alg_for, named_alg_of, hash_len, management_key_len, key_len, named_key_len, has_len, usual_len, operations};
ghost use Rattle.keys.specs.Generating.{is_within_limit};
ghost use Rattle.keys.specs.Limits.{limits};

use crate::operation::Operation;
use ciphers::{ContentAlg, KeyAlg, KeyManagementMode};

/// An algorithm of signatures (RFC 7518 section 3.1): a value of `alg` in a JWS.
#[derive(Clone, Copy, Debug, PartialEq, Eq)]
pub enum SignatureAlg {
    /// HMAC with SHA-256.
    Hs256,
    /// HMAC with SHA-384.
    Hs384,
    /// HMAC with SHA-512.
    Hs512,
}

/// What a key serves: a signature, or the delivery of a content encryption key.
#[derive(Clone, Copy, Debug, PartialEq, Eq)]
pub enum Algorithm {
    Signature(SignatureAlg),
    Encryption(KeyAlg, ContentAlg),
}

/// What the `alg` of a key may name (RFC 7517 section 4.4).
#[derive(Clone, Copy)]
pub(crate) enum NamedAlg {
    Signature(SignatureAlg),
    Management(KeyAlg),
    Encryption(ContentAlg),
}

/// How long a key is, in octets.
#[derive(Clone, Copy)]
pub(crate) enum KeyLen {
    AtLeast(usize),
    Exactly(usize),
    Any,
}

impl SignatureAlg {
    /// All of them.
    pub fn all() -> &'static [SignatureAlg]
        ensures { result.now ≡ signature_algs }
    {
        &[
            SignatureAlg::Hs256,
            SignatureAlg::Hs384,
            SignatureAlg::Hs512,
        ]
    }

    /// The algorithm of this name.
    #[tactic(auto, unfolding(crate::specs::Algorithms::signature_alg_of))]
    pub fn named(name: &str) -> Option<SignatureAlg>
        ensures { result ≡ signature_alg_of name.now }
    {
        match name {
            "HS256" => Some(SignatureAlg::Hs256),
            "HS384" => Some(SignatureAlg::Hs384),
            "HS512" => Some(SignatureAlg::Hs512),
            _ => None,
        }
    }

    /// Its name.
    #[tactic(auto, unfolding(crate::specs::Algorithms::signature_alg_of))]
    pub fn name(self) -> &'static str
        ensures name { result.now ≡ signature_name self }
        ensures found { signature_alg_of result.now ≡ Some self }
    {
        match self {
            SignatureAlg::Hs256 => "HS256",
            SignatureAlg::Hs384 => "HS384",
            SignatureAlg::Hs512 => "HS512",
        }
    }

    /// The algorithm with the longest hash that a key of so many octets is long enough for (RFC 7518 section 3.2).
    pub fn longest_for(key_len: usize) -> Option<SignatureAlg>
        ensures { result ≡ longest_alg_for key_len }
    {
        if key_len >= 64 {
            Some(SignatureAlg::Hs512)
        } else if key_len >= 48 {
            Some(SignatureAlg::Hs384)
        } else if key_len >= 32 {
            Some(SignatureAlg::Hs256)
        } else {
            None
        }
    }

    /// The octets of its hash: the length of a signature, and the least length of a key (RFC 7518 section 3.2).
    pub fn hash_len(self) -> usize
        ensures len { result ≡ hash_len self }
        ensures most { result ≤ 64 }
    {
        match self {
            SignatureAlg::Hs256 => 32,
            SignatureAlg::Hs384 => 48,
            SignatureAlg::Hs512 => 64,
        }
    }
}

impl Algorithm {
    /// How long its keys are.
    pub(crate) fn key_len(self) -> KeyLen
        ensures { result ≡ key_len self }
    {
        match self {
            Algorithm::Signature(alg) => KeyLen::AtLeast(alg.hash_len()),
            Algorithm::Encryption(alg, enc) => match alg.mode() {
                KeyManagementMode::Direct => KeyLen::Exactly(enc.cek_len()),
                KeyManagementMode::KeyWrap
                | KeyManagementMode::Password
                | KeyManagementMode::GcmKeyWrap => KeyLen::of_management(alg),
            },
        }
    }
}

impl NamedAlg {
    /// The algorithm of this name.
    #[tactic(auto, unfolding(crate::specs::Algorithms::named_alg_of))]
    pub(crate) fn named(name: &str) -> Option<NamedAlg>
        ensures { result ≡ named_alg_of name.now }
    {
        if let Some(alg) = SignatureAlg::named(name) {
            return Some(NamedAlg::Signature(alg));
        }
        if let Some(alg) = KeyAlg::named(name) {
            return Some(NamedAlg::Management(alg));
        }
        match ContentAlg::named(name) {
            None => None,
            Some(alg) => Some(NamedAlg::Encryption(alg)),
        }
    }

    /// How long its keys are.
    pub(crate) fn key_len(self) -> KeyLen
        ensures len { result ≡ named_key_len self }
        ensures most { is_within_limit limits (usual_len result) ≡ true }
    {
        match self {
            NamedAlg::Signature(alg) => KeyLen::AtLeast(alg.hash_len()),
            NamedAlg::Management(alg) => KeyLen::of_management(alg),
            NamedAlg::Encryption(enc) => KeyLen::Exactly(enc.cek_len()),
        }
    }

    /// The operations of a sender and a recipient.
    pub(crate) fn operations(self) -> (Operation, Operation)
        ensures { result ≡ operations self }
    {
        match self {
            NamedAlg::Signature(_) => (Operation::Sign, Operation::Verify),
            NamedAlg::Management(alg) => Operation::of_management(alg),
            NamedAlg::Encryption(_) => (Operation::Encrypt, Operation::Decrypt),
        }
    }
}

impl KeyLen {
    /// How long the keys of this algorithm are, where no algorithm of content encryption says it.
    pub(crate) fn of_management(alg: KeyAlg) -> KeyLen
        ensures len { result ≡ management_key_len alg }
        ensures most { is_within_limit limits (usual_len result) ≡ true }
    {
        match alg.mode() {
            KeyManagementMode::KeyWrap | KeyManagementMode::GcmKeyWrap => {
                KeyLen::Exactly(alg.kek_len())
            }
            KeyManagementMode::Direct | KeyManagementMode::Password => KeyLen::Any,
        }
    }

    /// A key may have so many octets.
    pub(crate) fn allows(self, len: usize) -> bool
        ensures { result ≡ has_len self len }
    {
        match self {
            KeyLen::AtLeast(n) => len >= n,
            KeyLen::Exactly(n) => len == n,
            KeyLen::Any => true,
        }
    }

    /// The length of a key where nothing else says it.
    pub(crate) fn usual(self) -> Option<usize>
        ensures { result ≡ usual_len self }
    {
        match self {
            KeyLen::AtLeast(n) | KeyLen::Exactly(n) => Some(n),
            KeyLen::Any => None,
        }
    }
}
