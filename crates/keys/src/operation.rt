//! The operations that a key may be used for (RFC 7517 section 4.3).
ghost use Rattle.std.specs.Prelude.{◌≡◌, map};
ghost use Rattle.keys.specs.Operations.{operation_name, derivation_names, operation_names, operation_use};
ghost use Rattle.keys.specs.Algorithms.{management_operations};
ghost use Rattle.keys.specs.Texts.{is_among};

use crate::texts::is_among;
use ciphers::{KeyAlg, KeyManagementMode};

/// What a key may be used for (RFC 7517 section 4.3).
#[derive(Clone, Copy, Debug, PartialEq, Eq)]
pub enum Operation {
    Sign,
    Verify,
    /// Encrypt content with the key itself.
    Encrypt,
    /// Decrypt content with the key itself.
    Decrypt,
    /// Wrap a content encryption key.
    WrapKey,
    /// Unwrap a content encryption key.
    UnwrapKey,
    /// Wrap with a key that is derived from this one.
    WrapByPassword,
    /// Unwrap with a key that is derived from this one.
    UnwrapByPassword,
}

impl Operation {
    /// What a sender and a recipient do with a key for this algorithm.
    pub fn of_management(alg: KeyAlg) -> (Operation, Operation)
        ensures { result ≡ management_operations alg }
    {
        match alg.mode() {
            KeyManagementMode::Direct => (Operation::Encrypt, Operation::Decrypt),
            KeyManagementMode::KeyWrap | KeyManagementMode::GcmKeyWrap => {
                (Operation::WrapKey, Operation::UnwrapKey)
            }
            KeyManagementMode::Password => {
                (Operation::WrapByPassword, Operation::UnwrapByPassword)
            }
        }
    }

    /// Its name in `key_ops`.
    pub(crate) fn name(self) -> &'static str
        ensures { result.now ≡ operation_name self }
    {
        match self {
            Operation::Sign => "sign",
            Operation::Verify => "verify",
            Operation::Encrypt => "encrypt",
            Operation::Decrypt => "decrypt",
            Operation::WrapKey | Operation::WrapByPassword => "wrapKey",
            Operation::UnwrapKey | Operation::UnwrapByPassword => "unwrapKey",
        }
    }

    /// The names in `key_ops` of the derivation by which a password wraps.
    fn derivation_names(self) -> &'static [&'static str]
        ensures { map (λ name. name.now) result.now ≡ derivation_names self }
    {
        match self {
            Operation::WrapByPassword | Operation::UnwrapByPassword => &["deriveKey", "deriveBits"],
            _ => &[],
        }
    }

    /// Whether this name in `key_ops` allows it.
    pub(crate) fn is_allowed_by(self, name: &str) -> bool
        ensures { result ≡ is_among (operation_names self) name.now }
    {
        self.name() == name || is_among(self.derivation_names(), name)
    }

    /// The `use` that allows it (RFC 7517 section 4.2).
    pub(crate) fn key_use(self) -> &'static str
        ensures { result.now ≡ operation_use self }
    {
        match self {
            Operation::Sign | Operation::Verify => "sig",
            _ => "enc",
        }
    }
}
