//! What a template and keys settle of an encryption.
ghost use Rattle.std.specs.Prelude.{◌≡◌, ◌≤◌, ◌||◌, true, false, not, length, nat_le};
ghost use Rattle.std.specs.List.{list_all};
ghost use Rattle.serde_json.specs.View.{members_view};
ghost use Rattle.serde_json.specs.Written.{members_have_float};
ghost use Rattle.keys.specs.declared.algorithm.Algorithm.TheVariants.{Encryption as EncryptionWith};
ghost use Rattle.ciphers.specs.Algorithms.{is_password_based};
ghost use Rattle.keys.specs.Keys.{fits};
ghost use Rattle.keys.specs.Limits.{limits};
ghost use Rattle.keys.specs.Code.Views.{key_view};
ghost use Rattle.tokens.specs.Choosing.{is_direct};

use crate::encrypt::recipient_key::RecipientKey;
use ciphers::ContentAlg;
use serde_json::{Map, Value};

/// What the template has of key management, which is then not written for the recipients: the name of the algorithm, and the iterations.
#[derive(Clone, Copy)]
pub(crate) struct Given {
    pub(crate) alg: bool,
    pub(crate) p2c: bool,
}

/// The content encryption; the recipient keys, which fit; the iterations, which are 0 if no key is a password; the headers without what is
/// written for the recipients; and the additional data. A key that is used directly is the only one.
#[derive(Drop)]
pub(crate) struct EncryptionPlan<'k> {
    pub(crate) encryption: ContentAlg,
    pub(crate) recipient_keys: Vec<RecipientKey<'k>>,
    pub(crate) given: Given,
    pub(crate) p2c: u32,
    pub(crate) protected: Map<String, Value>,
    pub(crate) unprotected: Map<String, Value>,
    pub(crate) aad: Vec<u8>,
    ghost few: { length recipient_keys.items ≤ limits.keys },
    ghost no_float: { members_have_float (members_view protected.entries) ≡ false },
    ghost fit: { list_all (λ r. fits (key_view r.key.now) (EncryptionWith r.management encryption)) recipient_keys.items ≡ true },
    ghost counted: { list_all (λ r. not (is_password_based r.management) || nat_le 1 p2c) recipient_keys.items ≡ true },
    ghost alone: { list_all (λ r. not (is_direct r.management) || nat_le (length recipient_keys.items) 1) recipient_keys.items ≡ true },
}
