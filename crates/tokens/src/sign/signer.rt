//! A key, and how it signs.
ghost use Rattle.std.specs.Prelude.{◌≡◌, false};
ghost use Rattle.serde_json.specs.View.{members_view};
ghost use Rattle.serde_json.specs.Written.{members_have_float};

use keys::{Key, SignatureAlg};
use serde_json::{Map, Value};

/// A key, the algorithm that it signs by, and the protected header of its signature, which has a compact text.
#[derive(Drop)]
pub(crate) struct Signer<'k> {
    pub(crate) key: &'k Key,
    pub(crate) alg: SignatureAlg,
    pub(crate) protected: Map<String, Value>,
    ghost no_float: { members_have_float (members_view protected.entries) ≡ false },
}
