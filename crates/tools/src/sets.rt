//! What was read of the files of `jose-set`.
ghost use Rattle.std.specs.Prelude.{◌≡◌, false};
ghost use Rattle.serde_json.specs.View.{items_view};
ghost use Rattle.serde_json.specs.Written.{items_have_float};

use keys::KeySet;
use serde_json::Value;

/// What a text holds: its key objects, and their keys in the same order.
#[derive(Drop)]
pub(crate) struct HeldSet {
    /// It is a set, and not a key.
    pub(crate) is_set: bool,
    pub(crate) objects: Vec<Value>,
    pub(crate) keys: KeySet,
    ghost no_float: { items_have_float (items_view objects.items) ≡ false },
}

/// The key objects of some texts, and their keys in the same order.
#[derive(Drop)]
pub(crate) struct JoinedSet {
    pub(crate) objects: Vec<Value>,
    pub(crate) sets: Vec<KeySet>,
    ghost no_float: { items_have_float (items_view objects.items) ≡ false },
}
