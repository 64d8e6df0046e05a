//! Members of any header, which have a compact text.
ghost use Rattle.std.specs.Prelude.{◌≡◌, false};
ghost use Rattle.serde_json.specs.View.{members_view};
ghost use Rattle.serde_json.specs.Written.{members_have_float};

use serde_json::{Map, Value};

/// The members of a header. None of their numbers is a float, so they have a compact JSON text.
#[derive(Drop)]
pub(crate) struct HeaderMembers {
    pub(crate) map: Map<String, Value>,
    ghost no_float: { members_have_float (members_view map.entries) ≡ false },
}
