//! The members of an object's JSON text that are texts, not decoded, and its lists of objects, for both kinds of objects (RFC 7515 section
//! 7.2, RFC 7516 section 7.2).
ghost use Rattle.std.specs.Prelude.{◌≡◌, ◌&&◌, false, IfOk, IfErr};
ghost use Rattle.serde_json.specs.View.{view, items_view};
ghost use Rattle.serde_json.specs.Written.{has_float, items_have_float};
ghost use Rattle.octets.specs.Code.Results.{Agrees};
ghost use Rattle.objects.specs.Texts.{text_at, required_text, object_list};

use keys::are_objects;
use octets::{Refusal, needs};
use serde_json::Value;

/// The text of a member, which is empty if the member is absent. Refuses with `Form` if it is no string.
#[tactic(auto, unfolding(crate::specs::Texts::text_at))]
pub fn text_at<'v>(value: &'v Value, name: &str) -> Result<&'v [u8], Refusal>
    ensures exact { Agrees (λ text. text.now) result (text_at name.now (view value.now)) }
    ensures refusal { IfErr result (λ e. e ≡ Refusal.Form) }
{
    match value.get(name) {
        None => Ok(b""),
        Some(found) => match found.as_str() {
            None => Err(Refusal::Form),
            Some(text) => Ok(text.as_bytes()),
        },
    }
}

/// The text of a member, which must be there and be a string. Refuses with `Form`.
#[tactic(auto, unfolding(crate::specs::Texts::required_text))]
pub(crate) fn required_text<'v>(value: &'v Value, name: &str) -> Result<&'v [u8], Refusal>
    ensures { Agrees (λ text. text.now) result (required_text name.now (view value.now)) }
{
    match value.get(name).and_then(Value::as_str) {
        None => Err(Refusal::Form),
        Some(text) => Ok(text.as_bytes()),
    }
}

/// The items of a list of at least one object. Refuses with `Form`.
#[tactic(auto, unfolding(crate::specs::Texts::object_list), using(crate::proofs::Items::some_items))]
pub(crate) fn object_list(value: &Value) -> Result<&[Value], Refusal>
    ensures exact { Agrees (λ items. items_view items.now) result (object_list (view value.now)) }
    ensures no_float { IfOk result (λ items. has_float (view value.now) ≡ false → items_have_float (items_view items.now) ≡ false) }
{
    match value.as_array() {
        None => Err(Refusal::Form),
        Some(items) => {
            needs(!items.is_empty() && are_objects(items), Refusal::Form)?;
            Ok(items)
        }
    }
}
