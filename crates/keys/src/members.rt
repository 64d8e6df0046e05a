//! The members of a key or a template (RFC 7517 section 4) that are texts and lists of texts. A member of another type is refused with
//! `Key`.
ghost use Rattle.std.specs.Prelude.{option_map, map, string_bytes};
ghost use Rattle.std.specs.Option.{ok_or};
ghost use Rattle.serde_json.specs.View.{view, items_view};
ghost use Rattle.octets.specs.Code.Results.{Agrees, AgreesUnlessMemory};
ghost use Rattle.keys.specs.Members.{string_member, optional_string_member, optional_strings_member, strings_of};

use octets::Refusal;
use serde_json::Value;
use std::alloc::Global;

/// The text of the member, which must be there and be a string.
#[tactic(auto, unfolding(crate::specs::Members::string_member))]
pub(crate) fn string_member<'v>(value: &'v Value, name: &str) -> Result<&'v str, Refusal>
    ensures { Agrees (λ text. text.now) result
        (string_member name.now (view value.now)) }
{
    value.get(name).and_then(Value::as_str).ok_or(Refusal::Key)
}

/// The text of the member, which is a string or absent.
#[tactic(auto, unfolding(crate::specs::Members::optional_string_member))]
pub(crate) fn optional_string_member<'v>(
    value: &'v Value,
    name: &str,
) -> Result<Option<&'v str>, Refusal>
    ensures { Agrees (option_map (λ text. text.now)) result
        (optional_string_member name.now (view value.now)) }
{
    match value.get(name) {
        None => Ok(None),
        Some(value) => match value.as_str() {
            None => Err(Refusal::Key),
            Some(text) => Ok(Some(text)),
        },
    }
}

/// The texts of the member, which is a list of strings or absent.
#[tactic(auto, unfolding(crate::specs::Members::optional_strings_member))]
pub(crate) fn optional_strings_member(
    alloc: Global,
    value: &Value,
    name: &str,
) -> Result<Option<Vec<String>>, Refusal>
    ensures { AgreesUnlessMemory (option_map (λ texts. map string_bytes texts.items)) result
        (optional_strings_member name.now (view value.now)) }
{
    match value.get(name) {
        None => Ok(None),
        Some(value) => match value.as_array() {
            None => Err(Refusal::Key),
            Some(items) => Ok(Some(read_strings(alloc, items)?)),
        },
    }
}

/// The texts of the items, which must all be strings.
fn read_strings(alloc: Global, items: &Vec<Value>) -> Result<Vec<String>, Refusal>
    ensures { AgreesUnlessMemory (λ texts. map string_bytes texts.items) result
        (ok_or (strings_of (items_view items.now.items)) Refusal.Key) }
{
    let mut texts = Vec::new(alloc);
    for item in items {
        let text = item.as_str().ok_or(Refusal::Key)?;
        texts.push(String::from_str(alloc, text)?)?;
    }
    Ok(texts)
}
