//! Headers that are written, for both kinds of objects.
ghost use Rattle.std.specs.Prelude.{◌≡◌, false, IfOk, string_bytes};
ghost use Rattle.serde_json.specs.View.{members_view};
ghost use Rattle.serde_json.specs.Written.{members_have_float};
ghost use Rattle.keys.specs.Limits.{limits};
ghost use Rattle.objects.specs.Code.Views.{part_view};
ghost use Rattle.tokens.specs.Template.{header_text, is_shallow, is_empty};
ghost use Rattle.tokens.specs.Choosing.{with_name};

use keys::{MOST_DEPTH, object_nests_at_most};
use serde_json::{Map, Value};
use std::alloc::{AllocError, Global};

/// Whether the header nests at most `MOST_DEPTH` deep.
pub(crate) fn is_shallow(part: Option<&Map<String, Value>>) -> bool
    ensures { result ≡ is_shallow limits (part_view part.entry) }
{
    match part {
        None => true,
        Some(members) => object_nests_at_most(members, MOST_DEPTH),
    }
}

/// Whether the header has no members.
#[tactic(auto, using(crate::proofs::WrittenHeaders::Members::empty_members))]
pub(crate) fn is_empty(part: Option<&Map<String, Value>>) -> bool
    ensures { result ≡ is_empty (part_view part.entry) }
{
    match part {
        None => true,
        Some(members) => members.is_empty(),
    }
}

/// The compact JSON text of a header. One without members has the empty text.
#[tactic(auto, using(crate::proofs::WrittenHeaders::Members::text_of_some, crate::proofs::WrittenHeaders::Members::text_of_none))]
pub(crate) fn header_text(alloc: Global, members: Map<String, Value>) -> Result<String, AllocError>
    requires { members_have_float (members_view members.entries) ≡ false }
    ensures { IfOk result (λ text. string_bytes text ≡ header_text (members_view members.entries)) }
{
    if members.is_empty() {
        Ok(String::new(alloc))
    } else {
        Value::Object(members).to_string(alloc)
    }
}

/// The header with a parameter, unless the template names its algorithm.
#[tactic(auto, using(keys::proofs::Lemmas::no_float_put_in))]
pub(crate) fn with_name(
    alloc: Global,
    named: bool,
    parameter: &str,
    name: &str,
    mut header: Map<String, Value>,
) -> Result<Map<String, Value>, AllocError>
    ensures members { IfOk result (λ made. members_view made.entries ≡ with_name named parameter.now name.now (members_view header.entries)) }
    ensures no_float { IfOk result (λ made. members_have_float (members_view header.entries) ≡ false
        → members_have_float (members_view made.entries) ≡ false) }
{
    if !named {
        let value = Value::try_from_str(alloc, name)?;
        serde_json::put(&mut header, alloc, parameter, value)?;
    }
    Ok(header)
}
