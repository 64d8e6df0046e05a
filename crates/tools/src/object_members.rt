//! The members of an object, each read alone, and how it is refused.
ghost use Rattle.std.specs.Prelude.{◌≡◌, IfOk};
ghost use Rattle.std.specs.Result.{result_err};
ghost use Rattle.octets.specs.Base64url.{decoded};
ghost use Rattle.octets.specs.Code.Results.{Agrees, AgreesUnlessMemory};
ghost use Rattle.serde_json.specs.View.{view, members_view};
ghost use Rattle.objects.specs.Code.Views.{part_view};
ghost use Rattle.objects.specs.Headers.{header_at};
ghost use Rattle.objects.specs.Jwe.{no_recipient_at};
ghost use Rattle.objects.specs.Jws.{no_signature_at};
ghost use Rattle.objects.specs.Texts.{has_members, required_text};
ghost use Rattle.tools.specs.ItemPlaces.{few_objects, octets_at, protected_at, protected_of, signature_at};
ghost use Rattle.tools.specs.PlaceViews.{result_seen};

use crate::text_kind::has;
use crate::tool_cause::unless_memory;
use keys::{MOST_RECIPIENTS, are_objects};
use objects::{header_at, read_protected, text_at};
use octets::{Refusal, b64_decode, needs};
use serde_json::{Map, Value};
use std::alloc::{AllocError, Global};

/// Refuses with `Form` unless the value is a list of at least one object, and with `Limit` if there are too many.
#[tactic(auto, unfolding(crate::specs::ItemPlaces::few_objects, objects::specs::Texts::object_list), using(crate::proofs::JoinedKeys::counted, crate::proofs::Places::some_items))]
pub(crate) fn few_objects(list: &Value) -> Result<(), Refusal>
    ensures { Agrees (λ done. done) result (few_objects (view list.now)) }
{
    let items = list.as_array().ok_or(Refusal::Form)?;
    needs(!items.is_empty() && are_objects(items), Refusal::Form)?;
    needs(items.len() <= MOST_RECIPIENTS, Refusal::Limit)
}

/// Refuses with `Form` if the object has members of a signature, other than empty headers.
#[tactic(auto, unfolding(objects::specs::Jws::no_signature_at))]
pub(crate) fn no_signature_at(value: &Value) -> Result<(), Refusal>
    ensures { Agrees (λ done. done) result (no_signature_at (view value.now)) }
{
    let protected = text_at(value, "protected")?;
    let header = header_at(value, "header")?;
    needs(
        protected.is_empty() && !has_members(header) && !has(value, "signature"),
        Refusal::Form,
    )
}

/// Refuses with `Form` if the object has members of a recipient, other than empty ones.
#[tactic(auto, unfolding(objects::specs::Jwe::no_recipient_at, objects::specs::Jwe::encoded_recipient))]
pub(crate) fn no_recipient_at(value: &Value) -> Result<(), Refusal>
    ensures { Agrees (λ done. done) result (no_recipient_at (view value.now)) }
{
    let encrypted_key = text_at(value, "encrypted_key")?;
    let header = header_at(value, "header")?;
    needs(
        encrypted_key.is_empty() && !has_members(header),
        Refusal::Form,
    )
}

/// Whether the header is there and has members.
#[tactic(auto, using(crate::proofs::Places::some_members))]
fn has_members(header: Option<&Map<String, Value>>) -> bool
    ensures { result ≡ has_members (part_view header.entry) }
{
    match header {
        None => false,
        Some(members) => !members.is_empty(),
    }
}

/// How a protected header is refused.
pub(crate) fn protected_refusal(protected: &Result<Map<String, Value>, Refusal>) -> Option<Refusal>
    ensures { result ≡ result_err (result_seen (λ map. members_view map.entries) protected.now) }
{
    match protected {
        Ok(_) => None,
        Err(refusal) => Some(*refusal),
    }
}

/// How an unprotected header is refused.
pub(crate) fn header_refusal(
    header: Result<Option<&Map<String, Value>>, Refusal>,
) -> Option<Refusal>
    ensures { result ≡ result_err (result_seen part_view header.entry) }
{
    match header {
        Ok(_) => None,
        Err(refusal) => Some(refusal),
    }
}

/// The header in a member of the value.
#[tactic(auto, using(crate::proofs::Places::seen_as))]
pub(crate) fn read_header<'v>(
    value: &'v Value,
    name: &str,
) -> Result<Option<&'v Map<String, Value>>, Refusal>
    ensures { result_seen part_view result ≡ header_at name.now (view value.now) }
{
    header_at(value, name)
}

/// The members of the protected header in the member `protected`.
#[tactic(auto, unfolding(crate::specs::ItemPlaces::protected_at))]
pub(crate) fn protected_at(
    alloc: Global,
    value: &Value,
) -> Result<Result<Map<String, Value>, Refusal>, AllocError>
    ensures { IfOk result (λ read. result_seen (λ map. members_view map.entries) read ≡ protected_at (view value.now)) }
{
    match text_at(value, "protected") {
        Ok(text) => protected_of(alloc, text),
        Err(refusal) => Ok(Err(refusal)),
    }
}

/// The members of a protected header of this text.
pub(crate) fn protected_of(
    alloc: Global,
    text: &[u8],
) -> Result<Result<Map<String, Value>, Refusal>, AllocError>
    ensures { IfOk result (λ read. result_seen (λ map. members_view map.entries) read ≡ protected_of text.now) }
{
    match read_protected_text(alloc, text) {
        Ok(members) => Ok(Ok(members)),
        Err(refusal) => Ok(Err(unless_memory(refusal)?)),
    }
}

#[tactic(auto, unfolding(crate::specs::ItemPlaces::protected_of))]
fn read_protected_text(alloc: Global, text: &[u8]) -> Result<Map<String, Value>, Refusal>
    ensures { AgreesUnlessMemory (λ map. members_view map.entries) result (protected_of text.now) }
{
    let octets = b64_decode(alloc, text)?;
    read_protected(alloc, &octets)
}

/// How a member is refused whose value is octets, and which may be absent.
#[tactic(auto, unfolding(crate::specs::ItemPlaces::octets_at))]
pub(crate) fn member_refusal(
    alloc: Global,
    value: &Value,
    name: &str,
) -> Result<Option<Refusal>, AllocError>
    ensures { IfOk result (λ refusal. refusal ≡ result_err (octets_at name.now (view value.now))) }
{
    match text_at(value, name) {
        Ok(text) => text_refusal(alloc, text),
        Err(refusal) => Ok(Some(refusal)),
    }
}

#[tactic(auto, unfolding(crate::specs::ItemPlaces::signature_at))]
pub(crate) fn signature_refusal(alloc: Global, value: &Value) -> Result<Option<Refusal>, AllocError>
    ensures { IfOk result (λ refusal. refusal ≡ result_err (signature_at (view value.now))) }
{
    match required_text(value, "signature") {
        Ok(text) => text_refusal(alloc, text),
        Err(refusal) => Ok(Some(refusal)),
    }
}

/// The text of a member, which must be there and be a string. Refuses with `Form`.
#[tactic(auto, unfolding(objects::specs::Texts::required_text))]
fn required_text<'v>(value: &'v Value, name: &str) -> Result<&'v [u8], Refusal>
    ensures { Agrees (λ text. text.now) result (required_text name.now (view value.now)) }
{
    match value.get(name).and_then(Value::as_str) {
        None => Err(Refusal::Form),
        Some(text) => Ok(text.as_bytes()),
    }
}

/// How a base64url text is refused.
pub(crate) fn text_refusal(alloc: Global, text: &[u8]) -> Result<Option<Refusal>, AllocError>
    ensures { IfOk result (λ refusal. refusal ≡ result_err (decoded text.now)) }
{
    match b64_decode(alloc, text) {
        Ok(_) => Ok(None),
        Err(refusal) => Ok(Some(unless_memory(refusal)?)),
    }
}
