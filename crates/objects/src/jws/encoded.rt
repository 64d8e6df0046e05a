//! The members of a signed object as texts, from its compact or its JSON serialization (RFC 7515 section 7), and their decoding. The
//! protected headers are not read.
ghost use Rattle.std.specs.Prelude.{◌≡◌, false, is_none, length, map, option_map, IfOk};
ghost use Rattle.serde_json.specs.View.{view, items_view};
ghost use Rattle.serde_json.specs.Written.{has_float, items_have_float};
ghost use Rattle.octets.specs.Code.Results.{Agrees, AgreesUnlessMemory};
ghost use Rattle.objects.specs.Jws.{encoded_signature, no_signature_at, signature_objects, encoded_in_json, encoded_in_compact, decoded_signature, decoded_part};
ghost use Rattle.objects.specs.Texts.{each, each_item};
ghost use Rattle.objects.specs.Code.Views.{content_is_text, encoded_jws_view, encoded_signature_view, decoded_signature_view};

use crate::compact::three_parts_of;
use crate::content::Content;
use crate::content::received_text::copied_text;
use crate::header::members::HeaderMembers;
use crate::header::parts::{has_some_members, header_at, no_members, owned_header_at};
use crate::json_members::{object_list, required_text, text_at};
use crate::jws::parts::{DecodedSignature, SignatureMembers};
use octets::{Refusal, b64_decode, needs};
use serde_json::Value;
use std::alloc::Global;
use std::slice;

/// The members of a signed object, with the texts that they have.
#[derive(Drop)]
pub(crate) struct EncodedJws<'t> {
    pub(crate) payload: Content<'t>,
    pub(crate) signatures: Vec<EncodedSignature<'t>>,
}

/// Those of a signature. An absent one is empty.
#[derive(Drop)]
pub(crate) struct EncodedSignature<'t> {
    protected: &'t [u8],
    header: HeaderMembers,
    signature: &'t [u8],
}

/// The members of an object in JSON form (RFC 7515 section 7.2). Refuses with `Form` if one has a wrong type, if `payload` is not empty
/// although it was handed in, or is absent although it was not, or if the signatures are neither one nor a list of at least one.
#[tactic(auto, unfolding(crate::specs::Jws::encoded_in_json))]
pub(crate) fn encoded_in_json(
    alloc: Global,
    value: &Value,
    detached: Option<Vec<u8>>,
) -> Result<EncodedJws<'_>, Refusal>
    requires { has_float (view value.now) ≡ false }
    ensures { AgreesUnlessMemory encoded_jws_view result (encoded_in_json (option_map (λ c. c.items) detached) (view value.now)) }
{
    let payload = Content::of_member(value, "payload", detached)?;
    let objects = signature_objects(value)?;
    let signatures = encoded_signatures(alloc, objects)?;
    Ok(EncodedJws {
        payload,
        signatures,
    })
}

/// The objects of the signatures: the value itself, or the items of its list.
#[tactic(auto, unfolding(crate::specs::Jws::signature_objects), using(keys::proofs::Lemmas::no_float_in_member))]
fn signature_objects(value: &Value) -> Result<&[Value], Refusal>
    requires { has_float (view value.now) ≡ false }
    ensures exact { Agrees (λ objects. items_view objects.now) result (signature_objects (view value.now)) }
    ensures no_float { IfOk result (λ objects. items_have_float (items_view objects.now) ≡ false) }
{
    match value.get("signatures") {
        None => Ok(slice::from_ref(value)),
        Some(list) => {
            no_signature_at(value)?;
            object_list(list)
        }
    }
}

/// Refuses with `Form` if the object has members of a signature, other than empty headers.
#[tactic(auto, unfolding(crate::specs::Jws::no_signature_at))]
fn no_signature_at(value: &Value) -> Result<(), Refusal>
    ensures { Agrees (λ done. done) result (no_signature_at (view value.now)) }
{
    let protected = text_at(value, "protected")?;
    let header = header_at(value, "header")?;
    needs(
        protected.is_empty() && !has_some_members(header) && value.get("signature").is_none(),
        Refusal::Form,
    )
}

/// The members of the signatures.
#[tactic(auto, using(crate::proofs::Items::reading))]
fn encoded_signatures(
    alloc: Global,
    objects: &[Value],
) -> Result<Vec<EncodedSignature<'_>>, Refusal>
    requires { items_have_float (items_view objects.now) ≡ false }
    ensures { AgreesUnlessMemory (λ texts. map encoded_signature_view texts.items) result (each_item encoded_signature (items_view objects.now)) }
{
    let mut texts = Vec::new(alloc);
    for object in objects {
        texts.push(encoded_signature(alloc, object)?)?;
    }
    Ok(texts)
}

#[tactic(auto, unfolding(crate::specs::Jws::encoded_signature))]
fn encoded_signature(alloc: Global, value: &Value) -> Result<EncodedSignature<'_>, Refusal>
    requires { has_float (view value.now) ≡ false }
    ensures { AgreesUnlessMemory encoded_signature_view result (encoded_signature (view value.now)) }
{
    let protected = text_at(value, "protected")?;
    let header = owned_header_at(alloc, value, "header")?;
    let signature = required_text(value, "signature")?;
    Ok(EncodedSignature {
        protected,
        header,
        signature,
    })
}

/// The three parts of a compact text (RFC 7515 section 7.1). Refuses with `Form` if there are more or fewer, or if a payload was handed in
/// and its part is not empty.
#[tactic(auto, unfolding(crate::specs::Jws::encoded_in_compact))]
pub(crate) fn encoded_in_compact(
    alloc: Global,
    text: &[u8],
    detached: Option<Vec<u8>>,
) -> Result<EncodedJws<'_>, Refusal>
    ensures exact { AgreesUnlessMemory encoded_jws_view result (encoded_in_compact (option_map (λ c. c.items) detached) text.now) }
    ensures form { IfOk result (λ texts. content_is_text texts.payload ≡ is_none detached) }
{
    let (protected, payload, signature) = three_parts_of(text)?;
    let payload = Content::of_part(payload, detached)?;
    let mut signatures = Vec::new(alloc);
    signatures.push(EncodedSignature {
        protected,
        header: no_members(alloc),
        signature,
    })?;
    Ok(EncodedJws {
        payload,
        signatures,
    })
}

/// The octets of the texts of the signatures' members. Refuses with `Base64` if one is no base64url text.
#[tactic(auto, using(crate::proofs::Each::reading))]
pub(crate) fn decoded_signatures(
    alloc: Global,
    texts: Vec<EncodedSignature<'_>>,
) -> Result<Vec<DecodedSignature>, Refusal>
    ensures exact { AgreesUnlessMemory (λ signatures. map decoded_signature_view signatures.items) result
        (each decoded_signature (map encoded_signature_view texts.entry.items)) }
    ensures as_many { IfOk result (λ signatures. length signatures.items ≡ length texts.entry.items) }
{
    let mut signatures = Vec::new(alloc);
    for text in texts {
        signatures.push(decoded_signature(alloc, text)?)?;
    }
    Ok(signatures)
}

#[tactic(auto, unfolding(crate::specs::Jws::decoded_signature, crate::specs::Jws::decoded_part), using(octets::proofs::Lemmas::meaning_of_text))]
fn decoded_signature(
    alloc: Global,
    texts: EncodedSignature<'_>,
) -> Result<DecodedSignature, Refusal>
    ensures { AgreesUnlessMemory decoded_signature_view result (decoded_signature (encoded_signature_view texts.entry)) }
{
    let EncodedSignature {
        protected,
        header,
        signature,
    } = texts;
    let signature = b64_decode(alloc, signature)?;
    let octets = b64_decode(alloc, protected)?;
    let protected = copied_text(alloc, protected, &octets)?;
    Ok(DecodedSignature {
        octets,
        members: SignatureMembers {
            protected,
            header,
            signature,
        },
    })
}
