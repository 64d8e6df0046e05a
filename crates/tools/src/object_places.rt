//! The places of signed and encrypted objects, in JSON form and in compact form.
ghost use Rattle.std.specs.Prelude.{◌≡◌, ◌++◌, option_map, IfOk, OnOk};
ghost use Rattle.serde_json.specs.View.{view};
ghost use Rattle.tools.specs.ObjectPlaces.{encrypted_in, encrypted_members, encrypted_of, encrypted_part_places, encrypted_places, own_places, part_places, payload_place, shared_of, signature_in, signed_part_places, signed_places, value_places};
ghost use Rattle.tools.specs.PlaceViews.{encrypted_view, place_text, shared_view, signature_view};
ghost use Rattle.tools.specs.Places.{first_so, where_lines};
ghost use Rattle.tools.specs.Printing.{printed};

use crate::found_place::{FoundPlace, add_where_line, first_so, in_object};
use crate::header_places::in_two_headers;
use crate::item_places::{
    ItemKind, ReadRecipient, ReadSignature, listed_place, recipient_place, share_if_read,
    signature_place,
};
use crate::object_lines::{after_dot, before_dot};
use crate::object_members::{
    header_refusal, member_refusal, protected_at, protected_of, protected_refusal, read_header,
    text_refusal,
};
use crate::shared_headers::SharedHeaders;
use crate::text_kind::TextKind;
use octets::Refusal;
use serde_json::{Map, Value};
use std::alloc::{AllocError, Global};

/// What was read of an encrypted object: its headers, and how its other members are refused.
#[derive(Drop)]
pub(crate) struct ReadEncrypted<'v> {
    protected: Result<Map<String, Value>, Refusal>,
    unprotected: Result<Option<&'v Map<String, Value>>, Refusal>,
    aad: Option<Refusal>,
    iv: Option<Refusal>,
    ciphertext: Option<Refusal>,
    tag: Option<Refusal>,
}

/// Adds the last line of an object in JSON form that is refused: the first place that is refused so.
pub(crate) fn add_value_place(
    alloc: Global,
    out: &mut Vec<u8>,
    kind: TextKind,
    value: &Value,
    refusal: Option<Refusal>,
) -> Result<(), AllocError>
    ensures { OnOk result (out.new.items ≡ out.old.items ++ printed (where_lines refusal (value_places kind (view value.now)))) }
{
    match refusal {
        None => Ok(()),
        Some(so) => {
            let found = value_place(alloc, kind, value, so)?;
            add_where_line(alloc, out, found)
        }
    }
}

/// Adds that of an object in compact form.
pub(crate) fn add_part_place(
    alloc: Global,
    out: &mut Vec<u8>,
    kind: TextKind,
    part: &[u8],
    refusal: Option<Refusal>,
) -> Result<(), AllocError>
    ensures { OnOk result (out.new.items ≡ out.old.items ++ printed (where_lines refusal (part_places kind part.now))) }
{
    match refusal {
        None => Ok(()),
        Some(so) => {
            let found = part_place(alloc, kind, part, so)?;
            add_where_line(alloc, out, found)
        }
    }
}

#[tactic(auto, using(crate::proofs::Places::first_of_none))]
fn value_place(
    alloc: Global,
    kind: TextKind,
    value: &Value,
    so: Refusal,
) -> Result<Option<FoundPlace>, AllocError>
    ensures { IfOk result (λ found. option_map place_text found ≡ first_so so (value_places kind (view value.now))) }
{
    match kind {
        TextKind::Signed | TextKind::SignedDetached => signed_place(alloc, value, so),
        TextKind::Encrypted | TextKind::EncryptedDetached => encrypted_place(alloc, value, so),
        _ => Ok(None),
    }
}

#[tactic(auto, unfolding(crate::specs::ObjectPlaces::signed_places), using(crate::proofs::Places::first_of_both))]
fn signed_place(alloc: Global, value: &Value, so: Refusal) -> Result<Option<FoundPlace>, AllocError>
    ensures { IfOk result (λ found. option_map place_text found ≡ first_so so (signed_places (view value.now))) }
{
    let payload = member_refusal(alloc, value, "payload")?;
    match payload_place(payload, so) {
        Some(name) => Ok(in_object(Some(name))),
        None => listed_place(alloc, &ItemKind::Signature, value, so),
    }
}

/// The name of the payload, if it is refused so.
#[tactic(auto, unfolding(crate::specs::ObjectPlaces::payload_place))]
fn payload_place(payload: Option<Refusal>, so: Refusal) -> Option<&'static str>
    ensures { option_map (λ name. name.now) result ≡ first_so so (payload_place payload) }
{
    first_so(so, &[("payload", payload)])
}

#[tactic(auto, unfolding(crate::specs::ObjectPlaces::encrypted_places), using(crate::proofs::Places::first_of_both))]
fn encrypted_place(
    alloc: Global,
    value: &Value,
    so: Refusal,
) -> Result<Option<FoundPlace>, AllocError>
    ensures { IfOk result (λ found. option_map place_text found ≡ first_so so (encrypted_places (view value.now))) }
{
    let encrypted = read_encrypted(alloc, value)?;
    let shared = share_if_read(alloc, &encrypted.protected, encrypted.unprotected)?;
    match own_place(&encrypted, shared.as_ref(), so) {
        Some(name) => Ok(in_object(Some(name))),
        None => listed_place(alloc, &ItemKind::Recipient(shared), value, so),
    }
}

/// The name of the member of the object itself that is refused so. These are its shared headers.
#[tactic(auto, unfolding(crate::specs::ObjectPlaces::own_places), using(crate::proofs::Places::first_of_both, crate::proofs::Places::first_of_none))]
fn own_place(
    encrypted: &ReadEncrypted<'_>,
    shared: Option<&SharedHeaders<'_>>,
    so: Refusal,
) -> Option<&'static str>
    requires { option_map (λ s. shared_view s.now) shared ≡ shared_of (encrypted_view encrypted.now) }
    ensures { option_map (λ name. name.now) result ≡ first_so so (own_places (encrypted_view encrypted.now)) }
{
    if let Some(name) = encrypted_member(encrypted, so) {
        return Some(name);
    }
    let shared = shared?;
    first_so(so, &[in_two_headers(shared.protected, shared.unprotected)])
}

/// The name of the member that is refused so.
#[tactic(auto, unfolding(crate::specs::ObjectPlaces::encrypted_members))]
fn encrypted_member(encrypted: &ReadEncrypted<'_>, so: Refusal) -> Option<&'static str>
    ensures { option_map (λ name. name.now) result ≡ first_so so (encrypted_members (encrypted_view encrypted.now)) }
{
    let places = [
        ("protected", protected_refusal(&encrypted.protected)),
        ("unprotected", header_refusal(encrypted.unprotected)),
        ("aad", encrypted.aad),
        ("iv", encrypted.iv),
        ("ciphertext", encrypted.ciphertext),
        ("tag", encrypted.tag),
    ];
    first_so(so, &places)
}

fn read_encrypted(alloc: Global, value: &Value) -> Result<ReadEncrypted<'_>, AllocError>
    ensures { IfOk result (λ encrypted. encrypted_view encrypted ≡ encrypted_of (view value.now)) }
{
    Ok(ReadEncrypted {
        protected: protected_at(alloc, value)?,
        unprotected: read_header(value, "unprotected"),
        aad: member_refusal(alloc, value, "aad")?,
        iv: member_refusal(alloc, value, "iv")?,
        ciphertext: member_refusal(alloc, value, "ciphertext")?,
        tag: member_refusal(alloc, value, "tag")?,
    })
}

#[tactic(auto, using(crate::proofs::Places::first_of_none))]
fn part_place(
    alloc: Global,
    kind: TextKind,
    part: &[u8],
    so: Refusal,
) -> Result<Option<FoundPlace>, AllocError>
    ensures { IfOk result (λ found. option_map place_text found ≡ first_so so (part_places kind part.now)) }
{
    match kind {
        TextKind::Signed => Ok(in_object(signed_part_place(alloc, part, so)?)),
        TextKind::Encrypted => Ok(in_object(encrypted_part_place(alloc, part, so)?)),
        _ => Ok(None),
    }
}

/// The name of the part of a signed object that is refused so.
#[tactic(auto, unfolding(crate::specs::ObjectPlaces::signed_part_places), using(crate::proofs::Places::first_of_both))]
fn signed_part_place(
    alloc: Global,
    part: &[u8],
    so: Refusal,
) -> Result<Option<&'static str>, AllocError>
    ensures { IfOk result (λ found. option_map (λ name. name.now) found ≡ first_so so (signed_part_places part.now)) }
{
    let rest = after_dot(part);
    let payload = text_refusal(alloc, before_dot(rest))?;
    if let Some(name) = payload_place(payload, so) {
        return Ok(Some(name));
    }
    let signature = read_signature_part(alloc, before_dot(part), after_dot(rest))?;
    signature_place(alloc, &signature, so)
}

fn read_signature_part(
    alloc: Global,
    protected: &[u8],
    signature: &[u8],
) -> Result<ReadSignature<'static>, AllocError>
    ensures { IfOk result (λ read. signature_view read ≡ signature_in protected.now signature.now) }
{
    Ok(ReadSignature {
        protected: protected_of(alloc, protected)?,
        header: Ok(None),
        signature: text_refusal(alloc, signature)?,
    })
}

/// The name of the part of an encrypted object that is refused so.
#[tactic(auto, unfolding(crate::specs::ObjectPlaces::encrypted_part_places), using(crate::proofs::Places::first_of_both))]
fn encrypted_part_place(
    alloc: Global,
    part: &[u8],
    so: Refusal,
) -> Result<Option<&'static str>, AllocError>
    ensures { IfOk result (λ found. option_map (λ name. name.now) found ≡ first_so so (encrypted_part_places part.now)) }
{
    let rest = after_dot(part);
    let encrypted = read_encrypted_part(alloc, before_dot(part), after_dot(rest))?;
    let shared = share_if_read(alloc, &encrypted.protected, encrypted.unprotected)?;
    if let Some(name) = own_place(&encrypted, shared.as_ref(), so) {
        return Ok(Some(name));
    }
    let recipient = ReadRecipient {
        header: Ok(None),
        encrypted_key: text_refusal(alloc, before_dot(rest))?,
    };
    recipient_place(alloc, shared.as_ref(), recipient, so)
}

/// What is read of an encrypted object whose parts after the encrypted key are the content.
fn read_encrypted_part(
    alloc: Global,
    protected: &[u8],
    content: &[u8],
) -> Result<ReadEncrypted<'static>, AllocError>
    ensures { IfOk result (λ encrypted. encrypted_view encrypted ≡ encrypted_in protected.now content.now) }
{
    let rest = after_dot(content);
    Ok(ReadEncrypted {
        protected: protected_of(alloc, protected)?,
        unprotected: Ok(None),
        aad: None,
        iv: text_refusal(alloc, before_dot(content))?,
        ciphertext: text_refusal(alloc, before_dot(rest))?,
        tag: text_refusal(alloc, after_dot(rest))?,
    })
}
