//! The members of an encrypted object as texts, from its compact or its JSON serialization (RFC 7516 section 7), and their decoding. The
//! protected header is not read.
ghost use Rattle.std.specs.Prelude.{◌≡◌, false, length, map, option_map, IfOk};
ghost use Rattle.serde_json.specs.View.{view, items_view};
ghost use Rattle.serde_json.specs.Written.{has_float, items_have_float};
ghost use Rattle.octets.specs.Base64url.{base64url};
ghost use Rattle.octets.specs.Code.Results.{Agrees, AgreesUnlessMemory};
ghost use Rattle.objects.specs.Code.Views.{encoded_recipient_view, encoded_jwe_view, jwe_members_view, recipient_members_view};
ghost use Rattle.objects.specs.Jwe.{encoded_recipient, no_recipient_at, recipient_objects, encoded_in_json, encoded_in_compact, decoded_recipient, decoded_members};
ghost use Rattle.objects.specs.Texts.{each, each_item};

use crate::compact::{split_at_dot, three_parts_of};
use crate::content::Content;
use crate::content::received_text::copied_text;
use crate::header::members::HeaderMembers;
use crate::header::parts::{has_some_members, header_at, no_members, owned_header_at};
use crate::json_members::{object_list, text_at};
use crate::jwe::parts::{JweMembers, RecipientMembers};
use octets::{Refusal, b64_decode, needs};
use serde_json::Value;
use std::alloc::Global;
use std::slice;

/// The members of an encrypted object, with the texts that they have. An absent one is empty.
#[derive(Drop)]
pub(crate) struct EncodedJwe<'t> {
    protected: &'t [u8],
    unprotected: HeaderMembers,
    iv: &'t [u8],
    aad: &'t [u8],
    ciphertext: Content<'t>,
    tag: &'t [u8],
    pub(crate) recipients: Vec<EncodedRecipient<'t>>,
}

/// Those of a recipient.
#[derive(Drop)]
pub(crate) struct EncodedRecipient<'t> {
    header: HeaderMembers,
    encrypted_key: &'t [u8],
}

impl<'t> EncodedJwe<'t> {
    /// The text of the protected header.
    pub(crate) fn protected(&self) -> &'t [u8]
        ensures { result.now ≡ (encoded_jwe_view self.now).protected }
    {
        self.protected
    }
}

/// The members of an object in JSON form (RFC 7516 section 7.2). Refuses with `Form` if one has a wrong type, if `ciphertext` is not empty
/// although it was handed in, or is absent although it was not, or if the recipients are neither one nor a list of at least one.
#[tactic(auto, unfolding(crate::specs::Jwe::encoded_in_json))]
pub(crate) fn encoded_in_json(
    alloc: Global,
    value: &Value,
    detached: Option<Vec<u8>>,
) -> Result<EncodedJwe<'_>, Refusal>
    requires { has_float (view value.now) ≡ false }
    ensures { AgreesUnlessMemory encoded_jwe_view result (encoded_in_json (option_map (λ c. c.items) detached) (view value.now)) }
{
    let protected = text_at(value, "protected")?;
    let unprotected = owned_header_at(alloc, value, "unprotected")?;
    let aad = text_at(value, "aad")?;
    let objects = recipient_objects(value)?;
    let recipients = encoded_recipients(alloc, objects)?;
    let iv = text_at(value, "iv")?;
    let ciphertext = Content::of_member(value, "ciphertext", detached)?;
    let tag = text_at(value, "tag")?;
    Ok(EncodedJwe {
        protected,
        unprotected,
        iv,
        aad,
        ciphertext,
        tag,
        recipients,
    })
}

/// The objects of the recipients: the value itself, or the items of its list.
#[tactic(auto, unfolding(crate::specs::Jwe::recipient_objects), using(keys::proofs::Lemmas::no_float_in_member))]
fn recipient_objects(value: &Value) -> Result<&[Value], Refusal>
    requires { has_float (view value.now) ≡ false }
    ensures exact { Agrees (λ objects. items_view objects.now) result (recipient_objects (view value.now)) }
    ensures no_float { IfOk result (λ objects. items_have_float (items_view objects.now) ≡ false) }
{
    match value.get("recipients") {
        None => Ok(slice::from_ref(value)),
        Some(list) => {
            no_recipient_at(value)?;
            object_list(list)
        }
    }
}

/// Refuses with `Form` if the object has members of a recipient, other than empty ones.
#[tactic(auto, unfolding(crate::specs::Jwe::no_recipient_at, crate::specs::Jwe::encoded_recipient))]
fn no_recipient_at(value: &Value) -> Result<(), Refusal>
    ensures { Agrees (λ done. done) result (no_recipient_at (view value.now)) }
{
    let encrypted_key = text_at(value, "encrypted_key")?;
    let header = header_at(value, "header")?;
    needs(
        encrypted_key.is_empty() && !has_some_members(header),
        Refusal::Form,
    )
}

/// The members of the recipients.
#[tactic(auto, using(crate::proofs::Items::reading))]
fn encoded_recipients(
    alloc: Global,
    objects: &[Value],
) -> Result<Vec<EncodedRecipient<'_>>, Refusal>
    requires { items_have_float (items_view objects.now) ≡ false }
    ensures { AgreesUnlessMemory (λ texts. map encoded_recipient_view texts.items) result (each_item encoded_recipient (items_view objects.now)) }
{
    let mut texts = Vec::new(alloc);
    for object in objects {
        texts.push(encoded_recipient(alloc, object)?)?;
    }
    Ok(texts)
}

#[tactic(auto, unfolding(crate::specs::Jwe::encoded_recipient))]
fn encoded_recipient(alloc: Global, value: &Value) -> Result<EncodedRecipient<'_>, Refusal>
    requires { has_float (view value.now) ≡ false }
    ensures { AgreesUnlessMemory encoded_recipient_view result (encoded_recipient (view value.now)) }
{
    let encrypted_key = text_at(value, "encrypted_key")?;
    let header = owned_header_at(alloc, value, "header")?;
    Ok(EncodedRecipient {
        header,
        encrypted_key,
    })
}

/// The five parts of a compact text (RFC 7516 section 7.1). Refuses with `Form` if there are more or fewer, or if a ciphertext was handed
/// in and its part is not empty.
#[tactic(auto, unfolding(crate::specs::Jwe::encoded_in_compact))]
pub(crate) fn encoded_in_compact(
    alloc: Global,
    text: &[u8],
    detached: Option<Vec<u8>>,
) -> Result<EncodedJwe<'_>, Refusal>
    ensures { AgreesUnlessMemory encoded_jwe_view result (encoded_in_compact (option_map (λ c. c.items) detached) text.now) }
{
    let (protected, rest) = split_at_dot(text)?;
    let (encrypted_key, rest) = split_at_dot(rest)?;
    let (iv, ciphertext, tag) = three_parts_of(rest)?;
    let ciphertext = Content::of_part(ciphertext, detached)?;
    let mut recipients = Vec::new(alloc);
    recipients.push(EncodedRecipient {
        header: no_members(alloc),
        encrypted_key,
    })?;
    Ok(EncodedJwe {
        protected,
        unprotected: no_members(alloc),
        iv,
        aad: b"",
        ciphertext,
        tag,
        recipients,
    })
}

/// The octets of the members' texts, except for the protected header, whose text is kept. Refuses with `Base64` if a text is no base64url
/// text.
#[tactic(auto, unfolding(crate::specs::Jwe::decoded_members))]
pub(crate) fn decoded_members(
    alloc: Global,
    texts: EncodedJwe<'_>,
    protected: &[u8],
) -> Result<JweMembers, Refusal>
    requires { texts.protected.now ≡ base64url protected.now }
    ensures exact { AgreesUnlessMemory jwe_members_view result (decoded_members (encoded_jwe_view texts.entry)) }
    ensures as_many { IfOk result (λ members. length members.recipients.items ≡ length texts.entry.recipients.items) }
{
    let EncodedJwe {
        protected: text,
        unprotected,
        iv,
        aad,
        ciphertext,
        tag,
        recipients,
    } = texts;
    let aad = b64_decode(alloc, aad)?;
    let recipients = decoded_recipients(alloc, recipients)?;
    let iv = b64_decode(alloc, iv)?;
    let ciphertext = ciphertext.octets(alloc)?;
    let tag = b64_decode(alloc, tag)?;
    Ok(JweMembers {
        protected: copied_text(alloc, text, protected)?,
        unprotected,
        iv,
        aad,
        ciphertext,
        tag,
        recipients,
    })
}

/// The octets of the texts of the recipients' members.
#[tactic(auto, using(crate::proofs::Each::reading))]
fn decoded_recipients(
    alloc: Global,
    texts: Vec<EncodedRecipient<'_>>,
) -> Result<Vec<RecipientMembers>, Refusal>
    ensures exact { AgreesUnlessMemory (λ recipients. map recipient_members_view recipients.items) result
        (each decoded_recipient (map encoded_recipient_view texts.entry.items)) }
    ensures as_many { IfOk result (λ recipients. length recipients.items ≡ length texts.entry.items) }
{
    let mut recipients = Vec::new(alloc);
    for text in texts {
        recipients.push(decoded_recipient(alloc, text)?)?;
    }
    Ok(recipients)
}

#[tactic(auto, unfolding(crate::specs::Jwe::decoded_recipient))]
fn decoded_recipient(
    alloc: Global,
    texts: EncodedRecipient<'_>,
) -> Result<RecipientMembers, Refusal>
    ensures { AgreesUnlessMemory recipient_members_view result (decoded_recipient (encoded_recipient_view texts.entry)) }
{
    let EncodedRecipient {
        header,
        encrypted_key,
    } = texts;
    let encrypted_key = b64_decode(alloc, encrypted_key)?;
    Ok(RecipientMembers {
        header,
        encrypted_key,
    })
}
