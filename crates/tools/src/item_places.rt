//! The places of signatures and of recipients, which are an object itself or the items of its list.
ghost use Rattle.std.specs.Prelude.{◌≡◌, option_map, IfOk};
ghost use Rattle.serde_json.specs.Find.{as_array};
ghost use Rattle.serde_json.specs.View.{view, items_view, members_view};
ghost use Rattle.objects.specs.Code.Views.{part_view};
ghost use Rattle.tools.specs.LookedObjects.{items_or_none};
ghost use Rattle.tools.specs.ItemPlaces.{beside_list, each_item_places, item_name, item_places, list_name, list_places, listed_places, recipient_members, recipient_of, recipient_places, signature_members, signature_of, signature_places};
ghost use Rattle.tools.specs.PlaceViews.{kind_view, place_text, recipient_view, result_seen, shared_view, signature_view};
ghost use Rattle.tools.specs.Places.{first_so, shared_by, shared_headers};

use crate::found_place::{FoundPlace, first_so, in_item, in_object};
use crate::header_places::joint_place;
use crate::object_members::{
    few_objects, header_refusal, member_refusal, no_recipient_at, no_signature_at, protected_at,
    protected_refusal, read_header, signature_refusal,
};
use crate::parameters::share;
use crate::shared_headers::SharedHeaders;
use octets::Refusal;
use serde_json::{Map, Value};
use std::alloc::{AllocError, Global};

/// What was read of a signature: its headers, and how its member `signature` is refused.
#[derive(Drop)]
pub(crate) struct ReadSignature<'v> {
    pub(crate) protected: Result<Map<String, Value>, Refusal>,
    pub(crate) header: Result<Option<&'v Map<String, Value>>, Refusal>,
    pub(crate) signature: Option<Refusal>,
}

/// What was read of a recipient.
#[derive(Clone, Copy)]
pub(crate) struct ReadRecipient<'v> {
    pub(crate) header: Result<Option<&'v Map<String, Value>>, Refusal>,
    pub(crate) encrypted_key: Option<Refusal>,
}

/// What the items of a list are. Recipients share headers, unless these cannot be read.
#[derive(Clone, Copy)]
pub(crate) enum ItemKind<'m> {
    Signature,
    Recipient(Option<SharedHeaders<'m>>),
}

impl<'m> ItemKind<'m> {
    fn list_name(&self) -> &'static str
        ensures { result.now ≡ list_name (kind_view self.now) }
    {
        match self {
            ItemKind::Signature => "signatures",
            ItemKind::Recipient(_) => "recipients",
        }
    }

    fn item_name(&self) -> &'static str
        ensures { result.now ≡ item_name (kind_view self.now) }
    {
        match self {
            ItemKind::Signature => "signature",
            ItemKind::Recipient(_) => "recipient",
        }
    }
}

/// The place in the object itself, if it is an item, or in its list that is refused so.
#[tactic(auto, unfolding(crate::specs::ItemPlaces::listed_places), using(crate::proofs::Places::first_of_both))]
pub(crate) fn listed_place(
    alloc: Global,
    kind: &ItemKind<'_>,
    value: &Value,
    so: Refusal,
) -> Result<Option<FoundPlace>, AllocError>
    ensures { IfOk result (λ found. option_map place_text found ≡ first_so so (listed_places (kind_view kind.now) (view value.now))) }
{
    let Some(list) = value.get(kind.list_name()) else {
        return Ok(in_object(item_place(alloc, kind, value, so)?));
    };
    match list_place(kind, value, list, so) {
        Some(name) => Ok(in_object(Some(name))),
        None => place_in_list(alloc, kind, list, so),
    }
}

/// The name of the place of the list, or of what is next to it.
#[tactic(auto, unfolding(crate::specs::ItemPlaces::list_places))]
fn list_place(kind: &ItemKind<'_>, value: &Value, list: &Value, so: Refusal) -> Option<&'static str>
    ensures { option_map (λ name. name.now) result ≡ first_so so (list_places (kind_view kind.now) (view value.now) (view list.now)) }
{
    let places = [
        (kind.list_name(), few_objects(list).err()),
        beside_list(kind, value),
    ];
    first_so(so, &places)
}

/// The place in the items of the list, if it is one.
#[tactic(auto, using(crate::proofs::Places::first_of_none))]
fn place_in_list(
    alloc: Global,
    kind: &ItemKind<'_>,
    list: &Value,
    so: Refusal,
) -> Result<Option<FoundPlace>, AllocError>
    ensures { IfOk result (λ found. option_map place_text found
        ≡ first_so so (each_item_places (kind_view kind.now) 1 (items_or_none (as_array (view list.now))))) }
{
    match list.as_array() {
        None => Ok(None),
        Some(items) => place_in_items(alloc, kind, items, so),
    }
}

/// The place in the first item that has one which is refused so.
#[tactic(auto, using(crate::proofs::Places::first_of_none))]
fn place_in_items(
    alloc: Global,
    kind: &ItemKind<'_>,
    items: &[Value],
    so: Refusal,
) -> Result<Option<FoundPlace>, AllocError>
    ensures { IfOk result (λ found. option_map place_text found
        ≡ first_so so (each_item_places (kind_view kind.now) 1 (items_view items.now))) }
{
    for (i, item) in items.iter().enumerate() {
        if let Some(name) = item_place(alloc, kind, item, so)? {
            return Ok(Some(in_item(name, kind.item_name(), i + 1)));
        }
    }
    Ok(None)
}

/// The name of the place in this item that is refused so.
fn item_place(
    alloc: Global,
    kind: &ItemKind<'_>,
    value: &Value,
    so: Refusal,
) -> Result<Option<&'static str>, AllocError>
    ensures { IfOk result (λ found. option_map (λ name. name.now) found ≡ first_so so (item_places (kind_view kind.now) (view value.now))) }
{
    match kind {
        ItemKind::Signature => {
            let signature = read_signature(alloc, value)?;
            signature_place(alloc, &signature, so)
        }
        ItemKind::Recipient(shared) => {
            let recipient = read_recipient(alloc, value)?;
            recipient_place(alloc, shared.as_ref(), recipient, so)
        }
    }
}

/// The place of members of an item next to a list of items.
fn beside_list(kind: &ItemKind<'_>, value: &Value) -> (&'static str, Option<Refusal>)
    ensures { (result.0.now, result.1) ≡ beside_list (kind_view kind.now) (view value.now) }
{
    match kind {
        ItemKind::Signature => (
            "a member of a signature next to signatures",
            no_signature_at(value).err(),
        ),
        ItemKind::Recipient(_) => (
            "a member of a recipient next to recipients",
            no_recipient_at(value).err(),
        ),
    }
}

/// The name of the place of a signature that is refused so.
#[tactic(auto, unfolding(crate::specs::ItemPlaces::signature_places), using(crate::proofs::Places::first_of_both))]
pub(crate) fn signature_place(
    alloc: Global,
    signature: &ReadSignature<'_>,
    so: Refusal,
) -> Result<Option<&'static str>, AllocError>
    ensures { IfOk result (λ found. option_map (λ name. name.now) found ≡ first_so so (signature_places (signature_view signature.now))) }
{
    if let Some(name) = signature_member(signature, so) {
        return Ok(Some(name));
    }
    let shared = share_if_read(alloc, &signature.protected, Ok(None))?;
    joint_place(alloc, false, signature.header, shared.as_ref(), so)
}

/// The name of the member of a signature that is refused so.
#[tactic(auto, unfolding(crate::specs::ItemPlaces::signature_members))]
fn signature_member(signature: &ReadSignature<'_>, so: Refusal) -> Option<&'static str>
    ensures { option_map (λ name. name.now) result ≡ first_so so (signature_members (signature_view signature.now)) }
{
    let places = [
        ("protected", protected_refusal(&signature.protected)),
        ("header", header_refusal(signature.header)),
        ("signature", signature.signature),
    ];
    first_so(so, &places)
}

/// The name of the place of a recipient that is refused so.
#[tactic(auto, unfolding(crate::specs::ItemPlaces::recipient_places), using(crate::proofs::Places::first_of_both))]
pub(crate) fn recipient_place(
    alloc: Global,
    shared: Option<&SharedHeaders<'_>>,
    recipient: ReadRecipient<'_>,
    so: Refusal,
) -> Result<Option<&'static str>, AllocError>
    ensures { IfOk result (λ found. option_map (λ name. name.now) found
        ≡ first_so so (recipient_places (option_map (λ s. shared_view s.now) shared.entry) (recipient_view recipient.entry))) }
{
    match recipient_member(recipient, so) {
        Some(name) => Ok(Some(name)),
        None => joint_place(alloc, true, recipient.header, shared, so),
    }
}

/// The name of the member of a recipient that is refused so.
#[tactic(auto, unfolding(crate::specs::ItemPlaces::recipient_members))]
fn recipient_member(recipient: ReadRecipient<'_>, so: Refusal) -> Option<&'static str>
    ensures { option_map (λ name. name.now) result ≡ first_so so (recipient_members (recipient_view recipient.entry)) }
{
    let places = [
        ("encrypted_key", recipient.encrypted_key),
        ("header", header_refusal(recipient.header)),
    ];
    first_so(so, &places)
}

/// The two headers, if both could be read.
pub(crate) fn share_if_read<'m, 'v: 'm>(
    alloc: Global,
    protected: &'m Result<Map<String, Value>, Refusal>,
    unprotected: Result<Option<&'v Map<String, Value>>, Refusal>,
) -> Result<Option<SharedHeaders<'m>>, AllocError>
    ensures { IfOk result (λ shared. option_map shared_view shared
        ≡ shared_by (result_seen (λ map. members_view map.entries) protected.now) (result_seen part_view unprotected.entry)) }
{
    let Ok(protected) = protected else {
        return Ok(None);
    };
    match unprotected {
        Err(_) => Ok(None),
        Ok(None) => Ok(Some(share(alloc, Some(protected), None)?)),
        Ok(Some(unprotected)) => Ok(Some(share_both(alloc, protected, unprotected)?)),
    }
}

fn share_both<'m>(
    alloc: Global,
    protected: &'m Map<String, Value>,
    unprotected: &'m Map<String, Value>,
) -> Result<SharedHeaders<'m>, AllocError>
    ensures { IfOk result (λ shared. shared_view shared ≡ shared_headers (members_view protected.entry.now.entries) (members_view unprotected.entry.now.entries)) }
{
    share(alloc, Some(protected), Some(unprotected))
}

fn read_signature(alloc: Global, value: &Value) -> Result<ReadSignature<'_>, AllocError>
    ensures { IfOk result (λ signature. signature_view signature ≡ signature_of (view value.now)) }
{
    Ok(ReadSignature {
        protected: protected_at(alloc, value)?,
        header: read_header(value, "header"),
        signature: signature_refusal(alloc, value)?,
    })
}

fn read_recipient(alloc: Global, value: &Value) -> Result<ReadRecipient<'_>, AllocError>
    ensures { IfOk result (λ recipient. recipient_view recipient ≡ recipient_of (view value.now)) }
{
    Ok(ReadRecipient {
        header: read_header(value, "header"),
        encrypted_key: member_refusal(alloc, value, "encrypted_key")?,
    })
}
