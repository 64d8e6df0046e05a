//! Joining the keys of texts, and the text of a set.
ghost use Rattle.std.specs.Prelude.{◌≡◌, ◌+◌, ◌++◌, false, nat_le, map, option_map, string_bytes, IfOk};
ghost use Rattle.std.specs.Str.{bytes_eq};
ghost use Rattle.serde_json.specs.View.{items_view};
ghost use Rattle.serde_json.specs.Written.{items_have_float};
ghost use Rattle.keys.specs.Limits.{limits};
ghost use Rattle.keys.specs.Code.Views.{key_view};
ghost use Rattle.keys.specs.Thumbprints.{thumbprint_of};
ghost use Rattle.prf.specs.declared.digests.HashAlg.TheVariants.{S256};
ghost use Rattle.tools.specs.Steps.{GivesUnlessMemory};
ghost use Rattle.tools.specs.Sets.{first_twice, has_octets, joined_items, no_keys, none_twice, set_keys, set_text, with_keys, with_text};
ghost use Rattle.tools.specs.SetViews.{all_keys, held_view, joined_view};

use crate::holding::hold;
use crate::sets::{HeldSet, JoinedSet};
use crate::tool_cause::{Place, Thumbprint, ToolCause, Why, needs};
use keys::{Key, KeySet, MOST_KEYS, thumbprint};
use octets::{Refusal, same_octets};
use prf::HashAlg;
use serde_json::{Map, Value, put};
use std::alloc::{AllocError, Global};

/// No keys.
pub(crate) fn no_keys(alloc: Global) -> JoinedSet
    ensures { joined_view result ≡ no_keys }
{
    JoinedSet {
        objects: Vec::new(alloc),
        sets: Vec::new(alloc),
    }
}

/// With the keys of one more text, none of which is there already.
pub(crate) fn with_text(
    alloc: Global,
    place: Place,
    joined: JoinedSet,
    text: &[u8],
) -> Result<JoinedSet, ToolCause>
    ensures { GivesUnlessMemory joined_view result (with_text place (joined_view joined) text.now) }
{
    let held = hold(alloc, place, text)?;
    with_keys(alloc, place, joined, held)
}

/// The keys of a text that must be a set.
pub(crate) fn set_keys(alloc: Global, text: &[u8]) -> Result<JoinedSet, ToolCause>
    ensures { GivesUnlessMemory joined_view result (set_keys text.now) }
{
    let held = hold(alloc, Place::Target, text)?;
    needs(held.is_set, ToolCause::At(Place::Target, Why::NoSet))?;
    with_keys(alloc, Place::Target, no_keys(alloc), held)
}

/// With the keys of one more text, none of which is there already.
#[tactic(auto, unfolding(crate::specs::Sets::with_keys), using(crate::proofs::JoinedKeys::counted))]
fn with_keys(
    alloc: Global,
    place: Place,
    joined: JoinedSet,
    held: HeldSet,
) -> Result<JoinedSet, ToolCause>
    ensures { GivesUnlessMemory joined_view result (with_keys place (joined_view joined) (held_view held)) }
{
    none_twice(alloc, place, &joined.sets, held.keys.keys())?;
    needs(
        are_few(joined.objects.len(), held.objects.len()),
        ToolCause::At(place, Why::Refused(Refusal::Limit)),
    )?;
    Ok(joined_with(joined, held)?)
}

#[tactic(auto, using(crate::proofs::JoinedKeys::items_view_append, crate::proofs::JoinedKeys::no_float_joined, crate::proofs::JoinedKeys::all_keys_append))]
fn joined_with(joined: JoinedSet, held: HeldSet) -> Result<JoinedSet, AllocError>
    ensures { IfOk result (λ both. joined_view both ≡ (record {
      objects = joined_items (items_view joined.objects.items) (items_view held.objects.items);
      keys = all_keys joined.sets.items ++ held.keys;
    })) }
{
    let JoinedSet {
        mut objects,
        mut sets,
    } = joined;
    let HeldSet {
        objects: mut more,
        keys,
        ..
    } = held;
    objects.append(&mut more)?;
    sets.push(keys)?;
    Ok(JoinedSet { objects, sets })
}

/// Whether so many keys are not too many for a set.
fn are_few(one: usize, other: usize) -> bool
    ensures { result ≡ nat_le (one + other) limits.keys }
{
    one <= MOST_KEYS && other <= MOST_KEYS - one
}

/// Refuses if one of the keys is there already.
fn none_twice(alloc: Global, place: Place, sets: &[KeySet], keys: &[Key]) -> Result<(), ToolCause>
    ensures { GivesUnlessMemory (λ done. done) result (none_twice place (first_twice (all_keys sets.now) (map key_view keys.now))) }
{
    match first_twice(sets, keys) {
        None => Ok(()),
        Some(key) => {
            let thumbprint = thumbprint_of(alloc, key)?;
            Err(ToolCause::At(place, Why::KeyTwice(thumbprint)))
        }
    }
}

/// The thumbprint of the key.
pub(crate) fn thumbprint_of(alloc: Global, key: &Key) -> Result<Thumbprint, AllocError>
    ensures { IfOk result (λ thumbprint. thumbprint ≡ thumbprint_of (key_view key.now) S256) }
{
    match thumbprint(alloc, key, HashAlg::S256) {
        Ok(text) => Ok(Thumbprint { text }),
        Err(_) => Err(AllocError),
    }
}

/// The first of the keys whose octets a key of the sets or an earlier one has.
fn first_twice<'k>(sets: &[KeySet], keys: &'k [Key]) -> Option<&'k Key>
    ensures { option_map (λ key. key_view key.now) result ≡ first_twice (all_keys sets.now) (map key_view keys.now) }
{
    for (i, key) in keys.iter().enumerate() {
        if are_among(sets, &keys[..i], key.octets()) {
            return Some(key);
        }
    }
    None
}

/// Whether these are the octets of a key of the sets, or of one of the other keys.
#[tactic(auto, using(crate::proofs::JoinedKeys::among_both))]
fn are_among(sets: &[KeySet], keys: &[Key], octets: &[u8]) -> bool
    ensures { result ≡ has_octets (all_keys sets.now ++ map key_view keys.now) octets.now }
{
    are_in_sets(sets, octets) || are_in_keys(keys, octets)
}

#[tactic(auto, using(crate::proofs::JoinedKeys::among_both))]
fn are_in_sets(sets: &[KeySet], octets: &[u8]) -> bool
    ensures { result ≡ has_octets (all_keys sets.now) octets.now }
{
    for set in sets {
        if are_in_keys(set.keys(), octets) {
            return true;
        }
    }
    false
}

fn are_in_keys(keys: &[Key], octets: &[u8]) -> bool
    ensures { result ≡ has_octets (map key_view keys.now) octets.now }
{
    for key in keys {
        if are_octets_of(key, octets) {
            return true;
        }
    }
    false
}

fn are_octets_of(key: &Key, octets: &[u8]) -> bool
    ensures { result ≡ bytes_eq (key_view key.now).octets octets.now }
{
    same_octets(key.octets(), octets)
}

/// The text of the set of these objects.
pub(crate) fn set_text(alloc: Global, objects: Vec<Value>) -> Result<String, AllocError>
    requires { items_have_float (items_view objects.items) ≡ false }
    ensures { IfOk result (λ text. string_bytes text ≡ set_text (items_view objects.items)) }
{
    let mut members = Map::new(alloc);
    put(&mut members, alloc, "keys", Value::Array(objects))?;
    Value::Object(members).to_string(alloc)
}
