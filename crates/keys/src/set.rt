//! Keys and sets of keys (RFC 7517 section 5), read from a key text.
ghost use Rattle.std.specs.Prelude.{◌≡◌, ◌≤◌, IfOk, IfErr, is_some, length, map, option_map};
ghost use Rattle.std.specs.List.{list_any};
ghost use Rattle.octets.specs.declared.refusal.Refusal.{Refusal};
ghost use Rattle.serde_json.specs.View.{view, items_view};
ghost use Rattle.octets.specs.Code.Results.{Agrees, AgreesUnlessMemory};
ghost use Rattle.keys.specs.KeySets.{key_set, value_keys, key_objects, octet_keys, are_objects};
ghost use Rattle.keys.specs.SetMembers.{key_members, members_of};
ghost use Rattle.keys.specs.Keys.{AreOctetKeys};
ghost use Rattle.keys.specs.Limits.{limits};
ghost use Rattle.keys.specs.Code.Views.{key_view};

use crate::key::Key;
use crate::limits::MOST_KEYS;
use crate::octet_key::read_key;
use crate::strict_json::{is_object, read_json};
use octets::{Refusal, needs};
use serde_json::Value;
use std::alloc::Global;
use std::marker::Model;
use std::slice;

/// The good octet keys of a text, in order: from one to `MOST_KEYS`.
#[derive(Drop)]
pub struct KeySet {
    keys: Vec<Key>,
}

impl Model for KeySet {
    ghost use Rattle.std.specs.Prelude.{◌≤◌, List, length, map};
    ghost use Rattle.keys.specs.Keys.{OctetKey};
    ghost use Rattle.keys.specs.Limits.{limits};
    ghost use Rattle.keys.specs.Code.Views.{key_view};

    ghost Value = { List OctetKey };

    ghost view = { λ set. map key_view set.keys.items };

    ghost invariant = { λ set. (1 ≤ length set.keys.items) × (length set.keys.items ≤ limits.keys) };
}

impl KeySet {
    /// Reads the keys of a JSON text: one key, or a set with the member `keys`. With `strict` all of them must be good octet keys. Refuses,
    /// in this order, with `Json`; `Number`; `Key` if the text is no object, or its `keys` is no list of objects; `Limit` if there are more
    /// than `MOST_KEYS`; and `Key` if no key is good, or one is bad with `strict`. May fail with `Memory`.
    #[tactic(auto, unfolding(crate::specs::KeySets::key_set))]
    pub fn read(alloc: Global, text: &[u8], strict: bool) -> Result<KeySet, Refusal>
        ensures { AgreesUnlessMemory (λ set. set) result (key_set limits text.now strict) }
    {
        let value = read_json(alloc, text)?;
        let keys = value_keys(alloc, &value, strict)?;
        Ok(KeySet { keys })
    }

    /// The keys, in the order of the text.
    #[tactic(auto, using(crate::proofs::KeyLists::have_octets))]
    pub fn keys(&self) -> &[Key]
        ensures list { map key_view result.now ≡ self.now }
        ensures some { 1 ≤ length result.now }
        ensures few { length result.now ≤ limits.keys }
        ensures octets { AreOctetKeys self.now }
    {
        &self.keys
    }
}

/// The members of a JSON text of keys, in order: those of a set, or the key that is alone. A member is `None` if it is no good octet key. At
/// least one is good. Refuses as `KeySet::read` does without `strict`. May fail with `Memory`.
#[tactic(auto, unfolding(crate::specs::SetMembers::key_members), using(crate::proofs::KeyLists::items_counted, crate::proofs::SetMembers::some_viewed))]
pub fn read_members(alloc: Global, text: &[u8]) -> Result<Vec<Option<Key>>, Refusal>
    ensures { AgreesUnlessMemory (λ members. map (option_map key_view) members.items) result (key_members limits text.now) }
{
    let value = read_json(alloc, text)?;
    let objects = key_objects(&value)?;
    let few = objects.len() <= MOST_KEYS;
    needs(few, Refusal::Limit)?;
    let members = members_of(alloc, objects)?;
    needs(has_good(&members), Refusal::Key)?;
    Ok(members)
}

/// Whether some member is a good key.
fn has_good(members: &[Option<Key>]) -> bool
    ensures { result ≡ list_any (λ member. is_some (option_map key_view member)) members.now }
{
    members.iter().any(|member| member.is_some())
}

/// The key of each object, or `None` if it is bad.
fn members_of(alloc: Global, objects: &[Value]) -> Result<Vec<Option<Key>>, Refusal>
    ensures exact { IfOk result (λ members. map (option_map key_view) members.items ≡ members_of limits (items_view objects.now)) }
    ensures memory { IfErr result (λ e. e ≡ Refusal.Memory) }
{
    let mut members = Vec::new(alloc);
    for value in objects {
        match read_key(alloc, value) {
            Ok(key) => members.push(Some(key))?,
            Err(Refusal::Memory) => return Err(Refusal::Memory),
            Err(_) => members.push(None)?,
        }
    }
    Ok(members)
}

/// The good octet keys of the value, at least one.
#[tactic(auto, unfolding(crate::specs::KeySets::value_keys), using(crate::proofs::KeyLists::items_counted, crate::proofs::KeyLists::keys_counted))]
fn value_keys(alloc: Global, value: &Value, strict: bool) -> Result<Vec<Key>, Refusal>
    ensures exact { AgreesUnlessMemory (λ keys. map key_view keys.items) result (value_keys limits (view value.now) strict) }
    ensures count { IfOk result (λ keys. (1 ≤ length keys.items) × (length keys.items ≤ limits.keys)) }
{
    let objects = key_objects(value)?;
    needs(objects.len() <= MOST_KEYS, Refusal::Limit)?;
    let keys = read_keys(alloc, objects, strict)?;
    needs(!keys.is_empty(), Refusal::Key)?;
    Ok(keys)
}

/// The objects of the text: those of its member `keys`, or the value itself if it has none.
#[tactic(auto, unfolding(crate::specs::KeySets::key_objects))]
fn key_objects(value: &Value) -> Result<&[Value], Refusal>
    ensures { Agrees (λ values. items_view values.now) result (key_objects (view value.now)) }
{
    needs(is_object(value), Refusal::Key)?;
    match value.get("keys") {
        None => Ok(slice::from_ref(value)),
        Some(list) => {
            let values = list.as_array().ok_or(Refusal::Key)?;
            needs(are_objects(values), Refusal::Key)?;
            Ok(values)
        }
    }
}

/// Whether each value is an object.
pub fn are_objects(values: &[Value]) -> bool
    ensures { result ≡ are_objects (items_view values.now) }
{
    for value in values {
        if !is_object(value) {
            return false;
        }
    }
    true
}

/// The keys of the objects. With `strict` a bad one is refused, and otherwise it is passed over.
fn read_keys(alloc: Global, objects: &[Value], strict: bool) -> Result<Vec<Key>, Refusal>
    ensures exact { AgreesUnlessMemory (λ keys. map key_view keys.items) result (octet_keys limits strict (items_view objects.now)) }
    ensures count { IfOk result (λ keys. length keys.items ≤ length objects.now) }
{
    let mut keys = Vec::new(alloc);
    for value in objects {
        match read_key(alloc, value) {
            Ok(key) => keys.push(key)?,
            Err(Refusal::Memory) => return Err(Refusal::Memory),
            Err(_) if !strict => {}
            Err(refusal) => return Err(refusal),
        }
    }
    Ok(keys)
}
