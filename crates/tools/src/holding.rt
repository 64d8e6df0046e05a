//! The keys of one text.
ghost use Rattle.std.specs.Prelude.{◌≡◌, true, false, IfOk};
ghost use Rattle.serde_json.specs.View.{view, items_view};
ghost use Rattle.serde_json.specs.Written.{has_float, items_have_float};
ghost use Rattle.keys.specs.Json.{json_value};
ghost use Rattle.keys.specs.KeySets.{key_objects, key_set};
ghost use Rattle.keys.specs.Limits.{limits};
ghost use Rattle.tools.specs.Steps.{GivesUnlessMemory, needs};
ghost use Rattle.tools.specs.Sets.{are_shallow, held_keys, is_set, judged, refused_by};
ghost use Rattle.tools.specs.SetViews.{held_view, seen};

use crate::sets::HeldSet;
use crate::tool_cause::{Place, ToolCause, Why, needs};
use keys::laws::members_keep_floats_out;
use keys::{KeySet, are_objects, has_only, is_object, nests_at_most, read_json};
use octets::Refusal;
use serde_json::Value;
use std::alloc::{AllocError, Global};
use std::slice;

/// The greatest depth of an object in a set that can be read.
const MOST_DEPTH: usize = 125;

/// What the text holds. Each of its keys must be good, and a set has no other member than `keys`.
#[tactic(auto, unfolding(crate::specs::Sets::held_keys))]
pub(crate) fn hold(alloc: Global, place: Place, text: &[u8]) -> Result<HeldSet, ToolCause>
    ensures { GivesUnlessMemory held_view result (held_keys place text.now) }
{
    let keys = read_keys(alloc, place, text)?;
    let value = read_value(alloc, place, text)?;
    let objects = read_objects(alloc, place, &value)?;
    let is_set = is_set(&value);
    needs(
        !is_set || has_only(&value, &["keys"]),
        ToolCause::At(place, Why::OtherMember),
    )?;
    needs(
        are_shallow(&objects),
        ToolCause::At(place, Why::Refused(Refusal::Limit)),
    )?;
    Ok(HeldSet {
        is_set,
        objects,
        keys,
    })
}

/// What `jose` refuses, with the place.
fn refused_by(place: Place, refusal: Refusal) -> ToolCause
    ensures { result ≡ refused_by place refusal }
{
    match refusal {
        Refusal::Memory => ToolCause::Memory,
        refusal => ToolCause::At(place, Why::Refused(refusal)),
    }
}

fn read_keys(alloc: Global, place: Place, text: &[u8]) -> Result<KeySet, ToolCause>
    ensures { GivesUnlessMemory (λ keys. keys) result (judged place (key_set limits text.now true)) }
{
    match KeySet::read(alloc, text, true) {
        Ok(keys) => Ok(keys),
        Err(refusal) => Err(refused_by(place, refusal)),
    }
}

fn read_value(alloc: Global, place: Place, text: &[u8]) -> Result<Value, ToolCause>
    ensures exact { GivesUnlessMemory view result (judged place (json_value text.now)) }
    ensures no_float { IfOk result (λ value. has_float (view value) ≡ false) }
{
    match read_json(alloc, text) {
        Ok(value) => Ok(value),
        Err(refusal) => Err(refused_by(place, refusal)),
    }
}

/// The key objects of the value.
fn read_objects(alloc: Global, place: Place, value: &Value) -> Result<Vec<Value>, ToolCause>
    requires { has_float (view value.now) ≡ false }
    ensures exact { GivesUnlessMemory (λ objects. items_view objects.items) result (judged place (key_objects (view value.now))) }
    ensures no_float { IfOk result (λ objects. items_have_float (items_view objects.items) ≡ false) }
{
    members_keep_floats_out();
    let objects = key_objects(place, value)?;
    Ok(copies(alloc, objects)?)
}

/// The items of the member `keys`, or the value itself if it has no such member.
#[tactic(auto, unfolding(keys::specs::KeySets::key_objects))]
pub(crate) fn key_objects(place: Place, value: &Value) -> Result<&[Value], ToolCause>
    ensures { seen (λ objects. items_view objects.now) result ≡ judged place (key_objects (view value.now)) }
{
    needs(is_object(value), bad_key(place))?;
    match value.get("keys") {
        None => Ok(slice::from_ref(value)),
        Some(list) => match list.as_array() {
            None => Err(bad_key(place)),
            Some(objects) => {
                needs(are_objects(objects), bad_key(place))?;
                Ok(objects)
            }
        },
    }
}

fn bad_key(place: Place) -> ToolCause
    ensures { result ≡ refused_by place Refusal.Key }
{
    ToolCause::At(place, Why::Refused(Refusal::Key))
}

fn copies(alloc: Global, objects: &[Value]) -> Result<Vec<Value>, AllocError>
    ensures { IfOk result (λ copies. items_view copies.items ≡ items_view objects.now) }
{
    let mut copies = Vec::new(alloc);
    for object in objects {
        copies.push(object.clone()?)?;
    }
    Ok(copies)
}

fn is_set(value: &Value) -> bool
    ensures { result ≡ is_set (view value.now) }
{
    value.get("keys").is_some()
}

/// Whether no object is deeper than it may be in a set.
fn are_shallow(objects: &[Value]) -> bool
    ensures { result ≡ are_shallow (items_view objects.now) }
{
    for object in objects {
        if !nests_at_most(object, MOST_DEPTH) {
            return false;
        }
    }
    true
}
