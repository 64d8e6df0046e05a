//! JSON texts and their values, whatever they are for.
ghost use Rattle.std.specs.Prelude.{◌≡◌, false, IfOk, map, nat_le, suc};
ghost use Rattle.serde_json.specs.View.{view, items_view, members_view};
ghost use Rattle.serde_json.specs.Data.{depth as depth_of, items_depth, members_depth};
ghost use Rattle.serde_json.specs.Written.{has_float};
ghost use Rattle.octets.specs.Code.Results.{AgreesUnlessMemory};
ghost use Rattle.keys.specs.Json.{json_reading, json_value, is_object, numbers_are_whole, item_numbers_are_whole, member_numbers_are_whole, has_only, members_have_only};

use crate::texts::is_among;
use octets::{Refusal, needs};
use serde_json::{Map, Value};
use std::alloc::Global;

/// The value of a JSON text (RFC 8259). Refuses with `Json` if the octets are no JSON in UTF-8, or nest deeper than 127. Then refuses with
/// `Number` if a number is not whole or not of 64 bits, with or without a sign: `1.0` and `-0` are refused. May fail with `Memory`. The text
/// `{}`, which many templates are, needs no reading.
#[tactic(auto, unfolding(crate::specs::Json::json_value))]
pub fn read_json(alloc: Global, octets: &[u8]) -> Result<Value, Refusal>
    ensures exact { AgreesUnlessMemory view result (json_value octets.now) }
    ensures no_float { IfOk result (λ value. has_float (view value) ≡ false) }
{
    if octets == b"{}".as_slice() {
        return Ok(Value::Object(Map::new(alloc)));
    }
    let value = read_value(alloc, octets)?;
    needs(has_whole_numbers(&value), Refusal::Number)?;
    Ok(value)
}

/// The value of a JSON text, with any numbers.
#[tactic(auto, unfolding(crate::specs::Json::json_reading))]
fn read_value(alloc: Global, octets: &[u8]) -> Result<Value, Refusal>
    ensures { AgreesUnlessMemory view result (json_reading octets.now) }
{
    match Value::from_slice(alloc, octets) {
        Ok(value) => Ok(value),
        Err(error) if error.is_memory() => Err(Refusal::Memory),
        Err(_) => Err(Refusal::Json),
    }
}

/// Whether each number in the value has an `as_i64` or an `as_u64`.
#[cycle(numbers)]
fn has_whole_numbers(value: &Value) -> bool
    ensures { result ≡ numbers_are_whole (view value.now) }
{
    match value {
        Value::Null | Value::Bool(_) | Value::String(_) => true,
        Value::Number(number) => number.is_i64() || number.is_u64(),
        Value::Array(items) => items_have_whole_numbers(items),
        Value::Object(members) => members_have_whole_numbers(members),
    }
}

#[cycle(numbers)]
fn items_have_whole_numbers(items: &Vec<Value>) -> bool
    ensures { result ≡ item_numbers_are_whole (items_view items.now.items) }
{
    for item in items {
        if !has_whole_numbers(item) {
            return false;
        }
    }
    true
}

/// Whether each number in these members has an `as_i64` or an `as_u64`.
#[cycle(numbers)]
pub fn members_have_whole_numbers(members: &Map<String, Value>) -> bool
    ensures { result ≡ member_numbers_are_whole (members_view members.now.entries) }
{
    for (_, member) in members.iter() {
        if !has_whole_numbers(member) {
            return false;
        }
    }
    true
}

/// Whether the value is an object.
pub fn is_object(value: &Value) -> bool
    ensures { result ≡ is_object (view value.now) }
{
    value.is_object()
}

/// Whether the value nests at most `depth` deep. An object or a list without objects and lists is 1 deep.
#[cycle(depth)]
pub fn nests_at_most(value: &Value, depth: usize) -> bool
    ensures { result ≡ nat_le (depth_of (view value.now)) depth }
{
    match value {
        Value::Null | Value::Bool(_) | Value::Number(_) | Value::String(_) => true,
        Value::Array(items) => 1 <= depth && items_nest_at_most(items, depth - 1),
        Value::Object(members) => object_nests_at_most(members, depth),
    }
}

/// Whether the object with these members nests at most `depth` deep.
#[cycle(depth)]
pub fn object_nests_at_most(members: &Map<String, Value>, depth: usize) -> bool
    ensures { result ≡ nat_le (suc (members_depth (members_view members.now.entries))) depth }
{
    1 <= depth && members_nest_at_most(members, depth - 1)
}

#[cycle(depth)]
fn items_nest_at_most(items: &Vec<Value>, depth: usize) -> bool
    ensures { result ≡ nat_le (items_depth (items_view items.now.items)) depth }
{
    for item in items {
        if !nests_at_most(item, depth) {
            return false;
        }
    }
    true
}

#[cycle(depth)]
fn members_nest_at_most(members: &Map<String, Value>, depth: usize) -> bool
    ensures { result ≡ nat_le (members_depth (members_view members.now.entries)) depth }
{
    for (_, member) in members.iter() {
        if !nests_at_most(member, depth) {
            return false;
        }
    }
    true
}

/// Whether each member of an object has one of these names. Other values have no members.
pub fn has_only(value: &Value, names: &[&str]) -> bool
    ensures { result ≡ has_only (map (λ n. n.now) names.now) (view value.now) }
{
    match value {
        Value::Object(members) => members_have_only(members, names),
        _ => true,
    }
}

fn members_have_only(members: &Map<String, Value>, names: &[&str]) -> bool
    ensures { result ≡ members_have_only (map (λ n. n.now) names.now) (members_view members.now.entries) }
{
    for (name, _) in members.iter() {
        if !is_among(names, name.as_str()) {
            return false;
        }
    }
    true
}
