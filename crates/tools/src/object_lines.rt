//! The lines of signed and encrypted objects and of other JSON objects: their values, their protected headers, and how many signatures or
//! recipients they have.
ghost use Rattle.std.specs.Prelude.{◌≡◌, ◌++◌, ◌∷◌, [], false, length, option_map, position, ◌<◌, IfOk, IfSome, OnOk};
ghost use Rattle.octets.specs.Code.Results.{AgreesUnlessMemory};
ghost use Rattle.serde_json.specs.View.{view, items_view};
ghost use Rattle.serde_json.specs.Written.{has_float};
ghost use Rattle.objects.specs.Texts.{is_dot};
ghost use Rattle.tools.specs.LookedObjects.{before_dot, count_line, count_or_one, each_header_line, header_line, header_lines, header_value, items_at, object_line, object_lines, own_header_line, part_lines, shown_header};
ghost use Rattle.tools.specs.ObjectPlaces.{first_part, later_parts};
ghost use Rattle.tools.specs.Printing.{printed};

use crate::looked_keys::add_number;
use crate::printing::{add, add_both, add_line};
use crate::shown_values::{add_shown, object_names, secret_names};
use crate::tool_cause::unless_memory;
use keys::read_json;
use octets::{Refusal, b64_decode};
use serde_json::Value;
use std::alloc::{AllocError, Global};

/// Adds the lines of an object: its value, its protected headers, and how many items its list of this name has.
pub(crate) fn add_object_lines(
    alloc: Global,
    out: &mut Vec<u8>,
    value: &Value,
    list: &str,
) -> Result<(), AllocError>
    requires { has_float (view value.now) ≡ false }
    ensures { OnOk result (out.new.items ≡ out.old.items ++ printed (object_lines list.now (view value.now))) }
{
    add_object_line(alloc, out, value)?;
    add_header_lines(alloc, out, value)?;
    add_count_line(alloc, out, list, count_or_one(value, list))
}

pub(crate) fn add_object_line(
    alloc: Global,
    out: &mut Vec<u8>,
    value: &Value,
) -> Result<(), AllocError>
    requires { has_float (view value.now) ≡ false }
    ensures { OnOk result (out.new.items ≡ out.old.items ++ printed (object_line (view value.now) ∷ [])) }
{
    let mut line = Vec::new(alloc);
    add(&mut line, "object: ")?;
    add_shown(alloc, &mut line, object_names(), value)?;
    add_line(out, &line)
}

/// Adds the lines of the protected headers: of the object, and then of its signatures.
#[tactic(auto, using(crate::proofs::Printable::printed_then))]
fn add_header_lines(alloc: Global, out: &mut Vec<u8>, value: &Value) -> Result<(), AllocError>
    ensures { OnOk result (out.new.items ≡ out.old.items ++ printed (header_lines (view value.now))) }
{
    add_own_header_line(alloc, out, value)?;
    match items_at(value, "signatures") {
        None => Ok(()),
        Some(items) => add_each_header_line(alloc, out, items),
    }
}

fn add_each_header_line(
    alloc: Global,
    out: &mut Vec<u8>,
    items: &Vec<Value>,
) -> Result<(), AllocError>
    ensures { OnOk result (out.new.items ≡ out.old.items ++ printed (each_header_line (items_view items.now.items))) }
{
    for item in items {
        add_own_header_line(alloc, out, item)?;
    }
    Ok(())
}

/// Adds the line of the header in the member `protected`, if it is a string.
fn add_own_header_line(alloc: Global, out: &mut Vec<u8>, value: &Value) -> Result<(), AllocError>
    ensures { OnOk result (out.new.items ≡ out.old.items ++ printed (own_header_line (view value.now))) }
{
    match value.get("protected").and_then(Value::as_str) {
        None => Ok(()),
        Some(text) => add_header_line(alloc, out, text.as_bytes()),
    }
}

/// Adds the line of the protected header of this text, unless it is empty.
fn add_header_line(alloc: Global, out: &mut Vec<u8>, text: &[u8]) -> Result<(), AllocError>
    ensures { OnOk result (out.new.items ≡ out.old.items ++ printed (header_line text.now)) }
{
    if text.is_empty() {
        return Ok(());
    }
    let mut line = Vec::new(alloc);
    add(&mut line, "protected: ")?;
    add_header(alloc, &mut line, text)?;
    add_line(out, &line)
}

/// Adds the JSON value of the header, or its refusal by `jose`.
fn add_header(alloc: Global, line: &mut Vec<u8>, text: &[u8]) -> Result<(), AllocError>
    ensures { OnOk result (line.new.items ≡ line.old.items ++ shown_header (header_value text.now)) }
{
    match header_value(alloc, text) {
        Ok(value) => add_shown(alloc, line, secret_names(), &value),
        Err(refusal) => {
            let refusal = unless_memory(refusal)?;
            add_both(line, "jose: ", refusal.text())
        }
    }
}

#[tactic(auto, unfolding(crate::specs::LookedObjects::header_value))]
fn header_value(alloc: Global, text: &[u8]) -> Result<Value, Refusal>
    ensures exact { AgreesUnlessMemory view result (header_value text.now) }
    ensures no_float { IfOk result (λ value. has_float (view value) ≡ false) }
{
    let octets = b64_decode(alloc, text)?;
    read_json(alloc, &octets)
}

/// The items of the list of this name, if there is one.
fn items_at<'v>(value: &'v Value, name: &str) -> Option<&'v Vec<Value>>
    ensures { option_map (λ items. items_view items.now.items) result ≡ items_at name.now (view value.now) }
{
    value.get(name).and_then(Value::as_array)
}

/// How many items the list of this name has, or 1 if there is none.
#[tactic(auto, using(crate::proofs::JoinedKeys::counted))]
fn count_or_one(value: &Value, name: &str) -> usize
    ensures { result ≡ count_or_one (items_at name.now (view value.now)) }
{
    match items_at(value, name) {
        None => 1,
        Some(items) => items.len(),
    }
}

#[tactic(auto, using(std::proofs::Common::append_assoc))]
fn add_count_line(
    alloc: Global,
    out: &mut Vec<u8>,
    name: &str,
    count: usize,
) -> Result<(), AllocError>
    ensures { OnOk result (out.new.items ≡ out.old.items ++ printed (count_line name.now count ∷ [])) }
{
    let mut line = Vec::new(alloc);
    add(&mut line, name)?;
    add(&mut line, ": ")?;
    add_number(alloc, &mut line, count)?;
    add_line(out, &line)
}

/// Adds the lines of an object in compact form, which has one signature or one recipient.
pub(crate) fn add_part_lines(
    alloc: Global,
    out: &mut Vec<u8>,
    part: &[u8],
    list: &str,
) -> Result<(), AllocError>
    ensures { OnOk result (out.new.items ≡ out.old.items ++ printed (part_lines list.now part.now)) }
{
    add_header_line(alloc, out, before_dot(part))?;
    add_count_line(alloc, out, list, 1)
}

/// What is before the first dot.
pub(crate) fn before_dot(text: &[u8]) -> &[u8]
    ensures { result.now ≡ first_part text.now }
{
    match first_dot(text) {
        None => &[],
        Some(dot) => &text[..dot],
    }
}

/// What is after the first dot.
pub(crate) fn after_dot(text: &[u8]) -> &[u8]
    ensures { result.now ≡ later_parts text.now }
{
    match first_dot(text) {
        None => &[],
        Some(dot) => &text[dot + 1..],
    }
}

fn first_dot(text: &[u8]) -> Option<usize>
    ensures place { result ≡ position is_dot text.now }
    ensures inside { IfSome result (λ dot. dot < length text.now) }
{
    text.iter().position(|c| *c == b'.')
}
