//! The lines of keys: what each is good for, or why it is bad, and its members that are not secret.
ghost use Rattle.std.specs.Prelude.{◌≡◌, ◌++◌, ◌∷◌, [], decimal, false, get_or, true, nat_le, map, option_map, IfOk, OnOk, Ok};
ghost use Rattle.std.specs.List.{list_any};
ghost use Rattle.octets.specs.Base64url.{decoded};
ghost use Rattle.serde_json.specs.Find.{get};
ghost use Rattle.serde_json.specs.View.{view, items_view};
ghost use Rattle.serde_json.specs.Written.{has_float, items_have_float};
ghost use Rattle.keys.specs.Json.{json_value};
ghost use Rattle.keys.specs.KeySets.{items_count, key_objects};
ghost use Rattle.keys.specs.Limits.{limits};
ghost use Rattle.keys.specs.SetMembers.{members_of};
ghost use Rattle.keys.specs.Code.Views.{key_view};
ghost use Rattle.tools.specs.Code.{objects_of};
ghost use Rattle.tools.specs.LookedKeys.{character_hint, each_key_line, good_text, is_absent_or_string, is_standard_character, judgement, key_line, key_lines, lines_of_objects, why_bad, why_length, why_octets, wrong_parameter};
ghost use Rattle.tools.specs.Printing.{printed};
ghost use Rattle.objects.specs.Texts.{is_json_space};

use crate::holding::key_objects;
use crate::joining::thumbprint_of;
use crate::printing::{add, add_both, add_line};
use crate::serving::add_serving;
use crate::shown_values::{add_shown, secret_names};
use crate::tool_cause::{Place, unless_memory};
use keys::laws::members_keep_floats_out;
use keys::{Key, MOST_KEY_OCTETS, MOST_KEYS, read_members};
use octets::b64_decode;
use serde_json::Value;
use std::alloc::{AllocError, Global};

/// Adds a line for each key object of the value, which is that of the text, unless there are too many.
pub(crate) fn add_key_lines(
    alloc: Global,
    out: &mut Vec<u8>,
    text: &[u8],
    value: &Value,
) -> Result<(), AllocError>
    requires read { json_value text.now ≡ Ok (view value.now) }
    requires no_float { has_float (view value.now) ≡ false }
    ensures { OnOk result (out.new.items ≡ out.old.items ++ printed (key_lines (view value.now))) }
{
    members_keep_floats_out();
    match key_objects(Place::Target, value) {
        Err(_) => Ok(()),
        Ok(objects) => add_object_lines(alloc, out, text, objects),
    }
}

/// Adds a line for each of the objects, which are those of the text, unless there are too many.
fn add_object_lines(
    alloc: Global,
    out: &mut Vec<u8>,
    text: &[u8],
    objects: &[Value],
) -> Result<(), AllocError>
    requires read { objects_of text.now ≡ Ok (items_view objects.now) }
    requires no_float { items_have_float (items_view objects.now) ≡ false }
    ensures { OnOk result (out.new.items ≡ out.old.items ++ printed (lines_of_objects (items_view objects.now))) }
{
    if are_few(objects) {
        add_few(alloc, out, text, objects)
    } else {
        Ok(())
    }
}

/// Whether there are not too many objects.
#[tactic(auto, using(crate::proofs::JoinedKeys::counted))]
fn are_few(objects: &[Value]) -> bool
    ensures { result ≡ nat_le (items_count (items_view objects.now)) limits.keys }
{
    objects.len() <= MOST_KEYS
}

/// Adds a line for each of the objects, which are those of the text.
fn add_few(
    alloc: Global,
    out: &mut Vec<u8>,
    text: &[u8],
    objects: &[Value],
) -> Result<(), AllocError>
    requires read { objects_of text.now ≡ Ok (items_view objects.now) }
    requires few { nat_le (items_count (items_view objects.now)) limits.keys ≡ true }
    requires no_float { items_have_float (items_view objects.now) ≡ false }
    ensures { OnOk result (out.new.items ≡ out.old.items
        ++ printed (each_key_line (items_view objects.now) (members_of limits (items_view objects.now)))) }
{
    match read_members(alloc, text) {
        Ok(keys) => add_each(alloc, out, objects, &keys),
        Err(refusal) => {
            unless_memory(refusal)?;
            // No key is good.
            add_each(alloc, out, objects, &[])
        }
    }
}

/// Adds a line for each of the objects. Those after the last of the keys have none.
fn add_each(
    alloc: Global,
    out: &mut Vec<u8>,
    objects: &[Value],
    keys: &[Option<Key>],
) -> Result<(), AllocError>
    requires { items_have_float (items_view objects.now) ≡ false }
    ensures { OnOk result (out.new.items ≡ out.old.items ++ printed (each_key_line (items_view objects.now) (map (option_map key_view) keys.now))) }
{
    for (i, object) in objects.iter().enumerate() {
        add_key_line(alloc, out, object, key_at(keys, i))?;
    }
    Ok(())
}

/// The key at this place, if there is one.
fn key_at(keys: &[Option<Key>], i: usize) -> Option<&Key>
    ensures { option_map (λ key. key_view key.now) result ≡ get_or (map (option_map key_view) keys.now) i None }
{
    match keys.get(i) {
        Some(Some(key)) => Some(key),
        Some(None) | None => None,
    }
}

/// Adds the line of an object and its key.
fn add_key_line(
    alloc: Global,
    out: &mut Vec<u8>,
    value: &Value,
    key: Option<&Key>,
) -> Result<(), AllocError>
    requires { has_float (view value.now) ≡ false }
    ensures { OnOk result (out.new.items ≡ out.old.items ++ printed (key_line (view value.now) (option_map (λ key. key_view key.now) key.entry) ∷ [])) }
{
    let line = key_line(alloc, value, key)?;
    add_line(out, &line)
}

#[tactic(auto, using(std::proofs::Common::append_assoc))]
fn key_line(alloc: Global, value: &Value, key: Option<&Key>) -> Result<Vec<u8>, AllocError>
    requires { has_float (view value.now) ≡ false }
    ensures { IfOk result (λ line. line.items ≡ key_line (view value.now) (option_map (λ key. key_view key.now) key.entry)) }
{
    let mut line = Vec::new(alloc);
    add(&mut line, "key: ")?;
    add_judgement(alloc, &mut line, value, key)?;
    add(&mut line, " ")?;
    add_shown(alloc, &mut line, secret_names(), value)?;
    Ok(line)
}

#[tactic(auto, using(std::proofs::Common::append_assoc))]
fn add_judgement(
    alloc: Global,
    line: &mut Vec<u8>,
    value: &Value,
    key: Option<&Key>,
) -> Result<(), AllocError>
    ensures { OnOk result (line.new.items ≡ line.old.items ++ judgement (view value.now) (option_map (λ key. key_view key.now) key.entry)) }
{
    match key {
        Some(key) => {
            add(line, "good ")?;
            add_good(alloc, line, key)
        }
        None => {
            add(line, "bad, ")?;
            add_why(alloc, line, value)
        }
    }
}

/// Adds the key's thumbprint, its length, and what it may do.
#[tactic(auto, using(std::proofs::Common::append_assoc))]
fn add_good(alloc: Global, line: &mut Vec<u8>, key: &Key) -> Result<(), AllocError>
    ensures { OnOk result (line.new.items ≡ line.old.items ++ good_text (key_view key.now)) }
{
    let thumbprint = thumbprint_of(alloc, key)?;
    add(line, thumbprint.as_str())?;
    add(line, " ")?;
    add_number(alloc, line, key.octets().len())?;
    add(line, " bytes,")?;
    add_serving(line, key)
}

/// Adds the number in decimal.
pub(crate) fn add_number(alloc: Global, line: &mut Vec<u8>, n: usize) -> Result<(), AllocError>
    ensures { OnOk result (line.new.items ≡ line.old.items ++ decimal n) }
{
    let text = n.to_string(alloc)?;
    add(line, text.as_str())
}

/// Adds the first cause why the object is no octet key.
fn add_why(alloc: Global, line: &mut Vec<u8>, value: &Value) -> Result<(), AllocError>
    ensures { OnOk result (line.new.items ≡ line.old.items ++ why_bad (view value.now)) }
{
    let Some(kty) = value.get("kty") else {
        return add(line, "there is no kty");
    };
    let Some(kty) = kty.as_str() else {
        return add(line, "kty is no string");
    };
    if kty != "oct" {
        return add(line, "kty is not oct");
    }
    let Some(k) = value.get("k") else {
        return add(line, "there is no k");
    };
    let Some(text) = k.as_str() else {
        return add(line, "k is no string");
    };
    add_why_octets(alloc, line, text.as_bytes(), value)
}

/// So it does, if the octets of the key have this text.
fn add_why_octets(
    alloc: Global,
    line: &mut Vec<u8>,
    text: &[u8],
    value: &Value,
) -> Result<(), AllocError>
    ensures { OnOk result (line.new.items ≡ line.old.items ++ why_octets text.now (decoded text.now) (view value.now)) }
{
    match b64_decode(alloc, text) {
        Ok(octets) => add(line, why_length(octets.len(), value)),
        Err(refusal) => {
            unless_memory(refusal)?;
            add_both(line, "k is not base64url", character_hint(text))
        }
    }
}

/// So it is, if the key has so many octets.
fn why_length(len: usize, value: &Value) -> &'static str
    ensures { result.now ≡ why_length len (view value.now) }
{
    if len == 0 {
        "k is empty"
    } else if len <= MOST_KEY_OCTETS {
        wrong_parameter(value)
    } else {
        "k is too long"
    }
}

/// The parameter of a wrong type, if the other three are right.
fn wrong_parameter(value: &Value) -> &'static str
    ensures { result.now ≡ wrong_parameter (view value.now) }
{
    if !is_absent_or_string(value, "alg") {
        "alg is of a wrong type"
    } else if !is_absent_or_string(value, "use") {
        "use is of a wrong type"
    } else if !is_absent_or_string(value, "kid") {
        "kid is of a wrong type"
    } else {
        "key_ops is of a wrong type"
    }
}

fn is_absent_or_string(value: &Value, name: &str) -> bool
    ensures { result ≡ is_absent_or_string (get name.now (view value.now)) }
{
    match value.get(name) {
        None => true,
        Some(found) => found.as_str().is_some(),
    }
}

/// Why a text may be no base64url.
pub(crate) fn character_hint(text: &[u8]) -> &'static str
    ensures { result.now ≡ character_hint text.now }
{
    if has_space(text) {
        ": it has a space or a line end in it"
    } else if has_standard_character(text) {
        ": it has characters of standard base64, and not of base64url"
    } else {
        ""
    }
}

fn has_space(text: &[u8]) -> bool
    ensures { result ≡ list_any is_json_space text.now }
{
    text.iter().any(|c| is_json_space(*c))
}

fn has_standard_character(text: &[u8]) -> bool
    ensures { result ≡ list_any is_standard_character text.now }
{
    text.iter().any(|c| is_standard_character(*c))
}

pub(crate) fn is_json_space(c: u8) -> bool
    ensures { result ≡ is_json_space c }
{
    c == b' ' || c == b'\t' || c == b'\n' || c == b'\r'
}

fn is_standard_character(c: u8) -> bool
    ensures { result ≡ is_standard_character c }
{
    c == b'+' || c == b'/' || c == b'='
}
