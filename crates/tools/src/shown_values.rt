//! The compact texts of values, in which each member of some names is hidden.
ghost use Rattle.std.specs.Prelude.{◌≡◌, ◌++◌, false, map, if◌then◌else◌, OnOk};
ghost use Rattle.serde_json.specs.View.{view, items_view, members_view};
ghost use Rattle.serde_json.specs.Written.{comma_if, compact_text, has_float, items_have_float, items_text, members_have_float, members_text};
ghost use Rattle.json.specs.Print.{quoted};
ghost use Rattle.keys.specs.Texts.{is_among};
ghost use Rattle.tools.specs.ShownValues.{hidden, object_names, secret_names, shown, shown_items, shown_members, shown_text};

use serde_json::{Map, Value};
use std::alloc::{AllocError, Global};

/// The names of the secret members of keys.
pub(crate) fn secret_names() -> &'static [&'static str]
    ensures { map (λ name. name.now) result.now ≡ secret_names }
{
    &["k", "d", "p", "q", "dp", "dq", "qi", "oth"]
}

/// The names of the members of an object that are hidden: the content, the protected headers, and the secret members of keys.
pub(crate) fn object_names() -> &'static [&'static str]
    ensures { map (λ name. name.now) result.now ≡ object_names }
{
    &[
        "payload",
        "ciphertext",
        "protected",
        "k",
        "d",
        "p",
        "q",
        "dp",
        "dq",
        "qi",
        "oth",
    ]
}

/// Adds the compact text of the value, in which each member of these names is hidden, at any depth.
#[cycle(shown)]
pub(crate) fn add_shown(
    alloc: Global,
    text: &mut Vec<u8>,
    names: &[&str],
    value: &Value,
) -> Result<(), AllocError>
    requires { has_float (view value.now) ≡ false }
    ensures { OnOk result (text.new.items ≡ text.old.items ++ shown_text (map (λ n. n.now) names.now) (view value.now)) }
{
    match value {
        Value::Null | Value::Bool(_) | Value::Number(_) | Value::String(_) => {
            add_compact(alloc, text, value)
        }
        Value::Array(items) => {
            text.push(b'[')?;
            add_items(alloc, text, names, items)
        }
        Value::Object(members) => {
            text.push(b'{')?;
            add_members(alloc, text, names, members)
        }
    }
}

#[cycle(shown)]
fn add_items(
    alloc: Global,
    text: &mut Vec<u8>,
    names: &[&str],
    items: &Vec<Value>,
) -> Result<(), AllocError>
    requires { items_have_float (items_view items.now.items) ≡ false }
    ensures { OnOk result (text.new.items ≡ text.old.items ++ items_text false (shown_items (map (λ n. n.now) names.now) (items_view items.now.items))) }
{
    let mut later = false;
    for item in items {
        add_comma(text, later)?;
        add_shown(alloc, text, names, item)?;
        later = true;
    }
    Ok(text.push(b']')?)
}

#[cycle(shown)]
fn add_members(
    alloc: Global,
    text: &mut Vec<u8>,
    names: &[&str],
    members: &Map<String, Value>,
) -> Result<(), AllocError>
    requires { members_have_float (members_view members.now.entries) ≡ false }
    ensures { OnOk result (text.new.items ≡ text.old.items
        ++ members_text false (shown_members (map (λ n. n.now) names.now) (members_view members.now.entries))) }
{
    let mut later = false;
    for (name, member) in members.iter() {
        add_comma(text, later)?;
        add_quoted(alloc, text, name.as_str())?;
        text.push(b':')?;
        add_member(alloc, text, names, name.as_str(), member)?;
        later = true;
    }
    Ok(text.push(b'}')?)
}

/// Adds the value of the member of this name, unless it is hidden.
#[cycle(shown)]
fn add_member(
    alloc: Global,
    text: &mut Vec<u8>,
    names: &[&str],
    name: &str,
    member: &Value,
) -> Result<(), AllocError>
    requires { has_float (view member.now) ≡ false }
    ensures { OnOk result (text.new.items ≡ text.old.items
        ++ compact_text (if is_among (map (λ n. n.now) names.now) name.now then hidden else shown (map (λ n. n.now) names.now) (view member.now))) }
{
    if is_among(names, name) {
        add_quoted(alloc, text, "..")
    } else {
        add_shown(alloc, text, names, member)
    }
}

/// Whether the text is one of these names.
fn is_among(names: &[&str], text: &str) -> bool
    ensures { result ≡ is_among (map (λ n. n.now) names.now) text.now }
{
    for name in names {
        if *name == text {
            return true;
        }
    }
    false
}

/// Adds a comma where something stands before.
fn add_comma(text: &mut Vec<u8>, later: bool) -> Result<(), AllocError>
    ensures { OnOk result (text.new.items ≡ text.old.items ++ comma_if later) }
{
    if later { Ok(text.push(b',')?) } else { Ok(()) }
}

/// Adds the compact text of the value.
fn add_compact(alloc: Global, text: &mut Vec<u8>, value: &Value) -> Result<(), AllocError>
    requires { has_float (view value.now) ≡ false }
    ensures { OnOk result (text.new.items ≡ text.old.items ++ compact_text (view value.now)) }
{
    let compact = value.to_string(alloc)?;
    text.extend_from_slice(compact.as_bytes())
}

/// Adds the string between quotes, with its escapes.
fn add_quoted(alloc: Global, text: &mut Vec<u8>, string: &str) -> Result<(), AllocError>
    ensures { OnOk result (text.new.items ≡ text.old.items ++ quoted string.now) }
{
    let value = Value::try_from_str(alloc, string)?;
    add_compact(alloc, text, &value)
}
