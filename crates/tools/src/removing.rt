//! The text of a set without some of its keys.
ghost use Rattle.std.specs.Prelude.{◌≡◌, false, map, string_bytes, IfOk};
ghost use Rattle.serde_json.specs.View.{items_view};
ghost use Rattle.serde_json.specs.Written.{items_have_float};
ghost use Rattle.keys.specs.Code.Views.{key_view};
ghost use Rattle.keys.specs.Texts.{is_among};
ghost use Rattle.tools.specs.Steps.{GivesUnlessMemory};
ghost use Rattle.tools.specs.Sets.{all_there, first_unknown, left, set_text, text_without, thumbprints};

use crate::holding::hold;
use crate::joining::{set_text, thumbprint_of};
use crate::tool_cause::{Place, Thumbprint, ToolCause, Why, needs};
use keys::Key;
use serde_json::Value;
use std::alloc::{AllocError, Global};

/// The text of the set without the keys of these thumbprints.
#[tactic(auto, unfolding(crate::specs::Sets::text_without), using(crate::proofs::JoinedKeys::counted))]
pub(crate) fn text_without(
    alloc: Global,
    names: &[String],
    text: &[u8],
) -> Result<String, ToolCause>
    ensures { GivesUnlessMemory string_bytes result (text_without (map string_bytes names.now) text.now) }
{
    let held = hold(alloc, Place::Target, text)?;
    let prints = thumbprints(alloc, held.keys.keys())?;
    all_there(first_unknown(names, &prints))?;
    let left = left(alloc, names, &prints, &held.objects)?;
    needs(
        !left.is_empty(),
        ToolCause::At(Place::Target, Why::NoneStays),
    )?;
    Ok(set_text(alloc, left)?)
}

fn thumbprints(alloc: Global, keys: &[Key]) -> Result<Vec<Thumbprint>, AllocError>
    ensures { IfOk result (λ prints. prints.items ≡ thumbprints (map key_view keys.now)) }
{
    let mut prints = Vec::new(alloc);
    for key in keys {
        prints.push(thumbprint_of(alloc, key)?)?;
    }
    Ok(prints)
}

/// Refuses if a thumbprint at this place among the words is that of no key.
fn all_there(unknown: Option<usize>) -> Result<(), ToolCause>
    ensures { result ≡ all_there unknown }
{
    match unknown {
        None => Ok(()),
        Some(at) => Err(ToolCause::At(Place::Target, Why::NoKey(at))),
    }
}

/// The place of the first name that is the thumbprint of no key.
fn first_unknown(names: &[String], prints: &[Thumbprint]) -> Option<usize>
    ensures { result ≡ first_unknown 0 prints.now (map string_bytes names.now) }
{
    for (i, name) in names.iter().enumerate() {
        if !has_thumbprint(prints, name.as_str()) {
            return Some(i);
        }
    }
    None
}

fn has_thumbprint(prints: &[Thumbprint], name: &str) -> bool
    ensures { result ≡ is_among prints.now name.now }
{
    for print in prints {
        if print.as_str() == name {
            return true;
        }
    }
    false
}

fn is_named(names: &[String], print: &Thumbprint) -> bool
    ensures { result ≡ is_among (map string_bytes names.now) print.now }
{
    for name in names {
        if name.as_str() == print.as_str() {
            return true;
        }
    }
    false
}

/// The objects whose thumbprint is not named.
fn left(
    alloc: Global,
    names: &[String],
    prints: &[Thumbprint],
    objects: &[Value],
) -> Result<Vec<Value>, AllocError>
    requires { items_have_float (items_view objects.now) ≡ false }
    ensures objects { IfOk result (λ kept. items_view kept.items ≡ left (map string_bytes names.now) prints.now (items_view objects.now)) }
    ensures no_float { IfOk result (λ kept. items_have_float (items_view kept.items) ≡ false) }
{
    let mut kept = Vec::new(alloc);
    for (i, print) in prints.iter().enumerate() {
        if i < objects.len() && !is_named(names, print) {
            kept.push(objects[i].clone()?)?;
        }
    }
    Ok(kept)
}
