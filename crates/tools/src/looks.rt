//! The lines that `jose-look` shows of the text of a file.
ghost use Rattle.std.specs.Prelude.{◌≡◌, ◌++◌, count_by, false, not, IfOk, OnOk, Ok};
ghost use Rattle.std.specs.List.{find};
ghost use Rattle.serde_json.specs.View.{view};
ghost use Rattle.serde_json.specs.Written.{has_float};
ghost use Rattle.octets.specs.LineEnds.{without_line_end};
ghost use Rattle.keys.specs.Json.{json_value};
ghost use Rattle.objects.specs.Texts.{is_dot, is_json_form as has_json_form, is_json_space as is_space};
ghost use Rattle.tools.specs.LookedObjects.{cost_lines};
ghost use Rattle.tools.specs.ObjectPlaces.{value_places};
ghost use Rattle.tools.specs.Places.{where_lines};
ghost use Rattle.tools.specs.Looks.{begins_with_bearer, compact_lines, compact_lines_by, has_odd_dots, hint, json_lines, json_lines_by, look_lines, refusal_by, parts_lines, refused_text, text_hint, title, titled_lines, value_lines};
ghost use Rattle.tools.specs.Printing.{printed};

use crate::iterations::add_cost_lines;
use crate::looked_keys::{add_key_lines, character_hint, is_json_space};
use crate::object_lines::{add_object_line, add_object_lines, add_part_lines};
use crate::object_places::{add_part_place, add_value_place};
use crate::printing::{add, add_both, add_line};
use crate::text_kind::{TextKind, refusal_by};
use crate::tool_cause::unless_memory;
use keys::read_json;
use octets::{Refusal, without_line_end};
use serde_json::Value;
use std::alloc::{AllocError, Global};

/// U+FEFF in UTF-8 (RFC 3629 section 6).
const BYTE_ORDER_MARK: [u8; 3] = [0xEF, 0xBB, 0xBF];

/// Adds the lines of a file of this name and text.
pub(crate) fn add_look(
    alloc: Global,
    out: &mut Vec<u8>,
    name: &str,
    text: &[u8],
) -> Result<(), AllocError>
    ensures { OnOk result (out.new.items ≡ out.old.items ++ printed (look_lines name.now text.now)) }
{
    if is_json_form(text) {
        add_json_look(alloc, out, name, text)
    } else {
        add_compact_look(alloc, out, name, text)
    }
}

/// Whether the text is in JSON form: it begins with a brace, after any white space.
#[tactic(auto, unfolding(objects::specs::Texts::is_json_form))]
fn is_json_form(text: &[u8]) -> bool
    ensures { result ≡ has_json_form text.now }
{
    match first_octet(text) {
        None => false,
        Some(c) => c == b'{',
    }
}

/// The first octet that is not white space.
fn first_octet(text: &[u8]) -> Option<u8>
    ensures { result ≡ find (λ c. not (is_space c)) text.now }
{
    text.iter().copied().find(|c| !is_json_space(*c))
}

fn add_json_look(
    alloc: Global,
    out: &mut Vec<u8>,
    name: &str,
    text: &[u8],
) -> Result<(), AllocError>
    ensures { OnOk result (out.new.items ≡ out.old.items ++ printed (json_lines name.now text.now (json_value text.now))) }
{
    match read_json(alloc, text) {
        Ok(value) => add_value_look(alloc, out, name, text, &value),
        Err(refusal) => {
            let refusal = unless_memory(refusal)?;
            let line = title(alloc, name, TextKind::NoJson, Some(refusal))?;
            add_line(out, &line)
        }
    }
}

/// Adds the lines of a file of this name and text, whose value this is.
fn add_value_look(
    alloc: Global,
    out: &mut Vec<u8>,
    name: &str,
    text: &[u8],
    value: &Value,
) -> Result<(), AllocError>
    requires read { json_value text.now ≡ Ok (view value.now) }
    requires no_float { has_float (view value.now) ≡ false }
    ensures { OnOk result (out.new.items ≡ out.old.items ++ printed (json_lines name.now text.now (Ok (view value.now)))) }
{
    add_kind_look(alloc, out, TextKind::of(value), name, text, value)
}

/// So it does, if the value is of this kind.
#[tactic(auto, using(crate::proofs::Printable::printed_then))]
fn add_kind_look(
    alloc: Global,
    out: &mut Vec<u8>,
    kind: TextKind,
    name: &str,
    text: &[u8],
    value: &Value,
) -> Result<(), AllocError>
    requires read { json_value text.now ≡ Ok (view value.now) }
    requires no_float { has_float (view value.now) ≡ false }
    ensures { OnOk result (out.new.items ≡ out.old.items ++ printed (json_lines_by kind name.now text.now (view value.now))) }
{
    let refusal = refusal_by(alloc, kind, text)?;
    let line = title(alloc, name, kind, refusal)?;
    add_line(out, &line)?;
    add_later_lines(alloc, out, kind, text, value, refusal)
}

/// Adds the lines after the first of a value that is refused so, if it is refused.
fn add_later_lines(
    alloc: Global,
    out: &mut Vec<u8>,
    kind: TextKind,
    text: &[u8],
    value: &Value,
    refusal: Option<Refusal>,
) -> Result<(), AllocError>
    requires read { json_value text.now ≡ Ok (view value.now) }
    requires no_float { has_float (view value.now) ≡ false }
    ensures { OnOk result (out.new.items ≡ out.old.items
        ++ printed (value_lines kind (view value.now) ++ cost_lines kind text.now ++ where_lines refusal (value_places kind (view value.now)))) }
{
    add_value_lines(alloc, out, kind, text, value)?;
    add_cost_lines(alloc, out, kind, text)?;
    add_value_place(alloc, out, kind, value, refusal)
}

/// Adds the lines of the value.
fn add_value_lines(
    alloc: Global,
    out: &mut Vec<u8>,
    kind: TextKind,
    text: &[u8],
    value: &Value,
) -> Result<(), AllocError>
    requires read { json_value text.now ≡ Ok (view value.now) }
    requires no_float { has_float (view value.now) ≡ false }
    ensures { OnOk result (out.new.items ≡ out.old.items ++ printed (value_lines kind (view value.now))) }
{
    match kind {
        TextKind::Set | TextKind::Key => add_key_lines(alloc, out, text, value),
        TextKind::Signed | TextKind::SignedDetached => {
            add_object_lines(alloc, out, value, "signatures")
        }
        TextKind::Encrypted | TextKind::EncryptedDetached => {
            add_object_lines(alloc, out, value, "recipients")
        }
        TextKind::OtherObject | TextKind::NoJson | TextKind::Neither => {
            add_object_line(alloc, out, value)
        }
    }
}

/// Adds the lines of a file of this name and text, which is in no JSON form.
fn add_compact_look(
    alloc: Global,
    out: &mut Vec<u8>,
    name: &str,
    text: &[u8],
) -> Result<(), AllocError>
    ensures { OnOk result (out.new.items ≡ out.old.items ++ printed (compact_lines name.now text.now (without_line_end text.now))) }
{
    let part = without_line_end(text);
    add_compact_by(alloc, out, TextKind::by_dots(dots(part)), name, text, part)
}

/// So it does by its kind. The part is the text without its line end.
fn add_compact_by(
    alloc: Global,
    out: &mut Vec<u8>,
    kind: TextKind,
    name: &str,
    text: &[u8],
    part: &[u8],
) -> Result<(), AllocError>
    ensures { OnOk result (out.new.items ≡ out.old.items ++ printed (compact_lines_by kind name.now text.now part.now)) }
{
    let refusal = refusal_by(alloc, kind, text)?;
    add_titled_lines(alloc, out, name, part, kind, refusal)?;
    add_cost_lines(alloc, out, kind, text)?;
    add_part_place(alloc, out, kind, part, refusal)
}

/// Adds the lines of a file of this name and kind, which is in no JSON form. The part is the text without its line end.
#[tactic(auto, using(crate::proofs::Printable::printed_then))]
fn add_titled_lines(
    alloc: Global,
    out: &mut Vec<u8>,
    name: &str,
    part: &[u8],
    kind: TextKind,
    refusal: Option<Refusal>,
) -> Result<(), AllocError>
    ensures { OnOk result (out.new.items ≡ out.old.items ++ printed (titled_lines name.now kind refusal part.now)) }
{
    let mut line = title(alloc, name, kind, refusal)?;
    add(&mut line, hint(kind, refusal, part))?;
    add_line(out, &line)?;
    add_parts_lines(alloc, out, kind, part)
}

/// Adds the lines after the first.
fn add_parts_lines(
    alloc: Global,
    out: &mut Vec<u8>,
    kind: TextKind,
    part: &[u8],
) -> Result<(), AllocError>
    ensures { OnOk result (out.new.items ≡ out.old.items ++ printed (parts_lines kind part.now)) }
{
    match kind {
        TextKind::Signed => add_part_lines(alloc, out, part, "signatures"),
        TextKind::Encrypted => add_part_lines(alloc, out, part, "recipients"),
        _ => Ok(()),
    }
}

/// The first line of a file of this name.
#[tactic(auto, using(std::proofs::Common::append_assoc))]
fn title(
    alloc: Global,
    name: &str,
    kind: TextKind,
    refusal: Option<Refusal>,
) -> Result<Vec<u8>, AllocError>
    ensures { IfOk result (λ line. line.items ≡ title name.now kind refusal) }
{
    let mut line = Vec::new(alloc);
    add(&mut line, name)?;
    add(&mut line, ": ")?;
    add(&mut line, kind.text())?;
    add_refused(&mut line, refusal)?;
    Ok(line)
}

fn add_refused(line: &mut Vec<u8>, refusal: Option<Refusal>) -> Result<(), AllocError>
    ensures { OnOk result (line.new.items ≡ line.old.items ++ refused_text refusal) }
{
    match refusal {
        None => Ok(()),
        Some(refusal) => add_both(line, ", which jose refuses: ", refusal.text()),
    }
}

/// What the text may be, if it is refused.
fn hint(kind: TextKind, refusal: Option<Refusal>, text: &[u8]) -> &'static str
    ensures { result.now ≡ hint kind refusal text.now }
{
    if kind.is_neither() || refusal.is_some() {
        text_hint(text)
    } else {
        ""
    }
}

/// What a text may be that is no object.
fn text_hint(text: &[u8]) -> &'static str
    ensures { result.now ≡ text_hint text.now }
{
    if begins_with_bearer(text) {
        ": it begins with Bearer"
    } else if text.starts_with(b"-----BEGIN") {
        ": it looks like a PEM file"
    } else if text.starts_with(&BYTE_ORDER_MARK) {
        ": it begins with a byte order mark"
    } else if text.starts_with(b"\"") || text.starts_with(b"'") {
        ": it begins with a quotation mark"
    } else if text.starts_with(b"<") {
        ": it looks like HTML or XML"
    } else if text.is_empty() {
        ": it is empty"
    } else if has_odd_dots(text) {
        ": an object in compact form has two or four dots"
    } else {
        character_hint(text)
    }
}

/// Whether the text begins with the word of an HTTP header.
fn begins_with_bearer(text: &[u8]) -> bool
    ensures { result ≡ begins_with_bearer text.now }
{
    7 <= text.len() && text[..7].eq_ignore_ascii_case(b"bearer ")
}

/// Whether the text has as many dots as an object in compact form that was cut.
fn has_odd_dots(text: &[u8]) -> bool
    ensures { result ≡ has_odd_dots text.now }
{
    matches!(dots(text), 1 | 3)
}

/// How many dots the text has.
fn dots(text: &[u8]) -> usize
    ensures { result ≡ count_by is_dot text.now }
{
    text.iter().filter(|c| **c == b'.').count()
}
