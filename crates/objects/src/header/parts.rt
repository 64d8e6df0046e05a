//! The parts of a joint header: reading them, and their members (RFC 7515 section 4, RFC 7516 section 4).
ghost use Rattle.std.specs.Prelude.{◌≡◌, true, false, IfOk, IfErr, Some, option_map};
ghost use Rattle.octets.specs.Code.Results.{Agrees, AgreesUnlessMemory};
ghost use Rattle.serde_json.specs.Data.{no_members};
ghost use Rattle.serde_json.specs.Find.{get_member};
ghost use Rattle.serde_json.specs.View.{view, members_view};
ghost use Rattle.serde_json.specs.Written.{has_float, members_have_float};
ghost use Rattle.keys.specs.Json.{member_numbers_are_whole};
ghost use Rattle.objects.specs.Headers.{header_at, members_of_json, protected_members, has_no_crit};
ghost use Rattle.objects.specs.Texts.{has_members};
ghost use Rattle.objects.specs.Code.Views.{part_view};

use crate::header::Header;
use crate::header::members::HeaderMembers;
use keys::read_json;
use octets::Refusal;
use serde_json::{Map, Value};
use std::alloc::Global;

/// The header in a member of the value, if it is there (RFC 7515 section 7.2.1, RFC 7516 section 7.2.1). Refuses with `Form` if the member
/// is no object.
#[tactic(auto, unfolding(crate::specs::Headers::header_at), using(keys::proofs::Lemmas::no_float_in_member, keys::proofs::Lemmas::no_float_members_of))]
pub fn header_at<'v>(
    value: &'v Value,
    name: &str,
) -> Result<Option<&'v Map<String, Value>>, Refusal>
    ensures exact { Agrees part_view result (header_at name.now (view value.now)) }
    ensures no_float { IfOk result (λ part. has_float (view value.now) ≡ false
        → members_have_float (part_view part) ≡ false) }
    ensures refusal { IfErr result (λ e. e ≡ Refusal.Form) }
{
    match value.get(name) {
        None => Ok(None),
        Some(found) => match found.as_object() {
            None => Err(Refusal::Form),
            Some(members) => Ok(Some(members)),
        },
    }
}

/// A copy of the header in a member of the value. An absent one has no members. Refuses with `Form` if the member is no object.
pub(crate) fn owned_header_at(
    alloc: Global,
    value: &Value,
    name: &str,
) -> Result<HeaderMembers, Refusal>
    requires { has_float (view value.now) ≡ false }
    ensures { AgreesUnlessMemory (λ header. members_view header.map.entries) result (header_at name.now (view value.now)) }
{
    let part = header_at(value, name)?;
    Ok(HeaderMembers {
        map: copy_header(alloc, part)?,
    })
}

/// The members, whose numbers are whole.
#[tactic(auto, using(keys::proofs::Lemmas::no_float_in_members))]
pub(crate) fn with_whole_numbers(map: Map<String, Value>) -> HeaderMembers
    requires { member_numbers_are_whole (members_view map.entries) ≡ true }
    ensures { members_view result.map.entries ≡ members_view map.entries }
{
    HeaderMembers { map }
}

/// A header without members.
pub(crate) fn no_members(alloc: Global) -> HeaderMembers
    ensures { members_view result.map.entries ≡ no_members }
{
    HeaderMembers {
        map: Map::new(alloc),
    }
}

/// Whether the header has members.
#[tactic(auto, using(crate::proofs::HeaderMembers::some_members))]
pub(crate) fn has_members(header: &Map<String, Value>) -> bool
    ensures { result ≡ has_members (members_view header.now.entries) }
{
    !header.is_empty()
}

/// Whether the part is there and has members.
pub(crate) fn has_some_members(part: Option<&Map<String, Value>>) -> bool
    ensures { result ≡ has_members (part_view part.entry) }
{
    match part {
        None => false,
        Some(members) => has_members(members),
    }
}

/// A copy of a header. An absent one has no members. Fails only with `Memory`.
#[tactic(auto, using(crate::proofs::HeaderMembers::copied_members))]
pub fn copy_header(
    alloc: Global,
    part: Option<&Map<String, Value>>,
) -> Result<Map<String, Value>, Refusal>
    ensures members { IfOk result (λ copy. members_view copy.entries ≡ part_view part.entry) }
    ensures memory { IfErr result (λ e. e ≡ Refusal.Memory) }
{
    match part {
        None => Ok(Map::new(alloc)),
        Some(members) => Ok(members.clone()?),
    }
}

/// The members of a protected header's octets (RFC 7515 section 5.2, step 3). A header of no octets has no members. Refuses with `Json`,
/// `Number`, and then with `Header` if it is no object. May fail with `Memory`.
#[tactic(auto, unfolding(crate::specs::Headers::protected_members))]
pub fn read_protected(alloc: Global, octets: &[u8]) -> Result<Map<String, Value>, Refusal>
    ensures { AgreesUnlessMemory (λ members. members_view members.entries) result
        (protected_members octets.now) }
{
    if octets.is_empty() {
        Ok(Map::new(alloc))
    } else {
        read_members(alloc, octets)
    }
}

/// The members of the JSON object.
#[tactic(auto, unfolding(crate::specs::Headers::members_of_json))]
fn read_members(alloc: Global, octets: &[u8]) -> Result<Map<String, Value>, Refusal>
    ensures { AgreesUnlessMemory (λ members. members_view members.entries) result
        (members_of_json octets.now) }
{
    match read_json(alloc, octets)? {
        Value::Object(members) => Ok(members),
        _ => Err(Refusal::Header),
    }
}

/// The member of this name in a part.
pub(crate) fn part_member<'m>(part: Option<&'m Map<String, Value>>, name: &str) -> Option<&'m Value>
    ensures { option_map (λ v. view v.now) result ≡ get_member name.now (part_view part.entry) }
{
    part?.get(name)
}

/// Whether the header has no `crit`, of any value: no extension is known (RFC 7515 section 4.1.11).
pub(crate) fn has_no_crit(header: &Map<String, Value>) -> bool
    ensures { result ≡ has_no_crit (members_view header.now.entries) }
{
    part_member(Some(header), "crit").is_none()
}
