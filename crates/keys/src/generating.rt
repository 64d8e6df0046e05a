//! Making keys from a template and a random input (RFC 7517 section 4, and this profile's own rules).
ghost use Rattle.std.specs.Prelude.{◌≡◌, ◌≤◌, ℕ, List, [], ◌∷◌, false, length, map, IfErr, IfOk, OnOk, Ok, Err, Some, is_some, string_bytes};
ghost use Rattle.std.specs.Option.{ok_or};
ghost use Rattle.serde_json.specs.Data.{object};
ghost use Rattle.serde_json.specs.Find.{get_member, as_object};
ghost use Rattle.serde_json.specs.View.{view, items_view, members_view};
ghost use Rattle.serde_json.specs.Written.{members_have_float};
ghost use Rattle.octets.specs.declared.refusal.Refusal.{Refusal};
ghost use Rattle.octets.specs.Devices.{appended, observed, IsPossibleInput};
ghost use Rattle.octets.specs.Faults.{TellsFaults, counts};
ghost use Rattle.octets.specs.Outcomes.{GivesUnlessExternal};
ghost use Rattle.octets.specs.Code.Results.{Agrees, AgreesUnlessMemory};
ghost use Rattle.keys.specs.Generating.{string_items, key_ops_of, with_operations, completed, key_text, made_key, gen_answer, MadeKey};
ghost use Rattle.keys.specs.Limits.{limits};
ghost use Rattle.keys.specs.Code.Views.{plan_view};

use crate::algorithm::NamedAlg;
use crate::key_template::{alg_if_there, fitting_len, is_within_limit, read_template};
use crate::limits::{MOST_DEPTH, MOST_KEY_OCTETS};
use crate::strict_json::{object_nests_at_most, read_json};
use octets::{Input, Refusal, b64_encode, draw, needs};
use serde_json::{Map, Value};
use std::alloc::{AllocError, Global};

/// A key to be made: its length, and its members except `k`.
#[derive(Drop)]
struct KeyPlan {
    len: usize,
    members: Map<String, Value>,
}

/// The JSON text of a new octet key, made as the template asks from octets of the random input.
///
/// The template is a JSON object without `k` and `keys`. Its other members are typed as those of a key. `bytes` is the key's length in
/// octets, from 1 to `MOST_KEY_OCTETS`; without it the `alg` implies one. The key has the template's members except `bytes`, and `k` and
/// `kty` "oct". If the template has an `alg` but neither `use` nor `key_ops`, the key has the `key_ops` of this `alg`. Exactly the octets
/// of `k` are read.
///
/// Refuses, in this order, with `Json`; `Number`; `Key` if the template is bad; `Limit` if `bytes` is above `MOST_KEY_OCTETS`;
/// `Unsupported` if `alg` names no algorithm; `NoAlgorithm` if nothing says the length; `KeyDoesNotFit` if `bytes` does not fit the `alg`;
/// `Limit` if the key nests deeper than `MOST_DEPTH`; `Read` if the random input fails; and `Random` if it ends too early. May fail with
/// `Memory`.
pub fn generate<R: Input>(alloc: Global, template: &[u8], random: &mut R) -> Result<String, Refusal>
    ensures answer { (octets : List ℕ)
        → IsPossibleInput (observed R.consumed R.is_at_end random.old random.new) octets
        → GivesUnlessExternal string_bytes result (gen_answer limits template.now octets) }

    // Exactly the key's octets are read, and none if the template is refused.
    ensures drawn { OnOk result ((made : MadeKey) → made_key limits template.now ≡ Ok made
        → length (appended (R.consumed random.old) (R.consumed random.new)) ≡ made.len) }
    ensures at_most { (made : MadeKey) → made_key limits template.now ≡ Ok made
        → length (appended (R.consumed random.old) (R.consumed random.new)) ≤ made.len }
    ensures untouched { (refusal : Refusal) → made_key limits template.now ≡ Err refusal → random.new ≡ random.old }
    ensures same_source { R.source random.new ≡ R.source random.old }
    ensures faults { TellsFaults (counts R.failures random.old random.new ∷ []) [] result }
{
    let plan = plan_key(alloc, template)?;
    let mut buf = [0u8; MOST_KEY_OCTETS];
    let octets = &mut buf[..plan.len];
    draw(random, octets)?;
    key_text(alloc, plan, octets)
}

/// The key that the template's text asks for.
#[tactic(auto, unfolding(crate::specs::Generating::made_key, crate::specs::Generating::made_of))]
fn plan_key(alloc: Global, template: &[u8]) -> Result<KeyPlan, Refusal>
    ensures exact { AgreesUnlessMemory plan_view result (made_key limits template.now) }
    ensures within_limit { IfOk result (λ plan. plan.len ≤ limits.key_octets) }
    ensures no_float { IfOk result (λ plan. members_have_float (members_view plan.members.entries) ≡ false) }
{
    let value = read_json(alloc, template)?;
    let asked = read_template(alloc, &value)?;
    needs(is_within_limit(asked.bytes), Refusal::Limit)?;
    let alg = alg_if_there(asked.alg)?;
    let len = fitting_len(alg, asked.bytes)?;
    let members = completed(alloc, into_members(value)?, alg)?;
    needs(object_nests_at_most(&members, MOST_DEPTH), Refusal::Limit)?;
    Ok(KeyPlan { len, members })
}

/// The members of an object.
fn into_members(value: Value) -> Result<Map<String, Value>, Refusal>
    ensures { Agrees (λ members. members_view members.entries) result
        (ok_or (as_object (view value)) Refusal.Key) }
{
    match value {
        Value::Object(members) => Ok(members),
        _ => Err(Refusal::Key),
    }
}

/// The members of a key except `k`: those of the template except `bytes`, with `kty`, and with `key_ops` if these are to be added.
fn completed(
    alloc: Global,
    mut members: Map<String, Value>,
    alg: Option<NamedAlg>,
) -> Result<Map<String, Value>, AllocError>
    ensures { IfOk result (λ made. members_view made.entries ≡ completed alg (members_view members.entries)) }
{
    drop(members.remove("bytes"));
    if let Some(alg) = alg {
        add_operations(alloc, &mut members, alg)?;
    }
    serde_json::put(
        &mut members,
        alloc,
        "kty",
        Value::try_from_str(alloc, "oct")?,
    )?;
    Ok(members)
}

/// Adds the `key_ops` of the algorithm, if there is neither this member nor `use`.
fn add_operations(
    alloc: Global,
    members: &mut Map<String, Value>,
    alg: NamedAlg,
) -> Result<(), AllocError>
    ensures { OnOk result (members_view members.new.entries
        ≡ with_operations (Some alg) (members_view members.old.entries)) }
{
    if has_member(members, "key_ops") || has_member(members, "use") {
        return Ok(());
    }
    let key_ops = key_ops_of(alloc, alg)?;
    serde_json::put(members, alloc, "key_ops", Value::Array(key_ops))
}

/// The names of the algorithm's operations, as JSON strings.
fn key_ops_of(alloc: Global, alg: NamedAlg) -> Result<Vec<Value>, AllocError>
    ensures { IfOk result (λ values. items_view values.items ≡ string_items (key_ops_of alg)) }
{
    let (first, second) = alg.operations();
    string_list(alloc, &[first.name(), second.name()])
}

fn has_member(members: &Map<String, Value>, name: &str) -> bool
    ensures { result ≡ is_some (get_member name.now (members_view members.now.entries)) }
{
    members.contains_key(name)
}

/// The texts as JSON strings.
fn string_list(alloc: Global, texts: &[&str]) -> Result<Vec<Value>, AllocError>
    ensures { IfOk result (λ values. items_view values.items ≡ string_items (map (λ t. t.now) texts.now)) }
{
    let mut values = Vec::new(alloc);
    for text in texts {
        values.push(Value::try_from_str(alloc, text)?)?;
    }
    Ok(values)
}

/// The JSON text of the key with these octets.
fn key_text(alloc: Global, plan: KeyPlan, octets: &[u8]) -> Result<String, Refusal>
    requires { members_have_float (members_view plan.members.entries) ≡ false }
    ensures text { IfOk result (λ text. string_bytes text ≡ key_text (plan_view plan) octets.now) }
    ensures memory { IfErr result (λ e. e ≡ Refusal.Memory) }
{
    let mut members = plan.members;
    let k = Value::String(b64_encode(alloc, octets)?);
    serde_json::put(&mut members, alloc, "k", k)?;
    Ok(Value::Object(members).to_string(alloc)?)
}
