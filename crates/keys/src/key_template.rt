//! Templates of keys: the members they may have, what they ask for, and the length of the key.
ghost use Rattle.std.specs.Prelude.{◌≡◌, ◌≤◌, true, codes, option_map, None, Err, IfOk};
ghost use Rattle.serde_json.specs.Data.{Members, object};
ghost use Rattle.serde_json.specs.Find.{get, as_object};
ghost use Rattle.serde_json.specs.View.{view};
ghost use Rattle.octets.specs.Code.Results.{Agrees, AgreesUnlessMemory};
ghost use Rattle.octets.specs.Outcomes.{if_there};
ghost use Rattle.keys.specs.Keys.{is_absent_or_text};
ghost use Rattle.keys.specs.Generating.{key_template, len_of, is_within_limit, fitting_len};
ghost use Rattle.keys.specs.Algorithms.{named_alg_of, supported};
ghost use Rattle.keys.specs.Limits.{limits};
ghost use Rattle.keys.specs.Code.Views.{asked_view};

use crate::algorithm::NamedAlg;
use crate::limits::MOST_KEY_OCTETS;
use crate::members::{optional_string_member, optional_strings_member};
use crate::strict_json::is_object;
use octets::{Refusal, needs};
use serde_json::Value;
use std::alloc::Global;

/// What a template asks for.
#[derive(Clone, Copy)]
pub(crate) struct Asked<'v> {
    pub(crate) alg: Option<&'v str>,
    pub(crate) bytes: Option<usize>,
}

/// What a template asks for. Refuses with `Key` if it is no object, if it is a key or a set of keys, or if a member is not typed as that of
/// a key.
#[tactic(auto, unfolding(crate::specs::Generating::key_template))]
pub(crate) fn read_template<'v>(alloc: Global, value: &'v Value) -> Result<Asked<'v>, Refusal>
    ensures object { (members : Members) → view value.now ≡ object members
        → AgreesUnlessMemory asked_view result (key_template (object members) members) }
    ensures other { as_object (view value.now) ≡ None → result ≡ Err Refusal.Key }
{
    needs(is_object(value), Refusal::Key)?;
    let is_fresh = value.get("k").is_none() && value.get("keys").is_none();
    needs(is_fresh, Refusal::Key)?;
    let kty = optional_string_member(value, "kty")?;
    needs(is_oct_if_there(kty), Refusal::Key)?;
    let alg = optional_string_member(value, "alg")?;
    let _key_use = optional_string_member(value, "use")?;
    let _kid = optional_string_member(value, "kid")?;
    let _key_ops = optional_strings_member(alloc, value, "key_ops")?;
    let bytes = len_if_there(value)?;
    Ok(Asked { alg, bytes })
}

/// Whether the `kty` is absent or "oct".
fn is_oct_if_there(kty: Option<&str>) -> bool
    ensures { result ≡ is_absent_or_text (option_map (λ t. t.now) kty.entry) (codes "oct") }
{
    match kty {
        None => true,
        Some(kty) => kty == "oct",
    }
}

/// The member `bytes`, which is a whole number from 1, or absent.
fn len_if_there(value: &Value) -> Result<Option<usize>, Refusal>
    ensures { Agrees (λ len. len) result
        (if_there len_of (get (codes "bytes") (view value.now))) }
{
    match value.get("bytes") {
        None => Ok(None),
        Some(bytes) => match bytes.as_u64() {
            Some(n) if n >= 1 => Ok(Some(n as usize)),
            _ => Err(Refusal::Key),
        },
    }
}

/// Whether a template asks for no more octets than a key may have.
pub(crate) fn is_within_limit(bytes: Option<usize>) -> bool
    ensures { result ≡ is_within_limit limits bytes }
{
    match bytes {
        None => true,
        Some(n) => n <= MOST_KEY_OCTETS,
    }
}

/// The algorithm that `alg` names, if it is there. Refuses with `Unsupported` if it names none.
pub(crate) fn alg_if_there(alg: Option<&str>) -> Result<Option<NamedAlg>, Refusal>
    ensures { Agrees (λ alg. alg) result (if_there (supported named_alg_of) (option_map (λ name. name.now) alg.entry)) }
{
    match alg {
        None => Ok(None),
        Some(name) => match NamedAlg::named(name) {
            None => Err(Refusal::Unsupported),
            Some(alg) => Ok(Some(alg)),
        },
    }
}

/// The length that is asked for, or the usual one of the algorithm. Refuses with `NoAlgorithm` if there is neither, and with
/// `KeyDoesNotFit` if the algorithm does not allow the length.
#[tactic(auto, unfolding(crate::specs::Generating::fitting_len))]
pub(crate) fn fitting_len(alg: Option<NamedAlg>, asked: Option<usize>) -> Result<usize, Refusal>
    ensures len { Agrees (λ len. len) result (fitting_len alg asked) }
    ensures within_limit { is_within_limit limits asked ≡ true → IfOk result (λ len. len ≤ limits.key_octets) }
{
    let usual = alg.and_then(|alg| alg.key_len().usual());
    let Some(len) = asked.or(usual) else {
        return Err(Refusal::NoAlgorithm);
    };
    let takes = match alg {
        None => true,
        Some(alg) => alg.key_len().allows(len),
    };
    needs(takes, Refusal::KeyDoesNotFit)?;
    Ok(len)
}
