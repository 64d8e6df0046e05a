//! The parameters of a joint header, and how each is refused.
ghost use Rattle.std.specs.Prelude.{◌≡◌, codes, option_map, IfOk};
ghost use Rattle.std.specs.Result.{result_err};
ghost use Rattle.serde_json.specs.Find.{get_member};
ghost use Rattle.serde_json.specs.View.{view};
ghost use Rattle.octets.specs.Code.Results.{Agrees, AgreesUnlessMemory};
ghost use Rattle.objects.specs.Code.Views.{part_view};
ghost use Rattle.objects.specs.Headers.{parameter_octets};
ghost use Rattle.tools.specs.PlaceViews.{shared_view};
ghost use Rattle.tools.specs.Places.{absent, count_there, octets_there, parameter, salt_there, shared_headers, shared_parameter, text_there};

use crate::shared_headers::SharedHeaders;
use crate::tool_cause::unless_memory;
use octets::{Refusal, b64_decode, needs};
use serde_json::{Map, Value};
use std::alloc::{AllocError, Global};

/// These two headers, of which one may be absent, with how their parameters are refused.
pub(crate) fn share<'m>(
    alloc: Global,
    protected: Option<&'m Map<String, Value>>,
    unprotected: Option<&'m Map<String, Value>>,
) -> Result<SharedHeaders<'m>, AllocError>
    ensures { IfOk result (λ shared. shared_view shared ≡ shared_headers (part_view protected.entry) (part_view unprotected.entry)) }
{
    let p2s = salt_refusal(alloc, shared_member(protected, unprotected, "p2s"))?;
    let iv = octets_refusal(alloc, shared_member(protected, unprotected, "iv"))?;
    let tag = octets_refusal(alloc, shared_member(protected, unprotected, "tag"))?;
    Ok(SharedHeaders {
        protected,
        unprotected,
        p2s,
        iv,
        tag,
    })
}

/// The member of this name in one of the two headers.
fn shared_member<'m>(
    protected: Option<&'m Map<String, Value>>,
    unprotected: Option<&'m Map<String, Value>>,
    name: &str,
) -> Option<&'m Value>
    ensures { option_map (λ v. view v.now) result
        ≡ shared_parameter name.now (shared_headers (part_view protected.entry) (part_view unprotected.entry)) }
{
    header_member(protected, name).or(header_member(unprotected, name))
}

fn header_member<'m>(header: Option<&'m Map<String, Value>>, name: &str) -> Option<&'m Value>
    ensures { option_map (λ v. view v.now) result ≡ get_member name.now (part_view header.entry) }
{
    header?.get(name)
}

/// The parameter of this name of the joint header.
pub(crate) fn parameter<'m>(
    own: Option<&'m Map<String, Value>>,
    shared: &SharedHeaders<'m>,
    name: &str,
) -> Option<&'m Value>
    ensures { option_map (λ v. view v.now) result ≡ parameter name.now (part_view own.entry) (shared_view shared.now) }
{
    header_member(own, name).or(shared_member(shared.protected, shared.unprotected, name))
}

/// How `p2s` is refused. That of the shared headers is known.
pub(crate) fn own_salt_refusal(
    alloc: Global,
    own: Option<&Map<String, Value>>,
    shared: &SharedHeaders<'_>,
) -> Result<Option<Refusal>, AllocError>
    ensures { IfOk result (λ refusal. refusal
        ≡ result_err (salt_there (parameter (codes "p2s") (part_view own.entry) (shared_view shared.now)))) }
{
    match header_member(own, "p2s") {
        None => Ok(shared.p2s),
        Some(value) => salt_refusal(alloc, Some(value)),
    }
}

/// How a parameter is refused whose value is octets. That of the shared headers is known.
pub(crate) fn own_octets_refusal(
    alloc: Global,
    own: Option<&Map<String, Value>>,
    name: &str,
    shared: &SharedHeaders<'_>,
    known: Option<Refusal>,
) -> Result<Option<Refusal>, AllocError>
    requires { known ≡ result_err (octets_there (shared_parameter name.now (shared_view shared.now))) }
    ensures { IfOk result (λ refusal. refusal
        ≡ result_err (octets_there (parameter name.now (part_view own.entry) (shared_view shared.now)))) }
{
    match header_member(own, name) {
        None => Ok(known),
        Some(value) => octets_refusal(alloc, Some(value)),
    }
}

/// The text of a parameter, which must be there.
pub(crate) fn text_there(found: Option<&Value>) -> Result<&str, Refusal>
    ensures { Agrees (λ text. text.now) result (text_there (option_map (λ v. view v.now) found.entry)) }
{
    match found {
        None => Err(Refusal::Header),
        Some(value) => value.as_str().ok_or(Refusal::Header),
    }
}

/// How a parameter is refused that must be a string.
pub(crate) fn text_refusal(
    own: Option<&Map<String, Value>>,
    shared: &SharedHeaders<'_>,
    name: &str,
) -> Option<Refusal>
    ensures { result ≡ result_err (text_there (parameter name.now (part_view own.entry) (shared_view shared.now))) }
{
    text_there(parameter(own, shared, name)).err()
}

/// How a parameter is refused that must be absent.
pub(crate) fn presence_refusal(
    own: Option<&Map<String, Value>>,
    shared: &SharedHeaders<'_>,
    name: &str,
) -> Option<Refusal>
    ensures { result ≡ result_err (absent (parameter name.now (part_view own.entry) (shared_view shared.now))) }
{
    match parameter(own, shared, name) {
        None => None,
        Some(_) => Some(Refusal::Unsupported),
    }
}

/// How `p2c` is refused.
pub(crate) fn count_refusal(
    own: Option<&Map<String, Value>>,
    shared: &SharedHeaders<'_>,
) -> Option<Refusal>
    ensures { result ≡ result_err (count_there (parameter (codes "p2c") (part_view own.entry) (shared_view shared.now))) }
{
    count_there(parameter(own, shared, "p2c")).err()
}

/// Refuses with `Header` unless the value is a whole number from 1.
#[tactic(auto, unfolding(crate::specs::Places::count_there))]
fn count_there(found: Option<&Value>) -> Result<(), Refusal>
    ensures { Agrees (λ done. done) result (count_there (option_map (λ v. view v.now) found.entry)) }
{
    let Some(value) = found else {
        return Err(Refusal::Header);
    };
    let count = value.as_u64().ok_or(Refusal::Header)?;
    needs(count >= 1, Refusal::Header)
}

fn salt_refusal(alloc: Global, found: Option<&Value>) -> Result<Option<Refusal>, AllocError>
    ensures { IfOk result (λ refusal. refusal ≡ result_err (salt_there (option_map (λ v. view v.now) found.entry))) }
{
    match salt_there(alloc, found) {
        Ok(_) => Ok(None),
        Err(refusal) => Ok(Some(unless_memory(refusal)?)),
    }
}

/// The octets of a salt, which must be there.
#[tactic(auto, unfolding(crate::specs::Places::salt_there))]
fn salt_there(alloc: Global, found: Option<&Value>) -> Result<Vec<u8>, Refusal>
    ensures { AgreesUnlessMemory (λ octets. octets.items) result (salt_there (option_map (λ v. view v.now) found.entry)) }
{
    let text = text_there(found)?;
    let octets = parameter_octets(alloc, text.as_bytes())?;
    needs(octets.len() >= 8, Refusal::Header)?;
    Ok(octets)
}

fn octets_refusal(alloc: Global, found: Option<&Value>) -> Result<Option<Refusal>, AllocError>
    ensures { IfOk result (λ refusal. refusal ≡ result_err (octets_there (option_map (λ v. view v.now) found.entry))) }
{
    match octets_there(alloc, found) {
        Ok(_) => Ok(None),
        Err(refusal) => Ok(Some(unless_memory(refusal)?)),
    }
}

/// The octets of a parameter, which must be there.
#[tactic(auto, unfolding(crate::specs::Places::octets_there))]
fn octets_there(alloc: Global, found: Option<&Value>) -> Result<Vec<u8>, Refusal>
    ensures { AgreesUnlessMemory (λ octets. octets.items) result (octets_there (option_map (λ v. view v.now) found.entry)) }
{
    let text = text_there(found)?;
    parameter_octets(alloc, text.as_bytes())
}

/// The octets of the text of a parameter.
fn parameter_octets(alloc: Global, text: &[u8]) -> Result<Vec<u8>, Refusal>
    ensures { AgreesUnlessMemory (λ octets. octets.items) result (parameter_octets text.now) }
{
    match b64_decode(alloc, text) {
        Err(Refusal::Base64) => Err(Refusal::Header),
        result => result,
    }
}
