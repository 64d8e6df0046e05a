//! The places of a joint header: a name that two of its parts have, and its parameters.
ghost use Rattle.std.specs.Prelude.{◌≡◌, option_map, IfOk};
ghost use Rattle.std.specs.Result.{result_err};
ghost use Rattle.serde_json.specs.Data.{no_members};
ghost use Rattle.serde_json.specs.View.{members_view};
ghost use Rattle.objects.specs.Code.Views.{part_view};
ghost use Rattle.objects.specs.Headers.{joint_header};
ghost use Rattle.tools.specs.PlaceViews.{result_seen, shared_view};
ghost use Rattle.tools.specs.Places.{apart_places, extension_places, first_so, gcm_places, if_encrypted, in_two_headers, joint_places, management_places, mode_places, naming_places, parameter_places, password_places};

use crate::found_place::first_so;
use crate::parameters::{
    count_refusal, own_octets_refusal, own_salt_refusal, parameter, presence_refusal, text_refusal,
    text_there,
};
use crate::shared_headers::SharedHeaders;
use ciphers::{KeyAlg, KeyManagementMode};
use objects::Header;
use octets::Refusal;
use serde_json::{Map, Value};
use std::alloc::{AllocError, Global};

/// The place of a name that both headers have. Each name of the first is looked for in the other.
pub(crate) fn in_two_headers(
    header: Option<&Map<String, Value>>,
    other: Option<&Map<String, Value>>,
) -> (&'static str, Option<Refusal>)
    ensures { (result.0.now, result.1) ≡ in_two_headers (part_view header.entry) (part_view other.entry) }
{
    ("a name in two headers", overlap_refusal(header, other))
}

#[tactic(auto, unfolding(objects::specs::Headers::joint_header), using(crate::proofs::Places::apart_from_nothing))]
fn overlap_refusal(
    header: Option<&Map<String, Value>>,
    other: Option<&Map<String, Value>>,
) -> Option<Refusal>
    ensures { result ≡ result_err (joint_header (part_view header.entry) no_members (part_view other.entry)) }
{
    let Some(header) = header else {
        return None;
    };
    let Some(other) = other else {
        return None;
    };
    joint_refusal(header, other)
}

fn joint_refusal<'m>(
    header: &'m Map<String, Value>,
    other: &'m Map<String, Value>,
) -> Option<Refusal>
    ensures { result ≡ result_err (joint_header (members_view header.entry.now.entries) no_members (members_view other.entry.now.entries)) }
{
    Header::joint(Some(header), None, Some(other)).err()
}

/// The name of the place in a joint header that is refused so.
#[tactic(auto, using(crate::proofs::Places::first_of_both, crate::proofs::Places::first_of_none))]
pub(crate) fn joint_place(
    alloc: Global,
    encrypted: bool,
    own: Result<Option<&Map<String, Value>>, Refusal>,
    shared: Option<&SharedHeaders<'_>>,
    so: Refusal,
) -> Result<Option<&'static str>, AllocError>
    ensures { IfOk result (λ found. option_map (λ name. name.now) found
        ≡ first_so so (joint_places encrypted (result_seen part_view own.entry) (option_map (λ s. shared_view s.now) shared.entry))) }
{
    let Ok(own) = own else {
        return Ok(None);
    };
    let Some(shared) = shared else {
        return Ok(None);
    };
    match apart_place(own, shared, so) {
        Some(name) => Ok(Some(name)),
        None => parameter_place(alloc, encrypted, own, shared, so),
    }
}

/// The name of the place of a name in two parts of a joint header.
#[tactic(auto, unfolding(crate::specs::Places::apart_places))]
fn apart_place(
    own: Option<&Map<String, Value>>,
    shared: &SharedHeaders<'_>,
    so: Refusal,
) -> Option<&'static str>
    ensures { option_map (λ name. name.now) result ≡ first_so so (apart_places (part_view own.entry) (shared_view shared.now)) }
{
    let places = [
        in_two_headers(own, shared.protected),
        in_two_headers(own, shared.unprotected),
    ];
    first_so(so, &places)
}

/// The name of the parameter that is refused so.
#[tactic(auto, unfolding(crate::specs::Places::parameter_places), using(crate::proofs::Places::first_of_both))]
fn parameter_place(
    alloc: Global,
    encrypted: bool,
    own: Option<&Map<String, Value>>,
    shared: &SharedHeaders<'_>,
    so: Refusal,
) -> Result<Option<&'static str>, AllocError>
    ensures { IfOk result (λ found. option_map (λ name. name.now) found
        ≡ first_so so (parameter_places encrypted (part_view own.entry) (shared_view shared.now))) }
{
    if let Some(name) = naming_place(encrypted, own, shared, so) {
        return Ok(Some(name));
    }
    match management_place(alloc, own, shared, so)? {
        Some(name) => Ok(Some(name)),
        None => Ok(extension_place(encrypted, own, shared, so)),
    }
}

/// The name of the parameter that is refused so and names an algorithm.
#[tactic(auto, unfolding(crate::specs::Places::naming_places))]
fn naming_place(
    encrypted: bool,
    own: Option<&Map<String, Value>>,
    shared: &SharedHeaders<'_>,
    so: Refusal,
) -> Option<&'static str>
    ensures { option_map (λ name. name.now) result
        ≡ first_so so (naming_places encrypted (part_view own.entry) (shared_view shared.now)) }
{
    let alg = text_refusal(own, shared, "alg");
    let enc = if_encrypted(encrypted, text_refusal(own, shared, "enc"));
    let places = [
        ("the header parameter alg", alg),
        ("the header parameter enc", enc),
    ];
    first_so(so, &places)
}

/// The name of the parameter that is refused so since it is not supported.
#[tactic(auto, unfolding(crate::specs::Places::extension_places))]
fn extension_place(
    encrypted: bool,
    own: Option<&Map<String, Value>>,
    shared: &SharedHeaders<'_>,
    so: Refusal,
) -> Option<&'static str>
    ensures { option_map (λ name. name.now) result
        ≡ first_so so (extension_places encrypted (part_view own.entry) (shared_view shared.now)) }
{
    let crit = presence_refusal(own, shared, "crit");
    let zip = if_encrypted(encrypted, presence_refusal(own, shared, "zip"));
    let places = [
        ("the header parameter crit", crit),
        ("the header parameter zip", zip),
    ];
    first_so(so, &places)
}

fn if_encrypted(encrypted: bool, refusal: Option<Refusal>) -> Option<Refusal>
    ensures { result ≡ if_encrypted encrypted refusal }
{
    if encrypted { refusal } else { None }
}

/// The name of the parameter of key management that is refused so.
#[tactic(auto, unfolding(crate::specs::Places::management_places), using(crate::proofs::Places::first_of_none))]
fn management_place(
    alloc: Global,
    own: Option<&Map<String, Value>>,
    shared: &SharedHeaders<'_>,
    so: Refusal,
) -> Result<Option<&'static str>, AllocError>
    ensures { IfOk result (λ found. option_map (λ name. name.now) found
        ≡ first_so so (management_places (part_view own.entry) (shared_view shared.now))) }
{
    let Ok(name) = text_there(parameter(own, shared, "alg")) else {
        return Ok(None);
    };
    match KeyAlg::named(name) {
        None => Ok(None),
        Some(alg) => mode_place(alloc, alg.mode(), own, shared, so),
    }
}

#[tactic(auto, using(crate::proofs::Places::first_of_none))]
fn mode_place(
    alloc: Global,
    mode: KeyManagementMode,
    own: Option<&Map<String, Value>>,
    shared: &SharedHeaders<'_>,
    so: Refusal,
) -> Result<Option<&'static str>, AllocError>
    ensures { IfOk result (λ found. option_map (λ name. name.now) found
        ≡ first_so so (mode_places mode (part_view own.entry) (shared_view shared.now))) }
{
    match mode {
        KeyManagementMode::Direct | KeyManagementMode::KeyWrap => Ok(None),
        KeyManagementMode::Password => password_place(alloc, own, shared, so),
        KeyManagementMode::GcmKeyWrap => gcm_place(alloc, own, shared, so),
    }
}

#[tactic(auto, unfolding(crate::specs::Places::password_places))]
fn password_place(
    alloc: Global,
    own: Option<&Map<String, Value>>,
    shared: &SharedHeaders<'_>,
    so: Refusal,
) -> Result<Option<&'static str>, AllocError>
    ensures { IfOk result (λ found. option_map (λ name. name.now) found
        ≡ first_so so (password_places (part_view own.entry) (shared_view shared.now))) }
{
    let p2s = own_salt_refusal(alloc, own, shared)?;
    let p2c = count_refusal(own, shared);
    let places = [
        ("the header parameter p2s", p2s),
        ("the header parameter p2c", p2c),
    ];
    Ok(first_so(so, &places))
}

#[tactic(auto, unfolding(crate::specs::Places::gcm_places))]
fn gcm_place(
    alloc: Global,
    own: Option<&Map<String, Value>>,
    shared: &SharedHeaders<'_>,
    so: Refusal,
) -> Result<Option<&'static str>, AllocError>
    ensures { IfOk result (λ found. option_map (λ name. name.now) found
        ≡ first_so so (gcm_places (part_view own.entry) (shared_view shared.now))) }
{
    let iv = own_octets_refusal(alloc, own, "iv", shared, shared.iv)?;
    let tag = own_octets_refusal(alloc, own, "tag", shared, shared.tag)?;
    let places = [
        ("the header parameter iv", iv),
        ("the header parameter tag", tag),
    ];
    Ok(first_so(so, &places))
}
