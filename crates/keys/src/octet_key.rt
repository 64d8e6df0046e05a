//! Octet keys (RFC 7517 section 4, RFC 7518 section 6.4), read from the JSON value of a key.
ghost use Rattle.std.specs.Prelude.{◌≡◌, IfOk, option_map, map, string_bytes};
ghost use Rattle.std.specs.List.{list_any};
ghost use Rattle.serde_json.specs.View.{view};
ghost use Rattle.octets.specs.Code.Results.{AgreesUnlessMemory};
ghost use Rattle.octets.specs.Base64url.{decoded};
ghost use Rattle.octets.specs.Outcomes.{as_refusal};
ghost use Rattle.keys.specs.Keys.{octet_key, key_octets, constrained_key, allows, fits, is_absent_or_text, is_absent_or_among, is_absent_or_meets};
ghost use Rattle.keys.specs.Algorithms.{key_names};
ghost use Rattle.keys.specs.Limits.{limits};
ghost use Rattle.keys.specs.Operations.{operation_names};
ghost use Rattle.keys.specs.Texts.{is_among};
ghost use Rattle.keys.specs.Code.Views.{key_view};

use crate::algorithm::Algorithm;
use crate::key::Key;
use crate::limits::MOST_KEY_OCTETS;
use crate::members::{optional_string_member, optional_strings_member, string_member};
use crate::operation::Operation;
use ciphers::KeyManagementMode;
use octets::laws::are_octets;
use octets::{Refusal, b64_decode, needs};
use serde_json::Value;
use std::alloc::{AllocError, Global};

impl Key {
    /// The key's octets: `k`.
    pub fn octets(&self) -> &[u8]
        ensures { result.now ≡ (key_view self.now).octets }
    {
        &self.octets
    }

    /// The key's `alg`, if it is there (RFC 7517 section 4.4).
    pub fn alg(&self) -> Option<&str>
        ensures { option_map (λ name. name.now) result ≡ (key_view self.now).alg }
    {
        match &self.alg {
            None => None,
            Some(alg) => Some(alg.as_str()),
        }
    }

    /// Whether the key's `use` and `key_ops` allow the operation (RFC 7517 sections 4.2 and 4.3). An absent one allows all.
    #[tactic(auto, unfolding(crate::specs::Keys::allows))]
    pub fn allows(&self, operation: Operation) -> bool
        ensures { result ≡ allows (key_view self.now) operation }
    {
        is_absent_or_text(&self.key_use, operation.key_use())
            && is_absent_or_allows(&self.key_ops, operation)
    }

    /// Whether the key has a length that the algorithm allows, and its `alg` names no other algorithm. For direct encryption `alg` may name
    /// the content encryption algorithm instead.
    #[tactic(auto, unfolding(crate::specs::Keys::fits))]
    pub fn fits(&self, algorithm: Algorithm) -> bool
        ensures { result ≡ fits (key_view self.now) algorithm }
    {
        is_absent_or_names(self.alg(), algorithm) && algorithm.key_len().allows(self.octets.len())
    }
}

/// The key of an object. Refuses with `Key` unless it is a good octet key: `kty` is "oct", `k` is the base64url text of 1 to
/// `MOST_KEY_OCTETS` octets, `alg`, `use` and `kid` are strings or absent, and `key_ops` is a list of strings or absent. Other members are
/// ignored.
#[tactic(auto, unfolding(crate::specs::Keys::octet_key))]
pub(crate) fn read_key(alloc: Global, value: &Value) -> Result<Key, Refusal>
    ensures { AgreesUnlessMemory key_view result (octet_key limits (view value.now)) }
{
    let kty = string_member(value, "kty")?;
    needs(kty == "oct", Refusal::Key)?;
    let octets = read_key_octets(alloc, value)?;
    read_constraints(alloc, octets, value)
}

/// The octets of the member `k`.
#[tactic(auto, unfolding(crate::specs::Keys::key_octets))]
fn read_key_octets(alloc: Global, value: &Value) -> Result<Vec<u8>, Refusal>
    ensures { AgreesUnlessMemory (λ octets. octets.items) result (key_octets limits (view value.now)) }
{
    let text = string_member(value, "k")?;
    let octets = decode_key(alloc, text.as_bytes())?;
    needs(
        1 <= octets.len() && octets.len() <= MOST_KEY_OCTETS,
        Refusal::Key,
    )?;
    Ok(octets)
}

/// The octets of a base64url text. A bad text is refused with `Key`.
fn decode_key(alloc: Global, text: &[u8]) -> Result<Vec<u8>, Refusal>
    ensures { AgreesUnlessMemory (λ octets. octets.items) result (as_refusal Refusal.Key (decoded text.now)) }
{
    match b64_decode(alloc, text) {
        Err(Refusal::Base64) => Err(Refusal::Key),
        result => result,
    }
}

/// The key with these octets, and what its other members say of its use.
#[tactic(auto, unfolding(crate::specs::Keys::constrained_key))]
fn read_constraints(alloc: Global, octets: Vec<u8>, value: &Value) -> Result<Key, Refusal>
    ensures { AgreesUnlessMemory key_view result (constrained_key octets.items (view value.now)) }
{
    let alg = optional_string_member(value, "alg")?;
    let key_use = optional_string_member(value, "use")?;
    let _kid = optional_string_member(value, "kid")?;
    let key_ops = optional_strings_member(alloc, value, "key_ops")?;
    are_octets(&octets);
    Ok(Key {
        octets,
        alg: owned(alloc, alg)?,
        key_use: owned(alloc, key_use)?,
        key_ops,
    })
}

/// A copy of the text.
fn owned(alloc: Global, text: Option<&str>) -> Result<Option<String>, AllocError>
    ensures { IfOk result (λ copy. option_map string_bytes copy ≡ option_map (λ t. t.now) text.entry) }
{
    match text {
        None => Ok(None),
        Some(text) => Ok(Some(String::from_str(alloc, text)?)),
    }
}

/// Whether the `alg` is absent, or a name that a key of the algorithm may have.
fn is_absent_or_names(found: Option<&str>, algorithm: Algorithm) -> bool
    ensures { result ≡ is_absent_or_among (option_map (λ t. t.now) found.entry) (key_names algorithm) }
{
    match found {
        None => true,
        Some(name) => match algorithm {
            Algorithm::Signature(alg) => alg.name() == name,
            Algorithm::Encryption(alg, enc) => match alg.mode() {
                KeyManagementMode::Direct => alg.name() == name || enc.name() == name,
                KeyManagementMode::KeyWrap
                | KeyManagementMode::Password
                | KeyManagementMode::GcmKeyWrap => alg.name() == name,
            },
        },
    }
}

/// Whether the member is absent or this text.
fn is_absent_or_text(found: &Option<String>, text: &str) -> bool
    ensures { result ≡ is_absent_or_text (option_map string_bytes found.now) text.now }
{
    match found {
        None => true,
        Some(found) => found.as_str() == text,
    }
}

/// Whether the member is absent, or a name in its list allows the operation.
#[tactic(auto, using(crate::proofs::Strings::any_text))]
fn is_absent_or_allows(found: &Option<Vec<String>>, operation: Operation) -> bool
    ensures { result ≡ is_absent_or_meets (option_map (λ texts. map string_bytes texts.items) found.now) (operation_names operation) }
{
    match found {
        None => true,
        Some(names) => allow(names, operation),
    }
}

/// Whether one of the names allows the operation.
fn allow(names: &Vec<String>, operation: Operation) -> bool
    ensures { result ≡ list_any (λ name. is_among (operation_names operation) (string_bytes name)) names.now.items }
{
    names
        .iter()
        .any(|name| operation.is_allowed_by(name.as_str()))
}
