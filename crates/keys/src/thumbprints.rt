//! Thumbprints of keys (RFC 7638).
ghost use Rattle.std.specs.Prelude.{◌≡◌, IfOk, IfErr, map, string_bytes};
ghost use Rattle.octets.specs.Code.Results.{AgreesUnlessMemory};
ghost use Rattle.keys.specs.Code.Views.{key_view};
ghost use Rattle.keys.specs.Thumbprints.{required_members as required, thumbprint_of, thumbprint_lines, thp_answer};

use crate::key::Key;
use crate::set::KeySet;
use octets::{Refusal, b64_append, b64_encode};
use prf::{HashAlg, digest};
use std::alloc::Global;

/// The thumbprint of a key: the base64url text of the hash of its required members (RFC 7638
/// section 3). Fails only with `Memory`.
#[tactic(auto, unfolding(crate::specs::Thumbprints::thumbprint_of))]
pub fn thumbprint(alloc: Global, key: &Key, hash: HashAlg) -> Result<String, Refusal>
    ensures text { IfOk result (λ text. string_bytes text ≡ thumbprint_of (key_view key.now) hash) }
    ensures memory { IfErr result (λ e. e ≡ Refusal.Memory) }
{
    let members = required_members(alloc, key)?;
    let mut octets = [0u8; 64];
    let len = digest(hash, members.as_bytes(), &mut octets);
    b64_encode(alloc, &octets[..len])
}

/// The JSON text of the members `k` and `kty` (RFC 7638 sections 3.2 and 3.3).
#[tactic(auto, unfolding(crate::specs::Thumbprints::required_members))]
fn required_members(alloc: Global, key: &Key) -> Result<String, Refusal>
    ensures text { IfOk result (λ text. string_bytes text ≡ required (key_view key.now)) }
    ensures memory { IfErr result (λ e. e ≡ Refusal.Memory) }
{
    let mut text = String::from_str(alloc, "{\"k\":\"")?;
    b64_append(&mut text, key.octets())?;
    text.push_str("\",\"kty\":\"oct\"}")?;
    Ok(text)
}

/// The thumbprints of the good keys of a text, in order, with a line feed between each two. A bad key of a set is passed over. Refuses as
/// `KeySet::read` does.
#[tactic(auto, unfolding(crate::specs::Thumbprints::thp_answer))]
pub fn text_thumbprints(alloc: Global, text: &[u8], hash: HashAlg) -> Result<String, Refusal>
    ensures answer { AgreesUnlessMemory string_bytes result (thp_answer hash text.now) }
{
    let set = KeySet::read(alloc, text, false)?;
    thumbprint_lines(alloc, set.keys(), hash)
}

/// The thumbprints of the keys, with a line feed between each two.
fn thumbprint_lines(alloc: Global, keys: &[Key], hash: HashAlg) -> Result<String, Refusal>
    ensures text { IfOk result (λ text. string_bytes text ≡ thumbprint_lines hash (map key_view keys.now)) }
    ensures memory { IfErr result (λ e. e ≡ Refusal.Memory) }
{
    let mut lines = Vec::new(alloc);
    for key in keys {
        lines.push(thumbprint(alloc, key, hash)?)?;
    }
    Ok(lines.join(alloc, "\n")?)
}
