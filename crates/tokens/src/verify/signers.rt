//! Whether each key of a set stands for a signer of its own (RFC 2104 section 2).
ghost use Rattle.std.specs.Prelude.{◌≡◌, map, IfOk, IfErr};
ghost use Rattle.std.specs.List.{list_any};
ghost use Rattle.std.specs.Str.{bytes_eq};
ghost use Rattle.octets.specs.Outcomes.{needs as needs_by};
ghost use Rattle.octets.specs.Code.Results.{AgreesUnlessMemory};
ghost use Rattle.keys.specs.Code.Views.{key_view};
ghost use Rattle.tokens.specs.Signers.{are_distinct as are_distinct_by, key_blocks, sign_apart as sign_apart_by, are_signers};

use keys::{Key, KeySet};
use octets::{Refusal, needs, same_octets};
use prf::{Hash, KeyBlock, Sha256, Sha384, Sha512};
use std::alloc::Global;

/// Refuses with `Key` unless the set has `count` keys, no two of which sign alike. HMAC fills a short key with zero octets and hashes a
/// long one (RFC 2104 section 2), so keys that differ may make the same signatures. If `jws_verify` then accepts an object by all of the
/// keys, it has a signature of each, and no two of them are one key to HMAC. May fail with `Memory`.
#[tactic(auto, unfolding(crate::specs::Signers::are_signers))]
pub fn needs_signers(alloc: Global, keys: &KeySet, count: usize) -> Result<(), Refusal>
    ensures { AgreesUnlessMemory (λ done. tt) result (needs_by (are_signers count keys.now) Refusal.Key) }
{
    let keys = keys.keys();
    needs(keys.len() == count, Refusal::Key)?;
    needs(sign_apart(alloc, keys)?, Refusal::Key)
}

/// Whether no two of the keys sign alike by any algorithm. Fails only with `Memory`.
#[tactic(auto, unfolding(crate::specs::Signers::sign_apart))]
fn sign_apart(alloc: Global, keys: &[Key]) -> Result<bool, Refusal>
    ensures apart { IfOk result (λ apart. apart ≡ sign_apart_by (map key_view keys.now)) }
    ensures memory { IfErr result (λ e. e ≡ Refusal.Memory) }
{
    let by_sha256 = have_own_blocks::<Sha256>(alloc, keys)?;
    let by_sha384 = have_own_blocks::<Sha384>(alloc, keys)?;
    let by_sha512 = have_own_blocks::<Sha512>(alloc, keys)?;
    Ok(by_sha256 && by_sha384 && by_sha512)
}

/// Whether no two of the keys have the same block. Fails only with `Memory`.
fn have_own_blocks<H: Hash>(alloc: Global, keys: &[Key]) -> Result<bool, Refusal>
    ensures own { IfOk result (λ own. own ≡ are_distinct_by (key_blocks H.function (map key_view keys.now))) }
    ensures memory { IfErr result (λ e. e ≡ Refusal.Memory) }
{
    let mut blocks = Vec::new(alloc);
    for key in keys {
        blocks.push(KeyBlock::new::<H>(key.octets()))?;
    }
    Ok(are_distinct(&blocks))
}

/// Whether no two of the blocks are the same.
fn are_distinct(blocks: &[KeyBlock]) -> bool
    ensures { result ≡ are_distinct_by blocks.now }
{
    for (i, block) in blocks.iter().enumerate() {
        if is_among(block, &blocks[i + 1..]) {
            return false;
        }
    }
    true
}

/// Whether one of the others is the same block.
fn is_among(block: &KeyBlock, others: &[KeyBlock]) -> bool
    ensures { result ≡ list_any (bytes_eq block.now) others.now }
{
    others
        .iter()
        .any(|other| same_octets(block.octets(), other.octets()))
}
