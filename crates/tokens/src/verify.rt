//! Verifying with the keys of a set (RFC 7515 section 5.2).
ghost use Rattle.std.specs.Prelude.{◌≡◌, ◌≢◌, ℕ, List, [], true, false, is_some, map, OnOk, OnErr, IfErr};
ghost use Rattle.std.specs.List.{list_any};
ghost use Rattle.std.specs.Result.{result_unwrap_or};
ghost use Rattle.octets.specs.Devices.{AppendsPrefixOf, IsFinishedOnce};
ghost use Rattle.octets.specs.Faults.{TellsFaults};
ghost use Rattle.octets.specs.Code.Lent.{lent, wrote_on, IfLent, counts_of};
ghost use Rattle.octets.specs.Outcomes.{AgreesUnlessExternal, is_external};
ghost use Rattle.octets.specs.Code.Results.{Agrees};
ghost use Rattle.keys.specs.Algorithms.{signature_alg_of};
ghost use Rattle.keys.specs.Code.Views.{key_view};
ghost use Rattle.objects.specs.Code.Views.{held_view, jws_view, signature_view};
ghost use Rattle.tokens.specs.Verifying.{verifying_by, verifying_by_least, verified_by_least, verified_by, first_signer, have_signed as have_signed_by, least_of as least_of_all, may_verify as may_verify_pair, verifies, candidate_alg, is_candidate as is_candidate_key};
ghost use Rattle.tokens.specs.Code.Heads.{covers, has_made_alike as made_alike_by, pointed_views};

mod detached;
mod heads;
mod signers;
mod tally;

use crate::signing_input::signature_of;
use crate::verify::heads::{heads_of, is_one_of};
use crate::verify::tally::Tally;
pub use detached::{jws_verify_detached, jws_verify_detached_least};
use keys::{Algorithm, Key, KeySet, Operation, SignatureAlg};
use objects::{HeldContent, Jws, Signature};
use octets::{Output, Refusal, needs};
pub use signers::needs_signers;

/// Verifies the object with the keys (RFC 7515 section 5.2), and writes its payload if there is an output. Some key that may verify by the
/// algorithm of a signature, and fits, must have made this signature. With `all`, each key must have made one.
///
/// Refuses, in this order, with `Unsupported` if no signature's algorithm is supported; `KeyDoesNotFit` if no key may verify by a supported
/// one and fits; `NotOpened` if no such pair of a signature and a key verifies, or with `all` none of some key; and `Write` if the output
/// fails.
pub fn jws_verify<O: Output>(
    keys: &KeySet,
    jws: &Jws<'_>,
    all: bool,
    out: Option<&mut O>,
) -> Result<(), Refusal>
    ensures answer { AgreesUnlessExternal (verifying_by all (is_some out.entry) keys.now (jws_view jws.now))
        (wrote_on O.written (lent out.entry out.exit)) result }

    // The output is not touched before the object is accepted.
    ensures held_back { IfErr result (λ refusal. refusal ≢ Refusal.Write → IfLent (lent out.entry out.exit) (λ old new. new ≡ old)) }
    ensures beginning { OnErr result (IfLent (lent out.entry out.exit) (λ old new. AppendsPrefixOf
        (result_unwrap_or (verifying_by all (is_some out.entry) keys.now (jws_view jws.now)) []) (O.written old) (O.written new))) }
    ensures finished { OnOk result (IfLent (lent out.entry out.exit) (IsFinishedOnce O.is_finished O.endings)) }
    ensures unfinished { OnErr result (IfLent (lent out.entry out.exit) (λ old new. O.endings new ≡ O.endings old)) }
    ensures no_memory { IfErr result (λ refusal. refusal ≢ Refusal.Memory) }
    ensures faults { TellsFaults [] (counts_of O.failures (lent out.entry out.exit)) result }
{
    let least = least_of(all, keys);
    match out {
        None => verified(keys, jws, least),
        Some(out) => jws_verify_least(keys, jws, least, Some(out)),
    }
}

/// Verifies the object as `jws_verify` does, but at least `least` of the keys must each have made a signature, and at least one, for a rule
/// such as two of three signers. One key may be in the set twice, and keys that differ may make the same signatures: `needs_signers` refuses
/// such a set.
///
/// Refuses as `jws_verify` does, with `NotOpened` if fewer of the keys made a signature, and so if there are fewer keys.
#[tactic(auto, unfolding(crate::specs::Verifying::verifying_by_least))]
pub fn jws_verify_least<O: Output>(
    keys: &KeySet,
    jws: &Jws<'_>,
    least: usize,
    out: Option<&mut O>,
) -> Result<(), Refusal>
    ensures answer { AgreesUnlessExternal (verifying_by_least least (is_some out.entry) keys.now (jws_view jws.now))
        (wrote_on O.written (lent out.entry out.exit)) result }

    // The output is not touched before the object is accepted.
    ensures held_back { IfErr result (λ refusal. refusal ≢ Refusal.Write → IfLent (lent out.entry out.exit) (λ old new. new ≡ old)) }
    ensures beginning { OnErr result (IfLent (lent out.entry out.exit) (λ old new. AppendsPrefixOf
        (result_unwrap_or (verifying_by_least least (is_some out.entry) keys.now (jws_view jws.now)) []) (O.written old) (O.written new))) }
    ensures finished { OnOk result (IfLent (lent out.entry out.exit) (IsFinishedOnce O.is_finished O.endings)) }
    ensures unfinished { OnErr result (IfLent (lent out.entry out.exit) (λ old new. O.endings new ≡ O.endings old)) }
    ensures no_memory { IfErr result (λ refusal. refusal ≢ Refusal.Memory) }
    ensures faults { TellsFaults [] (counts_of O.failures (lent out.entry out.exit)) result }
{
    match out {
        None => verified(keys, jws, least),
        Some(out) => {
            verified(keys, jws, least)?;
            jws.write_payload(out)
        }
    }
}

/// How many signers are asked for: with `all` each key, and otherwise some.
fn least_of(all: bool, keys: &KeySet) -> usize
    ensures { result ≡ least_of_all all keys.now }
{
    if all { keys.keys().len() } else { 1 }
}

/// The place in the set, from 0, of the first key that verifies the object, for a caller whose keys belong to different parties. It refuses as
/// `jws_verify` without `all` does, by the law `first_verifies`.
#[tactic(auto, unfolding(crate::specs::Verifying::verified_by), using(crate::proofs::Elements::views))]
pub fn jws_verified_by(keys: &KeySet, jws: &Jws<'_>) -> Result<usize, Refusal>
    ensures { Agrees (λ place. place) result (verified_by keys.now (jws_view jws.now)) }
{
    let keys = keys.keys();
    needs(has_supported(jws.signatures()), Refusal::Unsupported)?;
    needs(
        has_candidate(jws.signatures(), keys),
        Refusal::KeyDoesNotFit,
    )?;
    first_signer(keys, jws).ok_or(Refusal::NotOpened)
}

/// The place of the first key that made a signature.
fn first_signer(keys: &[Key], jws: &Jws<'_>) -> Option<usize>
    ensures { result ≡ first_signer (map key_view keys.now) (jws_view jws.now) }
{
    let signatures = jws.signatures();
    let heads = heads_of(signatures);
    let heads = heads.list();
    keys.iter().position(|key| has_signed(key, heads, signatures, jws.held_payload()))
}

/// The object verifies with at least so many of the keys. Refuses as `jws_verify_least` does.
fn verified(keys: &KeySet, jws: &Jws<'_>, least: usize) -> Result<(), Refusal>
    ensures exact { Agrees (λ done. (jws_view jws.now).payload) result (verified_by_least least keys.now (jws_view jws.now)) }
{
    let keys = keys.keys();
    verdict(keys, jws.signatures(), have_signed(least, keys, jws))
}

/// The result of verifying, by whether enough of the keys signed. Refuses as `jws_verify_least` does.
#[tactic(auto, unfolding(crate::specs::Verifying::verified_by_least), using(crate::proofs::Elements::views))]
fn verdict(keys: &[Key], signatures: &[Signature], are_right: bool) -> Result<(), Refusal>
    ensures agrees { (least : ℕ) (payload : List ℕ) → are_right
        ≡ have_signed_by least (map key_view keys.now) (record { payload = payload; signatures = map signature_view signatures.now })
        → Agrees (λ done. payload) result (verified_by_least least (map key_view keys.now)
        (record { payload = payload; signatures = map signature_view signatures.now })) }
    ensures inside { IfErr result (λ refusal. is_external refusal ≡ false) }
{
    needs(has_supported(signatures), Refusal::Unsupported)?;
    needs(has_candidate(signatures, keys), Refusal::KeyDoesNotFit)?;
    needs(are_right, Refusal::NotOpened)
}

/// Whether the algorithm of some signature is supported.
fn has_supported(signatures: &[Signature]) -> bool
    ensures { result ≡ list_any (λ s. is_some (signature_alg_of (signature_view s).alg)) signatures.now }
{
    signatures
        .iter()
        .any(|signature| signature.supported_alg().is_some())
}

/// Whether some key may verify some signature and fits.
fn has_candidate(signatures: &[Signature], keys: &[Key]) -> bool
    ensures { result ≡ list_any (λ s. list_any (λ key. may_verify_pair (signature_view s) (key_view key)) keys.now) signatures.now }
{
    signatures
        .iter()
        .any(|signature| is_for_some(signature, keys))
}

/// Whether some key may verify this signature and fits.
fn is_for_some(signature: &Signature, keys: &[Key]) -> bool
    ensures { result ≡ list_any (λ key. may_verify_pair (signature_view signature.now) (key_view key)) keys.now }
{
    keys.iter().any(|key| may_verify(signature, key))
}

/// Whether at least so many of the keys, and at least one, made a signature. No key is asked once this is known.
fn have_signed(least: usize, keys: &[Key], jws: &Jws<'_>) -> bool
    ensures { result ≡ have_signed_by least (map key_view keys.now) (jws_view jws.now) }
{
    let signatures = jws.signatures();
    let heads = heads_of(signatures);
    let heads = heads.list();
    let mut tally = Tally::new(least, keys.len());
    for key in keys {
        let signed = has_signed(key, heads, signatures, jws.held_payload());
        if let Some(enough) = tally.count(signed) {
            return enough;
        }
    }
    false
}

/// Whether the key made one of the signatures, if the heads cover them.
fn has_signed(
    key: &Key,
    heads: &[&Signature],
    signatures: &[Signature],
    payload: HeldContent<'_>,
) -> bool
    ensures { covers (pointed_views heads.now) (map signature_view signatures.now) ≡ true
        → result ≡ list_any (λ s. verifies (held_view payload.entry) (signature_view s) (key_view key.now)) signatures.now }
{
    heads
        .iter()
        .any(|head| has_made_alike(key, head, signatures, payload))
}

/// Whether the key may verify the head and made a signature that is alike to it. It takes one HMAC, or none if the key may not.
#[tactic(auto, unfolding(crate::specs::Signatures::signature_of))]
fn has_made_alike(
    key: &Key,
    head: &Signature,
    signatures: &[Signature],
    payload: HeldContent<'_>,
) -> bool
    ensures { result ≡ made_alike_by (held_view payload.entry) (map signature_view signatures.now) (signature_view head.now) (key_view key.now) }
{
    match candidate_alg(head, key) {
        None => false,
        Some(alg) => {
            let mac = signature_of(alg, key.octets(), head.protected().as_bytes(), payload);
            is_one_of(&mac, head, signatures)
        }
    }
}

/// Whether the key may verify the signature by its algorithm, and fits.
fn may_verify(signature: &Signature, key: &Key) -> bool
    ensures { result ≡ may_verify_pair (signature_view signature.now) (key_view key.now) }
{
    candidate_alg(signature, key).is_some()
}

/// The algorithm of the signature, if the key may verify by it and fits.
fn candidate_alg(signature: &Signature, key: &Key) -> Option<SignatureAlg>
    ensures { result ≡ candidate_alg (signature_view signature.now) (key_view key.now) }
{
    let alg = signature.supported_alg()?;
    if is_candidate(key, alg) {
        Some(alg)
    } else {
        None
    }
}

/// Whether the key may verify by the algorithm and fits.
fn is_candidate(key: &Key, alg: SignatureAlg) -> bool
    ensures { result ≡ is_candidate_key alg (key_view key.now) }
{
    key.allows(Operation::Verify) && key.fits(Algorithm::Signature(alg))
}
