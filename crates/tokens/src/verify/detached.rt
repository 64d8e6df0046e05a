//! Verifying an object whose detached payload is read once (RFC 7515 section 5.2 and appendix F).
ghost use Rattle.std.specs.Prelude.{◌≡◌, ℕ, true, false, List, [], ◌∷◌, ◌++◌, map, IfOk, IfErr, OnOk, IsTrue};
ghost use Rattle.std.specs.Iterator.{IsFinite};
ghost use Rattle.std.specs.List.{list_any};
ghost use Rattle.std.specs.Vec.Iter.{into_iter_items};
ghost use Rattle.octets.specs.Base64url.{base64url};
ghost use Rattle.octets.specs.Devices.{observed, IsPossibleInput};
ghost use Rattle.octets.specs.Faults.{TellsFaults, counts};
ghost use Rattle.octets.specs.Outcomes.{AgreesUnlessExternal, is_external};
ghost use Rattle.keys.specs.Code.Views.{key_view};
ghost use Rattle.objects.specs.HandedIn.{with_payload};
ghost use Rattle.objects.specs.Code.Views.{jws_view, signature_view};
ghost use Rattle.tokens.specs.Code.SigningInputs.{InputStart, HoldEach};
ghost use Rattle.tokens.specs.Verifying.{verifying_by, verifying_by_least, have_signed, verifies};
ghost use Rattle.tokens.specs.Code.Heads.{covers, has_made_alike as made_alike_by, pointed_views};
ghost use Rattle.tokens.specs.Code.VerifyingInputs.{starts_for_pair, starts_for_key, starts_for_keys};

use crate::signing_input::{HmacInput, SigningInput, take_content};
use crate::verify::heads::{heads_of, is_one_of};
use crate::verify::tally::Tally;
use crate::verify::{candidate_alg, least_of, verdict};
use keys::{Key, KeySet};
use objects::{Jws, Signature};
use octets::{Input, Refusal};
use std::alloc::Global;
use std::vec::IntoIter;

/// Verifies the object with the keys (RFC 7515 section 5.2). The payload is the content, whatever payload the object was read with. Some
/// key that may verify by the algorithm of a signature, and fits, must have made this signature. With `all`, each key must have made one.
/// The content is read once, in pieces of at most `PIECE` octets, and is not held. Each piece is fed to one HMAC for each key and each
/// algorithm and protected header by which the key may verify a signature of the right length.
///
/// Fails with `Memory` before the content is read, or with `Read` if the content fails. After the content was read to its end, refuses, in
/// this order, with `Unsupported` if no signature's algorithm is supported; `KeyDoesNotFit` if no key may verify by a supported one and
/// fits; and `NotOpened` if no such pair of a signature and a key verifies, or with `all` none of some key.
pub fn jws_verify_detached<I: Input>(
    alloc: Global,
    keys: &KeySet,
    jws: &Jws<'_>,
    content: &mut I,
    all: bool,
) -> Result<(), Refusal>
    requires { IsFinite (I.remaining content.old) }
    ensures answer { (payload : List ℕ)
        → IsPossibleInput (observed I.consumed I.is_at_end content.old content.new) payload
        → AgreesUnlessExternal (verifying_by all false keys.now (with_payload payload (jws_view jws.now))) [] result }

    // Nothing is reported of the object before the content is at its end.
    ensures ends { OnOk result (IsTrue (I.is_at_end content.new)) }
    ensures ends_first { IfErr result (λ refusal. is_external refusal ≡ false → IsTrue (I.is_at_end content.new)) }

    // All memory is allocated before the content is touched.
    ensures memory_first { IfErr result (λ refusal. refusal ≡ Refusal.Memory → content.new ≡ content.old) }
    ensures same_source { I.source content.new ≡ I.source content.old }
    ensures faults { TellsFaults (counts I.failures content.old content.new ∷ []) [] result }
{
    jws_verify_detached_least(alloc, keys, jws, content, least_of(all, keys))
}

/// Verifies the object as `jws_verify_detached` does, but at least `least` of the keys must each have made a signature, and at least one.
/// `needs_signers` says whether each key stands for a signer of its own.
///
/// Refuses as `jws_verify_detached` does, with `NotOpened` if fewer of the keys made a signature, and so if there are fewer keys.
pub fn jws_verify_detached_least<I: Input>(
    alloc: Global,
    keys: &KeySet,
    jws: &Jws<'_>,
    content: &mut I,
    least: usize,
) -> Result<(), Refusal>
    requires { IsFinite (I.remaining content.old) }
    ensures answer { (payload : List ℕ)
        → IsPossibleInput (observed I.consumed I.is_at_end content.old content.new) payload
        → AgreesUnlessExternal (verifying_by_least least false keys.now (with_payload payload (jws_view jws.now))) [] result }

    // Nothing is reported of the object before the content is at its end.
    ensures ends { OnOk result (IsTrue (I.is_at_end content.new)) }
    ensures ends_first { IfErr result (λ refusal. is_external refusal ≡ false → IsTrue (I.is_at_end content.new)) }

    // All memory is allocated before the content is touched.
    ensures memory_first { IfErr result (λ refusal. refusal ≡ Refusal.Memory → content.new ≡ content.old) }
    ensures same_source { I.source content.new ≡ I.source content.old }
    ensures faults { TellsFaults (counts I.failures content.old content.new ∷ []) [] result }
{
    let keys = keys.keys();
    let signatures = jws.signatures();
    let heads = heads_of(signatures);
    let heads = heads.list();
    let mut inputs = candidate_inputs(alloc, keys, heads)?;
    take_content(&mut inputs, content)?;
    let are_right = are_signed(least, keys, heads, signatures, inputs);
    verdict(keys, signatures, are_right)
}

/// The signing input of each pair of a key and a head that it may verify. Each was fed the text before that of the payload.
fn candidate_inputs(
    alloc: Global,
    keys: &[Key],
    heads: &[&Signature],
) -> Result<Vec<HmacInput>, Refusal>
    ensures started { IfOk result (λ inputs. HoldEach ⟦<HmacInput as SigningInput>⟧.has_taken inputs.items
        (starts_for_keys (pointed_views heads.now) (map key_view keys.now)) []) }
    ensures memory { IfErr result (λ e. e ≡ Refusal.Memory) }
{
    let mut inputs = Vec::new(alloc);
    for key in keys {
        push_inputs_of_key(&mut inputs, key, heads)?;
    }
    Ok(inputs)
}

/// Adds the signing inputs of a key.
fn push_inputs_of_key(
    inputs: &mut Vec<HmacInput>,
    key: &Key,
    heads: &[&Signature],
) -> Result<(), Refusal>
    ensures pushed { (starts : List InputStart) → HoldEach ⟦<HmacInput as SigningInput>⟧.has_taken inputs.old.items starts []
        → OnOk result (HoldEach ⟦<HmacInput as SigningInput>⟧.has_taken inputs.new.items
        (starts ++ starts_for_key (pointed_views heads.now) (key_view key.now)) []) }
    ensures memory { IfErr result (λ e. e ≡ Refusal.Memory) }
{
    for head in heads {
        push_input(inputs, key, head)?;
    }
    Ok(())
}

/// Adds the signing input of a key and a head, if the key may verify the head.
fn push_input(inputs: &mut Vec<HmacInput>, key: &Key, head: &Signature) -> Result<(), Refusal>
    ensures pushed { (starts : List InputStart) → HoldEach ⟦<HmacInput as SigningInput>⟧.has_taken inputs.old.items starts []
        → OnOk result (HoldEach ⟦<HmacInput as SigningInput>⟧.has_taken inputs.new.items
        (starts ++ starts_for_pair (signature_view head.now) (key_view key.now)) []) }
    ensures memory { IfErr result (λ e. e ≡ Refusal.Memory) }
{
    match candidate_alg(head, key) {
        None => Ok(()),
        Some(alg) => {
            let protected = head.protected().as_bytes();
            inputs.push(HmacInput::start(alg, key.octets(), protected))?;
            Ok(())
        }
    }
}

/// At least so many of the keys, and at least one, made a signature. The heads cover the signatures. The inputs are those of
/// `candidate_inputs`, and have taken the payload.
fn are_signed<S: SigningInput>(
    least: usize,
    keys: &[Key],
    heads: &[&Signature],
    signatures: &[Signature],
    inputs: Vec<S>,
) -> bool
    requires { covers (pointed_views heads.now) (map signature_view signatures.now) ≡ true }
    ensures { (payload : List ℕ) → HoldEach S.has_taken inputs.items (starts_for_keys (pointed_views heads.now) (map key_view keys.now)) (base64url payload)
        → result ≡ have_signed least (map key_view keys.now) (record { payload = payload; signatures = map signature_view signatures.now }) }
{
    let mut inputs = inputs.into_iter();
    let mut tally = Tally::new(least, keys.len());
    for key in keys {
        let signed = has_signed_next(key, heads, signatures, &mut inputs);
        if let Some(enough) = tally.count(signed) {
            return enough;
        }
    }
    false
}

/// Whether the key made one of the signatures, which the heads cover. Takes the next signing inputs, which are those of the key.
fn has_signed_next<S: SigningInput>(
    key: &Key,
    heads: &[&Signature],
    signatures: &[Signature],
    inputs: &mut IntoIter<S>,
) -> bool
    requires { covers (pointed_views heads.now) (map signature_view signatures.now) ≡ true }
    ensures { (later : List InputStart) (payload : List ℕ)
        → HoldEach S.has_taken (into_iter_items inputs.old) (starts_for_key (pointed_views heads.now) (key_view key.now) ++ later) (base64url payload)
        → (result ≡ list_any (λ s. verifies payload s (key_view key.now)) (map signature_view signatures.now))
        × HoldEach S.has_taken (into_iter_items inputs.new) later (base64url payload) }
{
    let mut signed = false;
    for head in heads {
        let made = has_made_alike_next(key, head, signatures, inputs);
        signed = signed || made;
    }
    signed
}

/// Whether the key may verify the head and made a signature that is alike to it. Takes the next signing input, if they have one.
fn has_made_alike_next<S: SigningInput>(
    key: &Key,
    head: &Signature,
    signatures: &[Signature],
    inputs: &mut IntoIter<S>,
) -> bool
    ensures { (later : List InputStart) (payload : List ℕ)
        → HoldEach S.has_taken (into_iter_items inputs.old) (starts_for_pair (signature_view head.now) (key_view key.now) ++ later) (base64url payload)
        → (result ≡ made_alike_by payload (map signature_view signatures.now) (signature_view head.now) (key_view key.now))
        × HoldEach S.has_taken (into_iter_items inputs.new) later (base64url payload) }
{
    if candidate_alg(head, key).is_none() {
        return false;
    }
    match inputs.next() {
        None => false,
        Some(input) => is_one_of(&input.sign(), head, signatures),
    }
}
