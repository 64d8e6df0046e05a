//! Verifying an object by at least so many of a number of signers, from devices to devices.
ghost use Rattle.std.specs.Prelude.{◌≡◌, true, false, ◌&&◌, ℕ, List, [], ◌∷◌, option_map, Some, Ok, Err, IfOk, IfErr, IsTrue};
ghost use Rattle.std.specs.Iterator.{IsFinite};
ghost use Rattle.octets.specs.Devices.{observed, IsPossibleInput, input_members, output_members};
ghost use Rattle.octets.specs.Faults.{TellsFaults, counts};
ghost use Rattle.octets.specs.Octets.{IsOctets};
ghost use Rattle.octets.specs.Outcomes.{AgreesUnlessExternal, is_external, needs};
ghost use Rattle.octets.specs.Code.Results.{AgreesUnlessMemory, is_memory};
ghost use Rattle.keys.specs.KeySets.{key_set};
ghost use Rattle.keys.specs.Limits.{limits};
ghost use Rattle.objects.specs.HandedIn.{with_payload};
ghost use Rattle.objects.specs.Code.Views.{jws_view};
ghost use Rattle.tokens.specs.Jws.{ver_least_answer};
ghost use Rattle.tokens.specs.Signers.{are_signers};
ghost use Rattle.tokens.specs.Verifying.{verifying_by_least};
ghost use Rattle.jose.specs.Code.Steps.{WritesWhole};
ghost use Rattle.jose.specs.Invocations.{invocation_view};
ghost use Rattle.jose.specs.Ports.{AreFinite, on_content};
ghost use Rattle.tools.specs.Causes.{IsCause, as_refused, refusal_of};
ghost use Rattle.tools.specs.Code.{caused, signers_of, verified_by_some};
ghost use Rattle.tools.specs.VerifyAll.{VerifiesAll};

use crate::cause::Cause;
use crate::words::Signers;
use jose::{Inputs, Invocation, Outputs, Wanted, WholeInputs, read_inputs, read_past};
use keys::KeySet;
use objects::Jws;
use objects::laws::jws_payload_is_handed_in;
use octets::{Input, Output, Refusal, read_to_end};
use std::alloc::Global;
use tokens::{jws_verify_detached_least, jws_verify_least, needs_signers};

/// Verifies the object by at least so many of so many signers: all keys are good, they are as many as the signers, no two of them sign alike,
/// and at least so many of them signed. The invocation is one of `jws ver`: its `-I` says whether the payload is handed in, and its `-O`
/// whether it is written.
pub fn verify_all<I: Input, O: Output>(
    alloc: Global,
    signers: Signers,
    invocation: &Invocation,
    inputs: &mut Inputs<I>,
    outputs: &mut Outputs<O>,
) -> Result<(), Cause>
    requires { AreFinite I.remaining inputs.old }
    ensures { VerifiesAll (input_members I.consumed I.is_at_end I.failures) (output_members O.written O.is_finished O.endings O.failures)
        signers (invocation_view invocation.now).options inputs.old inputs.new outputs.old outputs.new result }
{
    let detached_given = invocation.has('I');
    let payload_wanted = invocation.has('O');
    if detached_given && !payload_wanted {
        return verify_in_one_pass(
            alloc,
            signers,
            &mut inputs.text,
            &mut inputs.keys,
            &mut inputs.content,
        );
    }
    let whole = read_inputs(alloc, Wanted::ObjectAndKeys(detached_given), inputs)?;
    write_verified(alloc, signers, whole, payload_wanted, outputs)
}

/// Verifies the object that was read from the inputs, and writes its payload if that is asked for.
fn write_verified<O: Output>(
    alloc: Global,
    signers: Signers,
    whole: WholeInputs,
    payload_wanted: bool,
    outputs: &mut Outputs<O>,
) -> Result<(), Cause>
    ensures writes { WritesWhole (output_members O.written O.is_finished O.endings O.failures) false payload_wanted
        (on_content (ver_least_answer limits signers.least signers.number payload_wanted whole.keys.items (option_map (λ c. c.items) whole.content)
        whole.text.items)) outputs.old outputs.new (as_refused result) }
    ensures cause { IfErr result (λ cause. is_external (refusal_of cause) ≡ false → IsCause signers.number whole.keys.items cause) }
{
    let set = signing_keys(alloc, signers.number, &whole.keys)?;
    caused(write_payload(alloc, &set, signers.least, whole, payload_wanted, outputs))
}

/// The result of a step that is not about the keys.
fn caused(outcome: Result<(), Refusal>) -> Result<(), Cause>
    ensures { result ≡ caused outcome }
{
    match outcome {
        Ok(()) => Ok(()),
        Err(refusal) => Err(Cause::Refused(refusal)),
    }
}

/// Verifies the object with at least so many of the keys, and writes its payload if that is asked for.
fn write_payload<O: Output>(
    alloc: Global,
    set: &KeySet,
    least: usize,
    whole: WholeInputs,
    payload_wanted: bool,
    outputs: &mut Outputs<O>,
) -> Result<(), Refusal>
    ensures { WritesWhole (output_members O.written O.is_finished O.endings O.failures) false payload_wanted
        (on_content (verified_by_some least payload_wanted set.now (option_map (λ c. c.items) whole.content) whole.text.items))
        outputs.old outputs.new result }
{
    let WholeInputs { text, content, .. } = whole;
    let jws = Jws::read(alloc, &text, content)?;
    if payload_wanted {
        jws_verify_least(set, &jws, least, Some(&mut outputs.content))
    } else {
        jws_verify_least::<O>(set, &jws, least, Option::default())
    }
}

/// Verifies the object if its payload is handed in and is not to be written. The payload is read in pieces and is not held. A refusal of
/// the keys or of the object is reported only after the payload was read to its end.
fn verify_in_one_pass<I: Input>(
    alloc: Global,
    signers: Signers,
    text: &mut I,
    keys: &mut I,
    content: &mut I,
) -> Result<(), Cause>
    requires text { IsFinite (I.remaining text.old) }
    requires keys { IsFinite (I.remaining keys.old) }
    requires content { IsFinite (I.remaining content.old) }
    ensures answer { (whole_text whole_keys whole_content : List ℕ)
        → IsPossibleInput (observed I.consumed I.is_at_end text.old text.new) whole_text
        → IsPossibleInput (observed I.consumed I.is_at_end keys.old keys.new) whole_keys
        → IsPossibleInput (observed I.consumed I.is_at_end content.old content.new) whole_content
        → AgreesUnlessExternal (ver_least_answer limits signers.least signers.number false whole_keys (Some whole_content) whole_text) [] (as_refused result) }
    ensures cause { IfErr result (λ cause. is_external (refusal_of cause) ≡ false → (whole_keys : List ℕ)
        → IsPossibleInput (observed I.consumed I.is_at_end keys.old keys.new) whole_keys → IsCause signers.number whole_keys cause) }
    ensures in_order { (I.is_at_end text.new ≡ false → keys.new ≡ keys.old)
        × (I.is_at_end keys.new && I.is_at_end text.new ≡ false → content.new ≡ content.old) }
    ensures reads_first { IfErr (as_refused result) (λ refusal. is_external refusal ≡ false
        → IsTrue (I.is_at_end text.new) × IsTrue (I.is_at_end keys.new) × IsTrue (I.is_at_end content.new)) }
    ensures faults { TellsFaults
        (counts I.failures text.old text.new ∷ counts I.failures keys.old keys.new ∷ counts I.failures content.old content.new ∷ []) [] (as_refused result) }
{
    let object = read_to_end(alloc, text)?;
    let set = read_to_end(alloc, keys)?;
    match signers_and_object(alloc, signers.number, &set, &object) {
        Ok((set, jws)) => caused(jws_verify_detached_least(
            alloc,
            &set,
            &jws,
            content,
            signers.least,
        )),
        Err(cause) => {
            read_past(content)?;
            Err(cause)
        }
    }
}

/// The signers, and the object of the text with an empty payload in place of the one that is handed in. Apart from `Memory`, they are
/// refused exactly as the answer is with every payload.
fn signers_and_object<'t>(
    alloc: Global,
    number: usize,
    keys: &[u8],
    text: &'t [u8],
) -> Result<(KeySet, Jws<'t>), Cause>
    ensures read { IfOk result (λ read. (least : ℕ) (payload : List ℕ) → IsOctets payload
        → ver_least_answer limits least number false keys.now (Some payload) text.now ≡ verifying_by_least least false read.0 (with_payload payload (jws_view read.1))) }
    ensures signers { IfOk result (λ read. (key_set limits keys.now true ≡ Ok read.0) × (are_signers number read.0 ≡ true)) }
    ensures refused { IfErr (as_refused result) (λ e. is_memory e ≡ false → (is_external e ≡ false)
        × ((least : ℕ) (payload : List ℕ) → IsOctets payload → ver_least_answer limits least number false keys.now (Some payload) text.now ≡ Err e)) }
    ensures cause { IfErr result (λ cause. is_memory (refusal_of cause) ≡ false → IsCause number keys.now cause) }
{
    jws_payload_is_handed_in();
    let set = signing_keys(alloc, number, keys)?;
    let jws = Jws::read(alloc, text, Some(Vec::new(alloc)))?;
    Ok((set, jws))
}

/// The keys of the text, if they are so many signers.
fn signing_keys(alloc: Global, number: usize, keys: &[u8]) -> Result<KeySet, Cause>
    ensures exact { AgreesUnlessMemory (λ set. set) (as_refused result) (signers_of number keys.now) }
    ensures signers { IfOk result (λ set. (key_set limits keys.now true ≡ Ok set) × (are_signers number set ≡ true)) }
    ensures cause { IfErr result (λ cause. is_memory (refusal_of cause) ≡ false → IsCause number keys.now cause) }
{
    let set = good_keys(alloc, keys)?;
    needs_so_many(alloc, &set, number)?;
    Ok(set)
}

/// The keys of the text, each of which must be good.
fn good_keys(alloc: Global, keys: &[u8]) -> Result<KeySet, Cause>
    ensures exact { AgreesUnlessMemory (λ set. set) (as_refused result) (key_set limits keys.now true) }
    ensures cause { (number : ℕ) → IfErr result (λ cause. is_memory (refusal_of cause) ≡ false → IsCause number keys.now cause) }
{
    match KeySet::read(alloc, keys, true) {
        Ok(set) => Ok(set),
        Err(Refusal::Memory) => Err(Cause::Refused(Refusal::Memory)),
        Err(refusal) => Err(Cause::BadKeys(refusal)),
    }
}

/// Refuses unless there are so many keys, no two of which sign alike.
#[tactic(auto, unfolding(tokens::specs::Signers::are_signers))]
fn needs_so_many(alloc: Global, set: &KeySet, number: usize) -> Result<(), Cause>
    ensures exact { AgreesUnlessMemory (λ done. tt) (as_refused result) (needs (are_signers number set.now) Refusal.Key) }
    ensures cause { IfErr result (λ cause. is_memory (refusal_of cause) ≡ false
        → (keys : List ℕ) → key_set limits keys true ≡ Ok set.now → IsCause number keys cause) }
{
    if set.keys().len() != number {
        return Err(Cause::OtherNumber);
    }
    match needs_signers(alloc, set, number) {
        Ok(()) => Ok(()),
        Err(Refusal::Memory) => Err(Cause::Refused(Refusal::Memory)),
        Err(_) => Err(Cause::SignAlike),
    }
}
