//! The commands `jws sig`, `jws ver` and `jws fmt`, from devices to devices.
ghost use Rattle.std.specs.Prelude.{◌≡◌, Bool, true, false, ◌&&◌, ℕ, List, [], ◌∷◌, option_map, Some, Err, IfOk, IfErr, IsTrue, string_bytes};
ghost use Rattle.std.specs.Iterator.{IsFinite};
ghost use Rattle.octets.specs.Devices.{observed, IsPossibleInput, input_members, output_members};
ghost use Rattle.octets.specs.declared.refusal.Refusal.{Refusal};
ghost use Rattle.octets.specs.Faults.{TellsFaults, counts};
ghost use Rattle.octets.specs.Octets.{IsOctets};
ghost use Rattle.octets.specs.Outcomes.{AgreesUnlessExternal, is_external};
ghost use Rattle.octets.specs.Code.Results.{AgreesUnlessMemory, is_memory};
ghost use Rattle.keys.specs.Limits.{limits};
ghost use Rattle.objects.specs.HandedIn.{with_payload};
ghost use Rattle.objects.specs.Code.Views.{jws_view};
ghost use Rattle.tokens.specs.Verifying.{verifying_by};
ghost use Rattle.jose.specs.declared.words.table.Command.{Command};
ghost use Rattle.jose.specs.Doing.{Does};
ghost use Rattle.jose.specs.Code.Steps.{WritesWhole, object_texts};
ghost use Rattle.jose.specs.Invocations.{invocation_view};
ghost use Rattle.tokens.specs.Jws.{ver_answer, jws_fmt_answer};
ghost use Rattle.jose.specs.Ports.{AreFinite, on_content};

use crate::commands::{Wanted, WholeInputs, read_inputs, read_past, write_object};
use crate::ports::{Inputs, Outputs};
use crate::words::invocation::Invocation;
use keys::KeySet;
use objects::Jws;
use objects::laws::jws_payload_is_handed_in;
use octets::{Input, Output, Refusal, read_to_end};
use std::alloc::Global;
use tokens::{jws_sign, jws_verify, jws_verify_detached};

/// Signs the content with the keys, as the template asks, and writes the object's text. A payload that is to be detached is written to its
/// own output.
pub(crate) fn sign<I: Input, O: Output>(
    alloc: Global,
    invocation: &Invocation,
    inputs: &mut Inputs<I>,
    outputs: &mut Outputs<O>,
) -> Result<(), Refusal>
    requires command { invocation.now.command ≡ Command.JwsSig }
    requires finite { AreFinite I.remaining inputs.old }
    ensures { Does (input_members I.consumed I.is_at_end I.failures) (output_members O.written O.is_finished O.endings O.failures)
        (invocation_view invocation.now) inputs.old inputs.new outputs.old outputs.new result }
{
    let template = read_inputs(alloc, Wanted::TemplateAndKeys, inputs)?;
    let set = KeySet::read(alloc, &template.keys, true)?;
    let compact = invocation.has('c');
    if invocation.has('O') {
        jws_sign(
            alloc,
            &set,
            &template.text,
            compact,
            &mut inputs.content,
            &mut outputs.text,
            Some(&mut outputs.content),
        )
    } else {
        jws_sign(
            alloc,
            &set,
            &template.text,
            compact,
            &mut inputs.content,
            &mut outputs.text,
            Option::default(),
        )
    }
}

/// Verifies the text with some of the keys, or with all of them, and with the payload if that is handed in. Writes the payload if that is
/// asked for.
pub(crate) fn verify<I: Input, O: Output>(
    alloc: Global,
    invocation: &Invocation,
    inputs: &mut Inputs<I>,
    outputs: &mut Outputs<O>,
) -> Result<(), Refusal>
    requires command { invocation.now.command ≡ Command.JwsVer }
    requires finite { AreFinite I.remaining inputs.old }
    ensures { Does (input_members I.consumed I.is_at_end I.failures) (output_members O.written O.is_finished O.endings O.failures)
        (invocation_view invocation.now) inputs.old inputs.new outputs.old outputs.new result }
{
    let detached_given = invocation.has('I');
    let all = invocation.has('a');
    let payload_wanted = invocation.has('O');
    if detached_given && !payload_wanted {
        return verify_in_one_pass(
            alloc,
            &mut inputs.text,
            &mut inputs.keys,
            &mut inputs.content,
            all,
        );
    }
    let whole = read_inputs(alloc, Wanted::ObjectAndKeys(detached_given), inputs)?;
    write_verified(alloc, whole, all, payload_wanted, outputs)
}

/// Verifies the object that was read from the inputs, and writes its payload if that is asked for.
fn write_verified<O: Output>(
    alloc: Global,
    whole: WholeInputs,
    all: bool,
    payload_wanted: bool,
    outputs: &mut Outputs<O>,
) -> Result<(), Refusal>
    ensures { WritesWhole (output_members O.written O.is_finished O.endings O.failures) false payload_wanted
        (on_content (ver_answer limits all payload_wanted whole.keys.items (option_map (λ c. c.items) whole.content) whole.text.items))
        outputs.old outputs.new result }
{
    let WholeInputs {
        text,
        keys,
        content,
    } = whole;
    let set = KeySet::read(alloc, &keys, false)?;
    let jws = Jws::read(alloc, &text, content)?;
    if payload_wanted {
        jws_verify(&set, &jws, all, Some(&mut outputs.content))
    } else {
        jws_verify::<O>(&set, &jws, all, Option::default())
    }
}

/// Verifies the text with some of the keys, or with all of them, if the payload is handed in and is not to be written. The payload is read
/// in pieces and is not held. A refusal of the keys or of the object is reported only after the payload was read to its end.
fn verify_in_one_pass<I: Input>(
    alloc: Global,
    text: &mut I,
    keys: &mut I,
    content: &mut I,
    all: bool,
) -> Result<(), Refusal>
    requires text { IsFinite (I.remaining text.old) }
    requires keys { IsFinite (I.remaining keys.old) }
    requires content { IsFinite (I.remaining content.old) }
    ensures answer { (whole_text whole_keys whole_content : List ℕ)
        → IsPossibleInput (observed I.consumed I.is_at_end text.old text.new) whole_text
        → IsPossibleInput (observed I.consumed I.is_at_end keys.old keys.new) whole_keys
        → IsPossibleInput (observed I.consumed I.is_at_end content.old content.new) whole_content
        → AgreesUnlessExternal (ver_answer limits all false whole_keys (Some whole_content) whole_text) [] result }
    ensures in_order { (I.is_at_end text.new ≡ false → keys.new ≡ keys.old)
        × (I.is_at_end keys.new && I.is_at_end text.new ≡ false → content.new ≡ content.old) }
    ensures reads_first { IfErr result (λ refusal. is_external refusal ≡ false
        → IsTrue (I.is_at_end text.new) × IsTrue (I.is_at_end keys.new) × IsTrue (I.is_at_end content.new)) }
    ensures faults { TellsFaults
        (counts I.failures text.old text.new ∷ counts I.failures keys.old keys.new ∷ counts I.failures content.old content.new ∷ []) [] result }
{
    let object = read_to_end(alloc, text)?;
    let set = read_to_end(alloc, keys)?;
    match keys_and_object(alloc, &set, &object) {
        Ok((set, jws)) => jws_verify_detached(alloc, &set, &jws, content, all),
        Err(refusal) => {
            read_past(content)?;
            Err(refusal)
        }
    }
}

/// The keys, and the object of the text with an empty payload in place of the one that is handed in. Apart from `Memory`, it is refused
/// exactly as the answer is with every payload.
fn keys_and_object<'t>(
    alloc: Global,
    keys: &[u8],
    text: &'t [u8],
) -> Result<(KeySet, Jws<'t>), Refusal>
    ensures read { IfOk result (λ read. (all : Bool) (payload : List ℕ) → IsOctets payload
        → ver_answer limits all false keys.now (Some payload) text.now ≡ verifying_by all false read.0 (with_payload payload (jws_view read.1))) }
    ensures refused { IfErr result (λ e. is_memory e ≡ false → (is_external e ≡ false)
        × ((all : Bool) (payload : List ℕ) → IsOctets payload → ver_answer limits all false keys.now (Some payload) text.now ≡ Err e)) }
{
    jws_payload_is_handed_in();
    let set = KeySet::read(alloc, keys, false)?;
    let jws = Jws::read(alloc, text, Some(Vec::new(alloc)))?;
    Ok((set, jws))
}

/// Writes the object of the text in compact form, or otherwise in JSON form. The payload may be handed in separately. A payload that is to
/// be detached is written to its own output.
pub(crate) fn format<I: Input, O: Output>(
    alloc: Global,
    invocation: &Invocation,
    inputs: &mut Inputs<I>,
    outputs: &mut Outputs<O>,
) -> Result<(), Refusal>
    requires command { invocation.now.command ≡ Command.JwsFmt }
    requires finite { AreFinite I.remaining inputs.old }
    ensures { Does (input_members I.consumed I.is_at_end I.failures) (output_members O.written O.is_finished O.endings O.failures)
        (invocation_view invocation.now) inputs.old inputs.new outputs.old outputs.new result }
{
    let whole = read_inputs(alloc, Wanted::Object(invocation.has('I')), inputs)?;
    write_formed(
        alloc,
        whole,
        invocation.has('c'),
        invocation.has('O'),
        outputs,
    )
}

/// Writes the object that was read from the inputs, in the form that is asked for.
fn write_formed<O: Output>(
    alloc: Global,
    whole: WholeInputs,
    compact: bool,
    detach: bool,
    outputs: &mut Outputs<O>,
) -> Result<(), Refusal>
    ensures { WritesWhole (output_members O.written O.is_finished O.endings O.failures) true detach
        (jws_fmt_answer limits compact detach (option_map (λ c. c.items) whole.content) whole.text.items) outputs.old outputs.new result }
{
    let WholeInputs { text, content, .. } = whole;
    let (object, formed) = formed(alloc, &text, content, compact, detach)?;
    write_object(&formed, detach, object.held_payload(), outputs)
}

/// The object of the text, and its text in the form that is asked for.
#[tactic(auto, unfolding(tokens::specs::Jws::jws_fmt_answer))]
fn formed<'t>(
    alloc: Global,
    text: &'t [u8],
    detached: Option<Vec<u8>>,
    compact: bool,
    detach: bool,
) -> Result<(Jws<'t>, String), Refusal>
    ensures { AgreesUnlessMemory (λ read. object_texts detach (jws_view read.0).payload (string_bytes read.1)) result
        (jws_fmt_answer limits compact detach (option_map (λ c. c.items) detached) text.now) }
{
    let object = Jws::read(alloc, text, detached)?;
    let formed = object.to_text(alloc, compact, detach)?;
    Ok((object, formed))
}
