//! The commands `jwe enc`, `jwe dec` and `jwe fmt`, from devices to devices.
ghost use Rattle.std.specs.Prelude.{◌≡◌, true, false, option_map, string_bytes};
ghost use Rattle.octets.specs.Code.Results.{AgreesUnlessMemory};
ghost use Rattle.keys.specs.Limits.{limits};
ghost use Rattle.objects.specs.Code.Views.{jwe_view};
ghost use Rattle.jose.specs.declared.words.table.Command.{Command};
ghost use Rattle.octets.specs.Devices.{input_members, output_members};
ghost use Rattle.jose.specs.Doing.{Does};
ghost use Rattle.jose.specs.Code.Steps.{WritesWhole, object_texts};
ghost use Rattle.jose.specs.Invocations.{invocation_view};
ghost use Rattle.tokens.specs.Jwe.{dec_answer, jwe_fmt_answer};
ghost use Rattle.jose.specs.Ports.{AreFinite, on_content};

use crate::commands::{Wanted, WholeInputs, read_inputs, write_object};
use crate::ports::{Inputs, Outputs};
use crate::words::invocation::Invocation;
use keys::KeySet;
use objects::{HeldContent, Jwe};
use octets::{Input, Output, Refusal};
use std::alloc::Global;
use tokens::{jwe_decrypt, jwe_encrypt};

/// Encrypts the content to the keys, as the template asks, and writes the object's text. A ciphertext that is to be detached is written to
/// its own output.
pub(crate) fn encrypt<I: Input, O: Output>(
    alloc: Global,
    invocation: &Invocation,
    inputs: &mut Inputs<I>,
    outputs: &mut Outputs<O>,
) -> Result<(), Refusal>
    requires command { invocation.now.command ≡ Command.JweEnc }
    requires finite { AreFinite I.remaining inputs.old }
    ensures { Does (input_members I.consumed I.is_at_end I.failures) (output_members O.written O.is_finished O.endings O.failures)
        (invocation_view invocation.now) inputs.old inputs.new outputs.old outputs.new result }
{
    let template = read_inputs(alloc, Wanted::TemplateAndKeys, inputs)?;
    let set = KeySet::read(alloc, &template.keys, true)?;
    let compact = invocation.has('c');
    if invocation.has('O') {
        jwe_encrypt(
            alloc,
            &set,
            &template.text,
            compact,
            &mut inputs.random,
            &mut inputs.content,
            &mut outputs.text,
            Some(&mut outputs.content),
        )
    } else {
        jwe_encrypt(
            alloc,
            &set,
            &template.text,
            compact,
            &mut inputs.random,
            &mut inputs.content,
            &mut outputs.text,
            Option::default(),
        )
    }
}

/// Decrypts the text with the keys, and with the ciphertext if that is handed in. Writes the plaintext.
pub(crate) fn decrypt<I: Input, O: Output>(
    alloc: Global,
    invocation: &Invocation,
    inputs: &mut Inputs<I>,
    outputs: &mut Outputs<O>,
) -> Result<(), Refusal>
    requires command { invocation.now.command ≡ Command.JweDec }
    requires finite { AreFinite I.remaining inputs.old }
    ensures { Does (input_members I.consumed I.is_at_end I.failures) (output_members O.written O.is_finished O.endings O.failures)
        (invocation_view invocation.now) inputs.old inputs.new outputs.old outputs.new result }
{
    let whole = read_inputs(alloc, Wanted::ObjectAndKeys(invocation.has('I')), inputs)?;
    write_plaintext(alloc, whole, outputs)
}

/// Writes the plaintext of the object that was read from the inputs.
fn write_plaintext<O: Output>(
    alloc: Global,
    whole: WholeInputs,
    outputs: &mut Outputs<O>,
) -> Result<(), Refusal>
    ensures { WritesWhole (output_members O.written O.is_finished O.endings O.failures) false true
        (on_content (dec_answer limits whole.keys.items (option_map (λ c. c.items) whole.content) whole.text.items)) outputs.old outputs.new result }
{
    let WholeInputs {
        text,
        keys,
        content,
    } = whole;
    let set = KeySet::read(alloc, &keys, false)?;
    let jwe = Jwe::read(alloc, &text, content)?;
    jwe_decrypt(alloc, &set, jwe, &mut outputs.content).1
}

/// Writes the object of the text in compact form, or otherwise in JSON form. The ciphertext may be handed in separately. A ciphertext that
/// is to be detached is written to its own output.
pub(crate) fn format<I: Input, O: Output>(
    alloc: Global,
    invocation: &Invocation,
    inputs: &mut Inputs<I>,
    outputs: &mut Outputs<O>,
) -> Result<(), Refusal>
    requires command { invocation.now.command ≡ Command.JweFmt }
    requires finite { AreFinite I.remaining inputs.old }
    ensures { Does (input_members I.consumed I.is_at_end I.failures) (output_members O.written O.is_finished O.endings O.failures)
        (invocation_view invocation.now) inputs.old inputs.new outputs.old outputs.new result }
{
    let whole = read_inputs(alloc, Wanted::Object(invocation.has('I')), inputs)?;
    write_formed(
        alloc,
        whole,
        invocation.has('c'),
        invocation.has('O'),
        outputs,
    )
}

/// Writes the object that was read from the inputs, in the form that is asked for.
fn write_formed<O: Output>(
    alloc: Global,
    whole: WholeInputs,
    compact: bool,
    detach: bool,
    outputs: &mut Outputs<O>,
) -> Result<(), Refusal>
    ensures { WritesWhole (output_members O.written O.is_finished O.endings O.failures) true detach
        (jwe_fmt_answer limits compact detach (option_map (λ c. c.items) whole.content) whole.text.items) outputs.old outputs.new result }
{
    let WholeInputs { text, content, .. } = whole;
    let (object, formed) = formed(alloc, &text, content, compact, detach)?;
    let ciphertext = HeldContent::Octets(object.ciphertext());
    write_object(&formed, detach, ciphertext, outputs)
}

/// The object of the text, and its text in the form that is asked for.
#[tactic(auto, unfolding(tokens::specs::Jwe::jwe_fmt_answer))]
fn formed(
    alloc: Global,
    text: &[u8],
    detached: Option<Vec<u8>>,
    compact: bool,
    detach: bool,
) -> Result<(Jwe, String), Refusal>
    ensures { AgreesUnlessMemory (λ read. object_texts detach (jwe_view read.0).ciphertext (string_bytes read.1)) result
        (jwe_fmt_answer limits compact detach (option_map (λ c. c.items) detached) text.now) }
{
    let object = Jwe::read(alloc, text, detached)?;
    let formed = object.to_text(alloc, compact, detach)?;
    Ok((object, formed))
}
