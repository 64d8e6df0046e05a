//! The commands `b64 enc` and `b64 dec`, from devices to devices.
ghost use Rattle.std.specs.Prelude.{◌≡◌, ◌≢◌, ℕ, List, [], ◌∷◌, Err, OnOk, OnErr, IfErr};
ghost use Rattle.std.specs.Iterator.{IsFinite};
ghost use Rattle.octets.specs.Devices.{appended, observed, IsPossibleInput, AppendsPrefixOf, IsFinishedOnce, input_members, output_members};
ghost use Rattle.octets.specs.Encoding.{encoding, decoding};
ghost use Rattle.octets.specs.Faults.{TellsFaults, counts};
ghost use Rattle.octets.specs.Outcomes.{AgreesUnlessExternal};
ghost use Rattle.octets.specs.Plan.{beginning_of};
ghost use Rattle.octets.specs.Pumps.{KeepsUp};
ghost use Rattle.jose.specs.declared.words.table.Command.{Command};
ghost use Rattle.jose.specs.Doing.{Does};
ghost use Rattle.jose.specs.Invocations.{invocation_view};
ghost use Rattle.jose.specs.Ports.{AreFinite};

use crate::ports::{Inputs, Outputs};
use crate::words::invocation::Invocation;
use octets::{B64Reader, B64Writer, Input, Output, Refusal, pump};

/// Writes the base64url text of the content, piece by piece as it is read.
pub(crate) fn encode<I: Input, O: Output>(
    invocation: &Invocation,
    inputs: &mut Inputs<I>,
    outputs: &mut Outputs<O>,
) -> Result<(), Refusal>
    requires command { invocation.now.command ≡ Command.B64Enc }
    requires finite { AreFinite I.remaining inputs.old }
    ensures { Does (input_members I.consumed I.is_at_end I.failures) (output_members O.written O.is_finished O.endings O.failures)
        (invocation_view invocation.now) inputs.old inputs.new outputs.old outputs.new result }
{
    encode_content(&mut inputs.content, &mut outputs.text)
}

/// Writes the octets of the input, a base64url text with or without a line end, piece by piece as it is read.
pub(crate) fn decode<I: Input, O: Output>(
    invocation: &Invocation,
    inputs: &mut Inputs<I>,
    outputs: &mut Outputs<O>,
) -> Result<(), Refusal>
    requires command { invocation.now.command ≡ Command.B64Dec }
    requires finite { AreFinite I.remaining inputs.old }
    ensures { Does (input_members I.consumed I.is_at_end I.failures) (output_members O.written O.is_finished O.endings O.failures)
        (invocation_view invocation.now) inputs.old inputs.new outputs.old outputs.new result }
{
    decode_text(&mut inputs.text, &mut outputs.content)
}

/// Writes the base64url text of the content, piece by piece as it is read.
fn encode_content<I: Input, O: Output>(content: &mut I, out: &mut O) -> Result<(), Refusal>
    requires { IsFinite (I.remaining content.old) }
    ensures answer { (whole : List ℕ) → IsPossibleInput (observed I.consumed I.is_at_end content.old content.new) whole
        → AgreesUnlessExternal (encoding.whole whole) (appended (O.written out.old) (O.written out.new)) result }
    ensures beginning { OnErr result
        (AppendsPrefixOf (beginning_of encoding (observed I.consumed I.is_at_end content.old content.new)) (O.written out.old) (O.written out.new)) }
    ensures finished { OnOk result (IsFinishedOnce O.is_finished O.endings out.old out.new) }
    ensures unfinished { OnErr result (O.endings out.new ≡ O.endings out.old) }
    ensures uncut { IfErr result (λ refusal. refusal ≢ Refusal.Write
        → O.written out.new ≡ O.written out.old → out.new ≡ out.old) }
    ensures keeps_up { result ≡ Err Refusal.Read → appended (I.consumed content.old) (I.consumed content.new) ≢ []
        → KeepsUp encoding.fixed (appended (I.consumed content.old) (I.consumed content.new)) (O.written out.old) (O.written out.new) }
    ensures no_memory { IfErr result (λ refusal. refusal ≢ Refusal.Memory) }
    ensures faults { TellsFaults (counts I.failures content.old content.new ∷ []) (counts O.failures out.old out.new ∷ []) result }
{
    pump(content, B64Writer::start(), &[], out)?;
    Ok(out.finish()?)
}

/// Writes the octets of the input, a base64url text with or without a line end, piece by piece as it is read.
fn decode_text<I: Input, O: Output>(text: &mut I, out: &mut O) -> Result<(), Refusal>
    requires { IsFinite (I.remaining text.old) }
    ensures answer { (whole : List ℕ) → IsPossibleInput (observed I.consumed I.is_at_end text.old text.new) whole
        → AgreesUnlessExternal (decoding.whole whole) (appended (O.written out.old) (O.written out.new)) result }
    ensures beginning { OnErr result
        (AppendsPrefixOf (beginning_of decoding (observed I.consumed I.is_at_end text.old text.new)) (O.written out.old) (O.written out.new)) }
    ensures finished { OnOk result (IsFinishedOnce O.is_finished O.endings out.old out.new) }
    ensures unfinished { OnErr result (O.endings out.new ≡ O.endings out.old) }
    ensures uncut { IfErr result (λ refusal. refusal ≢ Refusal.Write
        → O.written out.new ≡ O.written out.old → out.new ≡ out.old) }
    ensures keeps_up { result ≡ Err Refusal.Read → appended (I.consumed text.old) (I.consumed text.new) ≢ []
        → KeepsUp decoding.fixed (appended (I.consumed text.old) (I.consumed text.new)) (O.written out.old) (O.written out.new) }
    ensures no_memory { IfErr result (λ refusal. refusal ≢ Refusal.Memory) }
    ensures faults { TellsFaults (counts I.failures text.old text.new ∷ []) (counts O.failures out.old out.new ∷ []) result }
{
    pump(text, B64Reader::start(), &[], out)?;
    Ok(out.finish()?)
}
