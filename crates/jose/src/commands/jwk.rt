//! The commands `jwk gen` and `jwk thp`, from devices to devices.
ghost use Rattle.std.specs.Prelude.{◌≡◌, true, false, ◌≢◌, ◌≤◌, ℕ, List, [], ◌∷◌, Err, length, OnOk, OnErr, IfErr};
ghost use Rattle.octets.specs.Devices.{appended, observed, IsPossibleInput, AppendsPrefixOf, IsFinishedOnce, input_members, output_members};
ghost use Rattle.octets.specs.declared.refusal.Refusal.{Refusal};
ghost use Rattle.octets.specs.Faults.{TellsFaults, counts};
ghost use Rattle.octets.specs.Outcomes.{AgreesUnlessExternal};
ghost use Rattle.octets.specs.Code.Results.{accepted};
ghost use Rattle.octets.specs.Plan.{drawn_of};
ghost use Rattle.keys.specs.Limits.{limits};
ghost use Rattle.keys.specs.Generating.{gen_answer};
ghost use Rattle.keys.specs.Thumbprints.{thp_answer};
ghost use Rattle.jose.specs.declared.words.table.Command.{Command};
ghost use Rattle.jose.specs.Doing.{Does};
ghost use Rattle.jose.specs.Code.Steps.{WritesWhole};
ghost use Rattle.jose.specs.Invocations.{invocation_view};
ghost use Rattle.jose.specs.Jwk.{making};
ghost use Rattle.jose.specs.Ports.{AreFinite, on_text};

use crate::commands::{Wanted, read_inputs};
use crate::ports::{Inputs, Outputs};
use crate::words::invocation::Invocation;
use octets::{Input, Output, Refusal, emit};
use prf::HashAlg;
use std::alloc::Global;

/// Makes a key from octets of the random input, as the template asks, and writes its text.
pub(crate) fn generate<I: Input, O: Output>(
    alloc: Global,
    invocation: &Invocation,
    inputs: &mut Inputs<I>,
    outputs: &mut Outputs<O>,
) -> Result<(), Refusal>
    requires command { invocation.now.command ≡ Command.JwkGen }
    requires finite { AreFinite I.remaining inputs.old }
    ensures { Does (input_members I.consumed I.is_at_end I.failures) (output_members O.written O.is_finished O.endings O.failures)
        (invocation_view invocation.now) inputs.old inputs.new outputs.old outputs.new result }
{
    let template = read_inputs(alloc, Wanted::Text, inputs)?;
    write_key(alloc, &template.text, &mut inputs.random, &mut outputs.text)
}

/// Makes a key from octets of the random input, as the template asks, and writes its text.
fn write_key<I: Input, O: Output>(
    alloc: Global,
    template: &[u8],
    random: &mut I,
    out: &mut O,
) -> Result<(), Refusal>
    ensures answer { (octets : List ℕ) → IsPossibleInput (observed I.consumed I.is_at_end random.old random.new) octets
        → AgreesUnlessExternal (gen_answer limits template.now octets) (appended (O.written out.old) (O.written out.new)) result }
    ensures drawn { OnOk result (length (appended (I.consumed random.old) (I.consumed random.new)) ≡ drawn_of (making template.now)) }
    ensures at_most { length (appended (I.consumed random.old) (I.consumed random.new)) ≤ drawn_of (making template.now) }
    ensures beginning { OnErr result (AppendsPrefixOf (accepted
        (gen_answer limits template.now (appended (I.consumed random.old) (I.consumed random.new))) true) (O.written out.old) (O.written out.new)) }
    ensures held_back { IfErr result (λ refusal. refusal ≢ Refusal.Write → out.new ≡ out.old) }
    ensures finished { OnOk result (IsFinishedOnce O.is_finished O.endings out.old out.new) }
    ensures unfinished { OnErr result (O.endings out.new ≡ O.endings out.old) }
    ensures content_last { (refusal : Refusal) → making template.now ≡ Err refusal → random.new ≡ random.old }
    ensures faults { TellsFaults (counts I.failures random.old random.new ∷ []) (counts O.failures out.old out.new ∷ []) result }
{
    let key = keys::generate(alloc, template, random)?;
    emit(out, key.as_bytes())
}

/// Writes the thumbprints of the good keys of the text, in order, with a line feed between each two.
pub(crate) fn thumbprints<I: Input, O: Output>(
    alloc: Global,
    invocation: &Invocation,
    inputs: &mut Inputs<I>,
    outputs: &mut Outputs<O>,
) -> Result<(), Refusal>
    requires command { invocation.now.command ≡ Command.JwkThp }
    requires finite { AreFinite I.remaining inputs.old }
    ensures { Does (input_members I.consumed I.is_at_end I.failures) (output_members O.written O.is_finished O.endings O.failures)
        (invocation_view invocation.now) inputs.old inputs.new outputs.old outputs.new result }
{
    let hash = invocation.hash().ok_or(Refusal::Usage)?;
    let whole = read_inputs(alloc, Wanted::Text, inputs)?;
    write_thumbprints(alloc, &whole.text, hash, outputs)
}

/// Writes the thumbprints of the good keys of a text.
fn write_thumbprints<O: Output>(
    alloc: Global,
    text: &[u8],
    hash: HashAlg,
    outputs: &mut Outputs<O>,
) -> Result<(), Refusal>
    ensures { WritesWhole (output_members O.written O.is_finished O.endings O.failures) true false
        (on_text (thp_answer hash text.now)) outputs.old outputs.new result }
{
    let lines = keys::text_thumbprints(alloc, text, hash)?;
    emit(&mut outputs.text, lines.as_bytes())
}
