//! The work of each command, from devices to devices.
ghost use Rattle.std.specs.Prelude.{◌≡◌, true, false, ℕ, List, [], ◌∷◌, option_map, Err, OnOk, OnErr, IfOk, IfErr, IsTrue};
ghost use Rattle.std.specs.Iterator.{IsFinite};
ghost use Rattle.octets.specs.Devices.{observed, IsPossibleInput, input_members, output_members};
ghost use Rattle.octets.specs.Faults.{TellsFaults, counts};
ghost use Rattle.octets.specs.Code.Results.{IsReadingFailure};
ghost use Rattle.objects.specs.Texts.{handed_in};
ghost use Rattle.objects.specs.Code.Views.{held_view};
ghost use Rattle.jose.specs.Code.Steps.{ReadsInputs, WritesWhole, wants_keys, wants_content, where_read, object_texts};
ghost use Rattle.jose.specs.Ports.{AreFinite};

pub(crate) mod b64;
pub(crate) mod jwe;
pub(crate) mod jwk;
pub(crate) mod jws;

use crate::ports::{Inputs, Outputs};
use objects::HeldContent;
use octets::{Input, Output, PIECE, Refusal, emit, read_to_end};
use std::alloc::Global;

/// All that was read from the inputs of a command. Nothing was read from an input that the command does not use.
#[derive(Drop)]
pub struct WholeInputs {
    pub text: Vec<u8>,
    pub keys: Vec<u8>,
    pub content: Option<Vec<u8>>,
}

/// Which inputs a command reads to their end.
#[derive(Clone, Copy)]
pub enum Wanted {
    /// The text alone.
    Text,
    /// The text of a template, and the keys.
    TemplateAndKeys,
    /// The text of an object, and its content if it is handed in.
    Object(bool),
    /// The text of an object, the keys, and the content of the object if it is handed in.
    ObjectAndKeys(bool),
}

impl Wanted {
    /// Whether the keys are read.
    fn has_keys(self) -> bool
        ensures { result ≡ wants_keys self }
    {
        match self {
            Wanted::Text | Wanted::Object(_) => false,
            Wanted::TemplateAndKeys | Wanted::ObjectAndKeys(_) => true,
        }
    }

    /// Whether the content is read.
    fn has_content(self) -> bool
        ensures { result ≡ wants_content self }
    {
        match self {
            Wanted::Text | Wanted::TemplateAndKeys => false,
            Wanted::Object(handed_in) | Wanted::ObjectAndKeys(handed_in) => handed_in,
        }
    }
}

/// Reads the text to its end, then the keys if they are wanted, and then the content if it is wanted.
pub fn read_inputs<I: Input>(
    alloc: Global,
    wanted: Wanted,
    inputs: &mut Inputs<I>,
) -> Result<WholeInputs, Refusal>
    requires { AreFinite I.remaining inputs.old }
    ensures { ReadsInputs (input_members I.consumed I.is_at_end I.failures) (wants_keys wanted) (wants_content wanted) inputs.old inputs.new result }
{
    let text = read_to_end(alloc, &mut inputs.text)?;
    let keys = read_keys(alloc, wanted.has_keys(), &mut inputs.keys)?;
    let content = read_detached(alloc, wanted.has_content(), &mut inputs.content)?;
    Ok(WholeInputs {
        text,
        keys,
        content,
    })
}

/// Reads the keys to their end, if the command has them.
fn read_keys<I: Input>(alloc: Global, has_keys: bool, keys: &mut I) -> Result<Vec<u8>, Refusal>
    requires { IsFinite (I.remaining keys.old) }
    ensures keys { IfOk result (λ read. (whole : List ℕ)
        → IsPossibleInput (observed I.consumed I.is_at_end keys.old keys.new) whole → read.items ≡ where_read has_keys whole) }
    ensures ends { OnOk result (IsTrue has_keys → IsTrue (I.is_at_end keys.new)) }
    ensures untouched { has_keys ≡ false → keys.new ≡ keys.old }
    ensures works { OnOk result (I.failures keys.new ≡ I.failures keys.old) }
    ensures fails { IfErr result (IsReadingFailure (I.failures keys.old) (I.failures keys.new)) }
{
    if has_keys {
        read_to_end(alloc, keys)
    } else {
        Ok(Vec::new(alloc))
    }
}

/// Reads the content to its end, if it is handed in separately from the object.
fn read_detached<I: Input>(
    alloc: Global,
    detached_given: bool,
    content: &mut I,
) -> Result<Option<Vec<u8>>, Refusal>
    requires { IsFinite (I.remaining content.old) }
    ensures content { IfOk result (λ read. (whole : List ℕ)
        → IsPossibleInput (observed I.consumed I.is_at_end content.old content.new) whole
        → handed_in detached_given whole ≡ option_map (λ c. c.items) read) }
    ensures ends { OnOk result (IsTrue detached_given → IsTrue (I.is_at_end content.new)) }
    ensures untouched { detached_given ≡ false → content.new ≡ content.old }
    ensures works { OnOk result (I.failures content.new ≡ I.failures content.old) }
    ensures fails { IfErr result (IsReadingFailure (I.failures content.old) (I.failures content.new)) }
{
    if detached_given {
        Ok(Some(read_to_end(alloc, content)?))
    } else {
        Ok(None)
    }
}

/// Reads the content to its end and keeps none of it. Fails with `Read` if the content fails.
pub fn read_past<I: Input>(content: &mut I) -> Result<(), Refusal>
    requires { IsFinite (I.remaining content.old) }
    ensures ends { OnOk result (IsTrue (I.is_at_end content.new)) }
    ensures cause { OnErr result (result ≡ Err Refusal.Read) }
    ensures faults { TellsFaults (counts I.failures content.old content.new ∷ []) [] result }
{
    let mut buf = [0; PIECE];
    'pieces: loop {
        let n = content.read(&mut buf)?;
        if n == 0 {
            return Ok(());
        }
    }
}

/// Writes the content, if it is detached, and then the text.
fn write_object<O: Output>(
    text: &str,
    detach: bool,
    content: HeldContent<'_>,
    outputs: &mut Outputs<O>,
) -> Result<(), Refusal>
    ensures { WritesWhole (output_members O.written O.is_finished O.endings O.failures) true detach
        (Ok (object_texts detach (held_view content.entry) text.now)) outputs.old outputs.new result }
{
    if detach {
        content.write(&mut outputs.content)?;
    }
    emit(&mut outputs.text, text.as_bytes())
}
