//! The payload of a signed object, as the base64url text that was received or as octets. A text is checked and written in pieces, without
//! memory.
ghost use Rattle.std.specs.Prelude.{◌≡◌, ◌≤◌, ◌++◌, length, drop, Err, IfOk, IfErr, OnOk, OnErr};
ghost use Rattle.octets.specs.Base64url.{base64url, decoded};
ghost use Rattle.octets.specs.Devices.{next_count, AppendsPrefixOf, IsFinishedOnce};
ghost use Rattle.octets.specs.Code.Results.{Agrees};
ghost use Rattle.objects.specs.Code.Views.{held_view, payload_view, received_view, is_text, payload_is_text};
ghost use Rattle.objects.specs.Code.Meaning.{meaning};

use crate::content::received_text::ReceivedText;
use octets::laws::are_octets;
use octets::{
    B64Reader, Output, PIECE, PIECE_TEXT, Refusal, Transform, b64_decode, b64_decode_onto, emit,
    needs, without_line_end, write_whole,
};
use std::alloc::Global;

/// The payload of a signed object.
#[derive(Drop)]
pub(crate) enum Payload<'t> {
    Text(ReceivedText<'t>),
    Octets(Vec<u8>),
}

/// A content as it is held: the base64url text that was received, or the octets.
#[derive(Clone, Copy)]
pub enum HeldContent<'c> {
    Text(ReceivedText<'c>),
    Octets(&'c [u8]),
}

impl<'t> ReceivedText<'t> {
    /// A text that was received. Refuses with `Base64` if it is no base64url text.
    #[tactic(auto, using(octets::proofs::Lemmas::octets_of_meaning, octets::proofs::Lemmas::text_of_meaning))]
    pub(crate) fn read(text: &'t [u8]) -> Result<ReceivedText<'t>, Refusal>
        ensures { Agrees received_view result (decoded text.entry.now) }
    {
        are_octets(text);
        check(text)?;
        Ok(ReceivedText { text })
    }

    /// The text.
    pub fn text(&self) -> &'t [u8]
        ensures { result.now ≡ base64url (received_view self.now) }
    {
        self.text
    }
}

impl<'t> Payload<'t> {
    pub(crate) fn held(&self) -> HeldContent<'_>
        ensures octets { held_view result ≡ payload_view self.now }
        ensures form { is_text result ≡ payload_is_text self.now }
    {
        match self {
            Payload::Text(text) => HeldContent::Text(*text),
            Payload::Octets(octets) => HeldContent::Octets(octets),
        }
    }

    /// A copy of the octets.
    pub(crate) fn octets(&self, alloc: Global) -> Result<Vec<u8>, Refusal>
        ensures copy { IfOk result (λ octets. octets.items ≡ payload_view self.now) }
        ensures memory { IfErr result (λ e. e ≡ Refusal.Memory) }
    {
        match self {
            Payload::Text(text) => meant(alloc, text),
            Payload::Octets(octets) => copied(alloc, octets),
        }
    }
}

impl HeldContent<'_> {
    /// How many octets it has.
    pub fn len(&self) -> usize
        ensures { result ≡ length (held_view self.now) }
    {
        match self {
            HeldContent::Text(text) => meaning_len(text),
            HeldContent::Octets(octets) => octets.len(),
        }
    }

    /// Copies the octets to the front of `out`, which must have room for them, without memory.
    pub fn copy_onto(&self, out: &mut [u8])
        requires { length (held_view self.now) ≤ length out.old }
        ensures { out.new ≡ held_view self.now ++ drop (length (held_view self.now)) out.old }
    {
        match self {
            HeldContent::Text(text) => meaning_onto(text, out),
            HeldContent::Octets(octets) => octets_onto(octets, out),
        }
    }

    /// Writes the octets and finishes the output, without memory. If the output fails, a beginning of them is written.
    pub fn write<O: Output>(&self, out: &mut O) -> Result<(), Refusal>
        ensures all { OnOk result (O.written out.new ≡ O.written out.old ++ held_view self.now) }
        ensures finished { OnOk result (IsFinishedOnce O.is_finished O.endings out.old out.new) }
        ensures unfinished { OnErr result (O.endings out.new ≡ O.endings out.old) }
        ensures works { OnOk result (O.failures out.new ≡ O.failures out.old) }
        ensures part { OnErr result (AppendsPrefixOf (held_view self.now) (O.written out.old) (O.written out.new)) }
        ensures cause { OnErr result (result ≡ Err Refusal.Write) }
        ensures fails { OnErr result (O.failures out.new ≡ next_count (O.failures out.old)) }
    {
        match self {
            HeldContent::Text(text) => write_meaning(text, out),
            HeldContent::Octets(octets) => emit(out, octets),
        }
    }
}

/// Refuses with `Base64` if the text is no base64url text.
fn check(text: &[u8]) -> Result<(), Refusal>
    ensures { Agrees (λ done. meaning text.now) result (decoded text.now) }
{
    are_octets(text);
    needs(without_line_end(text).len() == text.len(), Refusal::Base64)?;
    let mut reader = B64Reader::start();
    let mut space = [0; PIECE_TEXT];
    for piece in text.chunks(PIECE) {
        Transform::feed(&mut reader, piece, &mut space)?;
    }
    Transform::finish(reader, &mut space)?;
    Ok(())
}

/// Writes the octets of the text and finishes the output.
fn write_meaning<O: Output>(text: &ReceivedText<'_>, out: &mut O) -> Result<(), Refusal>
    ensures all { OnOk result (O.written out.new ≡ O.written out.old ++ received_view text.now) }
    ensures finished { OnOk result (IsFinishedOnce O.is_finished O.endings out.old out.new) }
    ensures unfinished { OnErr result (O.endings out.new ≡ O.endings out.old) }
    ensures works { OnOk result (O.failures out.new ≡ O.failures out.old) }
    ensures part { OnErr result (AppendsPrefixOf (received_view text.now) (O.written out.old) (O.written out.new)) }
    ensures cause { OnErr result (result ≡ Err Refusal.Write) }
    ensures fails { OnErr result (O.failures out.new ≡ next_count (O.failures out.old)) }
{
    are_octets(text.text);
    let mut reader = B64Reader::start();
    let mut space = [0; PIECE_TEXT];
    for piece in text.text.chunks(PIECE) {
        let Ok(octets) = Transform::feed(&mut reader, piece, &mut space) else {
            unreachable!()
        };
        write_whole(out, octets)?;
    }
    let Ok((octets, ())) = Transform::finish(reader, &mut space) else {
        unreachable!()
    };
    emit(out, octets)
}

/// The octets of the text.
#[tactic(auto, using(octets::proofs::Lemmas::meaning_of_text))]
fn meant(alloc: Global, text: &ReceivedText<'_>) -> Result<Vec<u8>, Refusal>
    ensures meaning { IfOk result (λ octets. octets.items ≡ received_view text.now) }
    ensures memory { IfErr result (λ e. e ≡ Refusal.Memory) }
{
    b64_decode(alloc, text.text)
}

/// A copy of the octets.
fn copied(alloc: Global, octets: &[u8]) -> Result<Vec<u8>, Refusal>
    ensures copy { IfOk result (λ copy. copy.items ≡ octets.now) }
    ensures memory { IfErr result (λ e. e ≡ Refusal.Memory) }
{
    let mut copy = Vec::new(alloc);
    copy.extend_from_slice(octets)?;
    Ok(copy)
}

/// How many octets the text means: three for each four characters, and one or two for the two or three after them.
fn meaning_len(text: &ReceivedText<'_>) -> usize
    ensures { result ≡ length (received_view text.now) }
{
    let characters = text.text.len();
    characters / 4 * 3 + characters % 4 * 3 / 4
}

/// Writes the octets of the text to the front of `out`.
fn meaning_onto(text: &ReceivedText<'_>, out: &mut [u8])
    requires { length (received_view text.now) ≤ length out.old }
    ensures { out.new ≡ received_view text.now ++ drop (length (received_view text.now)) out.old }
{
    b64_decode_onto(text.text, out);
}

/// Copies the octets to the front of `out`.
fn octets_onto(octets: &[u8], out: &mut [u8])
    requires { length octets.now ≤ length out.old }
    ensures { out.new ≡ octets.now ++ drop (length octets.now) out.old }
{
    out[..octets.len()].copy_from_slice(octets);
}
