//! Signed objects (RFC 7515), made of a text or of members.
ghost use Rattle.std.specs.Prelude.{◌≡◌, ◌≤◌, ◌&&◌, ◌++◌, false, is_none, length, map, not, option_map, Err, IfOk, IfErr, OnOk, OnErr};
ghost use Rattle.octets.specs.Devices.{next_count, AppendsPrefixOf, IsFinishedOnce};
ghost use Rattle.octets.specs.Code.Results.{AgreesUnlessMemory};
ghost use Rattle.keys.specs.Limits.{limits};
ghost use Rattle.objects.specs.Jws.{IsMade, jws_of, decoded_object as decoded_jws, signed_object as signed_object_of};
ghost use Rattle.objects.specs.Texts.{each, is_json_form as has_json_form};
ghost use Rattle.objects.specs.Code.Views.{held_view, jws_view, encoded_jws_view, payload_view, signature_view, decoded_signature_view, content_is_text, holds_text, is_text, payload_is_text};

mod build;
mod encoded;
mod named_alg;
pub(crate) mod parts;
pub(crate) mod signature;
mod signature_list;
mod write;

use crate::Header;
use crate::content::handed_in_is_octets;
use crate::content::payload::{HeldContent, Payload};
use crate::form::is_json_form;
use crate::jws::encoded::{EncodedJws, decoded_signatures, encoded_in_compact, encoded_in_json};
use crate::jws::parts::DecodedSignature;
use crate::jws::signature::{Signature, read_signatures};
use crate::jws::signature_list::SignatureList;
use keys::{MOST_RECIPIENTS, read_json};
use octets::laws::are_octets;
use octets::{Output, Refusal, needs, without_line_end};
use std::alloc::Global;

/// A signed object. It has at most `MOST_RECIPIENTS` signatures. The payload of a compact text is not copied from the text.
#[derive(Drop)]
pub struct Jws<'t> {
    payload: Payload<'t>,
    signatures: SignatureList,
}

impl<'t> Jws<'t> {
    /// Reads the object of a text in compact form, with or without an LF or a CR LF at its end, or in JSON form, general or flattened
    /// (RFC 7515 section 7). A detached payload (RFC 7515 appendix F) is handed in, and then that of the text must be absent or empty.
    /// Nothing is verified, and the algorithms may be unsupported.
    ///
    /// Refuses, each cause over the whole text before the next (docs/SPECIFICATION.md "Objects"), with `Json` or `Number`; `Form`; `Limit`
    /// if there are more than `MOST_RECIPIENTS` signatures; `Base64`; `Json`, `Number` or `Header` if a protected header is no object;
    /// `Header` if a name is in both headers of a signature, its `alg` is absent or no string, or a parameter of its `alg` is missing or
    /// wrong; and `Unsupported` if a header has a `crit` (RFC 7515 section 4.1.11). May fail with `Memory`.
    #[tactic(auto, using(crate::proofs::MadeJws::objects_are_made))]
    pub fn read(
        alloc: Global,
        text: &'t [u8],
        detached: Option<Vec<u8>>,
    ) -> Result<Jws<'t>, Refusal>
        ensures exact { AgreesUnlessMemory jws_view result (jws_of limits (option_map (λ c. c.items) detached) text.now) }
        ensures made { IfOk result (λ jws. IsMade limits (jws_view jws)) }
        ensures form { IfOk result (λ jws. holds_text jws ≡ not (has_json_form text.now) && is_none detached) }
    {
        are_octets(text);
        handed_in_is_octets(&detached);
        object_of_text(alloc, text, detached)
    }

    /// A copy of the octets of the payload. Fails only with `Memory`.
    pub fn payload(&self, alloc: Global) -> Result<Vec<u8>, Refusal>
        ensures copy { IfOk result (λ octets. octets.items ≡ (jws_view self.now).payload) }
        ensures memory { IfErr result (λ e. e ≡ Refusal.Memory) }
    {
        self.payload.octets(alloc)
    }

    /// The payload as it is held: as its base64url text if the object was read from a compact text with it, and otherwise as octets.
    pub fn held_payload(&self) -> HeldContent<'_>
        ensures octets { held_view result ≡ (jws_view self.now).payload }
        ensures form { is_text result ≡ holds_text self.now }
    {
        self.payload.held()
    }

    /// Writes the octets of the payload and finishes the output, without memory. Refuses with `Write` if the output fails, and then a
    /// beginning of them is written.
    pub fn write_payload<O: Output>(&self, out: &mut O) -> Result<(), Refusal>
        ensures all { OnOk result (O.written out.new ≡ O.written out.old ++ (jws_view self.now).payload) }
        ensures finished { OnOk result (IsFinishedOnce O.is_finished O.endings out.old out.new) }
        ensures unfinished { OnErr result (O.endings out.new ≡ O.endings out.old) }
        ensures works { OnOk result (O.failures out.new ≡ O.failures out.old) }
        ensures part { OnErr result (AppendsPrefixOf (jws_view self.now).payload (O.written out.old) (O.written out.new)) }
        ensures cause { OnErr result (result ≡ Err Refusal.Write) }
        ensures fails { OnErr result (O.failures out.new ≡ next_count (O.failures out.old)) }
    {
        self.payload.held().write(out)
    }

    /// The signatures, in order.
    pub fn signatures(&self) -> &[Signature]
        ensures list { map signature_view result.now ≡ (jws_view self.now).signatures }
        ensures few { length result.now ≤ limits.recipients }
    {
        &self.signatures.list
    }
}

/// The object of a text in either form.
#[tactic(auto, unfolding(crate::specs::Jws::jws_of, crate::specs::Jws::encoded_jws))]
fn object_of_text<'t>(
    alloc: Global,
    text: &'t [u8],
    detached: Option<Vec<u8>>,
) -> Result<Jws<'t>, Refusal>
    ensures exact { AgreesUnlessMemory jws_view result (jws_of limits (option_map (λ c. c.items) detached) text.now) }
    ensures form { IfOk result (λ jws. holds_text jws ≡ not (has_json_form text.now) && is_none detached) }
{
    if is_json_form(text) {
        let value = read_json(alloc, text)?;
        let texts = encoded_in_json(alloc, &value, detached)?;
        decoded_object(alloc, texts)
    } else {
        let texts = encoded_in_compact(alloc, without_line_end(text), detached)?;
        object_of_received_texts(alloc, texts)
    }
}

/// The object whose members have these texts. It keeps none of the texts.
#[tactic(auto, unfolding(crate::specs::Jws::decoded_object))]
fn decoded_object<'t>(alloc: Global, texts: EncodedJws<'_>) -> Result<Jws<'t>, Refusal>
    ensures exact { AgreesUnlessMemory jws_view result (decoded_jws limits (encoded_jws_view texts.entry)) }
    ensures form { IfOk result (λ jws. holds_text jws ≡ false) }
{
    needs(texts.signatures.len() <= MOST_RECIPIENTS, Refusal::Limit)?;
    let EncodedJws {
        payload,
        signatures,
    } = texts;
    let payload = payload.octets(alloc)?;
    let signatures = decoded_signatures(alloc, signatures)?;
    signed_object(alloc, Payload::Octets(payload), signatures)
}

/// The same, but the object keeps the text of the payload.
#[tactic(auto, unfolding(crate::specs::Jws::decoded_object))]
fn object_of_received_texts<'t>(alloc: Global, texts: EncodedJws<'t>) -> Result<Jws<'t>, Refusal>
    ensures exact { AgreesUnlessMemory jws_view result (decoded_jws limits (encoded_jws_view texts.entry)) }
    ensures form { IfOk result (λ jws. holds_text jws ≡ content_is_text texts.entry.payload) }
{
    let EncodedJws {
        payload,
        signatures,
    } = texts;
    needs(signatures.len() <= MOST_RECIPIENTS, Refusal::Limit)?;
    let payload = payload.payload()?;
    let signatures = decoded_signatures(alloc, signatures)?;
    signed_object(alloc, payload, signatures)
}

/// The object of a payload and these signatures.
#[tactic(auto, unfolding(crate::specs::Jws::signed_object))]
pub(crate) fn signed_object<'t>(
    alloc: Global,
    payload: Payload<'t>,
    signatures: Vec<DecodedSignature>,
) -> Result<Jws<'t>, Refusal>
    requires few { length signatures.items ≤ limits.recipients }
    ensures exact { AgreesUnlessMemory jws_view result
        (signed_object_of limits.management (payload_view payload.entry) (map decoded_signature_view signatures.items)) }
    ensures form { IfOk result (λ jws. holds_text jws ≡ payload_is_text payload.entry) }
{
    let signatures = read_signatures(alloc, signatures)?;
    Ok(Jws {
        payload,
        signatures: SignatureList { list: signatures },
    })
}
