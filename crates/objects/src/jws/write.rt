//! The texts of a signed object (RFC 7515 section 7). An object is refused only if a form cannot hold it.
ghost use Rattle.std.specs.Prelude.{◌≡◌, ◌≢◌, map, option_map, Err, Ok, IfOk, IfErr, OnOk, string_bytes};
ghost use Rattle.octets.specs.Code.Results.{AgreesUnlessMemory};
ghost use Rattle.keys.specs.Limits.{limits};
ghost use Rattle.objects.specs.Code.Frames.{IsJwsFrame, jws_frame};
ghost use Rattle.objects.specs.Jws.{IsMade, jws_of, signature_parts_of, json_text, jws_compact_text, jws_text, is_compact as is_compact_object};
ghost use Rattle.objects.specs.Texts.{handed_in};
ghost use Rattle.objects.specs.Code.Views.{held_view, jws_view, signature_view, written_view};
ghost use Rattle.objects.specs.Code.JwsWriting.{with_compact, with_signatures, with_signature, with_general, jws_written};

use crate::content::payload::HeldContent;
use crate::header::parts::has_members;
use crate::jws::Jws;
use crate::jws::signature::Signature;
use crate::writer::{Listed, TextWriter, inside};
use octets::{Refusal, needs};
use std::alloc::Global;

impl Jws<'_> {
    /// The JSON text, with its members in byte order of their names: flattened if there is one signature, and else general
    /// (RFC 7515 section 7.2). Empty optional members are left out, and so is a detached payload. Fails only with `Memory`.
    pub fn to_json(&self, alloc: Global, detach: bool) -> Result<String, Refusal>
        ensures exact { AgreesUnlessMemory string_bytes result (Ok (json_text detach (jws_view self.now))) }
        ensures spells { IsMade limits (jws_view self.now)
            → IfOk result (λ text. jws_of limits (handed_in detach (jws_view self.now).payload) (string_bytes text) ≡ Ok (jws_view self.now)) }
    {
        self.to_text(alloc, false, detach)
    }

    /// The compact text (RFC 7515 section 7.1), in which the part of a detached payload is empty. Refuses with `NotCompact` if the object
    /// has several signatures, or a header that is not protected. May fail with `Memory`.
    pub fn to_compact(&self, alloc: Global, detach: bool) -> Result<String, Refusal>
        ensures exact { AgreesUnlessMemory string_bytes result (jws_compact_text detach (jws_view self.now)) }
        ensures spells { IsMade limits (jws_view self.now)
            → IfOk result (λ text. jws_of limits (handed_in detach (jws_view self.now).payload) (string_bytes text) ≡ Ok (jws_view self.now)) }
    {
        self.to_text(alloc, true, detach)
    }

    /// Its text in compact form if that is asked for, as by `to_compact`, and else in JSON form, as by `to_json`.
    pub fn to_text(&self, alloc: Global, compact: bool, detach: bool) -> Result<String, Refusal>
        ensures exact { AgreesUnlessMemory string_bytes result (jws_text compact detach (jws_view self.now)) }
        ensures spells { IsMade limits (jws_view self.now)
            → IfOk result (λ text. jws_of limits (handed_in detach (jws_view self.now).payload) (string_bytes text) ≡ Ok (jws_view self.now)) }
    {
        Ok(self.written(alloc, false, compact, detach)?.into_text())
    }

    /// The texts before, between and after the base64url texts of a payload and of the signatures in order, in compact form if that is
    /// asked for, and else in JSON form. A detached payload has no place. The object's own payload and signatures do not matter. Refuses
    /// with `NotCompact` as `to_compact` does. May fail with `Memory`.
    pub fn frame(&self, alloc: Global, compact: bool, detach: bool) -> Result<Vec<String>, Refusal>
        ensures exact { AgreesUnlessMemory (λ texts. map string_bytes texts.items) result (jws_frame compact detach (jws_view self.now)) }
        ensures texts { IfOk result (λ texts. IsJwsFrame compact detach (jws_view self.now) (map string_bytes texts.items)) }
        ensures refused { IfErr result (λ e. e ≢ Refusal.Memory → (e ≡ Refusal.NotCompact)
            × (jws_text compact detach (jws_view self.now) ≡ Err Refusal.NotCompact)) }
    {
        self.written(alloc, true, compact, detach)?.into_texts()
    }

    /// Its text, with its payload and signatures or with places left for these.
    fn written(
        &self,
        alloc: Global,
        places: bool,
        compact: bool,
        detach: bool,
    ) -> Result<TextWriter, Refusal>
        ensures { AgreesUnlessMemory written_view result (jws_written places compact detach (jws_view self.now)) }
    {
        let payload = inside(detach, self.held_payload());
        let mut texts = TextWriter::new(alloc, places);
        if compact {
            needs(is_compact(self.signatures()), Refusal::NotCompact)?;
            write_compact(alloc, &mut texts, payload, self.signatures())?;
        } else {
            texts.begin("{")?;
            write_signatures(alloc, &mut texts, payload, self.signatures())?;
            texts.end("}")?;
        }
        Ok(texts)
    }
}

/// Writes the parts of a compact text.
fn write_compact(
    alloc: Global,
    texts: &mut TextWriter,
    payload: Option<HeldContent<'_>>,
    signatures: &[Signature],
) -> Result<(), Refusal>
    ensures written { OnOk result (written_view texts.new
        ≡ with_compact (option_map held_view payload.entry) (map signature_parts_of (map signature_view signatures.now)) (written_view texts.old)) }
    ensures memory { IfErr result (λ e. e ≡ Refusal.Memory) }
{
    match signatures {
        [] => Ok(()),
        [signature, ..] => {
            texts.push(signature.protected())?;
            texts.content_part(alloc, payload)?;
            texts.place_part(alloc, HeldContent::Octets(signature.signature()))
        }
    }
}

/// Writes the payload, and next to it the one signature, or a list of several or none.
fn write_signatures(
    alloc: Global,
    texts: &mut TextWriter,
    payload: Option<HeldContent<'_>>,
    signatures: &[Signature],
) -> Result<(), Refusal>
    ensures written { OnOk result (written_view texts.new
        ≡ with_signatures (option_map held_view payload.entry) (map signature_parts_of (map signature_view signatures.now)) (written_view texts.old)) }
    ensures memory { IfErr result (λ e. e ≡ Refusal.Memory) }
{
    match signatures {
        [signature] => write_flattened(alloc, texts, payload, signature),
        _ => write_general(alloc, texts, payload, signatures),
    }
}

/// Writes the members of a signature, and the payload if it is next to them.
fn write_flattened(
    alloc: Global,
    texts: &mut TextWriter,
    payload: Option<HeldContent<'_>>,
    signature: &Signature,
) -> Result<(), Refusal>
    ensures written { OnOk result (written_view texts.new
        ≡ with_signature (option_map held_view payload.entry) (signature_parts_of (signature_view signature.now)) (written_view texts.old)) }
    ensures memory { IfErr result (λ e. e ≡ Refusal.Memory) }
{
    texts.header(alloc, "header", &signature.header)?;
    texts.content(alloc, "payload", payload)?;
    texts.text(
        alloc,
        "protected",
        String::from_str(alloc, signature.protected())?,
    )?;
    texts.place(
        alloc,
        "signature",
        HeldContent::Octets(signature.signature()),
    )
}

/// Writes the payload and a list of signatures.
#[tactic(auto, using(crate::proofs::WrittenItems::seen))]
fn write_general(
    alloc: Global,
    texts: &mut TextWriter,
    payload: Option<HeldContent<'_>>,
    signatures: &[Signature],
) -> Result<(), Refusal>
    ensures written { OnOk result (written_view texts.new
        ≡ with_general (option_map held_view payload.entry) (map signature_parts_of (map signature_view signatures.now)) (written_view texts.old)) }
    ensures memory { IfErr result (λ e. e ≡ Refusal.Memory) }
{
    texts.content(alloc, "payload", payload)?;
    texts.list(alloc, "signatures", signatures)
}

impl Listed for Signature {
    ghost use Rattle.std.specs.Prelude.{None};
    ghost use Rattle.objects.specs.Jws.{SignatureParts, signature_parts_of};
    ghost use Rattle.objects.specs.Code.JwsWriting.{with_signature};
    ghost use Rattle.objects.specs.Code.Views.{signature_view};

    ghost Seen = { SignatureParts };

    ghost seen = { λ s. signature_parts_of (signature_view s) };

    ghost with_one = { with_signature None };

    fn write(&self, alloc: Global, texts: &mut TextWriter) -> Result<(), Refusal> {
        write_flattened(alloc, texts, None, self)
    }
}

/// Whether a compact text can hold the signatures.
fn is_compact(signatures: &[Signature]) -> bool
    ensures { result ≡ is_compact_object (map signature_view signatures.now) }
{
    match signatures {
        [signature] => !has_members(signature.header()),
        _ => false,
    }
}
