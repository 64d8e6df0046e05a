//! The texts of an encrypted object (RFC 7516 section 7). An object is refused only if a form cannot hold it.
ghost use Rattle.std.specs.Prelude.{◌≡◌, ◌≢◌, map, option_map, Err, Ok, IfOk, IfErr, OnOk, string_bytes};
ghost use Rattle.octets.specs.Code.Results.{AgreesUnlessMemory};
ghost use Rattle.keys.specs.Limits.{limits};
ghost use Rattle.objects.specs.Code.Frames.{IsJweFrame, jwe_frame};
ghost use Rattle.objects.specs.Jwe.{IsMade, jwe_of, recipient_parts_of, parts_of, json_text, jwe_compact_text, jwe_text, is_compact as is_compact_object, key_of_first};
ghost use Rattle.objects.specs.Texts.{handed_in};
ghost use Rattle.objects.specs.Code.Views.{held_view, jwe_view, recipient_view, written_view};
ghost use Rattle.objects.specs.Code.JweWriting.{with_compact, with_members, with_flattened, with_general, with_tag, jwe_written};

use crate::content::payload::HeldContent;
use crate::header::parts::has_members;
use crate::jwe::Jwe;
use crate::jwe::recipient::Recipient;
use crate::writer::{Listed, TextWriter, inside};
use octets::laws::are_octets;
use octets::{Refusal, needs};
use std::alloc::Global;

impl Jwe {
    /// The JSON text, with its members in byte order of their names: flattened if there is one recipient, and else general
    /// (RFC 7516 section 7.2). Empty optional members are left out, and so is a detached ciphertext. Fails only with `Memory`.
    pub fn to_json(&self, alloc: Global, detach: bool) -> Result<String, Refusal>
        ensures exact { AgreesUnlessMemory string_bytes result (Ok (json_text detach (jwe_view self.now))) }
        ensures spells { IsMade limits (jwe_view self.now)
            → IfOk result (λ text. jwe_of limits (handed_in detach (jwe_view self.now).ciphertext) (string_bytes text) ≡ Ok (jwe_view self.now)) }
    {
        self.to_text(alloc, false, detach)
    }

    /// The compact text (RFC 7516 section 7.1), in which the part of a detached ciphertext is empty. Refuses with `NotCompact` if the
    /// object has several recipients, a header that is not protected, or an `aad`. May fail with `Memory`.
    pub fn to_compact(&self, alloc: Global, detach: bool) -> Result<String, Refusal>
        ensures exact { AgreesUnlessMemory string_bytes result (jwe_compact_text detach (jwe_view self.now)) }
        ensures spells { IsMade limits (jwe_view self.now)
            → IfOk result (λ text. jwe_of limits (handed_in detach (jwe_view self.now).ciphertext) (string_bytes text) ≡ Ok (jwe_view self.now)) }
    {
        self.to_text(alloc, true, detach)
    }

    /// Its text in compact form if that is asked for, as by `to_compact`, and else in JSON form, as by `to_json`.
    pub fn to_text(&self, alloc: Global, compact: bool, detach: bool) -> Result<String, Refusal>
        ensures exact { AgreesUnlessMemory string_bytes result (jwe_text compact detach (jwe_view self.now)) }
        ensures spells { IsMade limits (jwe_view self.now)
            → IfOk result (λ text. jwe_of limits (handed_in detach (jwe_view self.now).ciphertext) (string_bytes text) ≡ Ok (jwe_view self.now)) }
    {
        Ok(self.written(alloc, false, compact, detach)?.into_text())
    }

    /// The texts before, between and after the base64url texts of a ciphertext and a tag, in compact form if that is asked for, and else in
    /// JSON form. A detached ciphertext has no place. The object's own ciphertext and tag do not matter. Refuses with `NotCompact` as
    /// `to_compact` does. May fail with `Memory`.
    pub fn frame(&self, alloc: Global, compact: bool, detach: bool) -> Result<Vec<String>, Refusal>
        ensures exact { AgreesUnlessMemory (λ texts. map string_bytes texts.items) result (jwe_frame compact detach (jwe_view self.now)) }
        ensures texts { IfOk result (λ texts. IsJweFrame compact detach (jwe_view self.now) (map string_bytes texts.items)) }
        ensures refused { IfErr result (λ e. e ≢ Refusal.Memory → (e ≡ Refusal.NotCompact)
            × (jwe_text compact detach (jwe_view self.now) ≡ Err Refusal.NotCompact)) }
    {
        self.written(alloc, true, compact, detach)?.into_texts()
    }

    /// Its text, with its ciphertext and tag or with places left for these.
    fn written(
        &self,
        alloc: Global,
        places: bool,
        compact: bool,
        detach: bool,
    ) -> Result<TextWriter, Refusal>
        ensures { AgreesUnlessMemory written_view result (jwe_written places compact detach (jwe_view self.now)) }
    {
        let ciphertext = inside(detach, HeldContent::Octets(self.ciphertext()));
        let mut texts = TextWriter::new(alloc, places);
        if compact {
            needs(is_compact(self), Refusal::NotCompact)?;
            write_compact(alloc, &mut texts, self, ciphertext)?;
        } else {
            texts.begin("{")?;
            write_members(alloc, &mut texts, self, ciphertext)?;
            texts.end("}")?;
        }
        Ok(texts)
    }
}

/// Writes the parts of a compact text.
fn write_compact(
    alloc: Global,
    texts: &mut TextWriter,
    jwe: &Jwe,
    ciphertext: Option<HeldContent<'_>>,
) -> Result<(), Refusal>
    ensures written { OnOk result (written_view texts.new
        ≡ with_compact (option_map held_view ciphertext.entry) (parts_of (jwe_view jwe.now)) (written_view texts.old)) }
    ensures memory { IfErr result (λ e. e ≡ Refusal.Memory) }
{
    texts.push(jwe.protected())?;
    texts.part(key_of_first(jwe.recipients()))?;
    texts.part(jwe.iv())?;
    texts.content_part(alloc, ciphertext)?;
    texts.place_part(alloc, HeldContent::Octets(jwe.tag()))
}

/// Writes the members of a JSON text.
fn write_members(
    alloc: Global,
    texts: &mut TextWriter,
    jwe: &Jwe,
    ciphertext: Option<HeldContent<'_>>,
) -> Result<(), Refusal>
    ensures written { OnOk result (written_view texts.new
        ≡ with_members (option_map held_view ciphertext.entry) (parts_of (jwe_view jwe.now)) (written_view texts.old)) }
    ensures memory { IfErr result (λ e. e ≡ Refusal.Memory) }
{
    texts.octets(alloc, "aad", jwe.aad())?;
    texts.content(alloc, "ciphertext", ciphertext)?;
    write_flattened(alloc, texts, jwe.recipients())?;
    texts.octets(alloc, "iv", jwe.iv())?;
    texts.text(
        alloc,
        "protected",
        String::from_str(alloc, jwe.protected())?,
    )?;
    write_general(alloc, texts, jwe.recipients())?;
    write_tag(alloc, texts, jwe.tag())?;
    texts.header(alloc, "unprotected", &jwe.unprotected)
}

/// Writes the members of the one recipient.
fn write_flattened(
    alloc: Global,
    texts: &mut TextWriter,
    recipients: &[Recipient],
) -> Result<(), Refusal>
    ensures written { OnOk result (written_view texts.new
        ≡ with_flattened (map recipient_parts_of (map recipient_view recipients.now)) (written_view texts.old)) }
    ensures memory { IfErr result (λ e. e ≡ Refusal.Memory) }
{
    match recipients {
        [recipient] => recipient.write(alloc, texts),
        _ => Ok(()),
    }
}

/// Writes a list of several recipients, or of none.
#[tactic(auto, using(crate::proofs::WrittenItems::seen))]
fn write_general(
    alloc: Global,
    texts: &mut TextWriter,
    recipients: &[Recipient],
) -> Result<(), Refusal>
    ensures written { OnOk result (written_view texts.new
        ≡ with_general (map recipient_parts_of (map recipient_view recipients.now)) (written_view texts.old)) }
    ensures memory { IfErr result (λ e. e ≡ Refusal.Memory) }
{
    match recipients {
        [_] => Ok(()),
        _ => texts.list(alloc, "recipients", recipients),
    }
}

impl Listed for Recipient {
    ghost use Rattle.objects.specs.Jwe.{RecipientParts, recipient_parts_of};
    ghost use Rattle.objects.specs.Code.JweWriting.{with_recipient};
    ghost use Rattle.objects.specs.Code.Views.{recipient_view};

    ghost Seen = { RecipientParts };

    ghost seen = { λ r. recipient_parts_of (recipient_view r) };

    ghost with_one = { with_recipient };

    fn write(&self, alloc: Global, texts: &mut TextWriter) -> Result<(), Refusal> {
        texts.octets(alloc, "encrypted_key", self.encrypted_key())?;
        texts.header(alloc, "header", &self.header)
    }
}

/// Leaves a place for the tag, or writes its text if it is not empty.
#[tactic(auto, using(crate::proofs::JweFrames::tag_is_placed, crate::proofs::JweFrames::tag_is_absent))]
fn write_tag(alloc: Global, texts: &mut TextWriter, tag: &[u8]) -> Result<(), Refusal>
    ensures written { OnOk result (written_view texts.new ≡ with_tag tag.now (written_view texts.old)) }
    ensures memory { IfErr result (λ e. e ≡ Refusal.Memory) }
{
    are_octets(tag);
    if texts.places || !tag.is_empty() {
        texts.place(alloc, "tag", HeldContent::Octets(tag))?;
    }
    Ok(())
}

/// Whether a compact text can hold the object.
fn is_compact(jwe: &Jwe) -> bool
    ensures { result ≡ is_compact_object (jwe_view jwe.now) (jwe_view jwe.now).recipients }
{
    match jwe.recipients() {
        [recipient] => {
            !has_members(jwe.unprotected())
                && !has_members(recipient.header())
                && jwe.aad().is_empty()
        }
        _ => false,
    }
}

/// The encrypted key of the first recipient.
fn key_of_first(recipients: &[Recipient]) -> &[u8]
    ensures { result.now ≡ key_of_first (map recipient_parts_of (map recipient_view recipients.now)) }
{
    match recipients {
        [] => b"",
        [recipient, ..] => recipient.encrypted_key(),
    }
}
