//! Writing the text of an object of either kind (RFC 7515 section 7, RFC 7516 section 7): as one text with its values, or as the texts
//! around places that are left for values.
ghost use Rattle.std.specs.Prelude.{◌≡◌, ◌++◌, true, false, map, option_map, Ok, IfOk, IfErr, OnOk, string_bytes};
ghost use Rattle.serde_json.specs.Data.{object};
ghost use Rattle.serde_json.specs.View.{view, members_view};
ghost use Rattle.serde_json.specs.Written.{has_float};
ghost use Rattle.objects.specs.Code.Views.{held_view, received_view, written_view};
ghost use Rattle.objects.specs.Code.Writing.{Written, nothing_written, all_texts, pushed, with_slot, opened, closed, separated, named, with_value, with_text, with_header, with_place, with_content, with_items, with_list, with_part, with_place_part, with_content_part, inside};
ghost use Rattle.octets.specs.Base64url.{base64url};
ghost use Rattle.octets.specs.Octets.{IsOctets};

use crate::content::payload::HeldContent;
use crate::content::received_text::ReceivedText;
use crate::header::members::HeaderMembers;
use crate::header::parts::{copy_header, has_members};
use octets::laws::are_octets;
use octets::{Refusal, b64_append, b64_encode};
use serde_json::Value;
use std::alloc::Global;
use std::mem;

/// Texts that are being written. In JSON form the members are written in byte order of their names.
#[derive(Drop)]
pub(crate) struct TextWriter {
    /// The texts before the places that were left.
    pub(crate) finished: Vec<String>,
    /// The text after the last place.
    pub(crate) text: String,
    /// The object or list that is written is not empty.
    pub(crate) later: bool,
    /// Places are left for values. Otherwise the values are written.
    pub(crate) places: bool,
}

/// An item of a list, which is written as an object.
pub(crate) trait Listed {
    /// What contracts see of it.
    ghost Seen: { Type 0 };

    ghost seen: { Self → Seen };

    /// What was written, and then its members.
    ghost with_one: { Seen → Written → Written };

    /// Writes its members.
    fn write(&self, alloc: Global, texts: &mut TextWriter) -> Result<(), Refusal>
        ensures written { OnOk result (written_view texts.new ≡ with_one (seen self.now) (written_view texts.old)) }
        ensures memory { IfErr result (λ e. e ≡ Refusal.Memory) };
}

impl TextWriter {
    /// Nothing is written yet.
    pub(crate) fn new(alloc: Global, places: bool) -> TextWriter
        ensures { written_view result ≡ nothing_written places }
    {
        TextWriter {
            finished: Vec::new(alloc),
            text: String::new(alloc),
            later: false,
            places,
        }
    }

    /// The texts, one more than there are places.
    pub(crate) fn into_texts(self) -> Result<Vec<String>, Refusal>
        ensures texts { IfOk result (λ texts. map string_bytes texts.items ≡ all_texts (written_view self)) }
        ensures memory { IfErr result (λ e. e ≡ Refusal.Memory) }
    {
        let TextWriter { finished, text, .. } = self;
        let mut texts = finished;
        texts.push(text)?;
        Ok(texts)
    }

    /// The text, if no places were left.
    pub(crate) fn into_text(self) -> String
        ensures { string_bytes result ≡ (written_view self).text }
    {
        let TextWriter { text, .. } = self;
        text
    }

    /// Adds a text as it is.
    pub(crate) fn push(&mut self, text: &str) -> Result<(), Refusal>
        ensures written { OnOk result (written_view self.new ≡ pushed text.now (written_view self.old)) }
        ensures memory { IfErr result (λ e. e ≡ Refusal.Memory) }
    {
        Ok(self.text.push_str(text)?)
    }

    /// Leaves a place, or writes the base64url text of the content.
    fn slot(&mut self, alloc: Global, content: HeldContent<'_>) -> Result<(), Refusal>
        ensures written { OnOk result (written_view self.new ≡ with_slot (held_view content.entry) (written_view self.old)) }
        ensures memory { IfErr result (λ e. e ≡ Refusal.Memory) }
    {
        if self.places {
            let text = mem::replace(&mut self.text, String::new(alloc));
            Ok(self.finished.push(text)?)
        } else {
            append(&mut self.text, content)
        }
    }

    /// Opens an object or a list.
    pub(crate) fn begin(&mut self, bracket: &str) -> Result<(), Refusal>
        ensures written { OnOk result (written_view self.new ≡ opened bracket.now (written_view self.old)) }
        ensures memory { IfErr result (λ e. e ≡ Refusal.Memory) }
    {
        self.text.push_str(bracket)?;
        self.later = false;
        Ok(())
    }

    /// Closes it.
    pub(crate) fn end(&mut self, bracket: &str) -> Result<(), Refusal>
        ensures written { OnOk result (written_view self.new ≡ closed bracket.now (written_view self.old)) }
        ensures memory { IfErr result (λ e. e ≡ Refusal.Memory) }
    {
        self.text.push_str(bracket)?;
        self.later = true;
        Ok(())
    }

    /// Writes a comma if the object or list is not empty.
    pub(crate) fn separate(&mut self) -> Result<(), Refusal>
        ensures written { OnOk result (written_view self.new ≡ separated (written_view self.old)) }
        ensures memory { IfErr result (λ e. e ≡ Refusal.Memory) }
    {
        if self.later {
            self.push(",")?;
        }
        Ok(())
    }

    /// Begins a member with its name, which needs no escape.
    pub(crate) fn name(&mut self, name: &str) -> Result<(), Refusal>
        ensures written { OnOk result (written_view self.new ≡ named name.now (written_view self.old)) }
        ensures memory { IfErr result (λ e. e ≡ Refusal.Memory) }
    {
        self.separate()?;
        self.push("\"")?;
        self.push(name)?;
        self.end("\":")
    }

    /// Writes a member. Its value has no float, and so a compact text.
    fn value(&mut self, alloc: Global, name: &str, value: &Value) -> Result<(), Refusal>
        requires { has_float (view value.now) ≡ false }
        ensures written { OnOk result (written_view self.new ≡ with_value name.now (view value.now) (written_view self.old)) }
        ensures memory { IfErr result (λ e. e ≡ Refusal.Memory) }
    {
        let text = value.to_string(alloc)?;
        self.name(name)?;
        self.push(&text)
    }

    /// Writes a member that is a text, unless it is empty.
    pub(crate) fn text(&mut self, alloc: Global, name: &str, text: String) -> Result<(), Refusal>
        ensures written { OnOk result (written_view self.new ≡ with_text name.now (string_bytes text) (written_view self.old)) }
        ensures memory { IfErr result (λ e. e ≡ Refusal.Memory) }
    {
        if text.is_empty() {
            return Ok(());
        }
        self.value(alloc, name, &Value::String(text))
    }

    /// Writes a member that is the base64url text of the octets, unless there are none.
    pub(crate) fn octets(&mut self, alloc: Global, name: &str, octets: &[u8]) -> Result<(), Refusal>
        ensures written { OnOk result (written_view self.new ≡ with_text name.now (base64url octets.now) (written_view self.old)) }
        ensures memory { IfErr result (λ e. e ≡ Refusal.Memory) }
    {
        let text = b64_encode(alloc, octets)?;
        self.text(alloc, name, text)
    }

    /// Writes a member that is a header, unless it has no members.
    pub(crate) fn header(
        &mut self,
        alloc: Global,
        name: &str,
        header: &HeaderMembers,
    ) -> Result<(), Refusal>
        ensures written { OnOk result (written_view self.new ≡ with_header name.now (members_view header.now.map.entries) (written_view self.old)) }
        ensures memory { IfErr result (λ e. e ≡ Refusal.Memory) }
    {
        if has_members(&header.map) {
            let value = header_value(alloc, header)?;
            self.value(alloc, name, &value)?;
        }
        Ok(())
    }

    /// Writes the base64url text of the content as a member, or leaves a place for it.
    #[tactic(auto, using(crate::proofs::Places::placed))]
    pub(crate) fn place(
        &mut self,
        alloc: Global,
        name: &str,
        content: HeldContent<'_>,
    ) -> Result<(), Refusal>
        ensures written { OnOk result (written_view self.new ≡ with_place name.now (held_view content.entry) (written_view self.old)) }
        ensures memory { IfErr result (λ e. e ≡ Refusal.Memory) }
    {
        held_octets(&content);
        self.name(name)?;
        self.push("\"")?;
        self.slot(alloc, content)?;
        self.push("\"")
    }

    /// The same of a content, if it is in the text.
    pub(crate) fn content(
        &mut self,
        alloc: Global,
        name: &str,
        content: Option<HeldContent<'_>>,
    ) -> Result<(), Refusal>
        ensures written { OnOk result (written_view self.new ≡ with_content name.now (option_map held_view content.entry) (written_view self.old)) }
        ensures memory { IfErr result (λ e. e ≡ Refusal.Memory) }
    {
        match content {
            None => Ok(()),
            Some(content) => self.place(alloc, name, content),
        }
    }

    /// Writes a list, each item as an object.
    pub(crate) fn list<T: Listed>(
        &mut self,
        alloc: Global,
        name: &str,
        items: &[T],
    ) -> Result<(), Refusal>
        ensures written { OnOk result (written_view self.new ≡ with_list name.now T.with_one (map T.seen items.now) (written_view self.old)) }
        ensures memory { IfErr result (λ e. e ≡ Refusal.Memory) }
    {
        self.name(name)?;
        self.begin("[")?;
        self.items(alloc, items)?;
        self.end("]")
    }

    /// Writes the items, one after another.
    fn items<T: Listed>(&mut self, alloc: Global, items: &[T]) -> Result<(), Refusal>
        ensures written { OnOk result (written_view self.new ≡ with_items T.with_one (map T.seen items.now) (written_view self.old)) }
        ensures memory { IfErr result (λ e. e ≡ Refusal.Memory) }
    {
        for item in items {
            self.separate()?;
            self.begin("{")?;
            item.write(alloc, self)?;
            self.end("}")?;
        }
        Ok(())
    }

    /// Writes a dot and a part of a compact text.
    pub(crate) fn part(&mut self, octets: &[u8]) -> Result<(), Refusal>
        ensures written { OnOk result (written_view self.new ≡ with_part octets.now (written_view self.old)) }
        ensures memory { IfErr result (λ e. e ≡ Refusal.Memory) }
    {
        self.push(".")?;
        b64_append(&mut self.text, octets)
    }

    /// Writes a dot and a part of a compact text, or leaves a place for the part.
    pub(crate) fn place_part(
        &mut self,
        alloc: Global,
        content: HeldContent<'_>,
    ) -> Result<(), Refusal>
        ensures written { OnOk result (written_view self.new ≡ with_place_part (held_view content.entry) (written_view self.old)) }
        ensures memory { IfErr result (λ e. e ≡ Refusal.Memory) }
    {
        self.push(".")?;
        self.slot(alloc, content)
    }

    /// The same of a content, whose part is empty if it is not in the text.
    pub(crate) fn content_part(
        &mut self,
        alloc: Global,
        content: Option<HeldContent<'_>>,
    ) -> Result<(), Refusal>
        ensures written { OnOk result (written_view self.new ≡ with_content_part (option_map held_view content.entry) (written_view self.old)) }
        ensures memory { IfErr result (λ e. e ≡ Refusal.Memory) }
    {
        match content {
            None => self.push("."),
            Some(content) => self.place_part(alloc, content),
        }
    }
}

/// The content, unless it is detached.
pub(crate) fn inside(detach: bool, content: HeldContent<'_>) -> Option<HeldContent<'_>>
    ensures { option_map held_view result ≡ inside detach (held_view content.entry) }
{
    if detach { None } else { Some(content) }
}

/// A content is held as octets, so its base64url text needs no escape.
fn held_octets(content: &HeldContent<'_>)
    ensures { IsOctets (held_view content.now) }
{
    if let HeldContent::Octets(octets) = content {
        are_octets(octets);
    }
}

/// Appends the base64url text of the content to a text.
fn append(text: &mut String, content: HeldContent<'_>) -> Result<(), Refusal>
    ensures text { OnOk result (string_bytes text.new ≡ string_bytes text.old ++ base64url (held_view content.entry)) }
    ensures memory { IfErr result (λ e. e ≡ Refusal.Memory) }
{
    match content {
        HeldContent::Text(received) => append_received(text, &received),
        HeldContent::Octets(octets) => b64_append(text, octets),
    }
}

/// Appends a text that was received.
#[tactic(auto, using(crate::proofs::Spelling::spelled_is_json))]
fn append_received(text: &mut String, received: &ReceivedText<'_>) -> Result<(), Refusal>
    ensures text { OnOk result (string_bytes text.new ≡ string_bytes text.old ++ base64url (received_view received.now)) }
    ensures memory { IfErr result (λ e. e ≡ Refusal.Memory) }
{
    let Ok(characters) = str::from_utf8(received.text()) else {
        unreachable!()
    };
    Ok(text.push_str(characters)?)
}

/// The JSON value of a header.
#[tactic(auto, using(crate::proofs::HeaderMembers::object_view))]
fn header_value(alloc: Global, header: &HeaderMembers) -> Result<Value, Refusal>
    ensures value { IfOk result (λ value. view value ≡ object (members_view header.now.map.entries)) }
    ensures memory { IfErr result (λ e. e ≡ Refusal.Memory) }
{
    Ok(Value::Object(copy_header(alloc, Some(&header.map))?))
}
