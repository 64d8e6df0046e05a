//! The content of an object, which is in its text or is handed in (RFC 7515 appendix F).
ghost use Rattle.std.specs.Prelude.{◌≡◌, is_none, option_map, IfOk};
ghost use Rattle.serde_json.specs.View.{view};
ghost use Rattle.octets.specs.Base64url.{decoded};
ghost use Rattle.octets.specs.Code.Results.{Agrees, AgreesUnlessMemory};
ghost use Rattle.objects.specs.Texts.{AreOctetsHandedIn, content_by, content_text};
ghost use Rattle.objects.specs.Code.Views.{content_text_view, payload_view, content_is_text, payload_is_text};

pub(crate) mod payload;
pub(crate) mod received_text;

use crate::content::payload::Payload;
use crate::content::received_text::ReceivedText;
use crate::json_members::{required_text, text_at};
use octets::laws::are_octets;
use octets::{Refusal, b64_decode, needs};
use serde_json::Value;
use std::alloc::Global;

/// The text of the content in an object, or the octets that were handed in.
#[derive(Drop)]
pub(crate) enum Content<'t> {
    Text(&'t [u8]),
    Octets(Vec<u8>),
}

impl<'t> Content<'t> {
    /// The content of an object with this part. Refuses with `Form` if one was handed in and the part is not empty.
    pub(crate) fn of_part(part: &'t [u8], detached: Option<Vec<u8>>) -> Result<Content<'t>, Refusal>
        ensures exact { Agrees content_text_view result (content_by (option_map (λ c. c.items) detached) part.now) }
        ensures form { IfOk result (λ content. content_is_text content ≡ is_none detached) }
    {
        match detached {
            None => Ok(Content::Text(part)),
            Some(octets) => {
                needs(part.is_empty(), Refusal::Form)?;
                Ok(Content::Octets(octets))
            }
        }
    }

    /// The content of an object with this member. Refuses with `Form` if the member is no string, if it is absent and no content was handed
    /// in, or if one was handed in and the member is not empty.
    pub(crate) fn of_member(
        value: &'t Value,
        name: &str,
        detached: Option<Vec<u8>>,
    ) -> Result<Content<'t>, Refusal>
        ensures { Agrees content_text_view result (content_text (option_map (λ c. c.items) detached) name.now (view value.now)) }
    {
        match detached {
            None => Ok(Content::Text(required_text(value, name)?)),
            Some(octets) => Content::of_part(text_at(value, name)?, Some(octets)),
        }
    }

    /// Its octets. Refuses with `Base64` if its text is no base64url text.
    #[tactic(auto, using(octets::proofs::Lemmas::meaning_of_text))]
    pub(crate) fn octets(self, alloc: Global) -> Result<Vec<u8>, Refusal>
        ensures { AgreesUnlessMemory (λ octets. octets.items) result (decoded (content_text_view self.entry)) }
    {
        match self {
            Content::Text(text) => b64_decode(alloc, text),
            Content::Octets(octets) => {
                are_octets(&octets);
                Ok(octets)
            }
        }
    }

    /// The payload, made without memory. Refuses with `Base64` if its text is no base64url text.
    #[tactic(auto, using(octets::proofs::Lemmas::meaning_of_text))]
    pub(crate) fn payload(self) -> Result<Payload<'t>, Refusal>
        ensures exact { Agrees payload_view result (decoded (content_text_view self.entry)) }
        ensures form { IfOk result (λ payload. payload_is_text payload ≡ content_is_text self.entry) }
    {
        match self {
            Content::Text(text) => Ok(Payload::Text(ReceivedText::read(text)?)),
            Content::Octets(octets) => {
                are_octets(&octets);
                Ok(Payload::Octets(octets))
            }
        }
    }
}

/// A content that is handed in holds octets.
pub(crate) fn handed_in_is_octets(detached: &Option<Vec<u8>>)
    ensures { AreOctetsHandedIn (option_map (λ c. c.items) detached.now) }
{
    if let Some(content) = detached {
        are_octets(content);
    }
}
