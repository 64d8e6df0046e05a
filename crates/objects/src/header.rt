//! JOSE headers (RFC 7515 section 4, RFC 7516 section 4): their members.
ghost use Rattle.std.specs.Prelude.{◌≡◌, true, false, IfErr, Some, codes, is_some, option_map, string_bytes};
ghost use Rattle.std.specs.Option.{ok_or};
ghost use Rattle.octets.specs.Code.Results.{Agrees, AgreesUnlessMemory};
ghost use Rattle.serde_json.specs.Find.{get_member};
ghost use Rattle.serde_json.specs.View.{view};
ghost use Rattle.objects.specs.Headers.{overlap as overlap_of, joint_header, string_parameter, number_parameter, salt_octets, salt_parameter, parameter_octets, octets_parameter};
ghost use Rattle.objects.specs.Code.Views.{header_view, part_view};

pub(crate) mod depth;
pub(crate) mod members;
pub(crate) mod parts;
pub(crate) mod shared;

use crate::header::parts::part_member;
use octets::{Refusal, b64_decode, needs};
use serde_json::{Map, Value};
use std::alloc::Global;

/// The JOSE Header of a signature or a recipient (RFC 7515 section 4, RFC 7516 section 4): the union of its parts, no two of which have a
/// name in common. `per_recipient` is the unprotected part of this one recipient or signature: the member `header` in JSON form.
#[derive(Clone, Copy)]
pub struct Header<'m> {
    pub(crate) protected: Option<&'m Map<String, Value>>,
    pub(crate) unprotected: Option<&'m Map<String, Value>>,
    pub(crate) per_recipient: Option<&'m Map<String, Value>>,
}

impl<'m> Header<'m> {
    /// The union of these parts: the protected header, the shared unprotected header, and the unprotected header of one recipient or
    /// signature. An absent part has no members. Refuses with `Header` if a name is in two parts.
    #[tactic(auto, unfolding(crate::specs::Headers::joint_header))]
    pub fn joint(
        protected: Option<&'m Map<String, Value>>,
        unprotected: Option<&'m Map<String, Value>>,
        per_recipient: Option<&'m Map<String, Value>>,
    ) -> Result<Header<'m>, Refusal>
        ensures exact { Agrees header_view result
            (joint_header (part_view protected.entry) (part_view unprotected.entry) (part_view per_recipient.entry)) }
        ensures refusal { IfErr result (λ e. e ≡ Refusal.Header) }
    {
        let overlap = parts_overlap(protected, unprotected)
            || parts_overlap(protected, per_recipient)
            || parts_overlap(unprotected, per_recipient);
        needs(!overlap, Refusal::Header)?;
        Ok(Header {
            protected,
            unprotected,
            per_recipient,
        })
    }

    /// The member of this name.
    pub fn get(&self, name: &str) -> Option<&'m Value>
        ensures { option_map (λ v. view v.now) result ≡ get_member name.now (header_view self.now) }
    {
        part_member(self.protected, name)
            .or(part_member(self.unprotected, name))
            .or(part_member(self.per_recipient, name))
    }

    /// Whether the header has a member of this name, of any value.
    pub fn has(&self, name: &str) -> bool
        ensures { result ≡ is_some (get_member name.now (header_view self.now)) }
    {
        self.get(name).is_some()
    }

    /// `alg`, if it is there (RFC 7515 section 4.1.1). Refuses with `Header` if it is no string.
    pub fn alg(&self) -> Result<Option<&'m str>, Refusal>
        ensures exact { Agrees (option_map (λ s. s.now)) result
            (string_parameter (codes "alg") (header_view self.now)) }
        ensures refusal { IfErr result (λ e. e ≡ Refusal.Header) }
    {
        self.string("alg")
    }

    /// `enc`, if it is there (RFC 7516 section 4.1.2). Refuses with `Header` if it is no string.
    pub fn enc(&self) -> Result<Option<&'m str>, Refusal>
        ensures exact { Agrees (option_map (λ s. s.now)) result
            (string_parameter (codes "enc") (header_view self.now)) }
        ensures refusal { IfErr result (λ e. e ≡ Refusal.Header) }
    {
        self.string("enc")
    }

    /// `p2s`, the salt input, if it is there (RFC 7518 section 4.8.1.1). Refuses with `Header` if it is not the base64url text of at least
    /// 8 octets. May fail with `Memory`.
    #[tactic(auto, unfolding(crate::specs::Headers::salt_parameter))]
    pub fn p2s(&self, alloc: Global) -> Result<Option<Vec<u8>>, Refusal>
        ensures { AgreesUnlessMemory (option_map (λ octets. octets.items)) result
            (salt_parameter (codes "p2s") (header_view self.now)) }
    {
        match self.string("p2s")? {
            None => Ok(None),
            Some(text) => Ok(Some(read_salt(alloc, text.as_bytes())?)),
        }
    }

    /// `p2c`, the count of iterations, if it is there (RFC 7518 section 4.8.1.2). Refuses with `Header` if it is no whole number from 0.
    #[tactic(auto, unfolding(crate::specs::Headers::number_parameter))]
    pub fn p2c(&self) -> Result<Option<u64>, Refusal>
        ensures exact { Agrees (λ count. count) result
            (number_parameter (codes "p2c") (header_view self.now)) }
        ensures refusal { IfErr result (λ e. e ≡ Refusal.Header) }
    {
        match self.get("p2c") {
            None => Ok(None),
            Some(value) => Ok(Some(value.as_u64().ok_or(Refusal::Header)?)),
        }
    }

    /// `iv`, the initialization vector of AES-GCM key wrap, if it is there (RFC 7518 section 4.7.1.1). Refuses with `Header` if it is no
    /// base64url text. May fail with `Memory`.
    pub fn iv(&self, alloc: Global) -> Result<Option<Vec<u8>>, Refusal>
        ensures { AgreesUnlessMemory (option_map (λ octets. octets.items)) result
            (octets_parameter (codes "iv") (header_view self.now)) }
    {
        self.octets(alloc, "iv")
    }

    /// `tag`, the tag of AES-GCM key wrap, if it is there (RFC 7518 section 4.7.1.2). Refuses with `Header` if it is no base64url text. May
    /// fail with `Memory`.
    pub fn tag(&self, alloc: Global) -> Result<Option<Vec<u8>>, Refusal>
        ensures { AgreesUnlessMemory (option_map (λ octets. octets.items)) result
            (octets_parameter (codes "tag") (header_view self.now)) }
    {
        self.octets(alloc, "tag")
    }

    /// The octets of this member, if it is there. Refuses with `Header` if it is no base64url text.
    #[tactic(auto, unfolding(crate::specs::Headers::octets_parameter))]
    fn octets(&self, alloc: Global, name: &str) -> Result<Option<Vec<u8>>, Refusal>
        ensures { AgreesUnlessMemory (option_map (λ octets. octets.items)) result
            (octets_parameter name.now (header_view self.now)) }
    {
        match self.string(name)? {
            None => Ok(None),
            Some(text) => Ok(Some(read_octets(alloc, text.as_bytes())?)),
        }
    }

    /// The text of this member, if it is there. Refuses with `Header` if it is no string.
    #[tactic(auto, unfolding(crate::specs::Headers::string_parameter))]
    fn string(&self, name: &str) -> Result<Option<&'m str>, Refusal>
        ensures exact { Agrees (option_map (λ s. s.now)) result
            (string_parameter name.now (header_view self.now)) }
        ensures refusal { IfErr result (λ e. e ≡ Refusal.Header) }
    {
        match self.get(name) {
            None => Ok(None),
            Some(value) => Ok(Some(value.as_str().ok_or(Refusal::Header)?)),
        }
    }
}

/// Whether some name is in both parts.
pub(crate) fn parts_overlap(
    part: Option<&Map<String, Value>>,
    other: Option<&Map<String, Value>>,
) -> bool
    ensures { result ≡ overlap_of (part_view part.entry) (part_view other.entry) }
{
    let Some(members) = part else {
        return false;
    };
    for (name, _) in members.iter() {
        if part_member(other, name.as_str()).is_some() {
            return true;
        }
    }
    false
}

/// The octets of the text of a salt, at least 8.
fn read_salt(alloc: Global, text: &[u8]) -> Result<Vec<u8>, Refusal>
    ensures { AgreesUnlessMemory (λ octets. octets.items) result (salt_octets text.now) }
{
    let octets = read_octets(alloc, text)?;
    needs(octets.len() >= 8, Refusal::Header)?;
    Ok(octets)
}

/// The octets of the text of a parameter.
fn read_octets(alloc: Global, text: &[u8]) -> Result<Vec<u8>, Refusal>
    ensures { AgreesUnlessMemory (λ octets. octets.items) result (parameter_octets text.now) }
{
    match b64_decode(alloc, text) {
        Err(Refusal::Base64) => Err(Refusal::Header),
        result => result,
    }
}

/// The text of a parameter that must be there.
pub(crate) fn string_there(alloc: Global, found: Option<&str>) -> Result<String, Refusal>
    ensures { AgreesUnlessMemory string_bytes result (ok_or (option_map (λ text. text.now) found.entry) Refusal.Header) }
{
    Ok(String::from_str(alloc, found.ok_or(Refusal::Header)?)?)
}
