//! Parameters of a joint header that are read once for all recipients, since they are in the headers that these share.
ghost use Rattle.std.specs.Prelude.{◌≡◌, ℕ, List, Option, Some, Result, Ok, IfSome, IfOk, IfErr, codes, option_map};
ghost use Rattle.serde_json.specs.Data.{Members};
ghost use Rattle.octets.specs.declared.refusal.Refusal.{Refusal};
ghost use Rattle.std.specs.Option.{ok_or};
ghost use Rattle.octets.specs.Code.Results.{Agrees, AgreesUnlessMemory};
ghost use Rattle.objects.specs.Headers.{string_there, salt_parameter, octets_parameter};
ghost use Rattle.objects.specs.Code.SharedParameters.{AreReadIn};
ghost use Rattle.objects.specs.Code.Views.{header_view};

use crate::header::Header;
use crate::shared::{SharedOctets, SharedText};
use octets::Refusal;
use std::alloc::Global;

/// The values of parameters that were read. `None` is one that is absent, or that cannot be read.
#[derive(Drop)]
pub(crate) struct SharedParameters {
    pub(crate) alg: Option<SharedText>,
    pub(crate) enc: Option<SharedText>,
    pub(crate) p2s: Option<SharedOctets>,
    pub(crate) iv: Option<SharedOctets>,
    pub(crate) tag: Option<SharedOctets>,
}

impl SharedParameters {
    /// No parameters.
    pub(crate) fn none() -> SharedParameters
        ensures { (header : Members) → AreReadIn header result }
    {
        SharedParameters {
            alg: None,
            enc: None,
            p2s: None,
            iv: None,
            tag: None,
        }
    }

    /// The parameters of the header. Fails only with `Memory`.
    pub(crate) fn read(alloc: Global, header: Header<'_>) -> Result<SharedParameters, Refusal>
        ensures read { IfOk result (AreReadIn (header_view header.entry)) }
        ensures memory { IfErr result (λ e. e ≡ Refusal.Memory) }
    {
        Ok(SharedParameters {
            alg: text_if_read(alloc, header.alg())?,
            enc: text_if_read(alloc, header.enc())?,
            p2s: octets_if_read(alloc, header.p2s(alloc))?,
            iv: octets_if_read(alloc, header.iv(alloc))?,
            tag: octets_if_read(alloc, header.tag(alloc))?,
        })
    }

    /// The text of `alg` in a header of which these were read. Refuses with `Header` if it is absent or no string.
    #[tactic(auto, unfolding(crate::specs::Headers::string_there))]
    pub(crate) fn alg(&self, alloc: Global, header: Header<'_>) -> Result<SharedText, Refusal>
        requires { AreReadIn (header_view header) self.now }
        ensures { AgreesUnlessMemory (λ text. text) result (string_there (codes "alg") (header_view header.entry)) }
    {
        let found = header.alg()?;
        text_there(alloc, &self.alg, found)
    }

    /// The text of `enc` in a header of which these were read. Refuses with `Header` if it is absent or no string.
    #[tactic(auto, unfolding(crate::specs::Headers::string_there))]
    pub(crate) fn enc(&self, alloc: Global, header: Header<'_>) -> Result<SharedText, Refusal>
        requires { AreReadIn (header_view header) self.now }
        ensures { AgreesUnlessMemory (λ text. text) result (string_there (codes "enc") (header_view header.entry)) }
    {
        let found = header.enc()?;
        text_there(alloc, &self.enc, found)
    }

    /// The octets of `p2s` in a header of which these were read, as `Header::p2s` reads them.
    pub(crate) fn p2s(
        &self,
        alloc: Global,
        header: Header<'_>,
    ) -> Result<Option<SharedOctets>, Refusal>
        requires { AreReadIn (header_view header) self.now }
        ensures { AgreesUnlessMemory (λ octets. octets) result (salt_parameter (codes "p2s") (header_view header.entry)) }
    {
        match &self.p2s {
            Some(p2s) => Ok(Some(p2s.share()?)),
            None => with_owner(alloc, header.p2s(alloc)?),
        }
    }

    /// The octets of `iv` in a header of which these were read, as `Header::iv` reads them.
    pub(crate) fn iv(
        &self,
        alloc: Global,
        header: Header<'_>,
    ) -> Result<Option<SharedOctets>, Refusal>
        requires { AreReadIn (header_view header) self.now }
        ensures { AgreesUnlessMemory (λ octets. octets) result (octets_parameter (codes "iv") (header_view header.entry)) }
    {
        match &self.iv {
            Some(iv) => Ok(Some(iv.share()?)),
            None => with_owner(alloc, header.iv(alloc)?),
        }
    }

    /// The octets of `tag` in a header of which these were read, as `Header::tag` reads them.
    pub(crate) fn tag(
        &self,
        alloc: Global,
        header: Header<'_>,
    ) -> Result<Option<SharedOctets>, Refusal>
        requires { AreReadIn (header_view header) self.now }
        ensures { AgreesUnlessMemory (λ octets. octets) result (octets_parameter (codes "tag") (header_view header.entry)) }
    {
        match &self.tag {
            Some(tag) => Ok(Some(tag.share()?)),
            None => with_owner(alloc, header.tag(alloc)?),
        }
    }
}

/// The text of a parameter that must be there, and that may have been read before. Refuses with `Header` if it is not there.
fn text_there(
    alloc: Global,
    read: &Option<SharedText>,
    found: Option<&str>,
) -> Result<SharedText, Refusal>
    requires { IfSome read.now (λ text. option_map (λ found. found.now) found ≡ Some text) }
    ensures { AgreesUnlessMemory (λ text. text) result (ok_or (option_map (λ found. found.now) found.entry) Refusal.Header) }
{
    let text = found.ok_or(Refusal::Header)?;
    match read {
        Some(read) => read.share(),
        None => SharedText::new(alloc, text),
    }
}

/// The octets with one owner, if they are there. Fails only with `Memory`.
fn with_owner(alloc: Global, octets: Option<Vec<u8>>) -> Result<Option<SharedOctets>, Refusal>
    ensures octets { IfOk result (λ shared. shared ≡ option_map (λ octets. octets.items) octets) }
    ensures memory { IfErr result (λ e. e ≡ Refusal.Memory) }
{
    match octets {
        None => Ok(None),
        Some(octets) => Ok(Some(SharedOctets::new(alloc, octets)?)),
    }
}

/// The text, if it was read. Fails only with `Memory`.
fn text_if_read(
    alloc: Global,
    found: Result<Option<&str>, Refusal>,
) -> Result<Option<SharedText>, Refusal>
    ensures read { (answer : Result (Option (List ℕ)) Refusal) → Agrees (option_map (λ text. text.now)) found.entry answer
        → IfOk result (λ read. IfSome read (λ text. answer ≡ Ok (Some text))) }
    ensures memory { IfErr result (λ e. e ≡ Refusal.Memory) }
{
    match found {
        Ok(Some(text)) => Ok(Some(SharedText::new(alloc, text)?)),
        _ => Ok(None),
    }
}

/// The octets, if they were read. Fails only with `Memory`.
fn octets_if_read(
    alloc: Global,
    found: Result<Option<Vec<u8>>, Refusal>,
) -> Result<Option<SharedOctets>, Refusal>
    ensures read { (answer : Result (Option (List ℕ)) Refusal) → AgreesUnlessMemory (option_map (λ octets. octets.items)) found answer
        → IfOk result (λ read. IfSome read (λ octets. answer ≡ Ok (Some octets))) }
    ensures memory { IfErr result (λ e. e ≡ Refusal.Memory) }
{
    match found {
        Ok(octets) => with_owner(alloc, octets),
        Err(Refusal::Memory) => Err(Refusal::Memory),
        Err(_) => Ok(None),
    }
}
