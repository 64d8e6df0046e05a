//! Templates of encrypted objects.
ghost use Rattle.std.specs.Prelude.{◌≡◌, false, option_map, IfOk, IfErr};
ghost use Rattle.serde_json.specs.View.{view};
ghost use Rattle.serde_json.specs.Written.{has_float, members_have_float};
ghost use Rattle.octets.specs.Code.Results.{Agrees, AgreesUnlessMemory};
ghost use Rattle.objects.specs.Code.Views.{header_view, part_view};
ghost use Rattle.ciphers.specs.Algorithms.{management_alg_of, encryption_alg_of};
ghost use Rattle.keys.specs.Algorithms.{supported};
ghost use Rattle.octets.specs.Outcomes.{if_there};
ghost use Rattle.tokens.specs.EncryptionTemplate.{template_texts, leaves_parameters, algorithms_asked, encryption_template};
ghost use Rattle.tokens.specs.Code.Views.{template_texts_view, asked_view, encryption_template_view};

use ciphers::{ContentAlg, KeyAlg};
use keys::{has_only, is_object};
use objects::{Header, header_at, text_at};
use octets::{Refusal, b64_decode, needs};
use serde_json::{Map, Value};
use std::alloc::Global;

/// The algorithms that a template names, if it does, and the count of iterations, if it has one. A bad count is refused only for an
/// algorithm that reads it.
#[derive(Clone, Copy)]
pub(crate) struct AlgorithmsAsked {
    pub(crate) management: Option<KeyAlg>,
    pub(crate) encryption: Option<ContentAlg>,
    pub(crate) p2c: Result<Option<u64>, Refusal>,
}

/// A template of an encrypted object.
#[derive(Drop)]
pub(crate) struct EncryptionTemplate<'v> {
    pub(crate) protected: Option<&'v Map<String, Value>>,
    pub(crate) unprotected: Option<&'v Map<String, Value>>,
    pub(crate) aad: Vec<u8>,
    pub(crate) asked: AlgorithmsAsked,
}

/// The headers of a template, and the text of its additional data.
#[derive(Clone, Copy)]
struct TemplateTexts<'v> {
    protected: Option<&'v Map<String, Value>>,
    unprotected: Option<&'v Map<String, Value>>,
    aad: &'v [u8],
}

/// The template of a JSON value. Refuses as docs/SPECIFICATION.md "Encrypting" 1 says, from `Form` on.
#[tactic(auto, unfolding(crate::specs::EncryptionTemplate::encryption_template))]
pub(crate) fn read_encryption_template(
    alloc: Global,
    value: &Value,
) -> Result<EncryptionTemplate<'_>, Refusal>
    ensures exact { AgreesUnlessMemory encryption_template_view result (encryption_template (view value.now)) }
    ensures no_float { IfOk result (λ t. has_float (view value.now) ≡ false
        → (members_have_float (part_view t.protected) ≡ false) × (members_have_float (part_view t.unprotected) ≡ false)) }
    ensures p2c { IfOk result (λ t. IfErr t.asked.p2c (λ e. e ≡ Refusal.Header)) }
{
    let TemplateTexts {
        protected,
        unprotected,
        aad,
    } = template_texts(value)?;
    let aad = b64_decode(alloc, aad)?;
    let asked = algorithms_asked(protected, unprotected)?;
    Ok(EncryptionTemplate {
        protected,
        unprotected,
        aad,
        asked,
    })
}

#[tactic(auto, unfolding(crate::specs::EncryptionTemplate::template_texts))]
fn template_texts(value: &Value) -> Result<TemplateTexts<'_>, Refusal>
    ensures exact { Agrees template_texts_view result (template_texts (view value.now)) }
    ensures no_float { IfOk result (λ t. has_float (view value.now) ≡ false
        → (members_have_float (part_view t.protected) ≡ false) × (members_have_float (part_view t.unprotected) ≡ false)) }
{
    needs(is_object(value), Refusal::Form)?;
    needs(
        has_only(value, &["protected", "unprotected", "aad"]),
        Refusal::Form,
    )?;
    let protected = header_at(value, "protected")?;
    let unprotected = header_at(value, "unprotected")?;
    let aad = text_at(value, "aad")?;
    Ok(TemplateTexts {
        protected,
        unprotected,
        aad,
    })
}

/// The algorithms that both headers together name, if they do.
#[tactic(auto, unfolding(crate::specs::EncryptionTemplate::algorithms_asked))]
fn algorithms_asked<'v>(
    protected: Option<&'v Map<String, Value>>,
    unprotected: Option<&'v Map<String, Value>>,
) -> Result<AlgorithmsAsked, Refusal>
    ensures exact { Agrees asked_view result (algorithms_asked (part_view protected.entry) (part_view unprotected.entry)) }
    ensures p2c { IfOk result (λ asked. IfErr asked.p2c (λ e. e ≡ Refusal.Header)) }
{
    let header = Header::joint(protected, unprotected, None)?;
    let alg = header.alg()?;
    let enc = header.enc()?;
    needs(leaves_parameters(header), Refusal::Header)?;
    needs(
        !header.has("crit") && !header.has("zip"),
        Refusal::Unsupported,
    )?;
    let management = management_asked(alg)?;
    let encryption = encryption_asked(enc)?;
    Ok(AlgorithmsAsked {
        management,
        encryption,
        p2c: header.p2c(),
    })
}

/// Whether the header has no parameter that is drawn or made for a recipient, whatever the algorithm (RFC 7518 sections 4.7.1 and 4.8.1.1).
fn leaves_parameters(header: Header<'_>) -> bool
    ensures { result ≡ leaves_parameters (header_view header.entry) }
{
    !header.has("p2s") && !header.has("iv") && !header.has("tag")
}

/// The key management algorithm of the name, if there is one. It must be supported.
fn management_asked(name: Option<&str>) -> Result<Option<KeyAlg>, Refusal>
    ensures { Agrees (λ alg. alg) result (if_there (supported management_alg_of) (option_map (λ n. n.now) name.entry)) }
{
    match name {
        None => Ok(None),
        Some(name) => match KeyAlg::named(name) {
            None => Err(Refusal::Unsupported),
            Some(alg) => Ok(Some(alg)),
        },
    }
}

/// The content encryption algorithm of the name, if there is one. It must be supported.
fn encryption_asked(name: Option<&str>) -> Result<Option<ContentAlg>, Refusal>
    ensures { Agrees (λ alg. alg) result (if_there (supported encryption_alg_of) (option_map (λ n. n.now) name.entry)) }
{
    match name {
        None => Ok(None),
        Some(name) => match ContentAlg::named(name) {
            None => Err(Refusal::Unsupported),
            Some(alg) => Ok(Some(alg)),
        },
    }
}
