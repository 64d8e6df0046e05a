//! Templates of signatures.
ghost use Rattle.std.specs.Prelude.{◌≡◌, false, option_map, IfOk, IfErr};
ghost use Rattle.serde_json.specs.View.{view, members_view};
ghost use Rattle.serde_json.specs.Written.{has_float, members_have_float};
ghost use Rattle.octets.specs.Code.Results.{Agrees};
ghost use Rattle.objects.specs.Code.Views.{part_view};
ghost use Rattle.tokens.specs.Template.{template_of, template_headers, named_alg, with_alg};
ghost use Rattle.keys.specs.Algorithms.{signature_alg_of, supported};
ghost use Rattle.octets.specs.Outcomes.{if_there};
ghost use Rattle.tokens.specs.Code.Views.{template_view};

use keys::{SignatureAlg, has_only, is_object};
use objects::{Header, copy_header, header_at};
use octets::{Refusal, needs};
use serde_json::{Map, Value};
use std::alloc::Global;

/// A template of a signature: its two headers, and the algorithm that they name.
#[derive(Clone, Copy)]
pub(crate) struct Template<'v> {
    protected: Option<&'v Map<String, Value>>,
    pub(crate) per_signature: Option<&'v Map<String, Value>>,
    pub(crate) alg: Option<SignatureAlg>,
}

/// The template of a JSON value. Refuses as docs/SPECIFICATION.md "Signing" 1 says, from `Form` on.
#[tactic(auto, unfolding(crate::specs::Template::template_of))]
pub(crate) fn read_template(value: &Value) -> Result<Template<'_>, Refusal>
    ensures exact { Agrees template_view result (template_of (view value.now)) }
    ensures no_float { IfOk result (λ template. has_float (view value.now) ≡ false
        → members_have_float (template_view template).protected ≡ false) }
{
    let (protected, per_signature) = template_headers(value)?;
    let alg = named_alg(protected, per_signature)?;
    Ok(Template {
        protected,
        per_signature,
        alg,
    })
}

/// The headers of a template: an object with no members other than `protected` and `header`, which are objects.
#[tactic(auto, unfolding(crate::specs::Template::template_headers))]
fn template_headers(
    value: &Value,
) -> Result<(Option<&Map<String, Value>>, Option<&Map<String, Value>>), Refusal>
    ensures exact { Agrees (λ parts. (part_view parts.0, part_view parts.1)) result (template_headers (view value.now)) }
    ensures no_float { IfOk result (λ parts. has_float (view value.now) ≡ false
        → members_have_float (part_view parts.0) ≡ false) }
{
    needs(is_object(value), Refusal::Form)?;
    needs(has_only(value, &["protected", "header"]), Refusal::Form)?;
    let protected = header_at(value, "protected")?;
    let per_signature = header_at(value, "header")?;
    Ok((protected, per_signature))
}

/// The algorithm that the two headers together name, if they do.
#[tactic(auto, unfolding(crate::specs::Template::named_alg))]
fn named_alg<'v>(
    protected: Option<&'v Map<String, Value>>,
    per_signature: Option<&'v Map<String, Value>>,
) -> Result<Option<SignatureAlg>, Refusal>
    ensures { Agrees (λ alg. alg) result (named_alg (part_view protected.entry) (part_view per_signature.entry)) }
{
    let header = Header::joint(protected, None, per_signature)?;
    let name = header.alg()?;
    needs(!header.has("crit"), Refusal::Unsupported)?;
    supported_if_there(name)
}

/// The algorithm of the name, if there is one. It must be supported.
fn supported_if_there(name: Option<&str>) -> Result<Option<SignatureAlg>, Refusal>
    ensures { Agrees (λ alg. alg) result (if_there (supported signature_alg_of) (option_map (λ n. n.now) name.entry)) }
{
    match name {
        None => Ok(None),
        Some(name) => match SignatureAlg::named(name) {
            None => Err(Refusal::Unsupported),
            Some(alg) => Ok(Some(alg)),
        },
    }
}

/// The protected header of a template, with the algorithm if the template names none.
#[tactic(auto, using(keys::proofs::Lemmas::no_float_put_in))]
pub(crate) fn with_alg(
    alloc: Global,
    template: Template<'_>,
    alg: SignatureAlg,
) -> Result<Map<String, Value>, Refusal>
    ensures members { IfOk result (λ protected. members_view protected.entries ≡ with_alg (template_view template.entry) alg) }
    ensures no_float { IfOk result (λ protected. members_have_float (template_view template.entry).protected ≡ false
        → members_have_float (members_view protected.entries) ≡ false) }
    ensures memory { IfErr result (λ e. e ≡ Refusal.Memory) }
{
    let mut protected = copy_header(alloc, template.protected)?;
    if template.alg.is_none() {
        let name = Value::try_from_str(alloc, alg.name())?;
        serde_json::put(&mut protected, alloc, "alg", name)?;
    }
    Ok(protected)
}
