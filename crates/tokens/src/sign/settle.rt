//! What keys and a template settle of a signing: the algorithm and the protected header of each signature.
ghost use Rattle.std.specs.Prelude.{◌≡◌, false, length, map, option_map};
ghost use Rattle.std.specs.List.{list_all};
ghost use Rattle.serde_json.specs.Written.{members_have_float};
ghost use Rattle.octets.specs.Code.Results.{Agrees, AgreesUnlessMemory};
ghost use Rattle.octets.specs.declared.refusal.Refusal.{Refusal};
ghost use Rattle.keys.specs.Limits.{limits};
ghost use Rattle.keys.specs.Code.Views.{key_view};
ghost use Rattle.objects.specs.Texts.{each};
ghost use Rattle.tokens.specs.Signing.{read_signing, settle_signing as settle_signing_with_keys, signer_by as signer_by_key, may_sign as may_sign_key, chosen_alg, alg_of_key};
ghost use Rattle.tokens.specs.Template.{is_shallow as is_shallow_header};
ghost use Rattle.tokens.specs.Code.Views.{signer_view, signing_view, template_view};

use crate::headers::{is_empty, is_shallow};
use crate::sign::signer::Signer;
use crate::sign::template::{Template, read_template, with_alg};
use keys::{
    Algorithm, Key, KeySet, MOST_DEPTH, Operation, SignatureAlg, object_nests_at_most, read_json,
};
use objects::copy_header;
use octets::{Refusal, needs};
use serde_json::{Map, Value};
use std::alloc::Global;

/// All that keys and a template settle: the signers in order, and the unprotected header of each signature.
#[derive(Drop)]
pub(crate) struct Signing<'k> {
    pub(crate) signers: Vec<Signer<'k>>,
    pub(crate) header: Map<String, Value>,
}

/// What keys and a template's text settle. Refuses as docs/SPECIFICATION.md "Signing" 1 to 4 says.
#[tactic(auto, unfolding(crate::specs::Signing::read_signing))]
pub(crate) fn read_signing<'k>(
    alloc: Global,
    keys: &'k KeySet,
    template: &[u8],
    compact: bool,
) -> Result<Signing<'k>, Refusal>
    ensures { AgreesUnlessMemory signing_view result (read_signing limits compact keys.now template.now) }
{
    let value = read_json(alloc, template)?;
    let template = read_template(&value)?;
    settle_signing(alloc, keys.keys(), template, compact)
}

/// What keys and a template settle. Refuses as docs/SPECIFICATION.md "Signing" 2 to 4 says.
#[tactic(auto, unfolding(crate::specs::Signing::settle_signing))]
fn settle_signing<'k>(
    alloc: Global,
    keys: &'k [Key],
    template: Template<'_>,
    compact: bool,
) -> Result<Signing<'k>, Refusal>
    requires { members_have_float (template_view template).protected ≡ false }
    ensures { AgreesUnlessMemory signing_view result (settle_signing_with_keys limits compact (map key_view keys.now) (template_view template.entry)) }
{
    let signers = signers_by(alloc, template, keys)?;
    needs(all_may_sign(&signers), Refusal::KeyDoesNotFit)?;
    let shallow = are_shallow(&signers) && is_shallow(template.per_signature);
    needs(shallow, Refusal::Limit)?;
    let alone = signers.len() <= 1 && is_empty(template.per_signature);
    needs(!compact || alone, Refusal::NotCompact)?;
    let header = copy_header(alloc, template.per_signature)?;
    Ok(Signing { signers, header })
}

/// The signers of keys and a template.
#[tactic(auto, using(objects::proofs::Lemmas::reading))]
fn signers_by<'k>(
    alloc: Global,
    template: Template<'_>,
    keys: &'k [Key],
) -> Result<Vec<Signer<'k>>, Refusal>
    requires { members_have_float (template_view template).protected ≡ false }
    ensures { AgreesUnlessMemory (λ signers. map signer_view signers.items) result
        (each (signer_by_key (template_view template.entry)) (map key_view keys.now)) }
{
    let mut signers = Vec::new(alloc);
    for key in keys {
        signers.push(signer_by(alloc, template, key)?)?;
    }
    Ok(signers)
}

/// The signer of a key and a template. Refuses with `NoAlgorithm` if neither the template nor the key's `alg` or length says the algorithm,
/// and with `KeyDoesNotFit` if the key's `alg` is no signature algorithm.
#[tactic(auto, unfolding(crate::specs::Signing::signer_by))]
fn signer_by<'k>(alloc: Global, template: Template<'_>, key: &'k Key) -> Result<Signer<'k>, Refusal>
    requires { members_have_float (template_view template).protected ≡ false }
    ensures { AgreesUnlessMemory signer_view result (signer_by_key (template_view template.entry) (key_view key.now)) }
{
    let alg = chosen_alg(template.alg, key)?;
    let protected = with_alg(alloc, template, alg)?;
    Ok(Signer {
        key,
        alg,
        protected,
    })
}

/// Whether each key may sign and fits.
fn all_may_sign(signers: &[Signer<'_>]) -> bool
    ensures { result ≡ list_all may_sign_key (map signer_view signers.now) }
{
    signers.iter().all(|signer| may_sign(signer))
}

fn may_sign(signer: &Signer<'_>) -> bool
    ensures { result ≡ may_sign_key (signer_view signer.now) }
{
    signer.key.allows(Operation::Sign) && signer.key.fits(Algorithm::Signature(signer.alg))
}

/// Whether each protected header nests at most `MOST_DEPTH` deep.
fn are_shallow(signers: &[Signer<'_>]) -> bool
    ensures { result ≡ list_all (λ s. is_shallow_header limits s.protected) (map signer_view signers.now) }
{
    signers.iter().all(|signer| object_nests_at_most(&signer.protected, MOST_DEPTH))
}

/// The algorithm of the template, or else that of the key.
fn chosen_alg(asked: Option<SignatureAlg>, key: &Key) -> Result<SignatureAlg, Refusal>
    ensures { Agrees (λ alg. alg) result (chosen_alg asked (key_view key.now)) }
{
    match asked {
        Some(alg) => Ok(alg),
        None => alg_of_key(key.alg(), key.octets().len()),
    }
}

/// The algorithm that the key's `alg` names, or the one that its length implies.
fn alg_of_key(name: Option<&str>, len: usize) -> Result<SignatureAlg, Refusal>
    ensures { Agrees (λ alg. alg) result (alg_of_key (option_map (λ n. n.now) name.entry) len) }
{
    match name {
        None => SignatureAlg::longest_for(len).ok_or(Refusal::NoAlgorithm),
        Some(name) => SignatureAlg::named(name).ok_or(Refusal::KeyDoesNotFit),
    }
}
