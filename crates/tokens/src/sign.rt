//! Signing with each key of a set (RFC 7515 section 5.1), in compact or in JSON form.
ghost use Rattle.std.specs.Prelude.{◌≡◌, ℕ, List, [], ◌∷◌, true, false, is_some, Ok, Err, IfOk, IfErr, map, string_bytes};
ghost use Rattle.std.specs.Iterator.{IsFinite};
ghost use Rattle.serde_json.specs.View.{members_view};
ghost use Rattle.octets.specs.Faults.{TellsFaults, counts};
ghost use Rattle.octets.specs.Code.Lent.{lent, counts_of};
ghost use Rattle.octets.specs.Code.Streaming.{Streams};
ghost use Rattle.octets.specs.Devices.{input_members, output_members};
ghost use Rattle.octets.specs.Outcomes.{is_external};
ghost use Rattle.octets.specs.Code.Results.{is_memory};
ghost use Rattle.octets.specs.Plan.{planned};
ghost use Rattle.octets.specs.declared.refusal.Refusal.{Refusal};
ghost use Rattle.keys.specs.Limits.{limits};
ghost use Rattle.objects.specs.Texts.{each};
ghost use Rattle.objects.specs.Code.Views.{jws_view, made_signature_view};
ghost use Rattle.tokens.specs.Signing.{sig_plan, protected_by};
ghost use Rattle.tokens.specs.Code.SigningInputs.{HoldEach, IsFramed, start_of, unsigned_protected, unsigned_by, unsigned_signature, unsigned_object};
ghost use Rattle.tokens.specs.Code.Views.{signer_view, signing_view};

mod payload;
mod settle;
mod signer;
mod template;

use crate::framed::{write_beside, write_inside};
use crate::headers::header_text;
use crate::sign::payload::{EncodedPayload, Payload};
use crate::sign::settle::{Signing, read_signing};
use crate::sign::signer::Signer;
use crate::signing_input::{HmacInput, SigningInput};
use keys::KeySet;
use keys::laws::are_octet_keys;
use objects::{Jws, MadeSignature, SignatureParts, copy_header};
use octets::{Input, Output, Refusal, b64_encode};
use std::alloc::Global;

/// Reads the content to its end, signs it with each key in order (RFC 7515 section 5.1), as the template asks, and writes the object's
/// text: with `compact` its compact text (section 7.1), and else its JSON text (section 7.2), flattened if there is one key. If there is an
/// output for it, the payload is detached (appendix F): it is written there as it is, before the text, and the text is without it.
///
/// The template is a JSON object with no members other than `protected` and `header`, which are objects. It is used for every signature.
/// The algorithm is the `alg` of these headers; else the key's `alg`; else the one with the longest hash that the key is long enough for.
/// If the template does not name it, the written protected header does.
///
/// Refuses, each step for every key before the next (docs/SPECIFICATION.md "Signing"), with `Json`, `Number`, `Form`, `Header` or
/// `Unsupported` for the template; `NoAlgorithm` or `KeyDoesNotFit` for a key; `Limit` for a header that is too deep; `NotCompact` if
/// compact form cannot hold the object; `Read` if the content fails; and `Write` if an output fails. May fail with `Memory`, before the
/// content is read.
#[tactic(auto, unfolding(crate::specs::Signing::sig_plan))]
pub fn jws_sign<I: Input, O: Output>(
    alloc: Global,
    keys: &KeySet,
    template: &[u8],
    compact: bool,
    content: &mut I,
    out: &mut O,
    detached: Option<&mut O>,
) -> Result<(), Refusal>
    requires { IsFinite (I.remaining content.old) }
    ensures streams { Streams (input_members I.consumed I.is_at_end I.failures) (output_members O.written O.is_finished O.endings O.failures)
        (sig_plan limits compact (is_some detached.entry) keys.now template.now)
        content.old content.new out.old out.new (lent detached.entry detached.exit) result }
    ensures same_source { I.source content.new ≡ I.source content.old }
    ensures faults { TellsFaults (counts I.failures content.old content.new ∷ [])
        (counts O.failures out.old out.new ∷ counts_of O.failures (lent detached.entry detached.exit)) result }
{
    match detached {
        None => {
            let PreparedSigning { texts, inputs } = prepare(alloc, keys, template, compact, false)?;
            write_inside(content, EncodedPayload::start(inputs), &texts, out)
        }
        Some(detached) => {
            let PreparedSigning { texts, inputs } = prepare(alloc, keys, template, compact, true)?;
            write_beside(content, Payload::start(inputs), &texts, out, detached)
        }
    }
}

/// The texts around the payload and the signatures, and the signing input of each signer, started.
#[derive(Drop)]
struct PreparedSigning {
    texts: Vec<String>,
    inputs: Vec<HmacInput>,
}

/// All that is settled before the payload is read. Apart from `Memory`, it is refused exactly when the plan is refused for every payload.
fn prepare(
    alloc: Global,
    keys: &KeySet,
    template: &[u8],
    compact: bool,
    detach: bool,
) -> Result<PreparedSigning, Refusal>
    ensures framed { IfOk result (λ made. IsFramed ⟦<HmacInput as SigningInput>⟧.has_taken compact detach
        (sig_plan limits compact detach keys.now template.now) made.inputs.items (map string_bytes made.texts.items)) }
    ensures refused { IfErr result (λ e. is_memory e ≡ false → (is_external e ≡ false)
        × ((payload : List ℕ) → planned (sig_plan limits compact detach keys.now template.now) payload ≡ Err e)) }
{
    let signing = read_signing(alloc, keys, template, compact)?;
    are_octet_keys(keys);
    let jws = unsigned(alloc, &signing)?;
    let texts = jws.frame(alloc, compact, detach)?;
    let inputs = signing_inputs(alloc, &signing.signers, &jws)?;
    Ok(PreparedSigning { texts, inputs })
}

/// The object of what is signed, without a payload and with empty signatures.
fn unsigned(alloc: Global, signing: &Signing<'_>) -> Result<Jws<'static>, Refusal>
    requires { unsigned_by limits (signing_view signing.now) ≡ Ok (unsigned_object (signing_view signing.now)) }
    ensures object { IfOk result (λ jws. unsigned_by limits (signing_view signing.now) ≡ Ok (jws_view jws)) }
    ensures memory { IfErr result (λ e. e ≡ Refusal.Memory) }
{
    let signatures = unsigned_signatures(alloc, signing)?;
    Jws::made(alloc, Vec::new(alloc), signatures)
}

/// What is known of each signature before the payload is known.
fn unsigned_signatures(alloc: Global, signing: &Signing<'_>) -> Result<Vec<MadeSignature>, Refusal>
    ensures signatures { IfOk result (λ made. map made_signature_view made.items
        ≡ map (unsigned_signature (members_view signing.now.header.entries)) (map signer_view signing.now.signers.items)) }
    ensures memory { IfErr result (λ e. e ≡ Refusal.Memory) }
{
    let mut signatures = Vec::new(alloc);
    for signer in &signing.signers {
        let text = header_text(alloc, copy_header(alloc, Some(&signer.protected))?)?;
        signatures.push(MadeSignature {
            parts: SignatureParts {
                protected: b64_encode(alloc, text.as_bytes())?,
                header: copy_header(alloc, Some(&signing.header))?,
                signature: Vec::new(alloc),
            },
            protected_members: copy_header(alloc, Some(&signer.protected))?,
            alg: signer.alg,
        })?;
    }
    Ok(signatures)
}

/// The signing input of each signer, which was fed the text before that of the payload.
fn signing_inputs(
    alloc: Global,
    signers: &[Signer<'_>],
    jws: &Jws<'_>,
) -> Result<Vec<HmacInput>, Refusal>
    requires { unsigned_protected (jws_view jws.now).signatures ≡ map protected_by (map signer_view signers.now) }
    ensures started { IfOk result (λ inputs. HoldEach ⟦<HmacInput as SigningInput>⟧.has_taken inputs.items (map start_of (map signer_view signers.now)) []) }
    ensures memory { IfErr result (λ e. e ≡ Refusal.Memory) }
{
    let mut inputs = Vec::new(alloc);
    for (signer, signature) in signers.iter().zip(jws.signatures()) {
        let protected = signature.protected().as_bytes();
        inputs.push(HmacInput::start(signer.alg, signer.key.octets(), protected))?;
    }
    Ok(inputs)
}
