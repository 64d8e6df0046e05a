//! Signed objects that are made of their members.
ghost use Rattle.std.specs.Prelude.{◌≡◌, true, false, length, map, IfOk, IfErr};
ghost use Rattle.std.specs.List.{list_all};
ghost use Rattle.octets.specs.Code.Results.{AgreesUnlessMemory};
ghost use Rattle.keys.specs.Json.{member_numbers_are_whole};
ghost use Rattle.keys.specs.Limits.{limits};
ghost use Rattle.objects.specs.Jws.{AreMembers, IsMade, built, decoded_part, nest_at_most as nest_at_most_parts, have_whole_numbers as have_whole_numbers_parts};
ghost use Rattle.objects.specs.Texts.{each};
ghost use Rattle.objects.specs.Code.Making.{IsBuilt, made_object};
ghost use Rattle.objects.specs.Code.Views.{jws_view, holds_text, jws_parts_view, signature_view, made_signature_view, signature_parts_view, decoded_signature_view};

use crate::content::payload::Payload;
use crate::header::depth::depth_of_each;
use crate::header::parts::with_whole_numbers;
use crate::jws::parts::{
    DecodedSignature, JwsParts, MadeSignature, SignatureMembers, SignatureParts,
};
use crate::jws::signature::Signature;
use crate::jws::signature_list::SignatureList;
use crate::jws::{Jws, signed_object};
use keys::{MOST_RECIPIENTS, members_have_whole_numbers, object_nests_at_most};
use octets::{Refusal, b64_decode, needs};
use std::alloc::Global;

impl<'t> Jws<'t> {
    /// The object with these members. Refuses as `Jws::read` refuses its JSON text, in the same order: `Json` if that nests deeper than
    /// 127; `Number` if a header has a number that is not whole or not of 64 bits, as `-0`; `Form` if there is no signature; `Limit` if
    /// there are more than `MOST_RECIPIENTS`; `Base64` if the text of a protected header is no base64url text; and then for the headers.
    pub fn build(alloc: Global, parts: JwsParts) -> Result<Jws<'t>, Refusal>
        ensures exact { AgreesUnlessMemory jws_view result (built limits (jws_parts_view parts)) }
        ensures made { IfOk result (λ jws. AreMembers (jws_parts_view parts) → IsMade limits (jws_view jws)) }
        ensures form { IfOk result (λ jws. holds_text jws ≡ false) }
    {
        object_of_parts(alloc, parts)
    }

    /// The object of signatures that were made. None of their texts is read again, so it must be what `build` returns for the members. Fails
    /// only with `Memory`.
    pub fn made(
        alloc: Global,
        payload: Vec<u8>,
        signatures: Vec<MadeSignature>,
    ) -> Result<Jws<'t>, Refusal>
        requires { IsBuilt limits (made_object payload.items (map made_signature_view signatures.items)) }
        ensures exact { IfOk result (λ jws. jws_view jws ≡ made_object payload.items (map made_signature_view signatures.items)) }
        ensures form { IfOk result (λ jws. holds_text jws ≡ false) }
        ensures memory { IfErr result (λ e. e ≡ Refusal.Memory) }
    {
        let signatures = made_signatures(alloc, signatures)?;
        Ok(Jws {
            payload: Payload::Octets(payload),
            signatures: SignatureList { list: signatures },
        })
    }
}

/// The signatures that were made.
#[tactic(auto, using(crate::proofs::Each::views))]
fn made_signatures(alloc: Global, made: Vec<MadeSignature>) -> Result<Vec<Signature>, Refusal>
    requires { list_all (λ m. member_numbers_are_whole (made_signature_view m).header) made.items ≡ true }
    ensures signatures { IfOk result (λ signatures. map signature_view signatures.items ≡ map made_signature_view made.items) }
    ensures as_many { IfOk result (λ signatures. length signatures.items ≡ length made.items) }
    ensures memory { IfErr result (λ e. e ≡ Refusal.Memory) }
{
    let mut signatures = Vec::new(alloc);
    for signature in made {
        signatures.push(Signature::made(alloc, signature)?)?;
    }
    Ok(signatures)
}

/// The object with these members.
#[tactic(auto, unfolding(crate::specs::Jws::built))]
fn object_of_parts<'t>(alloc: Global, parts: JwsParts) -> Result<Jws<'t>, Refusal>
    ensures exact { AgreesUnlessMemory jws_view result (built limits (jws_parts_view parts)) }
    ensures form { IfOk result (λ jws. holds_text jws ≡ false) }
{
    let JwsParts {
        payload,
        signatures,
    } = parts;
    let depth = depth_of_each(signatures.len());
    needs(nest_at_most(&signatures, depth), Refusal::Json)?;
    needs(have_whole_numbers(&signatures), Refusal::Number)?;
    needs(!signatures.is_empty(), Refusal::Form)?;
    needs(signatures.len() <= MOST_RECIPIENTS, Refusal::Limit)?;
    let signatures = decoded_parts(alloc, signatures)?;
    signed_object(alloc, Payload::Octets(payload), signatures)
}

/// Whether no unprotected header nests deeper.
fn nest_at_most(signatures: &[SignatureParts], depth: usize) -> bool
    ensures { result ≡ nest_at_most_parts depth (map signature_parts_view signatures.now) }
{
    signatures
        .iter()
        .all(|signature| object_nests_at_most(&signature.header, depth))
}

/// Whether all numbers of the unprotected headers are whole.
fn have_whole_numbers(signatures: &[SignatureParts]) -> bool
    ensures whole { result ≡ have_whole_numbers_parts (map signature_parts_view signatures.now) }
    ensures each { result ≡ list_all (λ s. member_numbers_are_whole (signature_parts_view s).header) signatures.now }
{
    signatures
        .iter()
        .all(|signature| members_have_whole_numbers(&signature.header))
}

/// The signatures with the octets of their protected headers. Refuses with `Base64` if the text of one is no base64url text.
#[tactic(auto, using(crate::proofs::Each::reading))]
fn decoded_parts(
    alloc: Global,
    parts: Vec<SignatureParts>,
) -> Result<Vec<DecodedSignature>, Refusal>
    requires { list_all (λ s. member_numbers_are_whole (signature_parts_view s).header) parts.items ≡ true }
    ensures exact { AgreesUnlessMemory (λ signatures. map decoded_signature_view signatures.items) result
        (each decoded_part (map signature_parts_view parts.items)) }
    ensures as_many { IfOk result (λ signatures. length signatures.items ≡ length parts.items) }
{
    let mut signatures = Vec::new(alloc);
    for part in parts {
        signatures.push(decoded_part(alloc, part)?)?;
    }
    Ok(signatures)
}

#[tactic(auto, unfolding(crate::specs::Jws::decoded_part))]
fn decoded_part(alloc: Global, parts: SignatureParts) -> Result<DecodedSignature, Refusal>
    requires { member_numbers_are_whole (signature_parts_view parts).header ≡ true }
    ensures { AgreesUnlessMemory decoded_signature_view result (decoded_part (signature_parts_view parts)) }
{
    let SignatureParts {
        protected,
        header,
        signature,
    } = parts;
    let octets = b64_decode(alloc, protected.as_bytes())?;
    Ok(DecodedSignature {
        octets,
        members: SignatureMembers {
            protected,
            header: with_whole_numbers(header),
            signature,
        },
    })
}
