//! The signatures of an object, by their headers (RFC 7515 section 4).
ghost use Rattle.std.specs.Prelude.{◌≡◌, true, length, map, IfOk, IfErr};
ghost use Rattle.std.specs.List.{list_all};
ghost use Rattle.serde_json.specs.Data.{no_members};
ghost use Rattle.serde_json.specs.View.{members_view};
ghost use Rattle.octets.specs.Code.Results.{AgreesUnlessMemory};
ghost use Rattle.keys.specs.Algorithms.{signature_alg_of};
ghost use Rattle.keys.specs.Json.{member_numbers_are_whole};
ghost use Rattle.keys.specs.Limits.{limits};
ghost use Rattle.objects.specs.Headers.{all_members};
ghost use Rattle.objects.specs.Jws.{signatures_of, headed_signature, signature_by, headers_have_no_crit};
ghost use Rattle.objects.specs.Texts.{each};
ghost use Rattle.objects.specs.Code.Views.{header_view, signature_view, made_signature_view, decoded_signature_view, headed_signature_view};

use crate::header::members::HeaderMembers;
use crate::header::parts::{has_no_crit, with_whole_numbers};
use crate::header::shared::SharedParameters;
use crate::header::string_there;
use crate::jws::named_alg::NamedSignatureAlg;
use crate::jws::parts::{DecodedSignature, MadeSignature, SignatureMembers, SignatureParts};
use crate::key_management::read_key_management;
use crate::{Header, read_protected};
use keys::SignatureAlg;
use octets::{Refusal, needs};
use serde_json::{Map, Value};
use std::alloc::Global;

/// The members of a signature, with the members of its protected header.
#[derive(Drop)]
struct HeadedSignature {
    protected: Map<String, Value>,
    members: SignatureMembers,
}

/// A signature: its members, and the algorithm that its joint header names.
#[derive(Drop)]
pub struct Signature {
    protected: String,
    protected_members: Map<String, Value>,
    pub(crate) header: HeaderMembers,
    signature: Vec<u8>,
    alg: NamedSignatureAlg,
}

impl Signature {
    /// The signature that was made. Fails only with `Memory`.
    #[tactic(auto, unfolding(keys::specs::Algorithms::signature_alg_of))]
    pub(crate) fn made(alloc: Global, made: MadeSignature) -> Result<Signature, Refusal>
        requires { member_numbers_are_whole (made_signature_view made).header ≡ true }
        ensures signature { IfOk result (λ signature. signature_view signature ≡ made_signature_view made) }
        ensures memory { IfErr result (λ e. e ≡ Refusal.Memory) }
    {
        let MadeSignature {
            parts,
            protected_members,
            alg,
        } = made;
        let SignatureParts {
            protected,
            header,
            signature,
        } = parts;
        Ok(Signature {
            protected,
            protected_members,
            header: with_whole_numbers(header),
            signature,
            alg: NamedSignatureAlg {
                name: String::from_str(alloc, alg.name())?,
                alg: Some(alg),
            },
        })
    }

    /// The base64url text of the protected header, as it was received. It begins the signing input (RFC 7515 section 5.2).
    pub fn protected(&self) -> &str
        ensures { result.now ≡ (signature_view self.now).protected }
    {
        &self.protected
    }

    /// The unprotected header (RFC 7515 section 7.2.1): the member `header`.
    pub fn header(&self) -> &Map<String, Value>
        ensures { members_view result.now.entries ≡ (signature_view self.now).header }
    {
        &self.header.map
    }

    /// The JOSE Header (RFC 7515 section 4): the members of both headers, without a name in common.
    pub fn joint_header(&self) -> Header<'_>
        ensures { header_view result ≡ all_members (signature_view self.now).protected_members no_members (signature_view self.now).header }
    {
        Header {
            protected: Some(&self.protected_members),
            unprotected: None,
            per_recipient: Some(&self.header.map),
        }
    }

    /// The octets of the signature.
    pub fn signature(&self) -> &[u8]
        ensures { result.now ≡ (signature_view self.now).signature }
    {
        &self.signature
    }

    /// The name of the algorithm (RFC 7515 section 4.1.1), which may be one that is not supported.
    pub fn alg(&self) -> &str
        ensures { result.now ≡ (signature_view self.now).alg }
    {
        &self.alg.name
    }

    /// The algorithm, if it is supported.
    pub fn supported_alg(&self) -> Option<SignatureAlg>
        ensures { result ≡ signature_alg_of (signature_view self.now).alg }
    {
        self.alg.alg
    }
}

/// The signatures, by their headers. Each step is done for all before the next step.
#[tactic(auto, unfolding(crate::specs::Jws::signatures_of))]
pub(crate) fn read_signatures(
    alloc: Global,
    decoded: Vec<DecodedSignature>,
) -> Result<Vec<Signature>, Refusal>
    ensures exact { AgreesUnlessMemory (λ signatures. map signature_view signatures.items) result
        (signatures_of limits.management (map decoded_signature_view decoded.items)) }
    ensures as_many { IfOk result (λ signatures. length signatures.items ≡ length decoded.items) }
{
    let headed = with_headers(alloc, decoded)?;
    let plain = have_no_crit(&headed);
    let signatures = by_headers(alloc, headed)?;
    needs(plain, Refusal::Unsupported)?;
    Ok(signatures)
}

/// The signatures with the members of their protected headers, in order.
#[tactic(auto, using(crate::proofs::Each::reading))]
fn with_headers(
    alloc: Global,
    decoded: Vec<DecodedSignature>,
) -> Result<Vec<HeadedSignature>, Refusal>
    ensures exact { AgreesUnlessMemory (λ headed. map headed_signature_view headed.items) result
        (each headed_signature (map decoded_signature_view decoded.items)) }
    ensures as_many { IfOk result (λ headed. length headed.items ≡ length decoded.items) }
{
    let mut headed = Vec::new(alloc);
    for signature in decoded {
        headed.push(with_header(alloc, signature)?)?;
    }
    Ok(headed)
}

#[tactic(auto, unfolding(crate::specs::Jws::headed_signature))]
fn with_header(alloc: Global, decoded: DecodedSignature) -> Result<HeadedSignature, Refusal>
    ensures { AgreesUnlessMemory headed_signature_view result (headed_signature (decoded_signature_view decoded)) }
{
    let protected = read_protected(alloc, &decoded.octets)?;
    Ok(HeadedSignature {
        protected,
        members: decoded.members,
    })
}

/// Whether no header has a `crit`.
fn have_no_crit(headed: &[HeadedSignature]) -> bool
    ensures { result ≡ list_all headers_have_no_crit (map headed_signature_view headed.now) }
{
    headed
        .iter()
        .all(|signature| headers_have_no_crit(signature))
}

fn headers_have_no_crit(headed: &HeadedSignature) -> bool
    ensures { result ≡ headers_have_no_crit (headed_signature_view headed.now) }
{
    has_no_crit(&headed.protected) && has_no_crit(&headed.members.header.map)
}

/// The signatures with the algorithms of their joint headers, which must have the parameters of these.
#[tactic(auto, using(crate::proofs::Each::reading))]
fn by_headers(alloc: Global, headed: Vec<HeadedSignature>) -> Result<Vec<Signature>, Refusal>
    ensures exact { AgreesUnlessMemory (λ signatures. map signature_view signatures.items) result
        (each (signature_by limits.management) (map headed_signature_view headed.items)) }
    ensures as_many { IfOk result (λ signatures. length signatures.items ≡ length headed.items) }
{
    let mut signatures = Vec::new(alloc);
    for signature in headed {
        signatures.push(by_header(alloc, signature)?)?;
    }
    Ok(signatures)
}

#[tactic(auto, unfolding(crate::specs::Jws::signature_by, crate::specs::Headers::string_there))]
fn by_header(alloc: Global, headed: HeadedSignature) -> Result<Signature, Refusal>
    ensures { AgreesUnlessMemory signature_view result (signature_by limits.management (headed_signature_view headed)) }
{
    let header = Header::joint(
        Some(&headed.protected),
        None,
        Some(&headed.members.header.map),
    )?;
    let name = string_there(alloc, header.alg()?)?;
    read_key_management(alloc, &name, header, &SharedParameters::none())?;
    let alg = SignatureAlg::named(&name);
    let HeadedSignature {
        protected: protected_members,
        members,
    } = headed;
    let SignatureMembers {
        protected,
        header,
        signature,
    } = members;
    Ok(Signature {
        protected,
        protected_members,
        header,
        signature,
        alg: NamedSignatureAlg { name, alg },
    })
}
