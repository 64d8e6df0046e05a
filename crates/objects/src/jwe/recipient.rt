//! The recipients of an encrypted object (RFC 7516), by their headers.
ghost use Rattle.std.specs.Prelude.{◌≡◌, true, length, map, IfOk, IfErr};
ghost use Rattle.serde_json.specs.View.{members_view};
ghost use Rattle.octets.specs.Code.Results.{AgreesUnlessMemory};
ghost use Rattle.ciphers.specs.Algorithms.{management_alg_of};
ghost use Rattle.keys.specs.Limits.{limits};
ghost use Rattle.objects.specs.Jwe.{recipient_of, has_no_crit_or_zip, recipients_of, recipients_of_one_enc, have_one_enc as have_one_enc_of};
ghost use Rattle.objects.specs.Code.KeyManagementView.{management_view, is_management_of};
ghost use Rattle.objects.specs.Code.SharedParameters.{IsReadFrom};
ghost use Rattle.objects.specs.Code.JweMaking.{is_as_read};
ghost use Rattle.objects.specs.Code.Views.{recipient_view, recipient_members_view, made_recipient_view};
ghost use Rattle.std.specs.List.{list_all};
ghost use Rattle.std.specs.Str.{bytes_eq};

use crate::KeyManagement;
use crate::header::members::HeaderMembers;
use crate::header::parts::{has_no_crit, part_member, with_whole_numbers};
use crate::jwe::parts::{MadeRecipient, RecipientMembers, RecipientParts};
use crate::jwe::shared_header::SharedHeader;
use crate::key_management::named::NamedManagement;
use crate::key_management::read_key_management;
use crate::shared::SharedText;
use octets::{Refusal, needs};
use serde_json::{Map, Value};
use std::alloc::Global;

/// A recipient: its members, and what its joint header says of the algorithms.
#[derive(Drop)]
pub struct Recipient {
    pub(crate) header: HeaderMembers,
    encrypted_key: Vec<u8>,
    named: NamedManagement,
    enc: SharedText,
}

/// The recipient, with the other parts of its joint header. Refuses with `Header` if a name is in two parts, `alg` or `enc` is absent or no
/// string, or a parameter of the `alg` is missing or wrong (docs/SPECIFICATION.md "Objects" 3).
#[tactic(auto, unfolding(crate::specs::Jwe::recipient_of, crate::specs::Jwe::recipient_by))]
fn read_recipient(
    alloc: Global,
    protected: &Map<String, Value>,
    unprotected: &Map<String, Value>,
    shared: &SharedHeader,
    members: RecipientMembers,
) -> Result<Recipient, Refusal>
    requires { IsReadFrom (members_view protected.now.entries) (members_view unprotected.now.entries) shared.now }
    ensures { AgreesUnlessMemory recipient_view result (recipient_of limits.management (members_view protected.now.entries)
        (members_view unprotected.now.entries) (recipient_members_view members)) }
{
    let header = shared.joint(protected, unprotected, &members.header.map)?;
    let alg = shared.parameters.alg(alloc, header)?;
    let enc = shared.parameters.enc(alloc, header)?;
    let management = read_key_management(alloc, alg.text(), header, &shared.parameters)?;
    let RecipientMembers {
        header,
        encrypted_key,
    } = members;
    Ok(Recipient {
        header,
        encrypted_key,
        named: NamedManagement { alg, management },
        enc,
    })
}

impl Recipient {
    /// The recipient that was made, with the name of its content encryption. Fails only with `Memory`.
    pub(crate) fn made(
        alloc: Global,
        enc: &SharedText,
        made: MadeRecipient,
    ) -> Result<Recipient, Refusal>
        requires { is_as_read (made_recipient_view enc.now made) ≡ true }
        ensures recipient { IfOk result (λ recipient. recipient_view recipient ≡ made_recipient_view enc.now made) }
        ensures memory { IfErr result (λ e. e ≡ Refusal.Memory) }
    {
        let MadeRecipient {
            parts,
            alg,
            management,
        } = made;
        let RecipientParts {
            header,
            encrypted_key,
        } = parts;
        Ok(Recipient {
            header: with_whole_numbers(header),
            encrypted_key,
            named: NamedManagement {
                alg: SharedText::new(alloc, alg.name())?,
                management,
            },
            enc: enc.share()?,
        })
    }

    /// Its per-recipient unprotected header (RFC 7516 section 7.2.1): the member `header`.
    pub fn header(&self) -> &Map<String, Value>
        ensures { members_view result.now.entries ≡ (recipient_view self.now).header }
    {
        &self.header.map
    }

    /// Its encrypted key.
    pub fn encrypted_key(&self) -> &[u8]
        ensures { result.now ≡ (recipient_view self.now).encrypted_key }
    {
        &self.encrypted_key
    }

    /// The name of the algorithm of key management (RFC 7516 section 4.1.1).
    pub fn alg(&self) -> &str
        ensures { result.now ≡ (recipient_view self.now).alg }
    {
        self.named.alg.text()
    }

    /// The name of the algorithm of content encryption (RFC 7516 section 4.1.2).
    pub fn enc(&self) -> &str
        ensures { result.now ≡ (recipient_view self.now).enc }
    {
        self.enc.text()
    }

    /// How its key delivers the content encryption key, with the parameters that its algorithm reads (RFC 7518 section 4).
    pub fn management(&self) -> &KeyManagement
        ensures management { management_view result.now ≡ (recipient_view self.now).management }
        ensures of_alg { is_management_of (management_alg_of (recipient_view self.now).alg) (recipient_view self.now).management ≡ true }
    {
        &self.named.management
    }
}

/// Whether the header has neither a `crit` nor a `zip`, of any value: no extension is known (RFC 7515 section 4.1.11), and no content is
/// compressed (RFC 7516 section 4.1.3).
pub(crate) fn has_no_crit_or_zip(header: &Map<String, Value>) -> bool
    ensures { result ≡ has_no_crit_or_zip (members_view header.now.entries) }
{
    has_no_crit(header) && part_member(Some(header), "zip").is_none()
}

/// The recipients. Refuses with `Header` if `enc` is not the same for all.
#[tactic(auto, unfolding(crate::specs::Jwe::recipients_of_one_enc), using(crate::proofs::Each::as_many_views))]
pub(crate) fn recipients_of_one_enc(
    alloc: Global,
    protected: &Map<String, Value>,
    unprotected: &Map<String, Value>,
    parts: Vec<RecipientMembers>,
) -> Result<Vec<Recipient>, Refusal>
    ensures as_many { IfOk result (λ recipients. length recipients.items ≡ length parts.items) }
    ensures exact { AgreesUnlessMemory (λ recipients. map recipient_view recipients.items) result
        (recipients_of_one_enc limits.management (members_view protected.now.entries) (members_view unprotected.now.entries)
        (map recipient_members_view parts.items)) }
{
    let recipients = read_recipients(alloc, protected, unprotected, parts)?;
    needs(have_one_enc(&recipients), Refusal::Header)?;
    Ok(recipients)
}

/// The recipients, in order, with the other parts of their joint headers. What these share is read once.
#[tactic(auto, using(crate::proofs::Each::reading))]
fn read_recipients(
    alloc: Global,
    protected: &Map<String, Value>,
    unprotected: &Map<String, Value>,
    parts: Vec<RecipientMembers>,
) -> Result<Vec<Recipient>, Refusal>
    ensures { AgreesUnlessMemory (λ recipients. map recipient_view recipients.items) result
        (recipients_of limits.management (members_view protected.now.entries) (members_view unprotected.now.entries) (map recipient_members_view parts.items)) }
{
    let shared = SharedHeader::read(alloc, protected, unprotected)?;
    let mut recipients = Vec::new(alloc);
    for recipient in parts {
        recipients.push(read_recipient(alloc, protected, unprotected, &shared, recipient)?)?;
    }
    Ok(recipients)
}

/// Whether `enc` is the same for all.
#[tactic(auto, using(crate::proofs::Recipients::one_enc))]
fn have_one_enc(recipients: &[Recipient]) -> bool
    ensures { result ≡ have_one_enc_of (map recipient_view recipients.now) }
{
    match recipients {
        [] => true,
        [first, ..] => have_enc(recipients, first.enc()),
    }
}

/// Whether all have this `enc`.
fn have_enc(recipients: &[Recipient], enc: &str) -> bool
    ensures { result ≡ list_all (λ r. bytes_eq (recipient_view r).enc enc.now) recipients.now }
{
    recipients.iter().all(|recipient| recipient.enc() == enc)
}
