//! Encrypted objects (RFC 7516), made of a text or of members.
ghost use Rattle.std.specs.Prelude.{◌≡◌, ◌≤◌, length, map, option_map, IfOk};
ghost use Rattle.std.specs.List.{list_all};
ghost use Rattle.serde_json.specs.View.{members_view};
ghost use Rattle.octets.specs.Code.Results.{AgreesUnlessMemory};
ghost use Rattle.keys.specs.Limits.{limits};
ghost use Rattle.objects.specs.Headers.{all_members};
ghost use Rattle.objects.specs.Jwe.{IsMade, jwe_of, decoded_object as decoded_jwe, encrypted_object as encrypted_object_of, recipients_of_one_enc, has_no_crit_or_zip as has_no_crit_or_zip_header, have_no_crit_or_zip};
ghost use Rattle.objects.specs.Code.Views.{header_view, jwe_view, jwe_members_view, encoded_jwe_view, recipient_view, recipient_members_view, without_ciphertext};

mod build;
mod encoded;
pub(crate) mod parts;
pub(crate) mod recipient;
mod recipient_list;
pub(crate) mod shared_header;
mod write;

use crate::content::handed_in_is_octets;
use crate::form::is_json_form;
use crate::header::Header;
use crate::header::members::HeaderMembers;
use crate::header::parts::read_protected;
use crate::jwe::encoded::{EncodedJwe, decoded_members, encoded_in_compact, encoded_in_json};
use crate::jwe::parts::{JweMembers, RecipientMembers};
use crate::jwe::recipient::{Recipient, has_no_crit_or_zip, recipients_of_one_enc};
use crate::jwe::recipient_list::RecipientList;
use keys::{MOST_RECIPIENTS, read_json};
use octets::laws::are_octets;
use octets::{Refusal, b64_decode, needs, without_line_end};
use serde_json::{Map, Value};
use std::alloc::Global;
use std::mem::replace;

/// An encrypted object. It has at most `MOST_RECIPIENTS` recipients.
#[derive(Drop)]
pub struct Jwe {
    protected: String,
    protected_members: Map<String, Value>,
    pub(crate) unprotected: HeaderMembers,
    iv: Vec<u8>,
    aad: Vec<u8>,
    ciphertext: Vec<u8>,
    tag: Vec<u8>,
    recipients: RecipientList,
}

impl Jwe {
    /// Reads the object of a text in compact form, with or without an LF or a CR LF at its end, or in JSON form, general or flattened
    /// (RFC 7516 section 7). A detached ciphertext is handed in, and then that of the text must be absent or empty. The algorithms may be
    /// unsupported.
    ///
    /// Refuses, each cause over the whole text before the next (docs/SPECIFICATION.md "Objects"), with `Json` or `Number`; `Form`; `Limit`
    /// if there are more than `MOST_RECIPIENTS`; `Base64`; `Json`, `Number` or `Header` if the protected header is no object; `Header` if a
    /// name is in two headers of a recipient, its `alg` or `enc` is absent or no string, a parameter of its `alg` is missing or wrong, or
    /// `enc` is not the same for all; and `Unsupported` if a header has a `crit` or a `zip`. May fail with `Memory`.
    #[tactic(auto, using(crate::proofs::MadeJwe::objects_are_made))]
    pub fn read(alloc: Global, text: &[u8], detached: Option<Vec<u8>>) -> Result<Jwe, Refusal>
        ensures exact { AgreesUnlessMemory jwe_view result (jwe_of limits (option_map (λ c. c.items) detached) text.now) }
        ensures made { IfOk result (λ jwe. IsMade limits (jwe_view jwe)) }
    {
        are_octets(text);
        handed_in_is_octets(&detached);
        object_of_text(alloc, text, detached)
    }

    /// The text of the protected header, as it was received. The additional data begin with it (RFC 7516 section 5.1).
    pub fn protected(&self) -> &str
        ensures { result.now ≡ (jwe_view self.now).protected }
    {
        &self.protected
    }

    /// The shared unprotected header.
    pub fn unprotected(&self) -> &Map<String, Value>
        ensures { members_view result.now.entries ≡ (jwe_view self.now).unprotected }
    {
        &self.unprotected.map
    }

    /// The initialization vector.
    pub fn iv(&self) -> &[u8]
        ensures { result.now ≡ (jwe_view self.now).iv }
    {
        &self.iv
    }

    /// The additional data without the protected header: the member `aad`.
    pub fn aad(&self) -> &[u8]
        ensures { result.now ≡ (jwe_view self.now).aad }
    {
        &self.aad
    }

    pub fn ciphertext(&self) -> &[u8]
        ensures { result.now ≡ (jwe_view self.now).ciphertext }
    {
        &self.ciphertext
    }

    /// The authentication tag.
    pub fn tag(&self) -> &[u8]
        ensures { result.now ≡ (jwe_view self.now).tag }
    {
        &self.tag
    }

    /// Takes the ciphertext out of the object, which then has none.
    pub fn take_ciphertext(&mut self, alloc: Global) -> Vec<u8>
        ensures taken { result.items ≡ (jwe_view self.old).ciphertext }
        ensures left { jwe_view self.new ≡ without_ciphertext (jwe_view self.old) }
    {
        replace(&mut self.ciphertext, Vec::new(alloc))
    }

    /// The recipients, in order.
    pub fn recipients(&self) -> &[Recipient]
        ensures list { map recipient_view result.now ≡ (jwe_view self.now).recipients }
        ensures few { length result.now ≤ limits.recipients }
    {
        &self.recipients.list
    }

    /// The JOSE Header of one of its recipients (RFC 7516 section 4): the members of three headers without a name in common.
    pub fn joint_header<'j>(&'j self, recipient: &'j Recipient) -> Header<'j>
        ensures { header_view result ≡ all_members (jwe_view self.now).protected_members (jwe_view self.now).unprotected (recipient_view recipient.now).header }
    {
        Header {
            protected: Some(&self.protected_members),
            unprotected: Some(&self.unprotected.map),
            per_recipient: Some(recipient.header()),
        }
    }
}

/// The object of a text in either form.
#[tactic(auto, unfolding(crate::specs::Jwe::jwe_of, crate::specs::Jwe::encoded_jwe))]
fn object_of_text(alloc: Global, text: &[u8], detached: Option<Vec<u8>>) -> Result<Jwe, Refusal>
    ensures { AgreesUnlessMemory jwe_view result (jwe_of limits (option_map (λ c. c.items) detached) text.now) }
{
    if is_json_form(text) {
        let value = read_json(alloc, text)?;
        let texts = encoded_in_json(alloc, &value, detached)?;
        decoded_object(alloc, texts)
    } else {
        let texts = encoded_in_compact(alloc, without_line_end(text), detached)?;
        decoded_object(alloc, texts)
    }
}

/// The object whose members have these texts.
#[tactic(auto, unfolding(crate::specs::Jwe::decoded_object))]
fn decoded_object(alloc: Global, texts: EncodedJwe<'_>) -> Result<Jwe, Refusal>
    ensures { AgreesUnlessMemory jwe_view result (decoded_jwe limits (encoded_jwe_view texts.entry)) }
{
    needs(texts.recipients.len() <= MOST_RECIPIENTS, Refusal::Limit)?;
    let protected = b64_decode(alloc, texts.protected())?;
    let members = decoded_members(alloc, texts, &protected)?;
    encrypted_object(alloc, &protected, members)
}

/// The object with these members and these octets of its protected header.
#[tactic(auto, unfolding(crate::specs::Jwe::encrypted_object))]
pub(crate) fn encrypted_object(
    alloc: Global,
    octets: &[u8],
    members: JweMembers,
) -> Result<Jwe, Refusal>
    requires few { length members.recipients.items ≤ limits.recipients }
    ensures { AgreesUnlessMemory jwe_view result (encrypted_object_of limits.management octets.now (jwe_members_view members)) }
{
    let JweMembers {
        protected,
        unprotected,
        iv,
        aad,
        ciphertext,
        tag,
        recipients,
    } = members;
    let protected_members = read_protected(alloc, octets)?;
    let plain = have_no_crit_or_zip(&protected_members, &unprotected.map, &recipients);
    let recipients = recipients_of_one_enc(
        alloc,
        &protected_members,
        &unprotected.map,
        recipients,
    )?;
    needs(plain, Refusal::Unsupported)?;
    Ok(Jwe {
        protected,
        protected_members,
        unprotected,
        iv,
        aad,
        ciphertext,
        tag,
        recipients: RecipientList { list: recipients },
    })
}

/// Whether no part of a header has a member that is refused.
#[tactic(auto, using(crate::proofs::Each::views))]
fn have_no_crit_or_zip(
    protected: &Map<String, Value>,
    unprotected: &Map<String, Value>,
    recipients: &[RecipientMembers],
) -> bool
    ensures { result ≡ have_no_crit_or_zip (members_view protected.now.entries) (members_view unprotected.now.entries)
        (map recipient_members_view recipients.now) }
{
    has_no_crit_or_zip(protected)
        && has_no_crit_or_zip(unprotected)
        && recipients_have_no_crit_or_zip(recipients)
}

/// Whether no per-recipient header has a member that is refused.
fn recipients_have_no_crit_or_zip(recipients: &[RecipientMembers]) -> bool
    ensures { result ≡ list_all (λ r. has_no_crit_or_zip_header (recipient_members_view r).header) recipients.now }
{
    recipients
        .iter()
        .all(|recipient| has_no_crit_or_zip(&recipient.header.map))
}
