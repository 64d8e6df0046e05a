//! Encrypted objects that are made of their members.
ghost use Rattle.std.specs.Prelude.{◌≡◌, true, length, map, nat_le, suc, IfOk, IfErr};
ghost use Rattle.std.specs.List.{list_all};
ghost use Rattle.serde_json.specs.Data.{members_depth};
ghost use Rattle.octets.specs.Code.Results.{AgreesUnlessMemory};
ghost use Rattle.keys.specs.Json.{member_numbers_are_whole};
ghost use Rattle.keys.specs.Limits.{limits};
ghost use Rattle.objects.specs.Jwe.{AreMembers, IsMade, built, headers_are_shallow as headers_are_shallow_of, have_whole_numbers as have_whole_numbers_parts};
ghost use Rattle.objects.specs.Code.JweMaking.{IsBuilt, is_as_read};
ghost use Rattle.objects.specs.Code.Views.{jwe_view, jwe_members_view, jwe_parts_view, made_jwe_view, recipient_view, recipient_members_view, recipient_parts_view, made_recipient_view};

use crate::header::depth::{HEADER_DEPTH, depth_of_each};
use crate::header::parts::with_whole_numbers;
use crate::jwe::parts::{
    JweMembers, JweParts, MadeEncryptedObject, MadeRecipient, RecipientMembers, RecipientParts,
};
use crate::jwe::recipient::Recipient;
use crate::jwe::recipient_list::RecipientList;
use crate::jwe::{Jwe, encrypted_object};
use crate::shared::SharedText;
use keys::{MOST_RECIPIENTS, members_have_whole_numbers, object_nests_at_most};
use octets::{Refusal, b64_decode, needs};
use std::alloc::Global;

impl Jwe {
    /// The object with these members. Refuses as `Jwe::read` refuses its JSON text, in the same order: `Json` if that nests deeper than
    /// 127; `Number` if a header has a number that is not whole or not of 64 bits, as `-0`; `Form` if there is no recipient; `Limit` if
    /// there are more than `MOST_RECIPIENTS`; `Base64` if the text of the protected header is no base64url text; and then for the headers.
    pub fn build(alloc: Global, parts: JweParts) -> Result<Jwe, Refusal>
        ensures exact { AgreesUnlessMemory jwe_view result (built limits (jwe_parts_view parts)) }
        ensures made { IfOk result (λ jwe. AreMembers (jwe_parts_view parts) → IsMade limits (jwe_view jwe)) }
    {
        object_of_parts(alloc, parts)
    }

    /// The object that was made. None of its texts is read again, so it must be what `build` returns for its members. Fails only with
    /// `Memory`.
    pub fn made(alloc: Global, made: MadeEncryptedObject) -> Result<Jwe, Refusal>
        requires { IsBuilt limits (made_jwe_view made) }
        ensures exact { IfOk result (λ jwe. jwe_view jwe ≡ made_jwe_view made) }
        ensures memory { IfErr result (λ e. e ≡ Refusal.Memory) }
    {
        let MadeEncryptedObject {
            protected,
            protected_members,
            unprotected,
            iv,
            aad,
            ciphertext,
            tag,
            enc,
            recipients,
        } = made;
        let enc = SharedText::new(alloc, enc.name())?;
        let recipients = made_recipients(alloc, &enc, recipients)?;
        Ok(Jwe {
            protected,
            protected_members,
            unprotected: with_whole_numbers(unprotected),
            iv,
            aad,
            ciphertext,
            tag,
            recipients: RecipientList { list: recipients },
        })
    }
}

/// The recipients that were made, with the name of their content encryption.
#[tactic(auto, using(crate::proofs::Each::views))]
fn made_recipients(
    alloc: Global,
    enc: &SharedText,
    made: Vec<MadeRecipient>,
) -> Result<Vec<Recipient>, Refusal>
    requires { list_all (λ m. is_as_read (made_recipient_view enc.now m)) made.items ≡ true }
    ensures recipients { IfOk result (λ recipients. map recipient_view recipients.items ≡ map (made_recipient_view enc.now) made.items) }
    ensures as_many { IfOk result (λ recipients. length recipients.items ≡ length made.items) }
    ensures memory { IfErr result (λ e. e ≡ Refusal.Memory) }
{
    let mut recipients = Vec::new(alloc);
    for recipient in made {
        recipients.push(Recipient::made(alloc, enc, recipient)?)?;
    }
    Ok(recipients)
}

/// The object with these members.
#[tactic(auto, unfolding(crate::specs::Jwe::built))]
fn object_of_parts(alloc: Global, parts: JweParts) -> Result<Jwe, Refusal>
    ensures { AgreesUnlessMemory jwe_view result (built limits (jwe_parts_view parts)) }
{
    needs(headers_are_shallow(&parts), Refusal::Json)?;
    needs(have_whole_numbers(&parts), Refusal::Number)?;
    needs(!parts.recipients.is_empty(), Refusal::Form)?;
    needs(parts.recipients.len() <= MOST_RECIPIENTS, Refusal::Limit)?;
    let protected = b64_decode(alloc, parts.protected.as_bytes())?;
    let members = members_of_parts(alloc, parts)?;
    encrypted_object(alloc, &protected, members)
}

/// Whether no header is too deep for the JSON text.
#[tactic(auto, using(crate::proofs::Each::views))]
fn headers_are_shallow(parts: &JweParts) -> bool
    ensures { result ≡ headers_are_shallow_of (jwe_parts_view parts.now) }
{
    object_nests_at_most(&parts.unprotected, HEADER_DEPTH)
        && headers_nest_at_most(&parts.recipients, depth_of_each(parts.recipients.len()))
}

fn headers_nest_at_most(recipients: &[RecipientParts], depth: usize) -> bool
    ensures { result ≡ list_all (λ r. nat_le (suc (members_depth (recipient_parts_view r).header)) depth) recipients.now }
{
    recipients
        .iter()
        .all(|recipient| object_nests_at_most(&recipient.header, depth))
}

/// Whether all numbers of the headers are whole.
#[tactic(auto, using(crate::proofs::Each::views))]
fn have_whole_numbers(parts: &JweParts) -> bool
    ensures { result ≡ have_whole_numbers_parts (jwe_parts_view parts.now) }
{
    members_have_whole_numbers(&parts.unprotected) && headers_have_whole_numbers(&parts.recipients)
}

fn headers_have_whole_numbers(recipients: &[RecipientParts]) -> bool
    ensures { result ≡ list_all (λ r. member_numbers_are_whole (recipient_parts_view r).header) recipients.now }
{
    recipients
        .iter()
        .all(|recipient| members_have_whole_numbers(&recipient.header))
}

/// The members, whose numbers are whole.
#[tactic(auto, using(crate::proofs::Each::views))]
fn members_of_parts(alloc: Global, parts: JweParts) -> Result<JweMembers, Refusal>
    requires { have_whole_numbers_parts (jwe_parts_view parts) ≡ true }
    ensures members { IfOk result (λ members. jwe_members_view members ≡ jwe_parts_view parts) }
    ensures memory { IfErr result (λ e. e ≡ Refusal.Memory) }
{
    let JweParts {
        protected,
        unprotected,
        iv,
        aad,
        ciphertext,
        tag,
        recipients,
    } = parts;
    Ok(JweMembers {
        protected,
        unprotected: with_whole_numbers(unprotected),
        iv,
        aad,
        ciphertext,
        tag,
        recipients: members_of_recipients(alloc, recipients)?,
    })
}

fn members_of_recipients(
    alloc: Global,
    parts: Vec<RecipientParts>,
) -> Result<Vec<RecipientMembers>, Refusal>
    requires { list_all (λ r. member_numbers_are_whole (recipient_parts_view r).header) parts.items ≡ true }
    ensures members { IfOk result (λ recipients. map recipient_members_view recipients.items ≡ map recipient_parts_view parts.items) }
    ensures memory { IfErr result (λ e. e ≡ Refusal.Memory) }
{
    let mut recipients = Vec::new(alloc);
    for recipient in parts {
        let RecipientParts {
            header,
            encrypted_key,
        } = recipient;
        recipients.push(RecipientMembers {
            header: with_whole_numbers(header),
            encrypted_key,
        })?;
    }
    Ok(recipients)
}
