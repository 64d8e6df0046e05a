//! The delivery of a content encryption key to recipients (RFC 7516 section 5.1, steps 4 to 6).
ghost use Rattle.std.specs.Prelude.{◌≡◌, ◌≤◌, ◌*◌, ◌||◌, true, not, nat_le, length, map, IfOk, IfErr};
ghost use Rattle.std.specs.List.{AllByRecursion};
ghost use Rattle.ciphers.specs.Sealing.{cek_len};
ghost use Rattle.keys.specs.declared.algorithm.Algorithm.TheVariants.{Encryption as EncryptionWith};
ghost use Rattle.ciphers.specs.Algorithms.{is_password_based};
ghost use Rattle.keys.specs.Keys.{fits};
ghost use Rattle.keys.specs.Limits.{limits};
ghost use Rattle.keys.specs.Code.Views.{key_view};
ghost use Rattle.objects.specs.Code.KeyManagementView.{management_view};
ghost use Rattle.tokens.specs.Delivering.{drawn_by, drawn_for, drawn_for_all, management_with, delivery_to, deliveries_to};
ghost use Rattle.tokens.specs.Code.Views.{recipient_key_view, encryption_plan_view, delivery_view};

use crate::algorithms::NO_PARAMETERS;
use crate::encrypt::plan::EncryptionPlan;
use crate::encrypt::recipient_key::RecipientKey;
use ciphers::{Cek, KeyAlg, KeyManagementMode, KeyParameters};
use objects::{KeyManagement, SharedOctets};
use octets::Refusal;
use std::alloc::Global;

/// The length of a salt input in octets (RFC 7518 section 4.8.1.1).
const SALT_LEN: usize = 16;

/// The length of the initialization vector of AES-GCM key wrap in octets (RFC 7518 section 4.7.1.1).
const KEY_IV_LEN: usize = 12;

/// The most octets that are drawn for a recipient: a salt input is longer than an initialization vector.
pub(crate) const MOST_FOR_RECIPIENT: usize = SALT_LEN;

/// The octets of the longest encrypted key: a content encryption key of 64, and 8 that AES key wrap adds (RFC 3394).
const MOST_ENCRYPTED_KEY: usize = 72;

/// The octets of the tag of AES-GCM key wrap (RFC 7518 section 4.7.1.2).
const KEY_TAG_LEN: usize = 16;

/// An encrypted key, and how it delivers the content encryption key.
#[derive(Drop)]
pub(crate) struct Delivery {
    pub(crate) alg: KeyAlg,
    pub(crate) management: KeyManagement,
    pub(crate) encrypted_key: Vec<u8>,
}

/// How many octets are drawn for all recipients.
pub(crate) fn drawn_for_all(recipient_keys: &[RecipientKey<'_>]) -> usize
    requires { length recipient_keys.now ≤ limits.keys }
    ensures count { result ≡ drawn_for_all (map recipient_key_view recipient_keys.now) }
    ensures bound { result ≤ MOST_FOR_RECIPIENT * length recipient_keys.now }
{
    let mut count = 0;
    for recipient_key in recipient_keys {
        count += drawn_for(recipient_key);
    }
    count
}

/// How many octets are drawn for a recipient.
fn drawn_for(recipient_key: &RecipientKey<'_>) -> usize
    ensures count { result ≡ drawn_for (recipient_key_view recipient_key.now) }
    ensures bound { result ≤ MOST_FOR_RECIPIENT }
{
    drawn_by(recipient_key.management)
}

/// How many octets are drawn for an algorithm: those of a salt input for PBES2, or of an initialization vector for AES-GCM key wrap.
fn drawn_by(alg: KeyAlg) -> usize
    ensures count { result ≡ drawn_by alg }
    ensures bound { result ≤ MOST_FOR_RECIPIENT }
{
    match alg.mode() {
        KeyManagementMode::Direct | KeyManagementMode::KeyWrap => 0,
        KeyManagementMode::Password => SALT_LEN,
        KeyManagementMode::GcmKeyWrap => KEY_IV_LEN,
    }
}

/// Delivers the content encryption key to the recipients, in order, with the octets that were drawn for them.
pub(crate) fn deliver_to_all(
    alloc: Global,
    encryption: &EncryptionPlan<'_>,
    drawn: &[u8],
    cek: &Cek,
) -> Result<Vec<Delivery>, Refusal>
    requires drawn { length drawn.now ≡ drawn_for_all (encryption_plan_view encryption.now).recipient_keys }
    requires fits { length cek.now ≡ cek_len encryption.now.encryption }
    requires direct { AllByRecursion (λ r. r.management ≡ KeyAlg.Dir → cek.now ≡ (key_view r.key.now).octets) encryption.now.recipient_keys.items }
    ensures deliveries { IfOk result (λ list. map delivery_view list.items
        ≡ deliveries_to (encryption_plan_view encryption.now) cek.now (encryption_plan_view encryption.now).recipient_keys drawn.now) }
    ensures memory { IfErr result (λ e. e ≡ Refusal.Memory) }
{
    let mut list = Vec::new(alloc);
    let mut left = drawn;
    for recipient_key in &encryption.recipient_keys {
        let (drawn, rest) = left.split_at(drawn_for(recipient_key));
        list.push(deliver(alloc, encryption, recipient_key, drawn, cek)?)?;
        left = rest;
    }
    Ok(list)
}

/// Delivers it to a recipient, with the octets that were drawn for it.
#[tactic(auto, using(crate::proofs::AlgorithmCases::is_key_of, crate::proofs::AlgorithmCases::counts_where_password, crate::proofs::AlgorithmCases::iv_of_drawn))]
fn deliver(
    alloc: Global,
    encryption: &EncryptionPlan<'_>,
    recipient_key: &RecipientKey<'_>,
    drawn: &[u8],
    cek: &Cek,
) -> Result<Delivery, Refusal>
    requires drawn { length drawn.now ≡ drawn_for (recipient_key_view recipient_key.now) }
    requires fits { length cek.now ≡ cek_len encryption.now.encryption }
    requires key_fits { fits (key_view recipient_key.now.key.now) (EncryptionWith recipient_key.now.management encryption.now.encryption) ≡ true }
    requires counted { (not (is_password_based recipient_key.now.management) || nat_le 1 encryption.now.p2c) ≡ true }
    requires direct { recipient_key.now.management ≡ KeyAlg.Dir → cek.now ≡ (key_view recipient_key.now.key.now).octets }
    ensures delivery { IfOk result (λ made. delivery_view made
        ≡ delivery_to (encryption_plan_view encryption.now) cek.now (recipient_key_view recipient_key.now) drawn.now) }
    ensures memory { IfErr result (λ e. e ≡ Refusal.Memory) }
{
    let RecipientKey {
        key,
        management: alg,
    } = *recipient_key;
    let parameters = KeyParameters {
        iv: drawn,
        p2s: drawn,
        p2c: encryption.p2c,
        ..NO_PARAMETERS
    };
    let mut buf = [0; MOST_ENCRYPTED_KEY];
    let mut tag = [0; KEY_TAG_LEN];
    let (len, tag_len) = alg.wrap_cek(key.octets(), parameters, cek, &mut buf, &mut tag);
    Ok(Delivery {
        alg,
        management: management_with(alloc, alg, drawn, encryption.p2c, &tag[..tag_len])?,
        encrypted_key: buf[..len].to_vec(alloc)?,
    })
}

/// How a key delivers the content encryption key, by its algorithm, the octets that were drawn, and the tag that was made.
fn management_with(
    alloc: Global,
    alg: KeyAlg,
    drawn: &[u8],
    p2c: u32,
    tag: &[u8],
) -> Result<KeyManagement, Refusal>
    ensures management { IfOk result (λ made. management_view made ≡ management_with alg drawn.now p2c tag.now) }
    ensures memory { IfErr result (λ e. e ≡ Refusal.Memory) }
{
    match alg.mode() {
        KeyManagementMode::Direct => Ok(KeyManagement::Direct),
        KeyManagementMode::KeyWrap => Ok(KeyManagement::KeyWrap),
        KeyManagementMode::Password => Ok(KeyManagement::Password {
            p2s: SharedOctets::new(alloc, drawn.to_vec(alloc)?)?,
            p2c: p2c as u64,
        }),
        KeyManagementMode::GcmKeyWrap => Ok(KeyManagement::GcmKeyWrap {
            iv: SharedOctets::new(alloc, drawn.to_vec(alloc)?)?,
            tag: SharedOctets::new(alloc, tag.to_vec(alloc)?)?,
        }),
    }
}
