//! The choice of algorithms by a template and keys, and all else that they settle before anything is drawn.
ghost use Rattle.std.specs.Prelude.{◌≡◌, ◌≤◌, ◌==◌, ◌*◌, Some, true, false, is_some, length, map, option_map, option_and_then, IfOk, IfErr};
ghost use Rattle.std.specs.List.{list_all, list_any};
ghost use Rattle.serde_json.specs.Written.{members_have_float};
ghost use Rattle.octets.specs.Code.Results.{Agrees, AgreesUnlessMemory};
ghost use Rattle.ciphers.specs.Algorithms.{encryption_alg_of, mode_of, kek_len};
ghost use Rattle.keys.specs.Limits.{limits};
ghost use Rattle.keys.specs.Code.Views.{key_view};
ghost use Rattle.objects.specs.Texts.{each};
ghost use Rattle.objects.specs.Code.Views.{part_view};
ghost use Rattle.tokens.specs.Choosing.{read_encryption, settle_encryption as settle_encryption_with_keys, recipient_key_by as recipient_key_by_key, direct_key_is_alone, is_direct, encryption_for, chosen_management, management_of_key, management_by_name, management_by_length, chosen_encryption, encryption_in, may_encrypt, compact_has_room, password_count, chosen_p2c, p2c_may_be_written, is_given, with_name};
ghost use Rattle.tokens.specs.Code.Views.{recipient_key_view, encryption_plan_view, encryption_template_view};

use crate::encrypt::plan::{EncryptionPlan, Given};
use crate::encrypt::recipient_key::RecipientKey;
use crate::encrypt::template::{EncryptionTemplate, read_encryption_template};
use crate::headers::{is_empty, is_shallow, with_name};
use ciphers::{ContentAlg, KeyAlg, KeyManagementMode};
use keys::{
    Algorithm, GREATEST_P2C, Key, KeySet, LEAST_P2C, MOST_ITERATIONS, Operation, USUAL_P2C,
    read_json,
};
use objects::copy_header;
use octets::{Refusal, needs};
use std::alloc::Global;

/// What the keys and the template's text settle. Refuses as docs/SPECIFICATION.md "Encrypting" 1 to 5 says.
#[tactic(auto, unfolding(crate::specs::Choosing::read_encryption))]
pub(crate) fn read_encryption<'k>(
    alloc: Global,
    keys: &'k KeySet,
    template: &[u8],
    compact: bool,
) -> Result<EncryptionPlan<'k>, Refusal>
    ensures { AgreesUnlessMemory encryption_plan_view result (read_encryption limits compact keys.now template.now) }
{
    let value = read_json(alloc, template)?;
    let template = read_encryption_template(alloc, &value)?;
    settle_encryption(alloc, compact, keys.keys(), template)
}

/// What keys and a template settle. Refuses as docs/SPECIFICATION.md "Encrypting" 2 to 5 says.
#[tactic(auto, unfolding(crate::specs::Choosing::settle_encryption))]
fn settle_encryption<'k>(
    alloc: Global,
    compact: bool,
    keys: &'k [Key],
    template: EncryptionTemplate<'_>,
) -> Result<EncryptionPlan<'k>, Refusal>
    requires few { length keys.now ≤ limits.keys }
    requires no_float { members_have_float (part_view template.protected) ≡ false }
    requires p2c { IfErr template.asked.p2c (λ e. e ≡ Refusal.Header) }
    ensures { AgreesUnlessMemory encryption_plan_view result
        (settle_encryption_with_keys limits compact (map key_view keys.now) (encryption_template_view template.entry)) }
{
    let asked = template.asked;
    let recipient_keys = recipient_keys_by(alloc, asked.management, keys)?;
    needs(direct_key_is_alone(&recipient_keys), Refusal::Header)?;
    let encryption = encryption_for(asked.encryption, &recipient_keys)?;
    needs(
        all_may_encrypt(encryption, &recipient_keys),
        Refusal::KeyDoesNotFit,
    )?;
    let passwords = password_count(&recipient_keys);
    let p2c = chosen_p2c(passwords, asked.p2c)?;
    let shallow = is_shallow(template.protected) && is_shallow(template.unprotected);
    needs(shallow, Refusal::Limit)?;
    needs(p2c_may_be_written(passwords, p2c), Refusal::Limit)?;
    needs(
        compact_has_room(compact, &recipient_keys, &template),
        Refusal::NotCompact,
    )?;
    let given = Given {
        alg: asked.management.is_some(),
        p2c: is_given(asked.p2c),
    };
    let protected = copy_header(alloc, template.protected)?;
    let protected = with_name(
        alloc,
        asked.encryption.is_some(),
        "enc",
        encryption.name(),
        protected,
    )?;
    let unprotected = copy_header(alloc, template.unprotected)?;
    let EncryptionTemplate { aad, .. } = template;
    Ok(EncryptionPlan {
        encryption,
        recipient_keys,
        given,
        p2c: p2c as u32,
        protected,
        unprotected,
        aad,
    })
}

/// The keys, each with its algorithm of key management.
#[tactic(auto, using(objects::proofs::Lemmas::reading))]
fn recipient_keys_by<'k>(
    alloc: Global,
    asked: Option<KeyAlg>,
    keys: &'k [Key],
) -> Result<Vec<RecipientKey<'k>>, Refusal>
    ensures exact { AgreesUnlessMemory (λ recipient_keys. map recipient_key_view recipient_keys.items) result
        (each (recipient_key_by_key asked) (map key_view keys.now)) }
    ensures as_many { IfOk result (λ recipient_keys. length recipient_keys.items ≡ length keys.now) }
{
    let mut recipient_keys = Vec::new(alloc);
    for key in keys {
        recipient_keys.push(recipient_key_by(asked, key)?)?;
    }
    Ok(recipient_keys)
}

/// The key with its algorithm of key management. Refuses with `NoAlgorithm` if nothing says this algorithm, and with `KeyDoesNotFit` if the
/// key's `alg` is no algorithm of encryption.
#[tactic(auto, unfolding(crate::specs::Choosing::recipient_key_by))]
fn recipient_key_by<'k>(asked: Option<KeyAlg>, key: &'k Key) -> Result<RecipientKey<'k>, Refusal>
    ensures { Agrees recipient_key_view result (recipient_key_by_key asked (key_view key.now)) }
{
    let management = chosen_management(asked, key)?;
    Ok(RecipientKey { key, management })
}

/// The key management algorithm of the template, or else that of the key.
fn chosen_management(asked: Option<KeyAlg>, key: &Key) -> Result<KeyAlg, Refusal>
    ensures { Agrees (λ alg. alg) result (chosen_management asked (key_view key.now)) }
{
    match asked {
        Some(alg) => Ok(alg),
        None => management_of_key(key.alg(), key.octets().len()),
    }
}

/// The algorithm that the key's `alg` asks for, or the one that its length implies.
fn management_of_key(name: Option<&str>, len: usize) -> Result<KeyAlg, Refusal>
    ensures { Agrees (λ alg. alg) result (management_of_key (option_map (λ n. n.now) name.entry) len) }
{
    match name {
        None => management_by_length(len).ok_or(Refusal::NoAlgorithm),
        Some(name) => {
            let management = KeyAlg::named(name);
            management_by_name(management, ContentAlg::named(name)).ok_or(Refusal::KeyDoesNotFit)
        }
    }
}

/// The algorithm whose keys have `len` octets.
fn management_by_length(len: usize) -> Option<KeyAlg>
    ensures { result ≡ management_by_length len }
{
    match len {
        16 => Some(KeyAlg::A128Kw),
        24 => Some(KeyAlg::A192Kw),
        32 => Some(KeyAlg::A256Kw),
        _ => None,
    }
}

/// The algorithm of a name. The name of a content encryption asks for direct use.
fn management_by_name(management: Option<KeyAlg>, encryption: Option<ContentAlg>) -> Option<KeyAlg>
    ensures { result ≡ management_by_name management encryption }
{
    match (management, encryption) {
        (Some(alg), _) => Some(alg),
        (None, Some(_)) => Some(KeyAlg::Dir),
        (None, None) => None,
    }
}

/// Whether a key that is used directly, if there is one, is the only key.
fn direct_key_is_alone(recipient_keys: &[RecipientKey<'_>]) -> bool
    ensures { result ≡ direct_key_is_alone (map recipient_key_view recipient_keys.now) }
{
    recipient_keys.len() <= 1 || !any_is_direct(recipient_keys)
}

/// Whether some key is used directly.
fn any_is_direct(recipient_keys: &[RecipientKey<'_>]) -> bool
    ensures { result ≡ list_any (λ r. is_direct r.management) (map recipient_key_view recipient_keys.now) }
{
    recipient_keys
        .iter()
        .any(|recipient_key| is_direct(recipient_key.management))
}

/// Whether the key is used directly.
pub(crate) fn is_direct(alg: KeyAlg) -> bool
    ensures { result ≡ is_direct alg }
{
    match alg.mode() {
        KeyManagementMode::Direct => true,
        KeyManagementMode::KeyWrap | KeyManagementMode::Password | KeyManagementMode::GcmKeyWrap =>
            false,
    }
}

/// The content encryption algorithm of the template, or else the one that goes with the first recipient key.
fn encryption_for(
    asked: Option<ContentAlg>,
    recipient_keys: &[RecipientKey<'_>],
) -> Result<ContentAlg, Refusal>
    ensures { Agrees (λ alg. alg) result (encryption_for asked (map recipient_key_view recipient_keys.now)) }
{
    match recipient_keys.first() {
        None => Err(Refusal::NoAlgorithm),
        Some(first) => chosen_encryption(asked, first.management, first.key),
    }
}

/// The content encryption algorithm of the template, or else the one that goes with the key.
fn chosen_encryption(
    asked: Option<ContentAlg>,
    management: KeyAlg,
    key: &Key,
) -> Result<ContentAlg, Refusal>
    ensures { Agrees (λ alg. alg) result (chosen_encryption asked management (key_view key.now)) }
{
    match asked {
        Some(alg) => Ok(alg),
        None => encryption_by_management(management, key).ok_or(Refusal::NoAlgorithm),
    }
}

/// The algorithm that goes with key management.
fn encryption_by_management(management: KeyAlg, key: &Key) -> Option<ContentAlg>
    ensures { result ≡ encryption_in (mode_of management) (kek_len management) (key_view key.now) }
{
    match management.mode() {
        KeyManagementMode::Direct => match encryption_by_name(key.alg()) {
            Some(alg) => Some(alg),
            None => ContentAlg::cbc_with_cek_len(key.octets().len()),
        },
        KeyManagementMode::KeyWrap | KeyManagementMode::Password | KeyManagementMode::GcmKeyWrap =>
            ContentAlg::cbc_with_cek_len(2 * management.kek_len()),
    }
}

/// The algorithm that the `alg` of a key names.
fn encryption_by_name(name: Option<&str>) -> Option<ContentAlg>
    ensures { result ≡ option_and_then encryption_alg_of (option_map (λ n. n.now) name.entry) }
{
    ContentAlg::named(name?)
}

/// Whether each key may encrypt and fits.
fn all_may_encrypt(encryption: ContentAlg, recipient_keys: &[RecipientKey<'_>]) -> bool
    ensures { result ≡ list_all (may_encrypt encryption) (map recipient_key_view recipient_keys.now) }
{
    recipient_keys
        .iter()
        .all(|recipient_key| may_encrypt(encryption, recipient_key))
}

/// Whether the key may encrypt by the algorithms and fits.
fn may_encrypt(encryption: ContentAlg, recipient_key: &RecipientKey<'_>) -> bool
    ensures { result ≡ may_encrypt encryption (recipient_key_view recipient_key.now) }
{
    let RecipientKey { key, management } = *recipient_key;
    key.allows(Operation::of_management(management).0)
        && key.fits(Algorithm::Encryption(management, encryption))
}

/// How many recipient keys are passwords.
fn password_count(recipient_keys: &[RecipientKey<'_>]) -> usize
    ensures count { result ≡ password_count (map recipient_key_view recipient_keys.now) }
    ensures few { result ≤ length recipient_keys.now }
{
    let mut count = 0;
    for recipient_key in recipient_keys {
        if recipient_key.management.is_password_based() {
            count += 1;
        }
    }
    count
}

/// The iterations for so many passwords: those of the template, or else the usual number. Without passwords there are none.
fn chosen_p2c(passwords: usize, asked: Result<Option<u64>, Refusal>) -> Result<u64, Refusal>
    requires { IfErr asked (λ e. e ≡ Refusal.Header) }
    ensures { Agrees (λ p2c. p2c) result (chosen_p2c limits passwords asked) }
{
    if passwords == 0 {
        return Ok(0);
    }
    match asked? {
        None => Ok(USUAL_P2C),
        Some(p2c) => Ok(p2c),
    }
}

/// Whether so many iterations may be written, and are not too many for all passwords together.
fn p2c_may_be_written(passwords: usize, p2c: u64) -> bool
    requires { passwords ≤ limits.keys }
    ensures { result ≡ p2c_may_be_written limits passwords p2c }
{
    passwords == 0
        || LEAST_P2C <= p2c && p2c <= GREATEST_P2C && passwords as u64 * p2c <= MOST_ITERATIONS
}

/// Whether the template has the iterations.
fn is_given(asked: Result<Option<u64>, Refusal>) -> bool
    ensures { result ≡ is_given asked }
{
    match asked {
        Ok(p2c) => p2c.is_some(),
        Err(_) => true,
    }
}

/// Whether the form can hold the object of the keys and the template: a compact text holds one recipient and only a protected header.
fn compact_has_room(
    compact: bool,
    recipient_keys: &[RecipientKey<'_>],
    template: &EncryptionTemplate<'_>,
) -> bool
    ensures { result ≡ compact_has_room compact (map recipient_key_view recipient_keys.now) (encryption_template_view template.now) }
{
    !compact
        || recipient_keys.len() <= 1 && is_empty(template.unprotected) && template.aad.is_empty()
}
