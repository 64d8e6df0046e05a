//! The answers of the calls. Each has the octets that the definitions give, or their refusal, unless memory or a device fails. The inputs
//! never fail, and the outputs fail only if memory is refused.
ghost use Rattle.std.specs.Prelude.{◌≡◌, true, false, [], None, Some, map, option_map, IfOk, IfErr};
ghost use Rattle.octets.specs.Outcomes.{GivesUnlessExternal};
ghost use Rattle.octets.specs.declared.refusal.Refusal.{Refusal};
ghost use Rattle.keys.specs.Code.Views.{key_view};
ghost use Rattle.keys.specs.Limits.{limits};
ghost use Rattle.keys.specs.Generating.{gen_answer};
ghost use Rattle.tokens.specs.Jws.{ver_answer, ver_all_answer, jws_fmt_answer};
ghost use Rattle.tokens.specs.Jwe.{dec_answer_within, jwe_fmt_answer};
ghost use Rattle.tokens.specs.Code.Uses.{uses_view};
ghost use Rattle.lakhdzeva.specs.Answers.{if_given, hash_of_bits, thumbprints_answer, sign_answer, encrypt_answer, judged_keys, member_number, good_number, signer_answer};
ghost use Rattle.lakhdzeva.specs.Code.{both, payload_of_object, signed_view, verified_by};

use crate::growing::GrowingOutput;
use keys::{Key, KeySet, generate, read_members, text_thumbprints};
use objects::{Jwe, Jws};
use octets::{MemoryInput, Refusal};
use prf::HashAlg;
use std::alloc::Global;
use tokens::{
    KeyUses, jwe_encrypt, jwe_plaintext, jws_sign, jws_verified_by, jws_verify, key_uses,
    needs_signers,
};

/// The text of an object, and a content beside it.
#[derive(Drop)]
pub(crate) struct Both {
    pub(crate) text: Vec<u8>,
    pub(crate) content: Vec<u8>,
}

/// The content that is handed in apart from its object, if it is.
fn given_content(alloc: Global, given: bool, content: &[u8]) -> Result<Option<Vec<u8>>, Refusal>
    ensures copy { IfOk result (λ copy. option_map (λ c. c.items) copy ≡ if_given given content.now) }
    ensures memory { IfErr result (λ e. e ≡ Refusal.Memory) }
{
    if given {
        Ok(Some(Vec::from_slice(alloc, content)?))
    } else {
        Ok(None)
    }
}

/// The hash that a number of bits means.
fn hash_of_bits(bits: u32) -> Option<HashAlg>
    ensures { result ≡ hash_of_bits bits }
{
    match bits {
        224 => Some(HashAlg::S224),
        256 => Some(HashAlg::S256),
        384 => Some(HashAlg::S384),
        512 => Some(HashAlg::S512),
        _ => None,
    }
}

#[tactic(auto, using(crate::proofs::Lemmas::contents_possible))]
pub(crate) fn key_text(alloc: Global, template: &[u8], random: &[u8]) -> Result<Vec<u8>, Refusal>
    ensures { GivesUnlessExternal (λ text. text.items) result (gen_answer limits template.now random.now) }
{
    let mut random = MemoryInput::new(random, usize::MAX);
    Ok(generate(alloc, template, &mut random)?.into_bytes())
}

/// What each member of a text of keys may do, one octet for each.
#[tactic(auto, unfolding(crate::specs::Answers::judged_keys))]
pub(crate) fn judged_members(alloc: Global, keys: &[u8]) -> Result<Vec<u8>, Refusal>
    ensures { GivesUnlessExternal (λ numbers. numbers.items) result (judged_keys keys.now) }
{
    let members = read_members(alloc, keys)?;
    member_numbers(alloc, &members)
}

/// The number of each member.
fn member_numbers(alloc: Global, members: &[Option<Key>]) -> Result<Vec<u8>, Refusal>
    ensures numbers { IfOk result (λ numbers. numbers.items ≡ map member_number (map (option_map key_view) members.now)) }
    ensures memory { IfErr result (λ e. e ≡ Refusal.Memory) }
{
    let mut numbers = Vec::new(alloc);
    for member in members {
        numbers.push(member_number(member))?;
    }
    Ok(numbers)
}

/// The number of a member, which is 0 if it is bad.
fn member_number(member: &Option<Key>) -> u8
    ensures { result ≡ member_number (option_map key_view member.now) }
{
    match member {
        None => 0,
        Some(key) => good_number(key_uses(key)),
    }
}

/// 16 for a good key, and 1, 2, 4 and 8 for what it may do.
fn good_number(uses: KeyUses) -> u8
    ensures { result ≡ good_number (uses_view uses) }
{
    let mut number = 16;
    if uses.sign {
        number += 1;
    }
    if uses.verify {
        number += 2;
    }
    if uses.encrypt {
        number += 4;
    }
    if uses.decrypt {
        number += 8;
    }
    number
}

pub(crate) fn thumbprint_lines(alloc: Global, keys: &[u8], bits: u32) -> Result<Vec<u8>, Refusal>
    ensures { GivesUnlessExternal (λ text. text.items) result (thumbprints_answer keys.now bits) }
{
    let hash = hash_of_bits(bits).ok_or(Refusal::Usage)?;
    Ok(text_thumbprints(alloc, keys, hash)?.into_bytes())
}

/// How an object is written: in compact form or as JSON, and with its content or without it.
#[derive(Clone, Copy)]
pub(crate) struct Form {
    pub(crate) compact: bool,
    pub(crate) detach: bool,
}

#[tactic(auto, using(crate::proofs::Lemmas::contents_possible))]
pub(crate) fn signed_text(
    alloc: Global,
    keys: &[u8],
    template: &[u8],
    form: Form,
    payload: &[u8],
) -> Result<Vec<u8>, Refusal>
    ensures { GivesUnlessExternal (λ text. text.items) result (sign_answer form.compact form.detach keys.now template.now payload.now) }
{
    let set = KeySet::read(alloc, keys, true)?;
    let mut payload = MemoryInput::new(payload, usize::MAX);
    let mut text = GrowingOutput::new(alloc);
    if form.detach {
        let mut left_out = GrowingOutput::new(alloc);
        jws_sign(
            alloc,
            &set,
            template,
            form.compact,
            &mut payload,
            &mut text,
            Some(&mut left_out),
        )?;
    } else {
        jws_sign(
            alloc,
            &set,
            template,
            form.compact,
            &mut payload,
            &mut text,
            Option::default(),
        )?;
    }
    Ok(text.into_octets())
}

/// The object of a text, if some key of the set signed it, or with `all` each key.
#[tactic(auto, unfolding(tokens::specs::Verifying::verifying_by, tokens::specs::Verifying::verified_payload))]
fn object_by<'t>(
    alloc: Global,
    set: &KeySet,
    object: &'t [u8],
    all: bool,
) -> Result<Jws<'t>, Refusal>
    ensures { GivesUnlessExternal payload_of_object result (verified_by limits all true set.now None object.now) }
{
    let jws = Jws::read(alloc, object, None)?;
    jws_verify::<GrowingOutput>(set, &jws, all, Option::default())?;
    Ok(jws)
}

/// Verifies an object whose payload is handed in apart from it. The payload is copied: `jws_verify_detached` holds none, but an HMAC for each
/// key and each header of the object, which a stranger may have made.
fn verify_payload_by(
    alloc: Global,
    set: &KeySet,
    object: &[u8],
    payload: &[u8],
    all: bool,
) -> Result<(), Refusal>
    ensures { GivesUnlessExternal (λ _. []) result (verified_by limits all false set.now (Some payload.now) object.now) }
{
    let jws = Jws::read(alloc, object, Some(Vec::from_slice(alloc, payload)?))?;
    jws_verify::<GrowingOutput>(set, &jws, all, Option::default())
}

/// The object, if some of the keys signed it, or with `all` each of them. Its payload is the answer.
pub(crate) fn verified_object<'t>(
    alloc: Global,
    keys: &[u8],
    object: &'t [u8],
    all: bool,
) -> Result<Jws<'t>, Refusal>
    ensures { GivesUnlessExternal payload_of_object result (ver_answer limits all true keys.now None object.now) }
{
    let set = KeySet::read(alloc, keys, false)?;
    object_by(alloc, &set, object, all)
}

pub(crate) fn verify_with_payload(
    alloc: Global,
    keys: &[u8],
    object: &[u8],
    payload: &[u8],
    all: bool,
) -> Result<(), Refusal>
    ensures { GivesUnlessExternal (λ _. []) result (ver_answer limits all false keys.now (Some payload.now) object.now) }
{
    let set = KeySet::read(alloc, keys, false)?;
    verify_payload_by(alloc, &set, object, payload, all)
}

/// The object and the place of the first key that signed it, if every key is good.
#[tactic(auto, unfolding(crate::specs::Answers::signer_answer))]
pub(crate) fn signed_object<'t>(
    alloc: Global,
    keys: &[u8],
    object: &'t [u8],
) -> Result<(Jws<'t>, usize), Refusal>
    ensures { GivesUnlessExternal signed_view result (signer_answer keys.now object.now) }
{
    let set = KeySet::read(alloc, keys, true)?;
    let jws = Jws::read(alloc, object, None)?;
    let signer = jws_verified_by(&set, &jws)?;
    Ok((jws, signer))
}

/// The object, if each of so many signers signed it. Its payload is the answer.
pub(crate) fn object_of_signers<'t>(
    alloc: Global,
    keys: &[u8],
    signers: usize,
    object: &'t [u8],
) -> Result<Jws<'t>, Refusal>
    ensures { GivesUnlessExternal payload_of_object result (ver_all_answer limits signers true keys.now None object.now) }
{
    let set = KeySet::read(alloc, keys, true)?;
    needs_signers(alloc, &set, signers)?;
    object_by(alloc, &set, object, true)
}

/// Verifies by each of so many signers.
pub(crate) fn verify_all_with_payload(
    alloc: Global,
    keys: &[u8],
    signers: usize,
    object: &[u8],
    payload: &[u8],
) -> Result<(), Refusal>
    ensures { GivesUnlessExternal (λ _. []) result (ver_all_answer limits signers false keys.now (Some payload.now) object.now) }
{
    let set = KeySet::read(alloc, keys, true)?;
    needs_signers(alloc, &set, signers)?;
    verify_payload_by(alloc, &set, object, payload, true)
}

#[tactic(auto, unfolding(tokens::specs::Jws::jws_fmt_answer))]
pub(crate) fn signed_form(
    alloc: Global,
    object: &[u8],
    given: bool,
    payload: &[u8],
    compact: bool,
    detach: bool,
) -> Result<Both, Refusal>
    ensures { GivesUnlessExternal both result (jws_fmt_answer limits compact detach (if_given given payload.now) object.now) }
{
    let payload = given_content(alloc, given, payload)?;
    let object = Jws::read(alloc, object, payload)?;
    let text = object.to_text(alloc, compact, detach)?.into_bytes();
    let content = if detach {
        object.payload(alloc)?
    } else {
        Vec::new(alloc)
    };
    Ok(Both { text, content })
}

#[tactic(auto, using(crate::proofs::Lemmas::contents_possible))]
pub(crate) fn encrypted_texts<'x>(
    alloc: Global,
    keys: &[u8],
    template: &[u8],
    form: Form,
    random: &'x [u8],
    plaintext: &'x [u8],
) -> Result<Both, Refusal>
    ensures { GivesUnlessExternal both result (encrypt_answer form.compact form.detach keys.now template.now random.now plaintext.now) }
{
    let set = KeySet::read(alloc, keys, true)?;
    let mut random = MemoryInput::new(random, usize::MAX);
    let mut plaintext = MemoryInput::new(plaintext, usize::MAX);
    let mut text = GrowingOutput::new(alloc);
    let mut content = GrowingOutput::new(alloc);
    if form.detach {
        jwe_encrypt(
            alloc,
            &set,
            template,
            form.compact,
            &mut random,
            &mut plaintext,
            &mut text,
            Some(&mut content),
        )?;
    } else {
        jwe_encrypt(
            alloc,
            &set,
            template,
            form.compact,
            &mut random,
            &mut plaintext,
            &mut text,
            Option::default(),
        )?;
    }
    Ok(Both {
        text: text.into_octets(),
        content: content.into_octets(),
    })
}

pub(crate) fn plaintext_of(
    alloc: Global,
    keys: &[u8],
    object: &[u8],
    given: bool,
    ciphertext: &[u8],
    most_iterations: u64,
) -> Result<Vec<u8>, Refusal>
    ensures { GivesUnlessExternal (λ plaintext. plaintext.items) result
        (dec_answer_within most_iterations limits keys.now (if_given given ciphertext.now) object.now) }
{
    let set = KeySet::read(alloc, keys, false)?;
    let ciphertext = given_content(alloc, given, ciphertext)?;
    let jwe = Jwe::read(alloc, object, ciphertext)?;
    jwe_plaintext(alloc, &set, jwe, most_iterations).1
}

#[tactic(auto, unfolding(tokens::specs::Jwe::jwe_fmt_answer))]
pub(crate) fn encrypted_form(
    alloc: Global,
    object: &[u8],
    given: bool,
    ciphertext: &[u8],
    compact: bool,
    detach: bool,
) -> Result<Both, Refusal>
    ensures { GivesUnlessExternal both result (jwe_fmt_answer limits compact detach (if_given given ciphertext.now) object.now) }
{
    let ciphertext = given_content(alloc, given, ciphertext)?;
    let mut object = Jwe::read(alloc, object, ciphertext)?;
    let text = object.to_text(alloc, compact, detach)?.into_bytes();
    let content = if detach {
        object.take_ciphertext(alloc)
    } else {
        Vec::new(alloc)
    };
    Ok(Both { text, content })
}
