//! The library for C, and for every language that calls C: thumbprints, making keys, signing, verifying, encrypting, decrypting, and
//! writing objects in another form. All octets are in memory, no call keeps anything, and calls may run side by side.
//!
//! A call answers 0 or the number of a refusal (docs/SPECIFICATION.md "Refusals"). Its answer goes to the front of a place, with the length
//! beside it. If the place is too small, the status is 3 and the length is the one that is needed. After every other refusal the length is
//! 0. Whatever is refused, the place is left as it was. A caller in C includes lakhdzeva.h, which says what C owes.
#![tactic(auto)]

ghost use Rattle.std.specs.Prelude.{true, false, None, Some};
ghost use Rattle.keys.specs.Limits.{limits};
ghost use Rattle.keys.specs.Generating.{gen_answer};
ghost use Rattle.tokens.specs.Jws.{ver_answer, ver_all_answer, jws_fmt_answer};
ghost use Rattle.tokens.specs.Jwe.{dec_answer_within, jwe_fmt_answer};
ghost use Rattle.lakhdzeva.specs.Answers.{if_given, thumbprints_answer, sign_answer, encrypt_answer, judged_keys, signer_answer};
ghost use Rattle.lakhdzeva.specs.Calls.{Tells, Delivers, DeliversBoth, DeliversSigned};

mod answers;
mod growing;
mod places;

use crate::answers::{
    Form, encrypted_form, encrypted_texts, judged_members, key_text, object_of_signers,
    plaintext_of, signed_form, signed_object, signed_text, thumbprint_lines, verified_object,
    verify_all_with_payload, verify_with_payload,
};
use crate::places::{deliver, deliver_both, deliver_payload, deliver_signed, told};
use std::alloc::Global;

/// Makes a key as the template asks, from octets at the front of `random`, which are all new. Most templates need at most 64 of them, and
/// one with `bytes` needs as many as this says, up to 4,096.
#[unsafe(no_mangle)]
pub extern "C" fn lakhdzeva_core_generate(
    alloc: Global,
    template: &[u8],
    random: &[u8],
    key: &mut [u8],
    count: &mut usize,
) -> u32
    ensures { Delivers (gen_answer limits template.now random.now) (record { old = key.old; new = key.new; count = count.new }) result }
{
    deliver(key_text(alloc, template, random), key, count)
}

/// The thumbprints (RFC 7638) of the good keys of a text, one a line, by SHA-2 with 224, 256, 384 or 512 bits. Another number is 1 Usage.
#[unsafe(no_mangle)]
pub extern "C" fn lakhdzeva_core_thumbprints(
    alloc: Global,
    keys: &[u8],
    bits: u32,
    lines: &mut [u8],
    count: &mut usize,
) -> u32
    ensures { Delivers (thumbprints_answer keys.now bits) (record { old = lines.old; new = lines.new; count = count.new }) result }
{
    deliver(thumbprint_lines(alloc, keys, bits), lines, count)
}

/// Says of each member of a text of keys, in order, what it may do: one octet for each, and one for a key that is alone. It is 0 for a bad
/// key. For a good one it is 16, and 1 more if it may sign by some algorithm, 2 to verify, 4 to encrypt and 8 to decrypt.
#[unsafe(no_mangle)]
pub extern "C" fn lakhdzeva_core_judge_keys(
    alloc: Global,
    keys: &[u8],
    uses: &mut [u8],
    count: &mut usize,
) -> u32
    ensures { Delivers (judged_keys keys.now) (record { old = uses.old; new = uses.new; count = count.new }) result }
{
    deliver(judged_members(alloc, keys), uses, count)
}

/// Signs the payload with each of the keys, as the template asks (RFC 7515). A payload that is detached is not in the object.
#[unsafe(no_mangle)]
pub extern "C" fn lakhdzeva_core_sign(
    alloc: Global,
    keys: &[u8],
    template: &[u8],
    compact: bool,
    detach: bool,
    payload: &[u8],
    object: &mut [u8],
    count: &mut usize,
) -> u32
    ensures { Delivers (sign_answer compact detach keys.now template.now payload.now)
        (record { old = object.old; new = object.new; count = count.new }) result }
{
    deliver(
        signed_text(alloc, keys, template, Form { compact, detach }, payload),
        object,
        count,
    )
}

/// Verifies the object with one of the keys, or with all of them, and gives its payload (RFC 7515).
#[unsafe(no_mangle)]
pub extern "C" fn lakhdzeva_core_verify(
    alloc: Global,
    keys: &[u8],
    object: &[u8],
    all: bool,
    payload: &mut [u8],
    count: &mut usize,
) -> u32
    ensures { Delivers (ver_answer limits all true keys.now None object.now) (record { old = payload.old; new = payload.new; count = count.new }) result }
{
    deliver_payload(verified_object(alloc, keys, object, all), payload, count)
}

/// Verifies the object with one of the keys, or with all of them, and with the payload that is handed in (RFC 7515 appendix F).
#[unsafe(no_mangle)]
pub extern "C" fn lakhdzeva_core_verify_detached(
    alloc: Global,
    keys: &[u8],
    object: &[u8],
    all: bool,
    payload: &[u8],
) -> u32
    ensures { Tells (ver_answer limits all false keys.now (Some payload.now) object.now) result }
{
    told(verify_with_payload(alloc, keys, object, payload, all))
}

/// Verifies the object, and gives its payload and the place, from 0, of the first key that verifies it (RFC 7515). Every key of the text must
/// be good, so the place is that of a member of the set, or 0 for a key that is alone.
#[unsafe(no_mangle)]
pub extern "C" fn lakhdzeva_core_verify_signer(
    alloc: Global,
    keys: &[u8],
    object: &[u8],
    payload: &mut [u8],
    count: &mut usize,
    signer: &mut usize,
) -> u32
    ensures { DeliversSigned (signer_answer keys.now object.now)
        (record { old = payload.old; new = payload.new; count = count.new }) signer.new result }
{
    deliver_signed(signed_object(alloc, keys, object), payload, count, signer)
}

/// Verifies the object by each of so many signers, and gives its payload (RFC 7515). Every key must be good, there must be one for each
/// signer, and no two may sign alike (`9 Key`).
#[unsafe(no_mangle)]
pub extern "C" fn lakhdzeva_core_verify_all(
    alloc: Global,
    keys: &[u8],
    signers: usize,
    object: &[u8],
    payload: &mut [u8],
    count: &mut usize,
) -> u32
    ensures { Delivers (ver_all_answer limits signers true keys.now None object.now)
        (record { old = payload.old; new = payload.new; count = count.new }) result }
{
    deliver_payload(
        object_of_signers(alloc, keys, signers, object),
        payload,
        count,
    )
}

/// The same with the payload that is handed in (RFC 7515 appendix F).
#[unsafe(no_mangle)]
pub extern "C" fn lakhdzeva_core_verify_all_detached(
    alloc: Global,
    keys: &[u8],
    signers: usize,
    object: &[u8],
    payload: &[u8],
) -> u32
    ensures { Tells (ver_all_answer limits signers false keys.now (Some payload.now) object.now) result }
{
    told(verify_all_with_payload(alloc, keys, signers, object, payload))
}

/// Writes a signed object in compact form or in JSON form. It verifies nothing. Its payload is handed in if that is `given`. If it is to be
/// detached, its octets go to their own place, and otherwise this stays as it is.
#[unsafe(no_mangle)]
pub extern "C" fn lakhdzeva_core_format_signed(
    alloc: Global,
    object: &[u8],
    given: bool,
    payload: &[u8],
    compact: bool,
    detach: bool,
    text: &mut [u8],
    text_count: &mut usize,
    content: &mut [u8],
    content_count: &mut usize,
) -> u32
    ensures { DeliversBoth (jws_fmt_answer limits compact detach (if_given given payload.now) object.now)
        (record { old = text.old; new = text.new; count = text_count.new })
        (record { old = content.old; new = content.new; count = content_count.new }) result }
{
    deliver_both(
        signed_form(alloc, object, given, payload, compact, detach),
        text,
        text_count,
        content,
        content_count,
    )
}

/// Encrypts the plaintext to each of the keys, as the template asks (RFC 7516), with octets at the front of `random`, which are all new. A
/// ciphertext that is to be detached goes to its own place, and otherwise this stays as it is.
#[unsafe(no_mangle)]
pub extern "C" fn lakhdzeva_core_encrypt<'x>(
    alloc: Global,
    keys: &[u8],
    template: &[u8],
    compact: bool,
    detach: bool,
    random: &'x [u8],
    plaintext: &'x [u8],
    object: &mut [u8],
    object_count: &mut usize,
    ciphertext: &mut [u8],
    ciphertext_count: &mut usize,
) -> u32
    ensures { DeliversBoth (encrypt_answer compact detach keys.now template.now random.now plaintext.now)
        (record { old = object.old; new = object.new; count = object_count.new })
        (record { old = ciphertext.old; new = ciphertext.new; count = ciphertext_count.new }) result }
{
    deliver_both(
        encrypted_texts(
            alloc,
            keys,
            template,
            Form { compact, detach },
            random,
            plaintext,
        ),
        object,
        object_count,
        ciphertext,
        ciphertext_count,
    )
}

/// Decrypts the object with one of the keys (RFC 7516). Its ciphertext is handed in if that is `given`. If the passwords would need more
/// iterations of PBKDF2 in all, it is `15 Limit`, and none is made. With 0, no password is tried.
#[unsafe(no_mangle)]
pub extern "C" fn lakhdzeva_core_decrypt(
    alloc: Global,
    keys: &[u8],
    object: &[u8],
    given: bool,
    ciphertext: &[u8],
    most_iterations: u64,
    plaintext: &mut [u8],
    count: &mut usize,
) -> u32
    ensures { Delivers (dec_answer_within most_iterations limits keys.now (if_given given ciphertext.now) object.now)
        (record { old = plaintext.old; new = plaintext.new; count = count.new }) result }
{
    deliver(
        plaintext_of(alloc, keys, object, given, ciphertext, most_iterations),
        plaintext,
        count,
    )
}

/// Writes an encrypted object in compact form or in JSON form. It decrypts nothing. Its ciphertext is handed in if that is `given`. If it
/// is to be detached, its octets go to their own place, and otherwise this stays as it is.
#[unsafe(no_mangle)]
pub extern "C" fn lakhdzeva_core_format_encrypted(
    alloc: Global,
    object: &[u8],
    given: bool,
    ciphertext: &[u8],
    compact: bool,
    detach: bool,
    text: &mut [u8],
    text_count: &mut usize,
    content: &mut [u8],
    content_count: &mut usize,
) -> u32
    ensures { DeliversBoth (jwe_fmt_answer limits compact detach (if_given given ciphertext.now) object.now)
        (record { old = text.old; new = text.new; count = text_count.new })
        (record { old = content.old; new = content.new; count = content_count.new }) result }
{
    deliver_both(
        encrypted_form(alloc, object, given, ciphertext, compact, detach),
        text,
        text_count,
        content,
        content_count,
    )
}

#[cfg(test)]
mod tests;
