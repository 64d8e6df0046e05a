//! What a call leaves in the places of its caller.
ghost use Rattle.std.specs.Prelude.{◌≡◌, ◌≢◌, ◌≤◌, [], ◌++◌, ℕ, List, length, drop, false, true, Result};
ghost use Rattle.octets.specs.Outcomes.{GivesUnlessExternal, is_external};
ghost use Rattle.octets.specs.Plan.{OutputTexts};
ghost use Rattle.octets.specs.declared.refusal.Refusal.{Refusal};
ghost use Rattle.lakhdzeva.specs.Answers.{SignedPayload};
ghost use Rattle.lakhdzeva.specs.Calls.{number_of, Tells, Delivers, DeliversBoth, DeliversSigned};
ghost use Rattle.lakhdzeva.specs.Code.{both, payload_of_object, signed_view};

use crate::answers::Both;
use objects::Jws;
use octets::Refusal;

/// The status of a call without a place.
pub(crate) fn told(made: Result<(), Refusal>) -> u32
    ensures { (answer : Result (List ℕ) Refusal) → GivesUnlessExternal (λ _. []) made answer → Tells answer result }
{
    match made {
        Ok(()) => 0,
        Err(refusal) => number(in_memory(refusal)),
    }
}

/// Copies the answer to the front of the place, if there is room.
pub(crate) fn deliver(made: Result<Vec<u8>, Refusal>, place: &mut [u8], count: &mut usize) -> u32
    ensures { (answer : Result (List ℕ) Refusal) → GivesUnlessExternal (λ octets. octets.items) made answer
        → Delivers answer (record { old = place.old; new = place.new; count = count.new }) result }
{
    match made {
        Ok(octets) => {
            *count = octets.len();
            if octets.len() > place.len() {
                return number(Refusal::Write);
            }
            put(&octets, place);
            0
        }
        Err(refusal) => {
            *count = 0;
            number(in_memory(refusal))
        }
    }
}

/// Writes the payload of the object to the front of the place, if there is room.
pub(crate) fn deliver_payload(
    made: Result<Jws<'_>, Refusal>,
    place: &mut [u8],
    count: &mut usize,
) -> u32
    ensures { (answer : Result (List ℕ) Refusal) → GivesUnlessExternal payload_of_object made.entry answer
        → Delivers answer (record { old = place.old; new = place.new; count = count.new }) result }
{
    match made {
        Ok(object) => {
            let payload = object.held_payload();
            *count = payload.len();
            if payload.len() > place.len() {
                return number(Refusal::Write);
            }
            payload.copy_onto(place);
            0
        }
        Err(refusal) => {
            *count = 0;
            number(in_memory(refusal))
        }
    }
}

/// Writes the payload of the object to the front of the place, if there is room, and the place of its signer into `signer`.
pub(crate) fn deliver_signed(
    made: Result<(Jws<'_>, usize), Refusal>,
    place: &mut [u8],
    count: &mut usize,
    signer: &mut usize,
) -> u32
    ensures { (answer : Result SignedPayload Refusal) → GivesUnlessExternal signed_view made.entry answer
        → DeliversSigned answer (record { old = place.old; new = place.new; count = count.new }) signer.new result }
{
    match made {
        Ok((object, first)) => {
            let status = deliver_payload(Ok(object), place, count);
            *signer = if status == 0 { first } else { 0 };
            status
        }
        Err(refusal) => {
            *signer = 0;
            deliver_payload(Err(refusal), place, count)
        }
    }
}

/// Copies both answers to the fronts of their places, if there is room for both.
pub(crate) fn deliver_both(
    made: Result<Both, Refusal>,
    text: &mut [u8],
    text_count: &mut usize,
    content: &mut [u8],
    content_count: &mut usize,
) -> u32
    ensures { (answer : Result OutputTexts Refusal) → GivesUnlessExternal both made answer
        → DeliversBoth answer (record { old = text.old; new = text.new; count = text_count.new })
        (record { old = content.old; new = content.new; count = content_count.new }) result }
{
    match made {
        Ok(both) => {
            *text_count = both.text.len();
            *content_count = both.content.len();
            if both.text.len() > text.len() || both.content.len() > content.len() {
                return number(Refusal::Write);
            }
            put(&both.text, text);
            put(&both.content, content);
            0
        }
        Err(refusal) => {
            *text_count = 0;
            *content_count = 0;
            number(in_memory(refusal))
        }
    }
}

/// Copies the octets to the front of the place.
fn put(octets: &[u8], place: &mut [u8])
    requires { length octets.now ≤ length place.old }
    ensures { place.new ≡ octets.now ++ drop (length octets.now) place.old }
{
    place[..octets.len()].copy_from_slice(octets);
}

/// The cause of a failure, where inputs never fail, and outputs fail only if memory is refused.
fn in_memory(refusal: Refusal) -> Refusal
    ensures memory { is_external refusal ≡ true → result ≡ Refusal.Memory }
    ensures same { is_external refusal ≡ false → result ≡ refusal }
{
    match refusal {
        Refusal::Read | Refusal::Write => Refusal::Memory,
        other => other,
    }
}

/// The number of the refusal.
fn number(refusal: Refusal) -> u32
    ensures is { result ≡ number_of refusal }
    ensures some { result ≢ 0 }
{
    match refusal {
        Refusal::Usage => 1,
        Refusal::Read => 2,
        Refusal::Write => 3,
        Refusal::Memory => 4,
        Refusal::Random => 5,
        Refusal::Base64 => 6,
        Refusal::Json => 7,
        Refusal::Number => 8,
        Refusal::Key => 9,
        Refusal::Form => 10,
        Refusal::Header => 11,
        Refusal::Unsupported => 12,
        Refusal::NoAlgorithm => 13,
        Refusal::KeyDoesNotFit => 14,
        Refusal::Limit => 15,
        Refusal::NotCompact => 16,
        Refusal::NotOpened => 17,
    }
}
