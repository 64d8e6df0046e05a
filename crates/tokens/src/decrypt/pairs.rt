//! The pairs of a recipient and a key that are tried (RFC 7516 section 5.2).
ghost use Rattle.std.specs.Prelude.{◌≡◌, ◌+◌, ◌≤◌, true, false, length, map, is_some, option_map, Some, IfSome, IfNone, IfOk};
ghost use Rattle.std.specs.List.{list_any};
ghost use Rattle.octets.specs.Code.Results.{Agrees};
ghost use Rattle.keys.specs.Code.Views.{key_view};
ghost use Rattle.objects.specs.Code.Views.{recipient_view};
ghost use Rattle.keys.specs.declared.algorithm.Algorithm.TheVariants.{Encryption};
ghost use Rattle.keys.specs.Keys.{fits};
ghost use Rattle.keys.specs.Limits.{limits};
ghost use Rattle.objects.specs.Code.KeyManagementView.{management_view, is_management_of};
ghost use Rattle.tokens.specs.Decrypting.{with_iterations, pairs_to_try, all_pairs, all_iterations, has_pairs, pairs_of, algorithms_of, is_candidate, are_within, iterations_by};
ghost use Rattle.tokens.specs.Code.Trying.{within_to};
ghost use Rattle.tokens.specs.Code.Views.{algorithms_view};

use crate::algorithms::Algorithms;
use ciphers::{ContentAlg, KeyAlg};
use keys::{Algorithm, GREATEST_P2C_READ, Key, MOST_ITERATIONS, Operation};
use objects::{KeyManagement, Recipient};
use octets::{Refusal, needs};

/// Judges the pairs of a recipient and a key: by the recipients in order, and for each by the keys in order that may decrypt by its
/// algorithms and fit. Refuses with `Unsupported` if no recipient's algorithms are supported; then with `KeyDoesNotFit` if there is no
/// pair; and then with `Limit` if a pair needs too many iterations, or all of them need more than `most_iterations` or `MOST_ITERATIONS`.
#[tactic(auto, unfolding(crate::specs::Decrypting::pairs_to_try), using(crate::proofs::Elements::views, crate::proofs::Decrypting::Pairs::fewer_are_within))]
pub(crate) fn judge_pairs(
    keys: &[Key],
    recipients: &[Recipient],
    most_iterations: u64,
) -> Result<(), Refusal>
    requires { length keys.now ≤ limits.keys }
    ensures exact { Agrees (λ done. all_pairs limits.management (map key_view keys.now) (map recipient_view recipients.now)) result
        (pairs_to_try (with_iterations most_iterations limits) (map key_view keys.now) (map recipient_view recipients.now)) }
    ensures within { IfOk result (λ done. are_within limits (all_pairs limits.management (map key_view keys.now) (map recipient_view recipients.now)) ≡ true) }
{
    needs(has_supported(recipients), Refusal::Unsupported)?;
    needs(has_pairs(keys, recipients), Refusal::KeyDoesNotFit)?;
    let within = are_within(keys, recipients, most_iterations);
    needs(within, Refusal::Limit)
}

/// Whether there is a pair.
fn has_pairs(keys: &[Key], recipients: &[Recipient]) -> bool
    ensures { result ≡ has_pairs (all_pairs limits.management (map key_view keys.now) (map recipient_view recipients.now)) }
{
    recipients
        .iter()
        .any(|recipient| pair_count(keys, recipient) > 0)
}

/// Whether the iterations of each pair, and of all together, are within the limits, and all together at most `most_iterations`.
#[tactic(auto, using(crate::proofs::Decrypting::Pairs::added_iterations))]
fn are_within(keys: &[Key], recipients: &[Recipient], most_iterations: u64) -> bool
    requires { length keys.now ≤ limits.keys }
    ensures { result ≡ are_within (with_iterations most_iterations limits) (all_pairs limits.management (map key_view keys.now) (map recipient_view recipients.now)) }
{
    let most = most_iterations.min(MOST_ITERATIONS);
    let mut sum = 0;
    for recipient in recipients {
        match sum_with(sum, keys, recipient, most) {
            None => return false,
            Some(more) => sum = more,
        }
    }
    true
}

/// The sum with the iterations of a recipient's pairs. `None` if one of them is above its limit, or the new sum above `most`.
#[tactic(auto, using(crate::proofs::Decrypting::Pairs::same_iterations))]
fn sum_with(sum: u64, keys: &[Key], recipient: &Recipient, most: u64) -> Option<u64>
    requires few { length keys.now ≤ limits.keys }
    requires so_far { sum ≤ most }
    requires bounded { most ≤ limits.p2c_sum }
    ensures within { IfSome result (λ more. (within_to most sum (pairs_of limits.management (map key_view keys.now) (recipient_view recipient.now)) ≡ true)
        × (more ≡ sum + all_iterations (pairs_of limits.management (map key_view keys.now) (recipient_view recipient.now)))) }
    ensures above { IfNone result (within_to most sum (pairs_of limits.management (map key_view keys.now) (recipient_view recipient.now)) ≡ false) }
    ensures limit { IfSome result (λ more. more ≤ most) }
{
    let pairs = pair_count(keys, recipient);
    if pairs == 0 {
        return Some(sum);
    }
    let count = iterations_by(recipient.management());
    if count > GREATEST_P2C_READ {
        return None;
    }
    let more = sum + count * pairs as u64;
    if more > most { None } else { Some(more) }
}

/// The number of the pairs of a recipient.
fn pair_count(keys: &[Key], recipient: &Recipient) -> usize
    ensures count { result ≡ length (pairs_of limits.management (map key_view keys.now) (recipient_view recipient.now)) }
    ensures few { result ≤ length keys.now }
{
    match algorithms_of(recipient) {
        None => 0,
        Some(algorithms) => keys
            .iter()
            .filter(|key| is_candidate(algorithms, key))
            .count(),
    }
}

/// The iterations of PBKDF2 for a recipient (RFC 7518 section 4.8.1.2), which are 0 unless its key is a password.
fn iterations_by(management: &KeyManagement) -> u64
    ensures { result ≡ iterations_by (management_view management.now) }
{
    match management {
        KeyManagement::Unknown
        | KeyManagement::Direct
        | KeyManagement::KeyWrap
        | KeyManagement::GcmKeyWrap { .. } => 0,
        KeyManagement::Password { p2c, .. } => *p2c,
    }
}

/// Whether the algorithms of some recipient are supported.
fn has_supported(recipients: &[Recipient]) -> bool
    ensures { result ≡ list_any (λ r. is_some (algorithms_of limits.management (recipient_view r))) recipients.now }
{
    recipients
        .iter()
        .any(|recipient| algorithms_of(recipient).is_some())
}

/// The algorithms of a recipient, if both are supported.
#[tactic(auto, unfolding(crate::specs::Decrypting::algorithms_of))]
pub(crate) fn algorithms_of(recipient: &Recipient) -> Option<Algorithms>
    ensures named { option_map algorithms_view result ≡ algorithms_of limits.management (recipient_view recipient.now) }
    ensures of_alg { IfSome result (λ a. is_management_of (Some a.management) (recipient_view recipient.now).management ≡ true) }
{
    Algorithms::named(
        KeyAlg::named(recipient.alg()),
        ContentAlg::named(recipient.enc()),
    )
}

/// Whether the key may decrypt by the algorithms and fits.
#[tactic(auto, unfolding(crate::specs::Decrypting::is_candidate))]
pub(crate) fn is_candidate(algorithms: Algorithms, key: &Key) -> bool
    ensures candidate { result ≡ is_candidate (algorithms_view algorithms) (key_view key.now) }
    ensures fits { result ≡ true → fits (key_view key.now) (Encryption algorithms.management algorithms.encryption) ≡ true }
{
    let Algorithms {
        management,
        encryption,
    } = algorithms;
    key.allows(Operation::of_management(management).1)
        && key.fits(Algorithm::Encryption(management, encryption))
}
