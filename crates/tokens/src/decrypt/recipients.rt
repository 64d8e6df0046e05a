//! The pairs of a recipient and a key, tried in order (RFC 7516 section 5.2).
ghost use Rattle.std.specs.Prelude.{◌≡◌, ◌≤◌, true, length, map, take, option_map, Some, IfNone};
ghost use Rattle.keys.specs.Code.Views.{key_view};
ghost use Rattle.keys.specs.Limits.{limits};
ghost use Rattle.objects.specs.Code.KeyManagementView.{is_management_of};
ghost use Rattle.objects.specs.Code.Views.{recipient_view};
ghost use Rattle.tokens.specs.Decrypting.{all_pairs, pairs_of, pairs_with, are_within, first_opened};
ghost use Rattle.tokens.specs.Code.Trying.{AreSalted, AreTried, IsSaltFor, within_after};
ghost use Rattle.tokens.specs.Code.Work.{no_work, with_pairs, IsBounded};
ghost use Rattle.tokens.specs.Code.Views.{algorithms_view, sealed_with_view, work_view};

use crate::algorithms::Algorithms;
use crate::decrypt::pair::Pair;
use crate::decrypt::pairs::algorithms_of;
use crate::decrypt::salted::SaltedKeys;
use crate::decrypt::tried::same_before;
use crate::decrypt::{NO_WORK, SealedWith, Work, open_pair};
use keys::MOST_RECIPIENTS;
use objects::Recipient;

/// Opens the ciphertext where it stands by the first pair that opens it, and answers the length of the plaintext: by the recipients in
/// order, and for each by the keys in order. A recipient that is the same as an earlier one is not tried again, and its work is counted.
pub(crate) fn open_recipients<'x>(
    recipients: &'x [Recipient],
    salted: &mut SaltedKeys<'x>,
    sealed: SealedWith<'_, '_>,
    octets: &mut [u8],
    work: &mut Work,
) -> Option<usize>
    requires few_keys { length salted.old.keys.now ≤ limits.keys }
    requires few { length recipients.now ≤ limits.recipients }
    requires within { are_within limits (all_pairs limits.management (map key_view salted.old.keys.now) (map recipient_view recipients.now)) ≡ true }
    requires salted { AreSalted salted.old }
    requires fresh { work_view work.old ≡ no_work }
    ensures opened { option_map (λ n. take n octets.new) result
        ≡ first_opened (sealed_with_view sealed.entry octets.old)
        (all_pairs limits.management (map key_view salted.old.keys.now) (map recipient_view recipients.entry.now)) }
    ensures work { work_view work.new
        ≡ with_pairs (sealed_with_view sealed.entry octets.old) no_work
        (all_pairs limits.management (map key_view salted.old.keys.now) (map recipient_view recipients.entry.now)) }
    ensures bound { IsBounded (work_view work.new) }
{
    let mut tried = [NO_WORK; MOST_RECIPIENTS];
    for (i, recipient) in recipients.iter().enumerate() {
        let (before, work_before) = (&recipients[..i], &tried[..i]);
        let (opened, done) = open_recipient(recipient, before, work_before, salted, sealed, octets);
        work.add(done);
        if opened.is_some() {
            return opened;
        }
        tried[i] = done;
    }
    None
}

/// Opens the ciphertext by the first pair of a recipient that opens it, and answers the length of the plaintext and the work. The
/// recipients before opened nothing, by the work of each. If one of these is the same, this one is not tried. If no pair opens the
/// ciphertext, the octets are unchanged.
fn open_recipient<'x>(
    recipient: &'x Recipient,
    before: &[Recipient],
    work_before: &[Work],
    salted: &mut SaltedKeys<'x>,
    sealed: SealedWith<'_, '_>,
    octets: &mut [u8],
) -> (Option<usize>, Work)
    requires few_keys { length salted.old.keys.now ≤ limits.keys }
    requires tried { AreTried (sealed_with_view sealed octets.old) (map key_view salted.old.keys.now) work_before.now before.now }
    requires as_many { length work_before.now ≡ length before.now }
    requires within { within_after 0 (pairs_of limits.management (map key_view salted.old.keys.now) (recipient_view recipient.now)) ≡ true }
    requires salted { AreSalted salted.old }
    ensures opened { option_map (λ n. take n octets.new) result.0
        ≡ first_opened (sealed_with_view sealed.entry octets.old)
        (pairs_of limits.management (map key_view salted.old.keys.now) (recipient_view recipient.entry.now)) }
    ensures unchanged { IfNone result.0 (octets.new ≡ octets.old) }
    ensures keys { salted.new.keys ≡ salted.old.keys }
    ensures salted { AreSalted salted.new }
    ensures work { work_view result.1
        ≡ with_pairs (sealed_with_view sealed.entry octets.old) no_work
        (pairs_of limits.management (map key_view salted.old.keys.now) (recipient_view recipient.entry.now)) }
{
    if let Some(j) = same_before(before, recipient) {
        return (None, work_before[j]);
    }
    let mut work = NO_WORK;
    let Some(algorithms) = algorithms_of(recipient) else {
        return (None, work);
    };
    salted.salt_for(recipient.management());
    let opened = open_candidates(recipient, algorithms, salted, sealed, octets, &mut work);
    (opened, work)
}

/// Opens the ciphertext by the first key that may decrypt by the recipient's algorithms, fits, and opens it.
fn open_candidates<'x>(
    recipient: &'x Recipient,
    algorithms: Algorithms,
    salted: &mut SaltedKeys<'x>,
    sealed: SealedWith<'_, '_>,
    octets: &mut [u8],
    work: &mut Work,
) -> Option<usize>
    requires few_keys { length salted.old.keys.now ≤ limits.keys }
    requires of_alg { is_management_of (Some algorithms.management) (recipient_view recipient.now).management ≡ true }
    requires within { within_after 0 (pairs_with (recipient_view recipient.now) (algorithms_view algorithms) (map key_view salted.old.keys.now)) ≡ true }
    requires salted { AreSalted salted.old }
    requires salt { IsSaltFor salted.old.p2s.now (recipient_view recipient.now).management }
    requires fresh { work_view work.old ≡ no_work }
    ensures opened { option_map (λ n. take n octets.new) result
        ≡ first_opened (sealed_with_view sealed.entry octets.old)
        (pairs_with (recipient_view recipient.entry.now) (algorithms_view algorithms) (map key_view salted.old.keys.now)) }
    ensures unchanged { IfNone result (octets.new ≡ octets.old) }
    ensures keys { salted.new.keys ≡ salted.old.keys }
    ensures salted { AreSalted salted.new }
    ensures work { work_view work.new
        ≡ with_pairs (sealed_with_view sealed.entry octets.old) no_work
        (pairs_with (recipient_view recipient.entry.now) (algorithms_view algorithms) (map key_view salted.old.keys.now)) }
{
    let keys = salted.keys;
    for (i, key) in keys.iter().enumerate() {
        let pair = Pair {
            recipient,
            algorithms,
            key,
        };
        let opened = open_pair(
            &pair,
            &keys[..i],
            &mut salted.salted[i],
            sealed,
            octets,
            work,
        );
        if opened.is_some() {
            return opened;
        }
    }
    None
}
