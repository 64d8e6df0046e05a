//! Recipients and keys that open the same as earlier ones.
ghost use Rattle.std.specs.Prelude.{◌≡◌, ◌<◌, ◌&&◌, length, IfSome, IsTrue, slice_index_or};
ghost use Rattle.std.specs.List.{list_any};
ghost use Rattle.std.specs.Str.{bytes_eq};
ghost use Rattle.keys.specs.Code.Views.{key_view};
ghost use Rattle.objects.specs.Code.KeyManagementView.{management_view};
ghost use Rattle.objects.specs.Code.Views.{recipient_view};
ghost use Rattle.tokens.specs.Decrypting.{is_candidate as is_candidate_key};
ghost use Rattle.tokens.specs.Code.Trying.{OpenAlike};
ghost use Rattle.tokens.specs.Code.Views.{algorithms_view};

use crate::algorithms::Algorithms;
use crate::decrypt::pairs::{algorithms_of, is_candidate};
use keys::Key;
use objects::{KeyManagement, Recipient};
use octets::same_octets;

/// The most octets of an encrypted key, and of the initialization vector and the tag of AES-GCM key wrap. Longer ones deliver nothing, so
/// they are not compared.
const MOST_ENCRYPTED_KEY: usize = 72;

const MOST_IV: usize = 12;

const MOST_TAG: usize = 16;

/// The number of a recipient that opens the same as this one, if there is one among those. The last is compared first, since a repeated
/// recipient often follows itself.
pub(crate) fn same_before(recipients: &[Recipient], recipient: &Recipient) -> Option<usize>
    ensures within { IfSome result (λ j. j < length recipients.now) }
    ensures same { IfSome result (λ j. OpenAlike (recipient_view (slice_index_or recipients.now j recipient.now)) (recipient_view recipient.now)) }
{
    for i in (0..recipients.len()).rev() {
        if open_alike(&recipients[i], recipient) {
            return Some(i);
        }
    }
    None
}

/// Whether both recipients have the same encrypted key, parameters and algorithms. What differs most often is compared first.
fn open_alike(one: &Recipient, other: &Recipient) -> bool
    ensures { IsTrue result → OpenAlike (recipient_view one.now) (recipient_view other.now) }
{
    if one.encrypted_key().len() > MOST_ENCRYPTED_KEY {
        return false;
    }
    if !same_octets(one.encrypted_key(), other.encrypted_key()) {
        return false;
    }
    if !has_same_parameters(one.management(), other.management()) {
        return false;
    }
    match (algorithms_of(one), algorithms_of(other)) {
        (Some(one), Some(other)) => one.management == other.management
            && one.encryption == other.encryption,
        _ => false,
    }
}

/// Whether one of the keys is a candidate with the octets of this one.
pub(crate) fn was_tried(keys: &[Key], algorithms: Algorithms, key: &Key) -> bool
    ensures { result ≡ list_any
        (λ k. bytes_eq (key_view k).octets (key_view key.now).octets && is_candidate_key (algorithms_view algorithms) (key_view k)) keys.now }
{
    keys.iter().any(|earlier| {
        same_octets(earlier.octets(), key.octets()) && is_candidate(algorithms, earlier)
    })
}

/// Whether both deliver a content encryption key in the same way, with the same parameters.
fn has_same_parameters(one: &KeyManagement, other: &KeyManagement) -> bool
    ensures { IsTrue result → management_view one.now ≡ management_view other.now }
{
    match (one, other) {
        (KeyManagement::Direct, KeyManagement::Direct) => true,
        (KeyManagement::KeyWrap, KeyManagement::KeyWrap) => true,
        (
            KeyManagement::Password { p2s, p2c },
            KeyManagement::Password {
                p2s: other_p2s,
                p2c: other_p2c,
            },
        ) => p2c == other_p2c && same_octets(p2s.octets(), other_p2s.octets()),
        (
            KeyManagement::GcmKeyWrap { iv, tag },
            KeyManagement::GcmKeyWrap {
                iv: other_iv,
                tag: other_tag,
            },
        ) => iv.octets().len() <= MOST_IV
            && tag.octets().len() <= MOST_TAG
            && same_octets(iv.octets(), other_iv.octets())
            && same_octets(tag.octets(), other_tag.octets()),
        (KeyManagement::Unknown, _)
        | (KeyManagement::Direct, _)
        | (KeyManagement::KeyWrap, _)
        | (KeyManagement::Password { .. }, _)
        | (KeyManagement::GcmKeyWrap { .. }, _) => false,
    }
}
