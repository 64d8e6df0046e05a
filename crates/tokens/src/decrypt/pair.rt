//! A recipient, and a key that is tried for it.
ghost use Rattle.std.specs.Prelude.{◌≡◌, Some, true};
ghost use Rattle.objects.specs.Code.KeyManagementView.{is_management_of};
ghost use Rattle.objects.specs.Code.Views.{recipient_view};

use crate::algorithms::Algorithms;
use keys::Key;
use objects::Recipient;

/// A recipient, its algorithms, and a key of the set.
#[derive(Drop)]
pub(crate) struct Pair<'a> {
    pub(crate) recipient: &'a Recipient,
    pub(crate) algorithms: Algorithms,
    pub(crate) key: &'a Key,
    ghost of_alg: { is_management_of (Some algorithms.management) (recipient_view recipient.now).management ≡ true },
}
