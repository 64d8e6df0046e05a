//! Key management with the name of its algorithm.
ghost use Rattle.std.specs.Prelude.{◌≡◌, true};
ghost use Rattle.ciphers.specs.Algorithms.{management_alg_of};
ghost use Rattle.objects.specs.Code.KeyManagementView.{management_view, is_management_of};

use crate::KeyManagement;
use crate::shared::SharedText;

/// The name of an algorithm, and what a joint header says of it.
#[derive(Drop)]
pub(crate) struct NamedManagement {
    pub(crate) alg: SharedText,
    pub(crate) management: KeyManagement,
    ghost of_alg: { is_management_of (management_alg_of alg) (management_view management) ≡ true },
}
