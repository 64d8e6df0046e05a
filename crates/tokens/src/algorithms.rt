//! The algorithms of an encrypted object, and the parameters of key management for the ciphers.
ghost use Rattle.std.specs.Prelude.{◌≡◌, ◌≤◌, option_map};
ghost use Rattle.ciphers.specs.Code.Views.{parameters_view};
ghost use Rattle.keys.specs.Limits.{limits};
ghost use Rattle.objects.specs.Code.KeyManagementView.{management_view};
ghost use Rattle.tokens.specs.Algorithms.{parameters_by};
ghost use Rattle.tokens.specs.Decrypting.{algorithms_by, iterations_by};
ghost use Rattle.tokens.specs.Code.Work.{unwraps_of};
ghost use Rattle.tokens.specs.Code.Views.{algorithms_view};

use ciphers::{ContentAlg, KeyAlg, KeyManagementMode, KeyParameters};
use objects::KeyManagement;

/// Both algorithms of an encrypted object.
#[derive(Clone, Copy)]
pub(crate) struct Algorithms {
    pub(crate) management: KeyAlg,
    pub(crate) encryption: ContentAlg,
}

impl Algorithms {
    /// The named algorithms, if both are known.
    pub(crate) fn named(
        management: Option<KeyAlg>,
        encryption: Option<ContentAlg>,
    ) -> Option<Algorithms>
        ensures { option_map algorithms_view result ≡ algorithms_by management encryption }
    {
        let management = management?;
        let encryption = encryption?;
        Some(Algorithms {
            management,
            encryption,
        })
    }
}

/// For an algorithm that reads no parameters.
pub(crate) const NO_PARAMETERS: KeyParameters<'static> = KeyParameters {
    iv: &[],
    tag: &[],
    p2s: &[],
    p2c: 0,
};

/// The parameters of key management in a recipient's header (RFC 7518 section 4).
pub(crate) fn parameters(management: &KeyManagement) -> KeyParameters<'_>
    requires { iterations_by (management_view management.now) ≤ limits.greatest_p2c_read }
    ensures { parameters_view result ≡ parameters_by (management_view management.now) }
{
    match management {
        KeyManagement::Unknown | KeyManagement::Direct | KeyManagement::KeyWrap => NO_PARAMETERS,
        KeyManagement::Password { p2s, p2c } => KeyParameters {
            p2s: p2s.octets(),
            p2c: *p2c as u32,
            ..NO_PARAMETERS
        },
        KeyManagement::GcmKeyWrap { iv, tag } => KeyParameters {
            iv: iv.octets(),
            tag: tag.octets(),
            ..NO_PARAMETERS
        },
    }
}

/// How many encrypted keys are unwrapped: none if the key is used directly.
pub(crate) fn unwraps(alg: KeyAlg) -> u64
    ensures count { result ≡ unwraps_of alg }
    ensures bound { result ≤ 1 }
{
    match alg.mode() {
        KeyManagementMode::Direct => 0,
        KeyManagementMode::KeyWrap | KeyManagementMode::Password | KeyManagementMode::GcmKeyWrap =>
            1,
    }
}
