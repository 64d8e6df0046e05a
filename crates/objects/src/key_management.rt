//! How a recipient's key delivers the content encryption key (RFC 7518 section 4), as a joint header says.
ghost use Rattle.std.specs.Prelude.{◌≡◌, true, IfOk};
ghost use Rattle.octets.specs.Code.Results.{AgreesUnlessMemory};
ghost use Rattle.ciphers.specs.Algorithms.{management_alg_of};
ghost use Rattle.keys.specs.Limits.{limits};
ghost use Rattle.objects.specs.KeyManagement.{key_management, management_by, management_in, password_management, gcm_management};
ghost use Rattle.objects.specs.Code.SharedParameters.{AreReadIn};
ghost use Rattle.objects.specs.Code.KeyManagementView.{management_view, is_management_of};
ghost use Rattle.objects.specs.Code.Views.{header_view};

pub(crate) mod named;

use crate::header::shared::SharedParameters;
use crate::{Header, SharedOctets};
use ciphers::{KeyAlg, KeyManagementMode};
use octets::{Refusal, needs};
use std::alloc::Global;

/// How a recipient's key delivers the content encryption key (RFC 7518 section 4), with the header parameters that its algorithm reads.
#[derive(Drop)]
pub enum KeyManagement {
    /// An algorithm that is not known; none of its parameters is read.
    Unknown,
    /// The key is the content encryption key (section 4.5).
    Direct,
    /// AES key wrap (section 4.4).
    KeyWrap,
    /// Key wrap with a key that is derived from a password (section 4.8).
    Password {
        /// The salt input, of 8 octets or more (section 4.8.1.1).
        p2s: SharedOctets,
        /// The count of iterations of PBKDF2, which is 1 or more (section 4.8.1.2).
        p2c: u64,
    },
    /// Key wrap by AES in GCM (section 4.7).
    GcmKeyWrap {
        /// The initialization vector, of any length (section 4.7.1.1). It delivers nothing unless it has 12 octets.
        iv: SharedOctets,
        /// The tag, of any length (section 4.7.1.2). It delivers nothing unless it has 16 octets.
        tag: SharedOctets,
    },
}

/// What a header says, by the name of its algorithm. Some of its parameters may have been read before.
pub(crate) fn read_key_management(
    alloc: Global,
    alg: &str,
    header: Header<'_>,
    shared: &SharedParameters,
) -> Result<KeyManagement, Refusal>
    requires { AreReadIn (header_view header) shared.now }
    ensures exact { AgreesUnlessMemory management_view result (key_management limits.management alg.now (header_view header.entry)) }
    ensures of_alg { IfOk result (λ management. is_management_of (management_alg_of alg.now) (management_view management) ≡ true) }
{
    read_management(alloc, KeyAlg::named(alg), header, shared)
}

/// What a header says, by its algorithm.
fn read_management(
    alloc: Global,
    alg: Option<KeyAlg>,
    header: Header<'_>,
    shared: &SharedParameters,
) -> Result<KeyManagement, Refusal>
    requires { AreReadIn (header_view header) shared.now }
    ensures { AgreesUnlessMemory management_view result (management_by alg (header_view header.entry)) }
{
    match alg {
        None => Ok(KeyManagement::Unknown),
        Some(alg) => management_in(alloc, alg.mode(), header, shared),
    }
}

/// What a header says, by the mode of its algorithm.
fn management_in(
    alloc: Global,
    mode: KeyManagementMode,
    header: Header<'_>,
    shared: &SharedParameters,
) -> Result<KeyManagement, Refusal>
    requires { AreReadIn (header_view header) shared.now }
    ensures { AgreesUnlessMemory management_view result (management_in mode (header_view header.entry)) }
{
    match mode {
        KeyManagementMode::Direct => Ok(KeyManagement::Direct),
        KeyManagementMode::KeyWrap => Ok(KeyManagement::KeyWrap),
        KeyManagementMode::Password => read_password(alloc, header, shared),
        KeyManagementMode::GcmKeyWrap => read_gcm_key_wrap(alloc, header, shared),
    }
}

/// The parameters of a password (section 4.8.1).
#[tactic(auto, unfolding(crate::specs::KeyManagement::password_management))]
fn read_password(
    alloc: Global,
    header: Header<'_>,
    shared: &SharedParameters,
) -> Result<KeyManagement, Refusal>
    requires { AreReadIn (header_view header) shared.now }
    ensures { AgreesUnlessMemory management_view result (password_management (header_view header.entry)) }
{
    let p2s = shared.p2s(alloc, header)?.ok_or(Refusal::Header)?;
    let p2c = header.p2c()?.ok_or(Refusal::Header)?;
    needs(p2c >= 1, Refusal::Header)?;
    Ok(KeyManagement::Password { p2s, p2c })
}

/// The parameters of AES-GCM key wrap (section 4.7.1).
#[tactic(auto, unfolding(crate::specs::KeyManagement::gcm_management))]
fn read_gcm_key_wrap(
    alloc: Global,
    header: Header<'_>,
    shared: &SharedParameters,
) -> Result<KeyManagement, Refusal>
    requires { AreReadIn (header_view header) shared.now }
    ensures { AgreesUnlessMemory management_view result (gcm_management (header_view header.entry)) }
{
    let iv = shared.iv(alloc, header)?.ok_or(Refusal::Header)?;
    let tag = shared.tag(alloc, header)?.ok_or(Refusal::Header)?;
    Ok(KeyManagement::GcmKeyWrap { iv, tag })
}
