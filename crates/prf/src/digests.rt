//! The digests of whole messages, by the kit's `sha2`.
ghost use Rattle.std.specs.Prelude.{◌≡◌, take, drop};
ghost use Rattle.prf.specs.Digests.{digest_of};
ghost use Rattle.prf.specs.Code.Views.{digest_len};

use crate::hash::put_front;
use sha2::{Digest, Sha224, Sha256, Sha384, Sha512};

/// A hash function of SHA-2 (FIPS 180-4).
#[derive(Clone, Copy, Debug, PartialEq, Eq)]
pub enum HashAlg {
    /// SHA-224.
    S224,
    /// SHA-256.
    S256,
    /// SHA-384.
    S384,
    /// SHA-512.
    S512,
}

/// Writes the digest of the octets to the front of `out` and returns its length. The rest of `out` is unchanged.
pub fn digest(hash: HashAlg, octets: &[u8], out: &mut [u8; 64]) -> usize
    ensures digest { take result out.new ≡ digest_of hash octets.now }
    ensures len { result ≡ digest_len hash }
    ensures rest { drop result out.new ≡ drop result out.old }
{
    match hash {
        HashAlg::S224 => put_front(&Sha224::digest(octets), out),
        HashAlg::S256 => put_front(&Sha256::digest(octets), out),
        HashAlg::S384 => put_front(&Sha384::digest(octets), out),
        HashAlg::S512 => put_front(&Sha512::digest(octets), out),
    }
}
