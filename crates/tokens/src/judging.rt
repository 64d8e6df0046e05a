//! What a key may do by some algorithm. A service asks it once, when it reads its keys, and not at the first object.
ghost use Rattle.std.specs.Prelude.{◌≡◌};
ghost use Rattle.std.specs.List.{list_any};
ghost use Rattle.ciphers.specs.Algorithms.{encryption_algs};
ghost use Rattle.keys.specs.Code.Views.{key_view};
ghost use Rattle.tokens.specs.Choosing as choosing;
ghost use Rattle.tokens.specs.Decrypting as decrypting;
ghost use Rattle.tokens.specs.Judging.{may_sign, may_verify, may_encrypt, may_decrypt, uses_of};
ghost use Rattle.tokens.specs.Code.Uses.{uses_view};

use ciphers::{ContentAlg, KeyAlg};
use keys::{Algorithm, Key, Operation, SignatureAlg};

/// What a key may do by some algorithm: its `use`, `key_ops` and `alg` allow it, and its length fits.
#[derive(Clone, Copy, Debug, PartialEq, Eq)]
pub struct KeyUses {
    pub sign: bool,
    pub verify: bool,
    pub encrypt: bool,
    pub decrypt: bool,
}

/// What the key may do. A key that may do nothing is of no use to any call, though it is a good octet key.
pub fn key_uses(key: &Key) -> KeyUses
    ensures { uses_view result ≡ uses_of (key_view key.now) }
{
    KeyUses {
        sign: may_sign(key),
        verify: may_verify(key),
        encrypt: may_encrypt(key),
        decrypt: may_decrypt(key),
    }
}

/// Whether the key may sign by some algorithm, and fits.
#[tactic(auto, unfolding(crate::specs::Judging::may_sign))]
fn may_sign(key: &Key) -> bool
    ensures { result ≡ may_sign (key_view key.now) }
{
    SignatureAlg::all().iter().any(|alg| key.allows(Operation::Sign)
        && key.fits(Algorithm::Signature(*alg)))
}

/// Whether the key may verify by some algorithm, and fits.
#[tactic(auto, unfolding(crate::specs::Judging::may_verify))]
fn may_verify(key: &Key) -> bool
    ensures { result ≡ may_verify (key_view key.now) }
{
    SignatureAlg::all().iter().any(|alg| key.allows(Operation::Verify)
        && key.fits(Algorithm::Signature(*alg)))
}

/// Whether the key may encrypt by some algorithms, and fits.
#[tactic(auto, unfolding(crate::specs::Judging::may_encrypt))]
fn may_encrypt(key: &Key) -> bool
    ensures { result ≡ may_encrypt (key_view key.now) }
{
    KeyAlg::all()
        .iter()
        .any(|management| may_encrypt_by(*management, key))
}

/// Whether the key may encrypt by this key management and some content encryption, and fits.
fn may_encrypt_by(management: KeyAlg, key: &Key) -> bool
    ensures { result ≡ list_any (λ enc. choosing.may_encrypt enc (record { key = key_view key.now; management = management })) encryption_algs }
{
    ContentAlg::all().iter().any(|encryption| {
        key.allows(Operation::of_management(management).0)
            && key.fits(Algorithm::Encryption(management, *encryption))
    })
}

/// Whether the key may decrypt by some algorithms, and fits.
#[tactic(auto, unfolding(crate::specs::Judging::may_decrypt))]
fn may_decrypt(key: &Key) -> bool
    ensures { result ≡ may_decrypt (key_view key.now) }
{
    KeyAlg::all()
        .iter()
        .any(|management| may_decrypt_by(*management, key))
}

/// Whether the key may decrypt by this key management and some content encryption, and fits.
#[tactic(auto, unfolding(crate::specs::Decrypting::is_candidate))]
fn may_decrypt_by(management: KeyAlg, key: &Key) -> bool
    ensures { result ≡ list_any (λ enc. decrypting.is_candidate (record { management = management; encryption = enc }) (key_view key.now)) encryption_algs }
{
    ContentAlg::all().iter().any(|encryption| {
        key.allows(Operation::of_management(management).1)
            && key.fits(Algorithm::Encryption(management, *encryption))
    })
}
