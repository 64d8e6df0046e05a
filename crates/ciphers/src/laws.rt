//! Laws of the definitions in `specs/`: functions that do nothing, whose contracts are the laws.
ghost use Rattle.std.specs.Prelude.{◌≡◌, ℕ, ◌≤◌, List, length};
ghost use Rattle.aes.specs.Block.{IsCipher};
ghost use Rattle.ciphers.specs.Delivery.{Parameters, IsDelivered, key_tag_of};
ghost use Rattle.ciphers.specs.KeyWrap.{IsUnwrapping};
ghost use Rattle.ciphers.specs.Openings.{OpensExactly, DeliversExactly};
ghost use Rattle.ciphers.specs.Sealing.{IsOpening};
ghost use Rattle.ciphers.specs.declared.content_alg.ContentAlg.{ContentAlg};
ghost use Rattle.ciphers.specs.declared.key_alg.KeyAlg.{KeyAlg};
ghost use Rattle.octets.specs.Octets.{IsOctets};

use aes::laws::encrypted_block_is_cipher;
use modes::laws::{cbc_plaintext_is_unique, gcm_plaintext_is_unique};
use octets::laws::search_finds_octets;
use prf::laws::derived_key_is_octets;

/// No two key data have the same wrapping of at most 72 octets, so `unwrap` returns the key data that was wrapped (RFC 3394 section 2.2).
pub fn unwrapping_is_unique()
    ensures { (e d : List ℕ → List ℕ) (c p q : List ℕ) → IsCipher e d → length c ≤ 72
        → IsUnwrapping e c p → IsUnwrapping e c q → p ≡ q }
{}

/// A recipient's key, its header parameters and an encrypted key deliver at most one content encryption key, so `KeyAlg::unwrap_cek`
/// returns the one that was encrypted (RFC 7516 section 5.2).
pub fn delivery_is_unique()
    ensures { (alg : KeyAlg) (enc : ContentAlg) (key : List ℕ) (p : Parameters) (encrypted cek other : List ℕ)
        → IsOctets key → IsDelivered alg enc key p encrypted cek
        → IsDelivered alg enc key p encrypted other → cek ≡ other }
{
    encrypted_block_is_cipher();
    derived_key_is_octets();
    gcm_plaintext_is_unique();
}

/// At most one plaintext has a ciphertext and a tag, so `ContentAlg::open` returns the one that was encrypted.
pub fn opening_is_unique()
    ensures { (alg : ContentAlg) (cek iv aad c tag p q : List ℕ) → IsOctets cek → IsOctets iv
        → IsOpening alg cek iv aad c tag p → IsOpening alg cek iv aad c tag q → p ≡ q }
{
    encrypted_block_is_cipher();
    cbc_plaintext_is_unique();
    gcm_plaintext_is_unique();
}

/// The function `opening` gives exactly the plaintext that was encrypted, and nothing if there is none.
pub fn opens_exactly()
    ensures { OpensExactly }
{
    encrypted_block_is_cipher();
    search_finds_octets();
    opening_is_unique();
}

/// The function `delivered` gives exactly the content encryption key that was encrypted, and nothing if there is none.
pub fn delivers_exactly()
    ensures { DeliversExactly }
{
    search_finds_octets();
    delivery_is_unique();
}

/// The ciphertext and the tag of a plaintext of octets are octets.
pub fn what_is_opened_is_octets()
    ensures { (alg : ContentAlg) (cek iv aad c tag p : List ℕ) → IsOctets cek → IsOctets iv
        → IsOpening alg cek iv aad c tag p → IsOctets c × IsOctets tag }
{
    encrypted_block_is_cipher();
}

/// An encrypted key that delivers a content encryption key is octets, and so is its tag.
pub fn what_delivers_is_octets()
    ensures { (alg : KeyAlg) (enc : ContentAlg) (key : List ℕ) (p : Parameters) (encrypted cek : List ℕ) → IsOctets key → IsOctets p.iv
        → IsDelivered alg enc key p encrypted cek → IsOctets encrypted × IsOctets (key_tag_of alg key p cek) }
{
    encrypted_block_is_cipher();
    derived_key_is_octets();
}
