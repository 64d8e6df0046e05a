//! Laws of the definitions, as contracts of functions that do nothing.
ghost use Rattle.std.specs.Prelude.{◌≡◌, ℕ, List};
ghost use Rattle.aes.specs.Block.{IsBlock, IsCipher};
ghost use Rattle.modes.specs.Cbc.{cbc};
ghost use Rattle.modes.specs.Gcm.{gcm_ciphertext};
ghost use Rattle.octets.specs.Octets.{IsOctets};

/// No two plaintexts have the same ciphertext, so `cbc_open` returns what was encrypted.
pub fn cbc_plaintext_is_unique()
    ensures { (e d : List ℕ → List ℕ) (iv p q : List ℕ) → IsCipher e d → IsBlock iv
        → IsOctets p → IsOctets q → cbc e iv p ≡ cbc e iv q → p ≡ q }
{}

/// No two plaintexts have the same ciphertext, so `gcm_open` returns what was encrypted.
pub fn gcm_plaintext_is_unique()
    ensures { (e : List ℕ → List ℕ) (iv p q : List ℕ) → gcm_ciphertext e iv p ≡ gcm_ciphertext e iv q → p ≡ q }
{}
