//! Laws of the definitions, as contracts of functions that do nothing.
ghost use Rattle.std.specs.Prelude.{◌≡◌, ◌≢◌, ◌↔◌, ℕ, ◌+◌, ◌^◌, ◌<◌, List, slice_index};
ghost use Rattle.aes.specs.Block.{IsCipher};
ghost use Rattle.aes.specs.Cipher.{IsDecryptedBlock, encrypted_block};
ghost use Rattle.aes.specs.InverseCipher.{inverse_cipher};
ghost use Rattle.aes.specs.KeyExpansion.{key_expansion};
ghost use Rattle.aes.specs.Octet.{octet_product, octet_inverse};
ghost use Rattle.aes.specs.Polynomial.{polynomial_remainder};
ghost use Rattle.aes.specs.PolynomialLaws.{PolynomialLaws};
ghost use Rattle.aes.specs.Remainder.{IsOfDegree, IsRemainder};

/// The inverse of an octet other than 0 is the only octet whose product with it is 1. The inverse of 0 is 0 (FIPS 197 section 4.4).
pub fn inverse_is_unique()
    ensures unique { (x y : ℕ) → x < 256 → y < 256 → x ≢ 0
        → (octet_product x y ≡ 1) ↔ (y ≡ octet_inverse x) }
    ensures zero { octet_inverse 0 ≡ 0 }
{}

/// Under a key of octets no two blocks encrypt to the same block. So decrypting returns the only block that encrypts to the given one
/// (FIPS 197 section 5.3).
pub fn decrypted_block_is_unique()
    ensures { (nk : ℕ) (k c b d : List ℕ) → ((i : ℕ) → slice_index k i < 256)
        → IsDecryptedBlock nk k c b → IsDecryptedBlock nk k c d → b ≡ d }
{}

/// Under a key of octets the cipher sends blocks to blocks, and its inverse undoes it (FIPS 197 section 5.3). So what holds for every
/// cipher holds for AES.
pub fn encrypted_block_is_cipher()
    ensures { (nk : ℕ) (k : List ℕ) → ((i : ℕ) → slice_index k i < 256)
        → IsCipher (encrypted_block nk k) (inverse_cipher (nk + 6) (key_expansion nk k)) }
{}

/// A remainder has a lower degree than the modulus and differs from the dividend by a multiple of it. No other polynomial does.
pub fn remainder_is_unique()
    ensures remainder { (d m k p : ℕ) → IsOfDegree d m → p < 2 ^ (d + k)
        → IsRemainder d m p (polynomial_remainder d m k p) }
    ensures unique { (d m p r s : ℕ) → IsOfDegree d m → IsRemainder d m p r → IsRemainder d m p s → r ≡ s }
{}

/// Laws of sums, products and remainders of polynomials over two elements.
pub fn polynomial_laws()
    ensures { PolynomialLaws }
{}
