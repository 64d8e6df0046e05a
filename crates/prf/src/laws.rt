//! Laws of the definitions, as contracts of functions that do nothing.
ghost use Rattle.std.specs.Prelude.{ℕ, List};
ghost use Rattle.octets.specs.Octets.{IsOctets};
ghost use Rattle.prf.specs.HashFunction.{HashFunction, IsHashFunction};
ghost use Rattle.prf.specs.Pbkdf2.{pbkdf2};

/// A derived key is octets (RFC 8018 section 5.2).
pub fn derived_key_is_octets()
    ensures { (f : HashFunction) (password salt : List ℕ) (c len : ℕ) → IsHashFunction f
        → IsOctets (pbkdf2 f password salt c len) }
{}
