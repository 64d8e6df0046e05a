//! Polynomials of degree below 256, as products are before their reduction (SP 800-38D section 6.3).
ghost use Rattle.std.specs.Prelude.{◌≡◌, ◌*◌, ◌/◌, ◌%◌, ◌^◌, ◌<◌, bit_xor};
ghost use Rattle.aes.specs.Polynomial.{polynomial_product};
ghost use Rattle.modes.specs.Code.Shifts.{shifts};

use crate::polynomial_product::sum_of_products;
use aes::laws::polynomial_laws;
use std::marker::Model;

/// The first 128 coefficients as a block, and those from x ^ 128 on as another. Contracts see one number of 256 bits.
#[derive(Drop)]
pub(crate) struct Unreduced {
    high: u128,
    low: u128,
}

impl Model for Unreduced {
    ghost use Rattle.std.specs.Prelude.{ℕ, ◌+◌, ◌*◌, ◌^◌};

    ghost Value = { ℕ };

    ghost view = { λ p. p.high * 2 ^ 128 + p.low };
}

impl Unreduced {
    /// The sum of the product of `a` and `x` and that of `b` and `y`, by Karatsuba's three products of halves.
    #[inline(always)]
    pub(crate) fn sum_of_products(a: u128, x: u128, b: u128, y: u128) -> Unreduced
        ensures { result ≡ bit_xor (polynomial_product 128 a x) (polynomial_product 128 b y) }
    {
        let (a1, a0, x1, x0) = (high_half(a), low_half(a), high_half(x), low_half(x));
        let (b1, b0, y1, y0) = (high_half(b), low_half(b), high_half(y), low_half(y));
        let front = sum_of_products(a1, x1, b1, y1);
        let back = sum_of_products(a0, x0, b0, y0);
        let middle = sum_of_products(a1 ^ a0, x1 ^ x0, b1 ^ b0, y1 ^ y0) ^ front ^ back;
        Unreduced {
            high: front ^ (middle >> 64),
            low: back ^ (middle << 64),
        }
    }

    /// This shifted to the left by one bit.
    #[inline(always)]
    pub(crate) fn doubled(self) -> Unreduced
        requires { self < 2 ^ 255 }
        ensures { result ≡ self * 2 }
    {
        Unreduced {
            high: (self.high << 1) ^ (self.low >> 127),
            low: self.low << 1,
        }
    }

    /// The remainder as a block: x ^ 128 is replaced by 1 + x + x ^ 2 + x ^ 7.
    #[inline(always)]
    pub(crate) fn reduced(self) -> u128
        ensures { result ≡ shifts self 128 }
    {
        polynomial_laws();
        let low = self.low;
        // The terms that this adds from x ^ 128 on are replaced once more.
        let whole = low ^ (low << 127) ^ (low << 126) ^ (low << 121);
        self.high ^ (whole ^ (whole >> 1) ^ (whole >> 2) ^ (whole >> 7))
    }
}

#[inline(always)]
fn high_half(x: u128) -> u64
    ensures { result ≡ x / 2 ^ 64 }
{
    (x >> 64) as u64
}

#[inline(always)]
fn low_half(x: u128) -> u64
    ensures { result ≡ x % 2 ^ 64 }
{
    (x & 0xffff_ffff_ffff_ffff) as u64
}
