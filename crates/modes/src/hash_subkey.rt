//! Products of blocks and the hash subkey (SP 800-38D section 6.3).
ghost use Rattle.std.specs.Prelude.{◌≡◌, bit_xor};
ghost use Rattle.modes.specs.Ghash.{block_product};

use crate::unreduced::Unreduced;
use aes::laws::polynomial_laws;

/// The hash subkey H, and its square.
#[derive(Drop)]
pub(crate) struct HashSubkey {
    h: u128,
    square: u128,
    ghost square_of_h: { square ≡ block_product h h },
}

impl HashSubkey {
    /// Makes the square, once for all blocks.
    pub(crate) fn new(h: u128) -> HashSubkey
        ensures { result.h ≡ h }
    {
        let square = times(h, h);
        HashSubkey { h, square }
    }

    /// The product of the block and H.
    #[inline(always)]
    pub(crate) fn times(&self, block: u128) -> u128
        ensures { result ≡ block_product block self.now.h }
    {
        times(block, self.h)
    }

    /// The product of H and the sum of `b` and the product of `a` and H: two blocks in one reduction, with the square for the first.
    #[inline(always)]
    pub(crate) fn times_both(&self, a: u128, b: u128) -> u128
        ensures { result ≡ block_product (bit_xor (block_product a self.now.h) b) self.now.h }
    {
        polynomial_laws();
        sum_of_products(a, self.square, b, self.h)
    }
}

/// The product of two blocks.
#[inline(always)]
fn times(block: u128, h: u128) -> u128
    ensures { result ≡ block_product block h }
{
    polynomial_laws();
    sum_of_products(block, h, 0, 0)
}

/// The sum of the product of the blocks `a` and `x` and that of `b` and `y`. Bit i of a block is the coefficient of x ^ (127 - i). If it is
/// taken for that of x ^ i, the product has the same coefficients in reverse, and is one bit short of 256.
#[inline(always)]
fn sum_of_products(a: u128, x: u128, b: u128, y: u128) -> u128
    ensures { result ≡ bit_xor (block_product a x) (block_product b y) }
{
    polynomial_laws();
    Unreduced::sum_of_products(a, x, b, y).doubled().reduced()
}
