//! Products of polynomials: those of Intel's paper on carry-less multiplication, and that with the most ones in each column.
use crate::expected::expect_same;
use modes::Ghash;

/// The product of two polynomials below x^64, which GHASH does not reduce. Its first bit is the coefficient of x^0.
fn product(x: u64, y: u64) -> u128 {
    let mut ghash = Ghash::start(&(u128::from(x) << 64).to_be_bytes());
    ghash.feed(&(u128::from(y) << 64).to_be_bytes());
    u128::from_be_bytes(ghash.finish())
}

#[test]
fn carry_less_products(rt: HostRuntime) {
    for (x, y, expected) in [
        (
            0x63746f725d53475d,
            0x5b477565726f6e5d,
            0x1d4d84c85c3440c0929633d5d36f0451,
        ),
        (
            0x7b5b546573745665,
            0x4869285368617929,
            0x1d1e1f2c592e7c45d66ee03e410fd4ed,
        ),
        (u64::MAX, u64::MAX, 0x55555555555555555555555555555555),
    ] {
        let found = product(x.reverse_bits(), y.reverse_bits());
        expect_same(&rt, found.reverse_bits(), expected, x);
        let found = product(y.reverse_bits(), x.reverse_bits());
        expect_same(&rt, found.reverse_bits(), expected, y);
    }
}
