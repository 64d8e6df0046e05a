//! Sums and comparisons of octet strings.
use crate::expected::{expect_octets, expect_same};
use crate::octets_tests::whole::{long_octets, repeated};
use octets::{same_octets, xor_into};
use std::test::Fail;

#[test]
fn long_octets_are_added_and_compared(rt: HostRuntime) -> Result<(), Fail> {
    let octets = long_octets(rt.alloc())?;
    let mut other = repeated(rt.alloc(), b"oof", 700_000, b"o")?;
    assert!(rt; !same_octets(&octets, &other));
    assert!(rt; octets.len() == other.len());
    xor_into(&mut other, &octets);
    // 'o' ^ 'f' is 9.
    let sum = repeated(rt.alloc(), b"\x09\x00\x09", 700_000, b"\x09")?;
    expect_octets(&rt, &other, &sum);
    assert!(rt; same_octets(&other, &sum));
    Ok(())
}

#[test]
fn octet_strings_are_added_and_compared(rt: HostRuntime) {
    let mut octets = *b"\x00\x0f\xff";
    xor_into(&mut octets, b"\xf0\xff\xff");
    expect_octets(&rt, &octets, b"\xf0\xf0\x00");
    xor_into(&mut octets[..0], b"");
    let others: [(&[u8], bool); 4] = [
        (b"\xf0\xf0\x00", true),
        (b"\xf1\xf0\x00", false),
        (b"\xf0\xf0\x01", false),
        (b"\xf0\xf0", false),
    ];
    for (other, is_same) in others {
        expect_same(&rt, same_octets(&octets, other), is_same, other);
    }
    assert!(rt; same_octets(b"", b""));
}

/// A hundred multiples of a number, modulo 256.
fn multiples(number: u8) -> [u8; 100] {
    let mut octets = [0u8; 100];
    let mut last = 0u8;
    for octet in &mut octets {
        last = last.wrapping_add(number);
        *octet = last;
    }
    octets
}

/// With up to three blocks of 32, and each rest. What comes after them is unchanged.
#[test]
fn octet_strings_of_each_length_are_added(rt: HostRuntime) {
    let octets = multiples(7);
    let other = multiples(11);
    for len in 0..101usize {
        let mut sum = octets;
        xor_into(&mut sum[..len], &other[..len]);
        for i in 0..100usize {
            let wanted = if i < len {
                octets[i] ^ other[i]
            } else {
                octets[i]
            };
            expect_same(&rt, sum[i], wanted, (i, len));
        }
    }
}

/// Each octet of each length is changed in one bit, and each octet string is compared with all shorter ones.
#[test]
fn octet_strings_that_differ_are_told_apart(rt: HostRuntime) {
    let octets = multiples(7);
    for len in 0..101usize {
        let mut other = octets;
        assert!(rt; same_octets(&octets[..len], &other[..len]), "of {len}");
        for i in 0..len {
            other[i] ^= 1 << (i % 8);
            assert!(rt;
                !same_octets(&octets[..len], &other[..len]),
                "at {i} of {len}"
            );
            other[i] = octets[i];
            assert!(rt; !same_octets(&octets[..len], &octets[..i]), "{len} and {i}");
            assert!(rt; !same_octets(&octets[..i], &octets[..len]), "{i} and {len}");
        }
    }
}
