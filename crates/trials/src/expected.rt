//! Comparisons with what is expected. An `assert_eq!` at each place would be proved each time.
use std::fmt::Debug;
use std::process::Abort;

/// The two are the same. If not, the message says at what.
pub(crate) fn expect_same<T: PartialEq + Debug + Drop, N: Debug + Drop>(
    rt: &impl Abort,
    found: T,
    wanted: T,
    at: N,
) {
    assert_eq!(rt; found, wanted, "at {at:?}");
}

pub(crate) fn expect_octets(rt: &impl Abort, found: &[u8], wanted: &[u8]) {
    assert_eq!(rt; *found, *wanted);
}

pub(crate) fn expect_octets_at(rt: &impl Abort, found: &[u8], wanted: &[u8], at: &str) {
    assert_eq!(rt; *found, *wanted, "at {at}");
}
