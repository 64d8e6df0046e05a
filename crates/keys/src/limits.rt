//! The limits of this profile.

/// The most keys of a set, good or bad.
pub const MOST_KEYS: usize = 64;

/// The most octets of a key.
pub const MOST_KEY_OCTETS: usize = 4096;

/// The most recipients, or signatures, of an object.
pub const MOST_RECIPIENTS: usize = 256;

/// The greatest depth of a header or a key that is written.
pub const MOST_DEPTH: usize = 64;

/// The greatest count of iterations, `p2c`, that is read, and the least, the greatest and the usual one that is written.
pub const GREATEST_P2C_READ: u64 = 2_000_000;

pub const LEAST_P2C: u64 = 1_000;

pub const GREATEST_P2C: u64 = 2_000_000;

pub const USUAL_P2C: u64 = 100_000;

/// The greatest sum of these counts, both over the passwords that an object is encrypted to, and over the pairs of a recipient and a key
/// that are tried.
pub const MOST_ITERATIONS: u64 = 16_000_000;
