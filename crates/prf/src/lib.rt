//! HMAC and PBKDF2 over any hash function, and the SHA-2 hashes that they are used with.
//!
//! ```rust
//! let mut mac = Hmac::<Sha256>::new(b"Jefe");
//! mac.update(b"what do ya want ");
//! mac.update(b"for nothing?");
//! let mut out = [0u8; 64];
//! let n = mac.finish(&mut out); // &out[..n] is the message authentication code, of 32 octets
//!
//! let mut key = [0u8; 16];
//! let calls = pbkdf2::<Sha256>(b"password", [b"salt", b""], 4096, &mut key); // 4096 HMAC calls
//! ```
#![tactic(auto)]

mod digests;
mod hash;
mod hmac;
mod key_derivation;
pub mod laws;
mod sha256;
mod sha384;
mod sha512;

pub use digests::{HashAlg, digest};
pub use hash::Hash;
pub use hmac::{Hmac, KeyBlock};
pub use key_derivation::{first_iterate, pbkdf2, pbkdf2_after};
pub use sha2::{Sha256, Sha384, Sha512};
