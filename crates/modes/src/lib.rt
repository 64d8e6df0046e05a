//! Modes of operation over any block cipher.
//!
//! `Cbc`, `Ctr32` and `Gcm` encrypt a text that comes in pieces (SP 800-38A, SP 800-38D), `Ghash` sums blocks, and `cbc_open` and
//! `gcm_open` open a ciphertext in place. The crate allocates nothing, and does not see the octets of keys.
//!
//! ```rust
//! let mut gcm = Gcm::start(Aes128::new(&key), &iv, &aad);
//! let n = gcm.feed(piece, &mut out)?; // &out[..n] is the piece's ciphertext
//! let tag = gcm.finish();
//! assert_eq!(rt; gcm_open(&cipher, &iv, &aad, &mut buf, &tag), Some(buf.len()));
//! ```
#![tactic(auto)]

mod cbc;
mod cbc_opening;
mod ctr;
mod gcm;
mod ghash;
mod hash_subkey;
pub mod laws;
mod partial_block;
mod polynomial_product;
mod unreduced;

pub use cbc::Cbc;
pub use cbc_opening::cbc_open;
pub use ctr::Ctr32;
pub use gcm::{Gcm, gcm_open};
pub use ghash::Ghash;
