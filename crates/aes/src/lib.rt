//! The block cipher AES (FIPS 197) under keys of 128, 192 and 256 bits.
//!
//! The modes of operation use the trait `Block`: a cipher of blocks of sixteen octets, with the law that decrypting undoes encrypting. The
//! three ciphers are made from the octets of their keys. The crate has no modes and no padding, and allocates nothing.
//!
//! ```rust
//! use aes::{Aes128, Block};
//!
//! let cipher = Aes128::new(&key);
//! let text = cipher.encrypt(&block);
//! assert_eq!(rt; cipher.decrypt(&text), block);
//! ```
#![tactic(auto)]

pub use aes::{Aes128, Aes192, Aes256};
pub use block::Block;

mod aes;
mod block;
mod cipher;
mod four_blocks;
mod inverse_state;
mod key_expansion;
mod lanes;
pub mod laws;
mod lookups;
mod state;
mod tables;
mod whole_blocks;
