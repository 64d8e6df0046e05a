//! The algorithms that a token names (RFC 7518), over the ciphers of `aes`.
//!
//! `ContentAlg` encrypts content that comes in pieces, and decrypts it in place. `KeyAlg` delivers a content encryption key to a recipient,
//! and a `SaltedKey` serves many recipients with one salt. `wrap` and `unwrap` are AES key wrap (RFC 3394). No call allocates memory or
//! reads a header.
//!
//! ```rust
//! // A recipient's encrypted key, and content that is encrypted in pieces.
//! let (alg, enc) = (KeyAlg::A128Kw, ContentAlg::A128Gcm);
//! let parameters = KeyParameters { iv: b"", tag: b"", p2s: b"", p2c: 0 };
//! let (len, tag_len) = alg.wrap_cek(&key, parameters, &cek, &mut encrypted_key, &mut tag); // &encrypted_key[..len]
//! let mut sealer = enc.seal(cek.octets(), &iv, aad);
//! let n = sealer.feed(piece, &mut out)?; // &out[..n] is the next part of the ciphertext
//! let (end, tag_len) = sealer.finish(&mut last, &mut tag); // &last[..end] is its end
//! ```
//!
//! ```rust
//! // Decrypts the content in the place of its ciphertext.
//! let (cek, iterations) = alg.unwrap_cek(enc, &key, parameters, encrypted_key);
//! let cek = cek?;
//! let n = enc.open(cek.octets(), &iv, aad, &mut buf, tag)?; // &buf[..n]
//! ```
#![tactic(auto)]

mod arrays;
mod authentication;
mod cbc_hmac;
mod cek;
mod content_alg;
mod kek;
mod key_alg;
mod key_wrap;
pub mod laws;
mod salted_key;
mod sealer;

pub use cek::Cek;
pub use content_alg::{ContentAlg, ContentSealer};
pub use key_alg::{KeyAlg, KeyManagementMode, KeyParameters};
pub use key_wrap::{unwrap, wrap};
pub use salted_key::SaltedKey;
pub use sealer::Sealer;
