//! Signing and verifying (RFC 7515), encrypting and decrypting (RFC 7516), as the standards' functions of keys and objects. The calls have
//! keys, texts of templates, objects, and devices for their content, but no commands and no options.
//!
//! ```rust
//! let keys = KeySet::read(alloc, b"{\"kty\":\"oct\",\"k\":\"AAECAwQFBgcICQoLDA0ODxAREhMUFRYXGBkaGxwdHh8\"}", true)?;
//! jws_sign(alloc, &keys, b"{}", true, &mut payload, &mut text, None)?; // in compact form, by HS256
//!
//! let jws = Jws::read(alloc, text.octets(), None)?;
//! jws_verify(&keys, &jws, false, Some(&mut content))?; // writes the payload
//! ```
#![tactic(auto)]

mod aad;
mod algorithms;
mod decrypt;
mod encrypt;
mod framed;
mod headers;
mod judging;
pub mod laws;
mod mac;
mod sign;
mod signing_input;
mod verify;

pub use decrypt::{Work, jwe_decrypt, jwe_decrypt_within, jwe_plaintext};
pub use encrypt::jwe_encrypt;
pub use judging::{KeyUses, key_uses};
pub use sign::jws_sign;
pub use verify::{
    jws_verified_by, jws_verify, jws_verify_detached, jws_verify_detached_least, jws_verify_least,
    needs_signers,
};
