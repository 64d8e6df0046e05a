//! Signing, verifying and decrypting by the crate's calls. Each file says where its expected values come from.

mod decrypting;
mod signers;
mod signing;

/// The key of the octets 0 to 15.
pub(crate) const KEY_TO_15: &str = "{\"kty\":\"oct\",\"k\":\"AAECAwQFBgcICQoLDA0ODw\"}";
