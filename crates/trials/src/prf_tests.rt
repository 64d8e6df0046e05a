//! Hashes, HMAC and PBKDF2.
mod derivation;
mod long;
mod vectors;
