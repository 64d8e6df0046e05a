//! Content encryption, key management and key wrap (RFC 7518, RFC 3394).
mod content;
mod delivery;
mod lengths;
mod long;
mod names;
mod salts;
mod wrapping;
