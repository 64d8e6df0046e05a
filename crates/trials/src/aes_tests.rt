//! AES (FIPS 197).
mod blocks;
