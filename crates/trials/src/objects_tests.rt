//! Headers and objects that are read, built and written. Each file says where its expected values come from.
use std::alloc::{AllocError, Global};

mod building;
mod frames;
mod headers;
mod held_contents;
mod jwe;
mod jws;
mod payloads;
mod rfc7515;
mod rfc7516;
mod rfc7517;

/// `abc`, signed by HS256 with the key of RFC 7515 appendix A.1 (Python's `hmac`).
pub(crate) const ABC: &str =
    "eyJhbGciOiJIUzI1NiJ9.YWJj.sxvqVTS8XjHJPVB24OsGa2pZqgR8ZX_Ab4pTTtgI47Y";

/// The same without its payload.
pub(crate) const ABC_DETACHED: &str =
    "eyJhbGciOiJIUzI1NiJ9..sxvqVTS8XjHJPVB24OsGa2pZqgR8ZX_Ab4pTTtgI47Y";

/// `ABC` in flattened JSON form, without its payload.
pub(crate) const ABC_FLATTENED_DETACHED: &str =
    "{\"protected\":\"eyJhbGciOiJIUzI1NiJ9\",\"signature\":\"sxvqVTS8XjHJPVB24OsGa2pZqgR8ZX_Ab4pTTtgI47Y\"}";

/// The empty payload, signed by HS256 with the same key (Python's `hmac`).
pub(crate) const EMPTY_SIGNED: &str =
    "eyJhbGciOiJIUzI1NiJ9..OseJwguM7Xc9AlxQtHOCBgo6qFRlXh5mw2ZmelT4y44";

/// This many copies of the piece, between a front and a back.
pub(crate) fn repeated(
    alloc: Global,
    front: &str,
    piece: &str,
    count: usize,
    back: &str,
) -> Result<String, AllocError> {
    let mut text = String::from_str(alloc, front)?;
    for _ in 0..count {
        text.push_str(piece)?;
    }
    text.push_str(back)?;
    Ok(text)
}
