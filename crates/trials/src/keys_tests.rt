//! Keys, sets and templates as texts, and the tables of RFC 7517 and RFC 7518. Each file says where its expected values come from.
use std::alloc::{AllocError, Global};

mod key_templates;
mod key_texts;
mod rfc7517;
mod rfc7518;

/// A list that is `depth` deep, between `start` and `end`.
pub(crate) fn nested(
    alloc: Global,
    start: &str,
    depth: usize,
    end: &str,
) -> Result<String, AllocError> {
    let opened = "[".repeat(alloc, depth)?;
    let closed = "]".repeat(alloc, depth)?;
    format!(in alloc; "{start}{opened}{closed}{end}")
}

/// A text of more than 65,536 characters.
pub(crate) fn long_note(alloc: Global) -> Result<String, AllocError> {
    "a text of sixty-four characters, which is written over and over ".repeat(alloc, 1100)
}
