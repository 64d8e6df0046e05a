//! A key that receives the content encryption key.

use ciphers::KeyAlg;
use keys::Key;

/// A key, and the algorithm by which it receives the content encryption key.
#[derive(Clone, Copy)]
pub(crate) struct RecipientKey<'k> {
    pub(crate) key: &'k Key,
    pub(crate) management: KeyAlg,
}
