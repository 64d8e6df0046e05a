//! JSON texts, octet keys and their sets, thumbprints, and the making of keys (RFC 7517, RFC 7638). The crate reads key texts and other
//! JSON texts, but no objects and no content.
//!
//! ```rust
//! let text = b"{\"kty\":\"oct\",\"k\":\"AAECAwQFBgcICQoLDA0ODw\"}";
//! let set = KeySet::read(alloc, text, true)?;
//! let key = &set.keys()[0];
//! let wraps = key.allows(Operation::WrapKey);
//! let name = thumbprint(alloc, key, HashAlg::S256)?; // 43 characters
//! ```
#![tactic(auto)]

mod algorithm;
mod generating;
mod key;
mod key_template;
pub mod laws;
mod limits;
mod members;
mod octet_key;
mod operation;
mod set;
mod strict_json;
mod texts;
mod thumbprints;

pub use algorithm::{Algorithm, SignatureAlg};
pub use generating::generate;
pub use key::Key;
pub use limits::{
    GREATEST_P2C, GREATEST_P2C_READ, LEAST_P2C, MOST_DEPTH, MOST_ITERATIONS, MOST_KEY_OCTETS,
    MOST_KEYS, MOST_RECIPIENTS, USUAL_P2C,
};
pub use operation::Operation;
pub use set::{KeySet, are_objects, read_members};
pub use strict_json::{
    has_only, is_object, members_have_whole_numbers, nests_at_most, object_nests_at_most, read_json,
};
pub use thumbprints::{text_thumbprints, thumbprint};
