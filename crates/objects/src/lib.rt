//! JOSE headers (RFC 7515 section 4, RFC 7516 section 4), and signed and encrypted objects in compact form and in JSON form, general and
//! flattened (RFC 7515 section 7, RFC 7516 section 7). The crate reads texts of objects and headers, and sees no octets of keys.
//!
//! ```rust
//! let protected = read_protected(alloc, b"{\"alg\":\"HS256\"}")?;
//! let header = Header::joint(Some(&protected), None, None)?;
//! let alg = header.alg()?; // Some("HS256")
//!
//! let jws = Jws::read(alloc, b"eyJhbGciOiJIUzI1NiJ9.YWJj.sxvq", None)?;
//! let payload = jws.payload(alloc)?; // abc, not verified yet
//!
//! let jwe = Jwe::read(alloc, b"eyJhbGciOiJkaXIiLCJlbmMiOiJBMTI4R0NNIn0....", None)?;
//! let json = jwe.to_json(alloc, false)?; // {"ciphertext":"","protected":"eyJhbGciOiJkaXIiLCJlbmMiOiJBMTI4R0NNIn0"}
//! ```
#![tactic(auto)]

mod compact;
mod content;
mod form;
mod header;
mod json_members;
mod jwe;
mod jws;
mod key_management;
pub mod laws;
mod shared;
mod writer;

pub use content::payload::HeldContent;
pub use content::received_text::ReceivedText;
pub use header::Header;
pub use header::parts::{copy_header, header_at, read_protected};
pub use json_members::text_at;
pub use jwe::Jwe;
pub use jwe::parts::{JweParts, MadeEncryptedObject, MadeRecipient, RecipientParts};
pub use jwe::recipient::Recipient;
pub use jws::Jws;
pub use jws::parts::{JwsParts, MadeSignature, SignatureParts};
pub use jws::signature::Signature;
pub use key_management::KeyManagement;
pub use shared::SharedOctets;
