//! The members of a signed object, as they are passed, as they are kept, and with the octets of a protected header.

use crate::header::members::HeaderMembers;
use keys::SignatureAlg;
use serde_json::{Map, Value};

/// The members of a signature. An absent one is empty.
#[derive(Drop)]
pub struct SignatureParts {
    /// The text of the protected header.
    pub protected: String,
    /// The unprotected header (RFC 7515 section 7.2.1): the member `header`.
    pub header: Map<String, Value>,
    pub signature: Vec<u8>,
}

/// A signature that is made: its members, and what reading its headers gives.
#[derive(Drop)]
pub struct MadeSignature {
    pub parts: SignatureParts,
    /// The members of the protected header.
    pub protected_members: Map<String, Value>,
    /// The algorithm that the joint header names.
    pub alg: SignatureAlg,
}

/// The members of a signed object.
#[derive(Drop)]
pub struct JwsParts {
    pub payload: Vec<u8>,
    pub signatures: Vec<SignatureParts>,
}

/// The members of a signature, with an unprotected header that has a compact text.
#[derive(Drop)]
pub(crate) struct SignatureMembers {
    pub(crate) protected: String,
    pub(crate) header: HeaderMembers,
    pub(crate) signature: Vec<u8>,
}

/// The members of a signature, with the octets of its protected header.
#[derive(Drop)]
pub(crate) struct DecodedSignature {
    pub(crate) octets: Vec<u8>,
    pub(crate) members: SignatureMembers,
}
