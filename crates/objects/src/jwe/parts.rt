//! The members of an encrypted object, as they are passed and as they are kept, and what reading its headers gives.

use crate::KeyManagement;
use crate::header::members::HeaderMembers;
use ciphers::{ContentAlg, KeyAlg};
use serde_json::{Map, Value};

/// The members of an encrypted object. An absent one is empty.
#[derive(Drop)]
pub struct JweParts {
    /// The text of the protected header.
    pub protected: String,
    /// The shared unprotected header.
    pub unprotected: Map<String, Value>,
    /// The initialization vector.
    pub iv: Vec<u8>,
    /// The additional data without the protected header: the member `aad`.
    pub aad: Vec<u8>,
    pub ciphertext: Vec<u8>,
    /// The authentication tag.
    pub tag: Vec<u8>,
    pub recipients: Vec<RecipientParts>,
}

/// The same, with headers that have compact texts.
#[derive(Drop)]
pub(crate) struct JweMembers {
    pub(crate) protected: String,
    pub(crate) unprotected: HeaderMembers,
    pub(crate) iv: Vec<u8>,
    pub(crate) aad: Vec<u8>,
    pub(crate) ciphertext: Vec<u8>,
    pub(crate) tag: Vec<u8>,
    pub(crate) recipients: Vec<RecipientMembers>,
}

/// The members of a recipient. An absent one is empty.
#[derive(Drop)]
pub struct RecipientParts {
    /// The per-recipient unprotected header (RFC 7516 section 7.2.1): the member `header`.
    pub header: Map<String, Value>,
    /// The encrypted key, which is empty if the key is the content encryption key.
    pub encrypted_key: Vec<u8>,
}

/// The same, with a header that has a compact text.
#[derive(Drop)]
pub(crate) struct RecipientMembers {
    pub(crate) header: HeaderMembers,
    pub(crate) encrypted_key: Vec<u8>,
}

/// An encrypted object that is made: its members, and what reading its headers gives. An absent member is empty.
#[derive(Drop)]
pub struct MadeEncryptedObject {
    /// The text of the protected header.
    pub protected: String,
    /// The members of the protected header.
    pub protected_members: Map<String, Value>,
    /// The shared unprotected header.
    pub unprotected: Map<String, Value>,
    /// The initialization vector.
    pub iv: Vec<u8>,
    /// The additional data without the protected header: the member `aad`.
    pub aad: Vec<u8>,
    pub ciphertext: Vec<u8>,
    /// The authentication tag.
    pub tag: Vec<u8>,
    /// The algorithm of content encryption that each joint header names.
    pub enc: ContentAlg,
    pub recipients: Vec<MadeRecipient>,
}

/// A recipient that is made: its members, and what reading its joint header gives.
#[derive(Drop)]
pub struct MadeRecipient {
    pub parts: RecipientParts,
    /// The algorithm of key management that the joint header names.
    pub alg: KeyAlg,
    /// How its key delivers the content encryption key, with the parameters of the joint header.
    pub management: KeyManagement,
}
