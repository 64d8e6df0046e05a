//! What kind of text `jose-look` sees, by its members or by its dots.
ghost use Rattle.std.specs.Prelude.{◌≡◌, [], false, IfOk};
ghost use Rattle.serde_json.specs.View.{view};
ghost use Rattle.std.specs.Result.{result_err};
ghost use Rattle.keys.specs.KeySets.{key_set};
ghost use Rattle.keys.specs.Limits.{limits};
ghost use Rattle.objects.specs.Jws.{jws_of};
ghost use Rattle.objects.specs.Jwe.{jwe_of};
ghost use Rattle.keys.specs.Json.{json_value};
ghost use Rattle.tools.specs.Looks.{has, is_signed, is_encrypted, kind_of, kind_by_dots, kind_text, is_neither, refusal_by};

use crate::tool_cause::unless_memory;
use keys::{KeySet, read_json};
use objects::{Jwe, Jws};
use octets::Refusal;
use serde_json::Value;
use std::alloc::{AllocError, Global};

/// What a text is, whether `jose` refuses it or not.
#[derive(Clone, Copy, Debug, PartialEq, Eq)]
pub(crate) enum TextKind {
    Set,
    Key,
    Signed,
    /// Its payload is another file.
    SignedDetached,
    Encrypted,
    /// Its ciphertext is another file.
    EncryptedDetached,
    /// A JSON object of no other kind.
    OtherObject,
    /// A text in braces that `jose` does not read as JSON.
    NoJson,
    /// No JSON, and no object in compact form.
    Neither,
}

impl TextKind {
    /// The kind of a JSON object.
    pub(crate) fn of(value: &Value) -> TextKind
        ensures { result ≡ kind_of (view value.now) }
    {
        if has(value, "keys") {
            TextKind::Set
        } else if has(value, "kty") || has(value, "k") {
            TextKind::Key
        } else if is_signed(value) {
            if has(value, "payload") {
                TextKind::Signed
            } else {
                TextKind::SignedDetached
            }
        } else if is_encrypted(value) {
            if has(value, "ciphertext") {
                TextKind::Encrypted
            } else {
                TextKind::EncryptedDetached
            }
        } else {
            TextKind::OtherObject
        }
    }

    /// The kind of a text with so many dots that is in no JSON form.
    pub(crate) fn by_dots(dots: usize) -> TextKind
        ensures { result ≡ kind_by_dots dots }
    {
        match dots {
            2 => TextKind::Signed,
            4 => TextKind::Encrypted,
            _ => TextKind::Neither,
        }
    }

    pub(crate) fn is_neither(self) -> bool
        ensures { result ≡ is_neither self }
    {
        matches!(self, TextKind::Neither)
    }

    /// What it is called.
    pub(crate) fn text(self) -> &'static str
        ensures { result.now ≡ kind_text self }
    {
        match self {
            TextKind::Set => "a set of keys",
            TextKind::Key => "a key",
            TextKind::Signed => "a signed object",
            TextKind::SignedDetached => "a signed object, and its payload is another file",
            TextKind::Encrypted => "an encrypted object",
            TextKind::EncryptedDetached => {
                "an encrypted object, and its ciphertext is another file"
            }
            TextKind::OtherObject => "a JSON object, but no key and no object of jose",
            TextKind::NoJson => "a text in braces",
            TextKind::Neither => "no key and no object",
        }
    }
}

/// Why `jose` refuses a text of this kind. A content that is another file is taken as empty.
pub(crate) fn refusal_by(
    alloc: Global,
    kind: TextKind,
    text: &[u8],
) -> Result<Option<Refusal>, AllocError>
    ensures { IfOk result (λ found. found ≡ refusal_by kind text.now) }
{
    match kind {
        TextKind::Set | TextKind::Key => refusal_of_keys(alloc, text),
        TextKind::Signed => refusal_of_jws(alloc, text),
        TextKind::SignedDetached => refusal_of_detached_jws(alloc, text),
        TextKind::Encrypted => refusal_of_jwe(alloc, text),
        TextKind::EncryptedDetached => refusal_of_detached_jwe(alloc, text),
        TextKind::NoJson => refusal_of_json(alloc, text),
        TextKind::OtherObject | TextKind::Neither => Ok(None),
    }
}

fn refusal_of_keys(alloc: Global, text: &[u8]) -> Result<Option<Refusal>, AllocError>
    ensures { IfOk result (λ found. found ≡ result_err (key_set limits text.now false)) }
{
    match KeySet::read(alloc, text, false) {
        Ok(_) => Ok(None),
        Err(refusal) => Ok(Some(unless_memory(refusal)?)),
    }
}

fn refusal_of_jws(alloc: Global, text: &[u8]) -> Result<Option<Refusal>, AllocError>
    ensures { IfOk result (λ found. found ≡ result_err (jws_of limits None text.now)) }
{
    match Jws::read(alloc, text, None) {
        Ok(_) => Ok(None),
        Err(refusal) => Ok(Some(unless_memory(refusal)?)),
    }
}

fn refusal_of_detached_jws(alloc: Global, text: &[u8]) -> Result<Option<Refusal>, AllocError>
    ensures { IfOk result (λ found. found ≡ result_err (jws_of limits (Some []) text.now)) }
{
    match Jws::read(alloc, text, Some(Vec::new(alloc))) {
        Ok(_) => Ok(None),
        Err(refusal) => Ok(Some(unless_memory(refusal)?)),
    }
}

fn refusal_of_jwe(alloc: Global, text: &[u8]) -> Result<Option<Refusal>, AllocError>
    ensures { IfOk result (λ found. found ≡ result_err (jwe_of limits None text.now)) }
{
    match Jwe::read(alloc, text, None) {
        Ok(_) => Ok(None),
        Err(refusal) => Ok(Some(unless_memory(refusal)?)),
    }
}

fn refusal_of_detached_jwe(alloc: Global, text: &[u8]) -> Result<Option<Refusal>, AllocError>
    ensures { IfOk result (λ found. found ≡ result_err (jwe_of limits (Some []) text.now)) }
{
    match Jwe::read(alloc, text, Some(Vec::new(alloc))) {
        Ok(_) => Ok(None),
        Err(refusal) => Ok(Some(unless_memory(refusal)?)),
    }
}

fn refusal_of_json(alloc: Global, text: &[u8]) -> Result<Option<Refusal>, AllocError>
    ensures { IfOk result (λ found. found ≡ result_err (json_value text.now)) }
{
    match read_json(alloc, text) {
        Ok(_) => Ok(None),
        Err(refusal) => Ok(Some(unless_memory(refusal)?)),
    }
}

/// Whether the value has a member of this name.
pub(crate) fn has(value: &Value, name: &str) -> bool
    ensures { result ≡ has name.now (view value.now) }
{
    value.get(name).is_some()
}

/// Whether some member is one of a signature.
fn is_signed(value: &Value) -> bool
    ensures { result ≡ is_signed (view value.now) }
{
    has(value, "payload") || has(value, "signatures") || has(value, "signature")
}

/// Whether some member is one of an encrypted object alone.
fn is_encrypted(value: &Value) -> bool
    ensures { result ≡ is_encrypted (view value.now) }
{
    has(value, "ciphertext")
        || has(value, "recipients")
        || has(value, "encrypted_key")
        || has(value, "iv")
        || has(value, "tag")
}
