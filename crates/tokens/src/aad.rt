//! The additional authenticated data of an encrypted object (RFC 7516 section 5.1, step 14).
ghost use Rattle.std.specs.Prelude.{◌≡◌, IfOk, IfErr};
ghost use Rattle.std.specs.Cow.{cow_str_bytes};
ghost use Rattle.tokens.specs.Decrypting.{additional_authenticated_data};

use octets::{Refusal, b64_append};
use std::alloc::Global;
use std::borrow::CowStr;

/// The additional data: the text of the protected header and, if there is an `aad`, a dot and its base64url text (RFC 7516 section 5.1,
/// step 14, and section 5.2, step 15).
pub(crate) fn additional_authenticated_data<'t>(
    alloc: Global,
    protected: &'t str,
    aad: &[u8],
) -> Result<CowStr<'t>, Refusal>
    ensures text { IfOk result (λ text. cow_str_bytes text ≡ additional_authenticated_data protected.now aad.now) }
    ensures memory { IfErr result (λ e. e ≡ Refusal.Memory) }
{
    if aad.is_empty() {
        return Ok(CowStr::Borrowed(protected));
    }
    let mut text = String::from_str(alloc, protected)?;
    text.push('.')?;
    b64_append(&mut text, aad)?;
    Ok(CowStr::Owned(text))
}
