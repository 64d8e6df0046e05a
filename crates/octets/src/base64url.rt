//! Base64url without padding (RFC 4648 section 5).
ghost use Rattle.std.specs.Prelude.{◌≡◌, ◌≢◌, ◌≤◌, [], ◌++◌, List, ℕ, length, drop, IsOk, IfOk, IfErr, OnOk, OnErr, IsErrOf, string_bytes};
ghost use Rattle.std.specs.Result.{result_unwrap_or};
ghost use Rattle.octets.specs.Base64url.{base64url, decoded};
ghost use Rattle.octets.specs.Octets.{IsOctets};
ghost use Rattle.octets.specs.Code.Results.{AgreesUnlessMemory};

use crate::Refusal;
use crate::laws::are_octets;
use base64::DecodeAllocError;
use base64::engine::general_purpose::URL_SAFE_NO_PAD as BASE64URL;
use std::alloc::Global;

/// The base64url text of the octets. Fails only with `Memory`.
#[tactic(auto, unfolding(crate::specs::Base64url::base64url))]
pub fn b64_encode(alloc: Global, octets: &[u8]) -> Result<String, Refusal>
    ensures text { IfOk result (λ text. string_bytes text ≡ base64url octets.now) }
    ensures memory { IfErr result (λ e. e ≡ Refusal.Memory) }
{
    Ok(BASE64URL.encode(alloc, octets)?)
}

/// Appends the base64url text of the octets to a text. Fails only with `Memory`, and then the text is unchanged.
#[tactic(auto, unfolding(crate::specs::Base64url::base64url))]
pub fn b64_append(text: &mut String, octets: &[u8]) -> Result<(), Refusal>
    ensures text { OnOk result (string_bytes text.new ≡ string_bytes text.old ++ base64url octets.now) }
    ensures memory { IfErr result (λ e. e ≡ Refusal.Memory) }
    ensures err { OnErr result (string_bytes text.new ≡ string_bytes text.old) }
{
    Ok(BASE64URL.encode_string(octets, text)?)
}

/// The octets of a base64url text. Each octet string has one text: padding, white space, characters outside the alphabet and trailing bits
/// that are not zero are refused with `Base64`.
#[tactic(auto, unfolding(crate::specs::Base64url::base64url, crate::specs::Base64url::decoded))]
pub fn b64_decode(alloc: Global, text: &[u8]) -> Result<Vec<u8>, Refusal>
    ensures exact { AgreesUnlessMemory (λ octets. octets.items) result (decoded text.now) }
    ensures meaning { IfOk result (λ octets. IsOctets octets.items
        × (text.now ≡ base64url octets.items)) }
    ensures no_meaning { IsErrOf result Refusal.Base64
        → (octets : List ℕ) → IsOctets octets → text.now ≢ base64url octets }
    ensures causes { IfErr result (λ e. e ≢ Refusal.Base64 → e ≡ Refusal.Memory) }
{
    match BASE64URL.decode(alloc, text) {
        Ok(octets) => Ok(octets),
        Err(DecodeAllocError::OutOfMemory) => Err(Refusal::Memory),
        Err(DecodeAllocError::DecodeError(_)) => Err(Refusal::Base64),
    }
}

/// Writes the octets of a base64url text to the front of `out`, without memory. The text must be one, and `out` must have room for its
/// octets.
pub fn b64_decode_onto(text: &[u8], out: &mut [u8])
    requires text { IsOk (decoded text.now) }
    requires room { length (result_unwrap_or (decoded text.now) []) ≤ length out.old }
    ensures { let octets = result_unwrap_or (decoded text.now) [] in out.new ≡ octets ++ drop (length octets) out.old }
{
    are_octets(text);
    let Ok(_) = BASE64URL.decode_slice(text, out) else {
        unreachable!()
    };
}
