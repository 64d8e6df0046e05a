//! Base64url texts that were received: one that is not copied, and the copy of one.
ghost use Rattle.std.specs.Prelude.{◌≡◌, IfOk, IfErr, string_bytes};
ghost use Rattle.octets.specs.Base64url.{base64url};
ghost use Rattle.octets.specs.Octets.{IsOctets};
ghost use Rattle.objects.specs.Code.Meaning.{meaning};

use octets::Refusal;
use octets::laws::are_octets;
use std::alloc::Global;

/// A text that is a base64url text.
#[derive(Clone, Copy)]
pub struct ReceivedText<'t> {
    pub(crate) text: &'t [u8],
    ghost is_octets: { IsOctets (meaning text.now) },
    ghost is_text: { text.now ≡ base64url (meaning text.now) },
}

/// A copy of the base64url text of these octets. Fails only with `Memory`.
#[tactic(auto, using(crate::proofs::Spelling::spelled_is_json))]
pub(crate) fn copied_text(alloc: Global, text: &[u8], octets: &[u8]) -> Result<String, Refusal>
    requires { text.now ≡ base64url octets.now }
    ensures copy { IfOk result (λ copy. string_bytes copy ≡ text.now) }
    ensures memory { IfErr result (λ e. e ≡ Refusal.Memory) }
{
    are_octets(octets);
    let Ok(characters) = str::from_utf8(text) else {
        unreachable!()
    };
    Ok(String::from_str(alloc, characters)?)
}
