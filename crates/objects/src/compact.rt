//! The parts of a compact text between its dots (RFC 7515 section 7.1, RFC 7516 section 7.1), not decoded, for both kinds of objects.
ghost use Rattle.octets.specs.Code.Results.{Agrees};
ghost use Rattle.objects.specs.Texts.{split_at_dot as parts_at_dot, three_parts};

mod dots;

use crate::compact::dots::first_dot;
use octets::{Refusal, needs};

/// The three parts between dots. Refuses with `Form`.
#[tactic(auto, unfolding(crate::specs::Texts::three_parts))]
pub(crate) fn three_parts_of(text: &[u8]) -> Result<(&[u8], &[u8], &[u8]), Refusal>
    ensures { Agrees (λ parts. (parts.0.now, parts.1.now, parts.2.now)) result
        (three_parts text.now) }
{
    let (first, rest) = split_at_dot(text)?;
    let (second, third) = split_at_dot(rest)?;
    needs(first_dot(third).is_none(), Refusal::Form)?;
    Ok((first, second, third))
}

/// The texts before and after the first dot. Refuses with `Form`.
#[tactic(auto, unfolding(crate::specs::Texts::split_at_dot))]
pub(crate) fn split_at_dot(text: &[u8]) -> Result<(&[u8], &[u8]), Refusal>
    ensures { Agrees (λ parts. (parts.0.now, parts.1.now)) result
        (parts_at_dot text.now) }
{
    match first_dot(text) {
        None => Err(Refusal::Form),
        Some(i) => Ok((&text[..i], &text[i + 1..])),
    }
}
