//! Decoding base64url texts that come in pieces.
ghost use Rattle.std.specs.Prelude.{◌≡◌, ℕ, ◌+◌, ◌*◌, ◌/◌, ◌≤◌, List, [], length, take, drop, IfOk, IfErr, Ok, Err};
ghost use Rattle.octets.specs.Base64url.{decoded};
ghost use Rattle.octets.specs.Code.Streams.{settled, unsettled};

use crate::sizes::{JOINED_PIECE, PIECE_TEXT};
use crate::transform::Transform;
use crate::writer::join;
use crate::{Refusal, without_line_end};
use base64::engine::general_purpose::URL_SAFE_NO_PAD as BASE64URL;
use std::marker::Model;

/// Decodes a base64url text that comes in pieces and may end in a line end. It holds, and contracts see, the at most five characters that
/// are not in a whole group of four with two characters after it.
#[derive(Drop)]
pub struct B64Reader {
    waiting: [u8; 5],
    count: usize,
}

impl Model for B64Reader {
    ghost use Rattle.std.specs.Prelude.{◌≤◌, List, ℕ, take};

    ghost Value = { List ℕ };

    ghost view = { λ r. take r.count r.waiting };

    ghost invariant = { λ r. r.count ≤ 5 };
}

impl B64Reader {
    /// A reader that was fed nothing yet.
    pub fn start() -> B64Reader
        ensures { result ≡ [] }
    {
        B64Reader {
            waiting: [0; 5],
            count: 0,
        }
    }
}

impl Transform for B64Reader {
    type Rest = ();

    ghost use Rattle.std.specs.Prelude.{⊤};
    ghost use Rattle.octets.specs.Encoding.{octets_of_groups};
    ghost use Rattle.octets.specs.Code.Streams.{settling, settling_starts};

    ghost Job = { Unit {0} };

    ghost plan = { λ job. settling };

    ghost is_fed = { λ x job p. (x ≡ unsettled p) × (decoded (settled p) ≡ Ok (octets_of_groups (settled p))) };

    ghost is_left = { λ x job p. ⊤ };

    ghost starts_with_nothing = { λ x job fed. settling_starts };

    fn feed<'t>(
        &mut self,
        piece: &'t [u8],
        space: &'t mut [u8; PIECE_TEXT],
    ) -> Result<&'t [u8], Refusal> {
        let mut text = [0u8; JOINED_PIECE];
        let held = self.count;
        join(&mut text, &self.waiting[..held], piece);
        let all = held + piece.len();
        let whole = all.saturating_sub(2) / 4 * 4;
        let len = decode_onto(&text[..whole], space)?;
        self.count = all - whole;
        self.waiting[..all - whole].copy_from_slice(&text[whole..all]);
        Ok(&space[..len])
    }

    fn finish<'t>(self, space: &'t mut [u8; PIECE_TEXT]) -> Result<(&'t [u8], ()), Refusal> {
        let waiting = &self.waiting[..self.count];
        let len = decode_onto(without_line_end(waiting), space)?;
        Ok((&space[..len], ()))
    }
}

/// Decodes the text into the front of `out` and returns the number of octets. Refuses with `Base64`. After three octets for each four
/// characters, or part of four, `out` is unchanged.
#[tactic(auto, unfolding(crate::specs::Base64url::decoded))]
pub(crate) fn decode_onto(text: &[u8], out: &mut [u8]) -> Result<usize, Refusal>
    requires { (length text.now + 3) / 4 * 3 ≤ length out.old }
    ensures within { IfOk result (λ n. n ≤ length out.old) }
    ensures octets { IfOk result (λ n. decoded text.now ≡ Ok (take n out.new)) }
    ensures refused { IfErr result (λ e. (e ≡ Refusal.Base64) × (decoded text.now ≡ Err Refusal.Base64)) }
    ensures beyond { let room = (length text.now + 3) / 4 * 3 in drop room out.new ≡ drop room out.old }
{
    let room = text.len().div_ceil(4) * 3;
    match BASE64URL.decode_slice_unchecked(text, &mut out[..room]) {
        Ok(n) => Ok(n),
        Err(_) => Err(Refusal::Base64),
    }
}
