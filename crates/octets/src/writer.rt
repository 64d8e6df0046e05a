//! Encoding octets that come in pieces as base64url.
ghost use Rattle.std.specs.Prelude.{◌≡◌, ℕ, ◌+◌, ◌*◌, ◌/◌, ◌≤◌, List, [], ◌++◌, length, take, drop};
ghost use Rattle.octets.specs.Base64url.{base64url, whole_groups};
ghost use Rattle.octets.specs.Code.Streams.{part_group};

use crate::Refusal;
use crate::sizes::{JOINED_PIECE, PIECE_TEXT, SEALED_PIECE};
use crate::transform::Transform;
use base64::engine::general_purpose::URL_SAFE_NO_PAD as BASE64URL;
use std::marker::Model;

/// Encodes octets that come in pieces as base64url. It holds, and contracts see, the at most two octets that wait for a whole group of
/// three. In the clauses `fed` is all octets so far.
#[derive(Drop)]
pub struct B64Writer {
    waiting: [u8; 2],
    count: usize,
}

impl Model for B64Writer {
    ghost use Rattle.std.specs.Prelude.{◌≤◌, List, ℕ, take};

    ghost Value = { List ℕ };

    ghost view = { λ w. take w.count w.waiting };

    ghost invariant = { λ w. w.count ≤ 2 };
}

impl B64Writer {
    /// A writer that was fed nothing yet.
    pub fn start() -> B64Writer
        ensures { result ≡ part_group [] }
    {
        B64Writer {
            waiting: [0; 2],
            count: 0,
        }
    }

    /// Feeds the next piece, of at most `SEALED_PIECE` octets. Writes the text of the groups that are whole now to the front of `out` and
    /// returns its length.
    pub fn feed(&mut self, piece: &[u8], out: &mut [u8; PIECE_TEXT]) -> usize
        requires { length piece.now ≤ SEALED_PIECE }
        ensures within { result ≤ PIECE_TEXT }
        ensures len { result ≡ (length self.old + length piece.now) / 3 * 4 }
        ensures waits { (fed : List ℕ) → self.old ≡ part_group fed → self.new ≡ part_group (fed ++ piece.now) }
        ensures text { (fed : List ℕ) → self.old ≡ part_group fed
            → base64url (whole_groups (fed ++ piece.now)) ≡ base64url (whole_groups fed) ++ take result out.new }
        ensures rest { drop result out.new ≡ drop result out.old }
    {
        let mut octets = [0u8; JOINED_PIECE];
        let held = self.count;
        join(&mut octets, &self.waiting[..held], piece);
        let all = held + piece.len();
        let whole = all / 3 * 3;
        let written = encode_onto(&octets[..whole], out);
        self.count = all - whole;
        self.waiting[..all - whole].copy_from_slice(&octets[whole..all]);
        written
    }

    /// Writes the text of the octets that wait to the front of `out` and returns its length.
    pub fn finish(self, out: &mut [u8; 4]) -> usize
        ensures within { result ≤ 4 }
        ensures text { (fed : List ℕ) → self ≡ part_group fed
            → base64url fed ≡ base64url (whole_groups fed) ++ take result out.new }
        ensures rest { drop result out.new ≡ drop result out.old }
    {
        encode_onto(&self.waiting[..self.count], out)
    }
}

impl Transform for B64Writer {
    type Rest = ();

    ghost use Rattle.std.specs.Prelude.{⊤};
    ghost use Rattle.octets.specs.Code.Streams.{part_group, encoding_starts};
    ghost use Rattle.octets.specs.Encoding.{encoding};

    ghost Job = { Unit {0} };

    ghost plan = { λ job. encoding };

    ghost is_fed = { λ x job p. x ≡ part_group p };

    ghost is_left = { λ x job p. ⊤ };

    ghost starts_with_nothing = { λ x job fed. encoding_starts };

    fn feed<'t>(
        &mut self,
        piece: &'t [u8],
        space: &'t mut [u8; PIECE_TEXT],
    ) -> Result<&'t [u8], Refusal> {
        let len = B64Writer::feed(self, piece, space);
        Ok(&space[..len])
    }

    fn finish<'t>(self, space: &'t mut [u8; PIECE_TEXT]) -> Result<(&'t [u8], ()), Refusal> {
        let Some(text) = space.first_chunk_mut::<4>() else {
            unreachable!()
        };
        let len = B64Writer::finish(self, text);
        Ok((&text[..len], ()))
    }
}

/// Copies `front` and then `back` to the front of `octets`.
pub(crate) fn join(octets: &mut [u8; JOINED_PIECE], front: &[u8], back: &[u8])
    requires { length front.now + length back.now ≤ JOINED_PIECE }
    ensures { take (length front.now + length back.now) octets.new ≡ front.now ++ back.now }
{
    let n = front.len();
    octets[..n].copy_from_slice(front);
    octets[n..n + back.len()].copy_from_slice(back);
}

/// Writes the base64url text of the octets to the front of `out` and returns its length.
pub fn encode_onto(octets: &[u8], out: &mut [u8]) -> usize
    requires { (4 * length octets.now + 2) / 3 ≤ length out.old }
    ensures len { result ≡ (4 * length octets.now + 2) / 3 }
    ensures text { take result out.new ≡ base64url octets.now }
    ensures rest { drop result out.new ≡ drop result out.old }
{
    let Ok(written) = BASE64URL.encode_slice(octets, out) else {
        unreachable!()
    };
    written
}
