//! Contents that are read in pieces and written through a transform.
ghost use Rattle.std.specs.Prelude.{◌≡◌, ◌≢◌, ℕ, ◌≤◌, List, [], ◌∷◌, ◌++◌, length, false, IfOk, OnOk, OnErr, IfErr, Ok, Err, IsTrue};
ghost use Rattle.std.specs.Iterator.{IsFinite};
ghost use Rattle.octets.specs.Devices.{appended, observed, IsPossibleInput, AppendsPrefixOf};
ghost use Rattle.octets.specs.Faults.{TellsFaults, counts};
ghost use Rattle.octets.specs.Octets.{IsOctets};
ghost use Rattle.octets.specs.Outcomes.{GivesUnlessExternal, is_external};
ghost use Rattle.octets.specs.Plan.{Plan, Grows, beginning_of};
ghost use Rattle.octets.specs.Code.Streams.{behind, RefusesFrom, Extends};

use crate::sizes::{PIECE, PIECE_TEXT};
use crate::whole::read_piece;
use crate::{Input, Output, Refusal, write_whole};

/// A transform is fed a content in pieces, and returns what they fix of its plan.
pub trait Transform: Drop {
    /// What is left of it at the end.
    type Rest: Drop;

    /// What it was started for.
    ghost Job: { Type 0 };

    /// What is to be written for a job and each content.
    ghost plan: { Job → Plan (List ℕ) };

    /// It was started for this job, and was fed this content so far.
    ghost is_fed: { Self → Job → List ℕ → Type 0 };

    /// This is left of a transform that was started for this job, and was fed all of this content.
    ghost is_left: { Self.Rest → Job → List ℕ → Type 0 };

    /// Feeds the next piece, of at most `PIECE` octets, and returns what it fixes now, which may be in `space`. Refuses only if every
    /// content that begins so is refused.
    fn feed<'t>(
        &mut self,
        piece: &'t [u8],
        space: &'t mut [u8; PIECE_TEXT],
    ) -> Result<&'t [u8], Refusal>
        requires { length piece.now ≤ PIECE }
        ensures fed { (job : Job) (p : List ℕ) → is_fed self.old job p → IsOctets (p ++ piece.now)
            → OnOk result (is_fed self.new job (p ++ piece.now)) }
        ensures text { (job : Job) (p : List ℕ) → is_fed self.old job p → IsOctets (p ++ piece.now)
            → IfOk result (λ text. (plan job).fixed (p ++ piece.now) ≡ (plan job).fixed p ++ text.now) }
        ensures refused { (job : Job) (p : List ℕ) → is_fed self.old job p
            → IfErr result (λ e. RefusesFrom (plan job) (p ++ piece.now) e) }
        ensures cause { IfErr result (λ e. is_external e ≡ false) };

    /// Returns the rest of the text, which may be in `space`, and what is left. Refuses as the plan refuses the content.
    fn finish<'t>(self, space: &'t mut [u8; PIECE_TEXT]) -> Result<(&'t [u8], Self::Rest), Refusal>
        ensures left { (job : Job) (p : List ℕ) → is_fed self job p → IsOctets p
            → IfOk result (λ end. is_left end.1 job p) }
        ensures text { (job : Job) (p : List ℕ) → is_fed self job p → IsOctets p
            → IfOk result (λ end. (plan job).whole p ≡ Ok ((plan job).fixed p ++ end.0.now)) }
        ensures refused { (job : Job) (p : List ℕ) → is_fed self job p → IsOctets p
            → IfErr result (λ e. (plan job).whole p ≡ Err e) }
        ensures cause { IfErr result (λ e. is_external e ≡ false) };

    /// Nothing is fixed at first.
    ghost starts_with_nothing: { (x : Self) (job : Job) → is_fed x job [] → (plan job).fixed [] ≡ [] };
}

/// Reads the content to its end, and writes what the transform returns of it. `before` is written first, after the first piece was read and
/// accepted. Returns what is left of the transform. Refuses with `Read`, with `Write`, and as the transform does. The output is not
/// finished.
pub fn pump<I: Input, T: Transform, O: Output>(
    content: &mut I,
    transform: T,
    before: &[u8],
    out: &mut O,
) -> Result<T::Rest, Refusal>
    requires { IsFinite (I.remaining content.old) }
    ensures no_memory { IfErr result (λ e. e ≢ Refusal.Memory) }
    ensures same_source { I.source content.new ≡ I.source content.old }
    ensures ends { OnOk result (IsTrue (I.is_at_end content.new)) }
    ensures answer { (job : T.Job) (whole : List ℕ) → T.is_fed transform job []
        → IsPossibleInput (observed I.consumed I.is_at_end content.old content.new) whole
        → GivesUnlessExternal (λ left. appended (O.written out.old) (O.written out.new)) result ((behind before.now (T.plan job)).whole whole) }
    ensures extends { OnOk result (Extends (O.written out.old) (O.written out.new)) }
    ensures left { (job : T.Job) → T.is_fed transform job []
        → IfOk result (λ left. T.is_left left job (appended (I.consumed content.old) (I.consumed content.new))) }
    ensures beginning { (job : T.Job) → T.is_fed transform job [] → Grows (T.plan job)
        → OnErr result (AppendsPrefixOf (beginning_of (behind before.now (T.plan job)) (observed I.consumed I.is_at_end content.old content.new))
        (O.written out.old) (O.written out.new)) }

    // If the content failed after something was read, all that was fixed was written.
    ensures stands { (job : T.Job) → T.is_fed transform job [] → result ≡ Err Refusal.Read
        → appended (I.consumed content.old) (I.consumed content.new) ≢ []
        → O.written out.new ≡ O.written out.old ++ (behind before.now (T.plan job)).fixed (appended (I.consumed content.old) (I.consumed content.new)) }
    ensures unread { IfErr result (λ refusal. refusal ≢ Refusal.Write → appended (I.consumed content.old) (I.consumed content.new) ≡ [] → out.new ≡ out.old) }
    ensures uncut { IfErr result (λ refusal. refusal ≢ Refusal.Write → O.written out.new ≡ O.written out.old → out.new ≡ out.old) }
    ensures endings { O.endings out.new ≡ O.endings out.old }
    ensures faults { TellsFaults (counts I.failures content.old content.new ∷ []) (counts O.failures out.old out.new ∷ []) result }
{
    let mut buf = [0; PIECE];
    let mut space = [0; PIECE_TEXT];
    let mut transform = transform;
    let mut front = before;
    'pieces: loop {
        let n = read_piece(content, &mut buf)?;
        if n == 0 {
            break;
        }
        let text = transform.feed(&buf[..n], &mut space)?;
        write_whole(out, front)?;
        front = &[];
        write_whole(out, text)?;
    }
    let (text, rest) = transform.finish(&mut space)?;
    write_whole(out, front)?;
    write_whole(out, text)?;
    Ok(rest)
}
