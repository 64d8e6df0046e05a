//! A content that is written as it is read, inside the texts of an object's frame or apart from them, and the values that follow it in
//! their places: the signatures, or the tag.
ghost use Rattle.std.specs.Prelude.{◌≡◌, ◌≢◌, ◌+◌, ◌++◌, ℕ, List, [], ◌∷◌, true, false, length, map, string_bytes, Some, None, Ok, Err, IfErr, OnOk, OnErr};
ghost use Rattle.std.specs.Iterator.{IsFinite};
ghost use Rattle.octets.specs.Devices.{AppendsPrefixOf, IsFinishedOnce, input_members, output_members};
ghost use Rattle.octets.specs.Faults.{TellsFaults, counts};
ghost use Rattle.octets.specs.Code.Streaming.{Streams};
ghost use Rattle.octets.specs.Plan.{OutputTexts, Plan};
ghost use Rattle.octets.specs.declared.refusal.Refusal.{Refusal};
ghost use Rattle.objects.specs.Code.Frames.{filled};
ghost use Rattle.tokens.specs.Code.Framing.{FillsFrame};

use octets::{Input, Output, Refusal, Transform, pump};

/// The values that follow a content in the places of a frame, after all of it was read.
pub(crate) trait Values: Drop {
    /// It has the values with these texts, in order.
    ghost gives: { Self → List (List ℕ) → Type 0 };

    /// The number of its values.
    ghost count: { Self → ℕ };

    /// Writes the first text, and then each value and the text after it, and finishes the output.
    fn write<O: Output>(self, texts: &[String], out: &mut O) -> Result<(), Refusal>
        requires { length texts.now ≡ 1 + count self }
        ensures all { (values : List (List ℕ)) → gives self values
            → OnOk result (O.written out.new ≡ O.written out.old ++ filled (map string_bytes texts.now) values) }
        ensures beginning { (values : List (List ℕ)) → gives self values
            → OnErr result (AppendsPrefixOf (filled (map string_bytes texts.now) values) (O.written out.old) (O.written out.new)) }
        ensures finished { OnOk result (IsFinishedOnce O.is_finished O.endings out.old out.new) }
        ensures unfinished { OnErr result (O.endings out.new ≡ O.endings out.old) }
        ensures cause { OnErr result (result ≡ Err Refusal.Write) }
        ensures faults { TellsFaults [] (counts O.failures out.old out.new ∷ []) result };

    /// The number is that of the values that it has.
    ghost as_many: { (x : Self) (values : List (List ℕ)) → gives x values → length values ≡ count x };
}

/// Writes the content inside the texts: the first text, what the transform returns of the content as it is read, and then each other text
/// after a value. Refuses with `Read` if the content fails, as the transform does, and with `Write`.
pub(crate) fn write_inside<I: Input, T: Transform, O: Output>(
    content: &mut I,
    transform: T,
    texts: &[String],
    out: &mut O,
) -> Result<(), Refusal>
where
    T::Rest: Values,
    requires finite { IsFinite (I.remaining content.old) }
    requires framed { (plan : Plan OutputTexts) × FillsFrame T.is_fed T.plan T.is_left T.Rest.gives false transform (map string_bytes texts.now) plan }
    ensures streams { (plan : Plan OutputTexts) → FillsFrame T.is_fed T.plan T.is_left T.Rest.gives false transform (map string_bytes texts.now) plan
        → Streams (input_members I.consumed I.is_at_end I.failures) (output_members O.written O.is_finished O.endings O.failures)
        (Ok plan) content.old content.new out.old out.new None result }
    ensures same_source { I.source content.new ≡ I.source content.old }
    ensures no_memory { IfErr result (λ refusal. refusal ≢ Refusal.Memory) }
    ensures faults { TellsFaults (counts I.failures content.old content.new ∷ []) (counts O.failures out.old out.new ∷ []) result }
{
    let Some((first, others)) = texts.split_first() else {
        unreachable!()
    };
    let rest = pump(content, transform, first.as_bytes(), out)?;
    rest.write(others, out)
}

/// Writes what the transform returns of the content as it is read to an output of its own, and finishes that. Then writes the texts, with a
/// value between each two. Refuses with `Read` if the content fails, as the transform does, and with `Write`.
pub(crate) fn write_beside<I: Input, T: Transform, O: Output>(
    content: &mut I,
    transform: T,
    texts: &[String],
    out: &mut O,
    detached: &mut O,
) -> Result<(), Refusal>
where
    T::Rest: Values,
    requires finite { IsFinite (I.remaining content.old) }
    requires framed { (plan : Plan OutputTexts) × FillsFrame T.is_fed T.plan T.is_left T.Rest.gives true transform (map string_bytes texts.now) plan }
    ensures streams { (plan : Plan OutputTexts) → FillsFrame T.is_fed T.plan T.is_left T.Rest.gives true transform (map string_bytes texts.now) plan
        → Streams (input_members I.consumed I.is_at_end I.failures) (output_members O.written O.is_finished O.endings O.failures)
        (Ok plan) content.old content.new out.old out.new (Some (record { old = detached.old; new = detached.new })) result }
    ensures same_source { I.source content.new ≡ I.source content.old }
    ensures no_memory { IfErr result (λ refusal. refusal ≢ Refusal.Memory) }
    ensures faults { TellsFaults (counts I.failures content.old content.new ∷ [])
        (counts O.failures out.old out.new ∷ counts O.failures detached.old detached.new ∷ []) result }
{
    let rest = pump(content, transform, &[], detached)?;
    detached.finish()?;
    rest.write(texts, out)
}
