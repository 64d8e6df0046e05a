//! How many calls of an output write a held content: one for the octets that each piece of a text settles, one for those of the characters
//! that waited for the end, and one that finishes the output. The numbers come from this rule and from the `PIECE` characters of a piece.
//! Of these the whole groups are settled, up to the last one that leaves two to five characters.
use crate::expected::{expect_octets_at, expect_same};
use crate::objects_tests::repeated;
use objects::{HeldContent, Jws};
use octets::{Failing, FailingOutput, Refusal};
use std::process::Abort;
use std::test::Fail;

/// How many octets each output can hold, which is enough.
const ROOM: usize = 3_000_000;

/// How often the text of a payload repeats `YWJj`, how it ends, and how many calls write it.
const TEXTS: &[(usize, &str, u64)] = &[
    // Nothing is written.
    (0, "", 1),
    // All characters wait for the end.
    (0, "YQ", 2),
    (1, "", 2),
    // The first group is settled.
    (1, "YQ", 3),
    (2, "", 3),
    // One piece.
    (1024, "", 3),
    // A second piece.
    (1024, "YQ", 4),
    (1025, "", 4),
    (2048, "", 4),
    // A third piece.
    (2048, "YWI", 5),
];

/// Exactly `calls` calls are made. If one of them fails, alone or with all later ones, writing fails.
fn is_written_by<R: Abort + AllocGlobal>(
    rt: &R,
    held: HeldContent<'_>,
    octets: &[u8],
    calls: u64,
) -> Result<(), Fail> {
    for call in 0..calls {
        let mut out = FailingOutput::new(rt.alloc(), ROOM, ROOM, Failing::Once(call))?;
        expect_same(rt, held.write(&mut out), Err(Refusal::Write), calls);
        expect_same(rt, out.failures(), 1, calls);
        let mut out = FailingOutput::new(rt.alloc(), ROOM, ROOM, Failing::From(call))?;
        expect_same(rt, held.write(&mut out), Err(Refusal::Write), calls);
        expect_same(rt, out.failures(), 1, calls);
    }
    let mut out = FailingOutput::new(rt.alloc(), ROOM, ROOM, Failing::From(calls))?;
    expect_same(rt, held.write(&mut out), Ok(()), calls);
    expect_same(rt, out.is_finished(), true, calls);
    expect_octets_at(rt, out.octets(), octets, "a content that is held");
    Ok(())
}

/// The payload is held as the text that was received.
#[test]
fn a_text_is_written_by_a_call_for_each_piece(rt: HostRuntime) -> Result<(), Fail> {
    for &(count, end, calls) in TEXTS {
        let mut token = repeated(rt.alloc(), "eyJhbGciOiJIUzI1NiJ9.", "YWJj", count, end)?;
        token.push_str(".sxvq")?;
        let jws = Jws::read(rt.alloc(), token.as_bytes(), None)?;
        let held = jws.held_payload();
        assert!(rt; matches!(held, HeldContent::Text(_)), "{calls}");
        is_written_by(&rt, held, &jws.payload(rt.alloc())?, calls)?;
    }
    Ok(())
}

/// Octets are written by one call, however many there are, and finished by another.
#[test]
fn octets_that_are_held_are_written_by_one_call(rt: HostRuntime) -> Result<(), Fail> {
    let rows: &[(&[u8], u64)] = &[(b"", 1), (b"a", 2), (&[97; 10_000], 2)];
    for &(octets, calls) in rows {
        is_written_by(&rt, HeldContent::Octets(octets), octets, calls)?;
    }
    Ok(())
}
