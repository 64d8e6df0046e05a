//! Devices that fail as `Failing` says, and the number of calls that read, write and pass on a whole content.
use crate::expected::expect_same;
use octets::{
    B64Writer, Failing, FailingInput, FailingOutput, MemoryInput, Output, Refusal, draw, emit,
    pump, read_to_end,
};
use std::process::Abort;
use std::test::Fail;

/// An input of `abc` that fails so.
fn abc(failing: Failing) -> FailingInput<'static> {
    FailingInput::new(MemoryInput::new(b"abc", 8), failing)
}

/// Which calls of an output fail, and the result of two calls: the first fails, or the second, or one that is not made.
const CALLS_OF_AN_OUTPUT: &[(Failing, Result<(), Refusal>)] = &[
    (Failing::Once(0), Err(Refusal::Write)),
    (Failing::Once(1), Err(Refusal::Write)),
    (Failing::Once(2), Ok(())),
    (Failing::From(1), Err(Refusal::Write)),
    (Failing::From(2), Ok(())),
];

#[test]
fn octets_are_written_and_finished_by_two_calls(rt: HostRuntime) -> Result<(), Fail> {
    for &(failing, answer) in CALLS_OF_AN_OUTPUT {
        let mut out = FailingOutput::new(rt.alloc(), 8, 8, failing)?;
        expect_same(&rt, emit(&mut out, b"abc"), answer, failing);
        expect_same(&rt, out.is_finished(), answer.is_ok(), failing);
    }
    Ok(())
}

/// Which calls of an input fail, or after how many octets, and the result of two reads, of which the second finds the end.
const CALLS_OF_AN_INPUT: &[(Failing, Result<usize, Refusal>)] = &[
    (Failing::Once(0), Err(Refusal::Read)),
    (Failing::Once(1), Err(Refusal::Read)),
    (Failing::Once(2), Ok(3)),
    (Failing::From(1), Err(Refusal::Read)),
    (Failing::From(2), Ok(3)),
    (Failing::After(2), Err(Refusal::Read)),
    (Failing::After(4), Ok(3)),
];

#[test]
fn octets_are_read_to_their_end_by_two_calls(rt: HostRuntime) {
    for &(failing, answer) in CALLS_OF_AN_INPUT {
        let read = read_to_end(rt.alloc(), &mut abc(failing)).map(|octets| octets.len());
        expect_same(&rt, read, answer, failing);
    }
}

/// Which calls of an input fail, or after how many octets, and the results of drawing three octets and of drawing four.
const CALLS_OF_A_DRAW: &[(Failing, Result<(), Refusal>, Result<(), Refusal>)] = &[
    (Failing::Once(0), Err(Refusal::Read), Err(Refusal::Read)),
    (Failing::Once(1), Ok(()), Err(Refusal::Read)),
    (Failing::Once(2), Ok(()), Err(Refusal::Random)),
    (Failing::From(1), Ok(()), Err(Refusal::Read)),
    (Failing::From(2), Ok(()), Err(Refusal::Random)),
    (Failing::After(2), Err(Refusal::Read), Err(Refusal::Read)),
    (Failing::After(3), Ok(()), Err(Refusal::Read)),
];

/// One call draws all octets, and a second one finds that there are no more.
#[test]
fn octets_are_drawn_by_one_call(rt: HostRuntime) {
    for &(failing, three, four) in CALLS_OF_A_DRAW {
        let drawn = draw(&mut abc(failing), &mut [0; 3]);
        expect_same(&rt, drawn, three, failing);
        let drawn = draw(&mut abc(failing), &mut [0; 4]);
        expect_same(&rt, drawn, four, failing);
    }
}

/// A content is passed on by two reads, a write for the text before it and a write for its own. No call finishes the output.
#[test]
fn a_content_is_passed_on_by_two_reads_and_two_writes(rt: HostRuntime) -> Result<(), Fail> {
    for &(failing, answer) in CALLS_OF_AN_INPUT {
        let mut out = FailingOutput::new(rt.alloc(), 8, 8, Failing::Once(2))?;
        let passed = pump(&mut abc(failing), B64Writer::start(), b".", &mut out);
        expect_same(&rt, passed, answer.map(|_| ()), failing);
        expect_same(&rt, out.is_finished(), false, failing);
    }
    for &(failing, answer) in CALLS_OF_AN_OUTPUT {
        let mut out = FailingOutput::new(rt.alloc(), 8, 8, failing)?;
        let passed = pump(
            &mut abc(Failing::Once(2)),
            B64Writer::start(),
            b".",
            &mut out,
        );
        expect_same(&rt, passed, answer, failing);
        expect_same(&rt, out.is_finished(), false, failing);
    }
    Ok(())
}

/// An output that was finished stays so after another `finish` fails, but not after a write fails.
#[test]
fn an_end_that_fails_changes_nothing(rt: HostRuntime) -> Result<(), Fail> {
    let mut out = FailingOutput::new(rt.alloc(), 8, 8, Failing::From(1))?;
    expect_same(&rt, out.finish().is_ok(), true, "the first end");
    expect_same(&rt, out.finish().is_ok(), false, "the second");
    expect_same(&rt, out.is_finished(), true, "an end that failed");
    expect_same(&rt, out.write(b"a").is_ok(), false, "a write");
    expect_same(&rt, out.is_finished(), false, "a write that failed");
    Ok(())
}
