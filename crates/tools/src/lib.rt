//! The proved tools. Each does what one command of `jose` alone does not. The program is called by the name of a tool, or has this name as
//! its first word.
//!
//! The arguments name a tool, and its words say what it is asked for (`words`). They name devices as in `jose`, and the tool does its work
//! from devices to devices (`verifying`). `report` writes why a tool refuses (`cause`).
#![tactic(auto)]

ghost use Rattle.std.specs.Prelude.{◌≡◌, ◌⊎◌, ℕ, List, map, string_bytes, Result as Answer, Err};
ghost use Rattle.octets.specs.declared.refusal.Refusal.{Refusal as Refused};
ghost use Rattle.jose.specs.System.{AreHeld};
ghost use Rattle.tools.specs.Reports.{IsReported};
ghost use Rattle.tools.specs.Runs.{LooksAsAsked, Performs, SetsAsAsked, VerifiesAsAsked};

mod cause;
mod changing;
mod command;
mod command_files;
mod command_lines;
mod command_words;
mod disk;
mod ending;
mod found_place;
mod header_places;
mod holding;
mod item_places;
mod iterations;
mod joining;
pub mod laws;
pub mod line_laws;
mod look_requests;
mod look_words;
mod looked_keys;
mod looking;
mod looks;
mod object_lines;
mod object_members;
mod object_places;
mod parameters;
mod printing;
mod put_files;
mod removing;
mod replacing;
mod serving;
mod set_words;
mod sets;
mod shared_headers;
mod shown_values;
mod text_kind;
mod tool_cause;
mod tool_report;
mod verifying;
mod words;

use crate::disk::Disk;
use crate::tool_report::{no_words, report_tool, words_of};
use crate::words::tool_of;
pub use cause::Cause;
pub use changing::change_set;
pub use command::explain;
pub use command_files::{FindFiles, Found};
pub use ending::report;
use jose::{System, inputs, outputs, placeholders};
pub use look_requests::look;
pub use look_words::{LookRequest, parse_look};
pub use looking::show_files;
use octets::{Output, Refusal, WriterOutput};
pub use put_files::{NotCreated, NotOpened, PutFiles};
pub use set_words::{SetRequest, parse_set};
use std::alloc::Global;
use std::io::{Stdin, Stdout};
use std::os::fd::AsRawFd;
use std::process::ExitCode;
pub use tool_cause::{Place, Thumbprint, ToolCause, Why};
pub use verifying::verify_all;
pub use words::{Signers, Tool, VerifyAllRequest, parse_verify_all};

/// Reads the arguments, does what they ask, over files and the standard streams, and reports a refusal. Returns the program's status.
/// Arguments that are not UTF-8 name no tool.
fn perform<S: System, D: PutFiles + FindFiles, O: Output>(
    alloc: Global,
    system: &S,
    disk: &mut D,
    stdin: Stdin,
    stdout: Stdout,
    errors: &mut O,
) -> u8
where
    S::File: AsRawFd,
    ensures { IsReported O.written (Err (Cause.Refused Refusal.Memory)) result errors.old errors.new
        ⊎ ((args : Answer (List (List ℕ)) Refused) × (S.args_gives system.now args
        × Performs D.made D.finds O.written S S.Uncut S.File args disk.old disk.new result errors.old errors.new)) }
{
    let held = match placeholders(system) {
        Ok(held) => held,
        Err(refusal) => return report(Err(Cause::Refused(refusal)), errors),
    };
    let args = match system.args() {
        Ok(args) => args,
        Err(refusal) => return report(Err(Cause::Refused(refusal)), errors),
    };
    match tool_of(args.as_slice()) {
        Ok((Tool::VerifyAll, words)) => {
            let outcome = serve_verify_all(alloc, system, stdin, stdout, words, &held);
            report(outcome, errors)
        }
        Ok((Tool::Set, words)) => serve_set(alloc, disk, words, errors),
        Ok((Tool::Look, words)) => serve_look(alloc, disk, words, errors),
        Err(refusal) => report(Err(Cause::Refused(refusal)), errors),
    }
}

/// Does what the words ask of `jose-set`, and reports a refusal.
fn serve_set<D: PutFiles, O: Output>(
    alloc: Global,
    disk: &mut D,
    words: &[String],
    errors: &mut O,
) -> u8
    ensures { SetsAsAsked D.made O.written (map string_bytes words.now) disk.old disk.new result errors.old errors.new }
{
    match parse_set(words) {
        Ok(request) => {
            let outcome = change_set(alloc, disk, request);
            report_tool(alloc, words_of(request), outcome, errors)
        }
        Err(cause) => report_tool(alloc, no_words(Tool::Set), Err(cause), errors),
    }
}

/// Does what the words ask of `jose-look`, and reports a refusal.
fn serve_look<D: PutFiles + FindFiles, O: Output>(
    alloc: Global,
    disk: &mut D,
    words: &[String],
    errors: &mut O,
) -> u8
    ensures { LooksAsAsked D.made D.finds O.written (map string_bytes words.now) disk.old disk.new result errors.old errors.new }
{
    match parse_look(words) {
        Ok(request) => {
            let outcome = look(alloc, disk, request);
            report_tool(alloc, no_words(Tool::Look), outcome, errors)
        }
        Err(cause) => report_tool(alloc, no_words(Tool::Look), Err(cause), errors),
    }
}

/// Does what the words ask of `jose-verify-all`. Meanwhile a folder is held in place of each closed stream.
fn serve_verify_all<S: System>(
    alloc: Global,
    files: &S,
    stdin: Stdin,
    stdout: Stdout,
    words: &[String],
    _held: &(Option<S::File>, Option<S::File>, Option<S::File>),
) -> Result<(), Cause>
where
    S::File: AsRawFd,
    requires { AreHeld (S.open_gives files.now) S.File.raw_fd _held.now }
    ensures { result ≡ Err (Cause.Refused Refusal.Memory) ⊎ VerifiesAsAsked S S.Uncut S.File (map string_bytes words.now) result }
{
    let request = parse_verify_all(alloc, words)?;
    let mut inputs = inputs(files, stdin, &request.invocation);
    let mut outputs = outputs(files, stdout, &request.invocation);
    verify_all(
        alloc,
        request.signers,
        &request.invocation,
        &mut inputs,
        &mut outputs,
    )
}

/// Does what the program's arguments ask, over files and the standard streams, and reports a refusal on standard error. The status is 0
/// after success and 1 after a refusal.
pub fn start(rt: HostRuntime) -> ExitCode {
    let mut disk = Disk {
        files: &rt,
        input: rt.stdin(),
        output: rt.stdout(),
    };
    let mut errors = WriterOutput::new(rt.stderr());
    ExitCode::from(perform(
        rt.alloc(),
        &rt,
        &mut disk,
        rt.stdin(),
        rt.stdout(),
        &mut errors,
    ))
}
