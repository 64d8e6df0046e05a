//! The command `jose` for octet keys. It makes keys (RFC 7517) and writes their thumbprints (RFC 7638), signs and verifies documents
//! (RFC 7515), encrypts and decrypts secrets (RFC 7516), changes the form of both, and writes and reads base64url (RFC 4648 section 5).
//!
//! The words become an invocation (`words`, by the table in `words::table`), the invocation names devices (`files`), and `run` does what is
//! asked from devices to devices. `report` reports a refusal.
#![tactic(auto)]

ghost use Rattle.std.specs.Prelude.{◌≡◌, ◌⊎◌, List, map, string_bytes, IfOk, IfErr, Result as Answer, Err};
ghost use Rattle.clap.specs.Words.{Text};
ghost use Rattle.octets.specs.declared.refusal.Refusal.{Refusal as Cause};
ghost use Rattle.jose.specs.Runs.{Performs, Serves};
ghost use Rattle.jose.specs.System.{HoldsFirst, IsHeld, AreHeld};

mod apart;
mod commands;
mod ending;
mod entry;
mod files;
pub mod laws;
mod ports;
mod system;
mod words;

pub use commands::{Wanted, WholeInputs, read_inputs, read_past};
pub use ending::report;
pub use entry::run;
pub use files::{Sink, Source, inputs, outputs};
use octets::{Refusal, WriterOutput};
pub use ports::{Inputs, Outputs};
use std::alloc::Global;
use std::io;
use std::io::{Stdin, Stdout};
use std::os::fd::AsRawFd;
use std::process::ExitCode;
pub use system::{ReadFiles, System, WriteFiles};
pub use words::invocation::{Invocation, Setting};
pub use words::parse;
pub use words::table::{Command, CommandRow, Kind, OptionRow, Role, command_row};

/// Folders, which can be opened but neither read nor written. If the root may not be opened, another folder mostly may.
const FOLDERS: &[&str] = &["/", ".", "/dev", "/proc", "/etc", "/tmp"];

/// Opens a folder and holds it, if it has the number of a closed standard stream. As long as it is held, nothing can be read or written
/// there. Otherwise the next file that is opened would get the number, and would be read or written in place of the stream. Returns `None`
/// if the lowest free number is none of the three, or if no folder can be opened.
fn placeholder<S: ReadFiles>(system: &S, folders: &[&str]) -> Result<Option<S::File>, Refusal>
where
    S::File: AsRawFd,
    ensures held { IfOk result (HoldsFirst (S.open_gives system.now) S.File.raw_fd (map (λ text. text.now) folders.now)) }
    ensures memory { IfErr result (λ e. e ≡ Refusal.Memory) }
{
    for folder in folders {
        match system.open(folder) {
            Ok(folder) => return Ok(if_standard(folder)),
            Err(e) if e.kind() == io::ErrorKind::OutOfMemory => return Err(Refusal::Memory),
            Err(_) => {}
        }
    }
    Ok(None)
}

/// The file, if its number is that of a standard stream.
fn if_standard<F: AsRawFd + Drop>(file: F) -> Option<F>
    ensures { IsHeld F.raw_fd file result }
{
    matches!(file.as_raw_fd(), 0..=2).then_some(file)
}

/// Holds a folder in place of each standard stream that is closed. As long as they are held, no file gets the number of such a stream.
pub fn placeholders<S: ReadFiles>(
    system: &S,
) -> Result<(Option<S::File>, Option<S::File>, Option<S::File>), Refusal>
where
    S::File: AsRawFd,
    ensures held { IfOk result (AreHeld (S.open_gives system.now) S.File.raw_fd) }
    ensures memory { IfErr result (λ e. e ≡ Refusal.Memory) }
{
    Ok((
        placeholder(system, FOLDERS)?,
        placeholder(system, FOLDERS)?,
        placeholder(system, FOLDERS)?,
    ))
}

/// Reads the words and does what they ask, over files and the standard streams. Words that are not UTF-8 are no command.
fn perform<S: System>(
    alloc: Global,
    system: &S,
    stdin: Stdin,
    stdout: Stdout,
) -> Result<(), Refusal>
where
    S::File: AsRawFd,
    ensures { result ≡ Err Refusal.Memory ⊎ ((args : Answer (List Text) Cause) × (S.args_gives system.now args × Performs S S.Uncut S.File args result)) }
{
    let held = placeholders(system)?;
    let args = system.args()?;
    let [_name, words @ ..] = args.as_slice() else {
        return Err(Refusal::Usage);
    };
    serve(alloc, system, stdin, stdout, words, &held)
}

/// Does what the words ask, over files and the standard streams. Meanwhile a folder is held in place of each closed stream.
fn serve<S: System>(
    alloc: Global,
    files: &S,
    stdin: Stdin,
    stdout: Stdout,
    words: &[String],
    _held: &(Option<S::File>, Option<S::File>, Option<S::File>),
) -> Result<(), Refusal>
where
    S::File: AsRawFd,
    requires { AreHeld (S.open_gives files.now) S.File.raw_fd _held.now }
    ensures { result ≡ Err Refusal.Memory ⊎ Serves S S.Uncut S.File (map string_bytes words.now) result }
{
    let invocation = parse(alloc, words)?;
    let mut inputs = files::inputs(files, stdin, &invocation);
    let mut outputs = files::outputs(files, stdout, &invocation);
    run(alloc, &invocation, &mut inputs, &mut outputs)
}

/// Does what the program's arguments ask, over files and the standard streams, and reports a refusal on standard error. The status is 0
/// after success and 1 after a refusal.
pub fn start(rt: HostRuntime) -> ExitCode {
    let result = perform(rt.alloc(), &rt, rt.stdin(), rt.stdout());
    let mut errors = WriterOutput::new(rt.stderr());
    ExitCode::from(report(result, &mut errors))
}
