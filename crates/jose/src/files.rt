//! Files, the standard streams and the words themselves, as readers and writers. A file is opened at its first read. An output file is
//! opened and cut just before its first octet is written, or when it is finished without one. A file that is created for a secret is its
//! owner's alone. An output is not cut if it is the file of the content that is read meanwhile, of the keys, or of the output that is
//! written before it.
ghost use Rattle.std.specs.Prelude.{◌≡◌, ℕ, ◌<◌, ◌++◌, false, List, length, take, drop, min, option_map, OnOk, IfErr, Ok, Err};
ghost use Rattle.std.specs.Result.{result_unwrap_or};
ghost use Rattle.std.specs.Io.{ReadsAtMost, WritesAtMost};
ghost use Rattle.std.specs.Io.KnownBytes.{Keeps, ReadConsumes, WriteAppends};
ghost use Rattle.jose.specs.Invocations.{invocation_view};
ghost use Rattle.jose.specs.Code.Rows.{entry_of};
ghost use Rattle.jose.specs.Files.{words, origin_of, origin_named, origin_at, random_origin, after_read, source_remaining, IsOpenSource, IsNoDevice, IsUnopenedSource, file_of, AreNewInputs};
ghost use Rattle.jose.specs.System.{MayBeSynchronized, CannotBeSynchronized, place_view, places};
ghost use Rattle.jose.specs.Files.{nowhere, destination_of, destination_at, sink_contents, IsOpenSink, IsUnopenedSink, IsKept, mode_for, purpose_of, file_written, AreNewOutputs};

use crate::apart;
use crate::ports::{Inputs, Outputs};
use crate::system::{OutputName, Place, ReadFiles, System, WriteFiles};
use crate::words::invocation::Invocation;
use crate::words::table::{OptionRow, Role};
use octets::{ReaderInput, WriterOutput};
use std::io;
use std::io::{Read, Stdin, Stdout, Write};

/// The device of random octets if `-R` names no file.
pub(crate) const SYSTEM_RANDOM: &str = "/dev/urandom";

/// The mode of a file that is created: readable and writable by its owner alone, or by everyone as far as the process's mask allows.
const SECRET_MODE: u32 = 0o600;

const MODE: u32 = 0o666;

/// The origin of the octets of an input.
#[derive(Drop)]
pub enum Source<'a, R: ReadFiles> {
    /// JSON that was given in the words, or nothing.
    Words(&'a [u8]),
    Standard(Stdin),
    File {
        files: &'a R,
        path: &'a str,
        opened: Option<R::File>,
    },
    /// A file that has octets only if it is a character device. Otherwise it is open without a file.
    Device {
        files: &'a R,
        path: &'a str,
        opened: Option<Option<R::File>>,
    },
}

impl<'a, R: ReadFiles> Read for Source<'a, R> {
    ghost remaining = { source_remaining R.File.remaining };

    fn read(&mut self, buf: &mut [u8]) -> io::Result<usize>
        // Words are read from their front, as many octets as fit into the buffer.
        ensures words { (octets : List ℕ) → origin_of self.old ≡ words octets
            → (result ≡ Ok (min (length octets) (length buf.old)))
            × (buf.new ≡ take (length buf.old) octets ++ drop (length octets) buf.old) }
        ensures source { origin_of self.new
            ≡ after_read (result_unwrap_or result 0) (origin_of self.old) }
        ensures opened { 0 < length buf.old → OnOk result (IsOpenSource self.new) }
        ensures no_device { IsNoDevice self.new → result ≡ Ok 0 }
        ensures no_room { length buf.old ≡ 0 → (result ≡ Ok 0) × (self.new ≡ self.old) }

        // What the trait says.
        ensures bound { ReadsAtMost result buf.new }
        ensures bytes { ReadConsumes (source_remaining R.File.remaining self.old)
            (source_remaining R.File.remaining self.new) result buf.new }
    {
        if buf.is_empty() {
            return Ok(0);
        }
        match self {
            Source::Words(octets) => octets.read(buf),
            Source::Standard(stdin) => stdin.read(buf),
            Source::File {
                files,
                path,
                opened,
            } => {
                if opened.is_none() {
                    *opened = Some(files.open(path)?);
                }
                match opened {
                    Some(file) => file.read(buf),
                    None => unreachable!(),
                }
            }
            Source::Device {
                files,
                path,
                opened,
            } => {
                if opened.is_none() {
                    *opened = Some(files.open_device(path)?);
                }
                match opened {
                    Some(Some(file)) => file.read(buf),
                    _ => Ok(0),
                }
            }
        }
    }
}

/// The destination of the octets of an output.
#[derive(Drop)]
pub enum Sink<'a, R: WriteFiles> {
    /// There is no such option. Everything that is written is accepted and discarded.
    Nowhere,
    Standard(Stdout),
    File(OutputFile<'a, R>),
}

/// A file that is opened and cut when it is first written or flushed.
#[derive(Drop)]
pub struct OutputFile<'a, R: WriteFiles> {
    files: &'a R,
    name: OutputName<'a>,
    purpose: Purpose,
    opened: Option<R::File>,
}

/// The purpose of an output file.
#[derive(Clone, Copy)]
pub enum Purpose {
    /// Octets that others may read.
    Public,
    /// Decrypted octets, for their owner alone.
    Secret,
    /// A made key, for its owner alone. It is on the disk at the end.
    Key,
}

impl<'a, R: WriteFiles> Write for Sink<'a, R> {
    ghost contents = { sink_contents R.File.contents };

    fn write(&mut self, octets: &[u8]) -> io::Result<usize>
        ensures nowhere { destination_of self.old ≡ nowhere → result ≡ Ok (length octets.now) }
        ensures sink { destination_of self.new ≡ destination_of self.old }
        ensures opened { 0 < length octets.now → OnOk result (IsOpenSink self.new) }
        ensures nothing { length octets.now ≡ 0 → (result ≡ Ok 0) × (self.new ≡ self.old) }

        // What the trait says.
        ensures bound { WritesAtMost result octets.now }
        ensures bytes { WriteAppends (sink_contents R.File.contents self.old)
            (sink_contents R.File.contents self.new) result octets.now }
    {
        if octets.is_empty() {
            return Ok(0);
        }
        match self {
            Sink::Nowhere => Ok(octets.len()),
            Sink::Standard(stdout) => stdout.write(octets),
            Sink::File(output) => {
                if output.opened.is_none() {
                    output.opened = Some(apart::create(output.files, &output.name)?);
                }
                match &mut output.opened {
                    Some(file) => file.write(octets),
                    None => unreachable!(),
                }
            }
        }
    }

    fn flush(&mut self) -> io::Result<()>
        ensures nowhere { destination_of self.old ≡ nowhere → result ≡ Ok tt }
        ensures sink { destination_of self.new ≡ destination_of self.old }
        ensures opened { OnOk result (IsOpenSink self.new) }
        ensures kept { OnOk result (IsKept R.sync_gives self.new) }

        // What the trait says.
        ensures bytes { Keeps (sink_contents R.File.contents self.old)
            (sink_contents R.File.contents self.new) }
    {
        match self {
            Sink::Nowhere => Ok(()),
            Sink::Standard(stdout) => stdout.flush(),
            Sink::File(output) => {
                if output.opened.is_none() {
                    output.opened = Some(apart::create(output.files, &output.name)?);
                }
                match &mut output.opened {
                    Some(file) => {
                        file.flush()?;
                        match output.purpose {
                            Purpose::Key => synchronize(output.files, file),
                            Purpose::Public | Purpose::Secret => Ok(()),
                        }
                    }
                    None => unreachable!(),
                }
            }
        }
    }
}

/// Asks the system to write the file to its disk. It is no failure if that is impossible, as with a pipe or a terminal.
fn synchronize<R: WriteFiles>(files: &R, file: &R::File) -> io::Result<()>
    ensures synchronized { OnOk result (MayBeSynchronized (R.sync_gives files.now file.now)) }
    ensures failed { IfErr result (λ e. R.sync_gives files.now file.now (Err e) × ¬ CannotBeSynchronized e) }
{
    match files.sync(file) {
        Err(e)
            if e.kind() == io::ErrorKind::InvalidInput || e.kind() == io::ErrorKind::Unsupported =>
            { Ok(()) }
        result => result,
    }
}

/// The inputs that the options name. Without `-R` the random octets are those of the system.
pub fn inputs<'a, R: ReadFiles>(
    files: &'a R,
    standard: Stdin,
    invocation: &'a Invocation,
) -> Inputs<ReaderInput<Source<'a, R>>>
    ensures { AreNewInputs (invocation_view invocation.now) result }
{
    let command = invocation.command;
    let text = command.option_at('i').or(command.option_at('s'));
    let content = command.option_at('I');
    let keys = command.option_at('k');
    Inputs {
        text: ReaderInput::new(input_of(files, standard, text, invocation)),
        content: ReaderInput::new(input_of(files, standard, content, invocation)),
        keys: ReaderInput::new(input_of(files, standard, keys, invocation)),
        random: ReaderInput::new(random_source(files, standard, invocation.value('R'))),
    }
}

/// The source of random octets: that of `-R`, which may be any file, or the system's device. Where a copied `/dev` has a file of that name,
/// its octets would be the same in each run, so it has none.
fn random_source<'a, R: ReadFiles>(
    files: &'a R,
    standard: Stdin,
    value: Option<&'a str>,
) -> Source<'a, R>
    ensures named { origin_of result ≡ random_origin (option_map (λ text. text.now) value.entry) }
    ensures unopened { IsUnopenedSource result }
{
    match value {
        None => Source::Device {
            files,
            path: SYSTEM_RANDOM,
            opened: None,
        },
        Some(_) => source_of(files, standard, value, false),
    }
}

/// The input that the option names, if the command has the option.
fn input_of<'a, R: ReadFiles>(
    files: &'a R,
    standard: Stdin,
    option: Option<&OptionRow>,
    invocation: &'a Invocation,
) -> Source<'a, R>
    ensures named { origin_of result
        ≡ origin_at (entry_of option.entry) (invocation_view invocation.now).options }
    ensures unopened { IsUnopenedSource result }
{
    match option {
        Some(OptionRow(letter, _, _, role)) => source_of(
            files,
            standard,
            invocation.value(*letter),
            role.is_json(),
        ),
        None => Source::Words(&[]),
    }
}

fn source_of<'a, R: ReadFiles>(
    files: &'a R,
    standard: Stdin,
    value: Option<&'a str>,
    may_be_json: bool,
) -> Source<'a, R>
    ensures named { origin_of result
        ≡ origin_named may_be_json (option_map (λ text. text.now) value.entry) }
    ensures unopened { IsUnopenedSource result }
{
    match value {
        None => Source::Words(&[]),
        Some("-") => Source::Standard(standard),
        Some(text) if may_be_json && text.starts_with('{') => Source::Words(text.as_bytes()),
        Some(path) => Source::File {
            files,
            path,
            opened: None,
        },
    }
}

/// The outputs that the options name. Neither may be the file of the content that is read while it is written, or that of the keys. The
/// text may not be the file of the detached content either, which is written before it.
pub fn outputs<'a, R: System>(
    files: &'a R,
    standard: Stdout,
    invocation: &'a Invocation,
) -> Outputs<WriterOutput<Sink<'a, R>>>
    ensures { AreNewOutputs (invocation_view invocation.now) result }
{
    let command = invocation.command;
    let text = command.option_at('o');
    let content = command.option_at('O');
    let streamed = file_read(command.option_with(Role::Streamed), invocation);
    let keys = file_read(command.option_with(Role::Keys), invocation);
    let detached = file_written(invocation.value('O'));
    let text_others = [streamed, keys, detached];
    let content_others = [streamed, keys, None];
    Outputs {
        text: WriterOutput::new(output_of(files, standard, text, invocation, text_others)),
        content: WriterOutput::new(output_of(files, standard, content, invocation, content_others)),
    }
}

/// The output that the option names, if the command has the option. It must be none of the other files.
fn output_of<'a, R: System>(
    files: &'a R,
    standard: Stdout,
    option: Option<&OptionRow>,
    invocation: &'a Invocation,
    others: [Option<Place<'a>>; 3],
) -> Sink<'a, R>
    ensures named { destination_of result
        ≡ destination_at (entry_of option.entry) (places others.entry) (invocation_view invocation.now).options }
    ensures unopened { IsUnopenedSink result }
{
    let Some(OptionRow(letter, _, _, role)) = option else {
        return Sink::Nowhere;
    };
    let purpose = purpose_of(*role);
    match invocation.value(*letter) {
        None => Sink::Nowhere,
        Some("-") => Sink::Standard(standard),
        Some(path) => Sink::File(OutputFile {
            files,
            name: files.output_name(path, mode_for(purpose), others),
            purpose,
            opened: None,
        }),
    }
}

/// The mode of a file that is created for this purpose.
fn mode_for(purpose: Purpose) -> u32
    ensures { result ≡ mode_for purpose }
{
    match purpose {
        Purpose::Public => MODE,
        Purpose::Secret | Purpose::Key => SECRET_MODE,
    }
}

fn purpose_of(role: Role) -> Purpose
    ensures { result ≡ purpose_of role }
{
    match role {
        Role::Secret => Purpose::Secret,
        Role::MadeKey => Purpose::Key,
        _ => Purpose::Public,
    }
}

/// The file of the input that the option names. JSON in the words has no file.
fn file_read<'a>(option: Option<&OptionRow>, invocation: &'a Invocation) -> Option<Place<'a>>
    ensures { option_map place_view result
        ≡ file_of (origin_at (entry_of option.entry) (invocation_view invocation.now).options) }
{
    let OptionRow(letter, _, _, role) = *option?;
    match invocation.value(letter) {
        None => None,
        Some("-") => Some(Place::StandardInput),
        Some(text) if role.is_json() && text.starts_with('{') => None,
        Some(path) => Some(Place::Named(path)),
    }
}

/// The file of an output whose option has this value.
fn file_written(value: Option<&str>) -> Option<Place<'_>>
    ensures { option_map place_view result ≡ file_written (option_map (λ text. text.now) value.entry) }
{
    match value {
        None => None,
        Some("-") => Some(Place::StandardOutput),
        Some(path) => Some(Place::Named(path)),
    }
}
