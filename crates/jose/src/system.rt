//! The requests that the program makes of the operating system. No clause of std says how the system answers. So each request has a
//! relation that its answer meets, and nothing more is known of this relation. A function whose clauses promise an answer in this relation
//! can have the answer only from the request.
//!
//! A function can do only what the traits of its type parameters let it do. Over `ReadFiles` it can open a file to read it. Over
//! `WriteFiles` it can also open an output that it was given the name of. It can cut the file only after it compared this file with those
//! that it must not be. Only a `System` makes such names.
ghost use Rattle.std.specs.Prelude.{◌≡◌, ◌⊎◌, ◌↔◌, false, ⊤, List, map, string_bytes, IfOk, IfErr, IsTrue, Option, Result, Ok, Err};
ghost use Rattle.std.specs.declared.io.Error.{Error};
ghost use Rattle.std.specs.Fs.{asks_append, asks_create, asks_create_new, asks_read, asks_truncate, asks_write, file_type, metadata_len, IsFile};
ghost use Rattle.clap.specs.Words.{Text};
ghost use Rattle.octets.specs.declared.refusal.Refusal.{Refusal as Cause};
ghost use Rattle.jose.specs.declared.system.Status.{Status};
ghost use Rattle.jose.specs.System.{PlaceView, place_view, places, Request, request_of, IsRegular, IsCompared};

use octets::Refusal;
use std::fs::{File, Metadata, OpenOptions, metadata};
use std::io;
use std::io::{Read, Write};
use std::os::unix::fs::{FileTypeExt, MetadataExt, OpenOptionsExt};

/// The names of the open standard streams in the system's /proc. Without it std has no call that examines them.
const STANDARD_INPUT: &str = "/proc/self/fd/0";

const STANDARD_OUTPUT: &str = "/proc/self/fd/1";

/// A file that can be examined: that of a standard stream, whatever its name, or that of a name.
#[derive(Clone, Copy)]
pub enum Place<'a> {
    StandardInput,
    StandardOutput,
    Named(&'a str),
}

/// A file under any of its names, whose octets an output could overwrite.
#[derive(Clone, Copy)]
pub enum FileId {
    /// A regular file: the device that it is on, and its inode number there.
    Regular(u64, u64),
    /// A block device: its number.
    Block(u64),
}

/// What the system says of a file: which it is, unless it is neither regular nor a block device, and whether it is known to hold nothing.
#[derive(Clone, Copy)]
pub struct Status {
    pub file: Option<FileId>,
    pub is_empty: bool,
}

/// The name of an output file, the mode that it gets if it is created, and the files that it must not be.
#[derive(Drop)]
pub struct OutputName<'a> {
    path: &'a str,
    mode: u32,
    others: [Option<Place<'a>>; 3],
}

impl<'a> OutputName<'a> {
    pub(crate) fn others(&self) -> [Option<Place<'a>>; 3]
        ensures { places result ≡ (request_of self.now).others }
    {
        self.others
    }
}

/// An output file that is open and was not cut. Nothing can be written to it.
#[derive(Drop)]
pub struct UncutFile(File);

pub trait ReadFiles {
    type File: Read + Write + Drop;

    ghost open_gives: { Self → Text → Result Self.File Error → Type 0 };

    ghost device_gives: { Self → Text → Result (Option Self.File) Error → Type 0 };

    /// Opens the file for reading.
    fn open(&self, path: &str) -> io::Result<Self::File>
        ensures { open_gives self.now path.now result };

    /// Opens the file for reading if it is a character device. Any other file is examined and not opened.
    fn open_device(&self, path: &str) -> io::Result<Option<Self::File>>
        ensures { device_gives self.now path.now result };
}

pub trait WriteFiles: ReadFiles {
    /// An output file that is open and was not cut.
    type Uncut: Drop;

    ghost uncut_gives: { Self → Request → Result Self.Uncut Error → Type 0 };

    ghost own_gives: { Self → Self.Uncut → Result Status Error → Type 0 };

    ghost status_gives: { Self → PlaceView → Result Status Error → Type 0 };

    ghost cut_gives: { Self → Self.Uncut → Result Self.File Error → Type 0 };

    ghost sync_gives: { Self → Self.File → Result (Unit {0}) Error → Type 0 };

    /// Opens the file for writing. If there is no such file, it is created with the mode of its name. What it holds stays.
    fn open_uncut(&self, name: &OutputName<'_>) -> io::Result<Self::Uncut>
        ensures { uncut_gives self.now (request_of name.now) result };

    /// Examines the file that is open.
    fn own_status(&self, uncut: &Self::Uncut) -> io::Result<Status>
        ensures { own_gives self.now uncut.now result };

    /// Examines another file.
    fn status(&self, place: Place<'_>) -> io::Result<Status>
        ensures { status_gives self.now (place_view place.entry) result };

    /// Cuts the file that was opened by this name to nothing, if it is a regular file. It was examined, and compared with the files that it
    /// must not be.
    fn cut(&self, uncut: Self::Uncut, name: &OutputName<'_>) -> io::Result<Self::File>
        requires { IsCompared (own_gives self.now uncut) (status_gives self.now) (request_of name.now).others }
        ensures { cut_gives self.now uncut result };

    /// Brings everything that was written to the file to its disk, and waits for it.
    fn sync(&self, file: &Self::File) -> io::Result<()>
        ensures { sync_gives self.now file.now result };
}

pub trait System: WriteFiles {
    ghost args_gives: { Self → Result (List Text) Cause → Type 0 };

    /// Returns the program's arguments, the program's name first. Refuses with `Usage` if one of them is not UTF-8.
    fn args(&self) -> Result<Vec<String>, Refusal>
        ensures given { IfOk result (λ args. args_gives self.now (Ok (map string_bytes args.items))) }
        ensures refused { IfErr result (λ refusal. args_gives self.now (Err refusal)) }
        ensures refusal { IfErr result (λ refusal. refusal ≡ Refusal.Memory ⊎ refusal ≡ Refusal.Usage) };

    /// Names an output file.
    fn output_name<'a>(
        &self,
        path: &'a str,
        mode: u32,
        others: [Option<Place<'a>>; 3],
    ) -> OutputName<'a>
        ensures { request_of result ≡ record { path = path.now; mode = mode; others = places others.entry } };
}

impl ReadFiles for HostRuntime {
    type File = File;

    ghost open_gives = { λ _ _ _. ⊤ };

    ghost device_gives = { λ _ _ _. ⊤ };

    fn open(&self, path: &str) -> io::Result<File> {
        File::open(self, path)
    }

    fn open_device(&self, path: &str) -> io::Result<Option<File>> {
        if metadata(self, path)?.file_type().is_char_device() {
            Ok(Some(File::open(self, path)?))
        } else {
            Ok(None)
        }
    }
}

impl WriteFiles for HostRuntime {
    type Uncut = UncutFile;

    ghost uncut_gives = { λ _ _ _. ⊤ };

    ghost own_gives = { λ _ _ _. ⊤ };

    ghost status_gives = { λ _ _ _. ⊤ };

    ghost cut_gives = { λ _ _ _. ⊤ };

    ghost sync_gives = { λ _ _ _. ⊤ };

    fn open_uncut(&self, name: &OutputName<'_>) -> io::Result<UncutFile> {
        Ok(UncutFile(output_options(name.mode).open(self, name.path)?))
    }

    fn own_status(&self, uncut: &UncutFile) -> io::Result<Status> {
        Ok(status_of(&uncut.0.metadata()?))
    }

    fn status(&self, place: Place<'_>) -> io::Result<Status> {
        match place {
            Place::StandardInput => Ok(status_of(&metadata(self, STANDARD_INPUT)?)),
            Place::StandardOutput => Ok(status_of(&metadata(self, STANDARD_OUTPUT)?)),
            Place::Named(path) => Ok(status_of(&metadata(self, path)?)),
        }
    }

    fn cut(&self, uncut: UncutFile, _name: &OutputName<'_>) -> io::Result<File>
        ensures { ⊤ }
    {
        let UncutFile(file) = uncut;
        match file.set_len(0) {
            // A file of another kind has no length.
            Err(e) if e.kind() != io::ErrorKind::InvalidInput => Err(e),
            _ => Ok(file),
        }
    }

    fn sync(&self, file: &File) -> io::Result<()> {
        file.sync_all()
    }
}

impl System for HostRuntime {
    ghost args_gives = { λ _ _. ⊤ };

    fn args(&self) -> Result<Vec<String>, Refusal> {
        match std::env::args(self) {
            Ok(args) => Ok(args.collect(self.alloc())?),
            Err(e) if e.kind() == io::ErrorKind::OutOfMemory => Err(Refusal::Memory),
            Err(_) => Err(Refusal::Usage),
        }
    }

    fn output_name<'a>(
        &self,
        path: &'a str,
        mode: u32,
        others: [Option<Place<'a>>; 3],
    ) -> OutputName<'a> {
        OutputName { path, mode, others }
    }
}

/// The options for opening an output file. std does not say what a call of `mode` leaves of the other options, so each of them is set after
/// that call.
fn output_options(mode: u32) -> OpenOptions
    ensures written { IsTrue (asks_write result) }
    ensures created { IsTrue (asks_create result) }
    ensures uncut { asks_truncate result ≡ false }
    ensures unread { asks_read result ≡ false }
    ensures front { asks_append result ≡ false }
    ensures old { asks_create_new result ≡ false }
{
    let mut options = OpenOptions::new();
    options.mode(mode);
    options.read(false).write(true).append(false);
    options.truncate(false).create(true).create_new(false);
    options
}

/// std does not describe the numbers of devices and inodes.
fn status_of(found: &Metadata) -> Status
    ensures file { IsFile (file_type found.now) → IsRegular result.file }
    ensures empty { IsTrue result.is_empty ↔ (IsFile (file_type found.now) × (metadata_len found.now ≡ 0)) }
{
    let kind = found.file_type();
    if kind.is_file() {
        return Status {
            file: Some(FileId::Regular(found.dev(), found.ino())),
            is_empty: found.len() == 0,
        };
    }
    Status {
        file: kind
            .is_block_device()
            .then_some(FileId::Block(found.rdev())),
        is_empty: false,
    }
}
