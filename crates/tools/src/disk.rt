//! The files of the operating system, and the standard streams, for `jose-set`.
ghost use Rattle.std.specs.Prelude.{◌≡◌, ◌⊎◌, ⊤, Some, false, IfErr};
ghost use Rattle.jose.specs.Files.{origin_of, origin_named, IsUnopenedSource};
ghost use Rattle.tools.specs.Disks.{IsReadWhole, IsWrittenWhole};

use crate::put_files::{NotCreated, NotOpened, PutFiles};
use jose::{ReadFiles, Source};
use octets::{Fault, ReaderInput, Refusal, WriterOutput, emit, read_to_end};
use std::alloc::Global;
use std::fs::{File, Metadata, OpenOptions, remove_file, rename, symlink_metadata};
use std::io;
use std::io::{ErrorKind, Stdin, Stdout, Write};
use std::os::fd::AsFd;
use std::os::unix::fs::{MetadataExt, OpenOptionsExt, fchown};

/// The mode of a new file: readable and writable by its owner alone.
const SECRET_MODE: u32 = 0o600;

/// The bits of a mode by which others than the owner may open a file. With an access control list those of the group are its mask, the most
/// that it gives to anyone whom it names.
const OTHERS_BITS: u32 = 0o077;

/// The files of the system, and the standard streams.
#[derive(Drop)]
pub(crate) struct Disk<'a> {
    pub(crate) files: &'a HostRuntime,
    pub(crate) input: Stdin,
    pub(crate) output: Stdout,
}

/// A file whose octets are on the disk.
#[derive(Drop)]
pub(crate) struct SyncedFile(File);

impl PutFiles for Disk<'_> {
    type Old = File;

    type New = File;

    type Synced = SyncedFile;

    ghost made = { λ _ _. ⊤ };

    ghost is_old = { λ _ _. ⊤ };

    ghost is_new = { λ _ _. ⊤ };

    ghost is_synced = { λ _ _. ⊤ };

    fn open_old(&mut self, path: &str) -> Result<File, NotOpened> {
        // So no pipe and no device is opened, as long as nobody exchanges the name.
        needs_file(symlink_metadata(self.files, path))?;
        let mut options = OpenOptions::new();
        options.read(true).write(true);
        let Ok(file) = options.open(self.files, path) else {
            return Err(NotOpened::NotWritable);
        };
        let found = needs_file(file.metadata())?;
        // The kit cannot ask the system to follow no link. If the name itself is that of the open file, none was followed.
        let named = needs_file(symlink_metadata(self.files, path))?;
        if !is_same_file(&found, &named) {
            return Err(NotOpened::NoFile);
        }
        if found.mode() & OTHERS_BITS == 0 {
            Ok(file)
        } else {
            Err(NotOpened::Shared)
        }
    }

    fn read_old(&mut self, alloc: Global, old: &mut File, _path: &str) -> Result<Vec<u8>, Refusal> {
        in_reading(read_to_end(alloc, &mut ReaderInput::new(old)))
    }

    fn read(&mut self, alloc: Global, path: &str) -> Result<Vec<u8>, Refusal> {
        in_reading(read_whole(alloc, self.files, self.input, path))
    }

    fn write_out(&mut self, octets: &[u8]) -> Result<(), Fault> {
        write_whole_to(self.output, octets)
    }

    fn create_new(&mut self, path: &str) -> Result<File, NotCreated> {
        let mut options = OpenOptions::new();
        options.mode(SECRET_MODE);
        options.write(true).create_new(true);
        match options.open(self.files, path) {
            Ok(file) => Ok(file),
            Err(e) => Err(why_not_created(e.kind())),
        }
    }

    fn write(&mut self, new: &mut File, _path: &str, octets: &[u8]) -> Result<(), Fault> {
        caused(new.write_all(octets))
    }

    fn own_as(&mut self, new: &File, _path: &str, old: &File, _set: &str) -> Result<(), Fault> {
        let (Ok(made), Ok(found)) = (new.metadata(), old.metadata()) else {
            return Err(Fault::Writing);
        };
        let group = Some(found.gid());
        if made.uid() == found.uid() {
            // Its owner has the file already. The group may not open it, so it matters little whether it can be kept.
            let _ = fchown(new.as_fd(), None, group);
            return Ok(());
        }
        caused(fchown(new.as_fd(), Some(found.uid()), group))
    }

    fn sync(&mut self, new: File, _path: &str) -> Result<SyncedFile, Fault> {
        caused(new.sync_all())?;
        Ok(SyncedFile(new))
    }

    fn put(&mut self, _file: SyncedFile, from: &str, to: &str) -> Result<(), Fault> {
        caused(rename(self.files, from, to))
    }

    fn remove(&mut self, path: &str) -> Result<(), Fault> {
        caused(remove_file(self.files, path))
    }

    fn sync_folder(&mut self, path: &str) -> Result<(), Fault> {
        let Ok(folder) = File::open(self.files, folder_of(path)) else {
            return Err(Fault::Writing);
        };
        match folder.sync_all() {
            Err(e) if cannot_be_synchronized(e.kind()) => Ok(()),
            answer => caused(answer),
        }
    }
}

fn caused(answer: io::Result<()>) -> Result<(), Fault> {
    match answer {
        Ok(()) => Ok(()),
        Err(_) => Err(Fault::Writing),
    }
}

/// What the system found, if it is a regular file.
fn needs_file(found: io::Result<Metadata>) -> Result<Metadata, NotOpened> {
    match found {
        Ok(found) if found.is_file() => Ok(found),
        Ok(found) if found.is_symlink() => Err(NotOpened::Link),
        _ => Err(NotOpened::NoFile),
    }
}

fn is_same_file(one: &Metadata, other: &Metadata) -> bool {
    one.dev() == other.dev() && one.ino() == other.ino()
}

/// The refusal of a reading.
fn in_reading(text: Result<Vec<u8>, Refusal>) -> Result<Vec<u8>, Refusal>
    ensures { IfErr result (λ refusal. refusal ≡ Refusal.Read ⊎ refusal ≡ Refusal.Memory) }
{
    match text {
        Ok(text) => Ok(text),
        Err(Refusal::Memory) => Err(Refusal::Memory),
        Err(_) => Err(Refusal::Read),
    }
}

fn why_not_created(kind: ErrorKind) -> NotCreated {
    match kind {
        ErrorKind::AlreadyExists => NotCreated::Exists,
        _ => NotCreated::Failed,
    }
}

/// The kinds of errors by which the system says that a folder cannot be brought to a disk.
fn cannot_be_synchronized(kind: ErrorKind) -> bool {
    matches!(kind, ErrorKind::InvalidInput | ErrorKind::Unsupported)
}

/// The folder of a name.
fn folder_of(path: &str) -> &str {
    match path.rsplit_once('/') {
        None => ".",
        Some((folder, _)) => { if folder.is_empty() { "/" } else { folder } }
    }
}

/// Reads the file of this name, or standard input, to its end.
fn read_whole<R: ReadFiles>(
    alloc: Global,
    files: &R,
    input: Stdin,
    path: &str,
) -> Result<Vec<u8>, Refusal>
    ensures { IsReadWhole R R.File path.now result }
{
    let mut input = ReaderInput::new(source_of(files, input, path));
    read_to_end(alloc, &mut input)
}

/// Writes the octets to the output, and finishes it.
fn write_whole_to<W: Write + Drop>(output: W, octets: &[u8]) -> Result<(), Fault>
    ensures { IsWrittenWhole W octets.now result }
{
    let mut output = WriterOutput::new(output);
    match emit(&mut output, octets) {
        Ok(()) => Ok(()),
        Err(_) => Err(Fault::Writing),
    }
}

/// The source of the file of this name, which is not open yet. `-` is standard input.
fn source_of<'a, R: ReadFiles>(files: &'a R, input: Stdin, path: &'a str) -> Source<'a, R>
    ensures named { origin_of result ≡ origin_named false (Some path.entry.now) }
    ensures unopened { IsUnopenedSource result }
{
    match path {
        "-" => Source::Standard(input),
        path => Source::File {
            files,
            path,
            opened: None,
        },
    }
}
