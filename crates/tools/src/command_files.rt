//! What the system says of the files that words name.
ghost use Rattle.std.specs.Prelude.{ℕ, List, ⊤};
ghost use Rattle.tools.specs.declared.command_files.Found.{Found as Answer};

use crate::disk::Disk;
use std::fs::{File, metadata};
use std::io;
use std::io::ErrorKind;

/// What a file is to a command that reads it.
#[derive(Clone, Copy, Debug, PartialEq, Eq)]
pub enum Found {
    /// A regular file that can be opened.
    File,
    /// There is none of this name.
    Missing,
    /// It cannot be opened.
    Closed,
    /// A folder.
    Folder,
    /// Anything else, such as a pipe or a device. It is not opened.
    Other,
}

/// Files that can be asked for. All that is known of an implementation is a relation: that it answered so.
pub trait FindFiles {
    /// This was answered of the file of this name.
    ghost finds: { Self → List ℕ → Answer → Type 0 };

    /// Says what the file of this name is. It opens regular files alone.
    fn find(&self, path: &str) -> Found
        ensures { finds self.now path.now result };
}

impl FindFiles for Disk<'_> {
    ghost finds = { λ _ _ _. ⊤ };

    fn find(&self, path: &str) -> Found {
        match metadata(self.files, path) {
            Ok(found) if found.is_dir() => Found::Folder,
            Ok(found) if found.is_file() => opened(File::open(self.files, path)),
            Ok(_) => Found::Other,
            Err(e) => why_not_found(e.kind()),
        }
    }
}

fn opened(answer: io::Result<File>) -> Found {
    match answer {
        Ok(_) => Found::File,
        Err(_) => Found::Closed,
    }
}

/// A name is missing if there is no file of it, or if a part of it before a slash is no folder.
fn why_not_found(kind: ErrorKind) -> Found {
    match kind {
        ErrorKind::NotFound | ErrorKind::NotADirectory => Found::Missing,
        _ => Found::Closed,
    }
}
