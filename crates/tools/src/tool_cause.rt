//! Why `jose-set` or `jose-look` refuses.
ghost use Rattle.std.specs.Prelude.{◌≡◌, false, IfOk, OnOk};
ghost use Rattle.octets.specs.Code.Results.{is_memory};
ghost use Rattle.tools.specs.Steps.{needs as needed};

use octets::Refusal;
use std::alloc::{AllocError, AllocFailed};
use std::marker::Model;

/// What a cause names.
#[derive(Clone, Copy, Debug, PartialEq, Eq)]
pub enum Place {
    /// The first word: the set that is changed, or the set that `-o` makes.
    Target,
    /// The new file beside it, whose name ends with `.new`.
    Beside,
    /// The file at this place among the files, from 0.
    File(usize),
}

/// The thumbprint of a key by SHA-256 (RFC 7638).
#[derive(Drop)]
pub struct Thumbprint {
    pub(crate) text: String,
}

impl Model for Thumbprint {
    ghost use Rattle.std.specs.Prelude.{List, ℕ, string_bytes};

    ghost Value = { List ℕ };

    ghost view = { λ thumbprint. string_bytes thumbprint.text };
}

impl Thumbprint {
    ghost use Rattle.std.specs.Prelude.{◌≡◌};

    pub(crate) fn as_str(&self) -> &str
        ensures { result.now ≡ self.now }
    {
        self.text.as_str()
    }
}

/// What is wrong with a place.
#[derive(Drop)]
pub enum Why {
    /// It cannot be read.
    Unread,
    /// It is refused as `jose` refuses it.
    Refused(Refusal),
    /// The set has another member than `keys`.
    OtherMember,
    /// A key of this thumbprint is there already.
    KeyTwice(Thumbprint),
    /// It is a key, and not a set.
    NoSet,
    /// It is not a regular file.
    NoFile,
    /// It is a symbolic link.
    Link,
    /// It may not be read and written.
    NotWritable,
    /// Others than its owner may open it.
    Shared,
    /// No key has the thumbprint at this place among the words, from 0.
    NoKey(usize),
    /// No key would stay.
    NoneStays,
    /// There is a file already.
    Exists,
    /// So it is, and another `jose-set` made it.
    Claimed,
    /// It cannot be created.
    NotCreated,
    /// It cannot be written.
    NotWritten,
    /// It cannot be brought to the disk.
    NotOnDisk,
    /// It cannot be replaced.
    NotReplaced,
    /// It cannot be deleted.
    NotDeleted,
    /// It was changed, but its folder cannot be brought to the disk.
    FolderNotOnDisk,
}

/// Why `jose-set` or `jose-look` refuses.
#[derive(Drop)]
pub enum ToolCause {
    /// The words ask for nothing.
    Usage,
    Memory,
    /// Standard input is to be read twice.
    InputTwice,
    /// Standard input is to be changed.
    InputSet,
    /// Standard output cannot be written.
    Output,
    /// A file that is shown cannot be read, as a line of the output says.
    NotAllRead,
    At(Place, Why),
}

impl From<AllocError> for ToolCause {
    ghost use Rattle.tools.specs.declared.tool_cause.ToolCause.TheVariants.{Memory};

    ghost from_gives = { λ _ cause. cause ≡ Memory };

    fn from(_: AllocError) -> ToolCause {
        ToolCause::Memory
    }
}

impl<T: Drop> From<AllocFailed<T>> for ToolCause {
    ghost use Rattle.tools.specs.declared.tool_cause.ToolCause.TheVariants.{Memory};

    ghost from_gives = { λ _ cause. cause ≡ Memory };

    fn from(_: AllocFailed<T>) -> ToolCause {
        ToolCause::Memory
    }
}

/// The refusal, unless it is `Memory`.
pub(crate) fn unless_memory(refusal: Refusal) -> Result<Refusal, AllocError>
    ensures is { IfOk result (λ same. same ≡ refusal) }
    ensures other { OnOk result (is_memory refusal ≡ false) }
{
    match refusal {
        Refusal::Memory => Err(AllocError),
        other => Ok(other),
    }
}

/// Refuses with this cause unless the test holds.
pub(crate) fn needs(test: bool, cause: ToolCause) -> Result<(), ToolCause>
    ensures { result ≡ needed test cause }
{
    if test { Ok(()) } else { Err(cause) }
}
