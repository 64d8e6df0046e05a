//! The requests that `jose-set` makes of the operating system. As in `jose::ReadFiles`, all that is known of an implementation is a relation:
//! that these calls were made of it, in this order. A call adds itself, with its answer. So a function that promises which calls it made can
//! have made no other.
ghost use Rattle.std.specs.Prelude.{◌≡◌, ◌⊎◌, ℕ, List, option_map, IfOk, IfErr};
ghost use Rattle.std.specs.Result.{is_ok, result_ok};
ghost use Rattle.tools.specs.Calls.{Call, Makes, opened, read_opened, read, written_out, created, wrote, owned, synced, put, removed, folder_synced, as_done};

use octets::{Fault, Refusal};
use std::alloc::Global;

/// Why the set that is changed was not opened.
#[derive(Clone, Copy, Debug, PartialEq, Eq)]
pub enum NotOpened {
    /// The name itself is a symbolic link.
    Link,
    /// It is no regular file, or another one when it was open.
    NoFile,
    /// Others than its owner may open it.
    Shared,
    /// It may not be read and written.
    NotWritable,
}

/// Why a file was not created.
#[derive(Clone, Copy, Debug, PartialEq, Eq)]
pub enum NotCreated {
    /// There is a file of this name.
    Exists,
    /// Another reason.
    Failed,
}

/// Files that can be read, and be replaced by new ones.
pub trait PutFiles {
    /// The set that is changed, which is open for reading and writing.
    type Old: Drop;

    /// A new file that is open for writing.
    type New: Drop;

    /// A new file whose octets are all on the disk. Only such a file can be put in the place of another.
    type Synced: Drop;

    /// These calls were made, in this order.
    ghost made: { Self → List Call → Type 0 };

    /// The open file had this name when it was opened.
    ghost is_old: { Self.Old → List ℕ → Type 0 };

    /// The new file has this name.
    ghost is_new: { Self.New → List ℕ → Type 0 };

    ghost is_synced: { Self.Synced → List ℕ → Type 0 };

    /// Opens the regular file of this name, which only its owner may open. No link is followed. Another file may get the name later: what is
    /// read and whose owner is kept is decided here.
    fn open_old(&mut self, path: &str) -> Result<Self::Old, NotOpened>
        ensures made { Makes made self.old self.new (opened path.now (as_done result)) }
        ensures name { IfOk result (λ old. is_old old path.now) };

    /// Reads the whole open file. Refuses with `Read` or `Memory`.
    fn read_old(
        &mut self,
        alloc: Global,
        old: &mut Self::Old,
        path: &str,
    ) -> Result<Vec<u8>, Refusal>
        requires { is_old old.old path.now }
        ensures made { Makes made self.old self.new (read_opened path.now (option_map (λ octets. octets.items) (result_ok result))) }
        ensures refusal { IfErr result (λ refusal. refusal ≡ Refusal.Read ⊎ refusal ≡ Refusal.Memory) }
        ensures name { is_old old.new path.now };

    /// Reads the whole file of this name. `-` is standard input. Refuses with `Read` or `Memory`.
    fn read(&mut self, alloc: Global, path: &str) -> Result<Vec<u8>, Refusal>
        ensures made { Makes made self.old self.new (read path.now (option_map (λ octets. octets.items) (result_ok result))) }
        ensures refusal { IfErr result (λ refusal. refusal ≡ Refusal.Read ⊎ refusal ≡ Refusal.Memory) };

    /// Writes all of the octets to standard output, and finishes it.
    fn write_out(&mut self, octets: &[u8]) -> Result<(), Fault>
        ensures { Makes made self.old self.new (written_out octets.now (is_ok result)) };

    /// Creates a new file of mode 600, for writing. If there is a file of this name, even a link, none is created.
    fn create_new(&mut self, path: &str) -> Result<Self::New, NotCreated>
        ensures made { Makes made self.old self.new (created path.now (as_done result)) }
        ensures name { IfOk result (λ new. is_new new path.now) };

    /// Writes all of the octets to the new file of this name.
    fn write(&mut self, new: &mut Self::New, path: &str, octets: &[u8]) -> Result<(), Fault>
        requires { is_new new.old path.now }
        ensures made { Makes made self.old self.new (wrote path.now octets.now (is_ok result)) }
        ensures name { is_new new.new path.now };

    /// Gives the new file of this name the owner of the open file, and its group where the system allows it. Its mode stays 600.
    fn own_as(
        &mut self,
        new: &Self::New,
        path: &str,
        old: &Self::Old,
        set: &str,
    ) -> Result<(), Fault>
        requires new { is_new new.now path.now }
        requires old { is_old old.now set.now }
        ensures { Makes made self.old self.new (owned path.now set.now (is_ok result)) };

    /// Brings all octets of the new file of this name to the disk, and waits for it.
    fn sync(&mut self, new: Self::New, path: &str) -> Result<Self::Synced, Fault>
        requires { is_new new path.now }
        ensures made { Makes made self.old self.new (synced path.now (is_ok result)) }
        ensures name { IfOk result (λ file. is_synced file path.now) };

    /// Gives the file of this name another name. A file that had this other name is replaced in one step.
    fn put(&mut self, file: Self::Synced, from: &str, to: &str) -> Result<(), Fault>
        requires { is_synced file from.now }
        ensures { Makes made self.old self.new (put from.now to.now (is_ok result)) };

    /// Deletes the file of this name.
    fn remove(&mut self, path: &str) -> Result<(), Fault>
        ensures { Makes made self.old self.new (removed path.now (is_ok result)) };

    /// Brings the folder of this name to the disk, and waits for it.
    fn sync_folder(&mut self, path: &str) -> Result<(), Fault>
        ensures { Makes made self.old self.new (folder_synced path.now (is_ok result)) };
}
