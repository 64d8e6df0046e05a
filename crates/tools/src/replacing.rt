//! New files that are put in the place of others.
ghost use Rattle.std.specs.Prelude.{◌≡◌, Ok, IfOk};
ghost use Rattle.tools.specs.Calls.{as_done, wrote, owned, synced, put};
ghost use Rattle.tools.specs.Steps.{Takes, Calls};
ghost use Rattle.tools.specs.Changes.{Opens, opening_why, Creates, creation_cause, Places, Fills, Refills, Deletes, EndsAt};

use crate::put_files::{NotCreated, NotOpened, PutFiles};
use crate::tool_cause::{Place, ToolCause, Why};

/// Opens the set that is changed.
pub(crate) fn open<D: PutFiles>(disk: &mut D, set: &str) -> Result<D::Old, ToolCause>
    ensures takes { Takes D.made disk.old disk.new (Opens set.now) (as_done result) }
    ensures name { IfOk result (λ old. D.is_old old set.now) }
{
    match disk.open_old(set) {
        Ok(old) => Ok(old),
        Err(failure) => Err(ToolCause::At(Place::Target, opening_why(failure))),
    }
}

fn opening_why(failure: NotOpened) -> Why
    ensures { result ≡ opening_why failure }
{
    match failure {
        NotOpened::Link => Why::Link,
        NotOpened::NoFile => Why::NoFile,
        NotOpened::Shared => Why::Shared,
        NotOpened::NotWritable => Why::NotWritable,
    }
}

/// Creates a new file. If there is one, `taken` says why it is refused.
pub(crate) fn create<D: PutFiles>(
    disk: &mut D,
    path: &str,
    place: Place,
    taken: Why,
) -> Result<D::New, ToolCause>
    ensures takes { Takes D.made disk.old disk.new (Creates path.now place taken) (as_done result) }
    ensures name { IfOk result (λ new. D.is_new new path.now) }
{
    match disk.create_new(path) {
        Ok(new) => Ok(new),
        Err(failure) => Err(creation_cause(place, taken, failure)),
    }
}

fn creation_cause(place: Place, taken: Why, failure: NotCreated) -> ToolCause
    ensures { result ≡ creation_cause place taken failure }
{
    match failure {
        NotCreated::Exists => ToolCause::At(place, taken),
        NotCreated::Failed => ToolCause::At(place, Why::NotCreated),
    }
}

/// Deletes the file after a refusal.
pub(crate) fn delete_after<D: PutFiles>(
    disk: &mut D,
    path: &str,
    place: Place,
    outcome: Result<(), ToolCause>,
) -> Result<(), ToolCause>
    ensures { Takes D.made disk.old disk.new (Deletes path.now place outcome) result }
{
    match outcome {
        Ok(()) => Ok(()),
        Err(cause) => match disk.remove(path) {
            Ok(()) => Err(cause),
            Err(_) => Err(ToolCause::At(place, Why::NotDeleted)),
        },
    }
}

/// Brings the folder of the file that was changed to the disk.
pub(crate) fn end_at<D: PutFiles>(disk: &mut D, target: &str) -> Result<(), ToolCause>
    ensures { Takes D.made disk.old disk.new (EndsAt target.now) result }
{
    match disk.sync_folder(target) {
        Ok(()) => Ok(()),
        Err(_) => Err(ToolCause::At(Place::Target, Why::FolderNotOnDisk)),
    }
}

/// Writes the text to the new file, and puts this in the place of the target.
pub(crate) fn fill<D: PutFiles>(
    disk: &mut D,
    mut new: D::New,
    path: &str,
    target: &str,
    text: &str,
) -> Result<(), ToolCause>
    requires { D.is_new new path.now }
    ensures { Takes D.made disk.old disk.new (Fills path.now target.now text.now) result }
{
    write(disk, &mut new, path, text)?;
    place(disk, new, path, target)
}

/// So it does, and gives the new file the owner of the target, which is open.
pub(crate) fn refill<D: PutFiles>(
    disk: &mut D,
    mut new: D::New,
    path: &str,
    old: &D::Old,
    target: &str,
    text: &str,
) -> Result<(), ToolCause>
    requires new { D.is_new new path.now }
    requires old { D.is_old old.now target.now }
    ensures { Takes D.made disk.old disk.new (Refills path.now target.now text.now) result }
{
    write(disk, &mut new, path, text)?;
    own(disk, &new, path, old, target)?;
    place(disk, new, path, target)
}

fn write<D: PutFiles>(
    disk: &mut D,
    new: &mut D::New,
    path: &str,
    text: &str,
) -> Result<(), ToolCause>
    requires { D.is_new new.old path.now }
    ensures takes { Takes D.made disk.old disk.new (Calls (wrote path.now text.now) (ToolCause.At Place.Beside Why.NotWritten)) result }
    ensures name { D.is_new new.new path.now }
{
    match disk.write(new, path, text.as_bytes()) {
        Ok(()) => Ok(()),
        Err(_) => Err(ToolCause::At(Place::Beside, Why::NotWritten)),
    }
}

fn own<D: PutFiles>(
    disk: &mut D,
    new: &D::New,
    path: &str,
    old: &D::Old,
    set: &str,
) -> Result<(), ToolCause>
    requires new { D.is_new new.now path.now }
    requires old { D.is_old old.now set.now }
    ensures { Takes D.made disk.old disk.new (Calls (owned path.now set.now) (ToolCause.At Place.Beside Why.NotWritten)) result }
{
    match disk.own_as(new, path, old, set) {
        Ok(()) => Ok(()),
        Err(_) => Err(ToolCause::At(Place::Beside, Why::NotWritten)),
    }
}

/// Brings the new file to the disk, and only then puts it in the place of the target.
fn place<D: PutFiles>(disk: &mut D, new: D::New, path: &str, target: &str) -> Result<(), ToolCause>
    requires { D.is_new new path.now }
    ensures { Takes D.made disk.old disk.new (Places path.now target.now) result }
{
    let file = sync(disk, new, path)?;
    put(disk, file, path, target)
}

fn sync<D: PutFiles>(disk: &mut D, new: D::New, path: &str) -> Result<D::Synced, ToolCause>
    requires { D.is_new new path.now }
    ensures takes { Takes D.made disk.old disk.new (Calls (synced path.now) (ToolCause.At Place.Beside Why.NotOnDisk)) (as_done result) }
    ensures name { IfOk result (λ file. D.is_synced file path.now) }
{
    match disk.sync(new, path) {
        Ok(file) => Ok(file),
        Err(_) => Err(ToolCause::At(Place::Beside, Why::NotOnDisk)),
    }
}

fn put<D: PutFiles>(disk: &mut D, file: D::Synced, from: &str, to: &str) -> Result<(), ToolCause>
    requires { D.is_synced file from.now }
    ensures { Takes D.made disk.old disk.new (Calls (put from.now to.now) (ToolCause.At Place.Target Why.NotReplaced)) result }
{
    match disk.put(file, from, to) {
        Ok(()) => Ok(()),
        Err(_) => Err(ToolCause::At(Place::Target, Why::NotReplaced)),
    }
}
