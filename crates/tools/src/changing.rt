//! What `jose-set` does with its files, call by call.
ghost use Rattle.std.specs.Prelude.{◌≡◌, ◌+◌, ◌^◌, ◌<◌, length, map, string_bytes, Ok};
ghost use Rattle.serde_json.specs.View.{items_view};
ghost use Rattle.tools.specs.Calls.{read, read_opened, written_out};
ghost use Rattle.tools.specs.Steps.{Calls, GivesUnlessMemory, Takes};
ghost use Rattle.tools.specs.Sets.{no_keys, set_keys, set_text, text_without, with_text};
ghost use Rattle.tools.specs.SetViews.{joined_view, seen, editing};
ghost use Rattle.tools.specs.SetRequests.{asked_by};
ghost use Rattle.tools.specs.Changes.{Changes, Edits, EditsBeside, Gathers, Judges, JoinsInto, JoinsOut, PutsClaimed, Reads, ReadsAdded, ReadsEdited, ReadsJoined, Rewrites, beside, reading_cause};

use crate::joining::{no_keys, set_keys, set_text, with_text};
use crate::put_files::PutFiles;
use crate::removing::text_without;
use crate::replacing::{create, delete_after, end_at, fill, open, refill};
use crate::set_words::SetRequest;
use crate::sets::JoinedSet;
use crate::tool_cause::{Place, ToolCause, Why};
use octets::Refusal;
use std::alloc::Global;

/// What is done to a set.
#[derive(Clone, Copy)]
pub(crate) enum Edit<'w> {
    /// The keys of these files are added.
    Add(&'w [String]),
    /// The keys with these thumbprints are removed.
    Remove(&'w [String]),
}

/// Does what the words ask for.
pub fn change_set<D: PutFiles>(
    alloc: Global,
    disk: &mut D,
    request: SetRequest<'_>,
) -> Result<(), ToolCause>
    ensures { Takes D.made disk.old disk.new (Changes (asked_by request.entry)) result }
{
    match request {
        SetRequest::Join { new: None, files } => join_out(alloc, disk, files),
        SetRequest::Join {
            new: Some(new),
            files,
        } => join_into(alloc, disk, new, files),
        SetRequest::Add { set, files } => edit_set(alloc, disk, set, Edit::Add(files)),
        SetRequest::Remove { set, thumbprints } => {
            edit_set(alloc, disk, set, Edit::Remove(thumbprints))
        }
    }
}

/// Joins the keys of the files, and writes the set to standard output.
fn join_out<D: PutFiles>(alloc: Global, disk: &mut D, files: &[String]) -> Result<(), ToolCause>
    ensures { Takes D.made disk.old disk.new (JoinsOut (map string_bytes files.now)) result }
{
    let text = read_joined(alloc, disk, files)?;
    write_out(disk, text.as_bytes())
}

/// Writes the octets to standard output.
pub(crate) fn write_out<D: PutFiles>(disk: &mut D, octets: &[u8]) -> Result<(), ToolCause>
    ensures { Takes D.made disk.old disk.new (Calls (written_out octets.now) ToolCause.Output) result }
{
    match disk.write_out(octets) {
        Ok(()) => Ok(()),
        Err(_) => Err(ToolCause::Output),
    }
}

/// Joins the keys of the files, and puts the set into a new file. Its name is claimed by an empty file first, so that no other file that
/// gets this name meanwhile is replaced.
fn join_into<D: PutFiles>(
    alloc: Global,
    disk: &mut D,
    new: &str,
    files: &[String],
) -> Result<(), ToolCause>
    ensures { Takes D.made disk.old disk.new (JoinsInto new.now (map string_bytes files.now)) result }
{
    let text = read_joined(alloc, disk, files)?;
    let path = beside(alloc, new)?;
    create(disk, new, Place::Target, Why::Exists)?;
    let outcome = put_claimed(disk, path.as_str(), new, text.as_str());
    delete_after(disk, new, Place::Target, outcome)?;
    end_at(disk, new)
}

/// Puts a new file with the text in the place of the target.
fn put_claimed<D: PutFiles>(
    disk: &mut D,
    path: &str,
    target: &str,
    text: &str,
) -> Result<(), ToolCause>
    ensures { Takes D.made disk.old disk.new (PutsClaimed path.now target.now text.now) result }
{
    let new = create(disk, path, Place::Beside, Why::Claimed)?;
    let outcome = fill(disk, new, path, target, text);
    delete_after(disk, path, Place::Beside, outcome)
}

/// Changes the set.
fn edit_set<D: PutFiles>(
    alloc: Global,
    disk: &mut D,
    set: &str,
    edit: Edit<'_>,
) -> Result<(), ToolCause>
    ensures { Takes D.made disk.old disk.new (Edits set.now (editing edit.entry)) result }
{
    let old = open(disk, set)?;
    let path = beside(alloc, set)?;
    edit_beside(alloc, disk, path.as_str(), old, set, edit)
}

/// Changes the set. The new file beside it is its lock: it is created before the set is read.
fn edit_beside<D: PutFiles>(
    alloc: Global,
    disk: &mut D,
    path: &str,
    old: D::Old,
    set: &str,
    edit: Edit<'_>,
) -> Result<(), ToolCause>
    requires { D.is_old old set.now }
    ensures { Takes D.made disk.old disk.new (EditsBeside path.now set.now (editing edit.entry)) result }
{
    let new = create(disk, path, Place::Beside, Why::Claimed)?;
    let outcome = rewrite(alloc, disk, new, path, old, set, edit);
    delete_after(disk, path, Place::Beside, outcome)?;
    end_at(disk, set)
}

/// Puts the changed set in the place of the set.
fn rewrite<D: PutFiles>(
    alloc: Global,
    disk: &mut D,
    new: D::New,
    path: &str,
    mut old: D::Old,
    set: &str,
    edit: Edit<'_>,
) -> Result<(), ToolCause>
    requires new { D.is_new new path.now }
    requires old { D.is_old old set.now }
    ensures { Takes D.made disk.old disk.new (Rewrites path.now set.now (editing edit.entry)) result }
{
    let text = read_edited(alloc, disk, &mut old, set, edit)?;
    refill(disk, new, path, &old, set, text.as_str())
}

/// The name of the new file beside a file.
fn beside(alloc: Global, path: &str) -> Result<String, ToolCause>
    ensures { GivesUnlessMemory string_bytes result (Ok (beside path.now)) }
{
    let mut name = String::from_str(alloc, path)?;
    name.push_str(".new")?;
    Ok(name)
}

/// The text of the changed set.
fn read_edited<D: PutFiles>(
    alloc: Global,
    disk: &mut D,
    old: &mut D::Old,
    set: &str,
    edit: Edit<'_>,
) -> Result<String, ToolCause>
    requires { D.is_old old.old set.now }
    ensures takes { Takes D.made disk.old disk.new (ReadsEdited set.now (editing edit.entry)) (seen string_bytes result) }
    ensures name { D.is_old old.new set.now }
{
    match edit {
        Edit::Add(files) => read_added(alloc, disk, old, set, files),
        Edit::Remove(names) => read_without(alloc, disk, old, set, names),
    }
}

/// The text of the set of the keys of the files.
fn read_joined<D: PutFiles>(
    alloc: Global,
    disk: &mut D,
    files: &[String],
) -> Result<String, ToolCause>
    ensures { Takes D.made disk.old disk.new (ReadsJoined (map string_bytes files.now)) (seen string_bytes result) }
{
    let joined = gather_all(alloc, disk, files)?;
    joined_text(alloc, joined)
}

/// The text of the set with the keys of the files at its end.
fn read_added<D: PutFiles>(
    alloc: Global,
    disk: &mut D,
    old: &mut D::Old,
    set: &str,
    files: &[String],
) -> Result<String, ToolCause>
    requires { D.is_old old.old set.now }
    ensures takes { Takes D.made disk.old disk.new (ReadsAdded set.now (map string_bytes files.now)) (seen string_bytes result) }
    ensures name { D.is_old old.new set.now }
{
    let first = read_set(alloc, disk, old, set)?;
    let joined = gather(alloc, disk, 0, first, files)?;
    joined_text(alloc, joined)
}

fn joined_text(alloc: Global, joined: JoinedSet) -> Result<String, ToolCause>
    ensures { GivesUnlessMemory string_bytes result (Ok (set_text (items_view joined.objects.items))) }
{
    Ok(set_text(alloc, joined.objects)?)
}

/// The keys of the files.
fn gather_all<D: PutFiles>(
    alloc: Global,
    disk: &mut D,
    files: &[String],
) -> Result<JoinedSet, ToolCause>
    ensures { Takes D.made disk.old disk.new (Gathers 0 no_keys (map string_bytes files.now)) (seen joined_view result) }
{
    gather(alloc, disk, 0, no_keys(alloc), files)
}

/// Reads the files one after another, and judges each before the next is read.
fn gather<D: PutFiles>(
    alloc: Global,
    disk: &mut D,
    at: usize,
    joined: JoinedSet,
    files: &[String],
) -> Result<JoinedSet, ToolCause>
    requires { at + length files.now < 2 ^ 64 }
    ensures { Takes D.made disk.old disk.new (Gathers at (joined_view joined) (map string_bytes files.now)) (seen joined_view result) }
{
    match files {
        [] => Ok(joined),
        [file, rest @ ..] => {
            let more = read_with(alloc, disk, Place::File(at), joined, file.as_str())?;
            gather(alloc, disk, at + 1, more, rest)
        }
    }
}

/// With the keys of the file.
fn read_with<D: PutFiles>(
    alloc: Global,
    disk: &mut D,
    place: Place,
    joined: JoinedSet,
    file: &str,
) -> Result<JoinedSet, ToolCause>
    ensures { Takes D.made disk.old disk.new (Judges (read file.now) place (with_text place (joined_view joined))) (seen joined_view result) }
{
    let text = read(alloc, disk, place, file)?;
    with_text(alloc, place, joined, &text)
}

/// The keys of the file, which must be a set.
fn read_set<D: PutFiles>(
    alloc: Global,
    disk: &mut D,
    old: &mut D::Old,
    set: &str,
) -> Result<JoinedSet, ToolCause>
    requires { D.is_old old.old set.now }
    ensures takes { Takes D.made disk.old disk.new (Judges (read_opened set.now) Place.Target set_keys) (seen joined_view result) }
    ensures name { D.is_old old.new set.now }
{
    let text = read_old(alloc, disk, old, set)?;
    set_keys(alloc, &text)
}

/// The text of the set without the keys of these thumbprints.
fn read_without<D: PutFiles>(
    alloc: Global,
    disk: &mut D,
    old: &mut D::Old,
    set: &str,
    names: &[String],
) -> Result<String, ToolCause>
    requires { D.is_old old.old set.now }
    ensures takes { Takes D.made disk.old disk.new (Judges (read_opened set.now) Place.Target (text_without (map string_bytes names.now))) (seen string_bytes result) }
    ensures name { D.is_old old.new set.now }
{
    let text = read_old(alloc, disk, old, set)?;
    text_without(alloc, names, &text)
}

/// Reads the whole set, which is open.
fn read_old<D: PutFiles>(
    alloc: Global,
    disk: &mut D,
    old: &mut D::Old,
    set: &str,
) -> Result<Vec<u8>, ToolCause>
    requires { D.is_old old.old set.now }
    ensures takes { Takes D.made disk.old disk.new (Reads (read_opened set.now) Place.Target) (seen (λ text. text.items) result) }
    ensures name { D.is_old old.new set.now }
{
    match disk.read_old(alloc, old, set) {
        Ok(text) => Ok(text),
        Err(refusal) => Err(reading_cause(Place::Target, refusal)),
    }
}

/// Reads the whole file.
fn read<D: PutFiles>(
    alloc: Global,
    disk: &mut D,
    place: Place,
    path: &str,
) -> Result<Vec<u8>, ToolCause>
    ensures { Takes D.made disk.old disk.new (Reads (read path.now) place) (seen (λ text. text.items) result) }
{
    match disk.read(alloc, path) {
        Ok(text) => Ok(text),
        Err(refusal) => Err(reading_cause(place, refusal)),
    }
}

fn reading_cause(place: Place, refusal: Refusal) -> ToolCause
    ensures { result ≡ reading_cause place refusal }
{
    match refusal {
        Refusal::Memory => ToolCause::Memory,
        _ => ToolCause::At(place, Why::Unread),
    }
}
