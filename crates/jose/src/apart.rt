//! An output file is opened without being cut. What is open is compared with the files that it must not be, whatever their names. Only then
//! it is cut.
ghost use Rattle.std.specs.Prelude.{◌≡◌, false, true, option_map};
ghost use Rattle.jose.specs.System.{place_view, places, request_of, is_same_file, is_absence, may_be, MayBeOne, IsApart, IsNotApart, IsCreated};

use crate::system::{FileId, OutputName, Place, Status, WriteFiles};
use std::io;
use std::io::ErrorKind;

/// Opens the output file and cuts it, if it is none of the files that it must not be. Otherwise every file is left as it is.
pub(crate) fn create<R: WriteFiles>(files: &R, name: &OutputName<'_>) -> io::Result<R::File>
    ensures { IsCreated (R.uncut_gives files.now) (R.own_gives files.now) (R.status_gives files.now) (R.cut_gives files.now) (request_of name.now) result }
{
    let uncut = files.open_uncut(name)?;
    let own = files.own_status(&uncut)?;
    if is_one_of(files, own, &name.others()) {
        return Err(io::Error::from(ErrorKind::ResourceBusy));
    }
    files.cut(uncut, name)
}

/// Whether the output that is open may be one of the other files.
fn is_one_of<R: WriteFiles>(files: &R, own: Status, others: &[Option<Place<'_>>]) -> bool
    ensures apart { result ≡ false → IsApart (R.status_gives files.now) own (places others.now) }
    ensures one { result ≡ true → IsNotApart (R.status_gives files.now) own (places others.now) }
{
    for other in others {
        if may_be_one(files, own, *other) {
            return true;
        }
    }
    false
}

/// Whether the output that is open may be the other file, if there is one.
fn may_be_one<R: WriteFiles>(files: &R, own: Status, other: Option<Place<'_>>) -> bool
    ensures { MayBeOne (R.status_gives files.now) own (option_map place_view other.entry) result }
{
    let Some(place) = other else {
        return false;
    };
    may_be(own, place, &files.status(place))
}

/// Whether the output that is open may be the file at the other place, by what the system says of both.
fn may_be(own: Status, place: Place<'_>, answer: &io::Result<Status>) -> bool
    ensures { result ≡ may_be own (place_view place.entry) answer.now }
{
    let Some(file) = own.file else {
        return false;
    };
    match answer {
        Ok(other) => match other.file {
            Some(other) => is_same_file(file, other),
            None => false,
        },
        Err(e) => !is_absence(place, e.kind()) && !own.is_empty,
    }
}

fn is_same_file(file: FileId, other: FileId) -> bool
    ensures { result ≡ is_same_file file other }
{
    match (file, other) {
        (FileId::Regular(device, inode), FileId::Regular(other, number)) => {
            device == other && inode == number
        }
        (FileId::Block(device), FileId::Block(other)) => device == other,
        _ => false,
    }
}

/// Whether the error says that there is no file of this name. A standard stream is there.
fn is_absence(place: Place<'_>, kind: ErrorKind) -> bool
    ensures { result ≡ is_absence (place_view place.entry) kind }
{
    match place {
        Place::StandardInput | Place::StandardOutput => false,
        Place::Named(_) => matches!(kind, ErrorKind::NotFound),
    }
}
