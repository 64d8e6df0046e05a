//! What `jose-look` does with its files, call by call.
ghost use Rattle.std.specs.Prelude.{◌≡◌, ◌&&◌, ◌++◌, ◌∷◌, [], codes, is_some, map, option_map, string_bytes, Ok, OnOk};
ghost use Rattle.tools.specs.Printing.{printed};
ghost use Rattle.tools.specs.LookCalls.{Looks, Opens, ShowsFile, ShowsFiles, file_text};
ghost use Rattle.tools.specs.SetViews.{seen};
ghost use Rattle.tools.specs.Steps.{GivesUnlessMemory, Takes};

use crate::changing::write_out;
use crate::looks::add_look;
use crate::printing::{add, add_line};
use crate::put_files::PutFiles;
use crate::tool_cause::{ToolCause, needs};
use octets::Refusal;
use std::alloc::{AllocError, Global};

/// Shows the files one after another, and says at the end that nothing is verified.
pub fn show_files<D: PutFiles>(
    alloc: Global,
    disk: &mut D,
    files: &[String],
) -> Result<(), ToolCause>
    ensures { Takes D.made disk.old disk.new (Looks (map string_bytes files.now)) result }
{
    let all = show_each(alloc, disk, true, files)?;
    write_out(disk, b"Nothing of this is verified.\n")?;
    needs(all, ToolCause::NotAllRead)
}

/// Shows the files one after another. The value says whether all of them were read, and those before them.
fn show_each<D: PutFiles>(
    alloc: Global,
    disk: &mut D,
    all: bool,
    files: &[String],
) -> Result<bool, ToolCause>
    ensures { Takes D.made disk.old disk.new (ShowsFiles all (map string_bytes files.now)) result }
{
    match files {
        [] => Ok(all),
        [file, rest @ ..] => {
            let was_read = show_file(alloc, disk, file.as_str())?;
            show_each(alloc, disk, both(all, was_read), rest)
        }
    }
}

fn both(one: bool, other: bool) -> bool
    ensures { result ≡ (one && other) }
{
    one && other
}

/// Reads the file to its end, and writes its lines. The value says whether it was read.
fn show_file<D: PutFiles>(alloc: Global, disk: &mut D, path: &str) -> Result<bool, ToolCause>
    ensures { Takes D.made disk.old disk.new (ShowsFile path.now) result }
{
    let text = open(alloc, disk, path)?;
    let octets = file_text(alloc, path, &text)?;
    write_out(disk, &octets)?;
    Ok(is_read(&text))
}

fn is_read(text: &Option<Vec<u8>>) -> bool
    ensures { result ≡ is_some (option_map (λ text. text.items) text.now) }
{
    text.is_some()
}

/// Reads the whole file, if it can be read.
fn open<D: PutFiles>(alloc: Global, disk: &mut D, path: &str) -> Result<Option<Vec<u8>>, ToolCause>
    ensures { Takes D.made disk.old disk.new (Opens path.now) (seen (option_map (λ text. text.items)) result) }
{
    match disk.read(alloc, path) {
        Ok(text) => Ok(Some(text)),
        Err(Refusal::Memory) => Err(ToolCause::Memory),
        Err(_) => Ok(None),
    }
}

/// Adds the line of a file that cannot be read.
fn add_unread(alloc: Global, out: &mut Vec<u8>, name: &str) -> Result<(), AllocError>
    ensures { OnOk result (out.new.items ≡ out.old.items ++ printed ((name.now ++ codes ": it cannot be read") ∷ [])) }
{
    let mut line = Vec::new(alloc);
    add(&mut line, name)?;
    add(&mut line, ": it cannot be read")?;
    add_line(out, &line)
}

/// What is written for a file, which may not have been read.
fn file_text(alloc: Global, name: &str, text: &Option<Vec<u8>>) -> Result<Vec<u8>, ToolCause>
    ensures { GivesUnlessMemory (λ octets. octets.items) result (Ok (file_text name.now (option_map (λ text. text.items) text.now))) }
{
    let mut out = Vec::new(alloc);
    match text {
        None => add_unread(alloc, &mut out, name)?,
        Some(text) => add_look(alloc, &mut out, name, text)?,
    }
    Ok(out)
}
