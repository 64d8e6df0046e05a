//! What `jose-look` does for its words.
ghost use Rattle.std.specs.Prelude.{map, string_bytes};
ghost use Rattle.tools.specs.LookWords.{look_asked};
ghost use Rattle.tools.specs.Runs.{Explains, LooksAt, ShowsCommand};
ghost use Rattle.tools.specs.SetViews.{seen};
ghost use Rattle.tools.specs.Steps.{Takes};

use crate::changing::write_out;
use crate::command::explain;
use crate::command_files::FindFiles;
use crate::look_words::LookRequest;
use crate::looking::show_files;
use crate::put_files::PutFiles;
use crate::tool_cause::ToolCause;
use std::alloc::Global;

/// Does what is asked of `jose-look`: shows files, or says what `jose` would do with words.
pub fn look<D: PutFiles + FindFiles>(
    alloc: Global,
    disk: &mut D,
    request: LookRequest<'_>,
) -> Result<(), ToolCause>
    ensures { Takes D.made disk.old disk.new (LooksAt (D.finds disk.old) (look_asked request.entry)) result }
{
    match request {
        LookRequest::Command(words) => show_command(alloc, disk, words),
        LookRequest::Files(files) => show_files(alloc, disk, files),
    }
}

/// Writes what `jose` would do with the words.
fn show_command<D: PutFiles + FindFiles>(
    alloc: Global,
    disk: &mut D,
    words: &[String],
) -> Result<(), ToolCause>
    ensures { Takes D.made disk.old disk.new (ShowsCommand (D.finds disk.old) (map string_bytes words.now)) result }
{
    let text = explained(alloc, disk, words)?;
    write_out(disk, &text)
}

/// The lines of the words. It asks the system only what the files are that the words name.
fn explained<D: PutFiles + FindFiles>(
    alloc: Global,
    disk: &mut D,
    words: &[String],
) -> Result<Vec<u8>, ToolCause>
    ensures { Takes D.made disk.old disk.new (Explains (D.finds disk.old) (map string_bytes words.now)) (seen (λ text. text.items) result) }
{
    match explain(alloc, &*disk, words) {
        Ok(text) => Ok(text),
        Err(_) => Err(ToolCause::Memory),
    }
}
