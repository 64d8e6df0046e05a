//! Reading the words of `jose-look`.
ghost use Rattle.std.specs.Prelude.{◌≡◌, map, string_bytes};
ghost use Rattle.tools.specs.LookWords.{look_asked, look_files, look_request_of, without_name};
ghost use Rattle.tools.specs.SetViews.{seen};

use crate::set_words::{operands, reads_input_once};
use crate::tool_cause::{ToolCause, needs};

/// What `jose-look` is asked for.
#[derive(Clone, Copy)]
pub enum LookRequest<'w> {
    /// Says what `jose` would do with these words.
    Command(&'w [String]),
    /// Shows these files.
    Files(&'w [String]),
}

/// What the words ask of `jose-look`. The first word `command` is no file, and after it `jose` may stand.
pub fn parse_look(words: &[String]) -> Result<LookRequest<'_>, ToolCause>
    ensures { seen look_asked result ≡ look_request_of (map string_bytes words.now) }
{
    let [first, rest @ ..] = words else {
        return Err(ToolCause::Usage);
    };
    if first.as_str() == "command" {
        return Ok(LookRequest::Command(without_name(rest)));
    }
    Ok(LookRequest::Files(look_files(words)?))
}

/// The words of a command, whose name may stand in front.
fn without_name(words: &[String]) -> &[String]
    ensures { map string_bytes result.now ≡ without_name (map string_bytes words.now) }
{
    match words {
        [name, rest @ ..] if name.as_str() == "jose" => rest,
        _ => words,
    }
}

/// The files that are shown.
fn look_files(words: &[String]) -> Result<&[String], ToolCause>
    ensures { seen (λ files. map string_bytes files.now) result ≡ look_files (map string_bytes words.now) }
{
    let files = operands(words)?;
    needs(!files.is_empty(), ToolCause::Usage)?;
    needs(reads_input_once(files), ToolCause::InputTwice)?;
    Ok(files)
}
