//! The end of a run of `jose-set` or `jose-look`: a status, and one line after a refusal. A name in it cannot change what a terminal shows.
ghost use Rattle.std.specs.Prelude.{◌≡◌, ◌⊎◌, ◌<◌, ◌++◌, [], codes, get_or, map, string_bytes, IfErr, IfOk, OnOk};
ghost use Rattle.octets.specs.Devices.{AppendsPrefixOf};
ghost use Rattle.tools.specs.Runs.{no_words, words_of};
ghost use Rattle.tools.specs.SetViews.{named_words};
ghost use Rattle.tools.specs.Words.{tool_name};
ghost use Rattle.tools.specs.SetRequests.{asked_by};
ghost use Rattle.tools.specs.ToolEndings.{tool_status};
ghost use Rattle.tools.specs.Printing.{printable};
ghost use Rattle.tools.specs.ToolReports.{cause_text, name_of, tool_line, why_text};

use crate::printing::{add, add_both, add_printable};
use crate::set_words::SetRequest;
use crate::tool_cause::{Place, ToolCause, Why};
use crate::words::Tool;
use octets::{Output, emit};
use std::alloc::{AllocError, Global};

/// The words that a cause may name.
#[derive(Clone, Copy)]
pub(crate) struct Words<'w> {
    pub(crate) tool: Tool,
    /// The set that is changed, or that `-o` makes.
    pub(crate) target: &'w str,
    /// The files, or the thumbprints.
    pub(crate) others: &'w [String],
}

/// The words that a cause of the request may name.
pub(crate) fn words_of(request: SetRequest<'_>) -> Words<'_>
    ensures { named_words result ≡ words_of (asked_by request.entry) }
{
    match request {
        SetRequest::Join { new, files } => Words {
            tool: Tool::Set,
            target: new.unwrap_or(""),
            others: files,
        },
        SetRequest::Add { set, files } => Words {
            tool: Tool::Set,
            target: set,
            others: files,
        },
        SetRequest::Remove { set, thumbprints } => Words {
            tool: Tool::Set,
            target: set,
            others: thumbprints,
        },
    }
}

pub(crate) fn no_words(tool: Tool) -> Words<'static>
    ensures { named_words result ≡ no_words tool }
{
    Words {
        tool,
        target: "",
        others: &[],
    }
}

/// Returns the program's status. After success it is 0, and nothing is written. After a refusal it is 1, and its line is written, or that
/// of `Memory` if memory runs out once more.
pub(crate) fn report_tool<O: Output>(
    alloc: Global,
    words: Words<'_>,
    outcome: Result<(), ToolCause>,
    out: &mut O,
) -> u8
    ensures status { result ≡ tool_status outcome }
    ensures quiet { OnOk outcome (out.new ≡ out.old) }
    ensures line { IfErr outcome (λ cause. (AppendsPrefixOf (tool_line (named_words words.entry) cause) (O.written out.old) (O.written out.new))
        ⊎ (AppendsPrefixOf (tool_line (named_words words.entry) ToolCause.Memory) (O.written out.old) (O.written out.new))) }
{
    match outcome {
        Ok(()) => 0,
        Err(cause) => {
            // If this output fails, there is nowhere left to report it.
            match line(alloc, words, &cause) {
                Ok(line) => {
                    let _ = emit(out, &line);
                }
                Err(_) => {
                    let _ = emit(out, memory_line(words.tool).as_bytes());
                }
            }
            1
        }
    }
}

/// The line of `Memory`.
fn memory_line(tool: Tool) -> &'static str
    ensures { result.now ≡ tool_name tool ++ codes ": jose: 4 Memory" ++ codes "\n" }
{
    match tool {
        Tool::VerifyAll => "jose-verify-all: jose: 4 Memory\n",
        Tool::Set => "jose-set: jose: 4 Memory\n",
        Tool::Look => "jose-look: jose: 4 Memory\n",
    }
}

fn line(alloc: Global, words: Words<'_>, cause: &ToolCause) -> Result<Vec<u8>, AllocError>
    ensures { IfOk result (λ line. line.items ≡ tool_line (named_words words.entry) cause.now) }
{
    let mut line = Vec::new(alloc);
    add_cause(&mut line, words, cause)?;
    add(&mut line, "\n")?;
    Ok(line)
}

fn add_cause(line: &mut Vec<u8>, words: Words<'_>, cause: &ToolCause) -> Result<(), AllocError>
    ensures { OnOk result (line.new.items ≡ line.old.items ++ cause_text (named_words words.entry) cause.now) }
{
    match cause {
        ToolCause::Usage => add(line, words.tool.usage()),
        ToolCause::Memory => add_named(line, words.tool, ": jose: 4 Memory"),
        ToolCause::InputTwice => {
            add_named(
                line,
                words.tool,
                ": -: standard input can be read only once",
            )
        }
        ToolCause::InputSet => add_named(line, words.tool, ": -: it is not a file"),
        ToolCause::Output => add_named(line, words.tool, ": standard output cannot be written"),
        ToolCause::NotAllRead => add_named(line, words.tool, ": a file cannot be read"),
        ToolCause::At(place, why) => add_place(line, words, *place, why),
    }
}

#[tactic(auto, using(std::proofs::Common::append_assoc))]
fn add_place(
    line: &mut Vec<u8>,
    words: Words<'_>,
    place: Place,
    why: &Why,
) -> Result<(), AllocError>
    ensures { OnOk result (line.new.items ≡ line.old.items ++ cause_text (named_words words.entry) (ToolCause.At place why.now)) }
{
    add_named(line, words.tool, ": ")?;
    add_name(line, words, place)?;
    add(line, ": ")?;
    add_why(line, words, why)
}

/// Adds the name of the tool, and the text.
fn add_named(line: &mut Vec<u8>, tool: Tool, text: &str) -> Result<(), AllocError>
    ensures { OnOk result (line.new.items ≡ line.old.items ++ (tool_name tool ++ text.now)) }
{
    add_both(line, tool.name(), text)
}

/// What the place names.
fn add_name(line: &mut Vec<u8>, words: Words<'_>, place: Place) -> Result<(), AllocError>
    ensures { OnOk result (line.new.items ≡ line.old.items ++ printable (name_of (named_words words.entry) place)) }
{
    match place {
        Place::Target => add_printable(line, words.target.as_bytes()),
        Place::Beside => { add_beside(line, words.target) }
        Place::File(at) => add_printable(line, other(words.others, at).as_bytes()),
    }
}

/// The name of the new file beside the target.
#[tactic(auto, using(crate::proofs::Printable::beside_is))]
fn add_beside(line: &mut Vec<u8>, target: &str) -> Result<(), AllocError>
    ensures { OnOk result (line.new.items ≡ line.old.items ++ printable (target.now ++ codes ".new")) }
{
    add_printable(line, target.as_bytes())?;
    add(line, ".new")
}

/// The word at this place.
fn other(others: &[String], at: usize) -> &str
    ensures { result.now ≡ get_or (map string_bytes others.now) at [] }
{
    match others.get(at) {
        Some(word) => word.as_str(),
        None => "",
    }
}

fn add_why(line: &mut Vec<u8>, words: Words<'_>, why: &Why) -> Result<(), AllocError>
    ensures { OnOk result (line.new.items ≡ line.old.items ++ why_text (named_words words.entry) why.now) }
{
    match why {
        Why::Refused(refusal) => add_both(line, "jose: ", refusal.text()),
        Why::KeyTwice(thumbprint) => {
            add_between(line, "the key ", thumbprint.as_str(), " is there already")
        }
        Why::NoKey(at) => { add_then(line, "no key has the thumbprint ", other(words.others, *at)) }
        Why::Unread => add(line, "it cannot be read"),
        Why::OtherMember => add(line, "a set must have one member \"keys\", and no other"),
        Why::NoSet => add(
            line,
            "it is a key, and not a set. jose-set join -o NEW makes a set",
        ),
        Why::NoFile => add(line, "no regular file of this name was found"),
        Why::Link => add(line, "it is a symbolic link"),
        Why::NotWritable => add(line, "it may not be written"),
        Why::Shared => add(
            line,
            "others than its owner may open it; chmod 600 ends this",
        ),
        Why::NoneStays => add(line, "one key must stay"),
        Why::Exists => add(line, "there is a file already"),
        Why::Claimed => add(
            line,
            "there is a file already. Another jose-set is at work, or one was killed",
        ),
        Why::NotCreated => add(line, "it cannot be created"),
        Why::NotWritten => add(line, "it cannot be written"),
        Why::NotOnDisk => add(line, "it cannot be written to the disk"),
        Why::NotReplaced => add(line, "it cannot be replaced"),
        Why::NotDeleted => add(line, "it cannot be deleted"),
        Why::FolderNotOnDisk => add(
            line,
            "it was changed, but its folder cannot be written to the disk",
        ),
    }
}

/// Adds the front, and the text in printable ASCII.
#[tactic(auto, using(std::proofs::Common::append_assoc))]
fn add_then(line: &mut Vec<u8>, front: &str, text: &str) -> Result<(), AllocError>
    ensures { OnOk result (line.new.items ≡ line.old.items ++ (front.now ++ printable text.now)) }
{
    add(line, front)?;
    add_printable(line, text.as_bytes())
}

/// So it does, and adds the end.
#[tactic(auto, using(std::proofs::Common::append_assoc))]
fn add_between(line: &mut Vec<u8>, front: &str, text: &str, end: &str) -> Result<(), AllocError>
    ensures { OnOk result (line.new.items ≡ line.old.items ++ (front.now ++ printable text.now ++ end.now)) }
{
    add_then(line, front, text)?;
    add(line, end)
}
