//! Reading the words of `jose-set`.
ghost use Rattle.std.specs.Prelude.{◌≡◌, ◌<◌, map, string_bytes, option_map, Ok, Err};
ghost use Rattle.tools.specs.SetViews.{seen};
ghost use Rattle.tools.specs.SetRequests.{asked_by};
ghost use Rattle.tools.specs.SetWords.{is_input, is_option, operands, after, attached, reads_input_once, joining, joining_into, joining_next, joining_of, adding_of, removing_of, set_request_of};

use crate::tool_cause::{ToolCause, needs};

/// What `jose-set` is asked for.
#[derive(Clone, Copy)]
pub enum SetRequest<'w> {
    /// Joins the keys of the files into one set, and writes it to a new file or to standard output.
    Join {
        new: Option<&'w str>,
        files: &'w [String],
    },
    /// Adds the keys of the files to the end of the set.
    Add {
        set: &'w str,
        files: &'w [String],
    },
    /// Removes the keys with these thumbprints from the set.
    Remove {
        set: &'w str,
        thumbprints: &'w [String],
    },
}

/// What the words ask of `jose-set`.
pub fn parse_set(words: &[String]) -> Result<SetRequest<'_>, ToolCause>
    ensures { seen asked_by result ≡ set_request_of (map string_bytes words.now) }
{
    let [verb, words @ ..] = words else {
        return Err(ToolCause::Usage);
    };
    match verb.as_str() {
        "join" => parse_join(words),
        "add" => parse_add(operands(words)?),
        "remove" => parse_remove(operands(words)?),
        _ => Err(ToolCause::Usage),
    }
}

/// The words without an end of options. Another option is refused.
pub(crate) fn operands(words: &[String]) -> Result<&[String], ToolCause>
    ensures { seen (λ words. map string_bytes words.now) result ≡ operands (map string_bytes words.now) }
{
    let [word, rest @ ..] = words else {
        return Ok(words);
    };
    if word.as_str() == "--" {
        Ok(rest)
    } else if is_option(word.as_str()) {
        Err(ToolCause::Usage)
    } else {
        Ok(words)
    }
}

fn is_option(word: &str) -> bool
    ensures { result ≡ is_option word.now }
{
    !is_input(word) && !word.is_empty() && word.as_bytes()[0] == b'-'
}

fn is_input(word: &str) -> bool
    ensures { result ≡ is_input word.now }
{
    word == "-"
}

fn parse_join(words: &[String]) -> Result<SetRequest<'_>, ToolCause>
    ensures { seen asked_by result ≡ joining_of (map string_bytes words.now) }
{
    let [first, rest @ ..] = words else {
        return Err(ToolCause::Usage);
    };
    if first.as_str() == "-o" {
        return join_next(rest);
    }
    match attached(first.as_str()) {
        Some(new) => join_into(new, rest),
        None => join(None, words),
    }
}

/// NEW is a word of its own.
fn join_next(words: &[String]) -> Result<SetRequest<'_>, ToolCause>
    ensures { seen asked_by result ≡ joining_next (map string_bytes words.now) }
{
    let [new, rest @ ..] = words else {
        return Err(ToolCause::Usage);
    };
    if is_option(new.as_str()) {
        return Err(ToolCause::Usage);
    }
    join_into(new.as_str(), rest)
}

/// The value after `-o` in one word, if it has this option.
fn attached(word: &str) -> Option<&str>
    ensures { option_map (λ value. value.now) result ≡ attached word.now }
{
    let value = after(after(word, '-')?, 'o')?;
    Some(after(value, '=').unwrap_or(value))
}

/// What follows the character, if the text begins with it.
fn after(text: &str, front: char) -> Option<&str>
    requires { front < 128 }
    ensures { option_map (λ rest. rest.now) result ≡ after front text.now }
{
    text.strip_prefix(front)
}

fn join_into<'w>(new: &'w str, words: &'w [String]) -> Result<SetRequest<'w>, ToolCause>
    ensures { seen asked_by result ≡ joining_into new.now (map string_bytes words.now) }
{
    needs(!new.is_empty(), ToolCause::Usage)?;
    needs(!is_input(new), ToolCause::Usage)?;
    join(Some(new), words)
}

fn join<'w>(new: Option<&'w str>, words: &'w [String]) -> Result<SetRequest<'w>, ToolCause>
    ensures { seen asked_by result ≡ joining (option_map (λ name. name.now) new.entry) (map string_bytes words.now) }
{
    let files = operands(words)?;
    needs(!files.is_empty(), ToolCause::Usage)?;
    needs(reads_input_once(files), ToolCause::InputTwice)?;
    Ok(SetRequest::Join { new, files })
}

fn parse_add(words: &[String]) -> Result<SetRequest<'_>, ToolCause>
    ensures { seen asked_by result ≡ adding_of (map string_bytes words.now) }
{
    let [set, files @ ..] = words else {
        return Err(ToolCause::Usage);
    };
    needs(!files.is_empty(), ToolCause::Usage)?;
    needs(!is_input(set.as_str()), ToolCause::InputSet)?;
    needs(reads_input_once(files), ToolCause::InputTwice)?;
    Ok(SetRequest::Add {
        set: set.as_str(),
        files,
    })
}

fn parse_remove(words: &[String]) -> Result<SetRequest<'_>, ToolCause>
    ensures { seen asked_by result ≡ removing_of (map string_bytes words.now) }
{
    let [set, thumbprints @ ..] = words else {
        return Err(ToolCause::Usage);
    };
    needs(!thumbprints.is_empty(), ToolCause::Usage)?;
    needs(!is_input(set.as_str()), ToolCause::InputSet)?;
    Ok(SetRequest::Remove {
        set: set.as_str(),
        thumbprints,
    })
}

/// Whether standard input is among the files once, or not at all.
pub(crate) fn reads_input_once(files: &[String]) -> bool
    ensures { result ≡ reads_input_once (map string_bytes files.now) }
{
    files.iter().filter(|file| is_input(file.as_str())).count() <= 1
}
