//! The lines of `jose-look command`.
ghost use Rattle.std.specs.Prelude.{◌≡◌, ◌++◌, [], get_or, map, string_bytes, find, option_map, ℕ, List, Some, false, IfOk, OnOk};
ghost use Rattle.tools.specs.CommandLines.{shown, letter_text, octet_text, fault_line, found_text, output_line, unknown_line, no_command, few_words_line, same_text, IsOptionText, AreOptionTexts, is_same_file, is_kept, names_file, IsInputLine};
ghost use Rattle.tools.specs.CommandViews.{found_entry};
ghost use Rattle.jose.specs.Files.{origin_named};
ghost use Rattle.jose.specs.Code.Rows.{option_entry};
ghost use Rattle.jose.specs.Invocations.{settings_view};
ghost use Rattle.jose.specs.Commands.{is_json};
ghost use Rattle.std.specs.Option.{option_map_or};
ghost use Rattle.std.specs.Str.{bytes_eq};

use crate::command_files::{FindFiles, Found};
use crate::command_words::WordFault;
use crate::printing::{add, add_line};
use jose::{Invocation, OptionRow, Role};
use std::alloc::{AllocError, Global};

/// The words of all commands.
const ALL_COMMANDS: &str =
    "jwk gen or thp, jws sig, ver or fmt, jwe enc, dec or fmt, b64 enc or dec";

/// Adds what is shown of a word.
#[tactic(auto, using(std::proofs::Common::append_assoc))]
pub(crate) fn add_shown(line: &mut Vec<u8>, word: &str) -> Result<(), AllocError>
    ensures { OnOk result (line.new.items ≡ line.old.items ++ shown word.now) }
{
    match word.split_once('{') {
        None => add(line, word),
        Some((front, _)) => {
            add(line, front)?;
            add(line, "{..}")
        }
    }
}

/// A line that begins with an option's letter.
pub(crate) fn line_of_letter(alloc: Global, letter: char) -> Result<Vec<u8>, AllocError>
    ensures { IfOk result (λ line. line.items ≡ letter_text letter) }
{
    let mut line = Vec::new(alloc);
    add_letter(&mut line, letter)?;
    Ok(line)
}

#[tactic(auto, using(std::proofs::Common::append_assoc))]
fn add_letter(line: &mut Vec<u8>, letter: char) -> Result<(), AllocError>
    ensures { OnOk result (line.new.items ≡ line.old.items ++ letter_text letter) }
{
    let mut octets = [0; 4];
    add(line, "-")?;
    add(line, letter.encode_utf8(&mut octets))
}

/// The same for an octet.
fn line_of_octet(alloc: Global, letter: u8) -> Result<Vec<u8>, AllocError>
    ensures { IfOk result (λ line. line.items ≡ octet_text letter) }
{
    let mut line = Vec::new(alloc);
    add(&mut line, "-")?;
    line.push(letter)?;
    Ok(line)
}

fn word_at(words: &[String], at: usize) -> &str
    ensures { result.now ≡ get_or (map string_bytes words.now) at [] }
{
    match words.get(at) {
        Some(word) => word.as_str(),
        None => "",
    }
}

/// The line of a fault. The words are those after the two of the command.
pub(crate) fn fault_line(
    alloc: Global,
    noun: &str,
    verb: &str,
    words: &[String],
    fault: WordFault,
) -> Result<Vec<u8>, AllocError>
    ensures { IfOk result (λ line. line.items ≡ fault_line noun.now verb.now (map string_bytes words.now) fault) }
{
    match fault {
        WordFault::Memory => Ok(Vec::new(alloc)),
        WordFault::Long(at) => {
            shown_between(alloc, "there are no long options: ", word_at(words, at), "")
        }
        WordFault::Stray(at) => shown_between(
            alloc,
            "",
            word_at(words, at),
            " is no option: a value stands after its letter",
        ),
        WordFault::Unknown(letter) => {
            let line = with(line_of_octet(alloc, letter)?, " is no option of ")?;
            with(with(with(line, noun)?, " ")?, verb)
        }
        WordFault::Twice(letter) => with(line_of_octet(alloc, letter)?, " stands twice"),
        WordFault::NoValue(letter) => with(line_of_octet(alloc, letter)?, " has no value"),
        WordFault::Missing(letter) => with(line_of_letter(alloc, letter)?, " is missing"),
        WordFault::Inputs => with(Vec::new(alloc), "two inputs are standard input"),
        WordFault::Outputs => with(Vec::new(alloc), "two outputs are standard output"),
        WordFault::NoHash(letter) => with(
            line_of_letter(alloc, letter)?,
            " is none of S224, S256, S384 and S512",
        ),
    }
}

/// The line of two words that are no command.
pub(crate) fn unknown_line(alloc: Global, noun: &str, verb: &str) -> Result<Vec<u8>, AllocError>
    ensures { IfOk result (λ line. line.items ≡ unknown_line noun.now verb.now) }
{
    let line = no_command(alloc, noun, verb)?;
    with(with(line, ", but ")?, ALL_COMMANDS)
}

fn no_command(alloc: Global, noun: &str, verb: &str) -> Result<Vec<u8>, AllocError>
    ensures { IfOk result (λ line. line.items ≡ no_command noun.now verb.now) }
{
    let mut line = shown_between(alloc, "there is no command ", noun, " ")?;
    add_shown(&mut line, verb)?;
    Ok(line)
}

/// The line of fewer than two words.
pub(crate) fn few_words_line(alloc: Global) -> Result<Vec<u8>, AllocError>
    ensures { IfOk result (λ line. line.items ≡ few_words_line) }
{
    with(
        with(Vec::new(alloc), "a command has two words: ")?,
        ALL_COMMANDS,
    )
}

/// The line and a piece behind it.
pub(crate) fn with(mut line: Vec<u8>, piece: &str) -> Result<Vec<u8>, AllocError>
    ensures { IfOk result (λ longer. longer.items ≡ line.items ++ piece.now) }
{
    add(&mut line, piece)?;
    Ok(line)
}

/// What is shown of a word, between two pieces.
fn shown_between(alloc: Global, front: &str, word: &str, end: &str) -> Result<Vec<u8>, AllocError>
    ensures { IfOk result (λ line. line.items ≡ front.now ++ shown word.now ++ end.now) }
{
    let mut line = Vec::new(alloc);
    add(&mut line, front)?;
    add_shown(&mut line, word)?;
    add(&mut line, end)?;
    Ok(line)
}

/// The line of an input: what its value names, and for a file what the system says of it.
fn input_line<F: FindFiles>(
    alloc: Global,
    files: &F,
    option: &OptionRow,
    value: &str,
) -> Result<Vec<u8>, AllocError>
    ensures { IfOk result (λ line. IsInputLine (F.finds files.now) (option_entry option.now).letter
        (origin_named (is_json (option_entry option.now).role) (Some value.now)) line.items) }
{
    let line = line_of_letter(alloc, option.0)?;
    if value == "-" {
        return with(line, " reads standard input");
    }
    if option.3.is_json() && value.starts_with('{') {
        return with(line, " is the text itself");
    }
    let mut line = with(line, " reads ")?;
    add_shown(&mut line, value)?;
    with(line, found_text(files.find(value)))
}

fn found_text(found: Found) -> &'static str
    ensures { result.now ≡ found_text found }
{
    match found {
        Found::Missing => ", which is missing",
        Found::Closed => ", which may not be read",
        Found::Folder => ", which is a folder",
        Found::File | Found::Other => "",
    }
}

/// The line of an output, and of another option that has the same file.
fn output_line(
    alloc: Global,
    options: &[OptionRow],
    invocation: &Invocation,
    letter: char,
    value: &str,
) -> Result<Vec<u8>, AllocError>
    ensures { IfOk result (λ line. line.items ≡ output_line (map option_entry options.now) (settings_view invocation.now.options.items) letter value.now) }
{
    let line = line_of_letter(alloc, letter)?;
    if value == "-" {
        return with(line, " writes standard output");
    }
    let mut line = with(line, " writes ")?;
    add_shown(&mut line, value)?;
    add_same(&mut line, same_file(options, invocation, letter, value))?;
    Ok(line)
}

/// Adds which other option has the same file, if there is one.
#[tactic(auto, using(std::proofs::Common::append_assoc))]
fn add_same(line: &mut Vec<u8>, other: Option<&OptionRow>) -> Result<(), AllocError>
    ensures { OnOk result (line.new.items ≡ line.old.items ++ same_text (found_entry other.entry)) }
{
    match other {
        None => Ok(()),
        Some(other) => {
            add(line, ", which is the file of ")?;
            add_letter(line, other.0)
        }
    }
}

/// The first other option whose file must not be that of an output, and is that of this value.
fn same_file<'a>(
    options: &'a [OptionRow],
    invocation: &Invocation,
    letter: char,
    value: &str,
) -> Option<&'a OptionRow>
    ensures { found_entry result ≡ find (is_same_file (settings_view invocation.now.options.items) letter value.now) (map option_entry options.now) }
{
    let mut rest = options;
    while let [option, tail @ ..] = rest {
        if is_same_file(invocation, letter, value, option) {
            return Some(option);
        }
        rest = tail;
    }
    None
}

fn is_same_file(invocation: &Invocation, letter: char, value: &str, option: &OptionRow) -> bool
    ensures { result ≡ is_same_file (settings_view invocation.now.options.items) letter value.now (option_entry option.now) }
{
    option.0 != letter
        && is_kept(option.3)
        && names_file(option.3, value)
        && has_value(invocation.value(option.0), value)
}

fn has_value(found: Option<&str>, value: &str) -> bool
    ensures { result ≡ option_map_or (bytes_eq value.now) (option_map (λ text. text.now) found.entry) false }
{
    match found {
        None => false,
        Some(text) => value == text,
    }
}

fn is_kept(role: Role) -> bool
    ensures { result ≡ is_kept role }
{
    matches!(role, Role::Keys | Role::Streamed) || role.is_output()
}

fn names_file(role: Role, value: &str) -> bool
    ensures { result ≡ names_file role value.now }
{
    value != "-" && !(role.is_json() && value.starts_with('{'))
}

/// Adds the text of an option.
fn add_option<F: FindFiles>(
    alloc: Global,
    text: &mut Vec<u8>,
    files: &F,
    options: &[OptionRow],
    invocation: &Invocation,
    option: &OptionRow,
) -> Result<(), AllocError>
    ensures { OnOk result ((one : List ℕ) × ((text.new.items ≡ text.old.items ++ one)
        × IsOptionText (F.finds files.now) (map option_entry options.now) (settings_view invocation.now.options.items) (option_entry option.now) one)) }
{
    match invocation.value(option.0) {
        Some(value) if option.3.is_input() => {
            let line = input_line(alloc, files, option, value)?;
            add_line(text, &line)
        }
        Some(value) if option.3.is_output() => {
            let line = output_line(alloc, options, invocation, option.0, value)?;
            add_line(text, &line)
        }
        _ => Ok(()),
    }
}

/// Adds the texts of all options.
pub(crate) fn add_options<F: FindFiles>(
    alloc: Global,
    text: &mut Vec<u8>,
    files: &F,
    options: &[OptionRow],
    invocation: &Invocation,
) -> Result<(), AllocError>
    ensures { OnOk result ((all : List ℕ) × ((text.new.items ≡ text.old.items ++ all)
        × AreOptionTexts (F.finds files.now) (map option_entry options.now) (settings_view invocation.now.options.items) (map option_entry options.now) all)) }
{
    for option in options {
        add_option(alloc, text, files, options, invocation, option)?;
    }
    Ok(())
}
