//! Why `jose` refuses words, or what it would read and write by them. It runs nothing, and opens regular files alone.
ghost use Rattle.std.specs.Prelude.{◌≡◌, ◌++◌, ◌∷◌, map, string_bytes, IfErr, IfOk, OnOk};
ghost use Rattle.jose.specs.Invocations.{invocation_view};
ghost use Rattle.jose.specs.Words.{command_named};
ghost use Rattle.tools.specs.CommandLines.{command_lines, refusal_lines, refused_line, IsExplained, AreNamed};
ghost use Rattle.tools.specs.Printing.{printed};

use crate::command_files::FindFiles;
use crate::command_lines::{add_options, fault_line, few_words_line, unknown_line};
use crate::command_words::{WordFault, words_fault};
use crate::printing::add_line;
use jose::{Invocation, command_row, parse};
use octets::Refusal;
use std::alloc::{AllocError, Global};

/// What `jose` would do with these words: why it refuses them, or what each of their options reads or writes. Every word is shown in
/// printable ASCII, and only up to its first brace, since JSON may hold a key. Fails only with `Memory`.
pub fn explain<F: FindFiles>(alloc: Global, files: &F, words: &[String]) -> Result<Vec<u8>, Refusal>
    ensures explained { IfOk result (λ text. IsExplained (F.finds files.now) (map string_bytes words.now) text.items) }
    ensures memory { IfErr result (λ e. e ≡ Refusal.Memory) }
{
    match parse(alloc, words) {
        Ok(invocation) => Ok(named(alloc, files, &invocation)?),
        Err(Refusal::Memory) => Err(Refusal::Memory),
        Err(_) => refused(alloc, words),
    }
}

/// What words that `jose` takes name.
fn named<F: FindFiles>(
    alloc: Global,
    files: &F,
    invocation: &Invocation,
) -> Result<Vec<u8>, AllocError>
    ensures { IfOk result (λ text. AreNamed (F.finds files.now) (invocation_view invocation.now) text.items) }
{
    let mut text = Vec::new(alloc);
    add_line(&mut text, b"jose would read these words")?;
    let options = invocation.command.options();
    add_options(alloc, &mut text, files, options, invocation)?;
    Ok(text)
}

/// Why `jose` refuses the words. Fails only with `Memory`.
#[tactic(auto, using(crate::proofs::Printable::printed_then))]
fn refused(alloc: Global, words: &[String]) -> Result<Vec<u8>, Refusal>
    ensures refused { IfOk result (λ text. text.items ≡ printed (refused_line ∷ refusal_lines (map string_bytes words.now))) }
    ensures memory { IfErr result (λ e. e ≡ Refusal.Memory) }
{
    let mut text = Vec::new(alloc);
    add_line(&mut text, b"jose refuses these words: 1 Usage")?;
    add_cause(alloc, &mut text, words)?;
    Ok(text)
}

/// Adds the first cause. Fails only with `Memory`.
fn add_cause(alloc: Global, text: &mut Vec<u8>, words: &[String]) -> Result<(), Refusal>
    ensures added { OnOk result (text.new.items ≡ text.old.items ++ printed (refusal_lines (map string_bytes words.now))) }
    ensures memory { IfErr result (λ e. e ≡ Refusal.Memory) }
{
    match words {
        [noun, verb, rest @ ..] => add_command_cause(
            alloc,
            text,
            noun.as_str(),
            verb.as_str(),
            rest,
        ),
        _ => {
            let line = few_words_line(alloc)?;
            Ok(add_line(text, &line)?)
        }
    }
}

/// Adds the first cause of the words after the two of a command. Fails only with `Memory`.
fn add_command_cause(
    alloc: Global,
    text: &mut Vec<u8>,
    noun: &str,
    verb: &str,
    words: &[String],
) -> Result<(), Refusal>
    ensures added { OnOk result (text.new.items ≡ text.old.items
        ++ printed (command_lines (command_named noun.now verb.now) noun.now verb.now (map string_bytes words.now))) }
    ensures memory { IfErr result (λ e. e ≡ Refusal.Memory) }
{
    let line = match command_row(noun, verb) {
        None => unknown_line(alloc, noun, verb)?,
        Some(row) => match words_fault(alloc, row.options, words) {
            None => return Ok(()),
            Some(WordFault::Memory) => return Err(Refusal::Memory),
            Some(fault) => fault_line(alloc, noun, verb, words, fault)?,
        },
    };
    add_line(text, &line)?;
    Ok(())
}
