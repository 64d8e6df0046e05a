//! Why `jose` refuses words: a walk over them by the table of its commands.
ghost use Rattle.std.specs.Prelude.{◌≡◌, ◌⊎◌, ◌==◌, Some, count_by, find, map, option_map, string_bytes, is_some, OnOk};
ghost use Rattle.jose.specs.Code.Rows.{option_entry, takes_of};
ghost use Rattle.jose.specs.Invocations.{value_at, hash_named};
ghost use Rattle.jose.specs.Words.{is_input, is_output};
ghost use Rattle.tools.specs.CommandViews.{walk_view, GivesUnlessMemory, found_entry};
ghost use Rattle.tools.specs.CommandWords.{is_option, is_given, with_value, without_equals, value_behind, letters_read, option_read, word_read, words_read, start, value_of, is_missing, is_no_hash, is_standard, default_of, missing_fault, hash_fault, stream_fault, end_fault, words_fault};

use jose::{Kind, OptionRow, Role};
use std::alloc::{AllocError, Global};

/// Why `jose` refuses words. The words after the command are counted from 0.
#[derive(Clone, Copy, Debug, PartialEq, Eq)]
pub(crate) enum WordFault {
    /// Memory ran out.
    Memory,
    /// A long option.
    Long(usize),
    /// A word that no option takes.
    Stray(usize),
    /// A letter that the command does not have.
    Unknown(u8),
    /// An option that is there twice.
    Twice(u8),
    /// An option without its value.
    NoValue(u8),
    /// An option that must be there.
    Missing(char),
    /// Two inputs that are standard input.
    Inputs,
    /// Two outputs that are standard output.
    Outputs,
    /// An option for a hash that names none of the four.
    NoHash(char),
}

impl From<AllocError> for WordFault {
    ghost use Rattle.std.specs.Prelude.{◌≡◌};
    ghost use Rattle.tools.specs.declared.command_words.WordFault.TheVariants.{Memory};

    ghost from_gives = { λ _ fault. fault ≡ Memory };

    fn from(_: AllocError) -> WordFault {
        WordFault::Memory
    }
}

/// An option that was given, and its value.
#[derive(Drop)]
pub(crate) struct Given<'w> {
    letter: u8,
    value: &'w [u8],
}

/// What is known between two words.
#[derive(Drop)]
pub(crate) struct Walk<'w> {
    given: Vec<Given<'w>>,
    waiting: Option<u8>,
    is_ended: bool,
}

impl<'w> Walk<'w> {
    /// Whether the option was given.
    #[tactic(auto, using(crate::proofs::Entries::views))]
    fn is_given(&self, letter: u8) -> bool
        ensures { result ≡ is_given letter (walk_view self.now).given }
    {
        self.given.iter().any(|given| given.letter == letter)
    }

    /// Adds an option that was given.
    fn push(&mut self, letter: u8, value: &'w [u8]) -> Result<(), AllocError>
        ensures { OnOk result (walk_view self.new ≡ with_value letter value.entry.now (walk_view self.old)) }
    {
        self.given.push(Given { letter, value })?;
        self.waiting = None;
        Ok(())
    }
}

/// What follows an `=` at the beginning, or all.
fn without_equals(value: &[u8]) -> &[u8]
    ensures { result.now ≡ without_equals value.now }
{
    match value {
        [b'=', rest @ ..] => rest,
        _ => value,
    }
}

/// The option with this letter.
fn option_of(options: &[OptionRow], letter: u8) -> Option<&OptionRow>
    ensures { found_entry result ≡ find (λ option. option.letter == letter) (map option_entry options.now) }
{
    options.iter().find(|option| option.0 == char::from(letter))
}

/// Reads the letters behind the hyphen of a word.
fn letters_read<'w>(
    options: &[OptionRow],
    letters: &'w [u8],
    walk: &mut Walk<'w>,
) -> Result<(), WordFault>
    ensures { GivesUnlessMemory (λ done. walk_view walk.new) result
        (letters_read (map option_entry options.now) letters.entry.now (walk_view walk.old)) }
{
    let mut rest = letters;
    while let [letter, tail @ ..] = rest {
        let option = option_of(options, *letter).ok_or(WordFault::Unknown(*letter))?;
        if walk.is_given(*letter) {
            return Err(WordFault::Twice(*letter));
        }
        match option.2 {
            Kind::Flag => walk.push(*letter, b"")?,
            _ => return value_behind(*letter, tail, walk),
        }
        rest = tail;
    }
    Ok(())
}

/// Reads what stands behind the letter of an option that has a value.
fn value_behind<'w>(letter: u8, rest: &'w [u8], walk: &mut Walk<'w>) -> Result<(), WordFault>
    ensures { GivesUnlessMemory (λ done. walk_view walk.new) result
        (Ok (value_behind letter rest.entry.now (walk_view walk.old))) }
{
    if rest.is_empty() {
        walk.waiting = Some(letter);
    } else {
        walk.push(letter, without_equals(rest))?;
    }
    Ok(())
}

/// Whether the word begins with a hyphen, and is not `-` alone.
fn is_option(word: &[u8]) -> bool
    ensures { result ≡ is_option word.now }
{
    word.len() > 1 && word[0] == b'-'
}

/// Reads a word where no option waits for its value.
fn option_read<'w>(
    options: &[OptionRow],
    at: usize,
    word: &'w [u8],
    walk: &mut Walk<'w>,
) -> Result<(), WordFault>
    ensures { GivesUnlessMemory (λ done. walk_view walk.new) result
        (option_read (map option_entry options.now) at word.entry.now (walk_view walk.old)) }
{
    match word {
        [b'-', b'-'] => {
            walk.is_ended = true;
            Ok(())
        }
        [b'-', b'-', ..] => Err(WordFault::Long(at)),
        [b'-', letters @ ..] if !letters.is_empty() => letters_read(options, letters, walk),
        _ => Err(WordFault::Stray(at)),
    }
}

/// Reads one word.
fn word_read<'w>(
    options: &[OptionRow],
    at: usize,
    word: &'w [u8],
    walk: &mut Walk<'w>,
) -> Result<(), WordFault>
    ensures { GivesUnlessMemory (λ done. walk_view walk.new) result
        (word_read (map option_entry options.now) at word.entry.now (walk_view walk.old)) }
{
    if walk.is_ended {
        return Err(WordFault::Stray(at));
    }
    match walk.waiting {
        None => option_read(options, at, word, walk),
        Some(letter) if is_option(word) => Err(WordFault::NoValue(letter)),
        Some(letter) => {
            walk.push(letter, word)?;
            Ok(())
        }
    }
}

/// Reads the words after the command.
fn words_read<'w>(
    alloc: Global,
    options: &[OptionRow],
    words: &'w [String],
) -> Result<Walk<'w>, WordFault>
    ensures { GivesUnlessMemory walk_view result
        (words_read (map option_entry options.now) 0 (map string_bytes words.entry.now) start) }
{
    let mut walk = Walk {
        given: Vec::new(alloc),
        waiting: None,
        is_ended: false,
    };
    let mut at = 0;
    let mut rest = words;
    while let [word, tail @ ..] = rest {
        word_read(options, at, word.as_bytes(), &mut walk)?;
        at += 1;
        rest = tail;
    }
    Ok(walk)
}

impl<'w> Walk<'w> {
    /// The value of the option, if it was given.
    fn given_value(&self, letter: char) -> Option<&'w [u8]>
        ensures { option_map (λ value. value.now) result ≡ value_at letter (walk_view self.now).given }
    {
        let mut rest = self.given.as_slice();
        while let [given, tail @ ..] = rest {
            if char::from(given.letter) == letter {
                return Some(given.value);
            }
            rest = tail;
        }
        None
    }

    /// The value of the option, or its default.
    fn value(&self, option: &OptionRow) -> Option<&'w [u8]>
        ensures { option_map (λ value. value.now) result ≡ value_of (walk_view self.now).given (option_entry option.now) }
    {
        self.given_value(option.0).or(default_of(option.2))
    }

    fn is_missing(&self, option: &OptionRow) -> bool
        ensures { result ≡ is_missing (walk_view self.now).given (option_entry option.now) }
    {
        matches!(option.2, Kind::Required) && self.given_value(option.0).is_none()
    }

    fn is_no_hash(&self, option: &OptionRow) -> bool
        ensures { result ≡ is_no_hash (walk_view self.now).given (option_entry option.now) }
    {
        match (option.3, self.value(option)) {
            (Role::Hash, Some(name)) => !is_hash(name),
            (Role::Hash, None) => true,
            _ => false,
        }
    }

    fn is_standard_input(&self, option: &OptionRow) -> bool
        ensures { result ≡ is_standard is_input (walk_view self.now).given (option_entry option.now) }
    {
        option.3.is_input() && self.value(option) == Some(b"-".as_slice())
    }

    fn is_standard_output(&self, option: &OptionRow) -> bool
        ensures { result ≡ is_standard is_output (walk_view self.now).given (option_entry option.now) }
    {
        option.3.is_output() && self.value(option) == Some(b"-".as_slice())
    }
}

/// Whether the text is the name of one of the four hashes.
#[tactic(auto, unfolding(jose::specs::Invocations::hash_named))]
fn is_hash(name: &[u8]) -> bool
    ensures { result ≡ is_some (hash_named name.now) }
{
    matches!(name, b"S224" | b"S256" | b"S384" | b"S512")
}

fn default_of(kind: Kind) -> Option<&'static [u8]>
    ensures { option_map (λ value. value.now) result ≡ default_of (takes_of kind) }
{
    match kind {
        Kind::Default(text) => Some(text.as_bytes()),
        _ => None,
    }
}

/// The first option that must be given and was not.
fn missing(options: &[OptionRow], walk: &Walk<'_>) -> Option<WordFault>
    ensures { result ≡ missing_fault (map option_entry options.now) (walk_view walk.now).given }
{
    let mut rest = options;
    while let [option, tail @ ..] = rest {
        if walk.is_missing(option) {
            return Some(WordFault::Missing(option.0));
        }
        rest = tail;
    }
    None
}

/// The first option for a hash that names none of the four.
fn no_hash(options: &[OptionRow], walk: &Walk<'_>) -> Option<WordFault>
    ensures { result ≡ hash_fault (map option_entry options.now) (walk_view walk.now).given }
{
    let mut rest = options;
    while let [option, tail @ ..] = rest {
        if walk.is_no_hash(option) {
            return Some(WordFault::NoHash(option.0));
        }
        rest = tail;
    }
    None
}

/// How many inputs are standard input.
fn standard_inputs(options: &[OptionRow], walk: &Walk<'_>) -> usize
    ensures { result ≡ count_by (is_standard is_input (walk_view walk.now).given) (map option_entry options.now) }
{
    options
        .iter()
        .filter(|option| walk.is_standard_input(option))
        .count()
}

/// How many outputs are standard output.
fn standard_outputs(options: &[OptionRow], walk: &Walk<'_>) -> usize
    ensures { result ≡ count_by (is_standard is_output (walk_view walk.now).given) (map option_entry options.now) }
{
    options
        .iter()
        .filter(|option| walk.is_standard_output(option))
        .count()
}

/// Two inputs or two outputs that are a standard stream, or a hash that is none of the four.
fn stream_fault(options: &[OptionRow], walk: &Walk<'_>) -> Option<WordFault>
    ensures { result ≡ stream_fault (map option_entry options.now) (walk_view walk.now).given }
{
    if standard_inputs(options, walk) > 1 {
        Some(WordFault::Inputs)
    } else if standard_outputs(options, walk) > 1 {
        Some(WordFault::Outputs)
    } else {
        no_hash(options, walk)
    }
}

/// What is wrong at the end of the words.
fn end_fault(options: &[OptionRow], walk: &Walk<'_>) -> Option<WordFault>
    ensures { result ≡ end_fault (map option_entry options.now) (walk_view walk.now).waiting (walk_view walk.now).given }
{
    match walk.waiting {
        Some(letter) => Some(WordFault::NoValue(letter)),
        None => missing(options, walk).or(stream_fault(options, walk)),
    }
}

/// Why a command with these options refuses the words after it, if it does. Fails only with `Memory`.
pub(crate) fn words_fault(
    alloc: Global,
    options: &[OptionRow],
    words: &[String],
) -> Option<WordFault>
    ensures { result ≡ Some WordFault.Memory ⊎ (result ≡ words_fault (map option_entry options.now) (map string_bytes words.now)) }
{
    match words_read(alloc, options, words) {
        Ok(walk) => end_fault(options, &walk),
        Err(fault) => Some(fault),
    }
}
