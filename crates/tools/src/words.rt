//! Reading the program's arguments as a tool and what it is asked for.
ghost use Rattle.std.specs.Prelude.{◌≡◌, [], ◌∷◌, ◌++◌, map, string_bytes, IfOk, OnOk};
ghost use Rattle.octets.specs.Code.Results.{Agrees, AgreesUnlessMemory};
ghost use Rattle.tools.specs.Words.{tool_name, usage_text, tool_named, tool_at, tool_first, tool_of, is_path_of, is_number, number_of, signers_from, signers_asked, request_view, request_of, verifying_words};

use jose::{Invocation, parse};
use octets::Refusal;
use std::alloc::{AllocError, Global};

/// A tool of the program.
#[derive(Clone, Copy, Debug, PartialEq, Eq)]
pub enum Tool {
    /// `jose-verify-all`: verifies an object by each of a number of signers, or by some of them.
    VerifyAll,
    /// `jose-set`: joins keys into a set, and adds and removes keys.
    Set,
    /// `jose-look`: shows what objects and keys say.
    Look,
}

impl Tool {
    /// Its name.
    pub(crate) fn name(self) -> &'static str
        ensures { result.now ≡ tool_name self }
    {
        match self {
            Tool::VerifyAll => "jose-verify-all",
            Tool::Set => "jose-set",
            Tool::Look => "jose-look",
        }
    }

    /// What it says of words that ask for nothing.
    pub(crate) fn usage(self) -> &'static str
        ensures { result.now ≡ usage_text self }
    {
        match self {
            Tool::VerifyAll => {
                "usage: jose-verify-all NUMBER KEYS [WORD..]\nNUMBER is N for each of N signers, or K/N for at least K of them. The words are those of jose jws ver without -k and -a."
            }
            Tool::Set => {
                "usage: jose-set join [-o NEW] FILE..\n       jose-set add SET FILE..\n       jose-set remove SET THUMBPRINT.."
            }
            Tool::Look => "usage: jose-look FILE..\n       jose-look command WORD..",
        }
    }
}

/// How many signers there are, and at least how many of them must have signed.
#[derive(Clone, Copy, Debug, PartialEq, Eq)]
pub struct Signers {
    pub least: usize,
    pub number: usize,
}

/// What `jose-verify-all` is asked for.
#[derive(Drop)]
pub struct VerifyAllRequest {
    pub signers: Signers,
    /// The invocation of `jws ver` that names the devices.
    pub invocation: Invocation,
}

/// The tool that the arguments name, and its words. The last part of the program's own name is that of the tool, or else the first word is.
pub(crate) fn tool_of(args: &[String]) -> Result<(Tool, &[String]), Refusal>
    ensures { Agrees (λ found. (found.0, map string_bytes found.1.now)) result (tool_of (map string_bytes args.now)) }
{
    let [program, words @ ..] = args else {
        return Err(Refusal::Usage);
    };
    match tool_at(program.as_str()) {
        Some(tool) => Ok((tool, words)),
        None => tool_first(words),
    }
}

/// The tool that the first word names, and the words after it.
fn tool_first(words: &[String]) -> Result<(Tool, &[String]), Refusal>
    ensures { Agrees (λ found. (found.0, map string_bytes found.1.now)) result (tool_first (map string_bytes words.now)) }
{
    let [name, words @ ..] = words else {
        return Err(Refusal::Usage);
    };
    let tool = tool_named(name.as_str()).ok_or(Refusal::Usage)?;
    Ok((tool, words))
}

/// The tool of this name.
#[tactic(auto, unfolding(crate::specs::Words::tool_named))]
fn tool_named(name: &str) -> Option<Tool>
    ensures { result ≡ tool_named name.now }
{
    match name {
        "jose-verify-all" => Some(Tool::VerifyAll),
        "jose-set" => Some(Tool::Set),
        "jose-look" => Some(Tool::Look),
        _ => None,
    }
}

/// The tool whose name is the last part of the path.
#[tactic(auto, unfolding(crate::specs::Words::tool_at))]
fn tool_at(path: &str) -> Option<Tool>
    ensures { result ≡ tool_at path.now }
{
    if is_path_of(path.as_bytes(), b"jose-verify-all") {
        Some(Tool::VerifyAll)
    } else if is_path_of(path.as_bytes(), b"jose-set") {
        Some(Tool::Set)
    } else if is_path_of(path.as_bytes(), b"jose-look") {
        Some(Tool::Look)
    } else {
        None
    }
}

/// Whether the last part of the path is the name.
fn is_path_of(path: &[u8], name: &[u8]) -> bool
    ensures { result ≡ is_path_of path.now name.now }
{
    path.ends_with(name) && (path.len() == name.len() || path[path.len() - name.len() - 1] == b'/')
}

/// What the words ask of `jose-verify-all`: the number of signers, or `K/N` for K of N of them, the keys, and the words of `jws ver` without
/// `-a` and `-k`. Refuses with `Usage` if a number is not one to three digits, the first of which is not 0, or if K is more than N, and as
/// `parse` refuses the words.
#[tactic(auto, unfolding(crate::specs::Words::request_of))]
pub fn parse_verify_all(alloc: Global, words: &[String]) -> Result<VerifyAllRequest, Refusal>
    ensures { AgreesUnlessMemory request_view result (request_of (map string_bytes words.now)) }
{
    let [number, keys, rest @ ..] = words else {
        return Err(Refusal::Usage);
    };
    let signers = signers_asked(number.as_str()).ok_or(Refusal::Usage)?;
    let words = verifying_words(alloc, keys.as_str(), rest)?;
    let invocation = parse(alloc, words.as_slice())?;
    Ok(VerifyAllRequest {
        signers,
        invocation,
    })
}

/// The signers that the word asks for: all of so many, or `K/N`.
fn signers_asked(word: &str) -> Option<Signers>
    ensures { result ≡ signers_asked word.now }
{
    match word.split_once('/') {
        None => signers_from(word, word),
        Some((least, number)) => signers_from(least, number),
    }
}

/// At least so many of so many signers, which are not fewer.
fn signers_from(least: &str, number: &str) -> Option<Signers>
    ensures { result ≡ signers_from (number_of least.now) (number_of number.now) }
{
    let least = number_of(least)?;
    let number = number_of(number)?;
    if least <= number {
        Some(Signers { least, number })
    } else {
        None
    }
}

/// The number that the digits of the word write.
fn number_of(word: &str) -> Option<usize>
    ensures { result ≡ number_of word.now }
{
    if is_number(word.as_bytes()) {
        word.parse::<usize>().ok()
    } else {
        None
    }
}

/// Whether the word is one to three digits, the first of which is not 0.
fn is_number(word: &[u8]) -> bool
    ensures { result ≡ is_number word.now }
{
    word.len() <= 3
        && !word.is_empty()
        && word[0] != b'0'
        && word.iter().all(|octet| octet.is_ascii_digit())
}

/// The words of `jose jws ver -a -k KEYS WORD..`.
fn verifying_words(alloc: Global, keys: &str, rest: &[String]) -> Result<Vec<String>, AllocError>
    ensures { IfOk result (λ words. map string_bytes words.items ≡ verifying_words keys.now (map string_bytes rest.now)) }
{
    let mut words = Vec::new(alloc);
    push_word(alloc, &mut words, "jws")?;
    push_word(alloc, &mut words, "ver")?;
    push_word(alloc, &mut words, "-a")?;
    push_word(alloc, &mut words, "-k")?;
    push_word(alloc, &mut words, keys)?;
    for word in rest {
        push_word(alloc, &mut words, word.as_str())?;
    }
    Ok(words)
}

fn push_word(alloc: Global, words: &mut Vec<String>, word: &str) -> Result<(), AllocError>
    ensures { OnOk result (map string_bytes words.new.items ≡ map string_bytes words.old.items ++ word.now ∷ []) }
{
    let word = String::from_str(alloc, word)?;
    words.push(word)?;
    Ok(())
}
