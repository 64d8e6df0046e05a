//! What a row expects of a run, and how a run differs from it.
use crate::bad::Bad;
use crate::fields::{Name, Row, read_count};
use octets::{MemoryOutput, Refusal, encode_onto};
use prf::{HashAlg, digest};
use std::fmt;
use std::fmt::Display;

/// What an output holds after a run.
#[derive(Clone, Copy)]
pub(crate) enum Written<'a> {
    /// Nothing, and it was not finished.
    Untouched,
    /// These octets, and it was finished.
    Whole(&'a [u8]),
    /// Octets with this SHA-256, in base64url, and it was finished.
    Digest(&'a [u8]),
    /// So many of the first of these octets, or more, and it was not finished.
    Beginning(&'a [u8], usize),
    /// These octets, and it was not finished.
    Unfinished(&'a [u8]),
}

impl<'a> Written<'a> {
    pub(crate) fn is_in(&self, octets: &[u8], is_finished: bool) -> bool {
        match self {
            Written::Untouched => octets.is_empty() && !is_finished,
            Written::Whole(wanted) => octets == *wanted && is_finished,
            Written::Digest(wanted) => has_digest(octets, wanted) && is_finished,
            Written::Beginning(wanted, least) => {
                wanted.starts_with(octets) && *least <= octets.len() && !is_finished
            }
            Written::Unfinished(wanted) => octets == *wanted && !is_finished,
        }
    }
}

/// Whether the octets have this SHA-256, in base64url.
fn has_digest(octets: &[u8], wanted: &[u8]) -> bool {
    let mut value = [0; 64];
    let len = digest(HashAlg::S256, octets, &mut value);
    let mut text = [0; 86];
    let len = encode_onto(&value[..len], &mut text);
    &text[..len] == wanted
}

/// The cause of a refusal.
#[derive(Clone, Copy)]
pub(crate) enum Cause<'a> {
    /// There is none.
    None,
    /// The refusal's number and name.
    Named(&'a str),
    /// Any that comes from what was read, and not from the words, a device or memory.
    Content,
}

impl<'a> Cause<'a> {
    pub(crate) fn is_of(&self, ended: &Result<(), Refusal>) -> bool {
        match (self, ended) {
            (Cause::None, Ok(())) => true,
            (Cause::Named(text), Err(refusal)) => *text == refusal.text(),
            (Cause::Content, Err(refusal)) => !matches!(
                refusal,
                Refusal::Usage | Refusal::Read | Refusal::Write | Refusal::Memory | Refusal::Random
            ),
            _ => false,
        }
    }

    /// The line that reports it, without `jose: ` and the line end, unless it may be any.
    pub(crate) fn line(&self) -> Option<&'a str> {
        match self {
            Cause::None => Some(""),
            Cause::Named(text) => Some(text),
            Cause::Content => None,
        }
    }
}

/// What a row expects of a run.
#[derive(Clone, Copy)]
pub(crate) struct Answer<'a> {
    pub(crate) cause: Cause<'a>,
    pub(crate) text: Written<'a>,
    pub(crate) content: Written<'a>,
}

impl<'a> Answer<'a> {
    pub(crate) fn of(row: &Row<'a>) -> Result<Answer<'a>, Bad> {
        let cause = match row.first(Name::Refused) {
            None => Cause::None,
            Some(b"by content") => Cause::Content,
            Some(_) => Cause::Named(row.text(Name::Refused)),
        };
        let text = output_of(
            row,
            Name::TextOut,
            Name::TextDigest,
            Name::TextBegins,
            Name::TextHolds,
        )?;
        let content = output_of(
            row,
            Name::ContentOut,
            Name::ContentDigest,
            Name::ContentBegins,
            Name::ContentHolds,
        )?;
        if !row.own.has_answer() && !row.group.has_answer() {
            return Err(Bad::Text("a row has no answer"));
        }
        if !matches!(row.first(Name::Writes), None | Some(b"nothing")) {
            return Err(Bad::Text("`writes` has another value than `nothing`"));
        }
        Ok(Answer {
            cause,
            text,
            content,
        })
    }
}

/// What the fields of an output say.
fn output_of<'a>(
    row: &Row<'a>,
    whole: Name,
    digest: Name,
    begins: Name,
    holds: Name,
) -> Result<Written<'a>, Bad> {
    if let Some(octets) = row.first(whole) {
        return Ok(Written::Whole(octets));
    }
    if let Some(octets) = row.first(digest) {
        return Ok(Written::Digest(octets));
    }
    if let Some(octets) = row.first(begins) {
        let least = match row.first(Name::Least) {
            Some(_) => read_count(row.text(Name::Least))?,
            None => 0,
        };
        return Ok(Written::Beginning(octets, least));
    }
    Ok(match row.first(holds) {
        Some(octets) => Written::Unfinished(octets),
        None => Written::Untouched,
    })
}

/// How a run differs from what a row expects, as a message shows it.
#[derive(Clone, Copy)]
pub(crate) enum Difference<'a> {
    Result(Result<(), Refusal>),
    Report(&'a [u8], u8),
    Text(&'a [u8], bool),
    Content(&'a [u8], bool),
    Other(&'static str),
}

impl<'a> Difference<'a> {
    /// The first difference of the outputs, if there is one.
    pub(crate) fn of_outputs(
        answer: &Answer<'_>,
        text: &'a MemoryOutput,
        content: &'a MemoryOutput,
    ) -> Option<Difference<'a>> {
        if !answer.text.is_in(text.octets(), text.is_finished()) {
            return Some(Difference::Text(text.octets(), text.is_finished()));
        }
        if !answer
            .content
            .is_in(content.octets(), content.is_finished())
        {
            return Some(Difference::Content(content.octets(), content.is_finished()));
        }
        None
    }
}

impl<'a> Display for Difference<'a> {
    fn fmt<W: fmt::Write>(&self, f: &mut fmt::Formatter<W>) -> fmt::Result {
        match self {
            Difference::Result(Ok(())) => f.write_str("it is not refused"),
            Difference::Result(Err(refusal)) => write!(f, "it is refused by {refusal}"),
            Difference::Report(octets, status) => {
                write!(f, "it reports {} and has status {status}", Spelled(octets))
            }
            Difference::Text(octets, is_finished) => {
                write!(f, "-o has {}, finished: {is_finished}", Spelled(octets))
            }
            Difference::Content(octets, is_finished) => {
                write!(f, "-O has {}, finished: {is_finished}", Spelled(octets))
            }
            Difference::Other(text) => f.write_str(text),
        }
    }
}

/// The first octets as a person reads them: each printable character of ASCII is itself, and each other octet is `%` with two hexadecimal
/// digits.
#[derive(Clone, Copy)]
pub(crate) struct Spelled<'a>(pub(crate) &'a [u8]);

impl<'a> Display for Spelled<'a> {
    fn fmt<W: fmt::Write>(&self, f: &mut fmt::Formatter<W>) -> fmt::Result {
        for octet in self.0.get(..600).unwrap_or(self.0) {
            let octet = *octet;
            if octet.is_ascii_graphic() && octet != b'%' || octet == b' ' {
                write!(f, "{}", char::from(octet))?;
            } else {
                write!(f, "%{octet:02x}")?;
            }
        }
        write!(f, " ({} octets)", self.0.len())
    }
}
