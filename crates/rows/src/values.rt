//! The octets that a line gives: a literal, or an expression over named values.
ghost use Rattle.std.specs.Prelude.{◌<◌, IfOk};

use crate::bad::Bad;
use crate::fields::{Name, Row, read_count};
use std::alloc::Global;
use std::collections::BTreeMap;

/// What a line gives for its name.
#[derive(Clone, Copy)]
pub(crate) enum Given<'a> {
    /// The octets themselves.
    Literal(&'a str),
    /// Terms with ` + ` between them.
    Expression(&'a str),
}

/// Reads a line `NAME: literal`, `NAME:` or `NAME = expression`, by the mark that comes first.
pub(crate) fn read_line(line: &str) -> Result<(&str, Given<'_>), Bad> {
    match (line.split_once(':'), line.split_once(" = ")) {
        (Some((longer, _)), Some((name, text))) if name.len() < longer.len() => {
            Ok((name, Given::Expression(text)))
        }
        (Some((name, "")), _) => Ok((name, Given::Literal(""))),
        (Some((name, text)), _) => match text.strip_prefix(' ') {
            Some(text) => Ok((name, Given::Literal(text))),
            None => Err(Bad::Text("there is no blank after a colon")),
        },
        (None, Some((name, text))) => Ok((name, Given::Expression(text))),
        (None, None) => Err(Bad::Text("a line gives nothing")),
    }
}

/// The values that lines have named so far.
#[derive(Drop)]
pub(crate) struct Values {
    alloc: Global,
    named: BTreeMap<String, Vec<u8>>,
}

impl Values {
    pub(crate) fn new(alloc: Global) -> Values {
        Values {
            alloc,
            named: BTreeMap::new(alloc),
        }
    }

    /// Adds the value of a line that begins with `value`.
    pub(crate) fn add(&mut self, line: &str, row: &Row<'_>) -> Result<(), Bad> {
        let Some(line) = line.strip_prefix("value ") else {
            return Err(Bad::Text("a block of values has another line"));
        };
        let (name, given) = read_line(line)?;
        if self.named.contains_key(name) {
            return Err(Bad::Text("two values have one name"));
        }
        let octets = self.octets(&given, row)?;
        let name = String::from_str(self.alloc, name)?;
        drop(self.named.insert(name, octets)?);
        Ok(())
    }

    /// The octets that a line gives. An expression may name an input of the row.
    pub(crate) fn octets(&self, given: &Given<'_>, row: &Row<'_>) -> Result<Vec<u8>, Bad> {
        let mut octets = Vec::new(self.alloc);
        match given {
            Given::Literal(text) => octets.extend_from_slice(text.as_bytes())?,
            Given::Expression(text) => {
                let mut rest = *text;
                for _ in 0..text.len() {
                    rest = self.push_term(&mut octets, rest, row)?;
                    if rest.is_empty() {
                        return Ok(octets);
                    }
                    rest = match rest.strip_prefix(" + ") {
                        Some(rest) => rest,
                        None => return Err(Bad::Text("an expression has no plus sign")),
                    };
                }
                return Err(Bad::Text("an expression ends too early"));
            }
        }
        Ok(octets)
    }

    /// Adds the first term of an expression to the octets, and returns the text after it.
    fn push_term<'a>(
        &self,
        octets: &mut Vec<u8>,
        text: &'a str,
        row: &Row<'_>,
    ) -> Result<&'a str, Bad> {
        let (count, text) = match text.split_once(" * ") {
            Some((count, rest)) if is_number(count) => (read_count(count)?, rest),
            _ => (1, text),
        };
        let mut piece = Vec::new(self.alloc);
        let rest = self.push_atom(&mut piece, text, row)?;
        for _ in 0..count {
            octets.extend_from_slice(&piece)?;
        }
        Ok(rest)
    }

    /// Adds what a quoted text, digits or a name stand for.
    fn push_atom<'a>(
        &self,
        octets: &mut Vec<u8>,
        text: &'a str,
        row: &Row<'_>,
    ) -> Result<&'a str, Bad> {
        if let Some(quoted) = text.strip_prefix('\'') {
            let Some((quoted, rest)) = quoted.split_once('\'') else {
                return Err(Bad::Text("a quoted text has no end"));
            };
            octets.extend_from_slice(quoted.as_bytes())?;
            return Ok(rest);
        }
        if let Some(digits) = text.strip_prefix("hex ") {
            let (digits, rest) = first_word(digits);
            push_digits(octets, digits.as_bytes())?;
            return Ok(rest);
        }
        let (name, rest) = first_word(text);
        let (name, range) = match name.split_once('[') {
            Some((name, range)) => (name, Some(range)),
            None => (name, None),
        };
        let whole = self.named_octets(name, row)?;
        octets.extend_from_slice(part(whole, range)?)?;
        Ok(rest)
    }

    /// The octets of a value, or of an input of the row.
    fn named_octets<'a>(&'a self, name: &str, row: &Row<'a>) -> Result<&'a [u8], Bad> {
        if name.starts_with('-') {
            return Ok(row.first(Name::read(name)?).unwrap_or(b""));
        }
        match self.named.get(name) {
            Some(octets) => Ok(octets.as_slice()),
            None => Err(Bad::Text("no value has this name")),
        }
    }
}

/// The text up to the first blank, and the blank with the text after it.
fn first_word(text: &str) -> (&str, &str) {
    match text.split_once(' ') {
        Some((word, _)) => (word, text.strip_prefix(word).unwrap_or("")),
        None => (text, ""),
    }
}

fn is_number(text: &str) -> bool {
    !text.is_empty() && text.as_bytes().iter().all(|c| c.is_ascii_digit())
}

/// All octets, or those of a range such as `0..16]`.
fn part<'a>(octets: &'a [u8], range: Option<&str>) -> Result<&'a [u8], Bad> {
    let Some(range) = range else {
        return Ok(octets);
    };
    let Some((from, to)) = range.strip_suffix(']').unwrap_or("").split_once("..") else {
        return Err(Bad::Text("a range is not like [0..16]"));
    };
    match octets.get(read_count(from)?..read_count(to)?) {
        Some(part) => Ok(part),
        None => Err(Bad::Text("a range is longer than its value")),
    }
}

/// Adds the octets that two hexadecimal digits each stand for.
fn push_digits(octets: &mut Vec<u8>, digits: &[u8]) -> Result<(), Bad> {
    for pair in digits.chunks(2) {
        match pair {
            [high, low] => octets.push(digit(*high)? * 16 + digit(*low)?)?,
            _ => return Err(Bad::Text("an odd number of hexadecimal digits")),
        }
    }
    Ok(())
}

/// The value of a hexadecimal digit.
fn digit(c: u8) -> Result<u8, Bad>
    ensures below { IfOk result (λ n. n < 16) }
{
    match c {
        b'0'..=b'9' => Ok(c - b'0'),
        b'a'..=b'f' => Ok(c - b'a' + 10),
        _ => Err(Bad::Text("no hexadecimal digit")),
    }
}
