//! The fields of a block of lines.
use crate::bad::Bad;
use std::alloc::Global;

/// What a field says of a row. Those from `Refused` on say what a run writes or refuses.
#[derive(Clone, Copy, PartialEq, Eq)]
pub(crate) enum Name {
    Test,
    Source,
    Note,
    Run,
    Word,
    Then,
    Text,
    Content,
    Keys,
    Random,
    Reads,
    Room,
    Fails,
    Cut,
    Flip,
    Calls,
    Streams,
    Iterations,
    Unwraps,
    Openings,
    Refused,
    Writes,
    Least,
    TextOut,
    TextDigest,
    TextBegins,
    TextHolds,
    ContentOut,
    ContentDigest,
    ContentBegins,
    ContentHolds,
}

/// The names as they are written. `-s` is the text of `jws sig`.
const NAMES: &[(&str, Name)] = &[
    ("test", Name::Test),
    ("source", Name::Source),
    ("name", Name::Note),
    ("run", Name::Run),
    ("word", Name::Word),
    ("then", Name::Then),
    ("-i", Name::Text),
    ("-s", Name::Text),
    ("-I", Name::Content),
    ("-k", Name::Keys),
    ("-R", Name::Random),
    ("reads", Name::Reads),
    ("room", Name::Room),
    ("fails", Name::Fails),
    ("cut", Name::Cut),
    ("flip", Name::Flip),
    ("calls", Name::Calls),
    ("streams", Name::Streams),
    ("iterations", Name::Iterations),
    ("unwraps", Name::Unwraps),
    ("openings", Name::Openings),
    ("refused", Name::Refused),
    ("writes", Name::Writes),
    ("least", Name::Least),
    ("-o", Name::TextOut),
    ("-o sha256", Name::TextDigest),
    ("-o begins", Name::TextBegins),
    ("-o holds", Name::TextHolds),
    ("-O", Name::ContentOut),
    ("-O sha256", Name::ContentDigest),
    ("-O begins", Name::ContentBegins),
    ("-O holds", Name::ContentHolds),
];

impl Name {
    pub(crate) fn read(text: &str) -> Result<Name, Bad> {
        for (name, field) in NAMES {
            if *name == text {
                return Ok(*field);
            }
        }
        Err(Bad::Text("no field has this name"))
    }

    /// Whether a row may have the field several times.
    fn is_of_many(self) -> bool {
        matches!(
            self,
            Name::Run | Name::Word | Name::Text | Name::Content | Name::Keys | Name::Random
        )
    }

    /// Whether the field says what a run writes or refuses. These names are the last.
    fn is_of_answer(self) -> bool {
        self as u8 >= Name::Refused as u8
    }
}

#[derive(Drop)]
struct Field {
    name: Name,
    octets: Vec<u8>,
}

/// The fields of a group or of a row, in their order.
#[derive(Drop)]
pub(crate) struct Fields {
    list: Vec<Field>,
}

impl Fields {
    pub(crate) fn new(alloc: Global) -> Fields {
        Fields {
            list: Vec::new(alloc),
        }
    }

    pub(crate) fn push(&mut self, name: Name, octets: Vec<u8>) -> Result<(), Bad> {
        if self.has(name) && !name.is_of_many() {
            return Err(Bad::Text("a field is given twice"));
        }
        self.list.push(Field { name, octets })?;
        Ok(())
    }

    pub(crate) fn has(&self, name: Name) -> bool {
        self.list.iter().any(|field| field.name == name)
    }

    pub(crate) fn is_only(&self, name: Name) -> bool {
        self.list.iter().all(|field| field.name == name)
    }

    /// Whether it says what a run writes or refuses.
    pub(crate) fn has_answer(&self) -> bool {
        self.list.iter().any(|field| field.name.is_of_answer())
    }

    pub(crate) fn first(&self, name: Name) -> Option<&[u8]> {
        for field in &self.list {
            if field.name == name {
                return Some(field.octets.as_slice());
            }
        }
        None
    }
}

/// A row: its own fields, and those of its group for which it has none.
#[derive(Clone, Copy)]
pub(crate) struct Row<'a> {
    pub(crate) own: &'a Fields,
    pub(crate) group: &'a Fields,
}

impl<'a> Row<'a> {
    /// The fields that count for this name.
    fn fields(&self, name: Name) -> &'a Fields {
        let is_own = if name.is_of_answer() {
            self.own.has_answer()
        } else {
            self.own.has(name)
        };
        if is_own { self.own } else { self.group }
    }

    pub(crate) fn first(&self, name: Name) -> Option<&'a [u8]> {
        self.fields(name).first(name)
    }

    /// The field as text, which is empty if there is none.
    pub(crate) fn text(&self, name: Name) -> &'a str {
        str::from_utf8(self.first(name).unwrap_or(b"")).unwrap_or("")
    }

    /// Each of the fields of this name.
    pub(crate) fn each(&self, alloc: Global, name: Name) -> Result<Vec<&'a [u8]>, Bad> {
        let mut all = Vec::new(alloc);
        for field in &self.fields(name).list {
            if field.name == name {
                all.push(field.octets.as_slice())?;
            }
        }
        Ok(all)
    }

    /// Each of the inputs of this name. Without one there is an empty input.
    pub(crate) fn inputs(&self, alloc: Global, name: Name) -> Result<Vec<&'a [u8]>, Bad> {
        let mut all = self.each(alloc, name)?;
        if all.is_empty() {
            let none: &'a [u8] = b"";
            all.push(none)?;
        }
        Ok(all)
    }

    /// The number of a field, if there is one.
    pub(crate) fn number(&self, name: Name) -> Result<Option<u64>, Bad> {
        match self.first(name) {
            Some(_) => Ok(Some(read_number(self.text(name))?)),
            None => Ok(None),
        }
    }
}

pub(crate) fn read_number(text: &str) -> Result<u64, Bad> {
    match text.parse::<u64>() {
        Ok(number) => Ok(number),
        Err(_) => Err(Bad::Text("there is no number where one is expected")),
    }
}

/// A number of octets, of reads or of calls.
pub(crate) fn read_count(text: &str) -> Result<usize, Bad> {
    match text.parse::<usize>() {
        Ok(number) => Ok(number),
        Err(_) => Err(Bad::Text("there is no number where one is expected")),
    }
}
