//! Reading the blocks of a file: values, groups and rows.
use crate::bad::Bad;
use crate::fields::{Fields, Name, Row};
use crate::trial::Trial;
use crate::values::{Values, read_line};
use std::alloc::Global;
use std::fs;

/// How many rows were tried, and how many of them differ.
#[derive(Drop)]
pub(crate) struct Tally {
    pub(crate) rows: usize,
    pub(crate) failures: usize,
}

impl Tally {
    /// Counts a row that was tried.
    fn count(&mut self, is_right: bool) {
        self.rows = self.rows.saturating_add(1);
        if !is_right {
            self.failures = self.failures.saturating_add(1);
        }
    }
}

/// What a block was: values, the fields of a group, or a row that was tried.
#[derive(Drop)]
enum Block {
    Values,
    Group(Fields),
    Row { is_right: bool },
}

/// Tries the rows of a file, and prints how many there are. The values of the file are known in the files after it.
pub(crate) fn try_file(
    rt: &HostRuntime,
    name: &str,
    values: &mut Values,
    tally: &mut Tally,
) -> Result<(), Bad> {
    let text = fs::read_to_string(rt, name)?;
    let before = tally.rows;
    let mut group = Fields::new(rt.alloc());
    let mut block = Vec::new(rt.alloc());
    let mut at = 0usize;
    for (number, line) in text.as_str().split('\n').enumerate() {
        if line.is_empty() {
            if !block.is_empty() {
                match end_block(rt, name, at, block.as_slice(), &group, values) {
                    Ok(Block::Values) => {}
                    Ok(Block::Group(fields)) => group = fields,
                    Ok(Block::Row { is_right }) => tally.count(is_right),
                    Err(bad) => return Err(bad.at(at)),
                }
                block.clear();
            }
        } else if !line.starts_with('#') {
            if block.is_empty() {
                at = number.saturating_add(1);
            }
            block.push(line)?;
        }
    }
    if !block.is_empty() {
        return Err(Bad::Line(at, "the file does not end in a line end"));
    }
    println!(rt; "{name}: {} rows", tally.rows.saturating_sub(before))?;
    Ok(())
}

/// Does what a block says: names its values, reads the fields of a new group, or tries a row.
fn end_block<'x>(
    rt: &HostRuntime,
    file: &'x str,
    line: usize,
    block: &[&str],
    group: &'x Fields,
    values: &mut Values,
) -> Result<Block, Bad> {
    let own = Fields::new(rt.alloc());
    let is_of_values = block.iter().any(|line| line.starts_with("value "));
    if is_of_values {
        let row = Row { own: &own, group };
        for line in block {
            values.add(line, &row)?;
        }
        return Ok(Block::Values);
    }
    let own = read_fields(rt.alloc(), block, group, values)?;
    if own.has(Name::Test) {
        return Ok(Block::Group(own));
    }
    if own.is_only(Name::Source) {
        return Ok(Block::Group(Fields::new(rt.alloc())));
    }
    let mut trial = Trial {
        file,
        line,
        row: Row { own: &own, group },
        is_right: true,
    };
    trial.all(rt)?;
    Ok(Block::Row {
        is_right: trial.is_right,
    })
}

/// The fields of a block. Those before a line, and those of the group, may be named by its expression.
fn read_fields(
    alloc: Global,
    block: &[&str],
    group: &Fields,
    values: &Values,
) -> Result<Fields, Bad> {
    let mut own = Fields::new(alloc);
    for line in block {
        let (name, given) = read_line(line)?;
        let octets = values.octets(&given, &Row { own: &own, group })?;
        own.push(Name::read(name)?, octets)?;
    }
    Ok(own)
}
