//! Tries the rows of the files that its arguments name: what a command reads, and what it must write or refuse. Each row is tried with
//! `parse`, `run` and `report` of crate `jose`, over memory. CONTRIBUTING.md says how a row is written.
//!
//! - `file` reads the blocks of a file: values, groups and rows.
//! - `values` has the octets that a line gives, and `fields` those of a block.
//! - `answer` has what a row expects, and compares it.
//! - `trial` tries a row with each of its inputs.
//! - `runs` runs a command over memory, and `failing` over devices whose calls fail in turn.
#![tactic(auto)]

mod answer;
mod bad;
mod failing;
mod fields;
mod file;
mod runs;
mod trial;
mod values;

use crate::bad::Bad;
use crate::file::Tally;
use crate::values::Values;
use std::io;
use std::process::ExitCode;

/// Tries the files that the arguments name, in their order.
fn try_files(rt: &HostRuntime) -> Result<Tally, Bad> {
    let mut tally = Tally {
        rows: 0,
        failures: 0,
    };
    let mut values = Values::new(rt.alloc());
    let names: Vec<String> = std::env::args(rt)?.skip(1).collect(rt.alloc())?;
    for name in &names {
        if let Err(bad) = file::try_file(rt, name.as_str(), &mut values, &mut tally) {
            print!(rt; "{name}: ")?;
            return Err(bad);
        }
    }
    Ok(tally)
}

fn main(rt: HostRuntime) -> io::Result<ExitCode> {
    match try_files(&rt) {
        Ok(tally) if tally.failures == 0 => Ok(ExitCode::SUCCESS),
        Ok(tally) => {
            println!(rt; "{} of {} rows failed", tally.failures, tally.rows)?;
            Ok(ExitCode::FAILURE)
        }
        Err(bad) => {
            println!(rt; "{bad}")?;
            Ok(ExitCode::FAILURE)
        }
    }
}
