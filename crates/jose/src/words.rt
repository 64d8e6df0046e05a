//! Reading the program's arguments as one of the commands of the table.
ghost use Rattle.std.specs.Prelude.{◌≡◌, map, string_bytes};
ghost use Rattle.octets.specs.Code.Results.{AgreesUnlessMemory};
ghost use Rattle.jose.specs.Code.Rows.{option_entry};
ghost use Rattle.jose.specs.Invocations.{invocation_view, value_at};
ghost use Rattle.jose.specs.Words.{invocation_of, is_dash, standard_count, is_served, unserved_count, is_input, is_output};

pub(crate) mod invocation;
mod options;
pub(crate) mod table;

use crate::Invocation;
use crate::words::invocation::hash_named;
use crate::words::options::read_options;
use crate::words::table::{OptionRow, Role, command_row};
use octets::{Refusal, needs};
use std::alloc::Global;

/// Returns what the words ask for, without the program's name. Refuses with `Usage` if they name no command, if `clap` refuses the rest, if
/// an option for a hash names none of the four hashes, or if two inputs or two outputs would be the same standard stream.
#[tactic(auto, unfolding(crate::specs::Words::invocation_of))]
pub fn parse(alloc: Global, words: &[String]) -> Result<Invocation, Refusal>
    ensures { AgreesUnlessMemory invocation_view result (invocation_of (map string_bytes words.now)) }
{
    let [noun, verb, rest @ ..] = words else {
        return Err(Refusal::Usage);
    };
    let row = command_row(noun.as_str(), verb.as_str()).ok_or(Refusal::Usage)?;
    let invocation = Invocation {
        command: row.command,
        options: read_options(alloc, row.options, rest)?,
    };
    let inputs = count_standard_inputs(row.options, &invocation);
    needs(inputs <= 1, Refusal::Usage)?;
    let outputs = count_standard_outputs(row.options, &invocation);
    needs(outputs <= 1, Refusal::Usage)?;
    let unserved = count_unserved(row.options, &invocation);
    needs(unserved == 0, Refusal::Usage)?;
    Ok(invocation)
}

/// How many inputs are standard input.
fn count_standard_inputs(options: &[OptionRow], invocation: &Invocation) -> usize
    ensures { result
        ≡ standard_count is_input (map option_entry options.now) (invocation_view invocation.now).options }
{
    options
        .iter()
        .filter(|option| option.3.is_input() && is_standard(option, invocation))
        .count()
}

/// How many outputs are standard output.
fn count_standard_outputs(options: &[OptionRow], invocation: &Invocation) -> usize
    ensures { result
        ≡ standard_count is_output (map option_entry options.now) (invocation_view invocation.now).options }
{
    options
        .iter()
        .filter(|option| option.3.is_output() && is_standard(option, invocation))
        .count()
}

/// How many options for a hash name none of the four.
fn count_unserved(options: &[OptionRow], invocation: &Invocation) -> usize
    ensures { result
        ≡ unserved_count (map option_entry options.now) (invocation_view invocation.now).options }
{
    options
        .iter()
        .filter(|option| !is_served(option, invocation))
        .count()
}

fn is_standard(option: &OptionRow, invocation: &Invocation) -> bool
    ensures { result ≡ is_dash (value_at (option_entry option.now).letter (invocation_view invocation.now).options) }
{
    let OptionRow(letter, _, _, _) = *option;
    invocation.value(letter) == Some("-")
}

fn is_served(option: &OptionRow, invocation: &Invocation) -> bool
    ensures { result
        ≡ is_served (option_entry option.now).role (value_at (option_entry option.now).letter (invocation_view invocation.now).options) }
{
    let OptionRow(letter, _, _, role) = *option;
    match role {
        Role::Hash => invocation.value(letter).and_then(hash_named).is_some(),
        _ => true,
    }
}
