//! Reading the options after a command's two words with `clap`. The command's options are passed from the table, and this module does not
//! know what they name.
ghost use Rattle.std.specs.Prelude.{◌≡◌, ◌++◌, [], map, string_bytes, option_map, true, false, IfOk, OnOk};
ghost use Rattle.clap.specs.Words.{app_of, rule_of, found_of, rows_of, kind_of, is_simple_and_free};
ghost use Rattle.octets.specs.Code.Results.{AgreesUnlessMemory};
ghost use Rattle.jose.specs.Code.Rows.{option_entry, takes_of};
ghost use Rattle.jose.specs.Reading.{rule_for, with_takes, app_for, value_given, setting_before, settings_of, settings_read, IsRefusalFor};
ghost use Rattle.jose.specs.Invocations.{settings_view};

use crate::Setting;
use crate::words::table::{Kind, OptionRow};
use clap::error::ErrorKind;
use clap::{Arg, ArgAction, ArgMatches, Command, Error};
use octets::Refusal;
use std::alloc::{AllocError, Global};

/// Returns the settings that the words make, in the order of the options. Refuses with `Usage` if `clap` refuses the words.
pub(crate) fn read_options(
    alloc: Global,
    options: &[OptionRow],
    words: &[String],
) -> Result<Vec<Setting>, Refusal>
    requires { is_simple_and_free (app_for (map option_entry options.now)) ≡ true }
    ensures { AgreesUnlessMemory (λ settings. settings_view settings.items) result
        (settings_read (map option_entry options.now) (map string_bytes words.now)) }
{
    let command = command_of(alloc, options)?;
    match command.try_get_matches_from(words) {
        Ok(matches) => Ok(settings(alloc, options, &matches)?),
        Err(error) => Err(refusal_for(&error)),
    }
}

/// The `clap` command with these options. Its words do not begin with the program's name, and it has no flag for help.
fn command_of<'a>(alloc: Global, options: &[OptionRow]) -> Result<Command<'a>, AllocError>
    ensures { IfOk result (λ command. app_of command ≡ app_for (map option_entry options.now)) }
{
    let mut command = Command::new(alloc, "jose")
        .no_binary_name(true)
        .disable_help_flag(true);
    for option in options {
        command = command.arg(argument_of(alloc, option))?;
    }
    Ok(command)
}

fn argument_of(alloc: Global, option: &OptionRow) -> Arg<'static>
    ensures rule { rule_of result ≡ rule_for (option_entry option.now) }
    ensures local { result.global ≡ false }
{
    let OptionRow(letter, name, kind, _) = *option;
    taking(Arg::new(alloc, name).short(letter), kind)
}

/// The argument, with the value that options of this kind have.
fn taking(argument: Arg<'static>, kind: Kind) -> Arg<'static>
    ensures rule { rule_of result ≡ with_takes (takes_of kind) (rule_of argument.entry) }
    ensures local { result.global ≡ argument.entry.global }
{
    match kind {
        Kind::Flag => argument.action(ArgAction::SetTrue),
        Kind::Required => argument.action(ArgAction::Set).required(true),
        Kind::Optional => argument.action(ArgAction::Set),
        Kind::Default(text) => argument.action(ArgAction::Set).default_value(text),
    }
}

/// `Memory` if an allocation failed, and otherwise `Usage`.
fn refusal_for(error: &Error) -> Refusal
    ensures { IsRefusalFor (kind_of error.now) result }
{
    if error.kind() == ErrorKind::OutOfMemory {
        Refusal::Memory
    } else {
        Refusal::Usage
    }
}

fn settings(
    alloc: Global,
    options: &[OptionRow],
    matches: &ArgMatches<'_>,
) -> Result<Vec<Setting>, AllocError>
    ensures { IfOk result (λ settings. settings_view settings.items
        ≡ settings_of (map option_entry options.now) (rows_of (found_of matches.now))) }
{
    let mut settings = Vec::new(alloc);
    for option in options {
        let OptionRow(letter, name, kind, _) = *option;
        let value = value_of(kind, matches.get_str(name));
        add_setting(alloc, letter, value, &mut settings)?;
    }
    Ok(settings)
}

fn add_setting(
    alloc: Global,
    letter: char,
    value: Option<&str>,
    settings: &mut Vec<Setting>,
) -> Result<(), AllocError>
    ensures { OnOk result (settings_view settings.new.items ≡ settings_view settings.old.items
        ++ setting_before letter (option_map (λ s. s.now) value.entry) []) }
{
    if let Some(text) = value {
        let value = String::from_str(alloc, text)?;
        settings.push(Setting { letter, value })?;
    }
    Ok(())
}

/// The value that an option was given. `clap` reads a flag that was not given as `false`.
fn value_of(kind: Kind, value: Option<&str>) -> Option<&str>
    ensures { option_map (λ s. s.now) result
        ≡ value_given (takes_of kind) (option_map (λ s. s.now) value.entry) }
{
    match (kind, value) {
        (Kind::Flag, Some(text)) if text != "true" => None,
        (_, value) => value,
    }
}
