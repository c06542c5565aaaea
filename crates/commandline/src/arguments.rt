ghost use Rattle.std.specs.Prelude.{◌≡◌, ◌≢◌, All, IfOk, IfErr, IfSome, OnOk, map, [], true, false};
ghost use Rattle.clap.specs.Words.{rows_of, found_of, fault_of, kind_of, subcommand_of, subcommand_rows_of, takes};
ghost use Rattle.clap.specs.declared.error.kind.ErrorKind.TheVariants.{OutOfMemory};
ghost use Rattle.commandline.specs.Arguments.{app, IsCommand, IsFlag, IsInRange, IsNumber, IsService, is_refusal, option_of};

use crate::commands::all_commands;
use crate::options::{NumberOption, SERVE_OPTIONS};
use crate::subcommand::{Command, Service};
use clap::ArgMatches;
use clap::error::ErrorKind;
use std::alloc::Global;
use thiserror::Error;

/// Why arguments are no command.
#[derive(Debug, Drop, Error)]
pub enum WordsFault {
    /// They aren't those of a subcommand, or request help.
    #[error("{text}")]
    Refused {
        /// The message, lines that end with LF.
        text: String,
    },
    /// Memory was refused.
    #[error("out of memory")]
    NoMemory,
}

// The number of an option of 16 bits.
fn number_of<'a>(matches: &ArgMatches<'a>, name: &str) -> Option<u16>
    ensures { IfSome result (IsNumber 16 name.now (rows_of (found_of matches.now))) }
{
    matches.get_one::<u16>(name)
}

// The number of an option of 32 bits.
fn large_number_of<'a>(matches: &ArgMatches<'a>, name: &str) -> Option<u32>
    ensures { IfSome result (IsNumber 32 name.now (rows_of (found_of matches.now))) }
{
    matches.get_one::<u32>(name)
}

// Whether a flag is set.
fn flag_of<'a>(matches: &ArgMatches<'a>, name: &str) -> bool
    ensures { IsFlag name.now (rows_of (found_of matches.now)) result }
{
    matches.get_flag(name)
}

// Whether the number of an option is there, and is in its range.
fn is_in_range<'a>(matches: &ArgMatches<'a>, option: &NumberOption<'_>) -> bool
    ensures { result ≡ true → IsInRange (rows_of (found_of matches.now)) (option_of option.now) }
{
    match large_number_of(matches, option.name) {
        Some(number) => option.least <= number && number <= option.most,
        None => false,
    }
}

// Whether the numbers of some options are there, and in their ranges.
fn are_in_range<'a>(matches: &ArgMatches<'a>, options: &[NumberOption<'_>]) -> bool
    ensures { result ≡ true → All (IsInRange (rows_of (found_of matches.now))) (map option_of options.now) }
{
    for option in options {
        if !is_in_range(matches, option) {
            return false;
        }
    }
    true
}

// The options of a service by matches. Numbers beyond their ranges don't occur.
fn service_of<'a>(matches: &ArgMatches<'a>) -> Option<Service>
    ensures { IfSome result (IsService (rows_of (found_of matches.now))) }
{
    if !are_in_range(matches, &SERVE_OPTIONS) {
        return None;
    }
    Some(Service {
        port: number_of(matches, "port")?,
        connections: large_number_of(matches, "connections")?,
        idle: number_of(matches, "idle")?,
        timeout: number_of(matches, "timeout")?,
        admin_port: number_of(matches, "admin-port")?,
        workers: number_of(matches, "workers")?,
        checkpoint: large_number_of(matches, "checkpoint")?,
        until_input_ends: flag_of(matches, "until-input-ends"),
        logs: flag_of(matches, "log"),
    })
}

// The command of matches.
fn command_of<'a>(matches: &ArgMatches<'a>) -> Option<Command<'a>>
    ensures { IfSome result (IsCommand (subcommand_rows_of matches.now)) }
{
    let Some((name, inner)) = matches.subcommand() else {
        return Some(Command::Session);
    };
    let file = inner.get_str("FILE")?;
    let explains = flag_of(inner, "explain");
    match name {
        "check" => Some(Command::Check { file, explains }),
        "run" => Some(Command::Run {
            file,
            script: inner.get_str("SCRIPT")?,
            explains,
        }),
        "serve" => Some(Command::Serve {
            file,
            explains,
            service: service_of(inner)?,
            journal: inner.get_str("journal"),
        }),
        _ => None,
    }
}

// The message on arguments that were refused.
fn refusal(alloc: Global, error: &clap::Error) -> WordsFault
    ensures { is_refusal result ≡ true → kind_of error.now ≢ OutOfMemory }
{
    match error.kind() {
        ErrorKind::OutOfMemory => WordsFault::NoMemory,
        _ => match error.to_string(alloc) {
            Ok(text) => WordsFault::Refused { text },
            Err(_) => WordsFault::NoMemory,
        },
    }
}

/// The command of the arguments after the program's name. Its errors are that they are those of no subcommand or request
/// help, with a message, and that memory was refused.
pub fn command<'a>(alloc: Global, arguments: &'a [&'a str]) -> Result<Command<'a>, WordsFault>
    ensures command { IfOk result (IsCommand (subcommand_of app (map (λ argument. argument.now) arguments.entry.now))) }
    ensures taken { OnOk result (fault_of app (map (λ argument. argument.now) arguments.entry.now) ≡ []) }
    ensures refused { IfErr result (λ e. is_refusal e ≡ true → takes app (map (λ argument. argument.now) arguments.entry.now) ≡ false) }
{
    let Ok(commands) = all_commands(alloc) else {
        return Err(WordsFault::NoMemory);
    };
    match commands.try_get_matches_from(arguments) {
        // matches without a required argument don't occur
        Ok(matches) => command_of(&matches).ok_or(WordsFault::NoMemory),
        Err(error) => Err(refusal(alloc, &error)),
    }
}
