ghost use Rattle.std.specs.Prelude.{◌≡◌, IfOk, map, fold, false};
ghost use Rattle.clap.specs.Words.{app_of, rule_of};
ghost use Rattle.clap.specs.declared.builder.command.Command.TheViews.{out-Command};
ghost use Rattle.commandline.specs.Arguments.{app, check_app, ended_app, file_app, flag_rule, logged_app, number_rule, numbered_app, option_of, program_app, run_app, serve_app, text_rule, with_option};
ghost use Rattle.commandline.specs.Subcommands.{IsWithSubcommand};

use crate::options::{NumberOption, SERVE_OPTIONS};
use crate::version::VERSION;
use clap::builder::ValueParser;
use clap::{Arg, ArgAction};
use std::alloc::{AllocError, Global};

// A flag of this name.
fn flag<'a>(alloc: Global, name: &'a str, help: &'a str) -> Arg<'a>
    ensures rule { rule_of result ≡ flag_rule name.now }
    ensures local { result.global ≡ false }
{
    Arg::new(alloc, name)
        .long(name)
        .help(help)
        .action(ArgAction::SetTrue)
}

// A subcommand of this name: the name of a mapfile follows, and `--explain` may.
fn file_command<'a>(
    alloc: Global,
    name: &'a str,
    about: &'a str,
) -> Result<clap::Command<'a>, AllocError>
    ensures app { IfOk result (λ c. app_of c ≡ file_app name.now) }
    ensures local { IfOk result (λ c. (out-Command c).has_globals ≡ false) }
{
    let file = Arg::new(alloc, "FILE").required(true).help("The mapfile");
    let subcommand = clap::Command::new(alloc, name).about(about).arg(file)?;
    let help = "Explain the mapfile's first fault, or print warnings";
    subcommand.arg(flag(alloc, "explain", help))
}

// `check --explain FILE`.
fn check_command<'a>(alloc: Global) -> Result<clap::Command<'a>, AllocError>
    ensures app { IfOk result (λ c. app_of c ≡ check_app) }
    ensures local { IfOk result (λ c. (out-Command c).has_globals ≡ false) }
{
    let about = "Check a mapfile, and count its layers and features";
    file_command(alloc, "check", about)
}

// `run --explain FILE SCRIPT`.
fn run_command<'a>(alloc: Global) -> Result<clap::Command<'a>, AllocError>
    ensures app { IfOk result (λ c. app_of c ≡ run_app) }
    ensures local { IfOk result (λ c. (out-Command c).has_globals ≡ false) }
{
    let subcommand = file_command(alloc, "run", "Run a script against a map")?;
    let script = Arg::new(alloc, "SCRIPT").required(true);
    subcommand.arg(script.help("The script: queries and batches"))
}

// The argument of an option.
fn argument_of<'a>(alloc: Global, option: &NumberOption<'a>) -> Arg<'a>
    ensures rule { rule_of result ≡ number_rule (option_of option.now) }
    ensures local { result.global ≡ false }
{
    let parser = ValueParser::signed(i64::from(option.least), i64::from(option.most));
    Arg::new(alloc, option.name)
        .long(option.name)
        .value_parser(parser)
        .default_value(option.default)
        .value_name(option.value)
        .help(option.help)
}

// A subcommand with further options.
fn with_options<'a>(
    alloc: Global,
    subcommand: clap::Command<'a>,
    options: &[NumberOption<'a>],
) -> Result<clap::Command<'a>, AllocError>
    requires local { (out-Command subcommand).has_globals ≡ false }
    ensures app { IfOk result (λ c. app_of c ≡ fold with_option (app_of subcommand.entry) (map option_of options.now)) }
    ensures local { IfOk result (λ c. (out-Command c).has_globals ≡ false) }
{
    let mut subcommand = subcommand;
    for option in options {
        subcommand = subcommand.arg(argument_of(alloc, option))?;
    }
    Ok(subcommand)
}

// `serve --explain FILE` with the options that are numbers.
fn numbered_command<'a>(alloc: Global) -> Result<clap::Command<'a>, AllocError>
    ensures app { IfOk result (λ c. app_of c ≡ numbered_app) }
    ensures local { IfOk result (λ c. (out-Command c).has_globals ≡ false) }
{
    let subcommand = file_command(alloc, "serve", "Serve the map over HTTP on 127.0.0.1")?;
    with_options(alloc, subcommand, &SERVE_OPTIONS)
}

// The same with `--until-input-ends`.
fn ended_command<'a>(alloc: Global) -> Result<clap::Command<'a>, AllocError>
    ensures app { IfOk result (λ c. app_of c ≡ ended_app) }
    ensures local { IfOk result (λ c. (out-Command c).has_globals ≡ false) }
{
    let subcommand = numbered_command(alloc)?;
    let help = "End when standard input does, once those being answered have their answers";
    subcommand.arg(flag(alloc, "until-input-ends", help))
}

// The same with `--log`.
fn logged_command<'a>(alloc: Global) -> Result<clap::Command<'a>, AllocError>
    ensures app { IfOk result (λ c. app_of c ≡ logged_app) }
    ensures local { IfOk result (λ c. (out-Command c).has_globals ≡ false) }
{
    let subcommand = ended_command(alloc)?;
    let help = "Log each answer and each batch in a line of standard error";
    subcommand.arg(flag(alloc, "log", help))
}

// An option of this name, which is a text.
fn text_option<'a>(alloc: Global, name: &'a str, value: &'a str, help: &'a str) -> Arg<'a>
    ensures rule { rule_of result ≡ text_rule name.now }
    ensures local { result.global ≡ false }
{
    Arg::new(alloc, name)
        .long(name)
        .value_name(value)
        .help(help)
}

// `serve --explain FILE` with its options.
fn serve_command<'a>(alloc: Global) -> Result<clap::Command<'a>, AllocError>
    ensures app { IfOk result (λ c. app_of c ≡ serve_app) }
    ensures local { IfOk result (λ c. (out-Command c).has_globals ≡ false) }
{
    let subcommand = logged_command(alloc)?;
    let help =
        "Journal that keeps batches, so that they outlive the program; made where it isn't there";
    subcommand.arg(text_option(alloc, "journal", "JOURNAL", help))
}

// The program by its name, without subcommands.
fn program<'a>(alloc: Global) -> Result<clap::Command<'a>, AllocError>
    ensures { IfOk result (λ c. app_of c ≡ program_app) }
{
    let program = clap::Command::new(alloc, "mapservd").bin_name("mapservd")?;
    let about = "Serve maps by WMS. Without a command, play a session from standard input";
    Ok(program.about(about).version(VERSION).no_binary_name(true))
}

// The program so far with one more subcommand, if that was made.
fn with_subcommand<'a>(
    program: clap::Command<'a>,
    subcommand: Result<clap::Command<'a>, AllocError>,
) -> Result<clap::Command<'a>, AllocError>
    ensures { IfOk result (λ c. IsWithSubcommand program.entry subcommand.entry c) }
{
    match subcommand {
        Ok(subcommand) => program.subcommand(subcommand),
        Err(error) => {
            drop(program);
            Err(error)
        }
    }
}

/// The program with all of its subcommands.
pub(crate) fn all_commands<'a>(alloc: Global) -> Result<clap::Command<'a>, AllocError>
    ensures { IfOk result (λ c. app_of c ≡ app) }
{
    let none = program(alloc)?;
    let one = with_subcommand(none, check_command(alloc))?;
    let two = with_subcommand(one, run_command(alloc))?;
    with_subcommand(two, serve_command(alloc))
}
