//! The command line as `clap` reads it.
ghost use Rattle.std.specs.Prelude.{◌≡◌, false, IfOk};
ghost use Rattle.clap.specs.Words.{app_of, kind_of, rule_of};
ghost use Rattle.clap.specs.declared.builder.command.Command.TheViews.{out-Command};
ghost use Rattle.sc_args.specs.Words.{choices_rule, file_app, required_rule, superc_app};
ghost use Rattle.sc_args.specs.Refusal.{RefusesFor};

use crate::ArgsStop;
use clap::error::ErrorKind;
use clap::{Arg, Command, Error};
use std::alloc::{AllocError, Global};

const STATUSES: &str = "Status:
  0  each configuration is accepted
  1  a configuration is refused: the text says which and why
  2  the words name no command with its words, FILE is no file name, or N no number of items
  3  SPACE is absent or refused
  5  configurations differ at one place in more ways than `branches` allows
  6  a file could not be read
  7  the text could not be written whole
  8  no memory was left";

/// The command `superc` with its subcommands.
pub(crate) fn superc<'a>(alloc: Global) -> Result<Command<'a>, AllocError>
    ensures { IfOk result (λ c. app_of c ≡ superc_app) }
{
    let tokens = on_files(
        alloc,
        "tokens",
        "Show the preprocessed tokens of a file under all configurations",
    )?;
    let parse = on_files(
        alloc,
        "parse",
        "Show the tree of a file under all configurations",
    )?;
    let project = on_files(
        alloc,
        "project",
        "Show the tree of a file under one configuration",
    )?
    .arg(choices(alloc))?;
    let conflicts = Command::new(alloc, "conflicts").about(
        "Show the resolved conflicts of the tables of C11",
    );
    let items = required(alloc, "items", "N", "How many items, from 1 to 100000");
    let make = Command::new(alloc, "make")
        .about("Make a file of N items, parse it and show a summary")
        .arg(items)?;
    Command::new(alloc, "superc")
        .about("Preprocess and parse C11 under all configurations")
        .after_help(STATUSES)
        .subcommand_required(true)
        .subcommand(tokens)?
        .subcommand(parse)?
        .subcommand(project)?
        .subcommand(conflicts)?
        .subcommand(make)
}

/// A command on a space file and a main file.
fn on_files<'a>(alloc: Global, name: &'a str, about: &'a str) -> Result<Command<'a>, AllocError>
    ensures app { IfOk result (λ c. app_of c ≡ file_app name.entry.now) }
    ensures local { IfOk result (λ c. (out-Command c).has_globals ≡ false) }
{
    let space = required(
        alloc,
        "space",
        "SPACE",
        "The space file: the variables and their options",
    );
    let file = required(alloc, "file", "FILE", "The main file");
    Command::new(alloc, name).about(about).arg(space)?.arg(file)
}

/// An argument that is required, with the name that help has for its value.
fn required<'a>(alloc: Global, id: &'a str, value_name: &'a str, help: &'a str) -> Arg<'a>
    ensures rule { rule_of result ≡ required_rule id.entry.now }
    ensures local { result.global ≡ false }
{
    Arg::new(alloc, id)
        .required(true)
        .value_name(value_name)
        .help(help)
}

/// The words that choose options. There may be none.
fn choices<'a>(alloc: Global) -> Arg<'a>
    ensures rule { rule_of result ≡ choices_rule }
    ensures local { result.global ≡ false }
{
    Arg::new(alloc, "choices")
        .num_args(0..)
        .value_name("NAME=OPTION")
        .help("The option of a variable; by default it is the first one")
}

/// What the call answers where `clap` gives no matches.
pub(crate) fn refusal(alloc: Global, error: &Error) -> ArgsStop
    ensures { RefusesFor (kind_of error.now) result }
{
    if error.kind() == ErrorKind::OutOfMemory {
        return ArgsStop::OutOfMemory;
    }
    match error.to_string(alloc) {
        Ok(text) => ArgsStop::Usage(text),
        Err(_) => ArgsStop::OutOfMemory,
    }
}
