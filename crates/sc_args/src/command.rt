ghost use Rattle.std.specs.Prelude.{◌≡◌, List, ℕ, [], None, Some, IfErr, IfOk, codes, if◌then◌else◌, map, nat_le, option_map, string_bytes, unwrap_or};
ghost use Rattle.std.specs.List.{list_all};
ghost use Rattle.std.specs.Char.{is_ascii_digit};
ghost use Rattle.std.specs.Str.Parse.{digits_value};
ghost use Rattle.clap.specs.Words.{first_of, found_of, rows_of, subcommand_rows_of};
ghost use Rattle.sc_args.specs.Seen.{Answers, Refuses};
ghost use Rattle.sc_args.specs.Words.{Asked, asked_by, asked_of, asked_on_files, asked_to_make, asked_with, choices_in, is_count, is_file_name, parse, project, tokens};
ghost use Rattle.sc_args.specs.declared.stop.ArgsStop.TheVariants as stop;

use crate::{ArgsStop, command_line};
use clap::ArgMatches;
use std::alloc::Global;

/// The most items of a file that is made.
const MOST_ITEMS: u32 = 100_000;

/// What the words ask for.
#[derive(Debug, Drop)]
pub enum Command {
    /// The preprocessed tokens of a file under all configurations of a space file.
    Tokens {
        space: String,
        file: String,
    },
    /// The tree of a file under all configurations of a space file.
    Parse {
        space: String,
        file: String,
    },
    /// The tree of a file under the configuration that words of the form `NAME=OPTION` choose.
    Project {
        space: String,
        file: String,
        choices: Vec<String>,
    },
    /// The resolved conflicts of the tables of C11.
    Conflicts,
    /// A summary of a file of so many items, which is made and parsed.
    Make(u32),
}

impl Command {
    /// Reads the words of a call, of which the first is the program's name.
    pub fn read(alloc: Global, words: &[String]) -> Result<Command, ArgsStop>
        ensures { Answers result (asked_of (map string_bytes words.now)) }
    {
        let matches = match command_line::superc(alloc)?.try_get_matches_from(words) {
            Ok(matches) => matches,
            Err(refused) => return Err(command_line::refusal(alloc, &refused)),
        };
        Command::named(alloc, &matches)
    }

    fn named(alloc: Global, matches: &ArgMatches<'_>) -> Result<Command, ArgsStop>
        ensures { Answers result (asked_by (subcommand_rows_of matches.now)) }
    {
        if let Some(found) = matches.subcommand_matches("tokens") {
            return Command::tokens(alloc, found);
        }
        if let Some(found) = matches.subcommand_matches("parse") {
            return Command::parse(alloc, found);
        }
        if let Some(found) = matches.subcommand_matches("project") {
            return Command::project(alloc, found);
        }
        if matches.subcommand_matches("conflicts").is_some() {
            return Ok(Command::Conflicts);
        }
        if let Some(found) = matches.subcommand_matches("make") {
            return Command::make(alloc, found);
        }
        Err(ArgsStop::no_command(alloc))
    }

    fn tokens(alloc: Global, found: &ArgMatches<'_>) -> Result<Command, ArgsStop>
        ensures { Answers result (asked_on_files tokens (rows_of (found_of found.now))) }
    {
        let (space, file) = files(alloc, found)?;
        Ok(Command::Tokens { space, file })
    }

    fn parse(alloc: Global, found: &ArgMatches<'_>) -> Result<Command, ArgsStop>
        ensures { Answers result (asked_on_files parse (rows_of (found_of found.now))) }
    {
        let (space, file) = files(alloc, found)?;
        Ok(Command::Parse { space, file })
    }

    fn project(alloc: Global, found: &ArgMatches<'_>) -> Result<Command, ArgsStop>
        ensures { let rows = rows_of (found_of found.now) in
            Answers result (asked_on_files (λ space file. project space file (choices_in rows)) rows) }
    {
        let (space, file) = files(alloc, found)?;
        let choices = choices(alloc, found.get_strs("choices"))?;
        Ok(Command::Project {
            space,
            file,
            choices,
        })
    }

    fn make(alloc: Global, found: &ArgMatches<'_>) -> Result<Command, ArgsStop>
        ensures { Answers result (asked_to_make (first_of (codes "items") (rows_of (found_of found.now)))) }
    {
        let Some(word) = found.get_str("items") else {
            return Err(ArgsStop::no_command(alloc));
        };
        match items_in(word) {
            Some(items) => Ok(Command::Make(items)),
            None => Err(ArgsStop::BadCount),
        }
    }
}

/// The number of items that a word tells.
fn items_in(word: &str) -> Option<u32>
    ensures { result ≡ (if is_count word.now then Some (digits_value 10 word.now) else None) }
{
    let bytes = word.as_bytes();
    if !has_digits_alone(bytes) || bytes.is_empty() || bytes[0] == b'0' {
        return None;
    }
    match word.parse::<u32>() {
        Ok(items) if (1..=MOST_ITEMS).contains(&items) => Some(items),
        _ => None,
    }
}

fn has_digits_alone(bytes: &[u8]) -> bool
    ensures { result ≡ list_all is_ascii_digit bytes.now }
{
    bytes.iter().all(|byte| byte.is_ascii_digit())
}

/// The names of the space file and of the main file.
fn files(alloc: Global, found: &ArgMatches<'_>) -> Result<(String, String), ArgsStop>
    ensures ok { IfOk result (λ names. (command : List ℕ → List ℕ → Asked)
        → asked_on_files command (rows_of (found_of found.now)) ≡ Ok (command (string_bytes names.0) (string_bytes names.1))) }
    ensures err { IfErr result (λ refused. (command : List ℕ → List ℕ → Asked)
        → Refuses refused (asked_on_files command (rows_of (found_of found.now)))) }
{
    named_files(alloc, found.get_str("space"), found.get_str("file"))
}

fn named_files(
    alloc: Global,
    space: Option<&str>,
    file: Option<&str>,
) -> Result<(String, String), ArgsStop>
    ensures ok { IfOk result (λ names. (command : List ℕ → List ℕ → Asked)
        → asked_with command (option_map (λ s. s.now) space.entry) (option_map (λ s. s.now) file.entry)
        ≡ Ok (command (string_bytes names.0) (string_bytes names.1))) }
    ensures err { IfErr result (λ refused. (command : List ℕ → List ℕ → Asked)
        → Refuses refused (asked_with command (option_map (λ s. s.now) space.entry) (option_map (λ s. s.now) file.entry))) }
{
    let (Some(space), Some(file)) = (space, file) else {
        return Err(ArgsStop::no_command(alloc));
    };
    if !is_file_name(file.as_bytes()) {
        return Err(ArgsStop::BadFile);
    }
    let space = String::from_str(alloc, space)?;
    let file = String::from_str(alloc, file)?;
    Ok((space, file))
}

/// The words that choose options.
fn choices(alloc: Global, words: Option<&[&str]>) -> Result<Vec<String>, ArgsStop>
    ensures ok { IfOk result (λ choices. map string_bytes choices.items
        ≡ unwrap_or (option_map (λ s. map (λ w. w.now) s.now) words.entry) []) }
    ensures err { IfErr result (λ refused. refused ≡ stop.OutOfMemory) }
{
    let mut choices = Vec::new(alloc);
    if let Some(words) = words {
        for word in words {
            choices.push(String::from_str(alloc, word)?)?;
        }
    }
    Ok(choices)
}

/// Whether a main file may have this name.
fn is_file_name(name: &[u8]) -> bool
    ensures { result ≡ is_file_name name.now }
{
    !name.is_empty() && has_no_control(name)
}

fn has_no_control(bytes: &[u8]) -> bool
    ensures { result ≡ list_all (nat_le 32) bytes.now }
{
    bytes.iter().all(|byte| *byte >= 32)
}
