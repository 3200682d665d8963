//! The words of a command line, read by clap.

ghost use Rattle.std.specs.Prelude.{◌≡◌, map, string_bytes, option_map, IfOk, IfSome};
ghost use Rattle.clap.specs.Words.{found_of, rows_of};
ghost use Rattle.command_words.specs.Commands.{AreOf, InRange, app_named, command_of, given_state_in, leaves_in, matched, request_by, request_of};

use crate::command::Command;
use crate::commands::{Name, command, name_of};
use clap::ArgMatches;
use clap::error::ErrorKind;
use std::alloc::{AllocError, Global};

/// The command of some words, without the program's own name: the first word names it, and clap reads the others. Answers
/// `None` exactly where there is no first word, it is no command, or clap refuses the others.
pub fn read_words<'a>(alloc: Global, words: &'a [String]) -> Result<Option<Command<'a>>, AllocError>
    ensures command { IfOk result (λ command. option_map request_of command ≡ command_of (map string_bytes words.now)) }
    ensures in_range { IfOk result (λ command. IfSome command (λ c. InRange (request_of c))) }
{
    let Some(first) = words.first() else {
        return Ok(None);
    };
    let Some(name) = name_of(first.as_str()) else {
        return Ok(None);
    };
    let Some(matches) = matched(alloc, name, words)? else {
        return Ok(None);
    };
    let command = asked(alloc, name, &matches)?;
    Ok(Some(command))
}

/// What clap matches, or `None` where it refuses the words behind the first.
fn matched<'a>(
    alloc: Global,
    name: Name,
    words: &'a [String],
) -> Result<Option<ArgMatches<'a>>, AllocError>
    ensures rows { IfOk result (λ r. option_map (λ m. rows_of (found_of m)) r ≡ matched (app_named name) (map string_bytes words.now)) }
    ensures command { IfOk result (λ r. IfSome r (AreOf name)) }
{
    match command(alloc, name)?.try_get_matches_from(words) {
        Ok(matches) => Ok(Some(matches)),
        Err(error) if error.kind() == ErrorKind::OutOfMemory => Err(AllocError),
        Err(_) => Ok(None),
    }
}

/// What a command asks for, by its matches.
fn asked<'a>(alloc: Global, name: Name, matches: &ArgMatches<'a>) -> Result<Command<'a>, AllocError>
    requires { AreOf name matches.now }
    ensures command { IfOk result (λ command. request_of command ≡ request_by name (rows_of (found_of matches.now))) }
    ensures in_range { IfOk result (λ command. InRange (request_of command)) }
{
    let workers = matches.get_one::<u32>("workers").unwrap_or(1);
    let circuit = matches.get_str("circuit").unwrap_or("-");
    match name {
        Name::Run => Ok(Command::Run {
            workers,
            refined: matches.get_one::<bool>("refine").unwrap_or(false),
            circuit,
            stimulus: matches.get_str("stimulus"),
        }),
        Name::Check => Ok(Command::Check { circuit }),
        Name::Widths => Ok(Command::Widths { circuit }),
        Name::Cut => Ok(Command::Cut { workers, circuit }),
        Name::Make => Ok(Command::Make {
            workers,
            cycles: matches.get_one::<u32>("cycles").unwrap_or(64),
            size: matches.get_one::<u32>("size").unwrap_or(0),
        }),
        Name::Vcd => Ok(Command::Vcd {
            workers,
            circuit,
            leaves: leaves(alloc, matches)?,
        }),
        Name::Refine => Ok(Command::Refine { workers, circuit }),
        Name::Save => Ok(Command::Save {
            workers,
            circuit,
            state: matches.get_str("state"),
        }),
        Name::Resume => Ok(Command::Resume {
            workers,
            circuit,
            state: resumed_state(matches),
        }),
        Name::Log => Ok(Command::Log { workers, circuit }),
    }
}

/// The name of the state that `resume` has, since clap asks for it.
fn resumed_state<'a>(matches: &ArgMatches<'a>) -> &'a str
    requires { AreOf Name.Resume matches.now }
    ensures { result.now ≡ given_state_in (rows_of (found_of matches.now)) }
{
    let Some(state) = matches.get_str("state") else {
        unreachable!();
    };
    state
}

/// The names of leaves, in their order.
fn leaves<'a>(alloc: Global, matches: &ArgMatches<'a>) -> Result<Vec<&'a str>, AllocError>
    ensures { IfOk result (λ names. map (λ name. name.now) names.items ≡ leaves_in (rows_of (found_of matches.now))) }
{
    match matches.get_strs("leaf") {
        Some(names) => Vec::from_slice(alloc, names),
        None => Ok(Vec::new(alloc)),
    }
}
