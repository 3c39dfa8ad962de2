//! The command that the words ask for.
ghost use Rattle.std.specs.Prelude.{◌≡◌, Some, None, IfOk, IsErrOf, map, string_bytes};
ghost use Rattle.clap.specs.Matches.{found_of};
ghost use Rattle.clap.specs.Walk.{rows_of};
ghost use Rattle.command_words.specs.CommandLine.{given};
ghost use Rattle.command_words.specs.Commands.{asked_by, bulk_of, command_named, command_of, is_given, serve_of};

use crate::command_line::{given, matched};
use crate::numbers::{budget_of, count_of};
use crate::{Command, WordsFault};
use clap::ArgMatches;
use std::alloc::Global;

/// Whether something is given under a name.
fn is_given(matches: &ArgMatches<'_>, name: &str) -> bool
    ensures { result ≡ is_given name.now (rows_of (found_of matches.now)) }
{
    given(matches, name).is_some()
}

/// The session of an editor, if nothing but a budget is given.
fn serve_of(matches: &ArgMatches<'_>) -> Option<Command>
    ensures { result ≡ serve_of (rows_of (found_of matches.now)) }
{
    if is_given(matches, "count") || is_given(matches, "file") {
        return None;
    }
    match budget_of(given(matches, "budget")) {
        Some(budget) => Some(Command::Serve { budget }),
        None => None,
    }
}

/// The session of its own, if a count is given and nothing else.
fn bulk_of(matches: &ArgMatches<'_>) -> Option<Command>
    ensures { result ≡ bulk_of (rows_of (found_of matches.now)) }
{
    if is_given(matches, "budget") || is_given(matches, "file") {
        return None;
    }
    match count_of(given(matches, "count")) {
        Some(count) => Some(Command::Bulk { count }),
        None => None,
    }
}

/// The command of a name.
fn command_named(name: &str, matches: &ArgMatches<'_>) -> Option<Command>
    ensures { result ≡ command_named name.now (rows_of (found_of matches.now)) }
{
    if name == "serve" {
        serve_of(matches)
    } else if name == "bulk" {
        bulk_of(matches)
    } else {
        None
    }
}

/// What is asked for by what is given.
fn asked_by(matches: &ArgMatches<'_>) -> Option<Command>
    ensures { result ≡ asked_by (rows_of (found_of matches.now)) }
{
    match given(matches, "command") {
        Some(name) => command_named(name, matches),
        None => None,
    }
}

/// The command that the words after the program's name ask for.
pub fn read_words(alloc: Global, words: &[String]) -> Result<Command, WordsFault>
    ensures command { IfOk result (λ command. command_of (map string_bytes words.now) ≡ Some command) }
    ensures bad_words { IsErrOf result WordsFault.BadWords → command_of (map string_bytes words.now) ≡ None }
{
    let matches = matched(alloc, words)?;
    match asked_by(&matches) {
        Some(command) => Ok(command),
        None => Err(WordsFault::BadWords),
    }
}
