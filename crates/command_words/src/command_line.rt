//! The command line of the program.
ghost use Rattle.std.specs.Prelude.{◌≡◌, [], false, IfOk, IsErrOf, map, string_bytes};
ghost use Rattle.clap.specs.Matches.{found_of};
ghost use Rattle.clap.specs.Walk.{rule_of, rows_of};
ghost use Rattle.clap.specs.Simple.{app_of, new_rule};
ghost use Rattle.command_words.specs.CommandLine.{command_line, given, given_by, option_named, refusals};
ghost use Rattle.std.specs.Option.{option_map};

use crate::WordsFault;
use crate::fault::fault_of_kind;
use clap::{Arg, ArgMatches, Command};
use hl_base::OutOfMemory;
use std::alloc::Global;

/// The version that is told.
const VERSION: &str = "0.1.0";

const ABOUT: &str =
    "A language server for HLASM, the IBM High Level Assembler, over standard input and output";

const COMMANDS: &str = "Commands:
  serve    The session of an editor, which starts it so
  bulk     A session with a large program, and six lines of what came of it";

const BUDGET: &str =
    "How many statements a program may be given: 1 to 400000, 100000 if it is left out";

const COUNT: &str = "How many calls the large program has: 1 to 10000";

/// An option with a number.
fn number_option<'a>(alloc: Global, name: &'a str, help: &'a str) -> Arg<'a>
    ensures rule { rule_of result ≡ option_named name.entry.now }
    ensures local { result.global ≡ false }
{
    Arg::new(alloc, name).long(name).value_name("N").help(help)
}

/// A position.
fn position<'a>(alloc: Global, name: &'a str, help: &'a str) -> Arg<'a>
    ensures rule { rule_of result ≡ new_rule name.entry.now }
    ensures local { result.global ≡ false }
{
    Arg::new(alloc, name).help(help)
}

/// The command line. Its help shows no file, which the program has no command for yet.
pub(crate) fn command_line<'a>(alloc: Global) -> Result<Command<'a>, OutOfMemory>
    ensures { IfOk result (λ line. app_of line ≡ command_line) }
{
    let budget = number_option(alloc, "budget", BUDGET);
    let count = number_option(alloc, "count", COUNT);
    let command = position(alloc, "command", "serve or bulk");
    let file = position(alloc, "file", "A source file").hide(true);
    let program = Command::new(alloc, "hlasm_ls")
        .no_binary_name(true)
        .version(VERSION)
        .about(ABOUT)
        .after_help(COMMANDS);
    Ok(program.arg(budget)?.arg(count)?.arg(command)?.arg(file)?)
}

/// What the options and positions are given by the words.
pub(crate) fn matched<'a>(alloc: Global, words: &'a [String]) -> Result<ArgMatches<'a>, WordsFault>
    ensures taken { IfOk result (λ _. refusals (map string_bytes words.entry.now) ≡ []) }
    ensures rows { IfOk result (λ matches. rows_of (found_of matches) ≡ given_by (map string_bytes words.entry.now)) }
    ensures refused { IsErrOf result WordsFault.BadWords → refusals (map string_bytes words.entry.now) ≡ [] → ⊥ }
{
    match command_line(alloc)?.try_get_matches_from(words) {
        Ok(matches) => Ok(matches),
        Err(error) => Err(fault_of_kind(error.kind())),
    }
}

/// What is given under a name.
pub(crate) fn given<'a>(matches: &ArgMatches<'a>, name: &str) -> Option<&'a str>
    ensures { option_map (λ text. text.now) result ≡ given name.now (rows_of (found_of matches.now)) }
{
    matches.get_str(name)
}
