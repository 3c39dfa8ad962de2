//! What is said to a person whose words are not a command.
use crate::command_line::command_line;
use clap::Error;
use clap::error::ErrorKind;
use hl_base::OutOfMemory;
use std::alloc::Global;

/// How the program is started.
const USAGE: &str =
    "An editor starts it as: hlasm_ls serve, or hlasm_ls serve --budget N with N from 1 to 400000 (docs/EDITORS.md).
To list what it reports of files, run: hlasm-lint FILE or FOLDER (docs/PIPELINE.md).";

/// Why the command line does not take the words, if it does not.
fn refusal<'a>(alloc: Global, words: &'a [String]) -> Result<Option<Error>, OutOfMemory> {
    match command_line(alloc)?.try_get_matches_from(words) {
        Ok(_matches) => Ok(None),
        Err(error) => Ok(Some(error)),
    }
}

/// Whether the words ask for help or the version.
fn is_request(error: &Error) -> bool {
    matches!(
        error.kind(),
        ErrorKind::DisplayHelp | ErrorKind::DisplayVersion
    )
}

/// The lines that were asked for, without their last line end.
fn lines_of(alloc: Global, error: &Error) -> Result<String, OutOfMemory> {
    let text = format!(in alloc; "{error}")?;
    Ok(String::from_str(alloc, text.trim_end())?)
}

/// Lines for a person whose words are no command: the help or the version if they ask for that, and else how the program is
/// started. The last has no line end.
pub fn advice(alloc: Global, words: &[String]) -> Result<String, OutOfMemory> {
    if let Some(error) = refusal(alloc, words)? {
        if is_request(&error) {
            return lines_of(alloc, &error);
        }
    }
    Ok(String::from_str(alloc, USAGE)?)
}
