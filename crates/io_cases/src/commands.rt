//! Commands in words.
use command_words::{Command, WordsFault, read_words};
use hl_base::OutOfMemory;
use std::alloc::Global;

/// The command that the words ask for, with its number; or that they are none.
pub fn command(alloc: Global, words: &[String]) -> Result<String, OutOfMemory> {
    match read_words(alloc, words) {
        Ok(Command::Serve { budget }) => Ok(format!(in alloc; "serve with {budget} statements")?),
        Ok(Command::Bulk { count }) => Ok(format!(in alloc; "bulk with {count} calls")?),
        Err(WordsFault::BadWords) => Ok(String::from_str(alloc, "no command")?),
        Err(WordsFault::OutOfMemory) => Err(OutOfMemory),
    }
}
