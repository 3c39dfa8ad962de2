//! Words one after the other.
use hl_base::OutOfMemory;
use std::alloc::Global;

/// Adds a word behind others, with a semicolon between them.
pub fn push_word(line: &mut String, word: &str) -> Result<(), OutOfMemory> {
    if !line.is_empty() {
        line.push_str("; ")?;
    }
    line.push_str(word)?;
    Ok(())
}

/// One word.
pub fn word(alloc: Global, word: &str) -> Result<String, OutOfMemory> {
    Ok(String::from_str(alloc, word)?)
}
