//! Positions and columns of a text.
use document_store::{column, position};
use hl_base::{OutOfMemory, Position};
use std::alloc::Global;
use text_pool::LONGEST_TEXT;

/// Two numbers with a mark between them.
fn numbers(words: &str, mark: char) -> (u32, u32) {
    let (front, back) = words.split_once(mark).unwrap_or((words, ""));
    (
        front.parse::<u32>().unwrap_or(0),
        back.parse::<u32>().unwrap_or(0),
    )
}

/// The position that is worded `LINE.UNIT`.
pub fn position_worded(words: &str) -> Position {
    let (line, character) = numbers(words, '.');
    Position { line, character }
}

/// What is answered to a text of more than 4 MiB.
pub fn too_long(alloc: Global) -> Result<String, OutOfMemory> {
    Ok(String::from_str(alloc, "a text that is too long")?)
}

/// The line and the column of a position.
pub fn column_of(alloc: Global, text: &str, words: &str) -> Result<String, OutOfMemory> {
    if text.len() > LONGEST_TEXT {
        return too_long(alloc);
    }
    let (line, column) = column(text, position_worded(words));
    Ok(format!(in alloc; "{line}:{column}")?)
}

/// The position of a line and a column.
pub fn position_of(alloc: Global, text: &str, words: &str) -> Result<String, OutOfMemory> {
    if text.len() > LONGEST_TEXT {
        return too_long(alloc);
    }
    let (line, column) = numbers(words, ':');
    let found = position(text, line, column);
    Ok(format!(in alloc; "{}.{}", found.line, found.character)?)
}
