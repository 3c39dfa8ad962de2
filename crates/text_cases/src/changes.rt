//! Changes of a text.
use crate::places::{position_worded, too_long};
use document_store::{StoreFault, after_edits};
use hl_base::{Edit, Edits, OutOfMemory, Position, Text};
use std::alloc::Global;
use text_pool::LONGEST_TEXT;

/// The most bytes of a text that are written down.
const LONGEST_SHOWN: usize = 200;

/// The name of a refusal.
pub fn refusal(alloc: Global, fault: StoreFault) -> Result<String, OutOfMemory> {
    match fault {
        StoreFault::OutOfMemory => Err(OutOfMemory),
        _ => Ok(format!(in alloc; "{fault:?}")?),
    }
}

/// The position that is worded so; `*` is none.
fn place(words: &str) -> Option<Position> {
    match words {
        "*" => None,
        _ => Some(position_worded(words)),
    }
}

/// The change that is worded `FROM-TO TEXT`.
fn edit(alloc: Global, words: &str) -> Result<Edit, OutOfMemory> {
    let (range, text) = words.split_once(' ').unwrap_or((words, ""));
    let (from, to) = range.split_once('-').unwrap_or((range, "*"));
    Ok(Edit {
        from: place(from),
        to: place(to),
        text: Text::of(alloc, text)?,
    })
}

/// Changes in order.
fn edits(alloc: Global, fields: &[String]) -> Result<Edits, OutOfMemory> {
    let mut edits = Edits::new(alloc);
    for field in fields {
        edits.push(edit(alloc, field.as_str())?)?;
    }
    Ok(edits)
}

/// Changes in order, with semicolons between them.
pub fn edits_worded(alloc: Global, words: &str) -> Result<Edits, OutOfMemory> {
    let mut edits = Edits::new(alloc);
    for part in words.split("; ") {
        edits.push(edit(alloc, part)?)?;
    }
    Ok(edits)
}

/// A text, or how many bytes a long one has.
pub fn shown(alloc: Global, text: String) -> Result<String, OutOfMemory> {
    if text.len() > LONGEST_SHOWN {
        return Ok(format!(in alloc; "{} bytes", text.len())?);
    }
    Ok(text)
}

/// A text after changes, or why they are refused.
fn after(alloc: Global, text: &str, fields: &[String]) -> Result<String, OutOfMemory> {
    if text.len() > LONGEST_TEXT {
        return too_long(alloc);
    }
    let edits = edits(alloc, fields)?;
    match after_edits(alloc, text, edits.as_slice()) {
        Ok(text) => shown(alloc, text),
        Err(fault) => refusal(alloc, fault),
    }
}

/// The first field after the changes that the others are.
pub fn changed(alloc: Global, fields: &[String]) -> Result<String, OutOfMemory> {
    match fields {
        [text, changes @ ..] => after(alloc, text.as_str(), changes),
        [] => too_long(alloc),
    }
}
