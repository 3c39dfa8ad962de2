//! What is said of the operands of machine instructions.
use hl_base::{Frames, Name, OutOfMemory};
use instruction_table::{Format, Kind, find, operands};
use machine_check::{count_note, value_note};
use note_rows::{Row, note};
use std::alloc::{AllocError, Global};
use trace_values::{Reloc, SectionId};

/// The format of the machine instruction that a word names.
fn format_of(word: &str) -> Option<Format> {
    match Name::read(word) {
        Some(name) => find(&name),
        None => None,
    }
}

/// The numbers of operands from 0 to 7 of which nothing is said.
fn right_counts(alloc: Global, format: Format) -> Result<String, AllocError> {
    let mut line = String::new(alloc);
    for count in 0..8usize {
        if count_note(format, count).is_none() {
            line.push_str(if line.is_empty() { "" } else { " " })?;
            line.push_str(format!(in alloc; "{count}")?.as_str())?;
        }
    }
    Ok(line)
}

/// The numbers of operands that a machine instruction may have.
pub fn counts(alloc: Global, text: &str) -> Result<String, OutOfMemory> {
    match format_of(text) {
        Some(format) => Ok(right_counts(alloc, format)?),
        None => Ok(String::from_str(alloc, "no instruction")?),
    }
}

/// The kind of an operand, counted from 1.
fn kind_of(format: Format, place: &str) -> Option<Kind> {
    match place.parse::<usize>() {
        Ok(place) if place > 0 => operands(format).get(place - 1).copied(),
        _ => None,
    }
}

/// The value that is worded: a number, or a place in a section.
fn value_worded(word: &str) -> Reloc {
    match word.parse::<i32>() {
        Ok(value) => Reloc {
            section: None,
            value,
        },
        Err(_) => Reloc {
            section: Some(SectionId(0)),
            value: 0,
        },
    }
}

/// The code and the text of a row.
fn said(alloc: Global, row: Option<Row>) -> Result<String, OutOfMemory> {
    let Some(row) = row else {
        return Ok(String::from_str(alloc, "nothing")?);
    };
    let note = note(alloc, &row, Frames::new(alloc))?;
    Ok(format!(in alloc; "{} {}", note.code, note.text.as_str())?)
}

/// What is said of the value of an operand of a machine instruction.
pub fn value(alloc: Global, word: &str, place: &str, value: &str) -> Result<String, OutOfMemory> {
    let Some(format) = format_of(word) else {
        return Ok(String::from_str(alloc, "no instruction")?);
    };
    match kind_of(format, place) {
        Some(kind) => said(alloc, value_note(kind, Ok(value_worded(value)))),
        None => Ok(String::from_str(alloc, "no operand")?),
    }
}
