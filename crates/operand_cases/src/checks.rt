//! What is said of machine instructions.
use crate::readings::format_of;
use crate::settings::{Words, places, ranges};
use crate::symbols::{defined, value};
use hl_base::{Frames, Name, OutOfMemory};
use instruction_table::Format;
use note_rows::{Row, note};
use operand_checks::{Setting, machine_notes};
use operand_list::split_operands;
use std::alloc::Global;

/// Adds the code of a row, the symbol of which it says that it is not defined, how many characters can be read, and of a vector
/// register that it is one.
fn push_row(alloc: Global, row: &Row, words: &mut String) -> Result<(), OutOfMemory> {
    let code = note(alloc, row, Frames::new(alloc))?.code;
    let word = format!(in alloc; " {code}")?;
    words.push_str(word.as_str())?;
    match row {
        Row::UndefinedSymbol(name) => {
            words.push_str(" ")?;
            words.push_str(name.text())?;
        }
        Row::Unreadable(count) => words.push_str(format!(in alloc; " {count}")?.as_str())?,
        Row::BadVectorRegister => words.push_str(" vector")?,
        _ => {}
    }
    Ok(())
}

/// The rows that were there before: of each of some symbols, with blanks between them, that it is not defined.
fn rows_before(alloc: Global, names: &str) -> Result<Vec<Row>, OutOfMemory> {
    let mut rows = Vec::new(alloc);
    for word in names.split(' ') {
        if let Some(name) = Name::read(word) {
            rows.push(Row::UndefinedSymbol(name))?;
        }
    }
    Ok(rows)
}

/// What is said of the operands of an instruction.
fn rows(
    alloc: Global,
    words: &Words<'_>,
    given: &str,
    format: Format,
    field: &str,
) -> Result<Vec<Row>, OutOfMemory> {
    let symbols = defined(alloc, words.symbols)?;
    let ranges = ranges(words.ranges);
    let setting = Setting {
        symbols: &symbols,
        ranges: &ranges,
        here: Some(value("0:8")),
    };
    let places = places(alloc, words.places)?;
    let operands = split_operands(alloc, field)?;
    let mut rows = rows_before(alloc, given)?;
    machine_notes(
        alloc,
        &setting,
        format,
        places.as_slice(),
        operands.as_slice(),
        &mut rows,
    )?;
    Ok(rows)
}

/// What is said of an instruction with its operands, which stands at an offset of 8 in section 0, behind what was said before.
pub fn said(
    alloc: Global,
    words: &Words<'_>,
    given: &str,
    statement: &str,
) -> Result<String, OutOfMemory> {
    let (op, field) = match statement.split_once(' ') {
        Some((op, field)) => (op, field),
        None => (statement, ""),
    };
    let Some(format) = format_of(op) else {
        return Ok(String::from_str(alloc, "no instruction")?);
    };
    let rows = rows(alloc, words, given, format, field)?;
    let mut words = String::from_str(alloc, ";")?;
    for row in &rows {
        push_row(alloc, row, &mut words)?;
    }
    Ok(words)
}
