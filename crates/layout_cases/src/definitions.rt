//! Definitions of symbols.
use crate::rows::push_rows;
use crate::symbols::value;
use constant_grammar::read_formula;
use expression_grammar::SyntaxFault;
use hl_base::{Attr, Name, OutOfMemory};
use note_rows::Row;
use ordinary_symbols::{Symbols, Trouble};
use std::alloc::{AllocError, Global};
use symbol_definitions::{Equating, define, equate, equate_unread};
use trace_values::{Reloc, SymbolRow};

/// EQU with an expression, and behind a comma the length that is given.
fn equating(
    alloc: Global,
    symbols: &mut Symbols,
    label: &str,
    operands: &str,
    rows: &mut Vec<Row>,
) -> Result<(), OutOfMemory> {
    let (expression, length) = match operands.split_once(',') {
        Some((expression, length)) => (expression, length.parse::<u32>().ok()),
        None => (operands, None),
    };
    let equating = Equating {
        label: Name::read(label),
        letter: b'U',
        length,
        here: Some(value("0:8")),
    };
    match read_formula(alloc, expression) {
        Ok(formula) => equate(alloc, symbols, equating, formula, rows),
        Err(SyntaxFault::At(_)) => equate_unread(alloc, symbols, equating, rows),
        Err(SyntaxFault::OutOfMemory) => Err(OutOfMemory),
    }
}

/// One definition: of a name with a value, or by EQU.
fn definition(
    alloc: Global,
    symbols: &mut Symbols,
    words: &str,
    rows: &mut Vec<Row>,
) -> Result<(), OutOfMemory> {
    if let Some((label, operands)) = words.split_once(" EQU ") {
        return equating(alloc, symbols, label, operands, rows);
    }
    let (name, word) = words.split_once('=').unwrap_or((words, ""));
    let Some(name) = Name::read(name) else {
        return Ok(());
    };
    let attr = Attr {
        letter: b'C',
        length: 4,
    };
    define(alloc, symbols, name, Some(value(word)), attr, rows)
}

/// A value, as a case writes it.
fn written(alloc: Global, value: Option<Reloc>) -> Result<String, AllocError> {
    match value {
        None => String::from_str(alloc, "-"),
        Some(
            Reloc {
                section: None,
                value,
            },
        ) => format!(in alloc; "{value}"),
        Some(
            Reloc {
                section: Some(section),
                value,
            },
        ) => format!(in alloc; "{}:{value}", section.0),
    }
}

/// Adds a symbol: its name, its value, letter and length, and that its EQU waits.
fn push_symbol(
    alloc: Global,
    row: &SymbolRow,
    trouble: Option<Trouble>,
    words: &mut String,
) -> Result<(), OutOfMemory> {
    let value = written(alloc, row.value)?;
    let letter = char::from(row.attr.letter);
    let length = row.attr.length;
    let name = row.name.text();
    let word = format!(in alloc; "{name} {} {letter}{length}", value.as_str())?;
    words.push_str(word.as_str())?;
    if trouble.is_some() {
        words.push_str(" waits")?;
    }
    Ok(())
}

/// Which symbols there are behind definitions, with semicolons between them, that stand at an offset of 8 in section 0, and
/// what is said of them.
pub fn after(alloc: Global, definitions: &str) -> Result<String, OutOfMemory> {
    let mut symbols = Symbols::new(alloc);
    let mut rows = Vec::new(alloc);
    for words in definitions.split(';') {
        definition(alloc, &mut symbols, words, &mut rows)?;
    }
    let mut words = String::new(alloc);
    for at in 0..symbols.count() {
        if at > 0 {
            words.push_str(", ")?;
        }
        if let Some(row) = symbols.row(at) {
            push_symbol(alloc, row, symbols.trouble(at), &mut words)?;
        }
    }
    push_rows(alloc, rows.as_slice(), &mut words)?;
    Ok(words)
}
