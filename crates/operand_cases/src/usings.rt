//! USING and DROP, and which addresses are covered after them.
use crate::rows::push_rows;
use crate::symbols::{defined, value};
use hl_base::OutOfMemory;
use note_rows::Row;
use ordinary_symbols::Symbols;
use std::alloc::{AllocError, Global};
use trace_values::Reloc;
use using_ranges::Ranges;
use using_statements::{push_drop, push_using};

/// What is said of a statement, which changes the ranges.
fn said(
    alloc: Global,
    symbols: &Symbols,
    statement: &str,
    ranges: &mut Ranges,
) -> Result<Vec<Row>, OutOfMemory> {
    let here = Some(value("0:8"));
    let mut rows = Vec::new(alloc);
    let (op, field) = match statement.split_once(' ') {
        Some((op, field)) => (op, field),
        None => (statement, ""),
    };
    match op {
        "USING" => push_using(alloc, symbols, here, field, ranges, &mut rows)?,
        _ => push_drop(alloc, symbols, here, field, ranges, &mut rows)?,
    }
    Ok(rows)
}

/// The register and the displacement of an address, if a range has it.
fn cover(alloc: Global, ranges: &Ranges, address: Reloc) -> Result<String, AllocError> {
    match ranges.cover(address.section, address.value) {
        Some((register, displacement)) => format!(in alloc; " {register}+{displacement}"),
        None => String::from_str(alloc, " -"),
    }
}

/// What is said of USING and DROP, with semicolons between them, which stand at an offset of 8 in section 0, and what covers some
/// addresses behind them.
pub fn covered(
    alloc: Global,
    symbols: &str,
    statements: &str,
    addresses: &str,
) -> Result<String, OutOfMemory> {
    let symbols = defined(alloc, symbols)?;
    let mut ranges = Ranges::new();
    let mut words = String::new(alloc);
    for statement in statements.split(';') {
        let rows = said(alloc, &symbols, statement.trim(), &mut ranges)?;
        push_rows(alloc, rows.as_slice(), &mut words)?;
    }
    words.push_str(" covers")?;
    for address in addresses.split(' ') {
        let word = cover(alloc, &ranges, value(address))?;
        words.push_str(word.as_str())?;
    }
    Ok(words)
}
