//! What is said of expressions.
use crate::rows::push_rows;
use crate::symbols::{defined, value};
use constant_grammar::read_formula;
use expression_grammar::SyntaxFault;
use expression_notes::{Wanted, push_expression};
use hl_base::OutOfMemory;
use note_rows::Row;
use ordinary_symbols::Symbols;
use std::alloc::Global;

/// Says what there is to say of an expression.
fn push(
    alloc: Global,
    symbols: &Symbols,
    wanted: Wanted,
    expression: &str,
    rows: &mut Vec<Row>,
) -> Result<(), OutOfMemory> {
    match read_formula(alloc, expression) {
        Ok(formula) => {
            let here = Some(value("0:8"));
            push_expression(symbols, &formula.tree, here, wanted, rows)
        }
        Err(SyntaxFault::At(_)) => Ok(()),
        Err(SyntaxFault::OutOfMemory) => Err(OutOfMemory),
    }
}

/// What is said of expressions, with semicolons between them, which stand at an offset of 8 in section 0.
pub fn said(
    alloc: Global,
    symbols: &str,
    wanted: &str,
    expressions: &str,
) -> Result<String, OutOfMemory> {
    let symbols = defined(alloc, symbols)?;
    let wanted = match wanted {
        "number" => Wanted::Number,
        _ => Wanted::Value,
    };
    let mut rows = Vec::new(alloc);
    for expression in expressions.split(';') {
        push(alloc, &symbols, wanted, expression, &mut rows)?;
    }
    let mut words = String::new(alloc);
    push_rows(alloc, rows.as_slice(), &mut words)?;
    Ok(words)
}
