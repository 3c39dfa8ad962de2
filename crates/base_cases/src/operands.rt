//! Operands of a field, elements of a sublist, and numbers in operands.
use expression_grammar::{Expr, SyntaxFault, parse_arith};
use hl_base::OutOfMemory;
use operand_list::{Operands, split_operands, split_sublist};
use std::alloc::{AllocError, Global};

/// Texts, each in brackets.
fn bracketed(alloc: Global, operands: &Operands) -> Result<String, OutOfMemory> {
    let mut shown = String::new(alloc);
    for text in operands.as_slice() {
        shown.push_str("[")?;
        shown.push_str(text.as_str())?;
        shown.push_str("]")?;
    }
    Ok(shown)
}

/// A copy of the operands of a field.
pub fn operands(alloc: Global, field: &str) -> Result<String, OutOfMemory> {
    bracketed(alloc, &split_operands(alloc, field)?.copy(alloc)?)
}

/// The elements of a sublist, or that a text is none.
pub fn elements(alloc: Global, text: &str) -> Result<String, OutOfMemory> {
    match split_sublist(alloc, text)? {
        Some(elements) => bracketed(alloc, &elements),
        None => Ok(String::from_str(alloc, "none")?),
    }
}

/// How a number is written, and its bits.
fn number(alloc: Global, e: &Expr) -> Result<String, AllocError> {
    match e {
        Expr::Number(form, bits) => format!(in alloc; "{form:?} {bits}"),
        _ => String::from_str(alloc, "no number"),
    }
}

/// The same of an arithmetic expression, or where it cannot be read.
pub fn form(alloc: Global, text: &str) -> Result<String, OutOfMemory> {
    match parse_arith(alloc, text) {
        Ok(e) => Ok(number(alloc, &e)?),
        Err(SyntaxFault::At(count)) => Ok(format!(in alloc; "at {count}")?),
        Err(SyntaxFault::OutOfMemory) => Err(OutOfMemory),
    }
}
