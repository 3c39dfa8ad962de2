//! The expressions of operands of DC and DS, and of literals.
use crate::constants::used;
use crate::rows::push_rows;
use crate::symbols::{defined, value};
use constant_expressions::{push_operand, told_numbers};
use constant_operands::{ConstantOperand, Told};
use hl_base::OutOfMemory;
use std::alloc::{AllocError, Global};

/// What is told of an expression.
fn told(alloc: Global, told: Told) -> Result<String, AllocError> {
    match told {
        Told::Absolute(number) => format!(in alloc; "{number}"),
        Told::Other => String::from_str(alloc, "other"),
        Told::Unknown => String::from_str(alloc, "unknown"),
    }
}

/// What the factor and the length of an operand come to that stands at an offset of 8 in section 0, and what is said of its
/// expressions.
pub fn told_of(
    alloc: Global,
    symbols: &str,
    word: &str,
    operand: &str,
) -> Result<String, OutOfMemory> {
    let symbols = defined(alloc, symbols)?;
    let here = Some(value("0:8"));
    let operand = ConstantOperand::read(alloc, used(word), operand)?;
    let numbers = told_numbers(&symbols, here, &operand);
    let mut rows = Vec::new(alloc);
    push_operand(&symbols, here, &operand, &mut rows)?;
    let factor = told(alloc, numbers.factor)?;
    let length = told(alloc, numbers.length)?;
    let mut words = format!(in alloc; "{} {}", factor.as_str(), length.as_str())?;
    push_rows(alloc, rows.as_slice(), &mut words)?;
    Ok(words)
}
