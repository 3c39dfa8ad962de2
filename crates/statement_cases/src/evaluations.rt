//! Values of expressions with their notes.
use crate::trees::fault;
use case_words::{Surroundings, in_full, key, noted, value};
use cond_expr::{Evaluated, eval_a, eval_b, eval_c};
use hl_base::OutOfMemory;
use operand_grammar::{parse_arith, parse_char, parse_logic};
use std::alloc::Global;

/// A value and its notes, or what is asked.
fn shown(alloc: Global, found: &Evaluated) -> Result<String, OutOfMemory> {
    match &found.asked {
        Some(asked) => Ok(key(alloc, asked)?),
        None => noted(alloc, value(alloc, &found.value)?, &found.notes),
    }
}

/// The value of an arithmetic expression.
pub fn number(alloc: Global, text: &str, among: &Surroundings) -> Result<String, OutOfMemory> {
    match parse_arith(alloc, text) {
        Ok(e) => shown(alloc, &eval_a(alloc, &e, among)?),
        Err(stop) => fault(alloc, stop),
    }
}

/// The notes of an arithmetic expression, with their texts.
pub fn note_texts(alloc: Global, text: &str, among: &Surroundings) -> Result<String, OutOfMemory> {
    match parse_arith(alloc, text) {
        Ok(e) => in_full(alloc, &eval_a(alloc, &e, among)?.notes),
        Err(stop) => fault(alloc, stop),
    }
}

/// The value of a logical expression.
pub fn truth(alloc: Global, text: &str, among: &Surroundings) -> Result<String, OutOfMemory> {
    match parse_logic(alloc, text) {
        Ok(e) => shown(alloc, &eval_b(alloc, &e, among)?),
        Err(stop) => fault(alloc, stop),
    }
}

/// The value of a character expression.
pub fn text(alloc: Global, text: &str, among: &Surroundings) -> Result<String, OutOfMemory> {
    match parse_char(alloc, text) {
        Ok(e) => shown(alloc, &eval_c(alloc, &e, among)?),
        Err(stop) => fault(alloc, stop),
    }
}
