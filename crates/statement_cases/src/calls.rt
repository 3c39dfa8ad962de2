//! What macro calls come to.
use case_words::{Surroundings, key, noted, value};
use hl_base::{OutOfMemory, SetValue, Text};
use hlasm_statements::read_statements;
use macro_operands::{CallOperands, CallValues, call_operands};
use std::alloc::Global;

/// An entry of a call.
fn entry(alloc: Global, text: &Text) -> Result<String, OutOfMemory> {
    Ok(value(alloc, &SetValue::C(text.copy(alloc)?))?)
}

/// The name entry and the operands of a call, with blanks between them.
fn entries(alloc: Global, values: &CallValues) -> Result<String, OutOfMemory> {
    let mut line = entry(alloc, &values.label)?;
    for operand in values.operands.as_slice() {
        line.push_str(" ")?;
        line.push_str(entry(alloc, operand)?.as_str())?;
    }
    Ok(line)
}

/// The first statement of a text as a macro call.
pub fn first_call(alloc: Global, text: &str, among: &Surroundings) -> Result<String, OutOfMemory> {
    let statements = read_statements(alloc, text)?;
    let [one, ..] = statements.as_slice() else {
        return Ok(String::from_str(alloc, "no statement")?);
    };
    match call_operands(alloc, one, among)? {
        CallOperands::Wants(asked) => Ok(key(alloc, &asked)?),
        CallOperands::Made(values, notes) => noted(alloc, entries(alloc, &values)?, &notes),
        CallOperands::Unreadable(notes) => {
            noted(alloc, String::from_str(alloc, "unreadable")?, &notes)
        }
    }
}
