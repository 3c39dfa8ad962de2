//! What labels mean.
use hl_base::{Attr, Name, OutOfMemory};
use std::alloc::{AllocError, Global};
use symbol_attributes::{OpMeaning, attributes, defines, external};

/// What an operation is that is written so.
fn operation(op: &str) -> OpMeaning {
    match Name::read(op) {
        Some(name) => OpMeaning::built_in(&name),
        None => OpMeaning::Other,
    }
}

/// A letter and a length.
pub fn attribute(alloc: Global, attr: Attr) -> Result<String, AllocError> {
    format!(in alloc; "{} {}", char::from(attr.letter), attr.length)
}

/// What a label means on an operation with these operands.
pub fn meaning(alloc: Global, op: &str, operands: &str) -> Result<String, OutOfMemory> {
    let attr = attributes(alloc, &operation(op), operands)?;
    Ok(attribute(alloc, attr)?)
}

/// Whether a label on an operation defines a symbol, and what the symbols mean that it names.
pub fn definition(alloc: Global, op: &str) -> Result<String, OutOfMemory> {
    let op = operation(op);
    let defined = if defines(&op) { "defines" } else { "passes" };
    match external(&op) {
        Some(attr) => {
            let named = attribute(alloc, attr)?;
            Ok(format!(in alloc; "{defined}, names {}", named.as_str())?)
        }
        None => Ok(String::from_str(alloc, defined)?),
    }
}
