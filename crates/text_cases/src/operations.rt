//! What a name means as an operation.
use hl_base::{Name, OutOfMemory};
use instruction_table::{Format, Kind, Operation, encoding, length, operands, operation, optional};
use std::alloc::{AllocError, Global};

/// The letters of a kind of operand.
fn letters(kind: Kind) -> &'static str {
    match kind {
        Kind::Register => "R",
        Kind::FloatRegister => "F",
        Kind::AccessRegister => "AR",
        Kind::ControlRegister => "CR",
        Kind::VectorRegister => "V",
        Kind::Mask => "M",
        Kind::Immediate4 => "I4",
        Kind::Immediate8 => "I8",
        Kind::Immediate8Signed => "I8S",
        Kind::Immediate12 => "U12",
        Kind::Immediate16 => "I16",
        Kind::Immediate16Unsigned => "U16",
        Kind::Immediate32 => "I32",
        Kind::Indexed => "X",
        Kind::IndexedLong => "XL",
        Kind::VectorIndexed => "VX",
        Kind::Based => "B",
        Kind::BasedLong => "BL",
        Kind::LengthTo256 => "L1",
        Kind::LengthTo16 => "L2",
        Kind::RegisterLength => "L3",
        Kind::Target => "T",
    }
}

/// The kinds of operands with commas between them, in brackets what may be left out; `-` where there are none.
fn kinds(alloc: Global, format: Format) -> Result<String, AllocError> {
    let kinds = operands(format);
    if kinds.is_empty() {
        return String::from_str(alloc, "-");
    }
    let needed = kinds.len().saturating_sub(optional(format) as usize);
    let mut line = String::new(alloc);
    for (place, kind) in kinds.iter().enumerate() {
        line.push_str(if place == 0 { "" } else { "," })?;
        line.push_str(if place < needed { "" } else { "[" })?;
        line.push_str(letters(*kind))?;
        line.push_str(if place < needed { "" } else { "]" })?;
    }
    Ok(line)
}

/// The format of a machine instruction, its bytes and its operands.
fn machine(alloc: Global, format: Format) -> Result<String, AllocError> {
    let mut line = format!(in alloc; "{:?} {} ", encoding(format), length(format))?;
    line.make_ascii_uppercase();
    line.push_str(kinds(alloc, format)?.as_str())?;
    Ok(line)
}

/// What a name means: a machine instruction, or what the operation is for.
pub fn meaning(alloc: Global, text: &str) -> Result<String, OutOfMemory> {
    let Some(name) = Name::read(text) else {
        return Ok(String::from_str(alloc, "no name")?);
    };
    match operation(&name) {
        Operation::Machine(format) => Ok(machine(alloc, format)?),
        other => Ok(format!(in alloc; "{other:?}")?),
    }
}
