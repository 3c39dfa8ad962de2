//! What is read of operands.
use hl_base::{Name, OutOfMemory};
use instruction_table::{Encoding, Format, Kind, encoding, find, operands};
use machine_operands::{Address, Displacement, MachineOperand, Written};
use std::alloc::{AllocError, Global};

/// The format of the machine instruction that a word names.
pub fn format_of(word: &str) -> Option<Format> {
    match Name::read(word) {
        Some(name) => find(&name),
        None => None,
    }
}

/// Whether its literals may be targets.
fn takes_literal_targets(format: Format) -> bool {
    match encoding(format) {
        Encoding::Ril => true,
        _ => false,
    }
}

/// The kind of an operand, counted from 1.
fn kind_of(format: Format, place: &str) -> Option<Kind> {
    match place.parse::<usize>() {
        Ok(place) if place > 0 => operands(format).get(place - 1).copied(),
        _ => None,
    }
}

/// The displacement of an address: an equals sign for a literal.
fn displacement(displacement: &Displacement) -> &'static str {
    match displacement {
        Displacement::Expression(_) => "d",
        Displacement::Literal => "=",
    }
}

/// The form of an address, `x` being an index, a length or a register in its place.
fn address(alloc: Global, address: &Address) -> Result<String, AllocError> {
    let front = displacement(&address.displacement);
    let parts = match (address.first.is_some(), address.base.is_some()) {
        (false, false) => "",
        (true, false) => "(x)",
        (false, true) => "(,b)",
        (true, true) => "(x,b)",
    };
    format!(in alloc; "{front}{parts}")
}

/// What was read.
fn written(alloc: Global, written: &Written) -> Result<String, AllocError> {
    match written {
        Written::Value(_) => String::from_str(alloc, "value"),
        Written::Address(one) => address(alloc, one),
        Written::LiteralTarget => String::from_str(alloc, "literal target"),
        Written::NoLiteral => String::from_str(alloc, "no literal"),
        Written::Wrong(count) => format!(in alloc; "wrong {count}"),
    }
}

/// What is read of an operand of an instruction, counted from 1.
pub fn read(alloc: Global, op: &str, place: &str, operand: &str) -> Result<String, OutOfMemory> {
    let Some(format) = format_of(op) else {
        return Ok(String::from_str(alloc, "no instruction")?);
    };
    let Some(kind) = kind_of(format, place) else {
        return Ok(String::from_str(alloc, "no operand")?);
    };
    let found = MachineOperand::read(alloc, kind, takes_literal_targets(format), operand)?;
    Ok(written(alloc, &found.written)?)
}
