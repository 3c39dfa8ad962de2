//! Operands of DC and DS, and literals.
use crate::rows::push_rows;
use constant_operands::{ConstantOperand, ConstantUse, Extent, Measure, Told, ToldNumbers};
use hl_base::OutOfMemory;
use std::alloc::{AllocError, Global};

/// What an operand is for.
pub fn used(word: &str) -> ConstantUse {
    match word {
        "DC" => ConstantUse::Dc,
        "DS" => ConstantUse::Ds,
        _ => ConstantUse::Literal,
    }
}

/// What is told of an expression.
fn told(word: &str) -> Told {
    match word {
        "unknown" => Told::Unknown,
        _ => match word.parse::<i32>() {
            Ok(number) => Told::Absolute(number),
            Err(_) => Told::Other,
        },
    }
}

/// What an operand takes.
fn extent(alloc: Global, extent: Option<Extent>) -> Result<String, AllocError> {
    match extent {
        Some(Extent { boundary, bytes }) => format!(in alloc; "{bytes} on {boundary}"),
        None => String::from_str(alloc, "nothing"),
    }
}

/// What an operand comes to.
fn measure(alloc: Global, measure: &Measure) -> Result<String, OutOfMemory> {
    let letter = char::from(measure.attr.letter);
    let length = measure.attr.length;
    let taken = extent(alloc, measure.extent)?;
    let mut words = format!(in alloc; "{letter} {length}; {}", taken.as_str())?;
    push_rows(alloc, measure.said.as_slice(), &mut words)?;
    Ok(words)
}

/// What an operand comes to by what is told of its factor and its length.
pub fn measured(
    alloc: Global,
    word: &str,
    operand: &str,
    factor: &str,
    length: &str,
) -> Result<String, OutOfMemory> {
    let operand = ConstantOperand::read(alloc, used(word), operand)?;
    let numbers = ToldNumbers {
        factor: told(factor),
        length: told(length),
    };
    measure(alloc, &operand.measure(alloc, numbers)?)
}
