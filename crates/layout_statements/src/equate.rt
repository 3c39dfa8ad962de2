//! EQU (SC26-4940, "EQU instruction").
ghost use Rattle.std.specs.Prelude.{◌≡◌, IfOk};
ghost use Rattle.std.specs.Str.{chars};
ghost use Rattle.layout_statements.specs.Equates as spec;
ghost use Rattle.layout_statements.specs.Expressions.{reading};
ghost use Rattle.layout_statements.specs.Views.{equate_of, reading_of};

use crate::expressions::{Reading, read, read_at};
use hl_base::{OutOfMemory, Text};
use std::alloc::Global;
use symbol_attributes::{OpMeaning, attributes};

/// What EQU says: the value, the length, if it is given, and the type letter.
#[derive(Drop)]
pub struct Equate {
    pub value: Reading,
    pub length: Option<Reading>,
    pub letter: u8,
}

/// The first operand, which is empty where it is missing.
fn first(operands: &[Text]) -> &str
    ensures { chars result.now ≡ spec.first_in operands.now }
{
    match operands.first() {
        Some(operand) => operand.as_str(),
        None => "",
    }
}

/// Reads the operands of EQU, which this field has.
pub(crate) fn read_equate(
    alloc: Global,
    op: &OpMeaning,
    field: &str,
    operands: &[Text],
) -> Result<Equate, OutOfMemory>
    ensures { IfOk result (λ equate. equate_of equate ≡ spec.equate op.now (chars field.now) operands.now) }
{
    Ok(Equate {
        value: read(alloc, first(operands))?,
        length: read_at(alloc, operands, 1)?,
        letter: attributes(alloc, op, field)?.letter,
    })
}
