//! Registers, masks, immediate values and lengths.
ghost use Rattle.std.specs.Prelude.{◌≡◌};
ghost use Rattle.machine_check.specs.Values as specs;

use crate::{Bounds, allowed};
use instruction_table::Kind;
use note_rows::Row;
use trace_values::Reloc;

/// What is said of a value that an operand of this kind may not have.
fn refusal(kind: Kind) -> Row
    ensures { result ≡ specs.refusal kind }
{
    match kind {
        Kind::Register
        | Kind::FloatRegister
        | Kind::AccessRegister
        | Kind::ControlRegister
        | Kind::Mask => Row::BadRegister,
        Kind::VectorRegister => Row::BadVectorRegister,
        Kind::LengthTo256 | Kind::LengthTo16 => Row::BadLength,
        _ => Row::BadImmediate,
    }
}

/// What is said of a number that is to be one of these, and is refused so.
fn number_note(among: Option<Bounds>, refused: Row, value: i32) -> Option<Row>
    ensures { result ≡ specs.said_of_number among refused value }
{
    match among {
        Some(bounds) if !bounds.contains(value) => Some(refused),
        _ => None,
    }
}

/// What is said of a value that is to be a number.
pub fn absolute_note(among: Option<Bounds>, refused: Row, value: Reloc) -> Option<Row>
    ensures { result ≡ specs.said_of_absolute among refused value.section value.value }
{
    match value.section {
        Some(_) => Some(Row::NotSimple),
        None => number_note(among, refused, value.value),
    }
}

/// What is said of a register, a mask, an immediate value or a length: of its value, or of why it has none.
pub fn value_note(kind: Kind, value: Result<Reloc, Row>) -> Option<Row>
    ensures { result ≡ specs.said_of_value kind value }
{
    match value {
        Err(said) => Some(said),
        Ok(value) => absolute_note(allowed(kind), refusal(kind), value),
    }
}
