//! Names in an operand field.
ghost use Rattle.std.specs.Prelude.{◌≡◌, ◌+◌, ◌++◌, length, IfOk, OnOk};
ghost use Rattle.std.specs.Str.{chars};
ghost use Rattle.statement_names.specs.Operands as operands;

use crate::constant::{push_constant, push_symbols};
use crate::name::{NameKind, WrittenNames};
use crate::scan::{Sought, named, push_names};
use crate::text::{advance, counted, has_ampersand, name_of};
use crate::uses::OperandUse;
use hl_base::{OutOfMemory, Text};
use hlasm_statements::Field;
use hlasm_statements::text::{character_count, head};
use operand_list::split_operands;
use std::alloc::Global;

/// Adds the variable symbols of a field.
pub(crate) fn push_variables(
    field: Field,
    text: &str,
    found: &mut WrittenNames,
) -> Result<(), OutOfMemory>
    ensures { OnOk result (found.new ≡ found.old ++ operands.variables field (chars text.now)) }
{
    push_names(Sought::Variables, field, 0, text, found)
}

/// Adds the symbols of an operand of a machine instruction.
fn push_instruction(at: u32, text: &str, found: &mut WrittenNames) -> Result<(), OutOfMemory>
    ensures { OnOk result (found.new ≡ found.old ++ operands.instruction_symbols at (chars text.now)) }
{
    match head(text) {
        Some(('=', rest)) => {
            let next = advance(at, 1)?;
            push_constant(next, rest, found)
        }
        Some(_) => push_symbols(at, text, found),
        None => Ok(()),
    }
}

/// Adds the names that an operation reads in an operand.
fn push_operand(
    used: OperandUse,
    at: u32,
    text: &str,
    found: &mut WrittenNames,
) -> Result<(), OutOfMemory>
    ensures { OnOk result (found.new ≡ found.old ++ operands.operand_names used at (chars text.now)) }
{
    match used {
        OperandUse::Expressions => push_symbols(at, text, found),
        OperandUse::Constants => push_constant(at, text, found),
        OperandUse::Instruction => push_instruction(at, text, found),
        OperandUse::Branches => push_names(Sought::Branch, Field::Operands, at, text, found),
        OperandUse::Remarks | OperandUse::Unread | OperandUse::Member => Ok(()),
    }
}

/// Where the operand behind one and a comma begins.
fn next_place(at: u32, text: &str) -> Result<u32, OutOfMemory>
    ensures { IfOk result (λ n. n ≡ at + length (chars text.now) + 1) }
{
    let end = advance(at, character_count(text))?;
    end.checked_add(1).ok_or(OutOfMemory)
}

/// Adds the names that an operation reads in operands, the first of which stands at the beginning of the field.
fn push_each(used: OperandUse, texts: &[Text], found: &mut WrittenNames) -> Result<(), OutOfMemory>
    ensures { OnOk result (found.new ≡ found.old ++ operands.each_operand used 0 texts.now) }
{
    let mut at: u32 = 0;
    for text in texts {
        let operand = text.as_str();
        let next = next_place(at, operand)?;
        push_operand(used, at, operand, found)?;
        at = next;
    }
    Ok(())
}

/// Adds the names that an operation reads in the operands of a field.
#[tactic(auto, unfolding(crate::specs::Operands::operands_names))]
fn push_operands(
    alloc: Global,
    used: OperandUse,
    field: &str,
    found: &mut WrittenNames,
) -> Result<(), OutOfMemory>
    ensures { OnOk result (found.new ≡ found.old ++ operands.operands_names used (chars field.now)) }
{
    let texts = split_operands(alloc, field)?;
    push_each(used, texts.as_slice(), found)
}

/// Adds the member that all of a field names.
fn push_member(field: &str, found: &mut WrittenNames) -> Result<(), OutOfMemory>
    ensures { OnOk result (found.new ≡ found.old ++ operands.member_name (chars field.now)) }
{
    let count = counted(character_count(field))?;
    found.push_at(
        Field::Operands,
        0,
        named(NameKind::Member, count, name_of(field)),
    )
}

/// Adds the names in a field whose operands are read where it has no ampersand.
#[tactic(auto, unfolding(crate::specs::Operands::read_names))]
fn push_read(
    alloc: Global,
    used: OperandUse,
    field: &str,
    found: &mut WrittenNames,
) -> Result<(), OutOfMemory>
    ensures { OnOk result (found.new ≡ found.old ++ operands.read_names used (chars field.now)) }
{
    if has_ampersand(field) {
        return push_variables(Field::Operands, field, found);
    }
    push_operands(alloc, used, field, found)
}

/// Adds the names in the field of a COPY.
#[tactic(auto, unfolding(crate::specs::Operands::copied_name))]
fn push_copied(field: &str, found: &mut WrittenNames) -> Result<(), OutOfMemory>
    ensures { OnOk result (found.new ≡ found.old ++ operands.copied_name (chars field.now)) }
{
    if has_ampersand(field) {
        return push_variables(Field::Operands, field, found);
    }
    push_member(field, found)
}

/// Adds the names in an operand field.
pub(crate) fn push_field(
    alloc: Global,
    used: OperandUse,
    field: &str,
    found: &mut WrittenNames,
) -> Result<(), OutOfMemory>
    ensures { OnOk result (found.new ≡ found.old ++ operands.field_names used (chars field.now)) }
{
    match used {
        OperandUse::Remarks => Ok(()),
        OperandUse::Unread => push_variables(Field::Operands, field, found),
        OperandUse::Expressions => push_read(alloc, used, field, found),
        OperandUse::Constants => push_read(alloc, used, field, found),
        OperandUse::Instruction => push_read(alloc, used, field, found),
        OperandUse::Branches => push_operands(alloc, used, field, found),
        OperandUse::Member => push_copied(field, found),
    }
}
