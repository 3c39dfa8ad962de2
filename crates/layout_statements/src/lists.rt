//! Constants and literals of a statement.
ghost use Rattle.std.specs.Prelude.{◌≡◌, ◌==◌, [], ◌∷◌, ◌++◌, map, is_some, IfOk, OnOk};
ghost use Rattle.std.specs.List.{list_any};
ghost use Rattle.std.specs.Str.{chars};
ghost use Rattle.constant_operands.specs.Operands.{operand};
ghost use Rattle.constant_operands.specs.Views.{operand_of};
ghost use Rattle.layout_statements.specs.Lists as spec;
ghost use Rattle.literal_operands.specs.Views.{literal_of};
ghost use Rattle.layout_statements.specs.Views.{read_literal_of};
ghost use Rattle.operand_list.specs.Split.{operands_of};

use constant_operands::{ConstantOperand, ConstantUse};
use hl_base::{OutOfMemory, Text};
use literal_operands::{LiteralOperand, literal_operand};
use operand_list::hlasm_statements::text::head;
use plain_fields::split_field;
use std::alloc::Global;

/// A literal in an operand: its text behind the equals sign, and what that is as a constant.
#[derive(Drop)]
pub struct ReadLiteral {
    pub text: Text,
    pub constant: ConstantOperand,
}

/// Adds an operand behind others. Room is asked for by itself, so that no answer has to hold an operand that was refused.
fn push_constant(
    constants: &mut Vec<ConstantOperand>,
    constant: ConstantOperand,
) -> Result<(), OutOfMemory>
    ensures { OnOk result (constants.new.items ≡ constants.old.items ++ constant ∷ []) }
{
    constants.reserve(1)?;
    constants.push_reserved(constant);
    Ok(())
}

/// Reads each operand as one of DC or DS.
#[tactic(auto, using(crate::proofs::Maps::mapped_more))]
fn read_each(
    alloc: Global,
    used: ConstantUse,
    operands: &[Text],
) -> Result<Vec<ConstantOperand>, OutOfMemory>
    ensures { IfOk result (λ constants. map operand_of constants.items ≡ map (operand used) operands.now) }
{
    let mut constants = Vec::with_capacity(alloc, operands.len())?;
    for text in operands {
        push_constant(
            &mut constants,
            ConstantOperand::read(alloc, used, text.as_str())?,
        )?;
    }
    Ok(constants)
}

/// Reads an empty operand.
fn read_empty(alloc: Global, used: ConstantUse) -> Result<ConstantOperand, OutOfMemory>
    ensures { IfOk result (λ constant. operand_of constant ≡ operand used []) }
{
    ConstantOperand::read(alloc, used, "")
}

/// The operands where there is none.
fn read_missing(alloc: Global, used: ConstantUse) -> Result<Vec<ConstantOperand>, OutOfMemory>
    ensures { IfOk result (λ constants. map operand_of constants.items ≡ operand used [] ∷ []) }
{
    let mut constants = Vec::new(alloc);
    push_constant(&mut constants, read_empty(alloc, used)?)?;
    Ok(constants)
}

/// Reads each operand as one of DC or DS; where there is no operand an empty one is read.
pub(crate) fn read_constants(
    alloc: Global,
    used: ConstantUse,
    operands: &[Text],
) -> Result<Vec<ConstantOperand>, OutOfMemory>
    ensures { IfOk result (λ constants. map operand_of constants.items ≡ spec.constants used operands.now) }
{
    if operands.is_empty() {
        return read_missing(alloc, used);
    }
    read_each(alloc, used, operands)
}

/// Whether an operand is a literal: it begins with an equals sign. Most operands are told by this alone.
fn is_literal(operand: &str) -> bool
    ensures { result ≡ is_some (spec.literal (chars operand.now)) }
{
    matches!(head(operand), Some(('=', _)))
}

/// Adds what was found of a literal behind others.
fn push_found(
    alloc: Global,
    literals: &mut Vec<ReadLiteral>,
    found: LiteralOperand<'_>,
) -> Result<(), OutOfMemory>
    ensures { OnOk result (map read_literal_of literals.new.items
        ≡ map read_literal_of literals.old.items ++ spec.without_behind (literal_of found.entry) ∷ []) }
{
    let text = Text::of(alloc, found.text)?;
    literals.reserve(1)?;
    literals.push_reserved(ReadLiteral {
        text,
        constant: found.constant,
    });
    Ok(())
}

/// Adds the literal in an operand behind others, if it is read as one.
fn push_read(
    alloc: Global,
    literals: &mut Vec<ReadLiteral>,
    operand: &str,
) -> Result<(), OutOfMemory>
    ensures { OnOk result (map read_literal_of literals.new.items
        ≡ map read_literal_of literals.old.items ++ spec.listed (spec.literal (chars operand.now))) }
{
    match literal_operand(alloc, operand)? {
        Some(found) => push_found(alloc, literals, found),
        None => Ok(()),
    }
}

/// Adds the literal in an operand behind others, if there is one.
fn push_literal(
    alloc: Global,
    literals: &mut Vec<ReadLiteral>,
    operand: &str,
) -> Result<(), OutOfMemory>
    ensures { OnOk result (map read_literal_of literals.new.items
        ≡ map read_literal_of literals.old.items ++ spec.listed (spec.literal (chars operand.now))) }
{
    if is_literal(operand) {
        return push_read(alloc, literals, operand);
    }
    Ok(())
}

/// Reads the literals in some operands, in order.
fn read_literals(alloc: Global, operands: &[Text]) -> Result<Vec<ReadLiteral>, OutOfMemory>
    ensures { IfOk result (λ literals. map read_literal_of literals.items ≡ spec.literals operands.now) }
{
    let mut literals = Vec::new(alloc);
    for operand in operands {
        push_literal(alloc, &mut literals, operand.as_str())?;
    }
    Ok(literals)
}

/// Whether an equals sign stands in a field.
fn has_equals_sign(field: &str) -> bool
    ensures { result ≡ list_any (λ c. c == 61) (chars field.now) }
{
    field.chars().any(|c| c == '=')
}

/// Reads the literals in the operands of a field, in order. Most fields have no equals sign: these are not split.
#[tactic(auto, using(crate::proofs::Fields::no_literals))]
pub(crate) fn read_literals_in(alloc: Global, field: &str) -> Result<Vec<ReadLiteral>, OutOfMemory>
    ensures { IfOk result (λ literals. map read_literal_of literals.items ≡ spec.literals (operands_of (chars field.now))) }
{
    if !has_equals_sign(field) {
        return Ok(Vec::new(alloc));
    }
    let operands = split_field(alloc, field)?;
    read_literals(alloc, operands.as_slice())
}
