//! The pairs of an AIF.
ghost use Rattle.std.specs.Prelude.{◌≡◌, [], ◌∷◌, ◌++◌, map, OnOk};
ghost use Rattle.std.specs.Str.{chars};
ghost use Rattle.conditional_fields.specs.Answers.{Says, each};
ghost use Rattle.statement_reading.specs.Branches as branches;
ghost use Rattle.statement_reading.specs.Views.{choices_of};

use crate::branch::read_pair;
use conditional_fields::Selector;
use conditional_fields::operand_grammar::{SyntaxFault, split_operands};
use hl_base::{OutOfMemory, Text};
use std::alloc::Global;

/// The pairs of an AIF in order, as they are written.
#[derive(Drop)]
pub struct Choices {
    pub pairs: Vec<Selector>,
}

/// Adds a pair behind others.
fn push(pairs: &mut Vec<Selector>, pair: Selector) -> Result<(), OutOfMemory>
    ensures { OnOk result (pairs.new.items ≡ pairs.old.items ++ pair ∷ []) }
{
    pairs.push(pair)?;
    Ok(())
}

/// Each of some operands as a pair.
fn read_each(alloc: Global, operands: &[Text]) -> Result<Choices, SyntaxFault>
    ensures { Says choices_of (each branches.pair operands.now) result }
{
    let mut pairs = Vec::new(alloc);
    for operand in operands {
        match read_pair(alloc, operand.as_str()) {
            Ok(pair) => push(&mut pairs, pair)?,
            Err(fault) => return Err(fault),
        }
    }
    Ok(Choices { pairs })
}

/// The operand field of an AIF.
pub(crate) fn read_choices(alloc: Global, field: &str) -> Result<Choices, SyntaxFault>
    ensures { Says choices_of (branches.choices (chars field.now)) result }
{
    let operands = split_operands(alloc, field)?;
    let choices = read_each(alloc, operands.as_slice())?;
    if choices.pairs.is_empty() {
        return Err(SyntaxFault::At(0));
    }
    Ok(choices)
}
