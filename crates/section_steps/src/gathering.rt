//! What is gathered from operands with constants.
ghost use Rattle.std.specs.Prelude.{◌≡◌, ◌++◌, ◌∷◌, [], map, IfOk, OnOk};
ghost use Rattle.constant_operands.specs.Views.{measure_of, operand_of};
ghost use Rattle.ordinary_symbols.specs.Shown.{table_of};
ghost use Rattle.ordinary_symbols.specs.Table.{known};
ghost use Rattle.section_steps.specs.Legible as spec;
ghost use Rattle.section_steps.specs.Instructions.{too_long};

use constant_expressions::told_numbers;
use constant_operands::{ConstantOperand, Measure};
use hl_base::OutOfMemory;
use literal_places::LiteralUse;
use note_rows::Row;
use ordinary_symbols::Symbols;
use std::alloc::Global;
use trace_values::Reloc;

/// What is gathered from the operands of a statement, one behind the other: which literals are used, what is said, and which operands
/// are still to be judged.
#[derive(Drop)]
pub(crate) struct Gathered {
    pub(crate) uses: Vec<Option<LiteralUse>>,
    pub(crate) said: Vec<Row>,
    pub(crate) operands: Vec<ConstantOperand>,
}

/// What an operand comes to where it stands.
#[tactic(auto, unfolding(crate::specs::Legible::measured))]
pub(crate) fn measured(
    alloc: Global,
    symbols: &Symbols,
    here: Option<Reloc>,
    operand: &ConstantOperand,
) -> Result<Measure, OutOfMemory>
    ensures { IfOk result (λ measure. measure_of measure ≡ spec.measured (known (table_of symbols.now)) here (operand_of operand.now)) }
{
    operand.measure(alloc, told_numbers(symbols, here, operand))
}

/// Whether an operand of which this is said can be read.
pub(crate) fn is_read(said: &[Row]) -> bool
    ensures { result ≡ spec.is_read said.now }
{
    match said {
        [Row::BadConstant, ..] => false,
        _ => true,
    }
}

/// Adds an operand behind others. Room is asked for by itself, so that no answer has to hold an operand that was refused.
fn push(operands: &mut Vec<ConstantOperand>, operand: ConstantOperand) -> Result<(), OutOfMemory>
    ensures { OnOk result (operands.new.items ≡ operands.old.items ++ operand ∷ []) }
{
    operands.reserve(1)?;
    operands.push_reserved(operand);
    Ok(())
}

/// Adds an operand of which this is said behind others, if it can be read.
pub(crate) fn push_legible(
    operands: &mut Vec<ConstantOperand>,
    operand: ConstantOperand,
    said: &[Row],
) -> Result<(), OutOfMemory>
    ensures { OnOk result (map operand_of operands.new.items
        ≡ map operand_of operands.old.items ++ spec.legible_by said.now (operand_of operand)) }
{
    if is_read(said) {
        return push(operands, operand);
    }
    Ok(())
}

/// It is said that the section gets too long, where something does not fit.
pub(crate) fn say_fits(said: &mut Vec<Row>, fits: bool) -> Result<(), OutOfMemory>
    ensures { OnOk result (said.new.items ≡ said.old.items ++ too_long fits) }
{
    if !fits {
        said.push(Row::SectionTooLong)?;
    }
    Ok(())
}

impl Gathered {
    /// Nothing.
    pub(crate) fn new(alloc: Global) -> Gathered
        ensures uses { result.uses.items ≡ [] }
        ensures said { result.said.items ≡ [] }
        ensures operands { result.operands.items ≡ [] }
    {
        Gathered {
            uses: Vec::new(alloc),
            said: Vec::new(alloc),
            operands: Vec::new(alloc),
        }
    }

    /// Of an operand this is said.
    pub(crate) fn gather(
        &mut self,
        operand: ConstantOperand,
        mut said: Vec<Row>,
    ) -> Result<(), OutOfMemory>
        ensures uses { self.new.uses.items ≡ self.old.uses.items }
        ensures said { OnOk result (self.new.said.items ≡ self.old.said.items ++ said.items) }
        ensures operands { OnOk result (map operand_of self.new.operands.items
            ≡ map operand_of self.old.operands.items ++ spec.legible_by said.items (operand_of operand)) }
    {
        push_legible(&mut self.operands, operand, said.as_slice())?;
        self.said.append(&mut said)?;
        Ok(())
    }
}
