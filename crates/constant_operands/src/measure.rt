//! What an operand comes to.
ghost use Rattle.std.specs.Prelude.{◌≡◌, IfOk};
ghost use Rattle.constant_grammar.specs.Views.{constant_of};
ghost use Rattle.constant_operands.specs.Measures as measures;
ghost use Rattle.constant_operands.specs.Views.{measure_of, operand_of};

use crate::label::{attr_of, unread};
use crate::number::Numbers;
use crate::room::{Extent, extent_of};
use crate::{ConstantOperand, ConstantUse, ToldNumbers, said};
use constant_grammar::Constant;
use constant_values::Values;
use hl_base::{Attr, OutOfMemory};
use note_rows::Row;
use std::alloc::Global;

/// What an operand comes to: what a label on it means, what it takes, and what is said of it. It takes nothing, and does not
/// align, where it cannot be read or one of its numbers is not known.
#[derive(Drop)]
pub struct Measure {
    pub attr: Attr,
    pub extent: Option<Extent>,
    pub said: Vec<Row>,
}

/// An operand that was not read.
fn unread_measure(alloc: Global) -> Result<Measure, OutOfMemory>
    ensures { IfOk result (λ measure. measure_of measure ≡ measures.unread_measure) }
{
    Ok(Measure {
        attr: unread(),
        extent: None,
        said: said::unread(alloc)?,
    })
}

/// An operand that was read, but has a number out of its bounds.
fn refused_measure(alloc: Global, attr: Attr) -> Result<Measure, OutOfMemory>
    ensures { IfOk result (λ measure. measure_of measure ≡ measures.refused_measure attr) }
{
    Ok(Measure {
        attr,
        extent: None,
        said: said::unread(alloc)?,
    })
}

/// A constant with its numbers.
fn measured(
    alloc: Global,
    used: ConstantUse,
    numbers: &Numbers,
    constant: &Constant,
) -> Result<Measure, OutOfMemory>
    ensures { IfOk result (λ measure. measure_of measure ≡ measures.measured used numbers.now (constant_of constant.now)) }
{
    let attr = attr_of(constant, numbers.length);
    if numbers.are_refused() {
        return refused_measure(alloc, attr);
    }
    let values = Values::of(alloc, constant)?;
    Ok(Measure {
        attr,
        extent: extent_of(numbers, constant, &values)?,
        said: said::said_of(alloc, used, numbers, constant, &values)?,
    })
}

impl ConstantOperand {
    /// What it comes to by what is told of its expressions. An `Err` comes too where its bytes cannot be counted in 64 bits.
    pub fn measure(&self, alloc: Global, told: ToldNumbers) -> Result<Measure, OutOfMemory>
        ensures { IfOk result (λ measure. measure_of measure ≡ measures.measure (operand_of self.now) told) }
    {
        match &self.constant {
            Some(constant) => {
                let numbers = Numbers::of(self.used, told, constant);
                measured(alloc, self.used, &numbers, constant)
            }
            None => unread_measure(alloc),
        }
    }
}
