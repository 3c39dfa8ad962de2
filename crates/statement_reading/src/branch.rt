//! Where AGO and AIF branch to (SC26-4940, "AGO instruction", "Computed AGO instruction", "AIF instruction").
ghost use Rattle.std.specs.Str.{chars};
ghost use Rattle.conditional_fields.specs.Answers.{Says};
ghost use Rattle.statement_reading.specs.Branches as branches;
ghost use Rattle.statement_reading.specs.Views.{branch_of, choice_of};

use conditional_fields::branch::choice;
use conditional_fields::character::begins_with;
use conditional_fields::front::Sought;
use conditional_fields::operand_grammar::SyntaxFault;
use conditional_fields::{Goto, Selector, ago};
use std::alloc::Global;

/// Where the operand field of AGO branches to.
pub(crate) fn read_branch(alloc: Global, field: &str) -> Result<Goto, SyntaxFault>
    ensures { Says branch_of (branches.goto (chars field.now)) result }
{
    ago(alloc, field)
}

/// A condition in parentheses and a sequence symbol: an operand of AIF.
pub(crate) fn read_pair(alloc: Global, operand: &str) -> Result<Selector, SyntaxFault>
    ensures { Says choice_of (branches.pair (chars operand.now)) result }
{
    if begins_with(operand, '(') {
        return choice(alloc, Sought::Condition, operand);
    }
    Err(SyntaxFault::At(0))
}
