//! Operands, and what they are for.
ghost use Rattle.std.specs.Prelude.{◌≡◌, IfOk};
ghost use Rattle.std.specs.Str.{chars};
ghost use Rattle.std.specs.Option.{option_map};
ghost use Rattle.constant_grammar.specs.Views.{constant_of, optional_nominal_of};
ghost use Rattle.constant_operands.specs.Operands as operands;

use constant_grammar::{Constant, Nominal};
use constant_table::Purpose;
use hl_base::OutOfMemory;
use std::alloc::Global;

/// What an operand is for.
#[derive(Clone, Copy, Debug, PartialEq, Eq)]
pub enum ConstantUse {
    Dc,
    Ds,
    /// A literal behind its equals sign.
    Literal,
}

impl ConstantUse {
    /// What the table of constants calls it.
    pub fn purpose(self) -> Purpose
        ensures { result ≡ operands.purpose_of self }
    {
        match self {
            ConstantUse::Dc | ConstantUse::Literal => Purpose::Constant,
            ConstantUse::Ds => Purpose::Storage,
        }
    }

    /// Whether these are all the values that it must have.
    fn suffices(self, nominal: &Option<Nominal>) -> bool
        ensures { result ≡ operands.suffices self (optional_nominal_of nominal.now) }
    {
        match self {
            ConstantUse::Dc | ConstantUse::Literal => nominal.is_some(),
            ConstantUse::Ds => true,
        }
    }
}

/// An operand as it was read; there is no constant where it is not written as one, or lacks values that it must have.
#[derive(Drop)]
pub struct ConstantOperand {
    pub used: ConstantUse,
    pub constant: Option<Constant>,
}

impl ConstantOperand {
    ghost use Rattle.constant_operands.specs.Views.{operand_of};

    /// Reads an operand; of a literal the text behind its equals sign.
    pub fn read(
        alloc: Global,
        used: ConstantUse,
        text: &str,
    ) -> Result<ConstantOperand, OutOfMemory>
        ensures { IfOk result (λ operand. operand_of operand ≡ operands.operand used (chars text.now)) }
    {
        let constant = Constant::read(alloc, text)?;
        Ok(ConstantOperand {
            used,
            constant: sufficient(used, constant),
        })
    }
}

/// A constant, where it has all the values that it must have.
fn sufficient(used: ConstantUse, constant: Option<Constant>) -> Option<Constant>
    ensures { option_map constant_of result ≡ operands.sufficient used (option_map constant_of constant) }
{
    match constant {
        Some(constant) => {
            if used.suffices(&constant.nominal) {
                Some(constant)
            } else {
                None
            }
        }
        None => None,
    }
}
