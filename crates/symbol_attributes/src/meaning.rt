//! What an operation is to a label on it.
ghost use Rattle.std.specs.Prelude.{◌≡◌};
ghost use Rattle.symbol_attributes.specs.Meanings as meanings;

use hl_base::Name;
use instruction_table::{Format, Operation, operation};

/// What an operation is to a label on it.
#[derive(Drop)]
pub enum OpMeaning {
    /// A machine instruction.
    Machine(Format),
    /// An operation of the assembler itself, of conditional assembly too.
    Assembler(Name),
    /// A macro call, or an operation that is not known.
    Other,
}

impl OpMeaning {
    /// What an operation is where no macro definition has its name.
    pub fn built_in(op: &Name) -> OpMeaning
        ensures { result ≡ meanings.built_in op.now }
    {
        match operation(op) {
            Operation::Machine(format) => OpMeaning::Machine(format),
            Operation::Unknown => OpMeaning::Other,
            _ => OpMeaning::Assembler(op.copy()),
        }
    }
}

/// Whether a label on this operation defines a symbol: on machine instructions, and on ordinary assembler operations other
/// than COPY, MNOTE and those that do nothing (SC26-4940, "Symbols").
pub fn defines(op: &OpMeaning) -> bool
    ensures { result ≡ meanings.defines op.now }
{
    match op {
        OpMeaning::Machine(_) => true,
        OpMeaning::Assembler(name) => matches!(operation(name), Operation::Ordinary),
        OpMeaning::Other => false,
    }
}
