//! What an operation reads of its operands.
ghost use Rattle.std.specs.Prelude.{◌≡◌};
ghost use Rattle.statement_names.specs.Uses as uses;

use hl_base::Name;
use instruction_table::{Kind, Operation, operands, operation};

/// What an operation reads of its operands.
#[derive(Clone, Copy, Debug, PartialEq, Eq)]
pub enum OperandUse {
    /// What follows are remarks: an instruction without operands.
    Remarks,
    /// No names but those of variable symbols.
    Unread,
    /// Expressions and symbols.
    Expressions,
    /// Constants: those of DC and DS.
    Constants,
    /// Expressions and literals: the operands of a machine instruction.
    Instruction,
    /// Sequence symbols: those of an AGO or AIF that can be read.
    Branches,
    /// The name of a member: that of COPY.
    Member,
}

/// An instruction with these operands.
fn machine_use(operands: &[Kind]) -> OperandUse
    ensures { result ≡ uses.machine_use operands.now }
{
    match operands {
        [] => OperandUse::Remarks,
        [_, ..] => OperandUse::Instruction,
    }
}

/// An operation of the assembler of this name.
fn ordinary_use(name: &str) -> OperandUse
    ensures { result ≡ uses.ordinary_use name.now }
{
    match name {
        "DC" | "DS" => OperandUse::Constants,
        "DROP" | "END" | "ENTRY" | "EQU" | "EXTRN" | "ORG" | "USING" | "WXTRN" => {
            OperandUse::Expressions
        }
        _ => OperandUse::Unread,
    }
}

/// An operation of conditional assembly of this name.
fn conditional_use(name: &str) -> OperandUse
    ensures { result ≡ uses.conditional_use name.now }
{
    match name {
        "AGO" | "AIF" => OperandUse::Branches,
        _ => OperandUse::Unread,
    }
}

/// COPY or MNOTE.
fn both_use(name: &str) -> OperandUse
    ensures { result ≡ uses.both_use name.now }
{
    match name {
        "COPY" => OperandUse::Member,
        _ => OperandUse::Unread,
    }
}

/// An operation of this name that means this.
fn use_by(name: &Name, meaning: Operation) -> OperandUse
    ensures { result ≡ uses.use_by name.now meaning }
{
    match meaning {
        Operation::Conditional => conditional_use(name.text()),
        Operation::Ordinary => ordinary_use(name.text()),
        Operation::Both => both_use(name.text()),
        Operation::Machine(format) => machine_use(operands(format)),
        Operation::Silent | Operation::LeftOut | Operation::Unknown => OperandUse::Unread,
    }
}

/// What an operation reads of its operands that is written so after substitution and is no macro. Of an AGO or AIF that cannot
/// be read, `Unread` says what it reads.
pub fn operand_use(op: &str) -> OperandUse
    ensures { result ≡ uses.use_of op.now }
{
    match Name::read(op) {
        Some(name) => use_by(&name, operation(&name)),
        None => OperandUse::Unread,
    }
}
