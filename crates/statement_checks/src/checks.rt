//! Which check a statement has.
ghost use Rattle.std.specs.Prelude.{◌≡◌};
ghost use Rattle.section_layout.specs.Statements.{meaning};
ghost use Rattle.statement_checks.specs.Checks as spec;

use hl_base::{Line, Name};
use instruction_table::Format;
use symbol_attributes::OpMeaning;

/// Which check a statement has.
#[derive(Clone, Copy, Debug, PartialEq, Eq)]
pub(crate) enum Check {
    /// That of the operands of a machine instruction.
    Machine(Format),
    /// That of the addresses in the constants of DC and DS.
    Constants,
    Using,
    Drop,
    Nothing,
}

/// The check of an operation of the assembler of this name.
fn check_of_name(name: &str) -> Check
    ensures { result ≡ spec.check_of_name name.now }
{
    match name {
        "USING" => Check::Using,
        "DROP" => Check::Drop,
        "DC" | "DS" => Check::Constants,
        _ => Check::Nothing,
    }
}

/// The check of an operation.
fn check_of(op: &OpMeaning) -> Check
    ensures { result ≡ spec.check_of op.now }
{
    match op {
        OpMeaning::Machine(format) => Check::Machine(*format),
        OpMeaning::Assembler(name) => check_of_name(name.text()),
        OpMeaning::Other => Check::Nothing,
    }
}

/// What an operation that is written so is: a built-in one, since macro calls are not generated.
fn meaning(op: &str) -> OpMeaning
    ensures { result ≡ meaning op.now }
{
    match Name::read(op) {
        Some(name) => OpMeaning::built_in(&name),
        None => OpMeaning::Other,
    }
}

/// The check of the statement of a line.
#[tactic(auto, unfolding(crate::specs::Checks::check))]
pub(crate) fn check_of_line(line: &Line) -> Check
    ensures { result ≡ spec.check line.now }
{
    let op = meaning(line.op.as_str());
    check_of(&op)
}
