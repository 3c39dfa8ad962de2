//! What a statement does, by its operation.
ghost use Rattle.std.specs.Prelude.{◌≡◌};
ghost use Rattle.instruction_table.specs.Formats.{operands_of};
ghost use Rattle.statement_reading.specs.Tasks as tasks;

use hl_base::{Name, SetKind};
use instruction_table::{Format, Operation, operands};

/// What a statement does where no macro definition has the name of its operation.
#[derive(Clone, Copy, Debug, PartialEq, Eq)]
pub enum Task {
    Actr,
    Ago,
    Aif,
    /// Of this type, and whether the symbols are global.
    Declare(SetKind, bool),
    Assign(SetKind),
    Define,
    Leave,
    Copy,
    Mnote,
    Nothing,
    Generate,
    /// A machine instruction without operands, whose name entry alone is read.
    GenerateAlone,
    End,
    LeaveOut,
    Call,
}

/// What an operation of conditional assembly does.
fn conditional(name: &str) -> Task
    ensures { result ≡ tasks.conditional name.now }
{
    match name {
        "ACTR" => Task::Actr,
        "AGO" => Task::Ago,
        "AIF" => Task::Aif,
        "GBLA" => Task::Declare(SetKind::A, true),
        "GBLB" => Task::Declare(SetKind::B, true),
        "GBLC" => Task::Declare(SetKind::C, true),
        "LCLA" => Task::Declare(SetKind::A, false),
        "LCLB" => Task::Declare(SetKind::B, false),
        "LCLC" => Task::Declare(SetKind::C, false),
        "MACRO" => Task::Define,
        "MEND" => Task::Leave,
        "MEXIT" => Task::Leave,
        "SETA" => Task::Assign(SetKind::A),
        "SETB" => Task::Assign(SetKind::B),
        "SETC" => Task::Assign(SetKind::C),
        _ => Task::Nothing,
    }
}

/// What a statement with this operation does, which means so much.
pub fn task_of(op: &Name, meaning: Operation) -> Task
    ensures { result ≡ tasks.task op.now meaning }
{
    let name = op.text();
    match meaning {
        Operation::Conditional => conditional(name),
        Operation::Ordinary => ordinary(name),
        Operation::Both => both(name),
        Operation::Silent => Task::Nothing,
        Operation::LeftOut => Task::LeaveOut,
        Operation::Machine(format) => machine(format),
        Operation::Unknown => Task::Call,
    }
}

/// What a machine instruction does.
fn machine(format: Format) -> Task
    ensures { result ≡ tasks.machine (operands_of format) }
{
    if operands(format).is_empty() {
        return Task::GenerateAlone;
    }
    Task::Generate
}

/// What an ordinary assembler operation does.
fn ordinary(name: &str) -> Task
    ensures { result ≡ tasks.ordinary name.now }
{
    match name {
        "END" => Task::End,
        _ => Task::Generate,
    }
}

/// What COPY or MNOTE does.
fn both(name: &str) -> Task
    ensures { result ≡ tasks.both name.now }
{
    match name {
        "COPY" => Task::Copy,
        _ => Task::Mnote,
    }
}

/// Whether no macro definition replaces an operation.
pub fn is_lasting(meaning: Operation) -> bool
    ensures { result ≡ tasks.is_lasting meaning }
{
    match meaning {
        Operation::Conditional | Operation::Ordinary | Operation::Both => true,
        Operation::Silent | Operation::LeftOut | Operation::Machine(_) | Operation::Unknown =>
            false,
    }
}

/// Whether a statement is generated.
pub fn is_generated(task: Task) -> bool
    ensures { result ≡ tasks.is_generated task }
{
    match task {
        Task::Generate | Task::GenerateAlone | Task::End => true,
        Task::Actr
        | Task::Ago
        | Task::Aif
        | Task::Declare(_, _)
        | Task::Assign(_)
        | Task::Define
        | Task::Leave
        | Task::Copy
        | Task::Mnote
        | Task::Nothing
        | Task::LeaveOut
        | Task::Call => false,
    }
}
