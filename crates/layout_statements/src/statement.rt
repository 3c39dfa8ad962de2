//! Statements.
ghost use Rattle.std.specs.Prelude.{◌≡◌, IfOk};
ghost use Rattle.std.specs.Str.{chars};
ghost use Rattle.std.specs.Option.{option_map};
ghost use Rattle.layout_statements.specs.Bases.{any_reads_place as any_place, using_reads_place as using_place};
ghost use Rattle.layout_statements.specs.Equates as equates;
ghost use Rattle.layout_statements.specs.Expressions.{reading_at};
ghost use Rattle.layout_statements.specs.Lists as lists;
ghost use Rattle.layout_statements.specs.Statements as spec;
ghost use Rattle.layout_statements.specs.Symbols.{symbol_readings};
ghost use Rattle.layout_statements.specs.Views.{statement_of, task_of};
ghost use Rattle.operand_list.specs.Split.{operands_of};

use crate::bases::{any_reads_place, using_reads_place};
use crate::equate::{Equate, read_equate};
use crate::expressions::{Reading, read_at};
use crate::kind::{Kind, kind_of};
use crate::lists::{ReadLiteral, read_constants, read_literals_in};
use crate::symbols::{ReadSymbol, read_symbols};
use constant_operands::{ConstantOperand, ConstantUse};
use hl_base::{Line, Name, OutOfMemory};
use instruction_table::Format;
use plain_fields::split_field;
use std::alloc::Global;
use symbol_attributes::{OpMeaning, defines};

/// What a statement asks for.
#[derive(Drop)]
pub enum Task {
    /// A machine instruction, with the literals in its operands, in order.
    Instruction(Format, Vec<ReadLiteral>),
    /// DC and DS.
    Constants(Vec<ConstantOperand>),
    /// CSECT and START.
    ControlSection,
    /// DSECT.
    DummySection,
    Equate(Equate),
    /// ORG, with its operand, if it has one.
    Org(Option<Reading>),
    /// LTORG.
    Pool,
    /// EXTRN and WXTRN.
    Externals(Vec<ReadSymbol>),
    Entries(Vec<ReadSymbol>),
    /// END, with its operand, if it has one.
    End(Option<Reading>),
    /// USING and DROP: whether `*` is a term of their operands.
    Bases(bool),
    /// Nothing.
    Other,
}

/// A generated statement: the symbol of its label, if the label is one and defines it, and what the statement asks for.
#[derive(Drop)]
pub struct LayoutStatement {
    pub op: OpMeaning,
    pub label: Option<Name>,
    pub task: Task,
}

/// What a machine instruction asks for.
fn instruction(alloc: Global, format: Format, field: &str) -> Result<Task, OutOfMemory>
    ensures { IfOk result (λ task. task_of task ≡ spec.Instruction format (lists.literals (operands_of (chars field.now)))) }
{
    Ok(Task::Instruction(format, read_literals_in(alloc, field)?))
}

/// What DC and DS ask for.
fn constants(alloc: Global, used: ConstantUse, field: &str) -> Result<Task, OutOfMemory>
    ensures { IfOk result (λ task. task_of task ≡ spec.Constants (lists.constants used (operands_of (chars field.now)))) }
{
    let operands = split_field(alloc, field)?;
    Ok(Task::Constants(read_constants(alloc, used, operands.as_slice())?))
}

/// What EQU asks for.
fn equate(alloc: Global, op: &OpMeaning, field: &str) -> Result<Task, OutOfMemory>
    ensures { IfOk result (λ task. task_of task ≡ spec.Equate (equates.equate op.now (chars field.now) (operands_of (chars field.now)))) }
{
    let operands = split_field(alloc, field)?;
    Ok(Task::Equate(read_equate(alloc, op, field, operands.as_slice())?))
}

/// What ORG asks for.
fn org(alloc: Global, field: &str) -> Result<Task, OutOfMemory>
    ensures { IfOk result (λ task. task_of task ≡ spec.Org (reading_at 0 (operands_of (chars field.now)))) }
{
    let operands = split_field(alloc, field)?;
    Ok(Task::Org(read_at(alloc, operands.as_slice(), 0)?))
}

/// What EXTRN and WXTRN ask for.
fn externals(alloc: Global, field: &str) -> Result<Task, OutOfMemory>
    ensures { IfOk result (λ task. task_of task ≡ spec.Externals (symbol_readings (operands_of (chars field.now)))) }
{
    let operands = split_field(alloc, field)?;
    Ok(Task::Externals(read_symbols(alloc, operands.as_slice())?))
}

/// What ENTRY asks for.
fn entries(alloc: Global, field: &str) -> Result<Task, OutOfMemory>
    ensures { IfOk result (λ task. task_of task ≡ spec.Entries (symbol_readings (operands_of (chars field.now)))) }
{
    let operands = split_field(alloc, field)?;
    Ok(Task::Entries(read_symbols(alloc, operands.as_slice())?))
}

/// What END asks for.
fn end(alloc: Global, field: &str) -> Result<Task, OutOfMemory>
    ensures { IfOk result (λ task. task_of task ≡ spec.End (reading_at 0 (operands_of (chars field.now)))) }
{
    let operands = split_field(alloc, field)?;
    Ok(Task::End(read_at(alloc, operands.as_slice(), 0)?))
}

/// What USING asks for.
fn using(alloc: Global, field: &str) -> Result<Task, OutOfMemory>
    ensures { IfOk result (λ task. task_of task ≡ spec.Bases (using_place (operands_of (chars field.now)))) }
{
    let operands = split_field(alloc, field)?;
    Ok(Task::Bases(using_reads_place(alloc, operands.as_slice())?))
}

/// What DROP asks for.
fn dropping(alloc: Global, field: &str) -> Result<Task, OutOfMemory>
    ensures { IfOk result (λ task. task_of task ≡ spec.Bases (any_place (operands_of (chars field.now)))) }
{
    let operands = split_field(alloc, field)?;
    Ok(Task::Bases(any_reads_place(alloc, operands.as_slice())?))
}

/// What an operation of this kind asks for with an operand field. Each kind is read by a function of its own, so that no call
/// makes room for the readings of all, and the field is split where its operands are asked for.
fn read_task(alloc: Global, op: &OpMeaning, field: &str) -> Result<Task, OutOfMemory>
    ensures { IfOk result (λ task. task_of task ≡ spec.task op.now (chars field.now) (operands_of (chars field.now))) }
{
    match kind_of(op) {
        Kind::Instruction(format) => instruction(alloc, format, field),
        Kind::Constants(used) => constants(alloc, used, field),
        Kind::ControlSection => Ok(Task::ControlSection),
        Kind::DummySection => Ok(Task::DummySection),
        Kind::Equate => equate(alloc, op, field),
        Kind::Org => org(alloc, field),
        Kind::Pool => Ok(Task::Pool),
        Kind::Externals => externals(alloc, field),
        Kind::Entries => entries(alloc, field),
        Kind::End => end(alloc, field),
        Kind::Using => using(alloc, field),
        Kind::Drop => dropping(alloc, field),
        Kind::Other => Ok(Task::Other),
    }
}

/// What an operation that is written so is.
fn meaning(op: &str) -> OpMeaning
    ensures { result ≡ spec.meaning op.now }
{
    match Name::read(op) {
        Some(name) => OpMeaning::built_in(&name),
        None => OpMeaning::Other,
    }
}

/// The symbol that a name entry defines on an operation, if it does.
fn label_on(op: &OpMeaning, entry: &str) -> Option<Name>
    ensures { result ≡ spec.label_on op.now entry.now }
{
    if defines(op) { Name::read(entry) } else { None }
}

impl LayoutStatement {
    /// Reads a statement. Its operation is taken for a built-in one, since macro calls are not generated.
    pub fn read(alloc: Global, line: &Line) -> Result<LayoutStatement, OutOfMemory>
        ensures { IfOk result (λ statement. statement_of statement ≡ spec.statement line.now.label line.now.op line.now.operands) }
    {
        let op = meaning(line.op.as_str());
        let task = read_task(alloc, &op, line.operands.as_str())?;
        Ok(LayoutStatement {
            label: label_on(&op, line.label.as_str()),
            op,
            task,
        })
    }
}
