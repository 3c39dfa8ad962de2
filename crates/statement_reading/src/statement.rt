//! A statement as it was read.
ghost use Rattle.std.specs.Prelude.{◌≡◌, IfOk, Result};
ghost use Rattle.std.specs.Str.{chars};
ghost use Rattle.hlasm_statements.specs.Fields.{ends_quoted};
ghost use Rattle.statement_reading.specs.Readings as readings;
ghost use Rattle.statement_reading.specs.Templates as templates;
ghost use Rattle.statement_reading.specs.Views.{instruction_of, reading_of};

use crate::body::{Body, read_body};
use crate::entry::{has_ampersand, read_template};
use crate::task::{Task, is_lasting, task_of};
use conditional_fields::Template;
use conditional_fields::character::{head, name_of};
use conditional_fields::operand_grammar::SyntaxFault;
use hl_base::{Name, OutOfMemory, Text};
use hlasm_statements::{Shape, Statement, ends_quoted};
use instruction_table::operation;
use std::alloc::Global;

/// An operation without an ampersand, and what the fields say for its task. Its operation as it is written; the task where
/// no macro definition has its name; whether none replaces it; whether the operand field as it is read ends within quotes.
#[derive(Drop)]
pub struct Known {
    pub name: Name,
    pub op: Text,
    pub task: Task,
    pub lasting: bool,
    pub open_end: bool,
    pub body: Body,
}

/// An operation with an ampersand, and the fields that `read_body` reads when it is known.
#[derive(Drop)]
pub struct Varying {
    pub op: Template,
    pub label: Text,
    pub operands: Text,
    pub open_end: bool,
}

/// What a statement is told to do.
#[derive(Drop)]
pub enum Instruction {
    /// A comment or a blank statement.
    Idle,
    /// The operation cannot be read, and up to this character it can.
    Unread(u32),
    /// The operation, which has no ampersand, is no name; whether the operand field ends within quotes.
    Nameless(Text, bool),
    Known(Known),
    Varying(Varying),
}

/// A statement that was read.
#[derive(Drop)]
pub struct ReadStatement {
    /// The name entry, if it is a sequence symbol.
    pub sequence_label: Option<Name>,
    pub instruction: Instruction,
}

/// The name of a sequence symbol, if a text is one.
fn sequence_label(label: &str) -> Option<Name>
    ensures { result ≡ readings.sequence_label (chars label.now) }
{
    match head(label) {
        Some((c, rest)) => {
            if c == '.' {
                return name_of(rest);
            }
            None
        }
        None => None,
    }
}

/// An operation that is no name.
fn read_nameless(alloc: Global, op: &str, operands: &str) -> Result<Instruction, OutOfMemory>
    ensures { IfOk result (λ i. instruction_of i ≡ readings.read_nameless (chars op.now) (chars operands.now)) }
{
    let open_end = ends_quoted(operands)?;
    Ok(Instruction::Nameless(Text::of(alloc, op)?, open_end))
}

/// An operation with a name.
fn read_named(
    alloc: Global,
    name: Name,
    label: &str,
    op: &str,
    operands: &str,
) -> Result<Instruction, OutOfMemory>
    ensures { IfOk result (λ i. instruction_of i ≡ readings.read_named name (chars label.now) (chars op.now) (chars operands.now)) }
{
    let meaning = operation(&name);
    let task = task_of(&name, meaning);
    let open_end = ends_quoted(operands)?;
    let body = read_body(alloc, task, label, operands)?;
    Ok(Instruction::Known(Known {
        name,
        op: Text::of(alloc, op)?,
        task,
        lasting: is_lasting(meaning),
        open_end,
        body,
    }))
}

/// An operation without an ampersand.
fn read_known(
    alloc: Global,
    label: &str,
    op: &str,
    operands: &str,
) -> Result<Instruction, OutOfMemory>
    ensures { IfOk result (λ i. instruction_of i ≡ readings.read_known (readings.name_of (chars op.now)) (chars label.now) (chars op.now) (chars operands.now)) }
{
    match name_of(op) {
        Some(name) => read_named(alloc, name, label, op, operands),
        None => read_nameless(alloc, op, operands),
    }
}

/// An operation with variable symbols.
fn keep_fields(
    alloc: Global,
    op: Template,
    label: &str,
    operands: &str,
) -> Result<Varying, OutOfMemory>
    ensures { IfOk result (λ v. (v.op ≡ op) × (v.label ≡ chars label.now) × (v.operands ≡ chars operands.now) × (v.open_end ≡ ends_quoted (chars operands.now))) }
{
    let open_end = ends_quoted(operands)?;
    Ok(Varying {
        op,
        label: Text::of(alloc, label)?,
        operands: Text::of(alloc, operands)?,
        open_end,
    })
}

/// An operation with an ampersand.
fn read_varying(
    alloc: Global,
    label: &str,
    op: &str,
    operands: &str,
) -> Result<Instruction, OutOfMemory>
    ensures { IfOk result (λ i. instruction_of i ≡ readings.read_varying (templates.template (chars op.now)) (chars label.now) (chars operands.now)) }
{
    match read_template(alloc, op) {
        Ok(template) => Ok(Instruction::Varying(keep_fields(alloc, template, label, operands)?)),
        Err(SyntaxFault::At(at)) => Ok(Instruction::Unread(at)),
        Err(SyntaxFault::OutOfMemory) => Err(OutOfMemory),
    }
}

/// An instruction with these fields.
fn read_instruction(
    alloc: Global,
    label: &str,
    op: &str,
    operands: &str,
) -> Result<Instruction, OutOfMemory>
    ensures { IfOk result (λ i. instruction_of i ≡ readings.read_instruction (chars label.now) (chars op.now) (chars operands.now)) }
{
    if has_ampersand(op) {
        return read_varying(alloc, label, op, operands);
    }
    read_known(alloc, label, op, operands)
}

impl ReadStatement {
    /// Reads a statement, whatever it is: what of it cannot be read is part of the answer.
    pub fn of(alloc: Global, s: &Statement) -> Result<ReadStatement, OutOfMemory>
        ensures { IfOk result (λ r. reading_of r ≡ readings.read_statement s.now) }
    {
        match s.shape {
            Shape::Plain => {
                let (label, op, operands) = (s.label.as_str(), s.op.as_str(), s.operands.as_str());
                Ok(ReadStatement {
                    sequence_label: sequence_label(label),
                    instruction: read_instruction(alloc, label, op, operands)?,
                })
            }
            Shape::Comment | Shape::InnerComment | Shape::Blank => Ok(ReadStatement {
                sequence_label: None,
                instruction: Instruction::Idle,
            }),
        }
    }
}
