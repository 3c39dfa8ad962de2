//! Prototypes (SC26-4940, "Macro prototype statement").
ghost use Rattle.std.specs.Prelude.{◌≡◌, ◌==◌, [], IfOk, option_map, position};
ghost use Rattle.std.specs.Str.{chars};
ghost use Rattle.macro_binding.specs.Prototypes as prototypes;
ghost use Rattle.macro_binding.specs.Inside.{IsAdmitted, parted_chars};

use crate::parameters::Parameters;
use crate::role::Role;
use crate::text::name_of;
use hl_base::{Name, OutOfMemory, Text};
use instruction_table::{Operation, operation};
use operand_list::hlasm_statements::text::{head, is_nothing};
use operand_list::hlasm_statements::{Statement, split_columns};
use operand_list::{Operands, split_operands};
use std::alloc::Global;
use std::marker::Model;

/// The prototype of a macro: the operation by which it is called, and its parameters, that of the name entry first.
#[derive(Drop)]
pub struct Prototype {
    operation: Name,
    parameters: Parameters,
}

impl Model for Prototype {
    ghost use Rattle.macro_binding.specs.Prototypes.{Prototype};

    ghost Value = { Prototype };

    ghost view = { λ p. record { operation = p.operation; parameters = p.parameters } };
}

impl Prototype {
    ghost use Rattle.std.specs.Prelude.{◌≡◌};

    /// The operation by which the macro is called.
    pub fn operation(&self) -> &Name
        ensures { result.now ≡ self.now.operation }
    {
        &self.operation
    }

    /// The parameters, that of the name entry first.
    pub fn parameters(&self) -> &Parameters
        ensures { result.now ≡ self.now.parameters }
    {
        &self.parameters
    }
}

/// What stands before and behind the first equals sign of a text.
#[derive(Clone, Copy)]
pub(crate) struct Parted<'a> {
    pub before: &'a str,
    pub behind: &'a str,
}

/// The place of the first equals sign of a text.
fn equals_at(text: &str) -> Option<usize>
    ensures { result ≡ position (λ c. c == 61) (chars text.now) }
{
    text.chars().position(|c| c == '=')
}

/// A text parted at its first equals sign, where it has one.
pub(crate) fn split_at_equals(text: &str) -> Option<Parted<'_>>
    ensures { option_map parted_chars result ≡ prototypes.parted (chars text.now) }
{
    match equals_at(text) {
        Some(at) => {
            let (before, rest) = split_columns(text, at);
            let (_sign, behind) = split_columns(rest, 1);
            Some(Parted { before, behind })
        }
        None => None,
    }
}

/// The name of the variable symbol that a text is.
fn variable_name(text: &str) -> Option<Name>
    ensures { result ≡ prototypes.variable_name (chars text.now) }
{
    match head(text) {
        Some((c, rest)) => {
            if c == '&' {
                return name_of(rest);
            }
            None
        }
        None => None,
    }
}

/// Adds a parameter behind those that are there; whether there may be one of this name.
fn admit(
    alloc: Global,
    parameters: &mut Parameters,
    role: Role,
    name: Option<Name>,
) -> Result<bool, OutOfMemory>
    ensures { IfOk result (IsAdmitted (prototypes.admitted parameters.old role name) parameters.new) }
{
    match name {
        Some(name) => {
            if parameters.is_taken(&name) {
                return Ok(false);
            }
            parameters.push(alloc, &name, role)?;
            Ok(true)
        }
        None => Ok(false),
    }
}

/// The same of an operand of a prototype.
fn admit_operand(
    alloc: Global,
    parameters: &mut Parameters,
    operand: &Text,
) -> Result<bool, OutOfMemory>
    ensures { IfOk result (IsAdmitted (prototypes.admitted_operand parameters.old operand.now) parameters.new) }
{
    let text = operand.as_str();
    match split_at_equals(text) {
        Some(Parted { before, behind }) => {
            let default = Text::of(alloc, behind)?;
            admit(
                alloc,
                parameters,
                Role::Keyword(default),
                variable_name(before),
            )
        }
        None => {
            let place = parameters.positional_count();
            admit(
                alloc,
                parameters,
                Role::Positional(place),
                variable_name(text),
            )
        }
    }
}

/// The parameter of the name entry.
fn admit_name_entry(
    alloc: Global,
    parameters: &mut Parameters,
    label: &str,
) -> Result<bool, OutOfMemory>
    requires { parameters.old ≡ [] }
    ensures { IfOk result (IsAdmitted (prototypes.name_entry_parameter (chars label.now)) parameters.new) }
{
    match head(label) {
        Some(_) => admit(alloc, parameters, Role::NameEntry, variable_name(label)),
        None => Ok(true),
    }
}

/// Whether a field is one comma.
fn is_lone_comma(field: &str) -> bool
    ensures { result ≡ prototypes.is_lone_comma (chars field.now) }
{
    match head(field) {
        Some((c, rest)) => c == ',' && is_nothing(rest),
        None => false,
    }
}

/// The operands of a prototype.
fn prototype_operands(alloc: Global, field: &str) -> Result<Operands, OutOfMemory>
    ensures { IfOk result (λ s. s ≡ prototypes.prototype_operands (chars field.now)) }
{
    if is_lone_comma(field) {
        return Ok(Operands::new(alloc));
    }
    split_operands(alloc, field)
}

/// The parameters of a prototype with these fields, where it can be read.
fn read_parameters(
    alloc: Global,
    label: &str,
    operands: &str,
) -> Result<Option<Parameters>, OutOfMemory>
    ensures { IfOk result (λ found. found ≡ prototypes.parameters (chars label.now) (chars operands.now)) }
{
    let mut parameters = Parameters::new(alloc);
    if !admit_name_entry(alloc, &mut parameters, label)? {
        return Ok(None);
    }
    let list = prototype_operands(alloc, operands)?;
    for operand in list.as_slice() {
        if !admit_operand(alloc, &mut parameters, operand)? {
            return Ok(None);
        }
    }
    Ok(Some(parameters))
}

/// Whether a macro may have the name of an operation.
fn may_be_defined(meaning: Operation) -> bool
    ensures { result ≡ prototypes.may_be_defined meaning }
{
    match meaning {
        Operation::Conditional | Operation::Ordinary | Operation::Both => false,
        Operation::Silent | Operation::LeftOut | Operation::Machine(_) | Operation::Unknown => true,
    }
}

/// The name of a macro.
fn macro_name(op: &str) -> Option<Name>
    ensures { result ≡ prototypes.macro_name (chars op.now) }
{
    match name_of(op) {
        Some(name) => {
            if may_be_defined(operation(&name)) {
                return Some(name);
            }
            None
        }
        None => None,
    }
}

/// The prototype that a statement is; `None` where it cannot be read as one.
pub fn read_prototype(
    alloc: Global,
    statement: &Statement,
) -> Result<Option<Prototype>, OutOfMemory>
    ensures { IfOk result (λ found. found ≡ prototypes.prototype_of statement.now.label statement.now.op statement.now.operands) }
{
    let (label, operands) = (statement.label.as_str(), statement.operands.as_str());
    let Some(operation) = macro_name(statement.op.as_str()) else {
        return Ok(None);
    };
    match read_parameters(alloc, label, operands)? {
        Some(parameters) => Ok(Some(Prototype {
            operation,
            parameters,
        })),
        None => Ok(None),
    }
}
