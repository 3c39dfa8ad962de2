//! The names of a statement.
ghost use Rattle.std.specs.Prelude.{◌≡◌, ◌+◌, ◌++◌, length, IfOk, OnOk};
ghost use Rattle.std.specs.Str.{chars};
ghost use Rattle.hlasm_statements.specs.declared.statement.Field.TheVariants.{Label};
ghost use Rattle.statement_names.specs.declared.name.NameKind.TheVariants as kinds;
ghost use Rattle.statement_names.specs.Names as names;
ghost use Rattle.statement_names.specs.Statements as statements;

use crate::name::{NameKind, WrittenNames};
use crate::operand::{push_field, push_variables};
use crate::scan::named;
use crate::text::{advance, counted, has_ampersand, name_of};
use crate::uses::OperandUse;
use hl_base::OutOfMemory;
use hlasm_statements::text::{character_count, head};
use hlasm_statements::{Field, Statement};
use std::alloc::Global;

/// Adds the sequence symbol that a name entry is, of which this stands behind its period.
fn push_sequence(rest: &str, found: &mut WrittenNames) -> Result<(), OutOfMemory>
    ensures { OnOk result (found.new ≡ found.old ++ names.stands Label 0 (names.named kinds.SequenceLabel (length (chars rest.now) + 1) (names.name_of (chars rest.now)))) }
{
    let count = advance(1, character_count(rest))?;
    found.push_at(
        Field::Label,
        0,
        named(NameKind::SequenceLabel, count, name_of(rest)),
    )
}

/// Adds the name that all of a field is.
fn push_whole(
    kind: NameKind,
    field: Field,
    text: &str,
    found: &mut WrittenNames,
) -> Result<(), OutOfMemory>
    ensures { OnOk result (found.new ≡ found.old ++ names.stands field 0 (names.named kind (length (chars text.now)) (names.name_of (chars text.now)))) }
{
    let count = counted(character_count(text))?;
    found.push_at(field, 0, named(kind, count, name_of(text)))
}

/// Adds the name of a name entry without an ampersand.
fn push_label_name(label: &str, found: &mut WrittenNames) -> Result<(), OutOfMemory>
    ensures { OnOk result (found.new ≡ found.old ++ statements.label_name (chars label.now)) }
{
    match head(label) {
        Some(('.', rest)) => push_sequence(rest, found),
        Some(_) => push_whole(NameKind::Label, Field::Label, label, found),
        None => Ok(()),
    }
}

/// Adds the names of a name entry.
fn push_label(label: &str, found: &mut WrittenNames) -> Result<(), OutOfMemory>
    ensures { OnOk result (found.new ≡ found.old ++ statements.label_names (chars label.now)) }
{
    if has_ampersand(label) {
        return push_variables(Field::Label, label, found);
    }
    push_label_name(label, found)
}

/// Adds the names of an operation.
fn push_operation(op: &str, found: &mut WrittenNames) -> Result<(), OutOfMemory>
    ensures { OnOk result (found.new ≡ found.old ++ statements.operation_names (chars op.now)) }
{
    if has_ampersand(op) {
        return push_variables(Field::Op, op, found);
    }
    push_whole(NameKind::Operation, Field::Op, op, found)
}

/// The names of a statement whose operation reads this of its operands, in name entry, operation and operands, and in each
/// from left to right.
pub fn names_in(
    alloc: Global,
    statement: &Statement,
    used: OperandUse,
) -> Result<WrittenNames, OutOfMemory>
    ensures { IfOk result (λ found. found ≡ statements.names_in used statement.now) }
{
    let mut found = WrittenNames::new(alloc);
    push_label(statement.label.as_str(), &mut found)?;
    push_operation(statement.op.as_str(), &mut found)?;
    push_field(alloc, used, statement.operands.as_str(), &mut found)?;
    Ok(found)
}
