//! The names of the prototype of a macro that is called.
ghost use Rattle.std.specs.Prelude.{◌≡◌, ◌<◌, ◌+◌, length, IfOk, OnOk};
ghost use Rattle.std.specs.List.{All, fold, flat_map, list_any};
ghost use Rattle.std.specs.Str.{chars};
ghost use Rattle.hlasm_statements.specs.Statements.{places};
ghost use Rattle.standing_occurrences.specs.Standing.{with_first};
ghost use Rattle.text_lists.specs.Lists.{IsWhole};
ghost use Rattle.program_occurrences.specs.Prototypes as prototypes;

use crate::counting::{place_behind, short_count};
use hl_base::{Name, Origin, OutOfMemory, Text};
use hlasm_statements::{Field, Statement};
use operand_list::split_operands;
use standing_occurrences::Standing;
use statement_names::{NameKind, OperandUse, WrittenName, names_in};
use statement_occurrences::{Naming, occurrence_of};
use std::alloc::Global;
use text_lists::TextLists;
use trace_values::{Entity, Role, Scope};

/// Where the operand behind one and a comma begins.
fn next_place(at: u32, text: &str) -> Result<u32, OutOfMemory>
    ensures { IfOk result (λ next. next ≡ at + (length (chars text.now) + 1)) }
{
    let count = short_count(text)?;
    place_behind(at, count)
}

/// Whether one of some operands, of which the first begins a field and a comma stands between each two, begins behind so many
/// characters of the field.
fn begins_operand(operands: &[Text], at: u32) -> Result<bool, OutOfMemory>
    ensures { IfOk result (λ begins. begins ≡ prototypes.begins_operand 0 operands.now at) }
{
    let mut place: u32 = 0;
    for operand in operands {
        if place == at {
            return Ok(true);
        }
        place = next_place(place, operand.as_str())?;
    }
    Ok(false)
}

/// Whether a name begins the name entry or an operand of a prototype.
fn begins_entry(operands: &[Text], name: &WrittenName) -> Result<bool, OutOfMemory>
    ensures { IfOk result (λ begins. begins ≡ prototypes.begins_entry operands.now name.now) }
{
    match name.field {
        Field::Label => Ok(name.at == 0),
        Field::Op => Ok(false),
        Field::Operands => begins_operand(operands, name.at),
    }
}

/// A parameter of the macro whose prototype stands at a place.
fn parameter(origin: Origin, name: &Name) -> Naming
    ensures { result ≡ prototypes.parameter origin name.now }
{
    Naming {
        entity: Entity::Variable(Scope::Definition(origin), name.copy()),
        defines: true,
        role: Role::Parameter,
    }
}

/// The macro.
fn operation(origin: Origin, name: &Name) -> Naming
    ensures { result ≡ prototypes.operation origin name.now }
{
    Naming {
        entity: Entity::Macro(origin, name.copy()),
        defines: true,
        role: Role::Plain,
    }
}

/// What a variable symbol of a prototype defines, if it defines something.
fn variable(
    origin: Origin,
    operands: &[Text],
    name: &WrittenName,
) -> Result<Option<Naming>, OutOfMemory>
    ensures { IfOk result (λ naming. naming ≡ prototypes.variable origin operands.now name.now) }
{
    if begins_entry(operands, name)? {
        return Ok(Some(parameter(origin, &name.name)));
    }
    Ok(None)
}

/// What a name of a prototype defines, if it defines something.
fn naming(
    origin: Origin,
    operands: &[Text],
    name: &WrittenName,
) -> Result<Option<Naming>, OutOfMemory>
    ensures { IfOk result (λ naming. naming ≡ prototypes.naming origin operands.now name.now) }
{
    match name.kind {
        NameKind::Variable => variable(origin, operands, name),
        NameKind::Operation => Ok(Some(operation(origin, &name.name))),
        NameKind::Symbol => Ok(None),
        NameKind::Label => Ok(None),
        NameKind::SequenceLabel => Ok(None),
        NameKind::SequenceReference => Ok(None),
        NameKind::Member => Ok(None),
    }
}

/// Adds a name of a prototype, if it defines something.
fn push_name(
    origin: Origin,
    statement: &Statement,
    operands: &[Text],
    name: &WrittenName,
    kept: &mut Standing,
) -> Result<(), OutOfMemory>
    requires { name.now.at < length (places statement.now name.now.field) }
    ensures { OnOk result (kept.new ≡ fold with_first kept.old (prototypes.of_name origin statement.now operands.now name.now)) }
{
    match naming(origin, operands, name)? {
        Some(naming) => kept.push(occurrence_of(origin.path, statement, name, naming)),
        None => Ok(()),
    }
}

/// Adds names of a prototype.
fn push_names(
    origin: Origin,
    statement: &Statement,
    operands: &[Text],
    names: &[WrittenName],
    kept: &mut Standing,
) -> Result<(), OutOfMemory>
    requires { All (λ name. name.at < length (places statement.now name.field)) names.now }
    ensures { OnOk result (kept.new ≡ fold with_first kept.old (flat_map (prototypes.of_name origin statement.now operands.now) names.now)) }
{
    for name in names {
        push_name(origin, statement, operands, name, kept)?;
    }
    Ok(())
}

/// Adds the names of a prototype that stands at a place.
fn push_prototype(
    alloc: Global,
    origin: Origin,
    statement: &Statement,
    kept: &mut Standing,
) -> Result<(), OutOfMemory>
    requires { IsWhole statement.now }
    ensures { OnOk result (kept.new ≡ fold with_first kept.old (prototypes.of_prototype origin statement.now)) }
{
    let operands = split_operands(alloc, statement.operands.as_str())?;
    let names = names_in(alloc, statement, OperandUse::Unread)?;
    push_names(
        origin,
        statement,
        operands.as_slice(),
        names.as_slice(),
        kept,
    )
}

/// The same of the prototype that stands at a place of the texts, if one does.
pub(crate) fn push_prototype_at(
    alloc: Global,
    texts: &TextLists,
    origin: Origin,
    kept: &mut Standing,
) -> Result<(), OutOfMemory>
    ensures { OnOk result (kept.new ≡ fold with_first kept.old (prototypes.prototype_at texts.now origin)) }
{
    match texts.line_at(origin) {
        Some(line) => push_prototype(alloc, origin, line.statement(), kept),
        None => Ok(()),
    }
}
