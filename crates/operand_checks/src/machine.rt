//! Machine instructions.
ghost use Rattle.std.specs.Prelude.{◌≡◌, ◌++◌, Option, OnOk};
ghost use Rattle.expression_grammar.specs.Views.{tree_of};
ghost use Rattle.expression_notes.specs.Repeating.{once_behind};
ghost use Rattle.machine_operands.specs.Operands.{IsAlone};
ghost use Rattle.machine_operands.specs.Views.{machine_operand_of, written_of};
ghost use Rattle.trace_values.specs.declared.section.Reloc.{Reloc};
ghost use Rattle.operand_checks.specs.Machine as spec;
ghost use Rattle.operand_checks.specs.Settings.{setting_of};

use crate::Setting;
use crate::addresses::{push_address, push_displacement};
use crate::expressions::push_alone;
use crate::literals::push_within;
use expression_grammar::Expr;
use expression_notes::push_row;
use hl_base::{OutOfMemory, Text};
use instruction_table::{Encoding, Format, Kind, encoding, operands};
use machine_check::count_note;
use machine_operands::{MachineOperand, OperandForm, Written, begins_literal, form_of, read_term};
use note_rows::Row;
use std::alloc::Global;
use trace_values::Reloc;

/// Says what there is to say of what was read of an operand of this kind, whose literal, if it has one, has this place.
fn push_written(
    setting: &Setting<'_>,
    kind: Kind,
    place: Option<Reloc>,
    written: &Written,
    rows: &mut Vec<Row>,
) -> Result<(), OutOfMemory>
    ensures { OnOk result (rows.new.items ≡ rows.old.items ++ once_behind rows.old.items (spec.said_of_written (setting_of setting.now) kind place (written_of written.now))) }
{
    match written {
        Written::Value(formula) => push_alone(setting, kind, &formula.tree, rows),
        Written::Address(address) => push_address(setting, kind, place, address, rows),
        Written::LiteralTarget | Written::NoLiteral => Ok(()),
        Written::Wrong(count) => push_row(rows, Some(Row::Unreadable(*count))),
    }
}

/// The same of an operand, and then of the addresses in its literal.
fn push_operand(
    setting: &Setting<'_>,
    kind: Kind,
    place: Option<Reloc>,
    operand: &MachineOperand,
    rows: &mut Vec<Row>,
) -> Result<(), OutOfMemory>
    ensures { OnOk result (rows.new.items ≡ rows.old.items ++ once_behind rows.old.items (spec.said_of_operand (setting_of setting.now) kind place (machine_operand_of operand.now))) }
{
    push_written(setting, kind, place, &operand.written, rows)?;
    push_within(setting, place, &operand.literal, rows)
}

/// Says what there is to say of an operand of this kind that is an expression alone.
fn push_term(
    setting: &Setting<'_>,
    targets: bool,
    kind: Kind,
    text: &Text,
    tree: &Expr,
    rows: &mut Vec<Row>,
) -> Result<(), OutOfMemory>
    requires { IsAlone kind text.now (tree_of tree.now) }
    ensures { OnOk result ((place : Option Reloc) → rows.new.items ≡ rows.old.items ++ once_behind rows.old.items (spec.said_of_text (setting_of setting.now) targets kind place text.now)) }
{
    match form_of(kind) {
        OperandForm::Value => push_alone(setting, kind, tree, rows),
        OperandForm::Target => push_alone(setting, kind, tree, rows),
        OperandForm::Address(_) => push_displacement(setting, kind, false, tree, rows),
    }
}

/// The same of any operand.
#[inline(never)]
#[tactic(auto, unfolding(crate::specs::Machine::said_of_text))]
fn push_read(
    alloc: Global,
    setting: &Setting<'_>,
    targets: bool,
    kind: Kind,
    place: Option<Reloc>,
    text: &Text,
    rows: &mut Vec<Row>,
) -> Result<(), OutOfMemory>
    ensures { OnOk result (rows.new.items ≡ rows.old.items ++ once_behind rows.old.items (spec.said_of_text (setting_of setting.now) targets kind place text.now)) }
{
    let operand = MachineOperand::read(alloc, kind, targets, text.as_str())?;
    push_operand(setting, kind, place, &operand, rows)
}

/// The same of an operand as it is written.
fn push_text(
    alloc: Global,
    setting: &Setting<'_>,
    targets: bool,
    kind: Kind,
    place: Option<Reloc>,
    text: &Text,
    rows: &mut Vec<Row>,
) -> Result<(), OutOfMemory>
    ensures { OnOk result (rows.new.items ≡ rows.old.items ++ once_behind rows.old.items (spec.said_of_text (setting_of setting.now) targets kind place text.now)) }
{
    match read_term(kind, text.as_str()) {
        Some(tree) => push_term(setting, targets, kind, text, &tree, rows),
        None => push_read(alloc, setting, targets, kind, place, text, rows),
    }
}

/// The first of some places.
fn first_place(places: &[Option<Reloc>]) -> Option<Reloc>
    ensures { result ≡ spec.first_place places.now }
{
    match places {
        [place, ..] => *place,
        [] => None,
    }
}

/// The places behind the first.
fn other_places(places: &[Option<Reloc>]) -> &[Option<Reloc>]
    ensures { result.now ≡ spec.other_places places.now }
{
    match places {
        [_, others @ ..] => others,
        [] => &[],
    }
}

/// The place of the literal of an operand, if it has one.
fn place_of(text: &Text, places: &[Option<Reloc>]) -> Option<Reloc>
    ensures { result ≡ spec.place_of text.now places.now }
{
    if begins_literal(text.as_str()) {
        return first_place(places);
    }
    None
}

/// The places that are left for the operands behind it.
fn places_behind<'a>(text: &Text, places: &'a [Option<Reloc>]) -> &'a [Option<Reloc>]
    ensures { result.now ≡ spec.places_behind text.now places.now }
{
    if begins_literal(text.as_str()) {
        return other_places(places);
    }
    places
}

/// The first of some kinds.
fn first_of(kinds: &[Kind]) -> Option<Kind>
    ensures { result ≡ spec.first_of kinds.now }
{
    match kinds {
        [kind, ..] => Some(*kind),
        [] => None,
    }
}

/// The kinds behind the first.
fn others_of(kinds: &[Kind]) -> &[Kind]
    ensures { result.now ≡ spec.others_of kinds.now }
{
    match kinds {
        [_, others @ ..] => others,
        [] => &[],
    }
}

/// Says what there is to say of an operand of the first of these kinds.
#[tactic(auto, unfolding(crate::specs::Machine::said_of_next))]
fn push_next(
    alloc: Global,
    setting: &Setting<'_>,
    targets: bool,
    places: &[Option<Reloc>],
    kinds: &[Kind],
    text: &Text,
    rows: &mut Vec<Row>,
) -> Result<(), OutOfMemory>
    ensures { OnOk result (rows.new.items ≡ rows.old.items ++ once_behind rows.old.items (spec.said_of_next (setting_of setting.now) targets places.now kinds.now text.now)) }
{
    let place = place_of(text, places);
    match first_of(kinds) {
        Some(kind) => push_text(alloc, setting, targets, kind, place, text, rows),
        None => Ok(()),
    }
}

/// Says what there is to say of operands of these kinds, in order.
fn push_operands(
    alloc: Global,
    setting: &Setting<'_>,
    targets: bool,
    mut places: &[Option<Reloc>],
    mut kinds: &[Kind],
    texts: &[Text],
    rows: &mut Vec<Row>,
) -> Result<(), OutOfMemory>
    ensures { OnOk result (rows.new.items ≡ rows.old.items ++ once_behind rows.old.items (spec.said_of_operands (setting_of setting.now) targets places.entry.now kinds.entry.now texts.now)) }
{
    for text in texts {
        push_next(alloc, setting, targets, places, kinds, text, rows)?;
        places = places_behind(text, places);
        kinds = others_of(kinds);
    }
    Ok(())
}

/// Whether an instruction lets literals be targets.
fn takes_literal_targets(format: Format) -> bool
    ensures { result ≡ spec.takes_literal_targets format }
{
    match encoding(format) {
        Encoding::Ril => true,
        _ => false,
    }
}

/// Says what there is to say of the operands of a machine instruction, behind what was said of its statement before. The places
/// are those of the literals in its operands, in order; one that was refused has none. An `Err` leaves only some of it said.
#[tactic(auto, unfolding(crate::specs::Machine::said_of_machine))]
pub fn machine_notes(
    alloc: Global,
    setting: &Setting<'_>,
    format: Format,
    places: &[Option<Reloc>],
    texts: &[Text],
    rows: &mut Vec<Row>,
) -> Result<(), OutOfMemory>
    ensures { OnOk result (rows.new.items ≡ rows.old.items ++ once_behind rows.old.items (spec.said_of_machine (setting_of setting.now) format places.now texts.now)) }
{
    match count_note(format, texts.len()) {
        Some(wrong) => push_row(rows, Some(wrong)),
        None => push_operands(
            alloc,
            setting,
            takes_literal_targets(format),
            places,
            operands(format),
            texts,
            rows,
        ),
    }
}
