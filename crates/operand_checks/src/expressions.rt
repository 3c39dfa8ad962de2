//! Expressions of operands.
ghost use Rattle.std.specs.Prelude.{◌≡◌, ◌≤◌, ◌++◌, OnOk};
ghost use Rattle.constant_grammar.specs.Views.{tree_if};
ghost use Rattle.expression_grammar.specs.Spelling.{most_parts};
ghost use Rattle.expression_grammar.specs.Trees.{size};
ghost use Rattle.expression_grammar.specs.Views.{tree_of};
ghost use Rattle.expression_notes.specs.Repeating.{once_behind};
ghost use Rattle.operand_checks.specs.Expressions as spec;
ghost use Rattle.operand_checks.specs.Settings.{setting_of};
ghost use Rattle.ordinary_symbols.specs.Values as values;

use crate::Setting;
use constant_grammar::Formula;
use expression_grammar::Expr;
use expression_notes::{Wanted, push_expression, push_row};
use hl_base::OutOfMemory;
use instruction_table::Kind;
use machine_check::{target_note, value_note};
use note_rows::Row;
use ordinary_symbols::EvalFault;
use trace_values::Reloc;

/// The value of an expression, where the statement stands.
pub(crate) fn value_of(setting: &Setting<'_>, tree: &Expr) -> Result<Reloc, EvalFault>
    requires { size (tree_of tree.now) ≤ most_parts }
    ensures { result ≡ values.value (setting_of setting.now).known (setting_of setting.now).here (tree_of tree.now) }
{
    setting.symbols.eval(tree, setting.here)
}

/// Says why an expression has no value.
#[tactic(auto, unfolding(crate::specs::Expressions::said_of_fault))]
pub(crate) fn push_fault(
    setting: &Setting<'_>,
    tree: &Expr,
    rows: &mut Vec<Row>,
) -> Result<(), OutOfMemory>
    requires { size (tree_of tree.now) ≤ most_parts }
    ensures { OnOk result (rows.new.items ≡ rows.old.items ++ once_behind rows.old.items (spec.said_of_fault (setting_of setting.now) (tree_of tree.now))) }
{
    push_expression(setting.symbols, tree, setting.here, Wanted::Value, rows)
}

/// Says what there is to say of a register, a mask, an immediate value or a length.
pub(crate) fn push_value(
    setting: &Setting<'_>,
    kind: Kind,
    tree: &Expr,
    rows: &mut Vec<Row>,
) -> Result<(), OutOfMemory>
    requires { size (tree_of tree.now) ≤ most_parts }
    ensures { OnOk result (rows.new.items ≡ rows.old.items ++ once_behind rows.old.items (spec.said_of_value (setting_of setting.now) kind (tree_of tree.now))) }
{
    match value_of(setting, tree) {
        Ok(place) => push_row(rows, value_note(kind, Ok(place))),
        Err(_) => push_fault(setting, tree, rows),
    }
}

/// The same of one that may be left away.
pub(crate) fn push_part(
    setting: &Setting<'_>,
    kind: Kind,
    part: &Option<Formula>,
    rows: &mut Vec<Row>,
) -> Result<(), OutOfMemory>
    ensures { OnOk result (rows.new.items ≡ rows.old.items ++ once_behind rows.old.items (spec.said_of_part (setting_of setting.now) kind (tree_if part.now))) }
{
    match part {
        Some(formula) => push_value(setting, kind, &formula.tree, rows),
        None => Ok(()),
    }
}

/// What is said of a relative target of an instruction that has a place or none.
fn target_note_from(here: Option<Reloc>, place: Reloc) -> Option<Row>
    ensures { result ≡ spec.said_of_target_from here place }
{
    match here {
        Some(here) => target_note(here, Ok(place)),
        None => None,
    }
}

/// Says what there is to say of a relative target.
fn push_target(setting: &Setting<'_>, tree: &Expr, rows: &mut Vec<Row>) -> Result<(), OutOfMemory>
    requires { size (tree_of tree.now) ≤ most_parts }
    ensures { OnOk result (rows.new.items ≡ rows.old.items ++ once_behind rows.old.items (spec.said_of_target (setting_of setting.now) (tree_of tree.now))) }
{
    match value_of(setting, tree) {
        Ok(place) => push_row(rows, target_note_from(setting.here, place)),
        Err(_) => push_fault(setting, tree, rows),
    }
}

/// Says what there is to say of an expression that is an operand of this kind.
pub(crate) fn push_alone(
    setting: &Setting<'_>,
    kind: Kind,
    tree: &Expr,
    rows: &mut Vec<Row>,
) -> Result<(), OutOfMemory>
    requires { size (tree_of tree.now) ≤ most_parts }
    ensures { OnOk result (rows.new.items ≡ rows.old.items ++ once_behind rows.old.items (spec.said_of_alone (setting_of setting.now) kind (tree_of tree.now))) }
{
    match kind {
        Kind::Target => push_target(setting, tree, rows),
        _ => push_value(setting, kind, tree, rows),
    }
}
