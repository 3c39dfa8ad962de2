//! What is said of bounds and registers.
ghost use Rattle.std.specs.Prelude.{◌≡◌, ◌++◌, ◌&&◌, ◌||◌, not, IfOk, OnOk};
ghost use Rattle.std.specs.List.{list_any};
ghost use Rattle.constant_grammar.specs.Views.{tree_in};
ghost use Rattle.expression_notes.specs.Expressions.{listed};
ghost use Rattle.expression_notes.specs.Repeating.{once_behind};
ghost use Rattle.ordinary_symbols.specs.Shown.{table_of};
ghost use Rattle.ordinary_symbols.specs.Table.{known};
ghost use Rattle.using_statements.specs.Said as spec;
ghost use Rattle.using_statements.specs.Views.{bounds_of, trees_of};

use crate::values::{may_end, register_of};
use crate::written::Bounds;
use constant_grammar::Formula;
use expression_notes::{Wanted, push_expression, push_row};
use hl_base::OutOfMemory;
use note_rows::Row;
use ordinary_symbols::{EvalFault, Symbols};
use trace_values::{Reloc, SectionId};

/// Whether a base and an end have values of which the one cannot be the end of the other.
fn is_bad_pair(base: &Result<Reloc, EvalFault>, end: &Result<Reloc, EvalFault>) -> bool
    ensures { result ≡ spec.is_bad_pair base.now end.now }
{
    match (base, end) {
        (Ok(base), Ok(end)) => !may_end(*base, *end),
        (Ok(_), Err(_)) | (Err(_), _) => false,
    }
}

/// Whether a value is an absolute number that is no register.
fn is_no_register(value: &Result<Reloc, EvalFault>) -> bool
    ensures { result ≡ spec.is_no_register value.now }
{
    match value {
        Ok(found) => found.section.is_none() && register_of(value).is_none(),
        Err(_) => false,
    }
}

/// Says that the statement cannot be read, where this is so and was not said before. The result is whether it is said now.
fn push_bad(is_said: bool, is_bad: bool, rows: &mut Vec<Row>) -> Result<bool, OutOfMemory>
    ensures said { OnOk result (rows.new.items ≡ rows.old.items ++ once_behind rows.old.items (spec.bad_if (is_bad && not is_said))) }
    ensures bad { IfOk result (λ said. said ≡ (is_said || is_bad)) }
{
    if is_bad && !is_said {
        rows.push(Row::BadUsing)?;
    }
    Ok(is_said || is_bad)
}

/// Says what there is to say of an end, and of it and its base. The result is whether the statement cannot be read.
#[tactic(auto, using(crate::proofs::Turns::end_said, crate::proofs::Turns::end_flag))]
fn push_end(
    symbols: &Symbols,
    here: Option<Reloc>,
    start: &Formula,
    end: &Formula,
    rows: &mut Vec<Row>,
) -> Result<bool, OutOfMemory>
    ensures said { OnOk result (rows.new.items ≡ rows.old.items ++ once_behind rows.old.items
        (spec.said_of_end (known (table_of symbols.now)) here (tree_in start.now) (tree_in end.now))) }
    ensures bad { IfOk result (λ bad. bad ≡ list_any spec.is_bad
        (spec.said_of_end (known (table_of symbols.now)) here (tree_in start.now) (tree_in end.now))) }
{
    push_expression(symbols, &end.tree, here, Wanted::Value, rows)?;
    let base = symbols.eval(&start.tree, here);
    let end = symbols.eval(&end.tree, here);
    push_bad(false, is_bad_pair(&base, &end), rows)
}

/// The same of an end, if there is one.
fn push_end_in(
    symbols: &Symbols,
    here: Option<Reloc>,
    bounds: &Bounds,
    rows: &mut Vec<Row>,
) -> Result<bool, OutOfMemory>
    ensures said { OnOk result (rows.new.items ≡ rows.old.items ++ once_behind rows.old.items
        (spec.said_of_end_in (known (table_of symbols.now)) here (bounds_of bounds.now).start (bounds_of bounds.now).end)) }
    ensures bad { IfOk result (λ bad. bad ≡ list_any spec.is_bad
        (spec.said_of_end_in (known (table_of symbols.now)) here (bounds_of bounds.now).start (bounds_of bounds.now).end)) }
{
    match &bounds.end {
        Some(end) => push_end(symbols, here, &bounds.start, end, rows),
        None => Ok(false),
    }
}

/// Says what there is to say of bounds. The result is whether the statement cannot be read.
#[tactic(auto, using(crate::proofs::Turns::bounds_said, crate::proofs::Turns::bounds_flag))]
pub(crate) fn push_bounds(
    symbols: &Symbols,
    here: Option<Reloc>,
    bounds: &Bounds,
    rows: &mut Vec<Row>,
) -> Result<bool, OutOfMemory>
    ensures said { OnOk result (rows.new.items ≡ rows.old.items ++ once_behind rows.old.items
        (spec.said_of_bounds (known (table_of symbols.now)) here (bounds_of bounds.now))) }
    ensures bad { IfOk result (λ bad. bad ≡ list_any spec.is_bad
        (spec.said_of_bounds (known (table_of symbols.now)) here (bounds_of bounds.now))) }
{
    push_expression(symbols, &bounds.start.tree, here, Wanted::Value, rows)?;
    push_end_in(symbols, here, bounds, rows)
}

/// Says what there is to say of a register, where it is said already or not yet that the statement cannot be read. The result is
/// whether it is said now.
#[tactic(auto, using(crate::proofs::Turns::register_said, crate::proofs::Turns::register_flag))]
fn push_register(
    symbols: &Symbols,
    here: Option<Reloc>,
    formula: &Formula,
    is_bad: bool,
    rows: &mut Vec<Row>,
) -> Result<bool, OutOfMemory>
    ensures said { OnOk result (rows.new.items ≡ rows.old.items ++ once_behind rows.old.items
        (spec.bad_left is_bad (spec.said_of_register (known (table_of symbols.now)) here (tree_in formula.now)))) }
    ensures bad { IfOk result (λ bad. bad ≡ (is_bad || list_any spec.is_bad
        (spec.said_of_register (known (table_of symbols.now)) here (tree_in formula.now)))) }
{
    push_expression(symbols, &formula.tree, here, Wanted::Number, rows)?;
    let found = symbols.eval(&formula.tree, here);
    push_bad(is_bad, is_no_register(&found), rows)
}

/// The same of some registers, in order.
pub(crate) fn push_registers(
    symbols: &Symbols,
    here: Option<Reloc>,
    formulas: &[Formula],
    mut is_bad: bool,
    rows: &mut Vec<Row>,
) -> Result<(), OutOfMemory>
    ensures { OnOk result (rows.new.items ≡ rows.old.items ++ once_behind rows.old.items
        (spec.bad_left is_bad (spec.said_of_registers (known (table_of symbols.now)) here (trees_of formulas.now)))) }
{
    for formula in formulas {
        is_bad = push_register(symbols, here, formula, is_bad, rows)?;
    }
    Ok(())
}
