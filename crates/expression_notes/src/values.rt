//! Values that are wanted, and expressions that have none.
ghost use Rattle.std.specs.Prelude.{◌≡◌, ◌≤◌, ◌++◌, OnOk};
ghost use Rattle.expression_grammar.specs.Spelling.{most_parts};
ghost use Rattle.expression_grammar.specs.Trees.{size};
ghost use Rattle.expression_grammar.specs.Views.{tree_of};
ghost use Rattle.ordinary_symbols.specs.Shown.{table_of};
ghost use Rattle.ordinary_symbols.specs.Table.{known};
ghost use Rattle.expression_notes.specs.Expressions as spec;
ghost use Rattle.expression_notes.specs.Repeating.{once_behind};

use crate::symbols::push_undefined;
use expression_grammar::Expr;
use hl_base::OutOfMemory;
use note_rows::Row;
use ordinary_symbols::{EvalFault, Symbols};
use trace_values::{Reloc, SectionId};

/// What an expression is wanted for.
#[derive(Clone, Copy, Debug, PartialEq, Eq)]
pub enum Wanted {
    /// Any value: an absolute number, or a place in a section.
    Value,
    /// An absolute number.
    Number,
}

/// What is said of a value in this section, or in none.
fn section_row(wanted: Wanted, section: Option<SectionId>) -> Option<Row>
    ensures { result ≡ spec.said_of_section wanted section }
{
    match wanted {
        Wanted::Value => None,
        Wanted::Number => match section {
            Some(_) => Some(Row::NotSimple),
            None => None,
        },
    }
}

/// What is said of the value of an expression, or of why it has none; nothing where that is an unknown symbol.
pub fn value_row(wanted: Wanted, value: &Result<Reloc, EvalFault>) -> Option<Row>
    ensures { result ≡ spec.said_of_value wanted value.now }
{
    match value {
        Ok(value) => section_row(wanted, value.section),
        Err(EvalFault::Undefined(_)) => None,
        Err(EvalFault::NotSimple | EvalFault::Overflow) => Some(Row::NotSimple),
    }
}

/// Adds a row, if there is one.
pub fn push_row(rows: &mut Vec<Row>, row: Option<Row>) -> Result<(), OutOfMemory>
    ensures { OnOk result (rows.new.items ≡ rows.old.items ++ spec.listed row) }
{
    if let Some(row) = row {
        rows.push(row)?;
    }
    Ok(())
}

/// Says what there is to say of an expression that stands at a place, behind what was said of its statement before. An `Err`
/// leaves only some of it said. Any expression that `parse_ordinary` gives is small enough.
pub fn push_expression(
    symbols: &Symbols,
    e: &Expr,
    here: Option<Reloc>,
    wanted: Wanted,
    rows: &mut Vec<Row>,
) -> Result<(), OutOfMemory>
    requires { size (tree_of e.now) ≤ most_parts }
    ensures { OnOk result (rows.new.items ≡ rows.old.items ++ once_behind rows.old.items (spec.said_of (known (table_of symbols.now)) here wanted (tree_of e.now))) }
{
    push_row(rows, value_row(wanted, &symbols.eval(e, here)))?;
    push_undefined(symbols, e, rows)
}
