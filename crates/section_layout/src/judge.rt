//! Statements once all symbols are known.
ghost use Rattle.std.specs.Prelude.{◌≡◌, map, OnOk};
ghost use Rattle.ordinary_symbols.specs.Shown.{table_of};
ghost use Rattle.section_layout.specs.Layout as spec;
ghost use Rattle.section_layout.specs.Views.{met_of, statement_of};

use crate::StatementLayout;
use crate::rows::{push_equate, push_left};
use hl_base::OutOfMemory;
use ordinary_symbols::Symbols;

/// A statement is judged when these symbols are known: behind what was said of its place, all else is said of it.
#[tactic(auto, unfolding(crate::specs::Layout::judged, crate::specs::Rows::rows))]
fn judge(symbols: &Symbols, one: &mut StatementLayout) -> Result<(), OutOfMemory>
    ensures { OnOk result (statement_of one.new ≡ spec.judged (table_of symbols.now) (met_of one.old)) }
{
    one.rows.append(&mut one.said_of_symbols)?;
    push_equate(symbols, &one.left, &mut one.rows)?;
    push_left(symbols, one.here, &one.left, &mut one.rows)
}

/// The same of all statements. Each stays where it is.
pub(crate) fn judge_all(symbols: &Symbols, all: &mut [StatementLayout]) -> Result<(), OutOfMemory>
    ensures { OnOk result (map statement_of all.new ≡ map (spec.judged (table_of symbols.now)) (map met_of all.old)) }
{
    for one in all.iter_mut() {
        judge(symbols, one)?;
    }
    Ok(())
}
