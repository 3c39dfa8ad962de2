//! The statements of a program, in order.
ghost use Rattle.std.specs.Prelude.{◌≡◌, map, OnOk};
ghost use Rattle.literal_places.specs.Shown.{literals_of};
ghost use Rattle.ordinary_symbols.specs.Shown.{table_of};
ghost use Rattle.ordinary_symbols.specs.Table.{known};
ghost use Rattle.section_layout.specs.Views.{layout_view, lines_of, statement_of};
ghost use Rattle.using_statements.specs.Held.{no_ranges};
ghost use Rattle.statement_checks.specs.Programs as spec;

use crate::statement::check_statement;
use hl_base::{Line, OutOfMemory};
use literal_places::Literals;
use ordinary_symbols::Symbols;
use section_layout::{Layout, StatementLayout};
use std::alloc::Global;
use using_ranges::Ranges;

/// Checks each of some statements, in turn.
fn check_all(
    alloc: Global,
    symbols: &Symbols,
    literals: &Literals,
    ranges: &mut Ranges,
    lines: &[&Line],
    statements: &mut [StatementLayout],
) -> Result<(), OutOfMemory>
    ensures { OnOk result (map statement_of statements.new
        ≡ spec.all_checked (known (table_of symbols.now)) (literals_of literals.now) ranges.old (lines_of lines.now) (map statement_of statements.old)) }
{
    for (number, statement) in statements.iter_mut().enumerate() {
        let Some(line) = lines.get(number) else {
            return Ok(());
        };
        check_statement(alloc, symbols, literals, ranges, line, statement)?;
    }
    Ok(())
}

/// No register has a range.
fn no_ranges() -> Ranges
    ensures { result ≡ no_ranges }
{
    Ranges::new()
}

/// Adds what the checks say of each statement to what its layout says: the statements of these lines, in order, with no range in
/// force before the first. An `Err` leaves only some of it said.
#[tactic(auto, unfolding(crate::specs::Programs::checked))]
pub fn check_statements(
    alloc: Global,
    lines: &[&Line],
    layout: &mut Layout,
) -> Result<(), OutOfMemory>
    ensures { OnOk result (layout_view layout.new ≡ spec.checked (lines_of lines.now) (layout_view layout.old)) }
{
    let mut ranges = no_ranges();
    check_all(
        alloc,
        &layout.symbols,
        &layout.literals,
        &mut ranges,
        lines,
        layout.statements.as_mut_slice(),
    )
}
