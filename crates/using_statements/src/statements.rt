//! USING and DROP as they are written in a program.
ghost use Rattle.std.specs.Prelude.{◌≡◌, ◌++◌, IfOk, OnOk};
ghost use Rattle.std.specs.Option.{option_map};
ghost use Rattle.std.specs.Str.{chars};
ghost use Rattle.expression_notes.specs.Repeating.{once_behind};
ghost use Rattle.ordinary_symbols.specs.Shown.{table_of};
ghost use Rattle.ordinary_symbols.specs.Table.{known};
ghost use Rattle.using_statements.specs.Behind.{behind_drop, behind_using};
ghost use Rattle.using_statements.specs.Said.{said_of_drop, said_of_using};
ghost use Rattle.using_statements.specs.Views.{drop_operands_of, using_operands_of};
ghost use Rattle.using_statements.specs.Written as written;

use crate::written::{DropOperands, UsingOperands};
use crate::{dropping, using};
use hl_base::OutOfMemory;
use note_rows::Row;
use operand_list::split_operands;
use ordinary_symbols::Symbols;
use std::alloc::Global;
use trace_values::Reloc;
use using_ranges::Ranges;

/// Reads a USING, if it can be read.
#[tactic(auto, unfolding(crate::specs::Written::using_of))]
fn read_using(alloc: Global, field: &str) -> Result<Option<UsingOperands>, OutOfMemory>
    ensures { IfOk result (λ found. option_map using_operands_of found ≡ written.using_of (chars field.now)) }
{
    let operands = split_operands(alloc, field)?;
    UsingOperands::read(alloc, operands.as_slice())
}

/// Reads a DROP, if it can be read.
#[tactic(auto, unfolding(crate::specs::Written::drop_of))]
fn read_drop(alloc: Global, field: &str) -> Result<Option<DropOperands>, OutOfMemory>
    ensures { IfOk result (λ found. option_map drop_operands_of found ≡ written.drop_of (chars field.now)) }
{
    let operands = split_operands(alloc, field)?;
    DropOperands::read(alloc, operands.as_slice())
}

/// Says what there is to say of a USING with an operand field that stands at a place, behind what was said of it before, and
/// begins its ranges. An `Err` leaves only some of it said.
#[tactic(auto, unfolding(crate::specs::Said::said_of_using, crate::specs::Behind::behind_using))]
pub fn push_using(
    alloc: Global,
    symbols: &Symbols,
    here: Option<Reloc>,
    field: &str,
    ranges: &mut Ranges,
    rows: &mut Vec<Row>,
) -> Result<(), OutOfMemory>
    ensures said { OnOk result (rows.new.items ≡ rows.old.items ++ once_behind rows.old.items
        (said_of_using (known (table_of symbols.now)) here (chars field.now))) }
    ensures ranges { OnOk result (ranges.new ≡ behind_using (known (table_of symbols.now)) here ranges.old (chars field.now)) }
{
    match read_using(alloc, field)? {
        Some(operands) => {
            using::push_read(symbols, here, &operands, rows)?;
            using::begin(alloc, symbols, here, &operands, ranges)
        }
        None => {
            rows.push(Row::BadUsing)?;
            Ok(())
        }
    }
}

/// Says what there is to say of a DROP with an operand field that stands at a place, behind what was said of it before, and ends
/// the ranges of its registers. An `Err` leaves only some of it said.
#[tactic(auto, unfolding(crate::specs::Said::said_of_drop, crate::specs::Behind::behind_drop))]
pub fn push_drop(
    alloc: Global,
    symbols: &Symbols,
    here: Option<Reloc>,
    field: &str,
    ranges: &mut Ranges,
    rows: &mut Vec<Row>,
) -> Result<(), OutOfMemory>
    ensures said { OnOk result (rows.new.items ≡ rows.old.items ++ once_behind rows.old.items
        (said_of_drop (known (table_of symbols.now)) here ranges.old (chars field.now))) }
    ensures ranges { OnOk result (ranges.new ≡ behind_drop (known (table_of symbols.now)) here ranges.old (chars field.now)) }
{
    match read_drop(alloc, field)? {
        Some(operands) => dropping::push_read(alloc, symbols, here, &operands, ranges, rows),
        None => {
            rows.push(Row::BadUsing)?;
            Ok(())
        }
    }
}
