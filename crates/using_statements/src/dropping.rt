//! DROP, once it is read.
ghost use Rattle.std.specs.Prelude.{◌≡◌, ◌++◌, ◌&&◌, ◌<◌, Some, OnOk};
ghost use Rattle.std.specs.List.{All};
ghost use Rattle.expression_notes.specs.Repeating.{once_behind};
ghost use Rattle.ordinary_symbols.specs.Shown.{table_of};
ghost use Rattle.ordinary_symbols.specs.Table.{known};
ghost use Rattle.using_ranges.specs.Ranges.{is_among, is_unused, mask_of};
ghost use Rattle.using_statements.specs.Behind as behind;
ghost use Rattle.using_statements.specs.Held as held;
ghost use Rattle.using_statements.specs.Said as said;
ghost use Rattle.using_statements.specs.Values.{registers_of};
ghost use Rattle.using_statements.specs.Views.{drop_operands_of, trees_of};

use crate::registers::registers_of;
use crate::saying::push_registers;
use crate::unused::push_marked;
use crate::written::DropOperands;
use constant_grammar::Formula;
use hl_base::OutOfMemory;
use note_rows::Row;
use ordinary_symbols::Symbols;
use std::alloc::Global;
use trace_values::Reloc;
use using_ranges::{REGISTERS, Ranges};

/// The numbers of all registers.
const ALL_REGISTERS: [u8; REGISTERS] = [0, 1, 2, 3, 4, 5, 6, 7, 8, 9, 10, 11, 12, 13, 14, 15];

/// Ends the ranges of all registers.
#[tactic(auto, using(crate::proofs::RegisterLists::is_dropped))]
fn drop_all(ranges: &mut Ranges)
    ensures { ranges.new ≡ held.dropped ranges.old held.all_registers }
{
    let _ = ranges.drop_regs(&ALL_REGISTERS);
}

/// Ends the ranges of these registers, which are below 16. The result marks those of them that had none.
#[tactic(auto, using(crate::proofs::RegisterLists::is_dropped))]
fn drop_these(ranges: &mut Ranges, registers: &[u8]) -> u16
    requires { All (λ r. r < 16) registers.now }
    ensures ranges { ranges.new ≡ held.dropped ranges.old registers.now }
    ensures unused { result ≡ mask_of (λ r. is_among r registers.now && is_unused ranges.old r) 16 }
{
    ranges.drop_regs(registers)
}

/// Ends the ranges of these registers, which are below 16, and says which of them had none.
fn drop_known(ranges: &mut Ranges, registers: &[u8], rows: &mut Vec<Row>) -> Result<(), OutOfMemory>
    requires { All (λ r. r < 16) registers.now }
    ensures said { OnOk result (rows.new.items ≡ rows.old.items ++ said.said_of_unused ranges.old registers.now) }
    ensures ranges { ranges.new ≡ held.dropped ranges.old registers.now }
{
    let unused = drop_these(ranges, registers);
    push_marked(unused, registers, rows)
}

/// Ends the ranges of the registers that these expressions are, if each is one.
fn drop_named(
    alloc: Global,
    symbols: &Symbols,
    here: Option<Reloc>,
    formulas: &[Formula],
    ranges: &mut Ranges,
    rows: &mut Vec<Row>,
) -> Result<(), OutOfMemory>
    ensures said { OnOk result (rows.new.items ≡ rows.old.items
        ++ said.said_of_dropped ranges.old (registers_of (known (table_of symbols.now)) here (trees_of formulas.now))) }
    ensures ranges { OnOk result (ranges.new
        ≡ behind.behind_dropped ranges.old (registers_of (known (table_of symbols.now)) here (trees_of formulas.now))) }
{
    match registers_of(alloc, symbols, here, formulas)? {
        Some(registers) => drop_known(ranges, registers.as_slice(), rows),
        None => Ok(()),
    }
}

/// Says what there is to say of registers that are dropped, and ends their ranges, where each operand is in order.
#[tactic(auto, using(crate::proofs::Turns::dropped_said))]
fn push_named(
    alloc: Global,
    symbols: &Symbols,
    here: Option<Reloc>,
    formulas: &[Formula],
    ranges: &mut Ranges,
    rows: &mut Vec<Row>,
) -> Result<(), OutOfMemory>
    ensures said { OnOk result (rows.new.items ≡ rows.old.items ++ once_behind rows.old.items
        (said.bad_once (said.said_of_registers (known (table_of symbols.now)) here (trees_of formulas.now))
        ++ said.said_of_dropped ranges.old (registers_of (known (table_of symbols.now)) here (trees_of formulas.now)))) }
    ensures ranges { OnOk result (ranges.new
        ≡ behind.behind_dropped ranges.old (registers_of (known (table_of symbols.now)) here (trees_of formulas.now))) }
{
    push_registers(symbols, here, formulas, false, rows)?;
    drop_named(alloc, symbols, here, formulas, ranges, rows)
}

/// The same of a DROP that was read.
pub(crate) fn push_read(
    alloc: Global,
    symbols: &Symbols,
    here: Option<Reloc>,
    operands: &DropOperands,
    ranges: &mut Ranges,
    rows: &mut Vec<Row>,
) -> Result<(), OutOfMemory>
    ensures said { OnOk result (rows.new.items ≡ rows.old.items ++ once_behind rows.old.items
        (said.said_of_read_drop (known (table_of symbols.now)) here ranges.old (Some (drop_operands_of operands.now)))) }
    ensures ranges { OnOk result (ranges.new
        ≡ behind.behind_read_drop (known (table_of symbols.now)) here ranges.old (Some (drop_operands_of operands.now))) }
{
    match operands {
        DropOperands::Everything => {
            drop_all(ranges);
            Ok(())
        }
        DropOperands::Named(formulas) => {
            push_named(alloc, symbols, here, formulas.as_slice(), ranges, rows)
        }
    }
}
