//! USING, once it is read.
ghost use Rattle.std.specs.Prelude.{◌≡◌, ◌++◌, ◌<◌, Some, IfOk, OnOk};
ghost use Rattle.std.specs.List.{All};
ghost use Rattle.expression_notes.specs.Repeating.{once_behind};
ghost use Rattle.ordinary_symbols.specs.Shown.{table_of};
ghost use Rattle.ordinary_symbols.specs.Table.{known};
ghost use Rattle.using_statements.specs.Behind as behind;
ghost use Rattle.using_statements.specs.Held as held;
ghost use Rattle.using_statements.specs.Said as said;
ghost use Rattle.using_statements.specs.Values.{registers_of};
ghost use Rattle.using_statements.specs.Views.{trees_of, using_operands_of};

use crate::registers::registers_of;
use crate::saying::{push_bounds, push_registers};
use crate::values::{Span, span_of};
use crate::written::UsingOperands;
use constant_grammar::Formula;
use hl_base::OutOfMemory;
use note_rows::Row;
use ordinary_symbols::Symbols;
use std::alloc::Global;
use trace_values::Reloc;
use using_ranges::Ranges;

/// Says what there is to say of a USING that was read.
#[tactic(auto, using(crate::proofs::Turns::using_said))]
pub(crate) fn push_read(
    symbols: &Symbols,
    here: Option<Reloc>,
    operands: &UsingOperands,
    rows: &mut Vec<Row>,
) -> Result<(), OutOfMemory>
    ensures { OnOk result (rows.new.items ≡ rows.old.items ++ once_behind rows.old.items
        (said.said_of_read_using (known (table_of symbols.now)) here (Some (using_operands_of operands.now)))) }
{
    let is_bad = push_bounds(symbols, here, &operands.bounds, rows)?;
    push_registers(symbols, here, operands.registers.as_slice(), is_bad, rows)
}

/// Gives these registers, which are below 16, ranges.
#[tactic(auto, using(crate::proofs::RegisterLists::is_used))]
fn use_these(ranges: &mut Ranges, span: Span, registers: &[u8])
    requires { All (λ r. r < 16) registers.now }
    ensures { ranges.new ≡ held.used ranges.old span.base.section span.base.value span.end registers.now }
{
    ranges.using(span.base, span.end, registers);
}

/// Gives the registers that these expressions are ranges, if each is one.
fn use_named(
    alloc: Global,
    symbols: &Symbols,
    here: Option<Reloc>,
    span: Span,
    formulas: &[Formula],
    ranges: &mut Ranges,
) -> Result<(), OutOfMemory>
    ensures { OnOk result (ranges.new
        ≡ behind.behind_begun ranges.old (Some span) (registers_of (known (table_of symbols.now)) here (trees_of formulas.now))) }
{
    if let Some(registers) = registers_of(alloc, symbols, here, formulas)? {
        use_these(ranges, span, registers.as_slice());
    }
    Ok(())
}

/// Begins the ranges of a USING that was read, where each operand is in order.
pub(crate) fn begin(
    alloc: Global,
    symbols: &Symbols,
    here: Option<Reloc>,
    operands: &UsingOperands,
    ranges: &mut Ranges,
) -> Result<(), OutOfMemory>
    ensures { OnOk result (ranges.new
        ≡ behind.behind_read_using (known (table_of symbols.now)) here ranges.old (Some (using_operands_of operands.now))) }
{
    match span_of(symbols, here, &operands.bounds) {
        Some(span) => use_named(
            alloc,
            symbols,
            here,
            span,
            operands.registers.as_slice(),
            ranges,
        ),
        None => Ok(()),
    }
}
