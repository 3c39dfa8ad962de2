//! The symbols of a program, and its sections.
ghost use Rattle.std.specs.Prelude.{◌≡◌, ◌++◌, ◌<◌, [], length, IfOk, OnOk, slice_get};
ghost use Rattle.std.specs.Option.{option_map_or};
ghost use Rattle.ordinary_symbols.specs.Shown.{table_of};
ghost use Rattle.program_assembly.specs.Views.{layout_view};
ghost use Rattle.trace_arena.specs.Nodes.{IsLive};
ghost use Rattle.trace_arena.specs.Points.{points};
ghost use Rattle.trace_cursor.specs.Stacks.{stack_of};
ghost use Rattle.program_names.specs.Symbols as rules;

use crate::stacks::stack_at;
use crate::statements::{count_of, generated};
use hl_base::{Frames, OutOfMemory};
use ordinary_symbols::Symbols;
use program_assembly::section_layout::{Layout, lay_out};
use std::alloc::Global;
use trace_arena::{NodeId, TraceArena};
use trace_cursor::Cursor;
use trace_values::{Sections, SymbolRow, SymbolRows, TraceItem};

/// The symbols of a program, each with the stack of its statement, and the sections.
#[derive(Drop)]
pub(crate) struct Defined {
    pub(crate) rows: SymbolRows,
    pub(crate) sections: Sections,
}

/// A symbol with this stack.
fn row_at(alloc: Global, row: &SymbolRow, stack: &Frames) -> Result<SymbolRow, OutOfMemory>
    ensures { IfOk result (λ r. r ≡ record row.now { stack = stack.now }) }
{
    Ok(SymbolRow {
        name: row.name.copy(),
        value: row.value,
        attr: row.attr,
        stack: stack.copy(alloc)?,
    })
}

/// Adds the symbols from one place up to another, each with this stack.
fn add_rows(
    alloc: Global,
    symbols: &Symbols,
    stack: &Frames,
    before: usize,
    behind: usize,
    rows: &mut SymbolRows,
) -> Result<(), OutOfMemory>
    ensures { OnOk result (rows.new ≡ rows.old ++ rules.rows_between (table_of symbols.now) stack.now before behind) }
{
    for at in before..behind {
        let Some(row) = symbols.row(at) else {
            return Ok(());
        };
        let row = row_at(alloc, row, stack)?;
        rows.push(row)?;
    }
    Ok(())
}

/// How many symbols there are behind a point that so many statements precede.
fn symbols_behind(layout: &Layout, number: u32, before: usize, item: &TraceItem) -> usize
    ensures { result ≡ rules.symbols_behind (rules.statement_of (layout_view layout.now) number item.now.line) before }
{
    if item.line.is_none() {
        return before;
    }
    match layout.statements.get(number as usize) {
        Some(statement) => statement.symbols,
        None => before,
    }
}

/// Adds the symbols that the point of a number defines.
fn add_rows_of(
    alloc: Global,
    arena: &TraceArena<TraceItem>,
    root: NodeId,
    index: u32,
    symbols: &Symbols,
    before: usize,
    behind: usize,
    rows: &mut SymbolRows,
) -> Result<(), OutOfMemory>
    requires live { IsLive arena.now.nodes root.0 }
    requires inside { index < length (points arena.now.nodes root.0) }
    ensures { OnOk result (rows.new ≡ rows.old
        ++ option_map_or (λ point. rules.rows_between (table_of symbols.now) (stack_of point) before behind)
        (slice_get (points arena.now.nodes root.0) index) []) }
{
    if behind <= before {
        return Ok(());
    }
    let stack = stack_at(alloc, arena, root, index)?;
    add_rows(alloc, symbols, &stack, before, behind, rows)
}

/// The symbols of the points of a root, whose statements are laid out so.
fn rows_in(
    alloc: Global,
    arena: &TraceArena<TraceItem>,
    root: NodeId,
    layout: &Layout,
) -> Result<SymbolRows, OutOfMemory>
    requires live { IsLive arena.now.nodes root.0 }
    ensures { IfOk result (λ rows. rows ≡ rules.rows_from (layout_view layout.now) 0 0 (points arena.now.nodes root.0)) }
{
    let mut rows = SymbolRows::new(alloc);
    let Some(mut cursor) = Cursor::at(arena, root, 0) else {
        return Ok(rows);
    };
    let mut statements = 0;
    let mut before = 0;
    for index in 0..arena.points(root) {
        let item = cursor.item(arena);
        let behind = symbols_behind(layout, statements, before, item);
        add_rows_of(
            alloc,
            arena,
            root,
            index,
            &layout.symbols,
            before,
            behind,
            &mut rows,
        )?;
        statements += count_of(item);
        before = behind;
        let _ = cursor.advance(arena);
    }
    Ok(rows)
}

/// The symbols that the points of a root define, and the sections.
pub(crate) fn symbols_of(
    alloc: Global,
    arena: &TraceArena<TraceItem>,
    root: NodeId,
) -> Result<Defined, OutOfMemory>
    requires live { IsLive arena.now.nodes root.0 }
    ensures rows { IfOk result (λ defined. defined.rows ≡ rules.rows_of (points arena.now.nodes root.0)) }
    ensures sections { IfOk result (λ defined. defined.sections ≡ rules.sections_of (points arena.now.nodes root.0)) }
{
    let lines = generated(alloc, arena, root)?;
    let layout = lay_out(alloc, &lines)?;
    let rows = rows_in(alloc, arena, root, &layout)?;
    let Layout {
        statements: _,
        sections,
        literals: _,
        symbols: _,
    } = layout;
    Ok(Defined { rows, sections })
}
