//! The statements that a run generated.
ghost use Rattle.std.specs.Prelude.{◌≡◌, ◌≤◌, ◌++◌, length, IfOk, OnOk};
ghost use Rattle.trace_arena.specs.Nodes.{IsLive};
ghost use Rattle.trace_arena.specs.Points.{points};
ghost use Rattle.program_assembly.specs.Views.{lines_of};
ghost use Rattle.program_assembly.specs.Statements.{generated, line_in};

use hl_base::{Line, OutOfMemory};
use std::alloc::Global;
use trace_arena::{NodeId, TraceArena};
use trace_cursor::Cursor;
use trace_values::TraceItem;

/// How many statements an item generated: one or none.
pub(crate) fn count_of(item: &TraceItem) -> u32
    ensures count { result ≡ length (line_in item.now.line) }
    ensures few { result ≤ 1 }
{
    match &item.line {
        Some(_) => 1,
        None => 0,
    }
}

/// Adds the statement that an item has, if it generated one.
fn add_line<'a>(lines: &mut Vec<&'a Line>, item: &'a TraceItem) -> Result<(), OutOfMemory>
    ensures { OnOk result (lines_of lines.new.items ≡ lines_of lines.old.items ++ line_in item.now.line) }
{
    if let Some(line) = &item.line {
        lines.push(line)?;
    }
    Ok(())
}

/// The statements that the points of a root generated, in turn.
pub(crate) fn generated<'a>(
    alloc: Global,
    arena: &'a TraceArena<TraceItem>,
    root: NodeId,
) -> Result<Vec<&'a Line>, OutOfMemory>
    requires live { IsLive arena.now.nodes root.0 }
    ensures { IfOk result (λ lines. lines_of lines.items ≡ generated (points arena.now.nodes root.0)) }
{
    let mut lines: Vec<&'a Line> = Vec::new(alloc);
    let Some(mut cursor) = Cursor::at(arena, root, 0) else {
        return Ok(lines);
    };
    for _ in 0..arena.points(root) {
        add_line(&mut lines, cursor.item(arena))?;
        let _ = cursor.advance(arena);
    }
    Ok(lines)
}
