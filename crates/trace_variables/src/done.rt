//! What a call had done before a point.
ghost use Rattle.std.specs.Prelude.{◌≡◌, ◌≤◌, length, map, take, IfOk, OnOk};
ghost use Rattle.trace_arena.specs.Nodes.{IsLive};
ghost use Rattle.trace_arena.specs.Points.{points};
ghost use Rattle.trace_variables.specs.Calls.{done_before};
ghost use Rattle.trace_variables.specs.Seen.{done_with};

use hl_base::OutOfMemory;
use std::alloc::Global;
use trace_arena::{NodeId, TraceArena};
use trace_cursor::Cursor;
use trace_values::TraceItem;

/// Goes past a point that is within so many calls, with its item.
fn pass<'a>(
    done: &mut Vec<&'a TraceItem>,
    level: usize,
    calls: usize,
    item: &'a TraceItem,
) -> Result<(), OutOfMemory>
    ensures { OnOk result (map (λ i. i.now) done.new.items ≡ done_with level calls item.now (map (λ i. i.now) done.old.items)) }
{
    if calls < level {
        done.clear();
    }
    if calls == level {
        done.push(item)?;
    }
    Ok(())
}

/// The items of the call of a level that stand before a point which is within it, in order.
pub(crate) fn done_before<'a>(
    alloc: Global,
    arena: &'a TraceArena<TraceItem>,
    root: NodeId,
    index: u32,
    level: usize,
) -> Result<Vec<&'a TraceItem>, OutOfMemory>
    requires live { IsLive arena.now.nodes root.0 }
    requires inside { index ≤ length (points arena.now.nodes root.0) }
    ensures { IfOk result (λ done. map (λ i. i.now) done.items ≡ done_before level (take index (points arena.now.nodes root.0))) }
{
    let mut done = Vec::new(alloc);
    let Some(mut cursor) = Cursor::at(arena, root, 0) else {
        return Ok(done);
    };
    for _ in 0..index {
        pass(
            &mut done,
            level,
            cursor.calls() as usize,
            cursor.item(arena),
        )?;
        let _ = cursor.advance(arena);
    }
    Ok(done)
}
