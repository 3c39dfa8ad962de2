//! The variables of a frame of a point.
ghost use Rattle.std.specs.Prelude.{◌≡◌, ◌<◌, ◌≤◌, Some, length, map, take, slice_get, IfOk};
ghost use Rattle.std.specs.Option.{option_map};
ghost use Rattle.trace_arena.specs.Nodes.{IsLive};
ghost use Rattle.trace_arena.specs.Points.{points};
ghost use Rattle.trace_variables.specs.Values.{global_values};
ghost use Rattle.trace_variables.specs.Seen.{seen};
ghost use Rattle.trace_variables.specs.Variables.{rows_at, variables_of};

use crate::call::level_of;
use crate::done::done_before;
use crate::known::known_by;
use crate::shown::{show_globals, show_locals};
use crate::values::{Values, locals_after, pass_globals};
use hl_base::OutOfMemory;
use std::alloc::Global;
use std::collections::BTreeMap;
use trace_arena::{NodeId, TraceArena};
use trace_cursor::Cursor;
use trace_values::{TraceItem, Variables};

/// The global values before a point, or behind the last one.
pub(crate) fn globals_before(
    alloc: Global,
    arena: &TraceArena<TraceItem>,
    root: NodeId,
    index: u32,
) -> Result<Values, OutOfMemory>
    requires live { IsLive arena.now.nodes root.0 }
    requires inside { index ≤ length (points arena.now.nodes root.0) }
    ensures { IfOk result (λ values. seen values ≡ global_values (map (λ p. p.item) (take index (points arena.now.nodes root.0)))) }
{
    let mut values = BTreeMap::new(alloc);
    let Some(mut cursor) = Cursor::at(arena, root, 0) else {
        return Ok(values);
    };
    for _ in 0..index {
        pass_globals(alloc, &mut values, cursor.item(arena))?;
        let _ = cursor.advance(arena);
    }
    Ok(values)
}

/// The variables of the call of a level, seen from a point that is within it.
fn rows_at(
    alloc: Global,
    arena: &TraceArena<TraceItem>,
    root: NodeId,
    index: u32,
    level: usize,
) -> Result<Variables, OutOfMemory>
    requires live { IsLive arena.now.nodes root.0 }
    requires inside { index < length (points arena.now.nodes root.0) }
    ensures { IfOk result (λ rows. option_map (λ point. rows_at (take index (points arena.now.nodes root.0)) level point.item)
        (slice_get (points arena.now.nodes root.0) index) ≡ Some rows) }
{
    let cursor = Cursor::at(arena, root, index).unwrap();
    let done = done_before(alloc, arena, root, index, level)?;
    let locals = locals_after(alloc, done.as_slice(), cursor.item(arena))?;
    let symbols = known_by(alloc, done.as_slice())?;
    let globals = globals_before(alloc, arena, root, index)?;
    let mut rows = Variables::new(alloc);
    show_locals(alloc, &mut rows, &locals)?;
    show_globals(alloc, &mut rows, &globals, &symbols)?;
    Ok(rows)
}

/// The variables of a frame of a point, as a debugger shows them: the local ones of its call, and then the global ones that
/// the call declared, each in the byte order of their names, then by type, then by element. A scalar that was declared and not
/// set is shown with 0, 0 or the empty text; of an array only what was set. Points are counted from 0, frames from 1, the
/// innermost first; there is no answer exactly where the point has no such frame. It goes past every point before.
pub fn variables_at(
    alloc: Global,
    arena: &TraceArena<TraceItem>,
    root: NodeId,
    index: u32,
    frame: u32,
) -> Result<Option<Variables>, OutOfMemory>
    requires live { IsLive arena.now.nodes root.0 }
    requires inside { index < length (points arena.now.nodes root.0) }
    ensures { IfOk result (λ shown. shown ≡ variables_of (points arena.now.nodes root.0) index frame) }
{
    let Some(level) = level_of(alloc, arena, root, index, frame)? else {
        return Ok(None);
    };
    Ok(Some(rows_at(alloc, arena, root, index, level)?))
}
