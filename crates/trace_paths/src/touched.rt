//! The files that a run touches.
ghost use Rattle.std.specs.Prelude.{◌≡◌, [], IfOk, OnOk};
ghost use Rattle.std.specs.List.{flat_map};
ghost use Rattle.std.specs.List.Sorted.{IsStrictlySortedBy};
ghost use Rattle.std.specs.Ordering.{nat_cmp};
ghost use Rattle.std.specs.BTreeSet.{insert_key};
ghost use Rattle.trace_arena.specs.Nodes.{IsLive};
ghost use Rattle.trace_arena.specs.Points.{points};
ghost use Rattle.trace_paths.specs.Touched.{AreTouched, numbers};
ghost use Rattle.trace_paths.specs.Touching.{call_paths, own_paths, with_paths};

use crate::PathIds;
use hl_base::{OutOfMemory, PathId};
use std::alloc::Global;
use std::collections::BTreeSet;
use trace_arena::{NodeId, TraceArena};
use trace_cursor::Cursor;
use trace_values::{OwnFrames, TraceItem};

/// A path is met.
fn touch(met: &mut BTreeSet<u32>, path: PathId) -> Result<(), OutOfMemory>
    ensures { OnOk result (met.new.keys ≡ insert_key nat_cmp met.old.keys path.0) }
{
    met.insert(path.0)?;
    Ok(())
}

/// The paths of the frames of a call are met.
fn touch_call(met: &mut BTreeSet<u32>, frames: &OwnFrames) -> Result<(), OutOfMemory>
    ensures { OnOk result (met.new.keys ≡ with_paths met.old.keys (call_paths frames.now)) }
{
    for frame in frames.outer() {
        touch(met, frame.origin.path)?;
    }
    touch(met, frames.origin().path)
}

/// The paths of the own frames of all points of a root. A point's other frames are those of the items behind which its nodes
/// are linked, which are items of other points.
fn met_paths(
    alloc: Global,
    arena: &TraceArena<TraceItem>,
    root: NodeId,
) -> Result<BTreeSet<u32>, OutOfMemory>
    requires live { IsLive arena.now.nodes root.0 }
    ensures { IfOk result (λ met. met.keys ≡ with_paths [] (flat_map own_paths (points arena.now.nodes root.0))) }
{
    let mut met = BTreeSet::new(alloc);
    let Some(mut cursor) = Cursor::at(arena, root, 0) else {
        return Ok(met);
    };
    for _ in 0..arena.points(root) {
        touch_call(&mut met, &cursor.item(arena).frames)?;
        let _ = cursor.advance(arena);
    }
    Ok(met)
}

/// Paths in a list.
fn listed(alloc: Global, met: &BTreeSet<u32>) -> Result<PathIds, OutOfMemory>
    ensures paths { IfOk result (λ paths. numbers paths ≡ met.now.keys) }
    ensures rising { IsStrictlySortedBy nat_cmp met.now.keys }
{
    let mut paths = PathIds::new(alloc);
    for path in met {
        paths.push(PathId(*path))?;
    }
    Ok(paths)
}

/// The paths that the points of a root touch: that of each of their frames, once, in the order of their numbers.
pub fn touched_paths(
    alloc: Global,
    arena: &TraceArena<TraceItem>,
    root: NodeId,
) -> Result<PathIds, OutOfMemory>
    requires live { IsLive arena.now.nodes root.0 }
    ensures { IfOk result (λ paths. AreTouched (points arena.now.nodes root.0) paths) }
{
    let met = met_paths(alloc, arena, root)?;
    listed(alloc, &met)
}
