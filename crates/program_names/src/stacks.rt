//! The whole stack of a point.
ghost use Rattle.std.specs.Prelude.{◌≡◌, ◌<◌, length, IfOk, slice_get, Some};
ghost use Rattle.std.specs.List.{flat_map};
ghost use Rattle.trace_arena.specs.Nodes.{IsLive, node_at};
ghost use Rattle.trace_arena.specs.Points.{points};
ghost use Rattle.trace_cursor.specs.Pasts.{AreThere, IsThere};
ghost use Rattle.program_assembly.specs.PointNotes.{stack_at};
ghost use Rattle.program_assembly.specs.Stacks.{frames_there};

use hl_base::{Frames, OutOfMemory};
use std::alloc::Global;
use trace_arena::{NodeId, TraceArena};
use trace_cursor::{ItemPlace, path};
use trace_values::TraceItem;

/// The item of a place.
fn item_at(arena: &TraceArena<TraceItem>, place: ItemPlace) -> &TraceItem
    requires there { IsThere arena.now.nodes place }
    ensures { slice_get (node_at arena.now.nodes place.node.0).items place.at ≡ Some result.now }
{
    &arena.items(place.node)[place.at]
}

/// The frames of the items at these places, in turn.
fn frames_there(
    alloc: Global,
    arena: &TraceArena<TraceItem>,
    places: &[ItemPlace],
) -> Result<Frames, OutOfMemory>
    requires there { AreThere arena.now.nodes places.now }
    ensures { IfOk result (λ frames. frames ≡ flat_map (frames_there arena.now.nodes) places.now) }
{
    let mut frames = Frames::new(alloc);
    for place in places {
        item_at(arena, *place).frames.push_onto(&mut frames)?;
    }
    Ok(frames)
}

/// The whole stack of a point, outermost frame first.
pub(crate) fn stack_at(
    alloc: Global,
    arena: &TraceArena<TraceItem>,
    root: NodeId,
    index: u32,
) -> Result<Frames, OutOfMemory>
    requires live { IsLive arena.now.nodes root.0 }
    requires inside { index < length (points arena.now.nodes root.0) }
    ensures { IfOk result (λ stack. stack ≡ stack_at (slice_get (points arena.now.nodes root.0) index)) }
{
    let places = path(alloc, arena, root, index)?;
    frames_there(alloc, arena, places.as_slice())
}
