//! The call that a frame of a point belongs to.
ghost use Rattle.std.specs.Prelude.{◌≡◌, ◌+◌, ◌^◌, ◌<◌, length, slice_get, IfOk};
ghost use Rattle.std.specs.Option.{option_and_then};
ghost use Rattle.trace_arena.specs.Nodes.{IsLive};
ghost use Rattle.trace_arena.specs.Points.{points};
ghost use Rattle.trace_cursor.specs.Pasts.{IsThere, AreThere};
ghost use Rattle.trace_variables.specs.Calls.{level_of};
ghost use Rattle.trace_variables.specs.Seen.{frames_at, level_in};

use hl_base::OutOfMemory;
use std::alloc::Global;
use trace_arena::{NodeId, TraceArena};
use trace_cursor::{ItemPlace, path};
use trace_values::TraceItem;

/// How many frames the item of a place has.
fn frames_at(arena: &TraceArena<TraceItem>, place: ItemPlace) -> usize
    requires { IsThere arena.now.nodes place }
    ensures { result ≡ frames_at arena.now.nodes place }
{
    arena.items(place.node)[place.at].frames.count()
}

/// The level of the call of a frame of the items of these places, the outermost first.
fn level_in(arena: &TraceArena<TraceItem>, from: Vec<ItemPlace>, frame: u32) -> Option<usize>
    requires there { AreThere arena.now.nodes from.items }
    ensures { result ≡ level_in arena.now.nodes from.items frame }
{
    if frame == 0 {
        return None;
    }
    let mut places = from;
    let mut left = frame as usize;
    while let Some(place) = places.pop() {
        let count = frames_at(arena, place);
        if left <= count {
            return Some(places.len());
        }
        left -= count;
    }
    None
}

/// The level of the call of a frame of a point: how many calls stand round it. There is none exactly where the point has no
/// such frame.
pub(crate) fn level_of(
    alloc: Global,
    arena: &TraceArena<TraceItem>,
    root: NodeId,
    index: u32,
    frame: u32,
) -> Result<Option<usize>, OutOfMemory>
    requires live { IsLive arena.now.nodes root.0 }
    requires inside { index < length (points arena.now.nodes root.0) }
    ensures { IfOk result (λ level. level ≡ option_and_then (λ point. level_of point frame) (slice_get (points arena.now.nodes root.0) index)) }
{
    let places = path(alloc, arena, root, index)?;
    Ok(level_in(arena, places, frame))
}
