//! What is shown of a point.
ghost use Rattle.std.specs.Prelude.{◌≡◌, ◌<◌, ◌++◌, Some, length, filter, slice_get, IfOk, OnOk};
ghost use Rattle.std.specs.Bool.{beq};
ghost use Rattle.std.specs.Option.{option_map};
ghost use Rattle.trace_arena.specs.Nodes.{IsLive};
ghost use Rattle.trace_arena.specs.Points.{points};
ghost use Rattle.trace_cursor.specs.Pasts.{IsThere, AreThere};
ghost use Rattle.trace_cursor.specs.Stacks.{stack_of};
ghost use Rattle.macro_debugger.specs.Seen.{frames_at, frames_there, part_of};

use hl_base::{Frames, OutOfMemory};
use std::alloc::Global;
use trace_arena::{NodeId, TraceArena};
use trace_cursor::{ItemPlace, path};
use trace_values::{TraceItem, Variable, Variables};

/// Adds the frames of the item of a place.
fn push_frames(
    arena: &TraceArena<TraceItem>,
    place: ItemPlace,
    frames: &mut Frames,
) -> Result<(), OutOfMemory>
    requires { IsThere arena.now.nodes place }
    ensures { OnOk result (frames.new ≡ frames.old ++ frames_at arena.now.nodes place) }
{
    arena.items(place.node)[place.at].frames.push_onto(frames)
}

/// The frames of the items of places, those of the first one outermost.
fn frames_in(
    alloc: Global,
    arena: &TraceArena<TraceItem>,
    places: &[ItemPlace],
) -> Result<Frames, OutOfMemory>
    requires there { AreThere arena.now.nodes places.now }
    ensures { IfOk result (λ frames. frames ≡ frames_there arena.now.nodes places.now) }
{
    let mut frames = Frames::new(alloc);
    for place in places {
        push_frames(arena, *place, &mut frames)?;
    }
    Ok(frames)
}

/// The frames of a point of a root, outermost first.
pub(crate) fn stack_at(
    alloc: Global,
    arena: &TraceArena<TraceItem>,
    root: NodeId,
    index: u32,
) -> Result<Frames, OutOfMemory>
    requires live { IsLive arena.now.nodes root.0 }
    requires inside { index < length (points arena.now.nodes root.0) }
    ensures { IfOk result (λ frames. option_map stack_of (slice_get (points arena.now.nodes root.0) index) ≡ Some frames) }
{
    let places = path(alloc, arena, root, index)?;
    frames_in(alloc, arena, places.as_slice())
}

/// Adds a variable if it is one of the wanted part.
fn push_part(
    alloc: Global,
    part: &mut Variables,
    variable: &Variable,
    globals: bool,
) -> Result<(), OutOfMemory>
    ensures { OnOk result (part.new ≡ part.old ++ part_of globals variable.now) }
{
    if variable.global != globals {
        return Ok(());
    }
    part.push(variable.copy(alloc)?)?;
    Ok(())
}

/// The global ones of some variables, or the others.
pub(crate) fn part(
    alloc: Global,
    variables: &Variables,
    globals: bool,
) -> Result<Variables, OutOfMemory>
    ensures { IfOk result (λ part. part ≡ filter (λ v. beq v.global globals) variables.now) }
{
    let mut part = Variables::new(alloc);
    for variable in variables.as_slice() {
        push_part(alloc, &mut part, variable, globals)?;
    }
    Ok(part)
}
