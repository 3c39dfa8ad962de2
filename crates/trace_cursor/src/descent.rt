//! The way from a root down to a point.
ghost use Rattle.std.specs.Prelude.{◌≡◌, ◌<◌, ◌++◌, length, IfOk, OnOk};
ghost use Rattle.trace_arena.specs.Nodes.{IsLive};
ghost use Rattle.trace_arena.specs.Points.{points};
ghost use Rattle.trace_cursor.specs.Pasts.{call_places, AreThere, IsPath};

use crate::search::{Place, place_at};
use hl_base::OutOfMemory;
use std::alloc::Global;
use trace_arena::{NodeId, TraceArena, arena_is_whole};

/// An item by its node and its number there, counted from 0.
#[derive(Clone, Copy, Debug, PartialEq, Eq)]
pub struct ItemPlace {
    pub node: NodeId,
    pub at: usize,
}

/// Adds the item behind which a node is linked that so many items stand before, if there are any.
fn push_call(places: &mut Vec<ItemPlace>, node: NodeId, at: usize) -> Result<(), OutOfMemory>
    ensures { OnOk result (places.new.items ≡ places.old.items ++ call_places node at) }
{
    if at > 0 {
        places.push(ItemPlace { node, at: at - 1 })?;
    }
    Ok(())
}

/// Where the items stand behind which the nodes of a point are linked, the outermost first, and then its own item.
pub fn path<I: Drop>(
    alloc: Global,
    arena: &TraceArena<I>,
    root: NodeId,
    index: u32,
) -> Result<Vec<ItemPlace>, OutOfMemory>
    requires live { IsLive arena.now.nodes root.0 }
    requires inside { index < length (points arena.now.nodes root.0) }
    ensures path { IfOk result (λ places. IsPath arena.now.nodes root.0 index places.items) }
    ensures there { IfOk result (λ places. AreThere arena.now.nodes places.items) }
{
    arena_is_whole(arena);
    let mut places = Vec::new(alloc);
    let mut node = root;
    let mut rest = index;
    loop {
        match place_at(arena, node, rest) {
            Place::Inside(inner) => {
                push_call(&mut places, node, inner.at)?;
                node = inner.child;
                rest = inner.left;
            }
            Place::Own(run) => {
                places.push(ItemPlace { node, at: run.at })?;
                return Ok(places);
            }
        }
    }
}
