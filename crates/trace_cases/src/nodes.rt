//! Which nodes are live, and which stand in which.
ghost use Rattle.std.specs.Prelude.{OnOk};
ghost use Rattle.trace_arena.specs.Nodes.{IsUnshared};

use hl_base::OutOfMemory;
use std::alloc::Global;
use trace_arena::{NodeId, TraceArena};
use trace_values::TraceItem;

/// A node is linked twice, and then given up by its maker, and its parent after it.
pub fn linked_twice(alloc: Global) -> Result<String, OutOfMemory> {
    let mut arena: TraceArena<u32> = TraceArena::new(alloc);
    let parent = arena.begin(alloc)?;
    let child = arena.begin(alloc)?;
    arena.link(parent, child)?;
    arena.link(parent, child)?;
    arena.release(child);
    let both = arena.live(child) && arena.live(parent);
    let second = arena.child(parent, 1) == Some(child);
    let third = arena.child(parent, 2).is_some();
    arena.release(parent);
    let some = arena.live(child) || arena.live(parent);
    Ok(format!(in alloc;
        "both live: {both}; second child: {second}; third: {third}; some live: {some}"
    )?)
}

/// A root is retained, and then given up by its maker and by its other owner.
pub fn retained(alloc: Global) -> Result<String, OutOfMemory> {
    let mut arena: TraceArena<u32> = TraceArena::new(alloc);
    let root = arena.begin(alloc)?;
    let had_room = arena.retain(root);
    if had_room {
        arena.release(root);
    }
    let stays = arena.live(root);
    arena.release(root);
    let still = arena.live(root);
    Ok(format!(in alloc; "had room: {had_room}; live: {stays}; live: {still}")?)
}

/// Links a node as a child of another one, if it is live and not that one itself.
pub(crate) fn link(
    arena: &mut TraceArena<TraceItem>,
    parent: NodeId,
    child: NodeId,
) -> Result<(), OutOfMemory>
    requires { IsUnshared arena.old.nodes parent.0 }
    ensures { OnOk result (IsUnshared arena.new.nodes parent.0) }
{
    if !arena.live(child) || child == parent {
        return Ok(());
    }
    arena.link(parent, child)
}
