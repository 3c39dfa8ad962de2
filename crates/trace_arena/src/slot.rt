//! The memory of one node.
ghost use Rattle.std.specs.Prelude.{◌≡◌, ◌+◌, ◌<◌, [], ◌∷◌, ◌++◌, length, OnOk, OnErr, IfSome};
ghost use Rattle.trace_arena.specs.Slots.{node_of, nodes_of};
ghost use Rattle.trace_arena.specs.Nodes.{free_node, new_node, with_item, with_link, node_at};

use crate::node::{Link, NodeId};
use hl_base::OutOfMemory;
use std::alloc::Global;

/// A node, or the memory of one that was freed.
#[derive(Drop)]
pub(crate) struct Slot<I> {
    pub(crate) items: Vec<I>,
    pub(crate) links: Vec<Link>,
    pub(crate) total: u32,
    pub(crate) owners: u32,
    pub(crate) height: u32,
    // The slot that is free, or waits to be freed, after this one.
    pub(crate) next: Option<u32>,
}

/// A node without points, which its maker owns.
pub(crate) fn new_slot<I>(alloc: Global) -> Slot<I>
    ensures { node_of result ≡ new_node }
{
    Slot {
        items: Vec::new(alloc),
        links: Vec::new(alloc),
        total: 0,
        owners: 1,
        height: 1,
        next: None,
    }
}

/// A node without points in the memory of one that was freed, and the slot that is free after it.
pub(crate) fn reopen<I>(slot: &mut Slot<I>) -> Option<u32>
    requires { node_of slot.old ≡ free_node }
    ensures { node_of slot.new ≡ new_node }
{
    slot.owners = 1;
    slot.height = 1;
    slot.next.take()
}

/// One item more at the end. An `Err` changes nothing.
pub(crate) fn push_item<I: Drop>(slot: &mut Slot<I>, item: I) -> Result<(), OutOfMemory>
    ensures ok { OnOk result (node_of slot.new ≡ with_item (node_of slot.old) item) }
    ensures err { OnErr result (node_of slot.new ≡ node_of slot.old) }
{
    let Some(total) = slot.total.checked_add(1) else {
        return Err(OutOfMemory);
    };
    slot.items.push(item)?;
    slot.total = total;
    Ok(())
}

/// One link more at the end, to a node of this height and so many points. An `Err` changes nothing.
pub(crate) fn push_link<I>(
    slot: &mut Slot<I>,
    child: NodeId,
    below: u32,
    more: u32,
) -> Result<(), OutOfMemory>
    ensures ok { OnOk result (node_of slot.new ≡ with_link (node_of slot.old) child below more) }
    ensures err { OnErr result (node_of slot.new ≡ node_of slot.old) }
{
    let Some(total) = slot.total.checked_add(more) else {
        return Err(OutOfMemory);
    };
    let Some(height) = below.checked_add(1) else {
        return Err(OutOfMemory);
    };
    slot.links.push(Link {
        at: slot.items.len(),
        before: slot.total,
        child,
    })?;
    slot.total = total;
    slot.height = slot.height.max(height);
    Ok(())
}

/// The first free slot, if it is free as it should be.
pub(crate) fn free_number<I>(slots: &Vec<Slot<I>>, free: Option<u32>) -> Option<u32>
    ensures { IfSome result (λ number. (number < length slots.now.items)
        × ((node_at (nodes_of slots.now.items) number).owners ≡ 0)) }
{
    let number = free?;
    let slot = slots.get(number as usize)?;
    if slot.owners == 0 { Some(number) } else { None }
}
