//! Nodes without owners are freed, one after another, in a list that goes through their own memory.
ghost use Rattle.std.specs.Prelude.{ℕ, ◌≡◌, ◌↔◌, ◌+◌, ◌-◌, ◌<◌, [], ◌∷◌, ◌++◌, length, slice_set, if◌then◌else◌, ◌==◌, MatchOption, IsTrue, Some, None};
ghost use Rattle.std.specs.Bool.{OnTrue, OnFalse};
ghost use Rattle.trace_arena.specs.Nodes.{free_node, with_owners, with_links, node_at};
ghost use Rattle.trace_arena.specs.Slots.{node_of, nodes_of};
ghost use Rattle.trace_arena.specs.Waiting.{nexts_of, work, Frees};

use crate::node::Link;
use crate::slot::Slot;
use std::alloc::Global;
use std::mem;

/// The first of the slots that wait to be freed, and the first of those that are free.
#[derive(Clone, Copy)]
pub(crate) struct Queues {
    pub(crate) waiting: Option<u32>,
    pub(crate) free: Option<u32>,
}

/// Takes the last link away.
fn pop_link<I>(slot: &mut Slot<I>) -> Option<Link>
    ensures links { MatchOption result ((node_of slot.old).links ≡ [])
        (λ link. (node_of slot.old).links ≡ (node_of slot.new).links ++ link ∷ []) }
    ensures node { node_of slot.new ≡ with_links (node_of slot.old) (node_of slot.new).links }
    ensures next { slot.new.next ≡ slot.old.next }
{
    slot.links.pop()
}

/// One owner less, and whether that was the last.
fn lose_owner<I>(slot: &mut Slot<I>, waiting: Option<u32>) -> bool
    requires { 0 < slot.old.owners }
    ensures last { IsTrue result ↔ (slot.old.owners ≡ 1) }
    ensures node { node_of slot.new ≡ with_owners (node_of slot.old) (slot.old.owners - 1) }
    ensures queued { OnTrue result (slot.new.next ≡ waiting) }
    ensures stays { OnFalse result (slot.new.next ≡ slot.old.next) }
{
    slot.owners -= 1;
    if slot.owners > 0 {
        return false;
    }
    slot.next = waiting;
    true
}

/// Gives back the memory of a node, and says what stood behind it.
fn finish<I: Drop>(alloc: Global, slot: &mut Slot<I>, free: Option<u32>) -> Option<u32>
    requires { slot.old.owners ≡ 0 }
    ensures node { node_of slot.new ≡ free_node }
    ensures next { slot.new.next ≡ free }
    ensures behind { result ≡ slot.old.next }
{
    slot.items = Vec::new(alloc);
    slot.links = Vec::new(alloc);
    slot.total = 0;
    slot.height = 0;
    mem::replace(&mut slot.next, free)
}

/// Gives up one owner of a node, which waits to be freed if that was the last.
pub(crate) fn give_up<I>(slots: &mut Vec<Slot<I>>, index: u32, waiting: Option<u32>) -> Option<u32>
    requires inside { index < length slots.old.items }
    requires owned { 0 < (node_at (nodes_of slots.old.items) index).owners }
    ensures nodes { nodes_of slots.new.items ≡ slice_set (nodes_of slots.old.items) index
        (with_owners (node_at (nodes_of slots.old.items) index) ((node_at (nodes_of slots.old.items) index).owners - 1)) }
    ensures waits { (node_at (nodes_of slots.old.items) index).owners ≡ 1 →
        (result ≡ Some index) × (nexts_of slots.new.items ≡ slice_set (nexts_of slots.old.items) index waiting) }
    ensures stays { 1 < (node_at (nodes_of slots.old.items) index).owners →
        (result ≡ waiting) × (nexts_of slots.new.items ≡ nexts_of slots.old.items) }
{
    if lose_owner(&mut slots[index as usize], waiting) {
        Some(index)
    } else {
        waiting
    }
}

/// The first node that waits loses its last link, or else its memory.
fn free_one<I: Drop>(alloc: Global, slots: &mut Vec<Slot<I>>, index: u32, queues: Queues) -> Queues
    requires first { queues.waiting ≡ Some index }
    requires frees { Frees (nodes_of slots.old.items) (nodes_of slots.old.items) (nexts_of slots.old.items) queues.waiting }
    ensures frees { Frees (nodes_of slots.old.items) (nodes_of slots.new.items) (nexts_of slots.new.items) result.waiting }
    ensures less { work (nodes_of slots.new.items) < work (nodes_of slots.old.items) }
{
    if let Some(link) = pop_link(&mut slots[index as usize]) {
        let waiting = give_up(slots, link.child.0, queues.waiting);
        return Queues {
            waiting,
            free: queues.free,
        };
    }
    let waiting = finish(alloc, &mut slots[index as usize], queues.free);
    Queues {
        waiting,
        free: Some(index),
    }
}

/// Frees the nodes that wait, and those that lose their last owner by it. Gives the first of the free slots.
pub(crate) fn free_waiting<I: Drop>(
    alloc: Global,
    slots: &mut Vec<Slot<I>>,
    first: Queues,
) -> Option<u32>
    requires { Frees (nodes_of slots.old.items) (nodes_of slots.old.items) (nexts_of slots.old.items) first.waiting }
    ensures { Frees (nodes_of slots.old.items) (nodes_of slots.new.items) (nexts_of slots.new.items) None }
{
    let mut queues = first;
    while let Some(index) = queues.waiting {
        queues = free_one(alloc, slots, index, queues);
    }
    queues.free
}
