//! The arena: nodes are begun, appended to, linked, and found by their numbers.
ghost use Rattle.std.specs.Prelude.{◌≡◌, ◌≢◌, ◌↔◌, ◌+◌, ◌<◌, min, [], ◌∷◌, ◌++◌, IsTrue, length, OnOk, OnErr, IfOk, slice_get};
ghost use Rattle.std.specs.Bool.{OnTrue, OnFalse};
ghost use Rattle.std.specs.Option.{option_map};
ghost use Rattle.trace_arena.specs.Nodes.{node_at, outside, IsLive, IsUnshared, children};
ghost use Rattle.trace_arena.specs.Points.{points};
ghost use Rattle.trace_arena.specs.Changes.{Recounts, Begins, Appends, Links, Releases};

use crate::node::{Link, NodeId};
use crate::release::{Queues, free_waiting, give_up};
use crate::slot::{Slot, free_number, new_slot, push_item, push_link, reopen};
use hl_base::{Ledger, OutOfMemory, Steps};
use std::alloc::Global;
use std::marker::Model;

/// Nodes of items, and links between them.
#[derive(Drop)]
pub struct TraceArena<I> {
    pub(crate) slots: Vec<Slot<I>>,
    // The first of the slots that were freed.
    free: Option<u32>,
    made: u64,
    alloc: Global,
}

impl<I> Model for TraceArena<I> {
    ghost use Rattle.trace_arena.specs.Nodes.{Arena};

    ghost Value = { Arena I };

    ghost use Rattle.trace_arena.specs.Slots.{nodes_of};
    ghost use Rattle.trace_arena.specs.Whole.{IsWhole};

    ghost view = { λ a. record { nodes = nodes_of a.slots.items; made = a.made } };

    ghost invariant = { λ a. IsWhole (nodes_of a.slots.items) };
}

impl<I: Drop> TraceArena<I> {
    /// An arena without nodes. It takes no memory.
    pub fn new(alloc: Global) -> TraceArena<I>
        ensures nodes { result.nodes ≡ [] }
        ensures made { result.made ≡ 0 }
    {
        TraceArena {
            slots: Vec::new(alloc),
            free: None,
            made: 0,
            alloc,
        }
    }

    /// Whether a node has an owner. A number under which no node is, has none.
    pub fn live(&self, node: NodeId) -> bool
        ensures { IsTrue result ↔ IsLive self.now.nodes node.0 }
    {
        match self.slots.get(node.0 as usize) {
            Some(slot) => slot.owners > 0,
            None => false,
        }
    }

    /// The node that a link put into this one: the links are counted from 0, in their order.
    pub fn child(&self, node: NodeId, index: u32) -> Option<NodeId>
        ensures { option_map (λ child. child.0) result ≡ slice_get (children self.now.nodes node.0) index }
    {
        let slot = self.slots.get(node.0 as usize)?;
        let link = slot.links.get(index as usize)?;
        Some(link.child)
    }

    /// The items that were appended to a node, in their order.
    pub fn items(&self, node: NodeId) -> &[I]
        requires live { IsLive self.now.nodes node.0 }
        ensures { result.now ≡ (node_at self.now.nodes node.0).items }
    {
        self.slots[node.0 as usize].items.as_slice()
    }

    /// The links of a node, in their order.
    pub fn links(&self, node: NodeId) -> &[Link]
        requires live { IsLive self.now.nodes node.0 }
        ensures { result.now ≡ (node_at self.now.nodes node.0).links }
    {
        self.slots[node.0 as usize].links.as_slice()
    }

    /// How many points a node has.
    pub fn points(&self, node: NodeId) -> u32
        requires live { IsLive self.now.nodes node.0 }
        ensures points { result ≡ length (points self.now.nodes node.0) }
        ensures total { result ≡ (node_at self.now.nodes node.0).total }
    {
        self.slots[node.0 as usize].total
    }

    /// How many items were ever appended, or the greatest number once that is reached.
    pub fn made(&self) -> u64
        ensures { result ≡ self.now.made }
    {
        self.made
    }

    /// A new node without points, which its maker owns. An `Err` changes nothing.
    pub fn begin(&mut self, alloc: Global) -> Result<NodeId, OutOfMemory>
        ensures begun { IfOk result (λ node. Begins self.old.nodes self.new.nodes node.0) }
        ensures made { self.new.made ≡ self.old.made }
        ensures refused { OnErr result (self.new ≡ self.old) }
    {
        if let Some(number) = free_number(&self.slots, self.free) {
            self.free = reopen(&mut self.slots[number as usize]);
            return Ok(NodeId(number));
        }
        let Ok(number) = u32::try_from(self.slots.len()) else {
            return Err(OutOfMemory);
        };
        self.slots.push(new_slot(alloc))?;
        Ok(NodeId(number))
    }

    /// One item more at the end of a node. An `Err` changes nothing of the arena.
    pub fn append<L: Ledger>(
        &mut self,
        node: NodeId,
        item: I,
        steps: &mut Steps<L>,
    ) -> Result<(), OutOfMemory>
        requires unshared { IsUnshared self.old.nodes node.0 }
        ensures appended { OnOk result (Appends self.old.nodes self.new.nodes node.0 item) }
        ensures made { OnOk result (self.new.made ≡ min (self.old.made + 1) u64.MAX) }
        ensures refused { OnErr result (self.new ≡ self.old) }
        ensures ticked { steps.new ≡ steps.old + 1 }
    {
        steps.tick();
        push_item(&mut self.slots[node.0 as usize], item)?;
        self.made = self.made.saturating_add(1);
        Ok(())
    }

    /// A node stands in another one, behind what is in it, with one owner more. An `Err` changes nothing.
    pub fn link(&mut self, parent: NodeId, child: NodeId) -> Result<(), OutOfMemory>
        requires unshared { IsUnshared self.old.nodes parent.0 }
        requires live { IsLive self.old.nodes child.0 }
        requires other { child.0 ≢ parent.0 }
        ensures linked { OnOk result (Links self.old.nodes self.new.nodes parent.0 child.0) }
        ensures made { self.new.made ≡ self.old.made }
        ensures refused { OnErr result (self.new ≡ self.old) }
    {
        let slot = &self.slots[child.0 as usize];
        let below = slot.height;
        let more = slot.total;
        let Some(owners) = slot.owners.checked_add(1) else {
            return Err(OutOfMemory);
        };
        push_link(&mut self.slots[parent.0 as usize], child, below, more)?;
        self.slots[child.0 as usize].owners = owners;
        Ok(())
    }

    /// One owner more of a live node, and whether there was room for it in the count. It takes no memory.
    pub fn retain(&mut self, node: NodeId) -> bool
        requires live { IsLive self.old.nodes node.0 }
        ensures retained { OnTrue result (Recounts self.old.nodes self.new.nodes node.0 ((node_at self.old.nodes node.0).owners + 1)) }
        ensures made { self.new.made ≡ self.old.made }
        ensures refused { OnFalse result (self.new ≡ self.old) }
        ensures full { OnFalse result ((node_at self.old.nodes node.0).owners ≡ u32.MAX) }
    {
        let slot = &mut self.slots[node.0 as usize];
        let Some(owners) = slot.owners.checked_add(1) else {
            return false;
        };
        slot.owners = owners;
        true
    }

    /// Gives up an owner of a node that is no link. The nodes that no owner reaches any more are freed. It takes no
    /// memory.
    pub fn release(&mut self, node: NodeId)
        requires owned { 0 < outside self.old.nodes node.0 }
        ensures released { Releases self.old.nodes self.new.nodes node.0 }
        ensures made { self.new.made ≡ self.old.made }
    {
        let waiting = give_up(&mut self.slots, node.0, None);
        let queues = Queues {
            waiting,
            free: self.free,
        };
        self.free = free_waiting(self.alloc, &mut self.slots, queues);
    }
}
