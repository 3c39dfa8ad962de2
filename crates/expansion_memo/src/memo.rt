//! The memo of one type of machine.
ghost use Rattle.std.specs.Prelude.{◌≡◌, ◌<◌, ◌≤◌, Some, None, [], ◌∷◌, ◌++◌, map, option_map, IfOk, IfSome, List, ◌+◌, OnOk, OnErr, MatchOption};
ghost use Rattle.asking_core.specs.Runs.{deepest_depth};
ghost use Rattle.expansion_memo.specs.Entries.{kept_by};
ghost use Rattle.trace_arena.specs.Nodes.{Node, node_at, outside};
ghost use Rattle.trace_arena.specs.Changes.{Recounts, Releases};
ghost use Rattle.asking_core.specs.Worlds.{Fits};
ghost use Rattle.expansion_memo.specs.Reuse.{ComesTo};
ghost use Rattle.expansion_memo.specs.Running.{HoldsSomewhere};
ghost use Rattle.expansion_memo.specs.Kept.{AllStand, HoldsThere, Stands, NoneHolds, kept_at, while_live};

use crate::Outcome;
use crate::entry::Entry;
use crate::table::Table;
use asking_core::{AskMachine, World};
use hl_base::OutOfMemory;
use std::alloc::Global;
use std::marker::Model;
use trace_arena::{NodeId, TraceArena};

/// Outcomes of calls of one type of machine. Contracts see the list of them, with nothing at the places of those that
/// were given up.
#[derive(Drop)]
pub struct Memo<M: AskMachine> {
    pub(crate) table: Table<M::Call, M::Key, M::Value>,
}

impl<M: AskMachine> Model for Memo<M> {
    ghost use Rattle.std.specs.Prelude.{Option, List};
    ghost use Rattle.expansion_memo.specs.Kept.{KeptOutcome};
    ghost use Rattle.expansion_memo.specs.Codes.{kept_code};

    ghost Value = { List (Option KeptOutcome) };

    ghost coded = { kept_code };

    ghost view = { λ m. m.table };
}

impl<M: AskMachine> Memo<M> {
    /// Nothing is kept.
    pub fn new(alloc: Global) -> Memo<M>
        ensures { result ≡ [] }
    {
        Memo {
            table: Table::new(alloc),
        }
    }

    /// The outcome that is kept at a place.
    pub(crate) fn entry(&self, place: usize) -> Option<&Entry<M::Call, M::Key, M::Value>>
        ensures { option_map (λ e. kept_by M.Call.code e.now) result ≡ kept_at self.now place }
    {
        self.table.entry(place)
    }

    /// Where an outcome of an equal call is kept that holds, of those with the same first answer the newest. Only these
    /// are looked at.
    pub(crate) fn find<W: World<Key = M::Key, Value = M::Value>>(
        &self,
        alloc: Global,
        call: &M::Call,
        world: &mut W,
        fuel: u32,
        depth: u32,
    ) -> Result<Option<usize>, OutOfMemory>
        requires depth { depth ≤ deepest_depth }
        ensures found { IfOk result (λ r. MatchOption r
            (NoneHolds W.model (W.state world.old) fuel depth (M.Call.code call.now) self.now)
            (HoldsThere W.model (W.state world.old) fuel depth (M.Call.code call.now) self.now)) }
        ensures kept { W.state world.new ≡ W.state world.old }
    {
        self.table.find(alloc, call, world, fuel, depth)
    }

    /// Takes a kept outcome of an equal call in place of a run, if one holds: then it leaves the world as the plain run
    /// does, and has the points, the end and the cost of that, and makes no record. Its caller is one more owner of the
    /// node.
    pub(crate) fn reuse<W: World<Key = M::Key, Value = M::Value>>(
        &self,
        alloc: Global,
        call: &M::Call,
        world: &mut W,
        fuel: u32,
        depth: u32,
        arena: &mut TraceArena<M::Item>,
    ) -> Result<Option<Outcome<M::Frames>>, OutOfMemory>
        requires depth { depth ≤ deepest_depth }
        requires fits { Fits W.model M.moving M.writable M.rebased }
        requires stand { AllStand M.model M.rebased M.call_of M.item_of arena.old.nodes self.now }
        ensures found { IfOk result (λ r. MatchOption r
            (NoneHolds W.model (W.state world.old) fuel depth (M.Call.code call.now) self.now)
            (λ o. ComesTo M.model W.model M.rebased M.item_of M.frames_of fuel depth (M.call_of (M.Call.code call.now)) (W.state world.old) (W.state world.new) arena.new.nodes o)) }
        ensures none { IfOk result (λ r. r ≡ None → (W.state world.new ≡ W.state world.old) × (arena.new ≡ arena.old)) }
        ensures owned { IfOk result (λ r. IfSome r (λ o. Recounts arena.old.nodes arena.new.nodes o.node.0 ((node_at arena.old.nodes o.node.0).owners + 1))) }
        ensures held { IfOk result (λ r. IfSome r (λ o. HoldsSomewhere W.model (W.state world.old) fuel depth (M.Call.code call.now) self.now)) }
        ensures made { arena.new.made ≡ arena.old.made }
        ensures stand { AllStand M.model M.rebased M.call_of M.item_of arena.new.nodes self.now }
    {
        let Some(place) = self.find(alloc, call, world, fuel, depth)? else {
            return Ok(None);
        };
        let Some(entry) = self.entry(place) else {
            unreachable!();
        };
        if !arena.retain(entry.node) {
            return Err(OutOfMemory);
        }
        entry.summary.replay(alloc, world)?;
        Ok(Some(Outcome {
            node: entry.node,
            cost: entry.summary.units(),
            ended: entry.ended,
            unpaid: Vec::new(alloc),
        }))
    }

    /// One outcome more is kept. An `Err` changes nothing.
    pub(crate) fn keep(
        &mut self,
        alloc: Global,
        entry: Entry<M::Call, M::Key, M::Value>,
    ) -> Result<(), OutOfMemory>
        ensures ok { OnOk result (self.new ≡ self.old ++ Some (kept_by M.Call.code entry) ∷ []) }
        ensures err { OnErr result (self.new ≡ self.old) }
        ensures stand { (nodes : List (Node M.Item)) → AllStand M.model M.rebased M.call_of M.item_of nodes self.old
            → Stands M.model M.rebased M.call_of M.item_of nodes (kept_by M.Call.code entry)
            → AllStand M.model M.rebased M.call_of M.item_of nodes self.new }
    {
        self.table.keep(alloc, entry)
    }

    /// Gives up an owner of a root, and the outcomes whose nodes are no longer live. It takes no memory.
    pub fn retire(&mut self, root: NodeId, arena: &mut TraceArena<M::Item>)
        requires owned { 0 < outside arena.old.nodes root.0 }
        ensures released { Releases arena.old.nodes arena.new.nodes root.0 }
        ensures made { arena.new.made ≡ arena.old.made }
        ensures given_up { self.new ≡ map (while_live arena.new.nodes) self.old }
        ensures stand { AllStand M.model M.rebased M.call_of M.item_of arena.old.nodes self.old
            → AllStand M.model M.rebased M.call_of M.item_of arena.new.nodes self.new }
    {
        arena.release(root);
        self.table.give_up_dead(arena);
    }
}
