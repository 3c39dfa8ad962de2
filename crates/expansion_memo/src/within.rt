//! Nested calls: a kept outcome in place of one, and one that ran.
ghost use Rattle.std.specs.Prelude.{◌≡◌, ◌≢◌, ℕ, ◌^◌, ◌+◌, ◌-◌, ◌<◌, ◌≤◌, None, [], IfOk, OnOk, MatchOption};
ghost use Rattle.trace_arena.specs.Nodes.{IsUnshared};
ghost use Rattle.trace_arena.specs.Changes.{Links};
ghost use Rattle.asking_core.specs.Worlds.{Fits};
ghost use Rattle.asking_core.specs.Machines.{Nothing, Returned};
ghost use Rattle.asking_core.specs.Runs.{deepest_depth};
ghost use Rattle.expansion_memo.specs.Kept.{AllStand, NoneHolds};
ghost use Rattle.expansion_memo.specs.Entries.{ending_of};
ghost use Rattle.expansion_memo.specs.Walks.{moment_at};
ghost use Rattle.kept_outcomes.specs.Moments.{joined};
ghost use Rattle.expansion_memo.specs.Within.{NotKept, JoinsIn, Absorbs};
ghost use Rattle.expansion_memo.specs.Running.{LeavesOthers};

use crate::walk::Walk;
use crate::{Ended, Memo};
use asking_core::{AskMachine, World};
use hl_base::OutOfMemory;
use std::alloc::Global;
use trace_arena::{TraceArena, live_nodes_are_reached};

/// Takes a kept outcome in place of running a nested call, if one holds: its node stands in the caller's then, and what it
/// left is joined with what the caller left. How the nested call ended.
pub(crate) fn reuse_within<M: AskMachine, W: World<Key = M::Key, Value = M::Value>>(
    machine: &M,
    alloc: Global,
    memo: &Memo<M>,
    walk: &mut Walk<M::Local, M::Key, M::Value>,
    call: &M::Call,
    world: &mut W,
    fuel: u32,
    depth: u32,
    arena: &mut TraceArena<M::Item>,
) -> Result<Option<Ended>, OutOfMemory>
    requires fits { Fits W.model M.moving M.writable M.rebased }
    requires stand { AllStand M.model M.rebased M.call_of M.item_of arena.old.nodes memo.now }
    requires unshared { IsUnshared arena.old.nodes walk.old.node.0 }
    requires apart { NotKept memo.now walk.old.node.0 }
    requires room { depth + walk.old.frames < deepest_depth }
    requires units { walk.old.summary.units ≤ fuel }
    ensures joins { IfOk result (λ r. MatchOption r
        (NoneHolds W.model ((W.model).after_enter (W.state world.old)) (fuel - walk.old.summary.units) (depth + walk.old.frames + 1) (M.Call.code call.now) memo.now)
        (λ e. JoinsIn M.model W.model M.rebased fuel depth (M.call_of (M.Call.code call.now))
        (moment_at M.model W.model M.place M.item_of walk.old Nothing (W.state world.old) arena.old.nodes)
        (moment_at M.model W.model M.place M.item_of walk.new Returned (W.state world.new) arena.new.nodes) (ending_of e) [])) }
    ensures none { IfOk result (λ r. r ≡ None → (W.state world.new ≡ W.state world.old) × (walk.new ≡ walk.old) × (arena.new ≡ arena.old)) }
    ensures kept { (walk.new.node ≡ walk.old.node) × (walk.new.local ≡ walk.old.local) × (walk.new.frames ≡ walk.old.frames) }
    ensures unshared { IsUnshared arena.new.nodes walk.old.node.0 }
    ensures stand { AllStand M.model M.rebased M.call_of M.item_of arena.new.nodes memo.now }
    ensures others { OnOk result (LeavesOthers walk.old.node.0 arena.old.nodes arena.new.nodes memo.now memo.now) }
    ensures made { arena.new.made ≡ arena.old.made }
{
    world.enter();
    let left = fuel - walk.summary.units();
    let inner = depth + walk.frames + 1;
    let Some(place) = memo.find(alloc, call, world, left, inner)? else {
        world.leave();
        return Ok(None);
    };
    let Some(entry) = memo.entry(place) else {
        unreachable!();
    };
    entry.summary.replay(alloc, world)?;
    world.leave();
    arena.link(walk.node, entry.node)?;
    walk.summary
        .join(machine, alloc, &entry.summary, walk.frames)?;
    Ok(Some(entry.ended))
}

/// A nested call that ran is taken into its caller: its points stand behind those of the caller's node, which is its only
/// owner then, and what it left is joined with what the caller left.
pub(crate) fn absorb<M: AskMachine>(
    machine: &M,
    alloc: Global,
    walk: &mut Walk<M::Local, M::Key, M::Value>,
    child: &Walk<M::Local, M::Key, M::Value>,
    arena: &mut TraceArena<M::Item>,
) -> Result<(), OutOfMemory>
    requires unshared { IsUnshared arena.old.nodes walk.old.node.0 }
    requires child { IsUnshared arena.old.nodes child.now.node.0 }
    requires other { child.now.node.0 ≢ walk.old.node.0 }
    requires units { walk.old.summary.units + child.now.summary.units < 2 ^ 32 }
    requires levels { walk.old.frames + 1 + child.now.summary.levels < 2 ^ 32 }
    ensures joined { OnOk result (walk.new.summary ≡ joined M.rebased walk.old.frames walk.old.summary child.now.summary) }
    ensures absorbed { OnOk result (Absorbs arena.old.nodes arena.new.nodes walk.old.node.0 child.now.node.0) }
    ensures kept { (walk.new.node ≡ walk.old.node) × (walk.new.local ≡ walk.old.local) × (walk.new.frames ≡ walk.old.frames) }
    ensures made { arena.new.made ≡ arena.old.made }
{
    arena.link(walk.node, child.node)?;
    live_nodes_are_reached(arena);
    arena.release(child.node);
    walk.summary
        .join(machine, alloc, &child.summary, walk.frames)?;
    Ok(())
}
