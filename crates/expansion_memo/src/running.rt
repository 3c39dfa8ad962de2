//! Running a call over a memo, with kept outcomes in place of nested calls.
ghost use Rattle.std.specs.Prelude.{◌≡◌, Some, ℕ, ◌+◌, ◌-◌, ◌<◌, ◌≤◌, Option, List, IfOk, OnOk, map};
ghost use Rattle.asking_core.specs.Worlds.{Fits};
ghost use Rattle.asking_core.specs.Machines.{Nothing, Returned};
ghost use Rattle.asking_core.specs.Actions.{told_of};
ghost use Rattle.asking_core.specs.Runs.{deepest_depth};
ghost use Rattle.expansion_memo.specs.Kept.{KeptOutcome, AllStand, HoldsThere, kept_at};
ghost use Rattle.expansion_memo.specs.Reuse.{ComesTo};
ghost use Rattle.expansion_memo.specs.Entries.{ending_of};
ghost use Rattle.expansion_memo.specs.Walks.{moment_at};
ghost use Rattle.expansion_memo.specs.Within.{JoinsIn};
ghost use Rattle.kept_outcomes.specs.Moments.{begun};
ghost use Rattle.expansion_memo.specs.Records.{CallMakes, AreKeptIn, Makes, PassMakes, UnitMakes, owed};
ghost use Rattle.expansion_memo.specs.Running.{IsSound, IsRun, WentOn, Passes, Progresses, TakesUnit, GoesBack, Closes, IsHandedOut, MayBeKept, HoldsSomewhere, with_outcome};

use crate::entry::{DEEPEST, Entry};
use crate::walk::{Next, Walk, advance, begin};
use crate::within::{absorb, reuse_within};
use crate::{Ended, Memo, Outcome};
use asking_core::{AskMachine, Given, World};
use hl_base::{Ledger, OutOfMemory, Steps};
use kept_values::Kept;
use std::alloc::Global;
use trace_arena::{TraceArena, arena_is_whole};

/// How a call ended, and the frames of the statements at which fuel was wanting.
#[derive(Drop)]
pub(crate) struct Closing<F: Drop> {
    pub(crate) ended: Ended,
    pub(crate) unpaid: Vec<F>,
}

/// A call that ran.
#[derive(Drop)]
pub(crate) struct Ran<L: Drop, K: Kept, V: Kept, F: Drop> {
    pub(crate) walk: Walk<L, K, V>,
    pub(crate) close: Closing<F>,
}

/// What a step comes to, with the nested call that it entered: the next one is told something, a unit of fuel was taken,
/// or the call ended.
#[derive(Drop)]
pub(crate) enum Passed<V: Drop, F: Drop> {
    On(Given<V>),
    Counted,
    Done(Closing<F>),
}

/// Takes a unit of fuel, if one is left.
fn take_unit<M: AskMachine>(
    machine: &M,
    alloc: Global,
    walk: &mut Walk<M::Local, M::Key, M::Value>,
    fuel: u32,
) -> Result<Passed<M::Value, M::Frames>, OutOfMemory>
    requires units { walk.old.summary.units ≤ fuel }
    ensures { IfOk result (λ p. TakesUnit M.frames_of ((M.model).frames_at (M.place walk.old.local)) fuel walk.old walk.new p) }
{
    if walk.summary.units() < fuel {
        walk.summary.take_unit();
        return Ok(Passed::Counted);
    }
    let mut unpaid = Vec::new(alloc);
    unpaid.push(machine.frames(alloc, &walk.local)?)?;
    Ok(Passed::Done(Closing {
        ended: Ended::Budget,
        unpaid,
    }))
}

/// What a call comes to behind a nested one.
fn go_back<M: AskMachine>(
    machine: &M,
    alloc: Global,
    local: &M::Local,
    close: Closing<M::Frames>,
) -> Result<Passed<M::Value, M::Frames>, OutOfMemory>
    ensures { IfOk result (λ p. GoesBack M.Value.code M.frames_of ((M.model).frames_at (M.place local.now)) (ending_of close.ended) (map M.frames_of close.unpaid.items) p) }
{
    let Closing { ended, mut unpaid } = close;
    match ended {
        Ended::Returned => Ok(Passed::On(Given::Returned)),
        Ended::End => Ok(Passed::Done(Closing {
            ended,
            unpaid: Vec::new(alloc),
        })),
        Ended::Budget => {
            unpaid.push(machine.frames(alloc, local)?)?;
            Ok(Passed::Done(Closing { ended, unpaid }))
        }
    }
}

/// Keeps what a call came to, unless fuel was wanting or an outermost statement came.
pub(crate) fn keep_outcome<M: AskMachine>(
    alloc: Global,
    memo: &mut Memo<M>,
    call: M::Call,
    depth: u32,
    walk: Walk<M::Local, M::Key, M::Value>,
    ended: Ended,
) -> Result<(), OutOfMemory>
    ensures { OnOk result (memo.new ≡ with_outcome memo.old (record { call = M.Call.code call; depth = depth; node = walk.node.0; ended = ending_of ended; summary = walk.summary })) }
{
    let wanting = match ended {
        Ended::Budget => true,
        Ended::Returned | Ended::End => false,
    };
    if wanting || walk.summary.was_told_at() {
        return Ok(());
    }
    memo.keep(
        alloc,
        Entry {
            call,
            depth,
            node: walk.node,
            ended,
            summary: walk.summary,
        },
    )
}

/// Runs a nested call, or takes a kept outcome in its place, and joins what it left with what its caller left.
#[cycle(run)]
fn run_within<M: AskMachine, W: World<Key = M::Key, Value = M::Value>, L: Ledger>(
    machine: &M,
    alloc: Global,
    memo: &mut Memo<M>,
    walk: &mut Walk<M::Local, M::Key, M::Value>,
    call: M::Call,
    world: &mut W,
    fuel: u32,
    depth: u32,
    arena: &mut TraceArena<M::Item>,
    steps: &mut Steps<L>,
) -> Result<Closing<M::Frames>, OutOfMemory>
    requires fits { Fits W.model M.moving M.writable M.rebased }
    requires sound { IsSound M.model M.rebased M.call_of M.item_of fuel depth walk.old arena.old.nodes memo.old }
    requires room { depth + walk.old.frames < deepest_depth }
    ensures joins { IfOk result (λ close. JoinsIn M.model W.model M.rebased fuel depth (M.call_of (M.Call.code call))
        (moment_at M.model W.model M.place M.item_of walk.old Nothing (W.state world.old) arena.old.nodes)
        (moment_at M.model W.model M.place M.item_of walk.new Returned (W.state world.new) arena.new.nodes)
        (ending_of close.ended) (map M.frames_of close.unpaid.items)) }
    ensures went { OnOk result (WentOn M.model M.rebased M.call_of M.item_of fuel depth walk.old walk.new arena.old.nodes arena.new.nodes memo.old memo.new) }
    ensures makes { OnOk result ((kept : List (Option KeptOutcome)) → AreKeptIn kept memo.old →
        CallMakes M.call_of (λ tree. HoldsSomewhere W.model ((W.model).after_enter (W.state world.old)) (fuel - walk.old.summary.units) (depth + walk.old.frames + 1) tree kept)
        (M.call_of (M.Call.code call)) (walk.new.summary.units - walk.old.summary.units) (arena.new.made - arena.old.made)) }
{
    let taken = reuse_within(machine, alloc, memo, walk, &call, world, fuel, depth, arena)?;
    if let Some(ended) = taken {
        return Ok(Closing {
            ended,
            unpaid: Vec::new(alloc),
        });
    }
    world.enter();
    let left = fuel - walk.summary.units();
    let inner = depth + walk.frames + 1;
    let ran = run_call(
        machine, alloc, memo, &call, world, left, inner, arena, steps,
    )?;
    world.leave();
    let Ran { walk: child, close } = ran;
    absorb(machine, alloc, walk, &child, arena)?;
    keep_outcome(alloc, memo, call, inner, child, close.ended)?;
    Ok(close)
}

/// One step, with the nested call that it enters.
#[cycle(run)]
fn run_step<M: AskMachine, W: World<Key = M::Key, Value = M::Value>, L: Ledger>(
    machine: &M,
    alloc: Global,
    memo: &mut Memo<M>,
    walk: &mut Walk<M::Local, M::Key, M::Value>,
    given: Given<M::Value>,
    world: &mut W,
    fuel: u32,
    depth: u32,
    arena: &mut TraceArena<M::Item>,
    steps: &mut Steps<L>,
) -> Result<Passed<M::Value, M::Frames>, OutOfMemory>
    requires fits { Fits W.model M.moving M.writable M.rebased }
    requires sound { IsSound M.model M.rebased M.call_of M.item_of fuel depth walk.old arena.old.nodes memo.old }
    ensures passes { IfOk result (λ p. Passes M.model W.model M.rebased M.Value.code M.frames_of fuel depth
        (moment_at M.model W.model M.place M.item_of walk.old (told_of M.Value.code given) (W.state world.old) arena.old.nodes)
        (λ g. moment_at M.model W.model M.place M.item_of walk.new g (W.state world.new) arena.new.nodes) p) }
    ensures progresses { IfOk result (λ p. Progresses (M.number (M.place walk.old.local)) (M.number (M.place walk.new.local))
        walk.old.summary.units walk.new.summary.units p) }
    ensures went { OnOk result (WentOn M.model M.rebased M.call_of M.item_of fuel depth walk.old walk.new arena.old.nodes arena.new.nodes memo.old memo.new) }
    ensures makes { IfOk result (λ p. (kept : List (Option KeptOutcome)) → AreKeptIn kept memo.old → PassMakes M.model W.model M.Value.code M.call_of kept fuel depth
        (moment_at M.model W.model M.place M.item_of walk.old (told_of M.Value.code given) (W.state world.old) arena.old.nodes)
        (λ g. moment_at M.model W.model M.place M.item_of walk.new g (W.state world.new) arena.new.nodes)
        arena.new.made (owed M.marked arena.old.made (M.place walk.old.local)) (owed M.marked arena.new.made (M.place walk.new.local)) p) }
{
    let next = advance(machine, alloc, walk, given, world, depth, arena, steps)?;
    match next {
        Next::Tell(told) => Ok(Passed::On(told)),
        Next::Counts => take_unit(machine, alloc, walk, fuel),
        Next::Enters(call) => {
            if depth + walk.frames >= DEEPEST {
                walk.summary.find_no_room();
                return Ok(Passed::On(Given::TooDeep));
            }
            let close = run_within(
                machine, alloc, memo, walk, call, world, fuel, depth, arena, steps,
            )?;
            go_back(machine, alloc, &walk.local, close)
        }
        Next::Leaves => Ok(Passed::Done(Closing {
            ended: Ended::Returned,
            unpaid: Vec::new(alloc),
        })),
        Next::Ends => Ok(Passed::Done(Closing {
            ended: Ended::End,
            unpaid: Vec::new(alloc),
        })),
    }
}

/// Runs a call up to the next unit of fuel, or to its end.
#[cycle(run)]
fn run_unit<M: AskMachine, W: World<Key = M::Key, Value = M::Value>, L: Ledger>(
    machine: &M,
    alloc: Global,
    memo: &mut Memo<M>,
    walk: &mut Walk<M::Local, M::Key, M::Value>,
    world: &mut W,
    fuel: u32,
    depth: u32,
    arena: &mut TraceArena<M::Item>,
    steps: &mut Steps<L>,
) -> Result<Option<Closing<M::Frames>>, OutOfMemory>
    requires fits { Fits W.model M.moving M.writable M.rebased }
    requires sound { IsSound M.model M.rebased M.call_of M.item_of fuel depth walk.old arena.old.nodes memo.old }
    ensures closes { IfOk result (λ r. Closes M.model W.model M.rebased M.frames_of fuel depth
        (moment_at M.model W.model M.place M.item_of walk.old Nothing (W.state world.old) arena.old.nodes)
        (moment_at M.model W.model M.place M.item_of walk.new Nothing (W.state world.new) arena.new.nodes) r) }
    ensures went { OnOk result (WentOn M.model M.rebased M.call_of M.item_of fuel depth walk.old walk.new arena.old.nodes arena.new.nodes memo.old memo.new) }
    ensures makes { IfOk result (λ r. (kept : List (Option KeptOutcome)) → AreKeptIn kept memo.old → UnitMakes M.model W.model M.call_of kept fuel depth
        (moment_at M.model W.model M.place M.item_of walk.old Nothing (W.state world.old) arena.old.nodes)
        (moment_at M.model W.model M.place M.item_of walk.new Nothing (W.state world.new) arena.new.nodes)
        arena.new.made (owed M.marked arena.old.made (M.place walk.old.local)) (owed M.marked arena.new.made (M.place walk.new.local)) r) }
{
    let mut given = Given::Nothing;
    loop {
        let passed = run_step(
            machine, alloc, memo, walk, given, world, fuel, depth, arena, steps,
        )?;
        match passed {
            Passed::On(told) => given = told,
            Passed::Counted => return Ok(None),
            Passed::Done(close) => return Ok(Some(close)),
        }
    }
}

/// Runs a call.
#[cycle(run)]
pub(crate) fn run_call<M: AskMachine, W: World<Key = M::Key, Value = M::Value>, L: Ledger>(
    machine: &M,
    alloc: Global,
    memo: &mut Memo<M>,
    call: &M::Call,
    world: &mut W,
    fuel: u32,
    depth: u32,
    arena: &mut TraceArena<M::Item>,
    steps: &mut Steps<L>,
) -> Result<Ran<M::Local, M::Key, M::Value, M::Frames>, OutOfMemory>
    requires depth { depth ≤ deepest_depth }
    requires fits { Fits W.model M.moving M.writable M.rebased }
    requires stand { AllStand M.model M.rebased M.call_of M.item_of arena.old.nodes memo.old }
    ensures ran { IfOk result (λ r. IsRun M.model W.model M.rebased M.call_of M.place M.item_of M.frames_of fuel depth (M.call_of (M.Call.code call.now))
        (W.state world.old) (W.state world.new) arena.old.nodes arena.new.nodes memo.old memo.new r) }
    ensures makes { OnOk result ((kept : List (Option KeptOutcome)) → AreKeptIn kept memo.old →
        Makes M.model W.model M.call_of kept fuel depth (begun M.model W.model (M.call_of (M.Call.code call.now)) (W.state world.old)) (arena.new.made - arena.old.made)) }
{
    let mut walk = begin(machine, alloc, call, arena)?;
    loop {
        let closed = run_unit(
            machine, alloc, memo, &mut walk, world, fuel, depth, arena, steps,
        )?;
        if let Some(close) = closed {
            return Ok(Ran { walk, close });
        }
    }
}

impl<M: AskMachine> Memo<M> {
    /// Runs a call, or takes a kept outcome of an equal one that holds in place of the run. Either way the world, the points
    /// of the node, the end, the cost and the unpaid frames are those of the plain run, and the caller owns the node. Nested
    /// calls are taken so too. What ran is kept, unless fuel was wanting in it or an outermost statement came. Where an
    /// outcome of an equal call holds, no step is made, and no record. Else at most one record is made for each unit of fuel
    /// that the call takes itself, and at most as many as each of its outermost nested calls costs of which no outcome holds
    /// that was kept before.
    ///
    /// After an `Err` nothing is known of the arena and of what is kept: both are to be given up.
    pub fn expand<W: World<Key = M::Key, Value = M::Value>, L: Ledger>(
        &mut self,
        machine: &M,
        alloc: Global,
        call: &M::Call,
        world: &mut W,
        fuel: u32,
        depth: u32,
        arena: &mut TraceArena<M::Item>,
        steps: &mut Steps<L>,
    ) -> Result<Outcome<M::Frames>, OutOfMemory>
        requires depth { depth ≤ deepest_depth }
        requires fits { Fits W.model M.moving M.writable M.rebased }
        requires stand { AllStand M.model M.rebased M.call_of M.item_of arena.old.nodes self.old }
        ensures comes { IfOk result (λ o. ComesTo M.model W.model M.rebased M.item_of M.frames_of fuel depth (M.call_of (M.Call.code call.now)) (W.state world.old) (W.state world.new) arena.new.nodes o) }
        ensures handed { IfOk result (λ o. IsHandedOut arena.old.nodes arena.new.nodes o.node.0) }
        ensures stand { OnOk result (AllStand M.model M.rebased M.call_of M.item_of arena.new.nodes self.new) }
        ensures still_kept { OnOk result ((i : ℕ) (o : KeptOutcome) → kept_at self.old i ≡ Some o → kept_at self.new i ≡ Some o) }
        ensures kept { IfOk result (λ o. MayBeKept M.model W.model M.rebased fuel depth (M.call_of (M.Call.code call.now)) (W.state world.old) (ending_of o.ended)
            → HoldsSomewhere W.model (W.state world.old) fuel depth (M.Call.code call.now) self.new) }
        ensures records { OnOk result (Makes M.model W.model M.call_of self.old fuel depth
            (begun M.model W.model (M.call_of (M.Call.code call.now)) (W.state world.old)) (arena.new.made - arena.old.made)) }
        ensures unstepped { OnOk result ((i : ℕ) → HoldsThere W.model (W.state world.old) fuel depth (M.Call.code call.now) self.old i → (steps.new ≡ steps.old) × (arena.new.made ≡ arena.old.made)) }
    {
        arena_is_whole(arena);
        let taken = self.reuse(alloc, call, world, fuel, depth, arena)?;
        if let Some(outcome) = taken {
            return Ok(outcome);
        }
        let ran = run_call(machine, alloc, self, call, world, fuel, depth, arena, steps)?;
        let Ran { walk, close } = ran;
        let node = walk.node;
        let cost = walk.summary.units();
        keep_outcome(alloc, self, call.copy(alloc)?, depth, walk, close.ended)?;
        Ok(Outcome {
            node,
            cost,
            ended: close.ended,
            unpaid: close.unpaid,
        })
    }
}
