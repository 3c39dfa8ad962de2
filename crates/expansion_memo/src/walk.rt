//! A call under way, one step at a time.
ghost use Rattle.std.specs.Prelude.{◌≡◌, ◌+◌, ◌≤◌, Ok, IfOk, OnErr, OnOk, min};
ghost use Rattle.trace_arena.specs.Nodes.{IsUnshared};
ghost use Rattle.trace_arena.specs.Changes.{Appends, Begins};
ghost use Rattle.asking_core.specs.Machines.{Answered};
ghost use Rattle.asking_core.specs.declared.machine.Given.TheVariants as given;
ghost use Rattle.asking_core.specs.Actions.{told_of};
ghost use Rattle.asking_core.specs.Runs.{deepest_depth};
ghost use Rattle.kept_outcomes.specs.Moments.{reading, putting};
ghost use Rattle.kept_outcomes.specs.Outcomes.{blank_summary};
ghost use Rattle.expansion_memo.specs.Walks.{moment_at, GoesOn, Lowers, OnlyAppends, Tells};
ghost use Rattle.expansion_memo.specs.declared.walk.Next.TheVariants as next;
ghost use Rattle.expansion_memo.specs.Records.{StepMakes, owed};

use crate::entry::DEEPEST;
use asking_core::{Action, AskMachine, Given, World};
use hl_base::{Ledger, OutOfMemory, Steps};
use kept_outcomes::CallSummary;
use kept_values::Kept;
use std::alloc::Global;
use trace_arena::{NodeId, TraceArena};

/// Where a call has come: its local, the node of its points, what else it left so far, and how many frames stand open in
/// it.
#[derive(Drop)]
pub(crate) struct Walk<L: Drop, K: Kept, V: Kept> {
    pub(crate) local: L,
    pub(crate) node: NodeId,
    pub(crate) summary: CallSummary<K, V>,
    pub(crate) frames: u32,
}

/// What a step comes to: the next one is told something, or the step counts, enters a call, leaves or ends all.
#[derive(Drop)]
pub(crate) enum Next<V: Drop, C: Drop> {
    Tell(Given<V>),
    Counts,
    Enters(C),
    Leaves,
    Ends,
}

/// Asks a key, notes the answer, and tells it.
fn ask<W: World, C: Drop>(
    alloc: Global,
    summary: &mut CallSummary<W::Key, W::Value>,
    key: W::Key,
    world: &mut W,
) -> Result<Next<W::Value, C>, OutOfMemory>
    ensures told { IfOk result (Tells W.Value.code (Answered ((W.model).answer (W.state world.old) (W.Key.code key)))) }
    ensures noted { OnOk result (summary.new
        ≡ reading summary.old (W.Key.code key) ((W.model).answer (W.state world.old) (W.Key.code key))) }
    ensures kept { W.state world.new ≡ W.state world.old }
{
    let value = world.ask(alloc, &key)?;
    summary.note_read(alloc, &key, &value)?;
    Ok(Next::Tell(Given::Answer(value)))
}

/// Puts a key, and notes it.
fn put<W: World>(
    alloc: Global,
    summary: &mut CallSummary<W::Key, W::Value>,
    key: W::Key,
    value: W::Value,
    world: &mut W,
) -> Result<(), OutOfMemory>
    ensures state { OnOk result (W.state world.new ≡ (W.model).after_put (W.state world.old) (W.Key.code key) (W.Value.code value)) }
    ensures noted { OnOk result (summary.new ≡ putting summary.old (W.Key.code key) (W.Value.code value)) }
{
    summary.note_put(alloc, &key, &value)?;
    world.put(alloc, key, value)?;
    Ok(())
}

/// Adds an item to a node. An `Err` changes nothing of the arena.
fn append<I: Drop, L: Ledger>(
    arena: &mut TraceArena<I>,
    node: NodeId,
    item: Box<I>,
    steps: &mut Steps<L>,
) -> Result<(), OutOfMemory>
    requires unshared { IsUnshared arena.old.nodes node.0 }
    ensures appended { OnOk result (Appends arena.old.nodes arena.new.nodes node.0 item.value) }
    ensures made { OnOk result (arena.new.made ≡ min (arena.old.made + 1) u64.MAX) }
    ensures refused { OnErr result (arena.new ≡ arena.old) }
    ensures ticked { steps.new ≡ steps.old + 1 }
{
    arena.append(node, Box::into_inner(item), steps)
}

/// The next step is told nothing.
fn tell_nothing<V: Drop, C: Drop>() -> Result<Next<V, C>, OutOfMemory>
    ensures { result ≡ Ok (next.Tell given.Nothing) }
{
    Ok(Next::Tell(Given::Nothing))
}

/// The next step is told that there is no room.
fn tell_too_deep<V: Drop, C: Drop>() -> Result<Next<V, C>, OutOfMemory>
    ensures { result ≡ Ok (next.Tell given.TooDeep) }
{
    Ok(Next::Tell(Given::TooDeep))
}

/// A call begins: with a node of its own, which its maker alone owns.
pub(crate) fn begin<M: AskMachine>(
    machine: &M,
    alloc: Global,
    call: &M::Call,
    arena: &mut TraceArena<M::Item>,
) -> Result<Walk<M::Local, M::Key, M::Value>, OutOfMemory>
    ensures node { IfOk result (λ w. Begins arena.old.nodes arena.new.nodes w.node.0) }
    ensures place { IfOk result (λ w. M.place w.local ≡ (M.model).start (M.call_of (M.Call.code call.now))) }
    ensures blank { IfOk result (λ w. (w.summary ≡ blank_summary) × (w.frames ≡ 0)) }
    ensures made { arena.new.made ≡ arena.old.made }
{
    let local = machine.begin(alloc, call)?;
    let node = arena.begin(alloc)?;
    Ok(Walk {
        local,
        node,
        summary: CallSummary::new(alloc),
        frames: 0,
    })
}

/// One step of a call that goes on from a moment, told this. It leads to another moment, or the call is just behind a
/// move that counts, enters a nested call, leaves or ends all. Only the points of its own node may become more. The number
/// of the place falls, so there are only so many steps between two counts.
pub(crate) fn advance<M: AskMachine, W: World<Key = M::Key, Value = M::Value>, L: Ledger>(
    machine: &M,
    alloc: Global,
    walk: &mut Walk<M::Local, M::Key, M::Value>,
    given: Given<M::Value>,
    world: &mut W,
    depth: u32,
    arena: &mut TraceArena<M::Item>,
    steps: &mut Steps<L>,
) -> Result<Next<M::Value, M::Call>, OutOfMemory>
    requires unshared { IsUnshared arena.old.nodes walk.old.node.0 }
    requires room { depth + walk.old.frames ≤ deepest_depth }
    ensures goes { IfOk result (λ n. GoesOn M.model W.model M.rebased M.Value.code (λ c. M.call_of (M.Call.code c)) depth
        (moment_at M.model W.model M.place M.item_of walk.old (told_of M.Value.code given) (W.state world.old) arena.old.nodes)
        (λ g. moment_at M.model W.model M.place M.item_of walk.new g (W.state world.new) arena.new.nodes) n) }
    ensures lowers { IfOk result (λ n. Lowers M.number (M.place walk.old.local) (M.place walk.new.local) n) }
    ensures node { walk.new.node ≡ walk.old.node }
    ensures room { OnOk result (depth + walk.new.frames ≤ deepest_depth) }
    ensures appends { OnlyAppends arena.old.nodes arena.new.nodes walk.old.node.0 }
    ensures units { OnOk result (walk.new.summary.units ≡ walk.old.summary.units) }
    ensures makes { IfOk result (λ n. StepMakes M.model W.model M.Value.code M.call_of depth
        (moment_at M.model W.model M.place M.item_of walk.old (told_of M.Value.code given) (W.state world.old) arena.old.nodes)
        (λ g. moment_at M.model W.model M.place M.item_of walk.new g (W.state world.new) arena.new.nodes)
        arena.old.made arena.new.made (owed M.marked arena.old.made (M.place walk.old.local)) (owed M.marked arena.new.made (M.place walk.new.local)) n) }
{
    let action = machine.step(alloc, &mut walk.local, given, steps)?;
    match action {
        Action::Ask(key) => ask(alloc, &mut walk.summary, key, world),
        Action::Put(key, value) => {
            put(alloc, &mut walk.summary, key, value, world)?;
            tell_nothing()
        }
        Action::Bump => {
            walk.summary.count_call()?;
            world.bump(1);
            tell_nothing()
        }
        Action::Emit(item) => {
            append(arena, walk.node, item, steps)?;
            tell_nothing()
        }
        Action::Deepen => {
            if depth + walk.frames >= DEEPEST {
                walk.summary.find_no_room();
                return tell_too_deep();
            }
            walk.summary.deepen(walk.frames);
            walk.frames += 1;
            tell_nothing()
        }
        Action::Rise => {
            walk.frames = walk.frames.saturating_sub(1);
            tell_nothing()
        }
        Action::At(statement) => {
            world.at(statement);
            walk.summary.tell_at();
            tell_nothing()
        }
        Action::Count => Ok(Next::Counts),
        Action::Enter(call) => Ok(Next::Enters(call)),
        Action::Leave => Ok(Next::Leaves),
        Action::End => Ok(Next::Ends),
    }
}
