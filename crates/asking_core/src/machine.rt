//! Machines: what runs a call by asking and putting.
ghost use Rattle.std.specs.Prelude.{◌≡◌, ◌+◌, ℕ, Bool, IfOk, OnErr};
ghost use Rattle.kept_values.specs.Trees.{Tree};
ghost use Rattle.asking_core.specs.Machines.{MachineModel, Modest, Falls, EmitsOnceACount};
ghost use Rattle.asking_core.specs.Actions.{move_of, told_of, ticks_of};

use hl_base::{Ledger, OutOfMemory, Steps};
use kept_values::Kept;
use std::alloc::Global;

/// What a machine is told before a step.
#[derive(Drop)]
pub enum Given<V> {
    Nothing,
    Answer(V),
    Returned,
    TooDeep,
}

/// What a machine does next. `Ask` and `Put` go to the world. `Count` takes a unit of fuel. `Bump` adds one to the
/// world's call counter. `Emit` adds an item. `Deepen` begins a frame without a call and `Rise` ends the last such that
/// still stands. `Enter` runs a nested call one deeper. `At` tells the world which outermost statement is processed.
/// `Leave` ends the call, and `End` ends all.
#[derive(Drop)]
pub enum Action<K, V, C, I> {
    Ask(K),
    Put(K, V),
    Count,
    Bump,
    Emit(Box<I>),
    Deepen,
    Rise,
    Enter(C),
    At(u32),
    Leave,
    End,
}

/// A machine holds nothing that its answers depend on: what its calls answer is fixed by its type and their arguments.
pub trait AskMachine {
    type Key: Kept;

    type Value: Kept;

    type Call: Kept;

    type Item: Drop;

    type Frames: Drop;

    type Local: Drop;

    /// Where each call starts, and what is done at each place.
    ghost model: { MachineModel };

    /// The place that a local stands at.
    ghost place: { Self.Local → (model).Place };

    /// What a call, an item and a list of frames mean. A call is read from its tree, so that equal calls are one.
    ghost call_of: { Tree → (model).Call };

    ghost item_of: { Self.Item → (model).Item };

    ghost frames_of: { Self.Frames → (model).Frames };

    /// The number that falls with each step but `Count`, and the mark that `Count` sets and `Emit` takes.
    ghost number: { (model).Place → ℕ };

    ghost marked: { (model).Place → Bool };

    /// The keys whose answers counting and entering calls may change, where they may still be asked, and the keys that
    /// may be put.
    ghost moving: { Tree → Bool };

    ghost quiet: { (model).Place → Bool };

    ghost writable: { Tree → Bool };

    /// An answer taken back from just within a nested call to the start of its caller.
    ghost rebased: { Tree → Tree → ℕ → Tree };

    /// Where a call starts.
    fn begin(&self, alloc: Global, call: &Self::Call) -> Result<Self::Local, OutOfMemory>
        ensures { IfOk result (λ l. place l ≡ (model).start (call_of (Self.Call.code call.now))) };

    /// What is done next, and the place behind it. It ticks once exactly where that is `Count`.
    fn step<L: Ledger>(
        &self,
        alloc: Global,
        local: &mut Self::Local,
        given: Given<Self::Value>,
        steps: &mut Steps<L>,
    ) -> Result<Action<Self::Key, Self::Value, Self::Call, Self::Item>, OutOfMemory>
        ensures action { IfOk result (λ a. move_of Self.Key.code Self.Value.code Self.Call.code call_of item_of a ≡ (model).move_at (place local.old) (told_of Self.Value.code given)) }
        ensures place { IfOk result (λ _. place local.new ≡ (model).after (place local.old) (told_of Self.Value.code given)) }
        ensures ticks { IfOk result (λ a. steps.new ≡ steps.old + ticks_of a) }
        ensures no_tick { OnErr result (steps.new ≡ steps.old) };

    /// The frames of the call at the statement that is now met.
    fn frames(&self, alloc: Global, local: &Self::Local) -> Result<Self::Frames, OutOfMemory>
        ensures { IfOk result (λ f. frames_of f ≡ (model).frames_at (place local.now)) };

    /// A value of a key just within a nested call, where the caller had counted so many calls, that one included, as the
    /// value at the caller's start.
    fn rebase(
        &self,
        alloc: Global,
        key: &Self::Key,
        value: &Self::Value,
        calls: u32,
    ) -> Result<Self::Value, OutOfMemory>
        ensures { IfOk result (λ v. Self.Value.code v ≡ rebased (Self.Key.code key.now) (Self.Value.code value.now) calls) };

    /// Each run ends: between two counts there are only so many steps.
    ghost falls: { Falls model number };

    /// A run has at most as many items as it took units of fuel.
    ghost emits_once_a_count: { EmitsOnceACount model marked };

    /// Only writable keys are put, and moving keys are asked only before a call was counted or entered.
    ghost modest: { Modest model moving writable quiet };
}
