//! The machine that expands, among the asking machines: it watches itself.
ghost use Rattle.std.specs.Prelude.{◌≡◌, ◌+◌, ◌-◌, ℕ, IfOk, OnErr, if◌then◌else◌};
ghost use Rattle.asking_core.specs.Actions.{move_of, told_of, ticks_of};
ghost use Rattle.asking_core.specs.Machines.{is_count};
ghost use Rattle.plain_expansion.specs.Engine.{expander};
ghost use Rattle.plain_expansion.specs.Guard.{is_allowed, is_counted};
ghost use Rattle.plain_expansion.specs.GuardLaws.{guarded_falls, guarded_emits_once, guarded_is_modest};
ghost use Rattle.plain_expansion.specs.Marks.{is_quiet, is_marked, expander_emits_once, expander_quietens};
ghost use Rattle.plain_expansion.specs.Laws.{careful_expander, left_of, marked_of, quiet_of};
ghost use Rattle.expansion_step.specs.Meaning.{meaning};
ghost use Rattle.expansion_step.specs.Places.{place_by};
ghost use Rattle.expansion_step.specs.Watch.{most_actions, watched_by};

use crate::phase::Progress;
use crate::{CodedLanguage, Expander, Level, Local, Watched};
use asking_core::{Action, AskMachine, Given};
use hl_base::{Ledger, OutOfMemory, Steps};
use kept_values::Kept;
use std::alloc::Global;

/// How many actions a call may take between two units of fuel: more than a statement has characters.
const MOST_ACTIONS: u32 = u32::MAX;

impl<X: CodedLanguage> Expander<X> {
    /// Whether a call still asks the keys of its entry.
    fn is_quiet(local: &Local<X::Listing, X::Known, X::Call, X::Key, X::Value, X::Item>) -> bool
        ensures { let m = meaning X.reads X.call_of X.Call.code X.Key.code X.Value.code in result ≡ is_quiet (place_by m local.now) }
    {
        match &local.progress {
            Progress::Entering(entrance) => {
                entrance.answers.as_slice().len() < entrance.keys.as_slice().len()
            }
            Progress::Within(_, _) => false,
        }
    }

    /// Whether there is room for an action: a count and a last one always have it.
    fn is_counted(left: u32, action: &Action<X::Key, X::Value, X::Call, X::Item>) -> bool
        ensures { result ≡ is_counted left (move_of X.Key.code X.Value.code X.Call.code X.call_of X.reads.item action.now) }
    {
        match action {
            Action::Count => true,
            Action::Leave => true,
            Action::End => true,
            _ => left > 0,
        }
    }

    /// Whether an action is allowed: a moving key is asked only where the call is quiet, and only a writable one is put.
    fn is_allowed(
        &self,
        is_quiet: bool,
        action: &Action<X::Key, X::Value, X::Call, X::Item>,
    ) -> bool
        ensures { result ≡ is_allowed X.moving X.writable is_quiet
            (move_of X.Key.code X.Value.code X.Call.code X.call_of X.reads.item action.now) }
    {
        match action {
            Action::Ask(key) => is_quiet || !self.language.is_moving(key),
            Action::Put(key, _) => self.language.is_writable(key),
            _ => true,
        }
    }

    /// How many actions are left behind one. It ticks once where that takes a unit of fuel.
    fn watch<L: Ledger>(
        left: u32,
        action: &Action<X::Key, X::Value, X::Call, X::Item>,
        steps: &mut Steps<L>,
    ) -> u32
        ensures left { result ≡ (if is_count (move_of X.Key.code X.Value.code X.Call.code X.call_of X.reads.item action.now) then
            most_actions else left - 1) }
        ensures ticks { steps.new ≡ steps.old + ticks_of action.now }
    {
        match action {
            Action::Count => {
                steps.tick();
                MOST_ACTIONS
            }
            _ => left.saturating_sub(1),
        }
    }
}

impl<X: CodedLanguage> AskMachine for Expander<X> {
    type Key = X::Key;

    type Value = X::Value;

    type Call = X::Call;

    type Item = X::Item;

    type Frames = X::Frames;

    type Local = Watched<X::Listing, X::Known, X::Call, X::Key, X::Value, X::Item>;

    ghost model = { careful_expander X.language most_actions X.moving X.writable };

    ghost place = { λ w. watched_by (meaning X.reads X.call_of X.Call.code X.Key.code X.Value.code) w };

    ghost call_of = { X.call_of };

    ghost item_of = { X.reads.item };

    ghost frames_of = { X.frames_of };

    ghost number = { left_of X.language };

    ghost marked = { marked_of X.language };

    ghost moving = { X.moving };

    ghost quiet = { quiet_of X.language };

    ghost writable = { X.writable };

    ghost rebased = { X.rebased };

    fn begin(&self, alloc: Global, call: &Self::Call) -> Result<Self::Local, OutOfMemory> {
        Ok(Watched {
            local: self.begin_unwatched(alloc, call)?,
            left: MOST_ACTIONS,
        })
    }

    fn step<L: Ledger>(
        &self,
        alloc: Global,
        local: &mut Self::Local,
        given: Given<Self::Value>,
        steps: &mut Steps<L>,
    ) -> Result<Action<Self::Key, Self::Value, Self::Call, Self::Item>, OutOfMemory>
        ensures action { IfOk result (λ a. let m = meaning X.reads X.call_of X.Call.code X.Key.code X.Value.code in
            move_of X.Key.code X.Value.code X.Call.code X.call_of X.reads.item a
            ≡ (careful_expander X.language most_actions X.moving X.writable).move_at (watched_by m local.old)
            (told_of X.Value.code given)) }
        ensures place { IfOk result (λ _. let m = meaning X.reads X.call_of X.Call.code X.Key.code X.Value.code in
            watched_by m local.new ≡ (careful_expander X.language most_actions X.moving X.writable).after (watched_by m local.old)
            (told_of X.Value.code given)) }
        ensures ticks { IfOk result (λ a. steps.new ≡ steps.old + ticks_of a) }
        ensures no_tick { OnErr result (steps.new ≡ steps.old) }
    {
        let is_quiet = Self::is_quiet(&local.local);
        let action = self.step_unwatched(alloc, &mut local.local, given)?;
        if !Self::is_counted(local.left, &action) || !self.is_allowed(is_quiet, &action) {
            return Err(OutOfMemory);
        }
        local.left = Self::watch(local.left, &action, steps);
        Ok(action)
    }

    fn frames(&self, alloc: Global, local: &Self::Local) -> Result<Self::Frames, OutOfMemory> {
        let entrance = match &local.local.progress {
            Progress::Entering(entrance) => entrance,
            Progress::Within(stack, _) => {
                let below = stack.below.as_slice();
                return self.language.frames(alloc, &stack.here, below);
            }
        };
        let here = Level {
            listing: self.language.listing(alloc, &entrance.call)?,
            position: 0,
        };
        let below = Vec::new(alloc);
        self.language.frames(alloc, &here, below.as_slice())
    }

    fn rebase(
        &self,
        alloc: Global,
        key: &Self::Key,
        value: &Self::Value,
        calls: u32,
    ) -> Result<Self::Value, OutOfMemory> {
        self.language.rebase(alloc, key, value, calls)
    }

    ghost falls = { guarded_falls (expander X.language) most_actions X.moving X.writable is_quiet };

    ghost emits_once_a_count = { guarded_emits_once (expander X.language) most_actions X.moving X.writable is_quiet is_marked
        (expander_emits_once X.language) };

    ghost modest = { guarded_is_modest (expander X.language) most_actions X.moving X.writable is_quiet (expander_quietens X.language) };
}
