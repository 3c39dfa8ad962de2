//! The machine that expands.
ghost use Rattle.std.specs.Prelude.{◌≡◌, IfOk, map, [], drop};
ghost use Rattle.asking_core.specs.Actions.{move_of, told_of};
ghost use Rattle.plain_expansion.specs.Engine.{expander};
ghost use Rattle.expansion_step.specs.Meaning.{meaning, stack_by};
ghost use Rattle.expansion_step.specs.Places.{phase_by, place_by};

use crate::phase::{Entrance, Opened, Phase, Progress};
use crate::{CodedLanguage, Local, Stack};
use asking_core::{Action, Given};
use hl_base::OutOfMemory;
use kept_values::Kept;
use std::alloc::Global;
use std::mem;

/// The machine that expands a language that is given in code.
#[derive(Drop)]
pub struct Expander<X: CodedLanguage> {
    pub(crate) language: X,
}

impl<X: CodedLanguage> Expander<X> {
    /// The machine of a language.
    pub fn new(language: X) -> Expander<X> {
        Expander { language }
    }

    /// Where a call starts.
    pub fn begin_unwatched(
        &self,
        alloc: Global,
        call: &X::Call,
    ) -> Result<Local<X::Listing, X::Known, X::Call, X::Key, X::Value, X::Item>, OutOfMemory>
        ensures { IfOk result (λ l. let m = meaning X.reads X.call_of X.Call.code X.Key.code X.Value.code in
            place_by m l ≡ (expander X.language).start (X.call_of (X.Call.code call.now))) }
    {
        let entrance = Entrance {
            call: call.copy(alloc)?,
            keys: self.language.entry_keys(alloc, call)?,
            answers: Vec::new(alloc),
            waits: false,
        };
        Ok(Local {
            progress: Progress::Entering(entrance),
        })
    }

    /// What a call does next behind its entry, and the phase behind that.
    fn step_within(
        &self,
        alloc: Global,
        stack: &mut Stack<X::Listing, X::Known>,
        phase: &mut Phase<X::Listing, X::Call, X::Key, X::Value, X::Item>,
        given: Given<X::Value>,
    ) -> Result<Action<X::Key, X::Value, X::Call, X::Item>, OutOfMemory>
        ensures action { IfOk result (λ a. let m = meaning X.reads X.call_of X.Call.code X.Key.code X.Value.code in
            move_of X.Key.code X.Value.code X.Call.code X.call_of X.reads.item a
            ≡ (expander X.language).move_at (phase_by m (stack_by m stack.old) phase.old) (told_of X.Value.code given)) }
        ensures place { IfOk result (λ _. let m = meaning X.reads X.call_of X.Call.code X.Key.code X.Value.code in
            phase_by m (stack_by m stack.new) phase.new
            ≡ (expander X.language).after (phase_by m (stack_by m stack.old) phase.old) (told_of X.Value.code given)) }
    {
        let now = mem::replace(phase, Phase::Ready);
        let taken = self.advance(alloc, stack, now, given)?;
        *phase = taken.phase;
        Ok(taken.action)
    }

    /// What a call does next that may be at its entry, and the place behind it.
    fn step_anywhere(
        &self,
        alloc: Global,
        local: &mut Local<X::Listing, X::Known, X::Call, X::Key, X::Value, X::Item>,
        given: Given<X::Value>,
    ) -> Result<Action<X::Key, X::Value, X::Call, X::Item>, OutOfMemory>
        ensures action { IfOk result (λ a. let m = meaning X.reads X.call_of X.Call.code X.Key.code X.Value.code in
            move_of X.Key.code X.Value.code X.Call.code X.call_of X.reads.item a
            ≡ (expander X.language).move_at (place_by m local.old) (told_of X.Value.code given)) }
        ensures place { IfOk result (λ _. let m = meaning X.reads X.call_of X.Call.code X.Key.code X.Value.code in
            place_by m local.new ≡ (expander X.language).after (place_by m local.old) (told_of X.Value.code given)) }
    {
        match &mut local.progress {
            Progress::Entering(entrance) => match self.enter_on(alloc, entrance, given)? {
                Opened::Asks(key) => Ok(Action::Ask(key)),
                Opened::Begins(stack, taken) => {
                    local.progress = Progress::Within(stack, taken.phase);
                    Ok(taken.action)
                }
            },
            Progress::Within(stack, phase) => self.step_within(alloc, stack, phase, given),
        }
    }

    /// What a call does next, and the place behind it. Where there is no memory, the call is lost. Most steps are behind the
    /// entry, so what is large at the entry stands in a function of its own.
    pub fn step_unwatched(
        &self,
        alloc: Global,
        local: &mut Local<X::Listing, X::Known, X::Call, X::Key, X::Value, X::Item>,
        given: Given<X::Value>,
    ) -> Result<Action<X::Key, X::Value, X::Call, X::Item>, OutOfMemory>
        ensures action { IfOk result (λ a. let m = meaning X.reads X.call_of X.Call.code X.Key.code X.Value.code in
            move_of X.Key.code X.Value.code X.Call.code X.call_of X.reads.item a
            ≡ (expander X.language).move_at (place_by m local.old) (told_of X.Value.code given)) }
        ensures place { IfOk result (λ _. let m = meaning X.reads X.call_of X.Call.code X.Key.code X.Value.code in
            place_by m local.new ≡ (expander X.language).after (place_by m local.old) (told_of X.Value.code given)) }
    {
        if let Progress::Within(stack, phase) = &mut local.progress {
            return self.step_within(alloc, stack, phase, given);
        }
        self.step_anywhere(alloc, local, given)
    }
}
