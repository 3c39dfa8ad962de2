//! One action of a call.
ghost use Rattle.std.specs.Prelude.{◌≡◌, ◌+◌, ℕ, Option, Some, None, List, [], ◌∷◌};
ghost use Rattle.std.specs.Prelude.{◌++◌, map, reverse, IfOk, OnOk, option_map, option_copied, slice_get};
ghost use Rattle.asking_core.specs.Actions.{told_of};
ghost use Rattle.plain_expansion.specs.Language.{Stack as StackOf};
ghost use Rattle.plain_expansion.specs.Expansion.{stepped, copying, statement_at, branched};
ghost use Rattle.plain_expansion.specs.Expansion.{first_stack as first_stack_of, outermost as outermost_of};
ghost use Rattle.plain_expansion.specs.Engine.{GoingOn, Performing, Telling, Doing, opened, heard, with_answer};
ghost use Rattle.plain_expansion.specs.Engine.{step_by, step_of, tried, roomy_step, puts_then};
ghost use Rattle.expansion_step.specs.Meaning.{meaning, call_by, fault_by, pairs_by, stack_by, entry_by, effect_by, point_by};
ghost use Rattle.expansion_step.specs.Places.{onward_by, pending_by, counted_first, keys_left, hearing, placing, deciding, phase_by};
ghost use Rattle.expansion_step.specs.Takes.{Takes};
ghost use Rattle.expansion_step.specs.declared.act.Act.TheVariants as does;

use crate::phase::{Onward, Pending, Phase, Taken};
use crate::{Act, CodedLanguage, Entry, Expander, Fault, Level, Performed, Stack};
use asking_core::{Action, Given, Noted};
use hl_base::OutOfMemory;
use kept_values::Kept;
use std::alloc::Global;
use std::mem;

impl<X: CodedLanguage> Expander<X> {
    /// Goes to the next statement of the innermost list. Places that do not fit their type count as want of memory.
    fn step_on(&self, stack: &mut Stack<X::Listing, X::Known>) -> Result<(), OutOfMemory>
        ensures { OnOk result (let m = meaning X.reads X.call_of X.Call.code X.Key.code X.Value.code in
            stack_by m stack.new ≡ stepped (stack_by m stack.old)) }
    {
        let Some(position) = stack.here.position.checked_add(1) else {
            return Err(OutOfMemory);
        };
        stack.here.position = position;
        Ok(())
    }

    /// Goes into a list that the statement copies.
    fn copy_into(
        &self,
        stack: &mut Stack<X::Listing, X::Known>,
        listing: X::Listing,
    ) -> Result<(), OutOfMemory>
        ensures { OnOk result (let m = meaning X.reads X.call_of X.Call.code X.Key.code X.Value.code in
            stack_by m stack.new ≡ copying (X.reads.listing listing) (stack_by m stack.old)) }
    {
        let Some(position) = stack.here.position.checked_add(1) else {
            return Err(OutOfMemory);
        };
        let inner = Level {
            listing,
            position: 0,
        };
        let mut outer = mem::replace(&mut stack.here, inner);
        outer.position = position;
        stack.below.push(outer)?;
        Ok(())
    }

    /// Where a call starts, with the answers to the keys of its entry.
    pub(crate) fn first_stack(
        &self,
        alloc: Global,
        call: &X::Call,
        answers: &[Noted<X::Key, X::Value>],
    ) -> Result<Stack<X::Listing, X::Known>, OutOfMemory>
        ensures { IfOk result (λ x. let m = meaning X.reads X.call_of X.Call.code X.Key.code X.Value.code in
            stack_by m x ≡ first_stack_of X.language (X.call_of (X.Call.code call.now)) (pairs_by m answers.now)) }
    {
        Ok(Stack {
            is_open_code: self.language.is_open_code(call),
            known: self.language.bind(alloc, call, answers)?,
            here: Level {
                listing: self.language.listing(alloc, call)?,
                position: 0,
            },
            below: Vec::new(alloc),
        })
    }

    /// Goes on from a place: with the statement that is there, or out of the list.
    pub(crate) fn go_on(
        &self,
        alloc: Global,
        stack: &mut Stack<X::Listing, X::Known>,
    ) -> Taken<X::Listing, X::Call, X::Key, X::Value, X::Item>
        ensures { let m = meaning X.reads X.call_of X.Call.code X.Key.code X.Value.code in
            Takes m (Doing (Performing (GoingOn (stack_by m stack.old)))) stack.new result }
    {
        if self.language.has_statement(&stack.here) {
            let phase = if stack.is_open_code {
                Phase::Placed
            } else {
                Phase::Decides(Vec::new(alloc))
            };
            return Taken {
                action: Action::Count,
                phase,
            };
        }
        match stack.below.pop() {
            Some(level) => {
                stack.here = level;
                Taken {
                    action: Action::Rise,
                    phase: Phase::Ready,
                }
            }
            None => Taken {
                action: Action::Leave,
                phase: Phase::Ready,
            },
        }
    }

    /// Goes on from a place, as a statement that is done does.
    fn resume(
        &self,
        alloc: Global,
        stack: &mut Stack<X::Listing, X::Known>,
    ) -> Result<Taken<X::Listing, X::Call, X::Key, X::Value, X::Item>, OutOfMemory>
        ensures { IfOk result (let m = meaning X.reads X.call_of X.Call.code X.Key.code X.Value.code in
            Takes m (Doing (Performing (GoingOn (stack_by m stack.old)))) stack.new) }
    {
        Ok(self.go_on(alloc, stack))
    }

    /// The answers to the keys of a statement, with the one that was given.
    fn hear_key(
        mut answers: Vec<Noted<X::Key, X::Value>>,
        key: X::Key,
        given: Given<X::Value>,
    ) -> Result<Vec<Noted<X::Key, X::Value>>, OutOfMemory>
        ensures { IfOk result (λ now. let m = meaning X.reads X.call_of X.Call.code X.Key.code X.Value.code in
            pairs_by m now.items ≡ with_answer X.language (told_of X.Value.code given) (X.Key.code key) (pairs_by m answers.items)) }
    {
        let Given::Answer(value) = given else {
            return Ok(answers);
        };
        answers.push(Noted { key, value })?;
        Ok(answers)
    }

    /// What is kept of a point, apart from the action that tells it: actions are moved at each step, and it is larger than all
    /// else that one has.
    fn boxed_item(
        &self,
        alloc: Global,
        stack: &Stack<X::Listing, X::Known>,
        said: X::Said,
        fault: Fault,
    ) -> Result<Box<X::Item>, OutOfMemory>
        ensures { IfOk result (λ i. let m = meaning X.reads X.call_of X.Call.code X.Key.code X.Value.code in
            X.reads.item i.value ≡ X.language.item_of (point_by m stack.now said (fault_by fault))) }
    {
        let item = self.language.item(alloc, stack, said, fault)?;
        Ok(Box::new(alloc, item)?)
    }

    /// Nothing is left to do but this.
    fn nothing_but(alloc: Global, onward: Onward<X::Call>) -> Pending<X::Call, X::Key, X::Value>
        ensures { let m = meaning X.reads X.call_of X.Call.code X.Key.code X.Value.code in
            (x : StackOf X.language.words) → pending_by m result x ≡ onward_by m onward x }
    {
        Pending {
            counts: false,
            puts: Vec::new(alloc),
            onward,
        }
    }

    /// Tells a point, with what is left to do.
    fn tell(
        item: Box<X::Item>,
        counts: bool,
        mut puts: Vec<Noted<X::Key, X::Value>>,
        onward: Onward<X::Call>,
    ) -> Taken<X::Listing, X::Call, X::Key, X::Value, X::Item>
        ensures { let m = meaning X.reads X.call_of X.Call.code X.Key.code X.Value.code in
            (x : Stack X.Listing X.Known) → Takes m
            (Doing (Telling (X.reads.item item.value)
            (counted_first m counts (puts_then (pairs_by m puts.items) (onward_by m onward (stack_by m x)))))) x result }
    {
        puts.reverse();
        Taken {
            action: Action::Emit(item),
            phase: Phase::Does(Pending {
                counts,
                puts,
                onward,
            }),
        }
    }

    /// Goes to a label, if it is somewhere and a branch is left.
    fn branch(
        &self,
        alloc: Global,
        stack: &mut Stack<X::Listing, X::Known>,
        said: X::Said,
        place: Option<u32>,
        change: Option<X::Change>,
    ) -> Result<Taken<X::Listing, X::Call, X::Key, X::Value, X::Item>, OutOfMemory>
        ensures { IfOk result (let m = meaning X.reads X.call_of X.Call.code X.Key.code X.Value.code in
            Takes m (Doing (step_of X.language
            (branched place (option_map (λ d. X.reads.changed d (X.reads.known stack.old.known)) change)
            (λ fault. point_by m stack.old said fault) (stack_by m stack.old)) (stack_by m stack.old))) stack.new) }
    {
        let Some(position) = place else {
            let item = self.boxed_item(alloc, stack, said, Fault::NoLabel)?;
            self.step_on(stack)?;
            return Ok(Self::tell(item, false, Vec::new(alloc), Onward::On));
        };
        let Some(change) = change else {
            let item = self.boxed_item(alloc, stack, said, Fault::NoBranchLeft)?;
            return Ok(Self::tell(item, false, Vec::new(alloc), Onward::Leave));
        };
        let item = self.boxed_item(alloc, stack, said, Fault::NoFault)?;
        self.language.change(alloc, &mut stack.known, change)?;
        stack.here.position = position;
        Ok(Self::tell(item, false, Vec::new(alloc), Onward::On))
    }

    /// A statement goes on with the next one.
    fn continue_on(
        &self,
        alloc: Global,
        stack: &mut Stack<X::Listing, X::Known>,
        said: X::Said,
        change: X::Change,
        puts: Vec<Noted<X::Key, X::Value>>,
    ) -> Result<Taken<X::Listing, X::Call, X::Key, X::Value, X::Item>, OutOfMemory>
        ensures { IfOk result (let m = meaning X.reads X.call_of X.Call.code X.Key.code X.Value.code in
            Takes m (Doing (step_by X.language (effect_by m (X.reads.known stack.old.known) said (does.Continues change puts))
            (stack_by m stack.old))) stack.new) }
    {
        let item = self.boxed_item(alloc, stack, said, Fault::NoFault)?;
        self.step_on(stack)?;
        self.language.change(alloc, &mut stack.known, change)?;
        Ok(Self::tell(item, false, puts, Onward::On))
    }

    /// A statement goes on at another one of its list.
    fn skip_to(
        &self,
        alloc: Global,
        stack: &mut Stack<X::Listing, X::Known>,
        said: X::Said,
        position: u32,
        change: X::Change,
        puts: Vec<Noted<X::Key, X::Value>>,
    ) -> Result<Taken<X::Listing, X::Call, X::Key, X::Value, X::Item>, OutOfMemory>
        ensures { IfOk result (let m = meaning X.reads X.call_of X.Call.code X.Key.code X.Value.code in
            Takes m (Doing (step_by X.language (effect_by m (X.reads.known stack.old.known) said (does.Skips position change puts))
            (stack_by m stack.old))) stack.new) }
    {
        let item = self.boxed_item(alloc, stack, said, Fault::NoFault)?;
        stack.here.position = position;
        self.language.change(alloc, &mut stack.known, change)?;
        Ok(Self::tell(item, false, puts, Onward::On))
    }

    /// A statement wants room for a frame.
    fn try_frame(
        &self,
        alloc: Global,
        stack: &mut Stack<X::Listing, X::Known>,
        said: X::Said,
        limited: X::Said,
        entry: Entry<X::Listing, X::Call, X::Key, X::Value>,
    ) -> Result<Taken<X::Listing, X::Call, X::Key, X::Value, X::Item>, OutOfMemory>
        ensures { IfOk result (let m = meaning X.reads X.call_of X.Call.code X.Key.code X.Value.code in
            Takes m (Doing (step_by X.language (effect_by m (X.reads.known stack.old.known) said (does.Enters limited entry))
            (stack_by m stack.old))) stack.new) }
    {
        let item = self.boxed_item(alloc, stack, said, Fault::NoFault)?;
        let limited = self.boxed_item(alloc, stack, limited, Fault::NoRoom)?;
        Ok(Taken {
            action: Action::Deepen,
            phase: Phase::Tried(limited, item, entry),
        })
    }

    /// A statement ends its call.
    fn return_from(
        &self,
        alloc: Global,
        stack: &mut Stack<X::Listing, X::Known>,
        said: X::Said,
    ) -> Result<Taken<X::Listing, X::Call, X::Key, X::Value, X::Item>, OutOfMemory>
        ensures { IfOk result (let m = meaning X.reads X.call_of X.Call.code X.Key.code X.Value.code in
            Takes m (Doing (step_by X.language (effect_by m (X.reads.known stack.old.known) said does.Returns)
            (stack_by m stack.old))) stack.new) }
    {
        let item = self.boxed_item(alloc, stack, said, Fault::NoFault)?;
        Ok(Self::tell(item, false, Vec::new(alloc), Onward::Leave))
    }

    /// A statement ends all.
    fn finish(
        &self,
        alloc: Global,
        stack: &mut Stack<X::Listing, X::Known>,
        said: X::Said,
    ) -> Result<Taken<X::Listing, X::Call, X::Key, X::Value, X::Item>, OutOfMemory>
        ensures { IfOk result (let m = meaning X.reads X.call_of X.Call.code X.Key.code X.Value.code in
            Takes m (Doing (step_by X.language (effect_by m (X.reads.known stack.old.known) said does.Finishes)
            (stack_by m stack.old))) stack.new) }
    {
        let item = self.boxed_item(alloc, stack, said, Fault::NoFault)?;
        Ok(Self::tell(item, false, Vec::new(alloc), Onward::Finish))
    }

    /// Does what a statement does, up to its point.
    fn carry(
        &self,
        alloc: Global,
        stack: &mut Stack<X::Listing, X::Known>,
        said: X::Said,
        act: Act<X::Listing, X::Label, X::Change, X::Said, X::Call, X::Key, X::Value>,
    ) -> Result<Taken<X::Listing, X::Call, X::Key, X::Value, X::Item>, OutOfMemory>
        ensures { IfOk result (let m = meaning X.reads X.call_of X.Call.code X.Key.code X.Value.code in
            Takes m (Doing (step_by X.language (effect_by m (X.reads.known stack.old.known) said act) (stack_by m stack.old))) stack.new) }
    {
        match act {
            Act::Continues(change, puts) => self.continue_on(alloc, stack, said, change, puts),
            Act::Skips(position, change, puts) => {
                self.skip_to(alloc, stack, said, position, change, puts)
            }
            Act::Branches(label, change) => {
                let place = self.language.place_of(&stack.here.listing, &label);
                self.branch(alloc, stack, said, place, change)
            }
            Act::Enters(limited, entry) => self.try_frame(alloc, stack, said, limited, entry),
            Act::Returns => self.return_from(alloc, stack, said),
            Act::Finishes => self.finish(alloc, stack, said),
        }
    }

    /// Follows the questions of a statement as far as the answers lead.
    fn decide(
        &self,
        alloc: Global,
        stack: &mut Stack<X::Listing, X::Known>,
        answers: Vec<Noted<X::Key, X::Value>>,
    ) -> Result<Taken<X::Listing, X::Call, X::Key, X::Value, X::Item>, OutOfMemory>
        ensures { IfOk result (let m = meaning X.reads X.call_of X.Call.code X.Key.code X.Value.code in
            Takes m (deciding m (statement_at X.language (stack_by m stack.old).here) (stack_by m stack.old) (pairs_by m answers.items))
            stack.new) }
    {
        let language = &self.language;
        match language.perform(alloc, &stack.here, &stack.known, answers.as_slice()) {
            Ok(Performed::Nothing) => self.resume(alloc, stack),
            Ok(Performed::Wants(key)) => {
                let asked = key.copy(alloc)?;
                Ok(Taken {
                    action: Action::Ask(asked),
                    phase: Phase::Waits(answers, key),
                })
            }
            Ok(Performed::Does(said, act)) => self.carry(alloc, stack, said, act),
            Err(error) => Err(error),
        }
    }

    /// Does the next thing that is left of a statement.
    fn do_next(
        &self,
        alloc: Global,
        stack: &mut Stack<X::Listing, X::Known>,
        mut pending: Pending<X::Call, X::Key, X::Value>,
    ) -> Result<Taken<X::Listing, X::Call, X::Key, X::Value, X::Item>, OutOfMemory>
        ensures { IfOk result (let m = meaning X.reads X.call_of X.Call.code X.Key.code X.Value.code in
            Takes m (Doing (Performing (pending_by m pending (stack_by m stack.old)))) stack.new) }
    {
        if pending.counts {
            pending.counts = false;
            return Ok(Taken {
                action: Action::Bump,
                phase: Phase::Does(pending),
            });
        }
        if let Some(put) = pending.puts.pop() {
            return Ok(Taken {
                action: Action::Put(put.key, put.value),
                phase: Phase::Does(pending),
            });
        }
        self.go_onward(alloc, stack, pending.onward)
    }

    /// Goes on once nothing is left to put.
    fn go_onward(
        &self,
        alloc: Global,
        stack: &mut Stack<X::Listing, X::Known>,
        onward: Onward<X::Call>,
    ) -> Result<Taken<X::Listing, X::Call, X::Key, X::Value, X::Item>, OutOfMemory>
        ensures { IfOk result (let m = meaning X.reads X.call_of X.Call.code X.Key.code X.Value.code in
            Takes m (Doing (Performing (onward_by m onward (stack_by m stack.old)))) stack.new) }
    {
        match onward {
            Onward::On => self.resume(alloc, stack),
            Onward::Enter(call) => Ok(Taken {
                action: Action::Enter(call),
                phase: Phase::Inside,
            }),
            Onward::Leave => Ok(Taken {
                action: Action::Leave,
                phase: Phase::Does(Self::nothing_but(alloc, Onward::Leave)),
            }),
            Onward::Finish => Ok(Taken {
                action: Action::End,
                phase: Phase::Does(Self::nothing_but(alloc, Onward::Finish)),
            }),
        }
    }

    /// Enters what a statement enters: a frame that was tried has room.
    fn enter(
        &self,
        alloc: Global,
        stack: &mut Stack<X::Listing, X::Known>,
        item: Box<X::Item>,
        entry: Entry<X::Listing, X::Call, X::Key, X::Value>,
    ) -> Result<Taken<X::Listing, X::Call, X::Key, X::Value, X::Item>, OutOfMemory>
        ensures { IfOk result (let m = meaning X.reads X.call_of X.Call.code X.Key.code X.Value.code in
            Takes m (Doing (roomy_step (X.reads.item item.value) (entry_by m entry) (stack_by m stack.old))) stack.new) }
    {
        match entry {
            Entry::Nowhere => {
                self.step_on(stack)?;
                Ok(Taken {
                    action: Action::Rise,
                    phase: Phase::Tells(item, Self::nothing_but(alloc, Onward::On)),
                })
            }
            Entry::Calling(call, mut puts) => {
                puts.reverse();
                Ok(Taken {
                    action: Action::Rise,
                    phase: Phase::Tells(
                        item,
                        Pending {
                            counts: true,
                            puts,
                            onward: Onward::Enter(call),
                        },
                    ),
                })
            }
            Entry::Copying(listing) => {
                self.copy_into(stack, listing)?;
                Ok(Self::tell(item, false, Vec::new(alloc), Onward::On))
            }
        }
    }

    /// Goes on after a frame was tried.
    fn enter_or_pass(
        &self,
        alloc: Global,
        stack: &mut Stack<X::Listing, X::Known>,
        limited: Box<X::Item>,
        item: Box<X::Item>,
        entry: Entry<X::Listing, X::Call, X::Key, X::Value>,
        given: Given<X::Value>,
    ) -> Result<Taken<X::Listing, X::Call, X::Key, X::Value, X::Item>, OutOfMemory>
        ensures { IfOk result (let m = meaning X.reads X.call_of X.Call.code X.Key.code X.Value.code in
            Takes m (Doing (tried X.language (told_of X.Value.code given) (X.reads.item limited.value) (X.reads.item item.value)
            (entry_by m entry) (stack_by m stack.old))) stack.new) }
    {
        if let Given::TooDeep = given {
            self.step_on(stack)?;
            return Ok(Self::tell(limited, false, Vec::new(alloc), Onward::On));
        }
        self.enter(alloc, stack, item, entry)
    }

    /// The number of the outermost statement: of the lists that copy others, that of the COPY in the outermost one.
    fn outermost(stack: &Stack<X::Listing, X::Known>) -> u32
        ensures { let m = meaning X.reads X.call_of X.Call.code X.Key.code X.Value.code in
            result ≡ outermost_of (stack_by m stack.now).here (stack_by m stack.now).below }
    {
        match stack.below.as_slice().first() {
            Some(level) => level.position.saturating_sub(1),
            None => stack.here.position,
        }
    }

    /// Tells the world of the outermost statement.
    fn place(
        &self,
        alloc: Global,
        stack: &mut Stack<X::Listing, X::Known>,
    ) -> Result<Taken<X::Listing, X::Call, X::Key, X::Value, X::Item>, OutOfMemory>
        ensures { IfOk result (let m = meaning X.reads X.call_of X.Call.code X.Key.code X.Value.code in
            Takes m (placing m (statement_at X.language (stack_by m stack.old).here) (stack_by m stack.old)) stack.new) }
    {
        if !self.language.has_statement(&stack.here) {
            return self.resume(alloc, stack);
        }
        let position = Self::outermost(stack);
        Ok(Taken {
            action: Action::At(position),
            phase: Phase::Decides(Vec::new(alloc)),
        })
    }

    /// Goes on with the questions of a statement, with what was given.
    fn decide_on(
        &self,
        alloc: Global,
        stack: &mut Stack<X::Listing, X::Known>,
        answers: Vec<Noted<X::Key, X::Value>>,
        key: X::Key,
        given: Given<X::Value>,
    ) -> Result<Taken<X::Listing, X::Call, X::Key, X::Value, X::Item>, OutOfMemory>
        ensures { IfOk result (let m = meaning X.reads X.call_of X.Call.code X.Key.code X.Value.code in
            Takes m (deciding m (statement_at X.language (stack_by m stack.old).here) (stack_by m stack.old)
            (with_answer X.language (told_of X.Value.code given) (X.Key.code key) (pairs_by m answers.items))) stack.new) }
    {
        let answers = Self::hear_key(answers, key, given)?;
        self.decide(alloc, stack, answers)
    }

    /// Tells a point that waited for a frame.
    fn tell_boxed(
        item: Box<X::Item>,
        pending: Pending<X::Call, X::Key, X::Value>,
    ) -> Result<Taken<X::Listing, X::Call, X::Key, X::Value, X::Item>, OutOfMemory>
        ensures { IfOk result (λ t. let m = meaning X.reads X.call_of X.Call.code X.Key.code X.Value.code in
            (x : Stack X.Listing X.Known) → Takes m (Doing (Telling (X.reads.item item.value) (pending_by m pending (stack_by m x)))) x t) }
    {
        Ok(Taken {
            action: Action::Emit(item),
            phase: Phase::Does(pending),
        })
    }

    /// Goes on behind what was entered.
    fn come_back(
        &self,
        alloc: Global,
        stack: &mut Stack<X::Listing, X::Known>,
    ) -> Result<Taken<X::Listing, X::Call, X::Key, X::Value, X::Item>, OutOfMemory>
        ensures { IfOk result (let m = meaning X.reads X.call_of X.Call.code X.Key.code X.Value.code in
            Takes m (Doing (Performing (GoingOn (stepped (stack_by m stack.old))))) stack.new) }
    {
        self.step_on(stack)?;
        self.resume(alloc, stack)
    }

    /// The next action.
    pub(crate) fn advance(
        &self,
        alloc: Global,
        stack: &mut Stack<X::Listing, X::Known>,
        phase: Phase<X::Listing, X::Call, X::Key, X::Value, X::Item>,
        given: Given<X::Value>,
    ) -> Result<Taken<X::Listing, X::Call, X::Key, X::Value, X::Item>, OutOfMemory>
        ensures { IfOk result (let m = meaning X.reads X.call_of X.Call.code X.Key.code X.Value.code in
            Takes m (heard X.language (phase_by m (stack_by m stack.old) phase) (told_of X.Value.code given)) stack.new) }
    {
        match phase {
            Phase::Ready => self.resume(alloc, stack),
            Phase::Placed => self.place(alloc, stack),
            Phase::Decides(answers) => self.decide(alloc, stack, answers),
            Phase::Waits(answers, key) => self.decide_on(alloc, stack, answers, key, given),
            Phase::Tells(item, pending) => Self::tell_boxed(item, pending),
            Phase::Does(pending) => self.do_next(alloc, stack, pending),
            Phase::Tried(limited, item, entry) => {
                self.enter_or_pass(alloc, stack, limited, item, entry, given)
            }
            Phase::Inside => self.come_back(alloc, stack),
        }
    }
}
