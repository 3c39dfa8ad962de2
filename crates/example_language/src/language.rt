//! The language.
ghost use Rattle.std.specs.Prelude.{◌≡◌, ℕ, List, [], map, reverse, option_map, slice_get, IfOk};
ghost use Rattle.plain_expansion.specs.Example.{Line as LineOf, example, example_list};
ghost use Rattle.expansion_step.specs.Meaning.{performed_by};
ghost use Rattle.example_language.specs.Lines.{line_by, lists_by};
ghost use Rattle.example_language.specs.Values.{call_in, reading, calls_move, value_is_writable, calls_back};

use crate::effects::performed;
use crate::{Change, Knowledge, Line, ListNumber, Listing, Question, Shown, Value};
use asking_core::Noted;
use expansion_step::{CodedLanguage, Fault, Level, Performed, Stack};
use hl_base::OutOfMemory;
use std::alloc::Global;
use std::marker::{Brand, PhantomData};

/// A type that stands for the lists of a language, and for how many branches a call may take.
pub trait Program {
    ghost lists: { List (List LineOf) };

    ghost branches: { ℕ };
}

/// A program that is picked where a language is made (`Brand`).
impl Program for Brand {
    ghost lists = { [] };

    ghost branches = { 0 };
}

/// The language of some lists.
#[derive(Drop)]
pub struct ExampleLanguage<P: Program> {
    lists: Vec<Listing>,
    branches: u32,
    program: PhantomData<P>,
    ghost lists_are: { lists_by lists.items ≡ P.lists },
    ghost branches_are: { branches ≡ P.branches },
}

impl<P: Program> ExampleLanguage<P> {
    /// The language of these lists.
    pub fn new(lists: Vec<Listing>, branches: u32) -> ExampleLanguage<P>
        requires lists { lists_by lists.items ≡ P.lists }
        requires branches { branches ≡ P.branches }
    {
        ExampleLanguage {
            lists,
            branches,
            program: PhantomData,
        }
    }

    /// The line at a place of a list.
    fn line_at(&self, list: u32, position: u32) -> Option<Line>
        ensures { option_map line_by result ≡ slice_get (example_list P.lists list) position }
    {
        match self.lists.as_slice().get(list as usize) {
            Some(listing) => listing.line_at(position),
            None => None,
        }
    }
}

/// The positions of levels, the last first.
fn positions(alloc: Global, levels: &[Level<u32>]) -> Result<Vec<u32>, OutOfMemory>
    ensures { IfOk result (λ v. v.items ≡ map (λ l. l.position) (reverse levels.now)) }
{
    Ok(
        levels
            .iter()
            .rev()
            .map(|level| level.position)
            .collect(alloc)?,
    )
}

impl<P: Program> CodedLanguage for ExampleLanguage<P> {
    type Key = Question;

    type Value = Value;

    type Call = ListNumber;

    type Listing = u32;

    type Label = u32;

    type Known = Knowledge;

    type Change = Change;

    type Said = u32;

    type Item = Shown;

    type Frames = Vec<u32>;

    ghost language = { example P.lists P.branches };

    ghost reads = { reading P.lists P.branches };

    ghost call_of = { call_in };

    ghost frames_of = { λ f. f.items };

    ghost moving = { calls_move };

    ghost writable = { value_is_writable };

    ghost rebased = { calls_back };

    fn listing(&self, _alloc: Global, call: &Self::Call) -> Result<Self::Listing, OutOfMemory> {
        Ok(call.number)
    }

    fn is_open_code(&self, call: &Self::Call) -> bool {
        call.number == 0
    }

    fn entry_keys(&self, alloc: Global, call: &Self::Call) -> Result<Vec<Self::Key>, OutOfMemory> {
        let mut keys = Vec::new(alloc);
        if call.number == 0 {
            return Ok(keys);
        }
        keys.push(Question::Calls)?;
        Ok(keys)
    }

    fn bind(
        &self,
        _alloc: Global,
        _call: &Self::Call,
        answers: &[Noted<Self::Key, Self::Value>],
    ) -> Result<Self::Known, OutOfMemory> {
        let calls = match answers.first() {
            Some(noted) => noted.value.number,
            None => 0,
        };
        Ok(Knowledge {
            branches: self.branches,
            calls,
        })
    }

    fn has_statement(&self, here: &Level<Self::Listing>) -> bool {
        self.line_at(here.listing, here.position).is_some()
    }

    fn place_of(&self, listing: &Self::Listing, label: &Self::Label) -> Option<u32> {
        let list = *listing;
        match self.lists.as_slice().get(list as usize) {
            Some(listing) => listing.place_of(*label),
            None => None,
        }
    }

    fn perform(
        &self,
        alloc: Global,
        here: &Level<Self::Listing>,
        known: &Self::Known,
        answers: &[Noted<Self::Key, Self::Value>],
    ) -> Result<
        Performed<
            Self::Listing,
            Self::Label,
            Self::Change,
            Self::Said,
            Self::Call,
            Self::Key,
            Self::Value,
        >,
        OutOfMemory,
    > {
        match self.line_at(here.listing, here.position) {
            Some(line) => performed::<P>(alloc, line, *known, answers),
            None => Ok(Performed::Nothing),
        }
    }

    fn change(
        &self,
        _alloc: Global,
        known: &mut Self::Known,
        change: Self::Change,
    ) -> Result<(), OutOfMemory> {
        match change {
            Change::Unchanged => {}
            Change::TakesBranch => known.branches = known.branches.saturating_sub(1),
        }
        Ok(())
    }

    fn item(
        &self,
        _alloc: Global,
        stack: &Stack<Self::Listing, Self::Known>,
        said: Self::Said,
        fault: Fault,
    ) -> Result<Self::Item, OutOfMemory> {
        Ok(Shown {
            line: stack.here.position,
            deep: stack.below.len(),
            said,
            fault,
        })
    }

    fn frames(
        &self,
        alloc: Global,
        here: &Level<Self::Listing>,
        below: &[Level<Self::Listing>],
    ) -> Result<Self::Frames, OutOfMemory> {
        let mut frames = positions(alloc, below)?;
        frames.insert(0, here.position)?;
        Ok(frames)
    }

    fn is_moving(&self, key: &Self::Key) -> bool {
        matches!(key, Question::Calls)
    }

    fn is_writable(&self, key: &Self::Key) -> bool {
        matches!(key, Question::Value)
    }

    fn rebase(
        &self,
        _alloc: Global,
        key: &Self::Key,
        value: &Self::Value,
        calls: u32,
    ) -> Result<Self::Value, OutOfMemory> {
        let number = match key {
            Question::Value => value.number,
            Question::Calls => value.number.wrapping_sub(calls),
        };
        Ok(Value { number })
    }
}
