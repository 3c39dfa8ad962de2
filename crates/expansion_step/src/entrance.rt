//! The entry of a call: the keys that it asks before its first statement.
ghost use Rattle.std.specs.Prelude.{◌≡◌, IfOk, option_copied, slice_get};
ghost use Rattle.asking_core.specs.Actions.{told_of};
ghost use Rattle.plain_expansion.specs.Engine.{opened, heard};
ghost use Rattle.expansion_step.specs.Meaning.{meaning, call_by, pairs_by};
ghost use Rattle.expansion_step.specs.Places.{keys_left, hearing, opened_by, entrance_by};
ghost use Rattle.expansion_step.specs.Takes.{Opens};

use crate::phase::{Entrance, Opened};
use crate::{CodedLanguage, Expander};
use asking_core::{Given, Noted};
use hl_base::OutOfMemory;
use kept_values::Kept;
use std::alloc::Global;
use std::mem;

impl<X: CodedLanguage> Expander<X> {
    /// The key at a place of a list.
    fn key_at<'a>(keys: &'a [X::Key], place: usize) -> Option<&'a X::Key>
        ensures { option_copied result ≡ slice_get keys.now place }
    {
        if place < keys.len() {
            return Some(&keys[place]);
        }
        None
    }

    /// Asks the next key of the entry, or begins with the first statement.
    fn open(
        &self,
        alloc: Global,
        entrance: &mut Entrance<X::Call, X::Key, X::Value>,
    ) -> Result<Opened<X::Listing, X::Known, X::Call, X::Key, X::Value, X::Item>, OutOfMemory>
        ensures { IfOk result (λ o. let m = meaning X.reads X.call_of X.Call.code X.Key.code X.Value.code in
            Opens m (opened_by m entrance.old) entrance.new o) }
    {
        let place = entrance.answers.as_slice().len();
        let Some(key) = Self::key_at(entrance.keys.as_slice(), place) else {
            let answers = entrance.answers.as_slice();
            let mut stack = self.first_stack(alloc, &entrance.call, answers)?;
            let taken = self.go_on(alloc, &mut stack);
            return Ok(Opened::Begins(stack, taken));
        };
        let asked = key.copy(alloc)?;
        entrance.waits = true;
        Ok(Opened::Asks(asked))
    }

    /// The answers to the keys of an entry, with the one that was given.
    fn hear(
        alloc: Global,
        keys: &[X::Key],
        mut answers: Vec<Noted<X::Key, X::Value>>,
        given: Given<X::Value>,
    ) -> Result<Vec<Noted<X::Key, X::Value>>, OutOfMemory>
        ensures { IfOk result (λ now. (c : X.Call) → let m = meaning X.reads X.call_of X.Call.code X.Key.code X.Value.code in
            opened X.language (call_by m c) (keys_left m keys.now now.items) (pairs_by m now.items)
            ≡ heard X.language (hearing m c (keys_left m keys.now answers.items) (pairs_by m answers.items)) (told_of X.Value.code given)) }
    {
        let Given::Answer(value) = given else {
            return Ok(answers);
        };
        let place = answers.as_slice().len();
        let Some(key) = Self::key_at(keys, place) else {
            return Ok(answers);
        };
        let key = key.copy(alloc)?;
        answers.push(Noted { key, value })?;
        Ok(answers)
    }

    /// What a call at its entry does next.
    pub(crate) fn enter_on(
        &self,
        alloc: Global,
        entrance: &mut Entrance<X::Call, X::Key, X::Value>,
        given: Given<X::Value>,
    ) -> Result<Opened<X::Listing, X::Known, X::Call, X::Key, X::Value, X::Item>, OutOfMemory>
        ensures { IfOk result (λ o. let m = meaning X.reads X.call_of X.Call.code X.Key.code X.Value.code in
            Opens m (heard X.language (entrance_by m entrance.old) (told_of X.Value.code given)) entrance.new o) }
    {
        if !entrance.waits {
            return self.open(alloc, entrance);
        }
        let answers = mem::replace(&mut entrance.answers, Vec::new(alloc));
        entrance.answers = Self::hear(alloc, entrance.keys.as_slice(), answers, given)?;
        self.open(alloc, entrance)
    }
}
