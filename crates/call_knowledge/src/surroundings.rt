//! What surrounds the expressions of a call.
ghost use Rattle.std.specs.Prelude.{◌≡◌, IfOk, IsSomeAnd, Some, option_copied};
ghost use Rattle.call_knowledge.specs.Standing as standing;
ghost use Rattle.call_knowledge.specs.Tellings.{answers_of};
ghost use Rattle.call_sites.specs.Values.{known_tree};
ghost use Rattle.question_trees.specs.Answers.{answer_in};
ghost use Rattle.cond_expr.specs.Asking.{Answers};
ghost use Rattle.cond_expr.specs.Frames.{found_by, found_of};
ghost use Rattle.cond_expr.specs.declared.lookups.Found.TheVariants as found;
ghost use Rattle.set_symbols.specs.Table.{declared_of, place, value_of};

use crate::Knowledge;
use crate::aim::place_of;
use crate::meaning::Meaning;
use asking_core::Noted;
use call_sites::Known;
use cond_expr::{Found, Lookups};
use hl_base::{Answer, Key, Name, OutOfMemory, SetKind, SetValue, Text};
use kept_values::Kept;
use macro_binding::Worth;
use set_symbols::{Declared, SetTable};
use std::alloc::Global;

/// What a call knows, and the answers that it was given.
#[derive(Drop)]
pub struct Surroundings<'a> {
    pub knowledge: &'a Knowledge,
    pub answers: &'a [Noted<Key, Known>],
}

/// The value that is answered for a global SET symbol of a type.
fn value_answered(alloc: Global, kind: SetKind, answer: &Answer) -> Result<SetValue, OutOfMemory>
    ensures { IfOk result (λ v. v ≡ standing.answered kind answer.now) }
{
    match kind {
        SetKind::A => match answer {
            Answer::Number(number) => Ok(SetValue::A(*number)),
            _ => Ok(SetValue::A(0)),
        },
        SetKind::B => match answer {
            Answer::Bit(bit) => Ok(SetValue::B(*bit)),
            _ => Ok(SetValue::B(false)),
        },
        SetKind::C => match answer {
            Answer::Chars(text) => Ok(SetValue::C(text.copy(alloc)?)),
            _ => Ok(SetValue::C(Text::new(alloc))),
        },
    }
}

/// The element of this number, if there is one.
fn element(number: i32) -> Option<u32>
    ensures { result ≡ standing.element number }
{
    if number < 0 {
        return None;
    }
    place_of(number.cast_unsigned())
}

/// Where the value of an element with these subscripts is.
fn array_place(subscripts: &[i32]) -> Option<u32>
    ensures { result ≡ standing.array_place subscripts.now }
{
    match subscripts {
        [number] => element(*number),
        _ => None,
    }
}

/// A system variable symbol has no subscript.
fn system_value(alloc: Global, text: &Text, subscripts: &[i32]) -> Result<Found, OutOfMemory>
    ensures { IfOk result (λ f. (answers : Answers) → f ≡ found_by answers (standing.system_value text.now subscripts.now)) }
{
    if !subscripts.is_empty() {
        return Ok(Found::Fault(22));
    }
    Ok(Found::Parameter(text.copy(alloc)?))
}

/// What a parameter, or `&SYSLIST`, stands for.
fn bound_value(worth: Worth) -> Found
    ensures { result ≡ found_of (standing.bound_standing worth) }
{
    match worth {
        Worth::Text(text) => Found::Parameter(text),
        Worth::OutOfRange => Found::Fault(22),
    }
}

/// The value at a place of a table, which has the symbol.
fn local_value(
    alloc: Global,
    table: &SetTable,
    name: &Name,
    element: Option<u32>,
) -> Result<Found, OutOfMemory>
    ensures { IfOk result (λ f. IsSomeAnd (place element) (λ at. IsSomeAnd (value_of table.now name.now at) (λ held. f ≡ found.Value held))) }
{
    match table.get(alloc, name, element) {
        Ok(value) => Ok(Found::Value(value)),
        Err(_) => Err(OutOfMemory),
    }
}

/// The answer that expressions are told.
#[tactic(auto, using(crate::proofs::TellingLaws::told_back))]
fn told(known: &Known) -> &Answer
    ensures { result.now ≡ answer_in (known_tree known.now) }
{
    known.answer()
}

/// The first answer to a key that was noted.
pub fn answered<'a>(answers: &'a [Noted<Key, Known>], key: &Key) -> Option<&'a Answer>
    ensures { option_copied result ≡ answers_of answers.now key.now }
{
    for noted in answers {
        if noted.key.same(key) {
            return Some(told(&noted.value));
        }
    }
    None
}

impl<'a> Surroundings<'a> {
    /// What a call knows, with the answers that it was given.
    pub fn new(knowledge: &'a Knowledge, answers: &'a [Noted<Key, Known>]) -> Surroundings<'a>
        ensures knowledge { result.knowledge.now ≡ knowledge.now }
        ensures answers { result.answers.now ≡ answers.now }
    {
        Surroundings { knowledge, answers }
    }

    /// The value at a place of a global SET symbol.
    fn global_value(
        &self,
        alloc: Global,
        kind: SetKind,
        name: &Name,
        at: u32,
    ) -> Result<Found, OutOfMemory>
        ensures { IfOk result (λ f. f ≡ found_by (answers_of self.now.answers.now) (standing.global_value kind name.now at)) }
    {
        let key = Key::Global(kind, name.copy(), at);
        match answered(self.answers, &key) {
            Some(answer) => Ok(Found::Value(value_answered(alloc, kind, answer)?)),
            None => Ok(Found::Ask(key)),
        }
    }

    /// The value of a SET symbol without a subscript.
    fn scalar_value(
        &self,
        alloc: Global,
        declared: Declared,
        name: &Name,
        subscripts: &[i32],
    ) -> Result<Found, OutOfMemory>
        requires { declared_of self.now.knowledge.now.scalars name.now ≡ Some declared }
        ensures { IfOk result (λ f. f ≡ found_by (answers_of self.now.answers.now) (standing.symbol_value self.now.knowledge.now.scalars declared name.now (standing.scalar_place subscripts.now))) }
    {
        if !subscripts.is_empty() {
            return Ok(Found::Fault(22));
        }
        if declared.global {
            return self.global_value(alloc, declared.kind, name, 0);
        }
        let knowledge = self.knowledge;
        local_value(alloc, &knowledge.scalars, name, None)
    }

    /// The value of an element of a SET symbol with a subscript.
    fn element_value(
        &self,
        alloc: Global,
        declared: Declared,
        name: &Name,
        subscripts: &[i32],
    ) -> Result<Found, OutOfMemory>
        requires { declared_of self.now.knowledge.now.arrays name.now ≡ Some declared }
        ensures { IfOk result (λ f. f ≡ found_by (answers_of self.now.answers.now) (standing.symbol_value self.now.knowledge.now.arrays declared name.now (standing.array_place subscripts.now))) }
    {
        let Some(at) = array_place(subscripts) else {
            return Ok(Found::Fault(22));
        };
        if declared.global {
            return self.global_value(alloc, declared.kind, name, at);
        }
        let knowledge = self.knowledge;
        local_value(alloc, &knowledge.arrays, name, Some(at))
    }
}

impl Lookups for Surroundings<'_> {
    ghost use Rattle.call_knowledge.specs.Tellings.{told_of};

    ghost told = { λ s. told_of s.knowledge.now s.answers.now };

    fn variable(
        &self,
        alloc: Global,
        name: &Name,
        subscripts: &[i32],
    ) -> Result<Found, OutOfMemory> {
        if let Some(worth) = self.knowledge.bound_value(alloc, name, subscripts)? {
            return Ok(bound_value(worth));
        }
        match self.knowledge.meaning(name) {
            Meaning::Unknown => Ok(Found::Fault(20)),
            Meaning::System(text) => system_value(alloc, text, subscripts),
            Meaning::Scalar(declared) => self.scalar_value(alloc, declared, name, subscripts),
            Meaning::Array(declared) => self.element_value(alloc, declared, name, subscripts),
        }
    }

    fn positionals(&self) -> u32 {
        let knowledge = self.knowledge;
        knowledge.positionals
    }

    fn answer(&self, key: &Key) -> Option<&Answer> {
        answered(self.answers, key)
    }
}
