//! What the language asks, is answered, calls and shows.
ghost use Rattle.std.specs.Prelude.{◌≡◌, ◌↔◌, ℕ, IfOk, IsTrue};

use expansion_step::Fault;
use hl_base::OutOfMemory;
use kept_values::Kept;
use std::alloc::Global;

/// What is asked: the value of the world, or how many calls were counted.
#[derive(Clone, Copy)]
pub enum Question {
    Value,
    Calls,
}

/// What is answered and set.
#[derive(Drop)]
pub struct Value {
    pub number: u32,
}

/// A call of the list of this number. List 0 is open code.
#[derive(Drop)]
pub struct ListNumber {
    pub number: u32,
}

/// What is kept of a point: the place of its line, in how many lists that copied one another it stands, what is said, and
/// what went wrong.
#[derive(Drop)]
pub struct Shown {
    pub line: u32,
    pub deep: usize,
    pub said: u32,
    pub fault: Fault,
}

/// What a call knows: how many branches it may still take, and how many calls were counted at its entry.
#[derive(Clone, Copy)]
pub struct Knowledge {
    pub branches: u32,
    pub calls: u32,
}

/// A change of what a call knows: none, or one branch less is left.
#[derive(Clone, Copy)]
pub enum Change {
    Unchanged,
    TakesBranch,
}

impl Kept for Question {
    ghost use Rattle.example_language.specs.Values.{question_tree};

    ghost code = { question_tree };

    ghost number_of = { λ _. 0 };

    fn same(&self, other: &Self) -> bool {
        match self {
            Question::Value => matches!(other, Question::Value),
            Question::Calls => matches!(other, Question::Calls),
        }
    }

    fn number(&self) -> u64 {
        0
    }

    fn copy(&self, _alloc: Global) -> Result<Self, OutOfMemory> {
        Ok(*self)
    }
}

impl Kept for Value {
    ghost use Rattle.example_language.specs.Values.{value_tree};

    ghost code = { value_tree };

    ghost number_of = { λ _. 0 };

    fn same(&self, other: &Self) -> bool {
        self.number == other.number
    }

    fn number(&self) -> u64 {
        0
    }

    fn copy(&self, _alloc: Global) -> Result<Self, OutOfMemory> {
        Ok(Value {
            number: self.number,
        })
    }
}

impl Kept for ListNumber {
    ghost use Rattle.example_language.specs.Values.{call_tree};

    ghost code = { call_tree };

    ghost number_of = { λ _. 0 };

    fn same(&self, other: &Self) -> bool {
        self.number == other.number
    }

    fn number(&self) -> u64 {
        0
    }

    fn copy(&self, _alloc: Global) -> Result<Self, OutOfMemory> {
        Ok(ListNumber {
            number: self.number,
        })
    }
}
