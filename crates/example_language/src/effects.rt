//! What lines do.
ghost use Rattle.std.specs.Prelude.{◌≡◌, ℕ, Some, [], ◌∷◌, IfOk, option_map};
ghost use Rattle.kept_values.specs.Trees.{Leaf, look_up};
ghost use Rattle.asking_core.specs.Places.{pairs_of};
ghost use Rattle.plain_expansion.specs.Questions.{led_by, Comes};
ghost use Rattle.plain_expansion.specs.Language.{Continues, Skips, Enters};
ghost use Rattle.plain_expansion.specs.Example.{Knows, example_effect, branch_left, branch_if, value_key};
ghost use Rattle.expansion_step.specs.Meaning.{performed_by, entry_by};
ghost use Rattle.example_language.specs.Lines.{line_by};
ghost use Rattle.example_language.specs.Values.{question_tree, value_tree, known_by, changed_by, means};

use crate::{Change, Knowledge, Line, ListNumber, Program, Question, Value};
use asking_core::Noted;
use expansion_step::{Act, Entry, Performed};
use hl_base::OutOfMemory;
use std::alloc::Global;

type Done = Performed<u32, u32, Change, u32, ListNumber, Question, Value>;

/// The world's value, if it was answered.
fn value_told(answers: &[Noted<Question, Value>]) -> Option<u32>
    ensures { option_map Leaf result ≡ look_up (pairs_of question_tree value_tree answers.now) value_key }
{
    for noted in answers {
        if let Question::Value = noted.key {
            return Some(noted.value.number);
        }
    }
    None
}

/// What changes by a branch, if a call may take one more.
fn branch_left(known: Knowledge) -> Option<Change>
    ensures { option_map (λ d. changed_by d (known_by known)) result ≡ branch_left (known_by known) }
{
    if known.branches == 0 {
        return None;
    }
    Some(Change::TakesBranch)
}

/// Goes on with the next line.
fn going_on<P: Program>(alloc: Global, said: u32) -> Done
    ensures { (k : Knows) → performed_by (means P.lists P.branches) k result ≡ Some (Comes (record { said = Leaf said; act = Continues k [] })) }
{
    Performed::Does(said, Act::Continues(Change::Unchanged, Vec::new(alloc)))
}

/// Enters a list, or nothing.
fn entering<P: Program>(said: u32, entry: Entry<u32, ListNumber, Question, Value>) -> Done
    ensures { (k : Knows) → performed_by (means P.lists P.branches) k result ≡ Some (Comes (record { said = Leaf said; act = Enters (Leaf 9) (entry_by (means P.lists P.branches) entry) })) }
{
    Performed::Does(said, Act::Enters(9, entry))
}

/// Branches where the value is not 0.
fn branching<P: Program>(alloc: Global, known: Knowledge, label: u32, value: u32) -> Done
    ensures { performed_by (means P.lists P.branches) (known_by known) result ≡ Some (Comes (branch_if (Leaf value) label (known_by known))) }
{
    if value == 0 {
        return going_on::<P>(alloc, 0);
    }
    Performed::Does(0, Act::Branches(label, branch_left(known)))
}

/// What is put, so that this is the value.
fn value_put(alloc: Global, number: u32) -> Result<Vec<Noted<Question, Value>>, OutOfMemory>
    ensures { IfOk result (λ ps. pairs_of question_tree value_tree ps.items ≡ record { key = value_key; value = Leaf number } ∷ []) }
{
    let mut puts = Vec::new(alloc);
    let value = Value { number };
    puts.push(Noted {
        key: Question::Value,
        value,
    })?;
    Ok(puts)
}

/// Sets the value.
fn setting<P: Program>(alloc: Global, number: u32) -> Result<Done, OutOfMemory>
    ensures { IfOk result (λ p. (k : Knows) → performed_by (means P.lists P.branches) k p ≡ Some (Comes (record { said = Leaf 0; act = Continues k (record { key = value_key; value = Leaf number } ∷ []) }))) }
{
    let puts = value_put(alloc, number)?;
    Ok(Performed::Does(0, Act::Continues(Change::Unchanged, puts)))
}

/// Sets the value to the number of a line, and goes on there.
fn skipping<P: Program>(alloc: Global, line: u32) -> Result<Done, OutOfMemory>
    ensures { IfOk result (λ p. (k : Knows) → performed_by (means P.lists P.branches) k p ≡ Some (Comes (record { said = Leaf 0; act = Skips line k (record { key = value_key; value = Leaf line } ∷ []) }))) }
{
    let puts = value_put(alloc, line)?;
    Ok(Performed::Does(0, Act::Skips(line, Change::Unchanged, puts)))
}

/// What a line does, as far as the answers lead.
pub(crate) fn performed<P: Program>(
    alloc: Global,
    line: Line,
    known: Knowledge,
    answers: &[Noted<Question, Value>],
) -> Result<Done, OutOfMemory>
    ensures { IfOk result (λ p. performed_by (means P.lists P.branches) (known_by known) p ≡ Some (led_by (look_up (pairs_of question_tree value_tree answers.now)) (example_effect (line_by line) (known_by known)))) }
{
    match line {
        Line::Says(number) => Ok(going_on::<P>(alloc, number)),
        Line::SaysValue => match value_told(answers) {
            Some(value) => Ok(going_on::<P>(alloc, value)),
            None => Ok(Performed::Wants(Question::Value)),
        },
        Line::SaysCalls => Ok(going_on::<P>(alloc, known.calls)),
        Line::Sets(number) => setting::<P>(alloc, number),
        Line::SkipsTo(line) => skipping::<P>(alloc, line),
        Line::BranchesTo(label) => Ok(Performed::Does(0, Act::Branches(label, branch_left(known)))),
        Line::BranchesIf(label) => match value_told(answers) {
            Some(value) => Ok(branching::<P>(alloc, known, label, value)),
            None => Ok(Performed::Wants(Question::Value)),
        },
        Line::Labelled(_) => Ok(going_on::<P>(alloc, 0)),
        Line::CallsList(number) => {
            let call = ListNumber { number };
            Ok(entering::<P>(7, Entry::Calling(call, Vec::new(alloc))))
        }
        Line::CopiesList(list) => Ok(entering::<P>(7, Entry::Copying(list))),
        Line::CopiesNothing => Ok(entering::<P>(8, Entry::Nowhere)),
        Line::ReturnsNow => Ok(Performed::Does(0, Act::Returns)),
        Line::FinishesNow => Ok(Performed::Does(0, Act::Finishes)),
    }
}
