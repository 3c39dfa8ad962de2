//! What a statement does, as far as the answers lead.
ghost use Rattle.std.specs.Prelude.{◌≡◌, Some, IfOk};
ghost use Rattle.kept_values.specs.Keys.{key_tree};
ghost use Rattle.plain_expansion.specs.Questions.{Comes, Wants};
ghost use Rattle.question_trees.specs.Bridge.{answers_in, led_as};
ghost use Rattle.conditional_asm.specs.Effects as effects;
ghost use Rattle.statement_reading.specs.Views.{reading_of};
ghost use Rattle.statement_listing.specs.Listings.{Element};
ghost use Rattle.expansion_step.specs.Meaning.{performed_by};
ghost use Rattle.call_knowledge.specs.Knowledge.{Knowledge};
ghost use Rattle.call_knowledge.specs.Standing as standing;
ghost use Rattle.call_knowledge.specs.Deeds as deeds;
ghost use Rattle.macro_expand.specs.Acts as acts;
ghost use Rattle.macro_expand.specs.Codes.{led_to, means, passage_by, placed_by, told_by};
ghost use Rattle.macro_expand.specs.Language.{led_on_act};
ghost use Rattle.macro_expand.specs.Passages.{label_at, operands_at};

use crate::Passage;
use crate::acting::{Done, branching_to, done_by, ending, generating, leaving, passing};
use crate::calls::calling;
use crate::copies::copying;
use crate::definitions::defining;
use asking_core::Noted;
use call_knowledge::{Knowledge, Surroundings, counting};
use call_sites::Known;
use conditional_asm::{Act, ReadStatement, perform};
use expansion_step::{Level, Performed};
use hl_base::{Declarations, Key, Name, Notes, OutOfMemory, SetValue};
use hlasm_statements::Statement;
use std::alloc::Global;

/// This answer is wanted.
fn wanting(key: Key) -> Result<Done, OutOfMemory>
    ensures { IfOk result (λ p. (k : Knowledge) → performed_by means k p ≡ Some (Wants (key_tree key))) }
{
    Ok(Performed::Wants(key))
}

/// So many branches are left.
fn limiting(alloc: Global, count: i32, notes: Notes) -> Result<Done, OutOfMemory>
    ensures { IfOk result (λ p. (k : Knowledge) → performed_by means k p ≡ Some (Comes (acts.done_by k (deeds.counting count) notes))) }
{
    done_by(alloc, counting(alloc, count), notes)
}

/// A SET symbol, or its element, gets a value.
fn setting(
    alloc: Global,
    known: &Knowledge,
    name: Name,
    element: Option<u32>,
    value: SetValue,
    notes: Notes,
) -> Result<Done, OutOfMemory>
    ensures { IfOk result (λ p. performed_by means known.now p
        ≡ Some (Comes (acts.done_by known.now (deeds.setting known.now name element value) notes))) }
{
    let deed = known.setting(alloc, name, element, value)?;
    done_by(alloc, deed, notes)
}

/// SET symbols are declared.
fn declaring(
    alloc: Global,
    known: &Knowledge,
    list: &Declarations,
    notes: Notes,
) -> Result<Done, OutOfMemory>
    ensures { IfOk result (λ p. performed_by means known.now p
        ≡ Some (Comes (acts.done_by known.now (deeds.declaring known.now list.now) notes))) }
{
    let deed = known.declaring(alloc, list)?;
    done_by(alloc, deed, notes)
}

/// What comes of an act of the statement here in a call that knows so much, behind these notes, as far as the answers lead.
fn acting(
    alloc: Global,
    here: &Level<Passage>,
    statement: &Statement,
    known: &Knowledge,
    answers: &[Noted<Key, Known>],
    act: Act,
    notes: Notes,
) -> Result<Done, OutOfMemory>
    requires label { label_at (passage_by here.now.listing) here.now.position ≡ statement.now.label }
    requires operands { operands_at (passage_by here.now.listing) here.now.position ≡ statement.now.operands }
    ensures { IfOk result (λ p. (e : Element) → performed_by means known.now p ≡ Some (led_to (told_by answers.now) (placed_by here.now e) known.now act notes)) }
{
    match act {
        Act::Ask(key) => wanting(key),
        Act::Branch(label) => branching_to(alloc, known, label, notes),
        Act::Actr(count) => limiting(alloc, count, notes),
        Act::Set(name, element, value) => setting(alloc, known, name, element, value, notes),
        Act::Declare(list) => declaring(alloc, known, &list, notes),
        Act::Define => defining(alloc, here, answers, notes),
        Act::Call(name) => calling(alloc, statement, known, answers, &name, notes),
        Act::Copy(name) => copying(alloc, here, answers, &name, notes),
        Act::Generate(line) => generating(alloc, line, notes),
        Act::Leave(name) => leaving(alloc, known, name, notes),
        Act::End(line) => ending(alloc, line, notes),
        Act::Next => passing(alloc, notes),
    }
}

/// What the statement here that was read does in a call that knows so much, as far as the answers lead.
pub(crate) fn performed(
    alloc: Global,
    here: &Level<Passage>,
    statement: &Statement,
    read: &ReadStatement,
    known: &Knowledge,
    answers: &[Noted<Key, Known>],
) -> Result<Done, OutOfMemory>
    requires label { label_at (passage_by here.now.listing) here.now.position ≡ statement.now.label }
    requires operands { operands_at (passage_by here.now.listing) here.now.position ≡ statement.now.operands }
    ensures { IfOk result (λ p. (e : Element) → performed_by means known.now p ≡ Some (led_on_act (told_by answers.now) (placed_by here.now e) known.now
        (led_as (λ noted. noted) (effects.effect_of (reading_of read.now) (standing.told_by known.now (answers_in (told_by answers.now))))))) }
{
    let around = Surroundings {
        knowledge: known,
        answers,
    };
    let effect = perform(alloc, read, &around)?;
    acting(
        alloc,
        here,
        statement,
        known,
        answers,
        effect.act,
        effect.notes,
    )
}
