//! The macro that the name of an operation stands for.
ghost use Rattle.std.specs.Prelude.{◌≡◌, ℕ, List, Some, IfOk};
ghost use Rattle.kept_values.specs.Answers.{answer_tree};
ghost use Rattle.kept_values.specs.Keys.{key_tree};
ghost use Rattle.kept_values.specs.Trees.{look_up};
ghost use Rattle.asking_core.specs.Places.{pairs_of};
ghost use Rattle.plain_expansion.specs.Questions.{done, led_by};
ghost use Rattle.macro_library.specs.Members.{statements_in};
ghost use Rattle.macro_library.specs.declared.member.Member.TheVariants.{File};
ghost use Rattle.call_sites.specs.Values.{known_tree};
ghost use Rattle.asked_definitions.specs.Asked as asked;
ghost use Rattle.asked_definitions.specs.Led.{defined_led, operation_led, sought_by};

use crate::definition::{AskedDefinition, asked_definition};
use crate::member::known_at;
use asking_core::Noted;
use call_sites::{Known, KnownMember};
use hl_base::{Answer, Key, Name, OutOfMemory};
use kept_values::Kept;
use macro_library::{DefFault, KeptDefinition, defining_at};
use std::alloc::Global;
use std::rc::Rc;

/// What an operation is: a macro; one whose definition in a member of the library is refused; one whose member cannot be
/// read; or none.
#[derive(Drop)]
pub enum Sought {
    Macro(KeptDefinition),
    Refused(DefFault),
    Unreadable,
    Unknown,
}

/// How far answers lead to what an operation is.
#[derive(Drop)]
pub enum AskedOperation {
    Wants(Key),
    Found(Sought),
}

/// What comes of the definition that a member has.
fn defined(alloc: Global, asked: AskedDefinition) -> Result<AskedOperation, OutOfMemory>
    ensures { IfOk result (λ found. operation_led found ≡ defined_led asked) }
{
    match asked {
        AskedDefinition::Wants(name) => Ok(AskedOperation::Wants(Key::Member(name))),
        AskedDefinition::Read(definition) => {
            let definition = Rc::new(alloc, definition)?;
            Ok(AskedOperation::Found(Sought::Macro(KeptDefinition { definition })))
        }
        AskedDefinition::Refused(fault) => Ok(AskedOperation::Found(Sought::Refused(fault))),
    }
}

/// The macro whose definition begins at the MACRO of this number in a member: the one that is kept with the member, if there is
/// one, and else it is read.
fn at_macro(
    alloc: Global,
    member: &KnownMember,
    start: u32,
    answers: &[Noted<Key, Known>],
) -> Result<AskedOperation, OutOfMemory>
    ensures { IfOk result (λ found. operation_led found
        ≡ led_by (look_up (pairs_of key_tree known_tree answers.now)) (asked.in_lines (statements_in member.now) (Some start))) }
{
    match member.definition_at(start) {
        Some(kept) => {
            let definition = kept.definition.clone()?;
            Ok(AskedOperation::Found(Sought::Macro(KeptDefinition { definition })))
        }
        None => defined(
            alloc,
            asked_definition(alloc, member.file().list(), start, answers)?,
        ),
    }
}

/// The macro of this name in a member that has a file.
fn in_member(
    alloc: Global,
    member: &KnownMember,
    name: &Name,
    answers: &[Noted<Key, Known>],
) -> Result<AskedOperation, OutOfMemory>
    ensures { IfOk result (λ found. operation_led found
        ≡ led_by (look_up (pairs_of key_tree known_tree answers.now)) (asked.in_member name.now (File member.now))) }
{
    let Some(start) = defining_at(member.file().list(), name) else {
        return Ok(AskedOperation::Found(Sought::Unknown));
    };
    let Ok(start) = u32::try_from(start) else {
        return Err(OutOfMemory);
    };
    at_macro(alloc, member, start, answers)
}

/// What an operation is of whose member this was answered, which is no file.
fn without_file(answer: &Answer) -> Sought
    ensures { (name : List ℕ) → asked.in_member name (asked.member_in (answer_tree answer.now)) ≡ done (sought_by result) }
{
    match answer {
        Answer::Unreadable => Sought::Unreadable,
        Answer::Nothing => Sought::Unknown,
        Answer::Number(_) => Sought::Unknown,
        Answer::Bit(_) => Sought::Unknown,
        Answer::Chars(_) => Sought::Unknown,
        Answer::Defined => Sought::Unknown,
        Answer::File(_, _) => Sought::Unknown,
        Answer::Meaning(_) => Sought::Unknown,
    }
}

/// The macro of this name in the member of that name.
#[tactic(auto, using(crate::proofs::MemberLaws::member_back))]
fn in_library(
    alloc: Global,
    name: &Name,
    answers: &[Noted<Key, Known>],
) -> Result<AskedOperation, OutOfMemory>
    ensures { IfOk result (λ found. operation_led found
        ≡ led_by (look_up (pairs_of key_tree known_tree answers.now)) (asked.in_library name.now)) }
{
    let key = Key::Member(name.copy());
    let Some(known) = known_at(answers, &key) else {
        return Ok(AskedOperation::Wants(key));
    };
    match known {
        Known::Member(member) => in_member(alloc, member, name, answers),
        Known::Plain(answer) => Ok(AskedOperation::Found(without_file(answer))),
        Known::Macro(_) => Ok(AskedOperation::Found(Sought::Unknown)),
    }
}

/// How far the answers lead to what the operation of this name is: the macro that was defined so, or else the one that the
/// member of that name defines: the one that is kept with the member, or one that is read at each call.
pub fn asked_operation(
    alloc: Global,
    name: &Name,
    answers: &[Noted<Key, Known>],
) -> Result<AskedOperation, OutOfMemory>
    ensures { IfOk result (λ found. operation_led found
        ≡ led_by (look_up (pairs_of key_tree known_tree answers.now)) (asked.sought name.now)) }
{
    let key = Key::Op(name.copy());
    let Some(known) = known_at(answers, &key) else {
        return Ok(AskedOperation::Wants(key));
    };
    match known {
        Known::Macro(known) => {
            let definition = known.definition().copy(alloc)?;
            Ok(AskedOperation::Found(Sought::Macro(definition)))
        }
        Known::Plain(_) | Known::Member(_) => in_library(alloc, name, answers),
    }
}
