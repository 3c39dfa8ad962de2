//! MACRO: an operation gets a definition.
ghost use Rattle.std.specs.Prelude.{◌≡◌, ◌∷◌, [], Some, Ok, Err, IfOk};
ghost use Rattle.macro_library.specs.Contents.{content_of};
ghost use Rattle.plain_expansion.specs.Questions.{Comes, led_by};
ghost use Rattle.statement_listing.specs.Listings.{line_number};
ghost use Rattle.expansion_step.specs.Meaning.{performed_by};
ghost use Rattle.call_knowledge.specs.Knowledge.{Knowledge};
ghost use Rattle.macro_expand.specs.Acts as acts;
ghost use Rattle.macro_expand.specs.Codes.{means, passage_by, told_by};
ghost use Rattle.macro_expand.specs.Passages.{lines_of};

use crate::Passage;
use crate::acting::{Done, going_on, quiet, with_row};
use asked_definitions::{AskedDefinition, asked_definition};
use asking_core::Noted;
use call_knowledge::Change;
use call_sites::{Known, KnownMacro};
use expansion_step::{Act as Acts, Level, Performed};
use hl_base::{Key, Notes, OutOfMemory};
use macro_library::{Def, DefFault, KeptDefinition, behind_definition};
use note_rows::Row;
use std::alloc::Global;
use std::rc::Rc;

/// What is reported of a definition that is refused.
pub(crate) fn row_of_fault(fault: &DefFault) -> Row
    ensures { result ≡ acts.row_of_fault fault.now }
{
    match fault {
        DefFault::NoMend => Row::MissingMend,
        DefFault::BadPrototype => Row::BadPrototype,
        DefFault::CopyAbsent(name) => Row::AbsentMember(name.copy()),
        DefFault::CopyUnreadable(name) => Row::UnreadableMember(name.copy()),
        DefFault::CopyCycle(name) => Row::RecursiveMember(name.copy()),
        DefFault::TooLong(name) => Row::DefinitionTooLong(name.copy()),
        DefFault::Asks(name) => Row::AbsentMember(name.copy()),
        DefFault::OutOfMemory => Row::MissingMend,
    }
}

/// The place behind the definition whose MACRO has this number among the lines.
fn behind(passage: &Passage, start: u32) -> Result<u32, OutOfMemory>
    ensures { IfOk result (λ n. n ≡ acts.behind (passage_by passage.now) start) }
{
    let line = behind_definition(&passage.listing, start)?;
    let Ok(line) = u32::try_from(line) else {
        return Err(OutOfMemory);
    };
    passage.listing.place_at(line)
}

/// The operation has this definition from here on; processing goes on at a place.
fn defined(alloc: Global, next: u32, definition: Def, notes: Notes) -> Result<Done, OutOfMemory>
    ensures { IfOk result (λ p. (k : Knowledge) → performed_by means k p ≡ Some (Comes (acts.defined next k notes (Ok (content_of definition))))) }
{
    let key = Key::Op(definition.prototype().operation().copy());
    let definition = Rc::new(alloc, definition)?;
    let value = Known::Macro(KnownMacro::of(KeptDefinition { definition }));
    let mut puts = Vec::new(alloc);
    puts.push(Noted { key, value })?;
    Ok(Performed::Does(
        quiet(alloc, notes)?,
        Acts::Skips(next, Change::Nothing, puts),
    ))
}

/// It has none, for this reason; processing goes on at a place.
fn not_defined(
    alloc: Global,
    next: u32,
    fault: &DefFault,
    notes: Notes,
) -> Result<Done, OutOfMemory>
    ensures { IfOk result (λ p. (k : Knowledge) → performed_by means k p ≡ Some (Comes (acts.defined next k notes (Err fault.now)))) }
{
    let notes = with_row(alloc, &row_of_fault(fault), notes)?;
    let act = Acts::Skips(next, Change::Nothing, Vec::new(alloc));
    Ok(Performed::Does(quiet(alloc, notes)?, act))
}

/// A MACRO is processed, as far as the answers lead.
pub(crate) fn defining(
    alloc: Global,
    here: &Level<Passage>,
    answers: &[Noted<Key, Known>],
    notes: Notes,
) -> Result<Done, OutOfMemory>
    ensures { IfOk result (λ p. (k : Knowledge) → performed_by means k p ≡ Some (led_by (told_by answers.now)
        (acts.defining (passage_by here.now.listing) k notes (line_number (lines_of (passage_by here.now.listing)) here.now.position)))) }
{
    let passage = &here.listing;
    let Some(start) = passage.listing.line_number(here.position) else {
        return Ok(going_on(alloc, quiet(alloc, notes)?));
    };
    let next = behind(passage, start)?;
    match asked_definition(alloc, &passage.listing, start, answers)? {
        AskedDefinition::Wants(name) => Ok(Performed::Wants(Key::Member(name))),
        AskedDefinition::Read(definition) => defined(alloc, next, definition, notes),
        AskedDefinition::Refused(fault) => not_defined(alloc, next, &fault, notes),
    }
}
