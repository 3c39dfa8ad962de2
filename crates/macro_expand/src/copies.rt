//! COPY.
ghost use Rattle.std.specs.Prelude.{◌≡◌, Some, IfOk};
ghost use Rattle.plain_expansion.specs.Questions.{Comes, led_by};
ghost use Rattle.statement_listing.specs.Listings.{Element};
ghost use Rattle.expansion_step.specs.Meaning.{performed_by};
ghost use Rattle.call_knowledge.specs.Knowledge.{Knowledge};
ghost use Rattle.macro_expand.specs.Acts as acts;
ghost use Rattle.macro_expand.specs.Codes.{means, placed_by, told_by};

use crate::Passage;
use crate::acting::{Done, quiet, with_row};
use asked_definitions::{known_at, member_of};
use asking_core::Noted;
use call_sites::Known;
use expansion_step::{Act as Acts, Entry, Level, Performed};
use hl_base::{Key, Name, Notes, OutOfMemory};
use macro_library::Member;
use note_rows::Row;
use std::alloc::Global;
use trace_values::copy_notes;

/// No list is entered, and this is said where there is room for one.
fn not_copied(alloc: Global, row: &Row, notes: Notes) -> Result<Done, OutOfMemory>
    ensures { IfOk result (λ p. (k : Knowledge) → performed_by means k p ≡ Some (Comes (acts.not_copied row.now notes))) }
{
    let limited = quiet(alloc, copy_notes(alloc, &notes)?)?;
    let said = quiet(alloc, with_row(alloc, row, notes)?)?;
    Ok(Performed::Does(said, Acts::Enters(limited, Entry::Nowhere)))
}

/// What is known of the member of a name is copied by the statement here.
fn copied(
    alloc: Global,
    here: &Level<Passage>,
    name: &Name,
    member: &Member,
    notes: Notes,
) -> Result<Done, OutOfMemory>
    ensures { IfOk result (λ p. (k : Knowledge) (e : Element) → performed_by means k p ≡ Some (Comes (acts.copied (placed_by here.now e) name.now notes member.now))) }
{
    match member {
        Member::Absent => not_copied(alloc, &Row::AbsentMember(name.copy()), notes),
        Member::Unreadable => not_copied(alloc, &Row::UnreadableMember(name.copy()), notes),
        Member::File(file) => {
            let passage = here.listing.copied(alloc, here.position, name, file)?;
            let limited = quiet(alloc, copy_notes(alloc, &notes)?)?;
            Ok(Performed::Does(
                quiet(alloc, notes)?,
                Acts::Enters(limited, Entry::Copying(passage)),
            ))
        }
    }
}

/// A member is copied by the statement here, as far as the answers lead.
pub(crate) fn copying(
    alloc: Global,
    here: &Level<Passage>,
    answers: &[Noted<Key, Known>],
    name: &Name,
    notes: Notes,
) -> Result<Done, OutOfMemory>
    ensures { IfOk result (λ p. (k : Knowledge) (e : Element) → performed_by means k p ≡ Some (led_by (told_by answers.now)
        (acts.copying_member (placed_by here.now e) name.now notes))) }
{
    if here.listing.is_copying(alloc, name)? {
        return not_copied(alloc, &Row::RecursiveMember(name.copy()), notes);
    }
    let key = Key::Member(name.copy());
    let Some(known) = known_at(answers, &key) else {
        return Ok(Performed::Wants(key));
    };
    copied(alloc, here, name, &member_of(known)?, notes)
}
