//! The definition that begins at a MACRO.
ghost use Rattle.std.specs.Prelude.{◌≡◌, map, IfOk};
ghost use Rattle.kept_values.specs.Keys.{key_tree};
ghost use Rattle.kept_values.specs.Trees.{look_up};
ghost use Rattle.asking_core.specs.Places.{pairs_of};
ghost use Rattle.plain_expansion.specs.Questions.{Comes, led_by};
ghost use Rattle.macro_library.specs.Contents.{written};
ghost use Rattle.call_sites.specs.Values.{known_tree};
ghost use Rattle.asked_definitions.specs.Asked.{content_at, definition_at};
ghost use Rattle.asked_definitions.specs.Led.{IsEnded, answer_of, definition_led};

use crate::member::{known_at, member_of};
use asking_core::Noted;
use call_sites::Known;
use hl_base::{Key, Name, OutOfMemory};
use macro_library::{Def, DefFault, Members, read_definition};
use statement_listing::Listing;
use std::alloc::Global;

/// How many members are asked for at most: a definition copies no more, since each takes a statement.
const MOST_MEMBERS: u32 = 65_536;

/// How far answers lead to a definition: to the definition, to its first fault, or to a member of which nothing was answered.
#[derive(Drop)]
pub enum AskedDefinition {
    Wants(Name),
    Read(Def),
    Refused(DefFault),
}

/// The definition, where this was told of members, or its first fault, or the member that it needs to know of next.
#[tactic(auto, using(crate::proofs::WrittenLaws::definition_bare))]
fn read(
    alloc: Global,
    list: &Listing,
    start: u32,
    members: &Members,
) -> Result<AskedDefinition, OutOfMemory>
    ensures said { IfOk result (λ read. content_at members.now (map written list.now) start ≡ answer_of read) }
    ensures ended { IfOk result IsEnded }
{
    match read_definition(alloc, list, start, members) {
        Ok(definition) => Ok(AskedDefinition::Read(definition)),
        Err(DefFault::OutOfMemory) => Err(OutOfMemory),
        Err(DefFault::Asks(name)) => Ok(AskedDefinition::Wants(name)),
        Err(DefFault::NoMend) => Ok(AskedDefinition::Refused(DefFault::NoMend)),
        Err(DefFault::BadPrototype) => Ok(AskedDefinition::Refused(DefFault::BadPrototype)),
        Err(DefFault::CopyAbsent(name)) => {
            Ok(AskedDefinition::Refused(DefFault::CopyAbsent(name)))
        }
        Err(DefFault::CopyUnreadable(name)) => {
            Ok(AskedDefinition::Refused(DefFault::CopyUnreadable(name)))
        }
        Err(DefFault::CopyCycle(name)) => {
            Ok(AskedDefinition::Refused(DefFault::CopyCycle(name)))
        }
        Err(DefFault::TooLong(name)) => Ok(AskedDefinition::Refused(DefFault::TooLong(name))),
    }
}

/// What is read where no member is asked for any more.
fn last(asked: AskedDefinition) -> AskedDefinition
    ensures { definition_led result ≡ Comes (answer_of asked) }
{
    match asked {
        AskedDefinition::Wants(name) => AskedDefinition::Refused(DefFault::Asks(name)),
        ended => ended,
    }
}

/// How far the answers lead to the definition that begins at the MACRO of this number in a list. A member that was not asked
/// for yet is read as the answers say; what an `Err` leaves is nothing.
pub fn asked_definition(
    alloc: Global,
    list: &Listing,
    start: u32,
    answers: &[Noted<Key, Known>],
) -> Result<AskedDefinition, OutOfMemory>
    ensures { IfOk result (λ asked. definition_led asked
        ≡ led_by (look_up (pairs_of key_tree known_tree answers.now)) (definition_at (map written list.now) start)) }
{
    let mut members = Members::new(alloc);
    for _asked in 0..MOST_MEMBERS {
        let name = match read(alloc, list, start, &members)? {
            AskedDefinition::Wants(name) => name,
            AskedDefinition::Read(definition) => return Ok(AskedDefinition::Read(definition)),
            AskedDefinition::Refused(fault) => return Ok(AskedDefinition::Refused(fault)),
        };
        let Some(known) = known_at(answers, &Key::Member(name.copy())) else {
            return Ok(AskedDefinition::Wants(name));
        };
        members.add(alloc, &name, member_of(known)?)?;
    }
    Ok(last(read(alloc, list, start, &members)?))
}
