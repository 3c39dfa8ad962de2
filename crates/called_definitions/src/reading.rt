//! Reading a definition by the place of its prototype.
ghost use Rattle.std.specs.Prelude.{◌≡◌, ◌+◌, [], drop, IfOk, OnOk};
ghost use Rattle.called_definitions.specs.Readings as readings;
ghost use Rattle.called_definitions.specs.Told.{AreFound};

use crate::member::tell;
use hl_base::{Origin, OutOfMemory};
use macro_library::{DefFault, Members, read_definition};
use statement_listing::Listing;
use std::alloc::Global;
use text_lists::TextLists;
use text_pool::Present;

/// No statement.
fn nothing(alloc: Global) -> Result<Listing, OutOfMemory>
    ensures { IfOk result (λ made. made ≡ []) }
{
    Listing::of_lines(alloc, Vec::new(alloc))
}

/// The statements of the definition whose prototype is behind the line of a number in a list; none where it is refused. `members`
/// takes what is told of members, also for definitions that are read later.
fn read_list<P: Present>(
    alloc: Global,
    present: &P,
    list: &Listing,
    before: u32,
    members: &mut Members,
) -> Result<Listing, OutOfMemory>
    requires { AreFound (P.members present.now) members.old }
    ensures found { OnOk result (AreFound (P.members present.now) members.new) }
    ensures list { IfOk result (λ made. made ≡ readings.list_in (readings.told_by (P.members present.now)) (drop (before + 1) list.now)) }
{
    for _ in 0..u64::MAX {
        match read_definition(alloc, list, before, members) {
            Ok(definition) => return definition.list().share(),
            Err(fault) => match fault {
                DefFault::Asks(name) => tell(alloc, present, &name, members)?,
                DefFault::OutOfMemory => return Err(OutOfMemory),
                _ => return nothing(alloc),
            },
        }
    }
    Err(OutOfMemory)
}

/// The statements of the definition whose prototype stands at a place, and none where it is refused.
pub(crate) fn list_at<P: Present>(
    alloc: Global,
    texts: &TextLists,
    present: &P,
    origin: Origin,
    members: &mut Members,
) -> Result<Listing, OutOfMemory>
    requires { AreFound (P.members present.now) members.old }
    ensures found { OnOk result (AreFound (P.members present.now) members.new) }
    ensures list { IfOk result (λ made. made ≡ readings.list_at texts.now (P.members present.now) origin) }
{
    let (Some(list), Some(number)) = (texts.list_of(origin.path), texts.number_at(origin)) else {
        return nothing(alloc);
    };
    if number == 0 {
        return nothing(alloc);
    }
    read_list(alloc, present, list, number - 1, members)
}
