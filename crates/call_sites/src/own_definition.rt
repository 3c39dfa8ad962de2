//! The definition that a member has.
ghost use Rattle.std.specs.Prelude.{◌≡◌, [], IfOk, IfSome, Ok};
ghost use Rattle.macro_library.specs.Definitions.{definition_of};
ghost use Rattle.call_sites.specs.Owned.{IsAlone, IsOwn};

use hl_base::OutOfMemory;
use macro_library::statement_listing::Listing;
use macro_library::{Def, KeptDefinition, Members, macro_at, read_definition};
use std::alloc::Global;
use std::rc::Rc;

/// The definition that begins at a MACRO of a member and copies nothing, and the number of that MACRO in the member's list.
#[derive(Drop)]
pub(crate) struct OwnDefinition {
    start: u32,
    definition: KeptDefinition,
}

/// The definition that begins at the MACRO of this number, where it copies nothing. Also where memory runs out there is none:
/// it is read again where it is needed.
fn read_alone(alloc: Global, list: &Listing, start: u32) -> Option<Def>
    ensures { IsAlone list.now start result }
{
    let members = Members::new(alloc);
    read_definition(alloc, list, start, &members).ok()
}

impl OwnDefinition {
    /// The definition of a member with these statements, if it has one that copies nothing.
    pub(crate) fn of(alloc: Global, list: &Listing) -> Result<Option<OwnDefinition>, OutOfMemory>
        ensures { IfOk result (IsOwn list.now) }
    {
        let Some(start) = macro_at(list) else {
            return Ok(None);
        };
        let Ok(start) = u32::try_from(start) else {
            return Err(OutOfMemory);
        };
        let Some(definition) = read_alone(alloc, list, start) else {
            return Ok(None);
        };
        let definition = Rc::new(alloc, definition)?;
        Ok(Some(OwnDefinition {
            start,
            definition: KeptDefinition { definition },
        }))
    }

    /// The same definition. It takes no memory; an `Err` comes only where it is shared more often than can be counted.
    pub(crate) fn share(&self) -> Result<OwnDefinition, OutOfMemory>
        ensures start { IfOk result (λ own. own.start ≡ self.now.start) }
        ensures definition { IfOk result (λ own. own.definition.definition.value ≡ self.now.definition.definition.value) }
    {
        let definition = self.definition.definition.clone()?;
        Ok(OwnDefinition {
            start: self.start,
            definition: KeptDefinition { definition },
        })
    }

    /// It, where it begins at the MACRO of this number.
    pub(crate) fn at(&self, start: u32) -> Option<&KeptDefinition>
        ensures { IfSome result (λ kept. (self.now.start ≡ start) × (kept.now.definition.value ≡ self.now.definition.definition.value)) }
    {
        if self.start == start {
            Some(&self.definition)
        } else {
            None
        }
    }
}
