//! System variable symbols.
ghost use Rattle.std.specs.Prelude.{◌≡◌, codes, find, option_copied};
ghost use Rattle.call_knowledge.specs.Knowledge.{system_of};

use hl_base::{Name, Text};

/// A system variable symbol, and the text that it stands for.
#[derive(Drop)]
pub struct SystemVariable {
    pub name: Name,
    pub text: Text,
}

/// The name of the one that open code has.
pub(crate) fn sysparm() -> Name
    ensures { result ≡ codes "SYSPARM" }
{
    Name::read("SYSPARM").unwrap()
}

/// The system variable symbol of a name.
pub(crate) fn system_of<'a>(
    systems: &'a [SystemVariable],
    name: &Name,
) -> Option<&'a SystemVariable>
    ensures { option_copied result ≡ system_of systems.now name.now }
{
    for system in systems {
        if name.text() == system.name.text() {
            return Some(system);
        }
    }
    None
}
