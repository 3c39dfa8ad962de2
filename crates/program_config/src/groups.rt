//! Groups of library folders.
ghost use Rattle.std.specs.Prelude.{◌≡◌, [], ◌∷◌, ◌++◌, OnOk, OnErr};

use hl_base::{OutOfMemory, Text};
use std::alloc::Global;
use std::marker::Model;

/// A library folder, by its path as it was written; an optional one may be absent.
#[derive(Debug, Drop)]
pub struct Library {
    pub path: Text,
    pub optional: bool,
}

/// A group: its name, its folders in the order in which they are searched, and the value of `&SYSPARM`.
#[derive(Debug, Drop)]
pub struct Group {
    pub name: Text,
    pub libraries: Libraries,
    pub sysparm: Text,
}

/// Library folders, in order. Contracts see the list.
#[derive(Debug, Drop)]
pub struct Libraries {
    libraries: Vec<Library>,
}

impl Model for Libraries {
    ghost use Rattle.std.specs.Prelude.{List};
    ghost use Rattle.program_config.specs.declared.groups.Library.{Library};

    ghost Value = { List Library };

    ghost view = { λ s. s.libraries.items };
}

impl Libraries {
    /// No library.
    pub fn new(alloc: Global) -> Libraries
        ensures { result ≡ [] }
    {
        Libraries {
            libraries: Vec::new(alloc),
        }
    }

    /// Adds a library behind those that are there. An `Err` changes nothing.
    pub fn push(&mut self, library: Library) -> Result<(), OutOfMemory>
        ensures ok { OnOk result (self.new ≡ self.old ++ library ∷ []) }
        ensures err { OnErr result (self.new ≡ self.old) }
    {
        self.libraries.push(library)?;
        Ok(())
    }

    /// The libraries in order.
    pub fn as_slice(&self) -> &[Library]
        ensures { result.now ≡ self.now }
    {
        self.libraries.as_slice()
    }
}

/// Groups, in order. Contracts see the list.
#[derive(Debug, Drop)]
pub struct Groups {
    groups: Vec<Group>,
}

impl Model for Groups {
    ghost use Rattle.std.specs.Prelude.{List};
    ghost use Rattle.program_config.specs.declared.groups.Group.{Group};

    ghost Value = { List Group };

    ghost view = { λ s. s.groups.items };
}

impl Groups {
    /// No group.
    pub fn new(alloc: Global) -> Groups
        ensures { result ≡ [] }
    {
        Groups {
            groups: Vec::new(alloc),
        }
    }

    /// Adds a group behind those that are there. An `Err` changes nothing.
    pub fn push(&mut self, group: Group) -> Result<(), OutOfMemory>
        ensures ok { OnOk result (self.new ≡ self.old ++ group ∷ []) }
        ensures err { OnErr result (self.new ≡ self.old) }
    {
        self.groups.push(group)?;
        Ok(())
    }

    /// The groups in order.
    pub fn as_slice(&self) -> &[Group]
        ensures { result.now ≡ self.now }
    {
        self.groups.as_slice()
    }
}
