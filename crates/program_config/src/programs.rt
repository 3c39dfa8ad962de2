//! Programs and their groups.
ghost use Rattle.std.specs.Prelude.{◌≡◌, [], ◌∷◌, ◌++◌, OnOk, OnErr};

use hl_base::{OutOfMemory, Text};
use std::alloc::Global;
use std::marker::Model;

/// The programs whose paths a pattern matches, and the name of their group.
#[derive(Debug, Drop)]
pub struct Entry {
    pub program: Text,
    pub group: Text,
}

/// Entries, in order. Contracts see the list.
#[derive(Debug, Drop)]
pub struct Programs {
    entries: Vec<Entry>,
}

impl Model for Programs {
    ghost use Rattle.std.specs.Prelude.{List};
    ghost use Rattle.program_config.specs.declared.programs.Entry.{Entry};

    ghost Value = { List Entry };

    ghost view = { λ s. s.entries.items };
}

impl Programs {
    /// No entry.
    pub fn new(alloc: Global) -> Programs
        ensures { result ≡ [] }
    {
        Programs {
            entries: Vec::new(alloc),
        }
    }

    /// Adds an entry behind those that are there. An `Err` changes nothing.
    pub fn push(&mut self, entry: Entry) -> Result<(), OutOfMemory>
        ensures ok { OnOk result (self.new ≡ self.old ++ entry ∷ []) }
        ensures err { OnErr result (self.new ≡ self.old) }
    {
        self.entries.push(entry)?;
        Ok(())
    }

    /// The entries in order.
    pub fn as_slice(&self) -> &[Entry]
        ensures { result.now ≡ self.now }
    {
        self.entries.as_slice()
    }
}
