//! Places in a text as an editor counts them, and changes of a text.
ghost use Rattle.std.specs.Prelude.{◌≡◌, List, [], ◌∷◌, ◌++◌, OnOk, OnErr};

use crate::{OutOfMemory, Text};
use std::alloc::Global;
use std::marker::Model;

/// A place in a text: a line from 0, and UTF-16 units from 0 within it (Language Server Protocol 3.17, "Position").
#[derive(Clone, Copy, Debug, PartialEq, Eq)]
pub struct Position {
    pub line: u32,
    pub character: u32,
}

/// One change of a text: what stands between two places becomes another text; with neither place the whole text
/// does (Language Server Protocol 3.17, "TextDocumentContentChangeEvent").
#[derive(Drop)]
pub struct Edit {
    pub from: Option<Position>,
    pub to: Option<Position>,
    pub text: Text,
}

/// Changes in order. Contracts see the list.
#[derive(Drop)]
pub struct Edits {
    edits: Vec<Edit>,
}

impl Model for Edits {
    ghost use Rattle.std.specs.Prelude.{List};
    ghost use Rattle.hl_base.specs.declared.edit.Edit.{Edit};

    ghost Value = { List Edit };

    ghost view = { λ s. s.edits.items };
}

impl Edits {
    /// No change.
    pub fn new(alloc: Global) -> Edits
        ensures { result ≡ [] }
    {
        Edits {
            edits: Vec::new(alloc),
        }
    }

    /// Adds a change behind those that are there. An `Err` changes nothing.
    pub fn push(&mut self, edit: Edit) -> Result<(), OutOfMemory>
        ensures ok { OnOk result (self.new ≡ self.old ++ edit ∷ []) }
        ensures err { OnErr result (self.new ≡ self.old) }
    {
        self.edits.push(edit)?;
        Ok(())
    }

    /// The changes in order.
    pub fn as_slice(&self) -> &[Edit]
        ensures { result.now ≡ self.now }
    {
        self.edits.as_slice()
    }
}
