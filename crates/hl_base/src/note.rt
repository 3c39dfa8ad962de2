//! What is reported of a statement.
ghost use Rattle.std.specs.Prelude.{◌≡◌, List, [], ◌∷◌, ◌++◌, IfOk, OnOk, OnErr};

use crate::{Frames, OutOfMemory, Text};
use std::alloc::Global;
use std::marker::Model;

/// How much a note weighs, as the editor shows it (LSP 3.17, `DiagnosticSeverity`).
#[derive(Clone, Copy, Debug, PartialEq, Eq)]
pub enum Severity {
    Error,
    Warning,
    Information,
}

/// One report. Its code is the number behind `H`, and 0 for the author's own MNOTE; its stack has the statement's
/// frames, outermost first.
#[derive(Drop)]
pub struct Note {
    pub code: u16,
    pub severity: Severity,
    pub text: Text,
    pub stack: Frames,
}

impl Note {
    /// Another note that says the same of the same place.
    pub fn copy(&self, alloc: Global) -> Result<Note, OutOfMemory>
        ensures { IfOk result (λ n. n ≡ self.now) }
    {
        Ok(Note {
            code: self.code,
            severity: self.severity,
            text: self.text.copy(alloc)?,
            stack: self.stack.copy(alloc)?,
        })
    }
}

/// Notes in order. Contracts see the list.
#[derive(Drop)]
pub struct Notes {
    notes: Vec<Note>,
}

impl Model for Notes {
    ghost use Rattle.std.specs.Prelude.{List};
    ghost use Rattle.hl_base.specs.declared.note.Note.{Note};

    ghost Value = { List Note };

    ghost view = { λ s. s.notes.items };
}

impl Notes {
    /// No note.
    pub fn new(alloc: Global) -> Notes
        ensures { result ≡ [] }
    {
        Notes {
            notes: Vec::new(alloc),
        }
    }

    /// Adds a note behind those that are there. An `Err` changes nothing.
    pub fn push(&mut self, note: Note) -> Result<(), OutOfMemory>
        ensures ok { OnOk result (self.new ≡ self.old ++ note ∷ []) }
        ensures err { OnErr result (self.new ≡ self.old) }
    {
        self.notes.push(note)?;
        Ok(())
    }

    /// The notes in order.
    pub fn as_slice(&self) -> &[Note]
        ensures { result.now ≡ self.now }
    {
        self.notes.as_slice()
    }
}
