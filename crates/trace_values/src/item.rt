//! What is kept of one point of a trace: one processed statement.
ghost use Rattle.std.specs.Prelude.{◌≡◌, IfOk};

use crate::{OwnFrames, Settings};
use hl_base::{Declarations, Line, Notes, Origin, OutOfMemory};
use std::alloc::Global;

/// One point of a trace. Its whole stack is the outer frames of its node with `frames` within them.
#[derive(Drop)]
pub struct TraceItem {
    /// The frames of its own call at the statement.
    pub frames: OwnFrames,

    /// Where the prototype of its own call stands; open code has none.
    pub definition: Option<Origin>,

    /// Where the prototype of the macro stands that its operation named, if it named one.
    pub called: Option<Origin>,

    /// The parameters and system variables, in the first item of a call; empty in every other.
    pub entry: Settings,

    /// The local SET symbols that the statement set.
    pub locals: Settings,

    /// The SET symbols that the statement declared.
    pub declared: Declarations,

    /// The global SET symbols that the statement set.
    pub globals: Settings,

    /// The statement that it generated, if it generated one.
    pub line: Option<Line>,

    /// What is reported of it. The notes have an empty stack.
    pub notes: Notes,
}

impl TraceItem {
    /// Another item that says the same.
    pub fn copy(&self, alloc: Global) -> Result<TraceItem, OutOfMemory>
        ensures { IfOk result (λ i. i ≡ self.now) }
    {
        Ok(TraceItem {
            frames: self.frames.copy(alloc)?,
            definition: self.definition,
            called: self.called,
            entry: self.entry.copy(alloc)?,
            locals: self.locals.copy(alloc)?,
            declared: self.declared.copy(alloc)?,
            globals: self.globals.copy(alloc)?,
            line: copy_line(alloc, &self.line)?,
            notes: copy_notes(alloc, &self.notes)?,
        })
    }
}

/// Another line of the same texts, if there is one.
fn copy_line(alloc: Global, line: &Option<Line>) -> Result<Option<Line>, OutOfMemory>
    ensures { IfOk result (λ l. l ≡ line.now) }
{
    match line {
        Some(line) => Ok(Some(line.copy(alloc)?)),
        None => Ok(None),
    }
}

/// Another list of the same notes.
pub fn copy_notes(alloc: Global, notes: &Notes) -> Result<Notes, OutOfMemory>
    ensures { IfOk result (λ n. n ≡ notes.now) }
{
    let mut copied = Notes::new(alloc);
    for note in notes.as_slice() {
        copied.push(note.copy(alloc)?)?;
    }
    Ok(copied)
}
