//! What is noted of the columns of a statement.
ghost use Rattle.std.specs.Prelude.{◌≡◌, ◌++◌, map, IfOk};
ghost use Rattle.macro_expand.specs.Codes.{passage_by};
ghost use Rattle.macro_expand.specs.Items.{column_note, column_notes, column_row};

use crate::Passage;
use crate::acting::joined;
use hl_base::{Frames, Notes, OutOfMemory};
use hlasm_statements::{ColumnFault, Statement};
use note_rows::{Row, note};
use std::alloc::Global;

/// What is reported of a fault of columns.
pub fn column_row(fault: ColumnFault) -> Row
    ensures { result ≡ column_row fault }
{
    match fault {
        ColumnFault::MarginText => Row::MarginText,
        ColumnFault::SurplusLines => Row::SurplusLines,
        ColumnFault::MissingLine => Row::MissingLine,
    }
}

/// The column faults of a statement.
fn notes_in(alloc: Global, statement: &Statement) -> Result<Notes, OutOfMemory>
    ensures { IfOk result (λ notes. notes ≡ map column_note statement.now.faults) }
{
    let mut notes = Notes::new(alloc);
    for fault in statement.faults.as_slice() {
        notes.push(note(alloc, &column_row(*fault), Frames::new(alloc))?)?;
    }
    Ok(notes)
}

/// The column faults of the statement at a place of a passage.
fn column_notes(alloc: Global, passage: &Passage, place: u32) -> Result<Notes, OutOfMemory>
    ensures { IfOk result (λ notes. notes ≡ column_notes (passage_by passage.now) place) }
{
    match passage.listing.point(place) {
        Some(line) => notes_in(alloc, line.statement()),
        None => Ok(Notes::new(alloc)),
    }
}

/// The column faults of the statement at a place of a passage, and these notes behind them.
pub(crate) fn with_columns(
    alloc: Global,
    passage: &Passage,
    place: u32,
    notes: Notes,
) -> Result<Notes, OutOfMemory>
    ensures { IfOk result (λ all. all ≡ column_notes (passage_by passage.now) place ++ notes) }
{
    let columns = column_notes(alloc, passage, place)?;
    if columns.as_slice().is_empty() {
        return Ok(notes);
    }
    joined(alloc, columns, &notes)
}
