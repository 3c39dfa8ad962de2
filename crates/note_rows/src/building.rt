//! Notes of the table.
ghost use Rattle.std.specs.Prelude.{◌≡◌, ◌++◌, IfOk, OnOk};
ghost use Rattle.note_rows.specs.Table as table;
ghost use Rattle.note_rows.specs.Inside.{inserted_text, text_of};

use crate::Row;
use crate::wording::{Inserted, Wording, wording_of};
use hl_base::{Frames, Note, OutOfMemory, Text};
use std::alloc::Global;

/// Adds a number in decimal.
fn push_number(alloc: Global, number: u32, text: &mut Text) -> Result<(), OutOfMemory>
    ensures { OnOk result (text.new ≡ text.old ++ inserted_text (Inserted.Number number)) }
{
    let digits = format!(in alloc; "{number}")?;
    text.push_str(digits.as_str())
}

/// Adds what is inserted.
fn push_inserted(alloc: Global, inserted: Inserted<'_>, text: &mut Text) -> Result<(), OutOfMemory>
    ensures { OnOk result (text.new ≡ text.old ++ inserted_text inserted.entry) }
{
    match inserted {
        Inserted::Nothing => Ok(()),
        Inserted::Word(word) => text.push_str(word),
        Inserted::Number(number) => push_number(alloc, number, text),
    }
}

/// The whole text of a row.
fn text_of(alloc: Global, wording: Wording<'_>) -> Result<Text, OutOfMemory>
    ensures { IfOk result (λ text. text ≡ text_of wording.entry) }
{
    let mut text = Text::of(alloc, wording.before)?;
    push_inserted(alloc, wording.inserted, &mut text)?;
    text.push_str(wording.behind)?;
    Ok(text)
}

/// The note of a row, at the statement whose frames these are, outermost first. Those who do not know the statement give
/// no frames, and whoever knows it fills them in.
pub fn note(alloc: Global, row: &Row, stack: Frames) -> Result<Note, OutOfMemory>
    ensures { IfOk result (λ note. note ≡ table.noted row.now stack) }
{
    let worded = wording_of(row);
    Ok(Note {
        code: worded.code,
        severity: worded.severity,
        text: text_of(alloc, worded)?,
        stack,
    })
}

/// Whether a note is shown at the start of its line, and not over the statement: a missing END alone.
pub fn stands_at_start(note: &Note) -> bool
    ensures { result ≡ table.is_at_start note.now }
{
    note.code == wording_of(&Row::MissingEnd).code
}
