//! Notes of rows.
use hl_base::{
    Frame, FrameKind, Frames, Name, Note, Notes, Origin, OutOfMemory, PathId, Severity, Text,
};
use note_rows::{Row, note};
use std::alloc::{AllocError, Global};

/// The row of this word, with what is inserted; of another word what an author says.
fn row(alloc: Global, word: &str, inserted: &str) -> Result<Row, OutOfMemory> {
    match word {
        "unreadable" => Ok(Row::Unreadable(inserted.parse::<u32>().unwrap_or(0))),
        "left out" => Ok(Row::LeftOutOperation(Text::of(alloc, inserted)?)),
        _ => Ok(Row::Author(Severity::Information, Text::of(alloc, inserted)?)),
    }
}

/// The stack of a macro alone, worded `NAME LINE`.
fn stack(alloc: Global, words: &str) -> Result<Frames, OutOfMemory> {
    let (name, line) = words.split_once(' ').unwrap_or((words, ""));
    let mut stack = Frames::new(alloc);
    stack.push(Frame {
        kind: FrameKind::Macro,
        name: Name::read(name),
        origin: Origin {
            path: PathId(1),
            line: line.parse::<u32>().unwrap_or(0),
        },
    })?;
    Ok(stack)
}

/// A note with its stack.
fn shown(alloc: Global, note: &Note) -> Result<String, AllocError> {
    let text = note.text.as_str();
    let mut shown = format!(in alloc; "{} {:?} {text}", note.code, note.severity)?;
    for frame in note.stack.as_slice() {
        let name = frame.name.as_ref().map_or("", |name| name.text());
        let (kind, line) = (frame.kind, frame.origin.line);
        shown.push_str(format!(in alloc; "; {kind:?} {name} {line}")?.as_str())?;
    }
    Ok(shown)
}

/// Notes, with bars behind them.
fn listed(alloc: Global, notes: &Notes) -> Result<String, OutOfMemory> {
    let mut line = String::new(alloc);
    for note in notes.as_slice() {
        line.push_str(shown(alloc, note)?.as_str())?;
        line.push('|')?;
    }
    Ok(line)
}

/// The copy of the note of a row that a macro's statement has, alone in its list.
pub fn noted(
    alloc: Global,
    word: &str,
    inserted: &str,
    words: &str,
) -> Result<String, OutOfMemory> {
    let row = row(alloc, word, inserted)?;
    let note = note(alloc, &row, stack(alloc, words)?)?;
    let mut notes = Notes::new(alloc);
    notes.push(note.copy(alloc)?)?;
    listed(alloc, &notes)
}
