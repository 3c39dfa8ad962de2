//! What is noted of the columns of a program's text.
ghost use Rattle.std.specs.Prelude.{◌≡◌, ◌++◌, ◌-◌, ◌<◌, ℕ, IfOk, OnOk, length, map};
ghost use Rattle.std.specs.List.{flat_map};
ghost use Rattle.std.specs.Str.{chars};
ghost use Rattle.hl_base.specs.Texts.{lines};
ghost use Rattle.hlasm_statements.specs.Laws.{FollowOn};
ghost use Rattle.program_assembly.specs.ColumnNotes.{open_code_at, note_at, fault_notes, column_notes};

use hl_base::{Frame, FrameKind, Frames, Note, Notes, Origin, OutOfMemory, PathId};
use hlasm_statements::{Statement, read_statements};
use macro_expand::column_row;
use macro_library::MemberFile;
use note_rows::{Row, note};
use statement_listing::Line;
use std::alloc::Global;

/// A note of the statement of open code that begins in a line of the program, counted from 0.
pub(crate) fn note_at(
    alloc: Global,
    path: PathId,
    line: u32,
    row: &Row,
) -> Result<Note, OutOfMemory>
    ensures { IfOk result (λ note. note ≡ note_at path.0 line row.now) }
{
    let mut stack = Frames::new(alloc);
    stack.push(Frame {
        kind: FrameKind::OpenCode,
        name: None,
        origin: Origin { path, line },
    })?;
    note(alloc, row, stack)
}

/// Adds the column faults of a statement.
fn add_faults(
    alloc: Global,
    path: PathId,
    statement: &Statement,
    notes: &mut Notes,
) -> Result<(), OutOfMemory>
    ensures { OnOk result (notes.new ≡ notes.old ++ fault_notes path.0 statement.now) }
{
    for fault in statement.faults.as_slice() {
        let note = note_at(alloc, path, statement.first, &column_row(*fault))?;
        notes.push(note)?;
    }
    Ok(())
}

/// Adds the column faults of statements, in turn.
fn add_column_notes(
    alloc: Global,
    path: PathId,
    statements: &[Statement],
    notes: &mut Notes,
) -> Result<(), OutOfMemory>
    ensures { OnOk result (notes.new ≡ notes.old ++ flat_map (fault_notes path.0) statements.now) }
{
    for statement in statements {
        add_faults(alloc, path, statement, notes)?;
    }
    Ok(())
}

/// The number of the last line of statements that follow on one another up to a line.
fn last_line(statements: &[Statement]) -> u32
    ensures { (end : ℕ) → FollowOn 0 statements.now end → 0 < end → result ≡ end - 1 }
{
    match statements.last() {
        Some(statement) => statement.last,
        None => 0,
    }
}

/// The same of the statements of lines.
fn add_line_notes(
    alloc: Global,
    path: PathId,
    lines: &[Line],
    notes: &mut Notes,
) -> Result<(), OutOfMemory>
    ensures { OnOk result (notes.new ≡ notes.old ++ flat_map (λ line. fault_notes path.0 line.statement) lines.now) }
{
    for line in lines {
        add_faults(alloc, path, line.statement(), notes)?;
    }
    Ok(())
}

/// The number of the last line of the statements of lines, which follow on one another up to a line.
fn last_of_lines(lines: &[Line]) -> u32
    ensures { (end : ℕ) → FollowOn 0 (map (λ line. line.statement) lines.now) end → 0 < end → result ≡ end - 1 }
{
    match lines.last() {
        Some(line) => line.statement().last,
        None => 0,
    }
}

/// What is noted of the columns of a text, and the number of its last line.
#[derive(Drop)]
pub(crate) struct Columns {
    pub(crate) notes: Notes,
    pub(crate) last: u32,
}

/// Those of the text of a path, which is read for them.
pub(crate) fn columns_of_text(
    alloc: Global,
    path: PathId,
    text: &str,
) -> Result<Columns, OutOfMemory>
    ensures notes { IfOk result (λ c. c.notes ≡ column_notes path.0 (chars text.now)) }
    ensures last { IfOk result (λ c. c.last ≡ length (lines (chars text.now)) - 1) }
{
    let statements = read_statements(alloc, text)?;
    let statements = statements.as_slice();
    let mut notes = Notes::new(alloc);
    add_column_notes(alloc, path, statements, &mut notes)?;
    let last = last_line(statements);
    Ok(Columns { notes, last })
}

/// Those of a file that was read.
pub(crate) fn columns_of_file(alloc: Global, file: &MemberFile) -> Result<Columns, OutOfMemory>
    ensures notes { IfOk result (λ c. c.notes ≡ column_notes file.now.path.0 file.now.text) }
    ensures last { IfOk result (λ c. c.last ≡ length (lines file.now.text) - 1) }
{
    let list = file.list().lines();
    let mut notes = Notes::new(alloc);
    add_line_notes(alloc, file.path(), list, &mut notes)?;
    let last = last_of_lines(list);
    Ok(Columns { notes, last })
}
