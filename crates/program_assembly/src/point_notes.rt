//! What is noted of the points of a run, each at its whole stack.
ghost use Rattle.std.specs.Prelude.{◌≡◌, ◌++◌, ◌<◌, [], length, IfOk, OnOk, slice_get, Some};
ghost use Rattle.std.specs.Bool.{OnTrue};
ghost use Rattle.std.specs.Option.{option_map, option_map_or};
ghost use Rattle.std.specs.List.{flat_map};
ghost use Rattle.trace_arena.specs.Nodes.{IsLive};
ghost use Rattle.trace_arena.specs.Points.{points};
ghost use Rattle.trace_cursor.specs.Pasts.{AreThere};
ghost use Rattle.trace_cursor.specs.Stacks.{stack_of};
ghost use Rattle.statement_checks.specs.Layout.{rows_of};
ghost use Rattle.statement_checks.specs.Views.{layout_view};
ghost use Rattle.program_assembly.specs.PointNotes.{at_stack, is_of_columns, point_notes, notes_at, noted_at, stack_at, stands_in};
ghost use Rattle.program_assembly.specs.Stacks.{frames_there, other_at};
ghost use Rattle.program_assembly.specs.Statements.{noted_points, rows_at, said_of};

use crate::places::item_at;
use crate::statements::count_of;
use hl_base::{Frames, Note, Notes, OutOfMemory, PathId};
use hlasm_statements::ColumnFault;
use note_rows::{Row, note};
use statement_checks::section_layout::Layout;
use std::alloc::Global;
use trace_arena::{NodeId, TraceArena};
use trace_cursor::{Cursor, ItemPlace, path};
use trace_values::TraceItem;

/// A note, once more, at a stack.
fn at_stack(alloc: Global, note: &Note, stack: &Frames) -> Result<Note, OutOfMemory>
    ensures { IfOk result (λ n. n ≡ at_stack stack.now note.now) }
{
    Ok(Note {
        code: note.code,
        severity: note.severity,
        text: note.text.copy(alloc)?,
        stack: stack.copy(alloc)?,
    })
}

/// The frames of the items at these places, in turn.
fn frames_there(
    alloc: Global,
    arena: &TraceArena<TraceItem>,
    places: &[ItemPlace],
) -> Result<Frames, OutOfMemory>
    requires there { AreThere arena.now.nodes places.now }
    ensures { IfOk result (λ frames. frames ≡ flat_map (frames_there arena.now.nodes) places.now) }
{
    let mut frames = Frames::new(alloc);
    for place in places {
        item_at(arena, *place).frames.push_onto(&mut frames)?;
    }
    Ok(frames)
}

/// The whole stack of a point, outermost frame first.
fn stack_at(
    alloc: Global,
    arena: &TraceArena<TraceItem>,
    root: NodeId,
    index: u32,
) -> Result<Frames, OutOfMemory>
    requires live { IsLive arena.now.nodes root.0 }
    requires inside { index < length (points arena.now.nodes root.0) }
    ensures { IfOk result (λ stack. stack ≡ stack_at (slice_get (points arena.now.nodes root.0) index)) }
{
    let places = path(alloc, arena, root, index)?;
    frames_there(alloc, arena, places.as_slice())
}

/// Whether a note is that of a column fault.
fn is_of_columns(note: &Note) -> bool
    ensures { result ≡ is_of_columns note.now }
{
    note.code == ColumnFault::MarginText.code()
        || note.code == ColumnFault::SurplusLines.code()
        || note.code == ColumnFault::MissingLine.code()
}

/// Whether the statement of an item stands in the text of a path.
fn stands_in(path: PathId, item: &TraceItem) -> bool
    ensures { result ≡ stands_in path.0 item.now }
{
    item.frames.origin().path.0 == path.0
}

/// Adds notes, each at this stack.
fn add_at_stack(
    alloc: Global,
    said: &[Note],
    stack: &Frames,
    notes: &mut Notes,
) -> Result<(), OutOfMemory>
    ensures { OnOk result (notes.new ≡ notes.old ++ notes_at stack.now said.now) }
{
    for note in said {
        notes.push(at_stack(alloc, note, stack)?)?;
    }
    Ok(())
}

/// Adds a note at this stack, unless it is that of a column fault.
fn add_other(
    alloc: Global,
    note: &Note,
    stack: &Frames,
    notes: &mut Notes,
) -> Result<(), OutOfMemory>
    ensures { OnOk result (notes.new ≡ notes.old ++ other_at stack.now note.now) }
{
    if is_of_columns(note) {
        return Ok(());
    }
    notes.push(at_stack(alloc, note, stack)?)
}

/// Adds those of these notes that are of no column fault, each at this stack.
fn add_others_at_stack(
    alloc: Global,
    said: &[Note],
    stack: &Frames,
    notes: &mut Notes,
) -> Result<(), OutOfMemory>
    ensures { OnOk result (notes.new ≡ notes.old ++ flat_map (other_at stack.now) said.now) }
{
    for note in said {
        add_other(alloc, note, stack, notes)?;
    }
    Ok(())
}

/// Adds what is noted of an item of the program of a path, at this stack.
fn add_item_notes(
    alloc: Global,
    path: PathId,
    item: &TraceItem,
    stack: &Frames,
    notes: &mut Notes,
) -> Result<(), OutOfMemory>
    ensures { OnOk result (notes.new ≡ notes.old ++ notes_at stack.now (noted_at path.0 item.now)) }
{
    let said = item.notes.as_slice();
    if stands_in(path, item) {
        return add_others_at_stack(alloc, said, stack, notes);
    }
    add_at_stack(alloc, said, stack, notes)
}

/// Adds what is said of a statement, at this stack.
fn add_rows(
    alloc: Global,
    said: &[Row],
    stack: &Frames,
    notes: &mut Notes,
) -> Result<(), OutOfMemory>
    ensures { OnOk result (notes.new ≡ notes.old ++ rows_at stack.now said.now) }
{
    for row in said {
        notes.push(note(alloc, row, stack.copy(alloc)?)?)?;
    }
    Ok(())
}

/// What the layout says of the statement of an item, by the number of the statement, if the item generated one.
fn said_of<'a>(layout: &'a Layout, statement: u32, item: &TraceItem) -> &'a [Row]
    ensures { result.now ≡ said_of (rows_of (layout_view layout.now)) statement item.now.line }
{
    match &item.line {
        Some(_) => layout.rows_of(statement),
        None => &[],
    }
}

/// Whether nothing is noted of an item, and nothing said of its statement.
fn says_nothing(item: &TraceItem, said: &[Row]) -> bool
    ensures notes { OnTrue result (item.now.notes ≡ []) }
    ensures rows { OnTrue result (said.now ≡ []) }
{
    item.notes.as_slice().is_empty() && said.is_empty()
}

/// Adds the notes of the point of a number, whose item this is and of whose statement this is said, of the program of a path.
fn add_notes_of(
    alloc: Global,
    path: PathId,
    arena: &TraceArena<TraceItem>,
    root: NodeId,
    index: u32,
    item: &TraceItem,
    said: &[Row],
    notes: &mut Notes,
) -> Result<(), OutOfMemory>
    requires live { IsLive arena.now.nodes root.0 }
    requires there { option_map (λ point. point.item) (slice_get (points arena.now.nodes root.0) index) ≡ Some item.now }
    ensures { OnOk result (notes.new ≡ notes.old
        ++ option_map_or (λ point. point_notes path.0 point ++ rows_at (stack_of point) said.now)
        (slice_get (points arena.now.nodes root.0) index) []) }
{
    if says_nothing(item, said) {
        return Ok(());
    }
    let stack = stack_at(alloc, arena, root, index)?;
    add_item_notes(alloc, path, item, &stack, notes)?;
    add_rows(alloc, said, &stack, notes)
}

/// Adds the notes of each point of a root, in turn, of the program of a path, with what the layout of its statements says.
pub(crate) fn add_point_notes(
    alloc: Global,
    path: PathId,
    arena: &TraceArena<TraceItem>,
    root: NodeId,
    layout: &Layout,
    notes: &mut Notes,
) -> Result<(), OutOfMemory>
    requires live { IsLive arena.now.nodes root.0 }
    ensures { OnOk result (notes.new ≡ notes.old
        ++ noted_points path.0 (rows_of (layout_view layout.now)) 0 (points arena.now.nodes root.0)) }
{
    let Some(mut cursor) = Cursor::at(arena, root, 0) else {
        return Ok(());
    };
    let mut statements = 0;
    for index in 0..arena.points(root) {
        let item = cursor.item(arena);
        let said = said_of(layout, statements, item);
        add_notes_of(alloc, path, arena, root, index, item, said, notes)?;
        statements += count_of(item);
        let _ = cursor.advance(arena);
    }
    Ok(())
}
