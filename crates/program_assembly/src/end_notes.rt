//! What is noted of the end of a run.
ghost use Rattle.std.specs.Prelude.{◌≡◌, ◌++◌, IfOk, OnOk};
ghost use Rattle.trace_arena.specs.Nodes.{IsLive};
ghost use Rattle.trace_arena.specs.Points.{points};
ghost use Rattle.note_rows.specs.declared.row.Row.TheVariants.{MissingEnd};
ghost use Rattle.program_assembly.specs.ColumnNotes.{note_at};
ghost use Rattle.program_assembly.specs.Notes.{has_code, ends_limited, unpaid_stack, end_notes_by};
ghost use Rattle.program_assembly.specs.Runs.{ran_of};

use crate::column_notes::note_at;
use crate::places::item_at;
use expansion_memo::{Ended, Outcome};
use hl_base::{Frames, Note, Notes, OutOfMemory, PathId};
use note_rows::{Row, note};
use std::alloc::Global;
use trace_arena::{NodeId, TraceArena};
use trace_cursor::path;
use trace_values::TraceItem;

/// Whether one of these notes has a code.
fn has_code(notes: &[Note], code: u16) -> bool
    ensures { result ≡ has_code code notes.now }
{
    notes.iter().any(|note| note.code == code)
}

/// Whether the branch limit ended open code: its last point stands in no nested call and has the note.
fn ends_limited(
    alloc: Global,
    arena: &TraceArena<TraceItem>,
    root: NodeId,
) -> Result<bool, OutOfMemory>
    requires live { IsLive arena.now.nodes root.0 }
    ensures { IfOk result (λ limited. limited ≡ ends_limited (points arena.now.nodes root.0)) }
{
    let points = arena.points(root);
    if points == 0 {
        return Ok(false);
    }
    let places = path(alloc, arena, root, points - 1)?;
    if places.len() != 1 {
        return Ok(false);
    }
    let item = item_at(arena, places[0]);
    let limit = note(alloc, &Row::BranchLimit, Frames::new(alloc))?;
    Ok(has_code(item.notes.as_slice(), limit.code))
}

/// Adds frames within those that are there.
fn add_frames(from: &Frames, frames: &mut Frames) -> Result<(), OutOfMemory>
    ensures { OnOk result (frames.new ≡ frames.old ++ from.now) }
{
    for frame in from.as_slice() {
        frames.push(frame.copy())?;
    }
    Ok(())
}

/// The whole stack of a statement, from the frames of its calls, the innermost call first.
fn unpaid_stack(alloc: Global, unpaid: &[Frames]) -> Result<Frames, OutOfMemory>
    ensures { IfOk result (λ stack. stack ≡ unpaid_stack unpaid.now) }
{
    let mut stack = Frames::new(alloc);
    let mut inside = unpaid.len();
    while inside > 0 {
        inside -= 1;
        add_frames(&unpaid[inside], &mut stack)?;
    }
    Ok(stack)
}

/// Adds what is noted of the end of the open code of a path, whose text has this as its last line.
pub(crate) fn add_end_notes(
    alloc: Global,
    path: PathId,
    last_line: u32,
    arena: &TraceArena<TraceItem>,
    outcome: &Outcome<Frames>,
    notes: &mut Notes,
) -> Result<(), OutOfMemory>
    requires live { IsLive arena.now.nodes outcome.now.node.0 }
    ensures { OnOk result (let ran = ran_of arena.now.nodes outcome.now in
        notes.new ≡ notes.old ++ end_notes_by ran.ended (note_at path.0 last_line MissingEnd) ran) }
{
    match outcome.ended {
        Ended::End => Ok(()),
        Ended::Budget => {
            let stack = unpaid_stack(alloc, outcome.unpaid.as_slice())?;
            notes.push(note(alloc, &Row::BudgetUsedUp, stack)?)
        }
        Ended::Returned => {
            if ends_limited(alloc, arena, outcome.node)? {
                return Ok(());
            }
            notes.push(note_at(alloc, path, last_line, &Row::MissingEnd)?)
        }
    }
}
