//! What is reported of a program whose open code was run.
ghost use Rattle.std.specs.Prelude.{◌≡◌, ◌-◌, ℕ, List, IfOk, length};
ghost use Rattle.hl_base.specs.Texts.{lines};
ghost use Rattle.trace_arena.specs.Nodes.{IsLive};
ghost use Rattle.program_assembly.specs.ColumnNotes.{column_notes};
ghost use Rattle.program_assembly.specs.Notes.{notes_of};
ghost use Rattle.program_assembly.specs.Runs.{ran_of};

use crate::checked_layout::lay_out_and_check;
use crate::column_notes::Columns;
use crate::end_notes::add_end_notes;
use crate::point_notes::add_point_notes;
use crate::statements::generated;
use expansion_memo::Outcome;
use hl_base::{Frames, Notes, OutOfMemory, PathId};
use std::alloc::Global;
use trace_arena::TraceArena;
use trace_values::TraceItem;

/// The notes of the program of a path and the text of these columns, whose open code came to this outcome.
pub(crate) fn notes_of(
    alloc: Global,
    path: PathId,
    columns: Columns,
    arena: &TraceArena<TraceItem>,
    outcome: &Outcome<Frames>,
) -> Result<Notes, OutOfMemory>
    requires live { IsLive arena.now.nodes outcome.now.node.0 }
    ensures { IfOk result (λ notes. (text : List ℕ) → columns.notes ≡ column_notes path.0 text → columns.last ≡ length (lines text) - 1 →
        notes ≡ notes_of path.0 text (ran_of arena.now.nodes outcome.now)) }
{
    let Columns { mut notes, last } = columns;
    let lines = generated(alloc, arena, outcome.node)?;
    let lines = lines.as_slice();
    let layout = lay_out_and_check(alloc, lines)?;
    add_point_notes(alloc, path, arena, outcome.node, &layout, &mut notes)?;
    add_end_notes(alloc, path, last, arena, outcome, &mut notes)?;
    Ok(notes)
}
