//! Running a program's open code, and reporting of it.
ghost use Rattle.std.specs.Prelude.{◌≡◌, ◌-◌, ℕ, Some, IfOk, OnOk, length};
ghost use Rattle.std.specs.Rc.{rc_str_bytes};
ghost use Rattle.std.specs.Str.{chars};
ghost use Rattle.expansion_memo.specs.Kept.{KeptOutcome, AllStand, kept_at};
ghost use Rattle.expansion_memo.specs.Running.{IsHandedOut};
ghost use Rattle.call_sites.specs.Rules.{is_moving, is_writable, rebased};
ghost use Rattle.hl_base.specs.Texts.{lines};
ghost use Rattle.program_assembly.specs.ColumnNotes.{column_notes};
ghost use Rattle.program_assembly.specs.Runs.{IsReport};

use crate::column_notes::Columns;
use crate::notes::notes_of;
use asking_core::AskMachine;
use call_sites::{CallSite, Known};
use expansion_memo::Memo;
use hl_base::{Frames, Key, Ledger, Notes, OutOfMemory, PathId, Steps};
use program_world::{ProgramWorld, the_world_fits};
use std::alloc::Global;
use std::rc::RcStr;
use text_pool::Present;
use trace_arena::{NodeId, TraceArena};
use trace_values::TraceItem;

/// The node of a run's points, and what is reported of them.
#[derive(Drop)]
pub(crate) struct Report {
    pub(crate) root: NodeId,
    pub(crate) notes: Notes,
}

/// Runs the open code of a path and a text, as `assemble` does, and reports of it. What its columns say was found before.
pub(crate) fn report_of<
    M: AskMachine<Key = Key, Value = Known, Call = CallSite, Item = TraceItem, Frames = Frames>,
    P: Present,
    L: Ledger,
>(
    machine: &M,
    alloc: Global,
    path: PathId,
    text: &RcStr,
    columns: Columns,
    parm: &str,
    present: &P,
    memo: &mut Memo<M>,
    arena: &mut TraceArena<TraceItem>,
    budget: u32,
    steps: &mut Steps<L>,
) -> Result<Report, OutOfMemory>
    requires columns { columns.notes ≡ column_notes path.0 (chars (rc_str_bytes text.now)) }
    requires last { columns.last ≡ length (lines (chars (rc_str_bytes text.now))) - 1 }
    requires moving { M.moving ≡ is_moving }
    requires writable { M.writable ≡ is_writable }
    requires rebased { M.rebased ≡ rebased }
    requires stand { AllStand M.model M.rebased M.call_of M.item_of arena.old.nodes memo.old }
    ensures report { IfOk result (λ r. IsReport M.model M.rebased M.call_of M.item_of M.frames_of
        path.0 (chars (rc_str_bytes text.now)) (chars parm.now) (P.members present.now) budget arena.new.nodes r.root r.notes) }
    ensures handed { IfOk result (λ r. IsHandedOut arena.old.nodes arena.new.nodes r.root.0) }
    ensures stand { OnOk result (AllStand M.model M.rebased M.call_of M.item_of arena.new.nodes memo.new) }
    ensures still_kept { OnOk result ((i : ℕ) (o : KeptOutcome) → kept_at memo.old i ≡ Some o → kept_at memo.new i ≡ Some o) }
{
    the_world_fits();
    let call = CallSite::OpenCode(path, text.clone()?);
    let mut world = ProgramWorld::new(alloc, text.clone()?, parm, present)?;
    let outcome = memo.expand(machine, alloc, &call, &mut world, budget, 0, arena, steps)?;
    Ok(Report {
        root: outcome.node,
        notes: notes_of(alloc, path, columns, arena, &outcome)?,
    })
}
