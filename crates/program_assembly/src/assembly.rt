//! Assembling a program.
ghost use Rattle.std.specs.Prelude.{◌≡◌, ℕ, Some, IfOk, OnOk};
ghost use Rattle.std.specs.Rc.{rc_str_bytes};
ghost use Rattle.std.specs.Str.{chars};
ghost use Rattle.text_pool.specs.Pool.{IsLive as IsLiveText, text_of};
ghost use Rattle.expansion_memo.specs.Kept.{KeptOutcome, AllStand, kept_at};
ghost use Rattle.expansion_memo.specs.Running.{IsHandedOut};
ghost use Rattle.call_sites.specs.Rules.{is_moving, is_writable, rebased};
ghost use Rattle.program_assembly.specs.Runs.{IsAssembly};

use crate::column_notes::columns_of_text;
use crate::report::{Report, report_of};
use asking_core::AskMachine;
use call_sites::{CallSite, Known};
use expansion_memo::Memo;
use hl_base::{Frames, Key, Ledger, Notes, OutOfMemory, PathId, Steps, TextId};
use std::alloc::Global;
use std::rc::RcStr;
use text_pool::Present;
use trace_arena::{NodeId, TraceArena};
use trace_paths::{PathIds, touched_paths};
use trace_values::{Settings, TraceItem};
use trace_variables::globals_at_end;

/// What an assembly says of a program.
#[derive(Drop)]
pub struct Assembly {
    /// The node of its points, and how many there are.
    pub root: NodeId,
    pub points: u32,

    /// What is reported.
    pub notes: Notes,

    /// The global SET symbols with their values behind the last point, by type, then in the byte order of their names, then by
    /// element: element 0 of each that was declared without a subscript, and each other element that was set.
    pub globals: Settings,

    /// The path of each frame of a point, once, in the order of their numbers.
    pub touched: PathIds,
}

/// Assembles the program of a path and a text, as `assemble` does.
fn assemble_text<
    M: AskMachine<Key = Key, Value = Known, Call = CallSite, Item = TraceItem, Frames = Frames>,
    P: Present,
    L: Ledger,
>(
    machine: &M,
    alloc: Global,
    path: PathId,
    text: &RcStr,
    parm: &str,
    present: &P,
    memo: &mut Memo<M>,
    arena: &mut TraceArena<TraceItem>,
    budget: u32,
    steps: &mut Steps<L>,
) -> Result<Assembly, OutOfMemory>
    requires moving { M.moving ≡ is_moving }
    requires writable { M.writable ≡ is_writable }
    requires rebased { M.rebased ≡ rebased }
    requires stand { AllStand M.model M.rebased M.call_of M.item_of arena.old.nodes memo.old }
    ensures assembly { IfOk result (λ a. IsAssembly M.model M.rebased M.call_of M.item_of M.frames_of
        path.0 (chars (rc_str_bytes text.now)) (chars parm.now) (P.members present.now) budget arena.new.nodes a) }
    ensures handed { IfOk result (λ a. IsHandedOut arena.old.nodes arena.new.nodes a.root.0) }
    ensures stand { OnOk result (AllStand M.model M.rebased M.call_of M.item_of arena.new.nodes memo.new) }
    ensures still_kept { OnOk result ((i : ℕ) (o : KeptOutcome) → kept_at memo.old i ≡ Some o → kept_at memo.new i ≡ Some o) }
{
    let columns = columns_of_text(alloc, path, text.as_str())?;
    let report = report_of(
        machine, alloc, path, text, columns, parm, present, memo, arena, budget, steps,
    )?;
    let Report { root, notes } = report;
    Ok(Assembly {
        root,
        points: arena.points(root),
        notes,
        globals: globals_at_end(alloc, arena, root)?,
        touched: touched_paths(alloc, arena, root)?,
    })
}

/// Assembles the program of a path and a text, with this SYSPARM, these members and this budget, by a machine whose rules on
/// keys are those of `call_sites`. Its caller is one more owner of the root.
///
/// After an `Err` nothing is known of the arena and of what is kept: both are to be given up.
pub fn assemble<
    M: AskMachine<Key = Key, Value = Known, Call = CallSite, Item = TraceItem, Frames = Frames>,
    P: Present,
    L: Ledger,
>(
    machine: &M,
    alloc: Global,
    path: PathId,
    text: TextId,
    parm: &str,
    present: &P,
    memo: &mut Memo<M>,
    arena: &mut TraceArena<TraceItem>,
    budget: u32,
    steps: &mut Steps<L>,
) -> Result<Assembly, OutOfMemory>
    requires live { IsLiveText (P.texts present.now) text.0 }
    requires moving { M.moving ≡ is_moving }
    requires writable { M.writable ≡ is_writable }
    requires rebased { M.rebased ≡ rebased }
    requires stand { AllStand M.model M.rebased M.call_of M.item_of arena.old.nodes memo.old }
    ensures assembly { IfOk result (λ a. IsAssembly M.model M.rebased M.call_of M.item_of M.frames_of
        path.0 (text_of (P.texts present.now) text.0) (chars parm.now) (P.members present.now) budget arena.new.nodes a) }
    ensures handed { IfOk result (λ a. IsHandedOut arena.old.nodes arena.new.nodes a.root.0) }
    ensures stand { OnOk result (AllStand M.model M.rebased M.call_of M.item_of arena.new.nodes memo.new) }
    ensures still_kept { OnOk result ((i : ℕ) (o : KeptOutcome) → kept_at memo.old i ≡ Some o → kept_at memo.new i ≡ Some o) }
{
    let text = present.pool().shared(alloc, text)?;
    assemble_text(
        machine, alloc, path, &text, parm, present, memo, arena, budget, steps,
    )
}
