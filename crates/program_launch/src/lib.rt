//! The trace of a program: what its open code comes to, run afresh.
//!
//! `trace_program` runs the open code of a program and puts its points into an arena that is handed in. `launch` does so in an arena
//! of its own, which it hands over as the `Launched` of a debug session. Nothing is reported of the run, so it takes less than an
//! assembly. It knows nothing of debug messages, of documents and of when a program is launched.
//!
//! Its contract in words: the points of the trace are those of the plain expansion of the program's text, with its SYSPARM, its
//! members and its budget as they are handed in; nothing that is assembled later touches those of a launched program.
#![tactic(auto)]

ghost use Rattle.std.specs.Prelude.{◌≡◌, IfOk};
ghost use Rattle.std.specs.Rc.{rc_str_bytes};
ghost use Rattle.std.specs.Str.{chars};
ghost use Rattle.text_pool.specs.Pool.{IsLive as IsLiveText, text_of};
ghost use Rattle.trace_arena.specs.Nodes.{IsLive};
ghost use Rattle.trace_arena.specs.Points.{points};
ghost use Rattle.program_launch.specs.Traces.{trace_of};

use call_sites::CallSite;
use debug_sessions::Launched;
use expansion_memo::Memo;
use expansion_step::runs_are_expansions;
use hl_base::{Ledger, OutOfMemory, PathId, Steps, TextId};
use macro_expand::{Expander, HlasmLanguage};
use program_world::{ProgramWorld, the_world_fits};
use std::alloc::Global;
use std::rc::RcStr;
use text_pool::Present;
use trace_arena::{NodeId, TraceArena};
use trace_values::TraceItem;

/// The root of the points of the open code of a path and a text, with this SYSPARM, these members and a budget of so many statements.
/// They are added to the arena, and nothing else is kept of the run.
///
/// After an `Err` nothing is known of the arena: it is to be given up.
pub fn trace_program<P: Present, L: Ledger>(
    alloc: Global,
    path: PathId,
    text: &RcStr,
    parm: &str,
    present: &P,
    budget: u32,
    arena: &mut TraceArena<TraceItem>,
    steps: &mut Steps<L>,
) -> Result<NodeId, OutOfMemory>
    ensures live { IfOk result (λ root. IsLive arena.new.nodes root.0) }
    ensures points { IfOk result (λ root. points arena.new.nodes root.0
        ≡ trace_of path.0 (chars (rc_str_bytes text.now)) (chars parm.now) (P.members present.now) budget) }
{
    the_world_fits();
    runs_are_expansions::<HlasmLanguage, ProgramWorld<P>>();
    let machine = Expander::new(HlasmLanguage::new());
    let mut memo: Memo<Expander> = Memo::new(alloc);
    let call = CallSite::OpenCode(path, text.clone()?);
    let mut world = ProgramWorld::new(alloc, text.clone()?, parm, present)?;
    let outcome = memo.expand(&machine, alloc, &call, &mut world, budget, 0, arena, steps)?;
    Ok(outcome.node)
}

/// The trace of the program of a path and a text, with this SYSPARM, these members and this budget.
pub fn launch<P: Present, L: Ledger>(
    alloc: Global,
    path: PathId,
    text: TextId,
    parm: &str,
    present: &P,
    budget: u32,
    steps: &mut Steps<L>,
) -> Result<Launched, OutOfMemory>
    requires live { IsLiveText (P.texts present.now) text.0 }
    ensures { IfOk result (λ launched. launched
        ≡ trace_of path.0 (text_of (P.texts present.now) text.0) (chars parm.now) (P.members present.now) budget) }
{
    let text = present.pool().shared(alloc, text)?;
    let mut arena = TraceArena::new(alloc);
    let root = trace_program(alloc, path, &text, parm, present, budget, &mut arena, steps)?;
    Ok(Launched::of(arena, root))
}
