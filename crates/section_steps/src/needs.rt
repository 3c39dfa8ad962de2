//! Which statements need a place.
ghost use Rattle.std.specs.Prelude.{◌≡◌, OnOk};
ghost use Rattle.std.specs.Option.{option_map};
ghost use Rattle.layout_statements.specs.Views.{equate_of, reading_of, statement_of, task_of};
ghost use Rattle.section_steps.specs.Needs as spec;
ghost use Rattle.section_steps.specs.Views.{state_of};

use crate::State;
use hl_base::OutOfMemory;
use layout_statements::{Equate, LayoutStatement, Reading, Task, mentions_place};
use std::alloc::Global;

/// Whether `*` is a term of an expression, if there is one.
fn some_reads_place(reading: &Option<Reading>) -> bool
    ensures { result ≡ spec.some_reads_place (option_map reading_of reading.now) }
{
    match reading {
        Some(Reading::Tree(formula)) => mentions_place(&formula.tree),
        Some(Reading::At(_)) | None => false,
    }
}

/// Whether `*` is a term of what EQU reads.
fn equate_reads_place(said: &Equate) -> bool
    ensures { result ≡ spec.equate_reads_place (equate_of said.now) }
{
    let reads = match &said.value {
        Reading::Tree(formula) => mentions_place(&formula.tree),
        Reading::At(_) => false,
    };
    reads || some_reads_place(&said.length)
}

/// Whether what a statement asks for needs a place, where it has a label or not.
fn needs_by(task: &Task, labelled: bool) -> bool
    ensures { result ≡ spec.needs_by (task_of task.now) labelled }
{
    match task {
        Task::Instruction(_, _) | Task::Constants(_) | Task::Org(_) | Task::Pool => true,
        Task::ControlSection | Task::DummySection | Task::Other => false,
        Task::Equate(said) => equate_reads_place(said),
        Task::Externals(_) | Task::Entries(_) => labelled,
        Task::End(at) => labelled || some_reads_place(at),
        Task::Bases(reads) => labelled || *reads,
    }
}

/// The state in which a statement is met: a section begins where it needs one and there is none.
#[tactic(auto, unfolding(crate::specs::Needs::met))]
pub(crate) fn meet(
    alloc: Global,
    state: &mut State,
    statement: &LayoutStatement,
) -> Result<(), OutOfMemory>
    ensures { OnOk result (state_of state.new ≡ spec.met (statement_of statement.now) (state_of state.old)) }
{
    if needs_by(&statement.task, statement.label.is_some()) {
        state.sections.need(alloc)?;
    }
    Ok(())
}
