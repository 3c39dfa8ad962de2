//! One statement.
ghost use Rattle.std.specs.Prelude.{◌≡◌, IfOk, OnOk};
ghost use Rattle.layout_statements.specs.Views.{statement_of, task_of};
ghost use Rattle.section_steps.specs.Steps as spec;
ghost use Rattle.section_steps.specs.Views.{laid_of, state_of};

use crate::constants::constants;
use crate::end::end;
use crate::equate::equate;
use crate::instruction::instruction;
use crate::mark::mark;
use crate::needs::meet;
use crate::org::org;
use crate::pools::pool;
use crate::section::section;
use crate::symbols::{entries, externals};
use crate::{Laid, Left, State};
use hl_base::{Name, OutOfMemory};
use layout_statements::{LayoutStatement, Task};
use std::alloc::Global;
use symbol_attributes::OpMeaning;

/// Does what a statement asks for that is met.
fn perform(
    alloc: Global,
    state: &mut State,
    op: &OpMeaning,
    task: Task,
    label: Option<Name>,
) -> Result<Laid, OutOfMemory>
    ensures behind { OnOk result (state_of state.new ≡ spec.task_behind op.now (task_of task) label (state_of state.old)) }
    ensures laid { IfOk result (λ laid. laid_of laid ≡ spec.task_laid op.now (task_of task) label (state_of state.old)) }
{
    match task {
        Task::Instruction(format, literals) => instruction(alloc, state, format, literals, label),
        Task::Constants(operands) => constants(alloc, state, operands, label),
        Task::ControlSection => section(alloc, state, label, false),
        Task::DummySection => section(alloc, state, label, true),
        Task::Equate(said) => equate(alloc, state, said, label),
        Task::Org(to) => org(alloc, state, to, label),
        Task::Pool => pool(alloc, state, label),
        Task::Externals(symbols) => externals(alloc, state, op, symbols.as_slice(), label),
        Task::Entries(symbols) => entries(alloc, state, symbols.as_slice(), label),
        Task::End(at) => end(alloc, state, at, label),
        Task::Bases(_) | Task::Other => mark(alloc, state, label, Vec::new(alloc), Left::Nothing),
    }
}

impl State {
    /// Lays out a statement behind others. After an `Err` some of what it asks for may have been done.
    #[tactic(auto, unfolding(crate::specs::Steps::behind, crate::specs::Steps::laid))]
    pub fn step(&mut self, alloc: Global, statement: LayoutStatement) -> Result<Laid, OutOfMemory>
        ensures behind { OnOk result (state_of self.new ≡ spec.behind (statement_of statement) (state_of self.old)) }
        ensures laid { IfOk result (λ laid. laid_of laid ≡ spec.laid (statement_of statement) (state_of self.old)) }
    {
        meet(alloc, self, &statement)?;
        let LayoutStatement { op, label, task } = statement;
        perform(alloc, self, &op, task, label)
    }
}
