//! Layouts.
ghost use Rattle.std.specs.Prelude.{◌≡◌, map, IfOk};
ghost use Rattle.section_layout.specs.Layout as spec;
ghost use Rattle.section_layout.specs.Views.{layout_view, lines_of, met_of};
ghost use Rattle.section_steps.specs.Views.{state_of};

use crate::judge::judge_all;
use crate::sections::sections_of;
use crate::walk::{meet_all, say_of_last};
use hl_base::{Line, OutOfMemory};
use literal_places::{LiteralUse, Literals};
use note_rows::Row;
use ordinary_symbols::Symbols;
use section_steps::{Left, State};
use section_table::Place;
use std::alloc::Global;
use trace_values::{Reloc, Sections};

/// A statement that is laid out. Which of the layout's symbols are defined before it is told by the number behind the statement
/// before it.
#[derive(Drop)]
pub struct StatementLayout {
    /// Where it stands, if there is a section by then: ORG and the statements of sections where they lead, all others where they are
    /// met, behind their own alignment.
    pub place: Option<Place>,
    /// How many bytes it takes from there on.
    pub bytes: u32,
    /// The value of `*` in its operands, if there is a section by then.
    pub here: Option<Reloc>,
    /// Of each literal of its operands, in order, which one of the layout's literals it is; none for one that was refused.
    pub uses: Vec<Option<LiteralUse>>,
    /// How many symbols there are behind it: it defines those from the number of the statement before it on.
    pub symbols: usize,
    /// What is said of it: of its place, and then of symbols.
    pub rows: Vec<Row>,
    /// What is said of the symbols that it defines, until that stands among its rows.
    pub(crate) said_of_symbols: Vec<Row>,
    /// What was judged when all symbols were known: of DC and DS the operands that could be read.
    pub left: Left,
}

/// The layout of generated lines, with a statement for each.
#[derive(Drop)]
pub struct Layout {
    pub statements: Vec<StatementLayout>,
    /// The sections by their numbers. Sections of external symbols have numbers above them, from 2,147,483,648 on.
    pub sections: Sections,
    pub literals: Literals,
    /// The symbols in order of definition, without the stacks of their statements.
    pub symbols: Symbols,
}

impl Layout {
    /// What is said of the statement of a number, counted from 0; nothing where there is none.
    pub fn rows_of(&self, statement: u32) -> &[Row]
        ensures { result.now ≡ spec.rows_of (layout_view self.now) statement }
    {
        match self.statements.get(statement as usize) {
            Some(statement) => statement.rows.as_slice(),
            None => &[],
        }
    }
}

/// The layout of statements that were met, with what there is behind them.
#[tactic(auto, unfolding(crate::specs::Layout::settled))]
fn settle(alloc: Global, mut all: Vec<StatementLayout>, state: State) -> Result<Layout, OutOfMemory>
    ensures { IfOk result (λ layout. layout_view layout ≡ spec.settled (map met_of all.items) (state_of state)) }
{
    let State {
        sections,
        mut symbols,
        literals,
        externals: _,
    } = state;
    symbols.resolve_deferred(alloc)?;
    judge_all(&symbols, all.as_mut_slice())?;
    Ok(Layout {
        statements: all,
        sections: sections_of(alloc, &sections)?,
        literals,
        symbols,
    })
}

/// The same where the last pool is still to be placed.
#[tactic(auto, unfolding(crate::specs::Layout::ended))]
fn end(
    alloc: Global,
    mut all: Vec<StatementLayout>,
    mut state: State,
) -> Result<Layout, OutOfMemory>
    ensures { IfOk result (λ layout. layout_view layout ≡ spec.ended (map met_of all.items) (state_of state)) }
{
    let mut said = Vec::new(alloc);
    state.place_last_pool(alloc, &mut said)?;
    say_of_last(&mut all, said)?;
    settle(alloc, all, state)
}

/// The layout of these generated lines, in order.
#[tactic(auto, unfolding(crate::specs::Layout::layout_of))]
pub fn lay_out(alloc: Global, lines: &[&Line]) -> Result<Layout, OutOfMemory>
    ensures { IfOk result (λ layout. layout_view layout ≡ spec.layout_of (lines_of lines.now)) }
{
    let mut state = State::new(alloc);
    let all = meet_all(alloc, &mut state, lines)?;
    end(alloc, all, state)
}
