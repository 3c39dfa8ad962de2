//! Pools of literals.
ghost use Rattle.std.specs.Prelude.{◌≡◌, ◌++◌, slice_get, IfOk, OnOk};
ghost use Rattle.section_table.specs.Shown.{table_of};
ghost use Rattle.section_steps.specs.Pools as spec;
ghost use Rattle.section_steps.specs.Views.{laid_of, state_of};

use crate::labels::{PLAIN, define_label};
use crate::places::{bytes_between, value_at};
use crate::{Laid, Left, State};
use hl_base::{Name, OutOfMemory};
use note_rows::Row;
use section_table::{Place, SectionTable};
use std::alloc::Global;

/// The open pool is closed on the next doubleword of the current section, or without a place where it does not fit, which is said.
/// It says where it stands; where it does not fit, the place stays.
#[tactic(auto, unfolding(crate::specs::Pools::pool_closed, crate::specs::Pools::said_of_pool, crate::specs::Pools::pool_place))]
fn close_pool(
    alloc: Global,
    state: &mut State,
    rows: &mut Vec<Row>,
) -> Result<Option<Place>, OutOfMemory>
    ensures place { IfOk result (λ place. place ≡ spec.pool_place (state_of state.old)) }
    ensures closed { OnOk result (state_of state.new ≡ spec.pool_closed (state_of state.old).sections (state_of state.old)) }
    ensures said { OnOk result (rows.new.items ≡ rows.old.items ++ spec.said_of_pool (state_of state.old).sections (state_of state.old)) }
{
    let stays = state.sections.here();
    let base = state.sections.take(8, state.literals.size());
    state.literals.close(alloc, base)?;
    if base.is_none() {
        rows.push(Row::SectionTooLong)?;
    }
    Ok(base.or(stays))
}

/// LTORG.
#[tactic(auto, unfolding(crate::specs::Pools::pool_behind, crate::specs::Pools::pool_laid, crate::specs::Pools::pool_closed))]
pub(crate) fn pool(
    alloc: Global,
    state: &mut State,
    label: Option<Name>,
) -> Result<Laid, OutOfMemory>
    ensures behind { OnOk result (state_of state.new ≡ spec.pool_behind label (state_of state.old)) }
    ensures laid { IfOk result (λ laid. laid_of laid ≡ spec.pool_laid label (state_of state.old)) }
{
    let mut said = Vec::new(alloc);
    let place = close_pool(alloc, state, &mut said)?;
    let mut said_of_symbols = Vec::new(alloc);
    define_label(
        alloc,
        &mut state.symbols,
        label,
        place,
        PLAIN,
        &mut said_of_symbols,
    )?;
    Ok(Laid {
        place,
        bytes: bytes_between(place, state.sections.here()),
        here: value_at(place)?,
        uses: Vec::new(alloc),
        said,
        said_of_symbols,
        left: Left::Nothing,
    })
}

/// Whether the section of a number is a control section.
fn is_control(sections: &SectionTable, number: usize) -> bool
    ensures { result ≡ spec.is_control (slice_get (table_of sections.now).spans number) }
{
    match sections.span(number) {
        Some(span) => !span.dummy,
        None => false,
    }
}

/// The number of the first control section, or of the first section where there is none.
#[tactic(auto, using(crate::proofs::Homes::control_here, crate::proofs::Homes::control_next, crate::proofs::Homes::control_none))]
fn last_home(sections: &SectionTable) -> usize
    ensures { result ≡ spec.last_home (table_of sections.now).spans }
{
    for number in 0..sections.count() {
        if is_control(sections, number) {
            return number;
        }
    }
    0
}

/// The section of a place is resumed.
fn go_back(sections: &mut SectionTable, place: Option<Place>)
    ensures { table_of sections.new ≡ spec.back_at place (table_of sections.old) }
{
    if let Some(place) = place {
        sections.resume(place.section);
    }
}

/// The counter goes on at the end of the section that has the last pool.
#[tactic(auto, unfolding(crate::specs::Pools::at_home))]
fn go_home(sections: &mut SectionTable)
    ensures { table_of sections.new ≡ spec.at_home (table_of sections.old) }
{
    let home = last_home(sections);
    sections.resume(home);
    sections.org_to_end();
}

/// The last pool is closed.
#[tactic(auto, unfolding(crate::specs::Pools::last_closed, crate::specs::Pools::pool_closed, crate::specs::Pools::said_of_pool))]
fn close_last(alloc: Global, state: &mut State, rows: &mut Vec<Row>) -> Result<(), OutOfMemory>
    ensures behind { OnOk result (state_of state.new ≡ spec.last_closed (state_of state.old)) }
    ensures said { OnOk result (rows.new.items ≡ rows.old.items
        ++ spec.said_of_pool (spec.at_home (state_of state.old).sections) (state_of state.old)) }
{
    let place = state.sections.here();
    go_home(&mut state.sections);
    close_pool(alloc, state, rows)?;
    go_back(&mut state.sections, place);
    Ok(())
}

impl State {
    /// Behind the last statement: the open pool is placed, if it has a literal, and that it does not fit is said.
    #[tactic(auto, unfolding(crate::specs::Pools::last_behind, crate::specs::Pools::said_of_last))]
    pub fn place_last_pool(&mut self, alloc: Global, rows: &mut Vec<Row>) -> Result<(), OutOfMemory>
        ensures behind { OnOk result (state_of self.new ≡ spec.last_behind (state_of self.old)) }
        ensures said { OnOk result (rows.new.items ≡ rows.old.items ++ spec.said_of_last (state_of self.old)) }
    {
        if self.literals.is_empty() {
            return Ok(());
        }
        close_last(alloc, self, rows)
    }
}
