//! Statements that stand where the counter does and take nothing.
ghost use Rattle.std.specs.Prelude.{◌≡◌, IfOk, OnOk};
ghost use Rattle.section_steps.specs.Marks as spec;
ghost use Rattle.section_steps.specs.Views.{laid_of, left_of, state_of};

use crate::labels::{PLAIN, define_label};
use crate::places::value_at;
use crate::{Laid, Left, State};
use hl_base::{Name, OutOfMemory};
use note_rows::Row;
use std::alloc::Global;

/// A label on the place of the counter, on a statement of which this is said, and which leaves this.
#[tactic(auto, unfolding(crate::specs::Marks::mark_behind, crate::specs::Marks::mark_laid))]
pub(crate) fn mark(
    alloc: Global,
    state: &mut State,
    label: Option<Name>,
    said: Vec<Row>,
    left: Left,
) -> Result<Laid, OutOfMemory>
    ensures behind { OnOk result (state_of state.new ≡ spec.mark_behind label (state_of state.old)) }
    ensures laid { IfOk result (λ laid. laid_of laid ≡ spec.mark_laid said.items (left_of left) label (state_of state.old)) }
{
    let place = state.sections.here();
    let mut said_of_symbols = Vec::new(alloc);
    define_label(
        alloc,
        &mut state.symbols,
        label,
        place,
        PLAIN,
        &mut said_of_symbols,
    )?;
    Ok(Laid {
        place,
        bytes: 0,
        here: value_at(place)?,
        uses: Vec::new(alloc),
        said,
        said_of_symbols,
        left,
    })
}
