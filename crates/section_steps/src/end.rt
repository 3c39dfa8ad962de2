//! END.
ghost use Rattle.std.specs.Prelude.{◌≡◌, IfOk, OnOk};
ghost use Rattle.std.specs.Option.{option_map};
ghost use Rattle.layout_statements.specs.Views.{reading_of};
ghost use Rattle.section_steps.specs.Ends as spec;
ghost use Rattle.section_steps.specs.Views.{laid_of, state_of};

use crate::equate::push_some_unread;
use crate::mark::mark;
use crate::org::left_of;
use crate::{Laid, State};
use hl_base::{Name, OutOfMemory};
use layout_statements::Reading;
use std::alloc::Global;

/// END.
#[tactic(auto, unfolding(crate::specs::Ends::end_behind, crate::specs::Ends::end_laid, crate::specs::Marks::mark_laid))]
pub(crate) fn end(
    alloc: Global,
    state: &mut State,
    at: Option<Reading>,
    label: Option<Name>,
) -> Result<Laid, OutOfMemory>
    ensures behind { OnOk result (state_of state.new ≡ spec.end_behind label (state_of state.old)) }
    ensures laid { IfOk result (λ laid. laid_of laid ≡ spec.end_laid (option_map reading_of at) label (state_of state.old)) }
{
    let mut said = Vec::new(alloc);
    push_some_unread(&mut said, &at)?;
    let mut laid = mark(alloc, state, label, said, left_of(at))?;
    state.place_last_pool(alloc, &mut laid.said)?;
    Ok(laid)
}
