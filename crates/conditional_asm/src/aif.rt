//! What AIF does (SC26-4940, "AIF instruction").
//!
//! Each call tells an outcome, as those of `cond_expr::evaluate`.
ghost use Rattle.std.specs.Prelude.{◌≡◌, map};
ghost use Rattle.cond_expr.specs.Outcome.{Tells};
ghost use Rattle.statement_reading.specs.Views.{choice_of};
ghost use Rattle.conditional_asm.specs.Branching.{by_first_true};

use crate::act::Act;
use cond_expr::evaluate::number;
use cond_expr::{Lookups, Stop};
use hl_base::Notes;
use statement_reading::Selector;
use std::alloc::Global;

/// What AIF does: a branch by the first pair whose condition holds.
pub fn aif<Q: Lookups>(
    alloc: Global,
    pairs: &[Selector],
    q: &Q,
    notes: &mut Notes,
) -> Result<Act, Stop>
    ensures { Tells (by_first_true (map choice_of pairs.now) (Q.told q.now)) notes.old notes.new result }
{
    for pair in pairs {
        match number(alloc, &pair.tree, q, notes) {
            Ok(n) => {
                if n != 0 {
                    return Ok(Act::Branch(pair.label.copy()));
                }
            }
            Err(stop) => return Err(stop),
        }
    }
    Ok(Act::Next)
}
