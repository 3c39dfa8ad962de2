//! Whether an operation is defined.
ghost use Rattle.std.specs.Prelude.{List};
ghost use Rattle.hl_base.specs.declared.note.Note.{Note};
ghost use Rattle.cond_expr.specs.Outcome.{Tells};
ghost use Rattle.conditional_asm.specs.Definitions as definitions;

use cond_expr::{Lookups, Stop};
use hl_base::{Answer, Key, Name};

/// Whether an operation has a definition.
pub fn defined<Q: Lookups>(op: &Name, q: &Q) -> Result<bool, Stop>
    ensures { (notes : List Note) → Tells (definitions.defined op.now (Q.told q.now)) notes notes result }
{
    let key = Key::Op(op.copy());
    match q.answer(&key) {
        Some(answer) => Ok(matches!(answer, Answer::Defined)),
        None => Err(Stop::Asked(Key::Op(op.copy()))),
    }
}
