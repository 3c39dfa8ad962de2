//! COPY of an operand with variable symbols.
//!
//! Each call tells an outcome, as those of `cond_expr::evaluate`.
ghost use Rattle.std.specs.Prelude.{[]};
ghost use Rattle.cond_expr.specs.Outcome.{Tells};
ghost use Rattle.conditional_fields.specs.Endings.{field_of};
ghost use Rattle.statement_reading.specs.Bodies as bodies;
ghost use Rattle.statement_reading.specs.Views.{parts_of};
ghost use Rattle.conditional_asm.specs.Effects as effects;

use crate::act::Act;
use crate::substitution::substitute;
use crate::trouble;
use cond_expr::{Lookups, Stop};
use conditional_fields::ended;
use hl_base::{Notes, Text};
use operand_grammar::SyntaxFault;
use statement_reading::{Template, read_member};
use std::alloc::Global;

/// The member that an operand names once its variable symbols have values.
fn copy_of(alloc: Global, operand: &Text, notes: &mut Notes) -> Result<Act, Stop>
    ensures { Tells (effects.copied (bodies.member (field_of operand.now))) notes.old notes.new result }
{
    let field = ended(alloc, operand.as_str())?;
    match read_member(field.as_str()) {
        Ok(name) => Ok(Act::Copy(name)),
        Err(SyntaxFault::At(at)) => {
            notes.push(trouble::unreadable(alloc, at)?)?;
            Ok(Act::Next)
        }
        Err(SyntaxFault::OutOfMemory) => Err(Stop::OutOfMemory),
    }
}

/// COPY of an operand with variable symbols.
pub fn copy_varying<Q: Lookups>(
    alloc: Global,
    operand: &Template,
    q: &Q,
    notes: &mut Notes,
) -> Result<Act, Stop>
    ensures { Tells (effects.doing (bodies.copies_varying (parts_of operand.now)) [] [] (Q.told q.now)) notes.old notes.new result }
{
    match substitute(alloc, operand, q, notes) {
        Ok(text) => copy_of(alloc, &text, notes),
        Err(stop) => Err(stop),
    }
}
