//! Declarations and members.
ghost use Rattle.std.specs.Str.{chars};
ghost use Rattle.conditional_fields.specs.Declarations as declared;
ghost use Rattle.conditional_fields.specs.Answers.{Says};
ghost use Rattle.statement_reading.specs.Bodies as bodies;

use conditional_fields::character::name_of;
use conditional_fields::declarations;
use conditional_fields::operand_grammar::SyntaxFault;
use conditional_fields::sequence::symbol_reach;
use hl_base::{Declarations, Name, SetKind};
use std::alloc::Global;

/// What the operand field of GBLA, GBLB, GBLC, LCLA, LCLB or LCLC declares.
pub(crate) fn read_declarations(
    alloc: Global,
    kind: SetKind,
    global: bool,
    field: &str,
) -> Result<Declarations, SyntaxFault>
    ensures { Says (λ list. list) (declared.declarations kind global (chars field.now)) result }
{
    declarations(alloc, kind, global, field)
}

/// The member of a COPY (SC26-4940, "COPY instruction").
pub fn read_member(field: &str) -> Result<Name, SyntaxFault>
    ensures { Says (λ name. name) (bodies.member (chars field.now)) result }
{
    match name_of(field) {
        Some(name) => Ok(name),
        None => Err(SyntaxFault::At(symbol_reach(field))),
    }
}
