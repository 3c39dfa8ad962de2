//! USING and DROP, as far as they need a place.
ghost use Rattle.std.specs.Prelude.{◌≡◌, IfOk};
ghost use Rattle.std.specs.Str.{chars};
ghost use Rattle.layout_statements.specs.Bases as spec;

use crate::expressions::text_reads_place;
use hl_base::{OutOfMemory, Text};
use operand_list::split_sublist;
use std::alloc::Global;

/// Whether `*` is a term of one of these expressions.
#[tactic(auto, using(crate::proofs::Maps::any_more, crate::proofs::Maps::any_past))]
pub(crate) fn any_reads_place(alloc: Global, texts: &[Text]) -> Result<bool, OutOfMemory>
    ensures { IfOk result (λ does. does ≡ spec.any_reads_place texts.now) }
{
    for text in texts {
        if text_reads_place(alloc, text.as_str())? {
            return Ok(true);
        }
    }
    Ok(false)
}

/// Whether `*` is a term of an element of a list of two, a base and an end.
fn pair_reads_place(alloc: Global, text: &str) -> Result<bool, OutOfMemory>
    ensures { IfOk result (λ does. does ≡ spec.pair_reads_place (chars text.now)) }
{
    let Some(elements) = split_sublist(alloc, text)? else {
        return Ok(false);
    };
    if elements.as_slice().len() == 2 {
        return any_reads_place(alloc, elements.as_slice());
    }
    Ok(false)
}

/// Whether USING with these operands needs a place.
pub(crate) fn using_reads_place(alloc: Global, operands: &[Text]) -> Result<bool, OutOfMemory>
    ensures { IfOk result (λ does. does ≡ spec.using_reads_place operands.now) }
{
    let Some(first) = operands.first() else {
        return Ok(false);
    };
    if pair_reads_place(alloc, first.as_str())? {
        return Ok(true);
    }
    any_reads_place(alloc, operands)
}
