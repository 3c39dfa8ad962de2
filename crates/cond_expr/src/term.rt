//! Texts that are self-defining terms, and how many elements a text has (SC26-4940, "Self-defining terms", "Sublists in
//! operands").
ghost use Rattle.std.specs.Prelude.{◌≡◌, IfOk};
ghost use Rattle.expression_grammar.specs.Views.{tree_of};
ghost use Rattle.cond_expr.specs.Terms as terms;
ghost use Rattle.cond_expr.specs.Variables as variables;

use expression_grammar::laws::one_tree;
use expression_grammar::{Expr, SyntaxFault, parse_ordinary};
use hl_base::{OutOfMemory, Text};
use operand_list::split_sublist;
use std::alloc::Global;

/// The number of an expression that is a self-defining term.
fn number_in(e: &Expr) -> Option<i32>
    ensures { result ≡ terms.number_in (tree_of e.now) }
{
    match e {
        Expr::Number(_, bits) => Some(bits.cast_signed()),
        _ => None,
    }
}

/// The number of a self-defining term; `None` for a text that is no such term.
pub fn term(alloc: Global, text: &Text) -> Result<Option<i32>, OutOfMemory>
    ensures { IfOk result (λ number. number ≡ terms.term text.now) }
{
    one_tree();
    match parse_ordinary(alloc, text.as_str()) {
        Ok(e) => Ok(number_in(&e)),
        Err(SyntaxFault::At(_)) => Ok(None),
        Err(SyntaxFault::OutOfMemory) => Err(OutOfMemory),
    }
}

/// How many elements a text has: none where it is empty, those of a sublist, else one.
pub fn element_count(alloc: Global, text: &Text) -> Result<usize, OutOfMemory>
    ensures { IfOk result (λ count. count ≡ variables.element_count text.now) }
{
    if text.is_empty() {
        return Ok(0);
    }
    match split_sublist(alloc, text.as_str())? {
        Some(elements) => Ok(elements.as_slice().len()),
        None => Ok(1),
    }
}
