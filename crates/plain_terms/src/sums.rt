//! Sums that are all of a text, of a place and a decimal number: most addresses that are no symbol alone are such, and are read
//! without the states of the reader of expressions.
ghost use Rattle.std.specs.Prelude.{◌≡◌, IfOk, IfSome};
ghost use Rattle.expression_grammar.specs.Views.{tree_of};
ghost use Rattle.plain_terms.specs.Sums as spec;

use crate::term::decimal;
use expression_grammar::tree::pair;
use expression_grammar::{Expr, Form, Operator, Reference, Symbol};
use hl_base::{Name, OutOfMemory};
use std::alloc::Global;

/// `*` or a symbol.
fn place(text: &str) -> Option<Expr>
    ensures { IfSome result (λ tree. spec.IsPlace text.now (tree_of tree)) }
{
    if text == "*" {
        return Some(Expr::Here);
    }
    match Name::read(text) {
        Some(name) => Some(Expr::Symbol(Reference::Value, Symbol { name, at: 0 })),
        None => None,
    }
}

/// A place and a number with an operator between them.
fn sum_of(
    alloc: Global,
    operator: Operator,
    left: &str,
    right: &str,
) -> Result<Option<Expr>, OutOfMemory>
    ensures { IfOk result (λ found. IfSome found (λ tree. spec.IsSumOf operator left.now right.now (tree_of tree))) }
{
    let Some(bits) = decimal(right.as_bytes()) else {
        return Ok(None);
    };
    match place(left) {
        Some(tree) => Ok(Some(pair(alloc, operator, tree, Expr::Number(Form::Decimal, bits))?)),
        None => Ok(None),
    }
}

/// The sum or the difference that a text is, if it is one of a place and a decimal number.
pub(crate) fn place_sum(alloc: Global, text: &str) -> Result<Option<Expr>, OutOfMemory>
    ensures { IfOk result (λ found. IfSome found (λ tree. spec.IsSum text.now (tree_of tree))) }
{
    if let Some((left, right)) = text.split_once('+') {
        return sum_of(alloc, Operator::Add, left, right);
    }
    match text.split_once('-') {
        Some((left, right)) => sum_of(alloc, Operator::Subtract, left, right),
        None => Ok(None),
    }
}
