//! Texts that are a plain expression.
ghost use Rattle.std.specs.Prelude.{◌≡◌, IfOk, IfSome};
ghost use Rattle.std.specs.Str.{chars};
ghost use Rattle.expression_grammar.specs.Views.{tree_of};
ghost use Rattle.plain_terms.specs.Glances as spec;

use crate::quoted::quoted_term;
use crate::sums::place_sum;
use crate::term::term;
use expression_grammar::Expr;
use hl_base::OutOfMemory;
use std::alloc::Global;

/// Whether a text ends with an apostrophe: no number and no symbol does.
fn ends_quoted(text: &str) -> bool {
    matches!(text.as_bytes(), [.., b'\''])
}

/// The expression that is all of a text, where it is a term: `*`, a symbol, a decimal or a hexadecimal number, or a character. What
/// the text ends with tells which of them it may be, so that no more than one of them is tried.
pub fn sole_term(text: &str) -> Option<Expr>
    ensures { IfSome result (λ tree. spec.IsRead (chars text.now) (tree_of tree)) }
{
    if ends_quoted(text) {
        return quoted_term(text);
    }
    if text.len() == 1 && text == "*" {
        return Some(Expr::Here);
    }
    term(text)
}

/// The expression that is all of a text, where that is seen at a glance.
pub fn read_plain(alloc: Global, text: &str) -> Result<Option<Expr>, OutOfMemory>
    ensures { IfOk result (λ found. IfSome found (λ tree. spec.IsRead (chars text.now) (tree_of tree))) }
{
    match sole_term(text) {
        Some(tree) => Ok(Some(tree)),
        None => place_sum(alloc, text),
    }
}
