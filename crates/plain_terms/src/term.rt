//! Terms that stand alone before a delimiter: most expressions of operands are a decimal number or a symbol, and are read without
//! the states of the reader of expressions.
ghost use Rattle.std.specs.Prelude.{◌≡◌, IfSome};
ghost use Rattle.std.specs.Str.{chars};
ghost use Rattle.expression_grammar.specs.Views.{tree_of};
ghost use Rattle.plain_terms.specs.Terms as spec;

use expression_grammar::character::digit_value;
use expression_grammar::{Expr, Form, Reference, Symbol};
use hl_base::Name;
use hlasm_statements::split_columns;
use hlasm_statements::text::head;

/// The term with which a text begins, how many characters it has, and what stands behind it.
#[derive(Drop)]
pub struct TermFront<'a> {
    pub tree: Expr,
    pub count: u32,
    pub behind: &'a str,
}

/// The number that digits write, if it is one with few of them.
#[tactic(auto, using(crate::proofs::Fronts::digits_next, crate::proofs::Fronts::digits_end))]
pub(crate) fn decimal(mut digits: &[u8]) -> Option<u32>
    ensures { IfSome result (λ bits. spec.IsDecimal digits.entry.now bits) }
{
    if digits.is_empty() || digits.len() > 10 {
        return None;
    }
    let mut bits: u32 = 0;
    while let [digit, rest @ ..] = digits {
        let value = digit_value(char::from(*digit));
        if value >= 10 || bits > 200_000_000 {
            return None;
        }
        bits = bits * 10 + value;
        digits = rest;
    }
    Some(bits)
}

/// The symbol that a text is, if it is one.
fn symbol(text: &str) -> Option<Expr>
    ensures { IfSome result (λ tree. spec.IsTerm text.now (tree_of tree)) }
{
    match Name::read(text) {
        Some(name) => Some(Expr::Symbol(Reference::Value, Symbol { name, at: 0 })),
        None => None,
    }
}

/// The number or the symbol that a text is, if it is one.
pub(crate) fn term(text: &str) -> Option<Expr>
    ensures { IfSome result (λ tree. spec.IsTerm text.now (tree_of tree)) }
{
    match decimal(text.as_bytes()) {
        Some(bits) => Some(Expr::Number(Form::Decimal, bits)),
        None => symbol(text),
    }
}

/// Whether a byte is a delimiter.
fn is_delimiter(byte: u8) -> bool {
    matches!(byte, b'(' | b')' | b',')
}

/// Where the first delimiter of a text stands, or its end.
fn delimiter(text: &str) -> usize {
    text.as_bytes()
        .iter()
        .position(|byte| is_delimiter(*byte))
        .unwrap_or(text.len())
}

/// Whether a text ends, or goes on with a delimiter.
fn is_delimited(text: &str) -> bool
    ensures { result ≡ spec.is_delimited (chars text.now) }
{
    match head(text) {
        Some((c, _)) => c == '(' || (c == ')' || c == ','),
        None => true,
    }
}

/// The term with which a text begins, if it begins with one and goes on with a delimiter or not at all.
pub fn term_front(text: &str) -> Option<TermFront<'_>>
    ensures { IfSome result (λ front. spec.BeginsWith (chars text.now) front.count (tree_of front.tree) (chars front.behind.now)) }
{
    let (before, behind) = split_columns(text, delimiter(text));
    if !is_delimited(behind) {
        return None;
    }
    let Ok(count) = u32::try_from(before.len()) else {
        return None;
    };
    match term(before) {
        Some(tree) => Some(TermFront {
            tree,
            count,
            behind,
        }),
        None => None,
    }
}
