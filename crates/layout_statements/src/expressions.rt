//! Expressions of a statement.
ghost use Rattle.std.specs.Prelude.{◌≡◌, ◌||◌, IfOk};
ghost use Rattle.std.specs.Str.{chars};
ghost use Rattle.std.specs.Option.{option_map};
ghost use Rattle.expression_grammar.specs.Views.{tree_of};
ghost use Rattle.layout_statements.specs.Expressions as spec;
ghost use Rattle.layout_statements.specs.Views.{reading_of};

use constant_grammar::{Formula, read_formula};
use expression_grammar::{Expr, SyntaxFault};
use hl_base::{OutOfMemory, Text};
use std::alloc::Global;

/// What is read of an expression: its tree, or how many characters can be read.
#[derive(Drop)]
pub enum Reading {
    Tree(Formula),
    At(u32),
}

/// Whether `*` is a term of an expression.
pub fn mentions_place(e: &Expr) -> bool
    ensures { result ≡ spec.mentions_place (tree_of e.now) }
{
    match e {
        Expr::Here => true,
        Expr::Signed(_, operand) => mentions_place(operand),
        Expr::Pair(_, left, right) => mentions_place(left) || mentions_place(right),
        Expr::Paren(inner) => mentions_place(inner),
        _ => false,
    }
}

/// Reads an expression.
pub(crate) fn read(alloc: Global, text: &str) -> Result<Reading, OutOfMemory>
    ensures { IfOk result (λ reading. reading_of reading ≡ spec.reading (chars text.now)) }
{
    match read_formula(alloc, text) {
        Ok(formula) => Ok(Reading::Tree(formula)),
        Err(SyntaxFault::At(at)) => Ok(Reading::At(at)),
        Err(SyntaxFault::OutOfMemory) => Err(OutOfMemory),
    }
}

/// Reads an operand that may be left away: an empty one is none.
fn read_some(alloc: Global, operand: &Text) -> Result<Option<Reading>, OutOfMemory>
    ensures { IfOk result (λ reading. option_map reading_of reading ≡ spec.if_some operand.now) }
{
    if operand.is_empty() {
        return Ok(None);
    }
    Ok(Some(read(alloc, operand.as_str())?))
}

/// Reads the operand at a place, if there is one that is not empty.
pub(crate) fn read_at(
    alloc: Global,
    operands: &[Text],
    place: usize,
) -> Result<Option<Reading>, OutOfMemory>
    ensures { IfOk result (λ reading. option_map reading_of reading ≡ spec.reading_at place operands.now) }
{
    match operands.get(place) {
        Some(operand) => read_some(alloc, operand),
        None => Ok(None),
    }
}

/// Whether `*` is a term of what was read, if it was.
pub(crate) fn reads_place(reading: &Reading) -> bool
    ensures { result ≡ spec.reads_place (reading_of reading.now) }
{
    match reading {
        Reading::Tree(formula) => mentions_place(&formula.tree),
        Reading::At(_) => false,
    }
}

/// Whether `*` is a term of the expression that a text is, if it is one.
pub(crate) fn text_reads_place(alloc: Global, text: &str) -> Result<bool, OutOfMemory>
    ensures { IfOk result (λ does. does ≡ spec.text_reads_place (chars text.now)) }
{
    let reading = read(alloc, text)?;
    Ok(reads_place(&reading))
}
