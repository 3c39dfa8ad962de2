//! Expressions within operands.
ghost use Rattle.std.specs.Prelude.{◌≡◌, ◌≤◌, take, IfOk};
ghost use Rattle.std.specs.Str.{chars};
ghost use Rattle.constant_grammar.specs.Elements.{tree_in};
ghost use Rattle.constant_grammar.specs.Views as views;
ghost use Rattle.constant_grammar.specs.Views.{tree_if};
ghost use Rattle.expression_grammar.specs.declared.character.Grammar.TheVariants.{Ordinary};
ghost use Rattle.expression_grammar.specs.Readings.{read, read_front};
ghost use Rattle.expression_grammar.specs.Spelling.{most_parts};
ghost use Rattle.expression_grammar.specs.Trees.{size};
ghost use Rattle.expression_grammar.specs.Views.{tree_of};
ghost use Rattle.plain_terms.specs.Terms.{front_behind, whole_behind};
ghost use Rattle.machine_operands.specs.Views.{front_reading_of, reading_of};

use constant_grammar::{Formula, read_formula};
use expression_grammar::{Expr, Grammar, SyntaxFault, parse_front};
use hl_base::OutOfMemory;
use hlasm_statements::text::{before, head};
use plain_terms::term_front;
use std::alloc::Global;

/// What is read of an expression: its tree, or how many characters can be read.
#[derive(Drop)]
pub(crate) enum Reading {
    Tree(Formula),
    At(u32),
}

/// What is read of an expression before a closing parenthesis: its tree and how many characters it has, or how many can be read.
#[derive(Drop)]
pub(crate) enum FrontReading {
    Tree(Formula, usize),
    At(u32),
}

/// An expression with this tree.
fn formula(alloc: Global, tree: Expr) -> Result<Formula, OutOfMemory>
    requires { size (tree_of tree) ≤ most_parts }
    ensures { IfOk result (λ formula. views.tree_in formula ≡ tree_of tree) }
{
    Formula::new(alloc, tree)
}

/// What a term with which a text begins is to the whole text.
fn whole_term(alloc: Global, tree: Expr, count: u32, behind: &str) -> Result<Reading, OutOfMemory>
    requires { size (tree_of tree) ≤ most_parts }
    ensures { IfOk result (λ reading. reading_of reading ≡ whole_behind count (tree_of tree) (chars behind.now)) }
{
    match head(behind) {
        Some(_) => Ok(Reading::At(count)),
        None => Ok(Reading::Tree(formula(alloc, tree)?)),
    }
}

/// Reads any expression.
fn read_any(alloc: Global, text: &str) -> Result<Reading, OutOfMemory>
    ensures { IfOk result (λ reading. reading_of reading ≡ read Ordinary (chars text.now)) }
{
    match read_formula(alloc, text) {
        Ok(formula) => Ok(Reading::Tree(formula)),
        Err(SyntaxFault::At(at)) => Ok(Reading::At(at)),
        Err(SyntaxFault::OutOfMemory) => Err(OutOfMemory),
    }
}

/// Reads an expression: a term in one pass.
pub(crate) fn read_whole(alloc: Global, text: &str) -> Result<Reading, OutOfMemory>
    ensures { IfOk result (λ reading. reading_of reading ≡ read Ordinary (chars text.now)) }
{
    match term_front(text) {
        Some(front) => whole_term(alloc, front.tree, front.count, front.behind),
        None => read_any(alloc, text),
    }
}

/// What a term with which a text begins is before a closing parenthesis.
fn closed_term(
    alloc: Global,
    tree: Expr,
    count: u32,
    behind: &str,
) -> Result<FrontReading, OutOfMemory>
    requires { size (tree_of tree) ≤ most_parts }
    ensures { IfOk result (λ reading. front_reading_of reading ≡ front_behind count (tree_of tree) (chars behind.now)) }
{
    match head(behind) {
        Some((c, _)) => {
            if c == ')' {
                let tree = formula(alloc, tree)?;
                return Ok(FrontReading::Tree(tree, count as usize));
            }
            Ok(FrontReading::At(count))
        }
        None => Ok(FrontReading::At(count)),
    }
}

/// Reads any expression that a text begins with, up to a closing parenthesis.
fn read_any_closed(alloc: Global, text: &str) -> Result<FrontReading, OutOfMemory>
    ensures { IfOk result (λ reading. front_reading_of reading ≡ read_front Ordinary (chars text.now)) }
{
    match parse_front(alloc, Grammar::Ordinary, text) {
        Ok(front) => Ok(FrontReading::Tree(formula(alloc, front.tree)?, front.before)),
        Err(SyntaxFault::At(at)) => Ok(FrontReading::At(at)),
        Err(SyntaxFault::OutOfMemory) => Err(OutOfMemory),
    }
}

/// Reads the expression that a text begins with, up to a closing parenthesis: a term in one pass.
pub(crate) fn read_closed(alloc: Global, text: &str) -> Result<FrontReading, OutOfMemory>
    ensures { IfOk result (λ reading. front_reading_of reading ≡ read_front Ordinary (chars text.now)) }
{
    match term_front(text) {
        Some(front) => closed_term(alloc, front.tree, front.count, front.behind),
        None => read_any_closed(alloc, text),
    }
}

/// The expression that so many characters at the front of a text are, if they are one.
pub(crate) fn read_before(
    alloc: Global,
    text: &str,
    count: u32,
) -> Result<Option<Formula>, OutOfMemory>
    ensures { IfOk result (λ tree. tree_if tree ≡ tree_in (read Ordinary (take count (chars text.now)))) }
{
    match read_whole(alloc, before(text, count as usize))? {
        Reading::Tree(formula) => Ok(Some(formula)),
        Reading::At(_) => Ok(None),
    }
}
