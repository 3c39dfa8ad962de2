//! Texts read as expressions.
ghost use Rattle.std.specs.Prelude.{◌≡◌, ◌≤◌, [], ◌∷◌, MatchResult};
ghost use Rattle.std.specs.Str.{chars};
ghost use Rattle.expression_grammar.specs.Answers.{IsFault, Stops};
ghost use Rattle.expression_grammar.specs.Reading as states;
ghost use Rattle.expression_grammar.specs.Spelling.{IsExpression, Spells, most_parts};
ghost use Rattle.expression_grammar.specs.Stacks.{stack_of, stand};
ghost use Rattle.expression_grammar.specs.Views.{tree_of};

use crate::character::Grammar;
use crate::fault::SyntaxFault;
use crate::pending::{Pending, Point};
use crate::reader::{finish, step};
use crate::tree::Expr;
use std::alloc::Global;

/// How many terms, operators and pairs of parentheses an expression has at most.
pub const MOST_PARTS: u32 = 1000;

/// What is read of an expression.
#[derive(Drop)]
pub(crate) struct Progress {
    pub(crate) point: Point,
    pub(crate) stack: Vec<Pending>,
    /// How many terms, operators and pairs of parentheses each expression has at least that begins so.
    pub(crate) weight: u32,
}

/// One character more.
pub(crate) fn advance(
    alloc: Global,
    grammar: Grammar,
    progress: Progress,
    c: char,
    at: u32,
) -> Result<Progress, SyntaxFault>
    requires weighed { progress.weight ≡ states.weight (stand progress.point (stack_of progress.stack.items [])) }
    requires small { progress.weight ≤ most_parts }
    ensures { MatchResult result
        (λ next. (states.advance grammar most_parts (stand progress.point (stack_of progress.stack.items [])) (record { at = at; code = c }) ≡ Some (stand next.point (stack_of next.stack.items [])))
        × (next.weight ≡ states.weight (stand next.point (stack_of next.stack.items []))) × (next.weight ≤ most_parts))
        (Stops grammar (stand progress.point (stack_of progress.stack.items [])) (record { at = at; code = c })) }
{
    let mut stack = progress.stack;
    let before = progress.weight;
    let Some(moved) = step(alloc, grammar, progress.point, c, at, &mut stack)? else {
        return Err(SyntaxFault::At(at));
    };
    if moved.more > MOST_PARTS - before {
        return Err(SyntaxFault::At(at));
    }
    Ok(Progress {
        point: moved.point,
        stack,
        weight: before + moved.more,
    })
}

/// Reads a text by a grammar.
pub fn parse(alloc: Global, grammar: Grammar, text: &str) -> Result<Expr, SyntaxFault>
    ensures { MatchResult result (λ e. IsExpression (Spells grammar) most_parts (chars text.now) (tree_of e)) (IsFault (Spells grammar) (chars text.now)) }
{
    let mut progress = Progress {
        point: Point::Want,
        stack: Vec::new(alloc),
        weight: 1,
    };
    let mut at: u32 = 0;
    for c in text.chars() {
        match advance(alloc, grammar, progress, c, at) {
            Ok(next) => progress = next,
            Err(fault) => return Err(fault),
        }
        at = at.checked_add(1).ok_or(SyntaxFault::OutOfMemory)?;
    }
    let mut stack = progress.stack;
    match finish(alloc, grammar, progress.point, &mut stack)? {
        Some(tree) => Ok(tree),
        None => Err(SyntaxFault::At(at)),
    }
}

/// Reads an arithmetic expression, as the operand of SETA (SC26-4940, "Arithmetic (SETA) expressions").
pub fn parse_arith(alloc: Global, text: &str) -> Result<Expr, SyntaxFault>
    ensures { MatchResult result (λ e. IsExpression (Spells Grammar.Arithmetic) most_parts (chars text.now) (tree_of e)) (IsFault (Spells Grammar.Arithmetic) (chars text.now)) }
{
    parse(alloc, Grammar::Arithmetic, text)
}

/// Reads an ordinary expression, as in the operands of machine instructions (SC26-4940, "Expressions").
pub fn parse_ordinary(alloc: Global, text: &str) -> Result<Expr, SyntaxFault>
    ensures { MatchResult result (λ e. IsExpression (Spells Grammar.Ordinary) most_parts (chars text.now) (tree_of e)) (IsFault (Spells Grammar.Ordinary) (chars text.now)) }
{
    parse(alloc, Grammar::Ordinary, text)
}
