//! What a text begins with: an expression before a closing parenthesis, or a variable symbol whose last character is one.
//!
//! The front ends at the first closing parenthesis at which it is whole. It is found in one pass: what is read up to a
//! character does not depend on what is after it.
ghost use Rattle.std.specs.Prelude.{◌≡◌, ◌==◌, ◌&&◌, ◌≤◌, ◌+◌, [], MatchResult, is_some, Some, IsTrue, true};
ghost use Rattle.std.specs.Str.{chars};
ghost use Rattle.expression_grammar.specs.Fronts as fronts;
ghost use Rattle.expression_grammar.specs.Reading as states;
ghost use Rattle.expression_grammar.specs.Readings as readings;
ghost use Rattle.expression_grammar.specs.Spelling.{Spells, most_parts};
ghost use Rattle.expression_grammar.specs.Stacks.{stack_of, stand};
ghost use Rattle.expression_grammar.specs.Views.{tree_of};

use crate::character::Grammar;
use crate::fault::SyntaxFault;
use crate::parse::{Progress, advance};
use crate::part::Part;
use crate::pending::{Pending, Point};
use crate::reader::{finish, is_whole};
use crate::tree::{Expr, Reference};
use std::alloc::Global;

/// An expression, and how many characters stand before the closing parenthesis at which it ends.
#[derive(Drop)]
pub struct Front {
    pub tree: Expr,
    pub before: usize,
}

/// The front that ends here, behind so many characters.
fn end_front(
    alloc: Global,
    grammar: Grammar,
    progress: Progress,
    before: u32,
) -> Result<Front, SyntaxFault>
    requires { is_some (states.accept grammar (stand progress.point (stack_of progress.stack.items []))) ≡ true }
    ensures { readings.TellsFront (readings.ended_front before (states.accept grammar (stand progress.point (stack_of progress.stack.items [])))) result }
{
    let mut stack = progress.stack;
    match finish(alloc, grammar, progress.point, &mut stack)? {
        Some(tree) => Ok(Front {
            tree,
            before: before as usize,
        }),
        None => unreachable!(),
    }
}

/// Whether a front ends before this character.
fn ends_before(grammar: Grammar, progress: &Progress, c: char) -> bool
    ensures { result ≡ ((c == 41) && is_some (states.accept grammar (stand progress.now.point (stack_of progress.now.stack.items [])))) }
{
    c == ')' && is_whole(grammar, &progress.point, progress.stack.as_slice())
}

/// The expression that a text begins with, before a closing parenthesis.
fn find_front(alloc: Global, grammar: Grammar, text: &str) -> Result<Front, SyntaxFault>
    ensures { readings.TellsFront (readings.read_front grammar (chars text.now)) result }
{
    let mut progress = Progress {
        point: Point::Want,
        stack: Vec::new(alloc),
        weight: 1,
    };
    let mut at: u32 = 0;
    for c in text.chars() {
        if ends_before(grammar, &progress, c) {
            return end_front(alloc, grammar, progress, at);
        }
        match advance(alloc, grammar, progress, c, at) {
            Ok(next) => progress = next,
            Err(fault) => return Err(fault),
        }
        at = at.checked_add(1).ok_or(SyntaxFault::OutOfMemory)?;
    }
    Err(SyntaxFault::At(at))
}

/// Whether an expression is the value of a variable symbol.
pub fn is_variable(tree: &Expr) -> bool
    ensures { result ≡ is_some (readings.variable_only (Some (tree_of tree.now))) }
{
    match tree {
        Expr::Variable(Reference::Value, _, _) => true,
        Expr::Variable(Reference::Of(_), _, _)
        | Expr::Number(_, _)
        | Expr::Here
        | Expr::Symbol(_, _)
        | Expr::Signed(_, _)
        | Expr::Pair(_, _, _)
        | Expr::Paren(_)
        | Expr::Not(_)
        | Expr::Compared(_, _, _)
        | Expr::Quoted(_)
        | Expr::Duplicated(_, _)
        | Expr::Substring(_, _, _)
        | Expr::SubstringToEnd(_, _)
        | Expr::Joined(_, _) => false,
    }
}

/// Whether a text that ends at this point, with nothing open, is a variable symbol.
#[tactic(auto, unfolding(crate::specs::Reading::accept, crate::specs::Parts::finish))]
fn stands_at_variable(point: &Point) -> bool
    ensures { result ≡ is_some (readings.variable_only (states.accept Grammar.Arithmetic (stand point.now []))) }
{
    match point {
        Point::Want => false,
        Point::Have(tree) => is_variable(tree),
        Point::Within(Part::Named(Reference::Value, _, _)) => true,
        Point::Within(_) => false,
    }
}

/// Whether a text that ends here is a variable symbol.
fn is_whole_variable(progress: &Progress) -> bool
    ensures { result ≡ is_some (readings.variable_only (states.accept Grammar.Arithmetic (stand progress.now.point (stack_of progress.now.stack.items [])))) }
{
    progress.stack.is_empty() && stands_at_variable(&progress.point)
}

/// Whether a variable symbol ends with this character.
fn ends_with(progress: &Progress, c: char) -> bool
    ensures { result ≡ ((c == 41) && is_some (readings.variable_only (states.accept Grammar.Arithmetic (stand progress.now.point (stack_of progress.now.stack.items []))))) }
{
    c == ')' && is_whole_variable(progress)
}

/// The variable symbol that a text begins with, whose last character is a closing parenthesis.
fn find_variable(alloc: Global, text: &str) -> Result<Front, SyntaxFault>
    ensures { readings.TellsFront (readings.read_variable (chars text.now)) result }
{
    let mut progress = Progress {
        point: Point::Want,
        stack: Vec::new(alloc),
        weight: 1,
    };
    let mut at: u32 = 0;
    for c in text.chars() {
        match advance(alloc, Grammar::Arithmetic, progress, c, at) {
            Ok(next) => progress = next,
            Err(fault) => return Err(fault),
        }
        if ends_with(&progress, c) {
            return end_front(alloc, Grammar::Arithmetic, progress, at);
        }
        at = at.checked_add(1).ok_or(SyntaxFault::OutOfMemory)?;
    }
    Err(SyntaxFault::At(at))
}

/// Reads the expression that a text begins with, up to the first closing parenthesis at which it is whole. The parenthesis
/// is no part of it.
pub fn parse_front(alloc: Global, grammar: Grammar, text: &str) -> Result<Front, SyntaxFault>
    ensures read { readings.TellsFront (readings.read_front grammar (chars text.now)) result }
    ensures front { MatchResult result (λ f. fronts.IsFirst (fronts.IsClosed (Spells grammar) (chars text.now)) f.before (tree_of f.tree))
        (fronts.IsFrontFault (Spells grammar) (fronts.IsClosed (Spells grammar) (chars text.now)) (chars text.now)) }
{
    find_front(alloc, grammar, text)
}

/// Reads the variable symbol with subscripts that a text begins with (SC26-4940, "Subscripted SET symbols"), up to the
/// first closing parenthesis at which it is whole, which is its last character.
pub fn parse_variable(alloc: Global, text: &str) -> Result<Front, SyntaxFault>
    ensures read { readings.TellsFront (readings.read_variable (chars text.now)) result }
    ensures front { MatchResult result (λ f. fronts.IsFirst (fronts.IsVariableClosed (chars text.now)) f.before (tree_of f.tree))
        (fronts.IsFrontFault (Spells Grammar.Arithmetic) (fronts.IsVariableClosed (chars text.now)) (chars text.now)) }
{
    find_variable(alloc, text)
}
