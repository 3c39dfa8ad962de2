//! What a text begins with: an expression before a closing parenthesis, or a variable symbol with its subscripts.
ghost use Rattle.std.specs.Prelude.{◌≡◌, IfOk, MatchResult};
ghost use Rattle.std.specs.Str.{chars};
ghost use Rattle.expression_grammar.specs.Answers.{IsFault};
ghost use Rattle.expression_grammar.specs.Spelling.{IsExpression, most_parts};
ghost use Rattle.expression_grammar.specs.Views.{tree_of};
ghost use Rattle.conditional_fields.specs.Fronts as fronts;
ghost use Rattle.conditional_fields.specs.Tries.{IsTried, IsFront, IsFrontFault};

use crate::character::short_count;
pub(crate) use expression_grammar::Front;
use expression_grammar::front::is_variable;
use expression_grammar::laws::one_tree;
use expression_grammar::{parse_front, parse_variable};
use hl_base::OutOfMemory;
use operand_grammar::logical_grammar::parse_logic_front;
use operand_grammar::{Expr, Grammar, SyntaxFault, parse_arith, parse_logic};
use std::alloc::Global;

/// What a text is to begin with.
#[derive(Clone, Copy, Debug, PartialEq, Eq)]
pub enum Sought {
    /// An arithmetic expression; the closing parenthesis behind it does not belong to it.
    Number,
    /// A logical expression; the same of its parenthesis.
    Condition,
    /// A variable symbol with its subscripts and their parentheses.
    Variable,
}

impl Sought {
    /// Whether an expression is what is sought.
    #[tactic(auto, using(crate::proofs::FrontLaws::variable_is))]
    fn accepts(self, tree: &Expr) -> bool
        ensures { result ≡ fronts.accepts self (tree_of tree.now) }
    {
        match self {
            Sought::Number | Sought::Condition => true,
            Sought::Variable => is_variable(tree),
        }
    }
}

/// The expression that a text is, written as what is sought.
fn parse(alloc: Global, sought: Sought, text: &str) -> Result<Expr, SyntaxFault>
    ensures { MatchResult result (λ e. IsExpression (fronts.Written sought) most_parts (chars text.now) (tree_of e)) (IsFault (fronts.Written sought) (chars text.now)) }
{
    match sought {
        Sought::Number | Sought::Variable => parse_arith(alloc, text),
        Sought::Condition => parse_logic(alloc, text),
    }
}

/// Whether a text is what is sought.
pub(crate) fn attempt(
    alloc: Global,
    sought: Sought,
    text: &str,
) -> Result<Option<Expr>, OutOfMemory>
    ensures { IfOk result (IsTried sought (chars text.now)) }
{
    match parse(alloc, sought, text) {
        Ok(tree) => {
            one_tree();
            if sought.accepts(&tree) {
                return Ok(Some(tree));
            }
            Ok(None)
        }
        Err(SyntaxFault::At(_count)) => Ok(None),
        Err(SyntaxFault::OutOfMemory) => Err(OutOfMemory),
    }
}

/// What a text begins with, of what is sought. `At` where it begins with nothing of it: how far it goes.
fn read_front(alloc: Global, sought: Sought, text: &str) -> Result<Front, SyntaxFault>
    ensures { MatchResult result (λ f. fronts.IsFirstClosed sought (chars text.now) f.before (tree_of f.tree)) (IsFrontFault sought (chars text.now)) }
{
    match sought {
        Sought::Number => parse_front(alloc, Grammar::Arithmetic, text),
        Sought::Condition => parse_logic_front(alloc, text),
        Sought::Variable => parse_variable(alloc, text),
    }
}

/// What a text begins with, of what is sought; `None` where it begins with nothing of it.
pub(crate) fn begins_with_sought(
    alloc: Global,
    sought: Sought,
    text: &str,
) -> Result<Option<Front>, OutOfMemory>
    ensures { IfOk result (IsFront sought (chars text.now)) }
{
    match read_front(alloc, sought, text) {
        Ok(found) => Ok(Some(found)),
        Err(SyntaxFault::At(_)) => Ok(None),
        Err(SyntaxFault::OutOfMemory) => Err(OutOfMemory),
    }
}

/// How many characters of a text some expression begins with that is written as what is sought.
pub fn reach(alloc: Global, sought: Sought, text: &str) -> Result<u32, OutOfMemory>
    ensures { IfOk result (fronts.IsReach sought (chars text.now)) }
{
    match parse(alloc, sought, text) {
        Ok(_tree) => {
            let count = short_count(text)?;
            Ok(count)
        }
        Err(SyntaxFault::At(count)) => Ok(count),
        Err(SyntaxFault::OutOfMemory) => Err(OutOfMemory),
    }
}
