//! Expressions within constants.
ghost use Rattle.std.specs.Prelude.{◌≡◌, ◌≤◌, IfOk};
ghost use Rattle.expression_grammar.specs.Spelling.{most_parts};
ghost use Rattle.expression_grammar.specs.Trees.{size};
ghost use Rattle.expression_grammar.specs.Views.{tree_of};

use expression_grammar::Expr;
use hl_base::OutOfMemory;
use std::alloc::Global;

/// An ordinary expression as it was read: it has no more parts than an expression may have. Its tree stands apart, so that
/// what holds an expression is small.
#[derive(Drop)]
pub struct Formula {
    pub tree: Box<Expr>,
    pub ghost small: { size (tree_of tree.value) ≤ most_parts },
}

impl Formula {
    /// The expression with this tree.
    pub fn new(alloc: Global, tree: Expr) -> Result<Formula, OutOfMemory>
        requires { size (tree_of tree) ≤ most_parts }
        ensures { IfOk result (λ formula. tree_of formula.tree.value ≡ tree_of tree) }
    {
        Ok(Formula {
            tree: Box::new(alloc, tree)?,
        })
    }
}
