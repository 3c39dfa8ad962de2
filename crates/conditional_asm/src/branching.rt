//! What AGO and ACTR do.
//!
//! Each call tells an outcome, as those of `cond_expr::evaluate`.
ghost use Rattle.std.specs.Prelude.{◌≡◌, [], ◌∷◌, pos};
ghost use Rattle.std.specs.Option.{option_map_or};
ghost use Rattle.expression_grammar.specs.Views.{tree_of};
ghost use Rattle.cond_expr.specs.Outcome.{Tells};
ghost use Rattle.cond_expr.specs.Characters.{not_below_0};
ghost use Rattle.statement_reading.specs.Bodies as bodies;
ghost use Rattle.statement_reading.specs.Views.{branch_of};
ghost use Rattle.conditional_asm.specs.Branching.{label_of};
ghost use Rattle.conditional_asm.specs.Effects.{doing};
ghost use Rattle.conditional_asm.specs.declared.act.Act.TheVariants.{Next, Branch};

use crate::act::Act;
use cond_expr::evaluate::number;
use cond_expr::{Lookups, Stop};
use hl_base::{Name, Notes};
use operand_grammar::Expr;
use statement_reading::Goto;
use std::alloc::Global;

/// A branch to the label of this number, counted from 1, the first being apart.
fn chosen(number: i32, first: &Name, others: &[Name]) -> Act
    ensures { result ≡ option_map_or Branch (label_of number (first.now ∷ others.now)) Next }
{
    if number < 1 {
        return Act::Next;
    }
    if number == 1 {
        return Act::Branch(first.copy());
    }
    match others.get((number - 2) as usize) {
        Some(label) => Act::Branch(label.copy()),
        None => Act::Next,
    }
}

/// What AGO does.
pub fn ago<Q: Lookups>(alloc: Global, goto: &Goto, q: &Q, notes: &mut Notes) -> Result<Act, Stop>
    ensures { Tells (doing (bodies.ago (branch_of goto.now)) [] [] (Q.told q.now)) notes.old notes.new result }
{
    match goto {
        Goto::To(label) => Ok(Act::Branch(label.copy())),
        Goto::Among(tree, first, others) => match number(alloc, tree, q, notes) {
            Ok(n) => Ok(chosen(n, first, others.as_slice())),
            Err(stop) => Err(stop),
        },
    }
}

/// A number, and 0 in place of one below 0.
fn from_0_on(number: i32) -> i32
    ensures { result ≡ pos (not_below_0 number) }
{
    if number < 0 { 0 } else { number }
}

/// What ACTR does.
pub fn actr<Q: Lookups>(alloc: Global, count: &Expr, q: &Q, notes: &mut Notes) -> Result<Act, Stop>
    ensures { Tells (doing (bodies.actr (tree_of count.now)) [] [] (Q.told q.now)) notes.old notes.new result }
{
    match number(alloc, count, q, notes) {
        Ok(n) => Ok(Act::Actr(from_0_on(n))),
        Err(stop) => Err(stop),
    }
}
