//! What is open in an expression that is being read: signs, operators with their left operand, parentheses and
//! subscripts.
ghost use Rattle.std.specs.Prelude.{◌≡◌, ◌≤◌, List, [], ◌∷◌, IfOk};
ghost use Rattle.expression_grammar.specs.Characters.{strength};
ghost use Rattle.expression_grammar.specs.Reading as reading;
ghost use Rattle.expression_grammar.specs.Stacks.{pending_of, stack_of, closed_on, closes};
ghost use Rattle.expression_grammar.specs.Views.{tree_of};

use crate::part::Part;
use crate::tree::{Expr, Operator, Reference, Sign, Symbol, pair, signed};
use hl_base::OutOfMemory;
use std::alloc::Global;

/// Something that is open.
#[derive(Drop)]
pub enum Pending {
    Sign(Sign),
    Pair(Operator, Expr),
    Open,
    /// The subscripts of a variable symbol, with those that are there.
    Subscript(Reference, Symbol, Vec<Expr>),
}

/// What stands above all that is open.
#[derive(Drop)]
pub enum Point {
    /// An operand is wanted.
    Want,
    /// A tree is there.
    Have(Expr),
    /// A term is being read.
    Within(Part),
}

/// What closing the topmost open thing makes.
#[derive(Drop)]
pub enum Closing {
    Folded(Expr),
    Kept(Pending, Expr),
}

impl Pending {
    /// Whether the end of a text closes it.
    pub fn closes(&self) -> bool
        ensures { result ≡ closes self.now }
    {
        match self {
            Pending::Sign(_) | Pending::Pair(_, _) => true,
            Pending::Open | Pending::Subscript(_, _, _) => false,
        }
    }
}

impl Operator {
    /// How strongly it binds.
    pub fn strength(self) -> u8
        ensures { result ≡ strength self }
    {
        match self {
            Operator::Xor => 0,
            Operator::Or => 1,
            Operator::And => 2,
            Operator::Add | Operator::Subtract => 5,
            Operator::Multiply | Operator::Divide => 6,
        }
    }
}

/// Closes a sign, or an operator that binds at least as strongly as the floor.
fn close(alloc: Global, floor: u8, pending: Pending, tree: Expr) -> Result<Closing, OutOfMemory>
    ensures { IfOk result (λ closing. (below : List reading.Layer) → reading.fold floor (tree_of tree) (pending_of pending ∷ below) ≡ closed_on floor closing below) }
{
    match pending {
        Pending::Sign(sign) => Ok(Closing::Folded(signed(alloc, sign, tree)?)),
        Pending::Pair(operator, left) => close_pair(alloc, floor, operator, left, tree),
        open => Ok(Closing::Kept(open, tree)),
    }
}

fn close_pair(
    alloc: Global,
    floor: u8,
    operator: Operator,
    left: Expr,
    tree: Expr,
) -> Result<Closing, OutOfMemory>
    ensures { IfOk result (λ closing. (below : List reading.Layer)
        → reading.fold floor (tree_of tree) (pending_of (Pending.Pair operator left) ∷ below) ≡ closed_on floor closing below) }
{
    if floor <= operator.strength() {
        Ok(Closing::Folded(pair(alloc, operator, left, tree)?))
    } else {
        Ok(Closing::Kept(Pending::Pair(operator, left), tree))
    }
}

/// Closes the signs and operators above that bind at least as strongly as the floor. What an `Err` leaves is of no use.
#[tactic(auto, using(crate::proofs::StackLaws::stack_of_push))]
pub fn fold(
    alloc: Global,
    floor: u8,
    tree: Expr,
    stack: &mut Vec<Pending>,
) -> Result<Expr, OutOfMemory>
    ensures { IfOk result (λ folded. reading.fold floor (tree_of tree) (stack_of stack.old.items [])
        ≡ record { tree = tree_of folded; layers = stack_of stack.new.items [] }) }
{
    let mut tree = tree;
    while let Some(pending) = stack.pop() {
        match close(alloc, floor, pending, tree)? {
            Closing::Folded(folded) => tree = folded,
            Closing::Kept(pending, kept) => {
                stack.push(pending)?;
                return Ok(kept);
            }
        }
    }
    Ok(tree)
}
