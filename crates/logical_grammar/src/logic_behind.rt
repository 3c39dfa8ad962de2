//! What may stand after an operand of a logical expression.
ghost use Rattle.std.specs.Prelude.{◌≡◌, ◌+◌, List, [], ◌∷◌, IfOk, IfSome, Some, is_some};
ghost use Rattle.std.specs.Char.{to_ascii_uppercase};
ghost use Rattle.expression_grammar.specs.Trees.{size};
ghost use Rattle.expression_grammar.specs.Views.{tree_of};
ghost use Rattle.logical_grammar.specs.LogicReading as logic;
ghost use Rattle.logical_grammar.specs.LogicViews.{LogicMoves, closed_on, letter_of, letters_of, opening_of, open_of, operand_of, operand_weight, point_of};

use crate::logic_point::{
    Initial, LogicMoved, LogicPoint, Opening, Operand, Remainder, logic_moved,
};
use expression_grammar::character::Kind;
use expression_grammar::pending::Point;
use expression_grammar::tree::{Expr, Operator, negated, pair, paren};
use hl_base::OutOfMemory;
use std::alloc::Global;

/// What closing the topmost open thing makes.
#[derive(Drop)]
pub(crate) enum LogicClosing {
    Folded(Expr),
    Kept(Opening, Expr),
}

/// Closes a NOT, or an operator that binds at least as strongly as the floor.
fn close(
    alloc: Global,
    floor: u8,
    opening: Opening,
    tree: Expr,
) -> Result<LogicClosing, OutOfMemory>
    ensures { IfOk result (λ closing. (below : List logic.Open) → logic.logic_fold floor (tree_of tree) (opening_of opening ∷ below) ≡ closed_on floor closing below) }
{
    match opening {
        Opening::Negation => Ok(LogicClosing::Folded(negated(alloc, tree)?)),
        Opening::LeftOperand(operator, left) => close_pair(alloc, floor, operator, left, tree),
        Opening::Group => Ok(LogicClosing::Kept(Opening::Group, tree)),
    }
}

fn close_pair(
    alloc: Global,
    floor: u8,
    operator: Operator,
    left: Expr,
    tree: Expr,
) -> Result<LogicClosing, OutOfMemory>
    ensures { IfOk result (λ closing. (below : List logic.Open)
        → logic.logic_fold floor (tree_of tree) (opening_of (Opening.LeftOperand operator left) ∷ below) ≡ closed_on floor closing below) }
{
    if floor <= operator.strength() {
        Ok(LogicClosing::Folded(pair(alloc, operator, left, tree)?))
    } else {
        Ok(LogicClosing::Kept(Opening::LeftOperand(operator, left), tree))
    }
}

/// Closes what is open above of NOTs, and of operators that bind at least as strongly as the floor. What an `Err` leaves is
/// of no use.
#[tactic(auto, using(crate::proofs::LogicStackLaws::open_of_push))]
pub(crate) fn logic_fold(
    alloc: Global,
    floor: u8,
    tree: Expr,
    stack: &mut Vec<Opening>,
) -> Result<Expr, OutOfMemory>
    ensures { IfOk result (λ folded. logic.logic_fold floor (tree_of tree) (open_of stack.old.items [])
        ≡ record { tree = tree_of folded; layers = open_of stack.new.items [] }) }
{
    let mut tree = tree;
    while let Some(opening) = stack.pop() {
        match close(alloc, floor, opening, tree)? {
            LogicClosing::Folded(folded) => tree = folded,
            LogicClosing::Kept(opening, kept) => {
                stack.push(opening)?;
                return Ok(kept);
            }
        }
    }
    Ok(tree)
}

/// A blank.
fn blanked(alloc: Global, operand: Operand) -> LogicPoint
    ensures { point_of result ≡ logic.blanked (operand_of operand) }
{
    match operand {
        Operand::Number(tree) => {
            LogicPoint::Number(None, Point::Have(tree), Vec::new(alloc), false)
        }
        Operand::Truth(tree) => LogicPoint::BehindTruth(tree),
        Operand::Text(tree) => LogicPoint::BehindText(tree),
    }
}

/// A closing parenthesis, behind all that its parentheses hold.
#[tactic(auto, using(crate::proofs::LogicStackLaws::open_of_push))]
fn grouped(
    alloc: Global,
    tree: Expr,
    stack: &mut Vec<Opening>,
) -> Result<Option<LogicMoved>, OutOfMemory>
    ensures { IfOk result (λ moved. LogicMoves (logic.grouped (tree_of tree) (open_of stack.old.items []))
        (logic.open_size (open_of stack.old.items []) + size (tree_of tree)) moved (open_of stack.new.items [])) }
{
    match stack.pop() {
        Some(Opening::Group) => {
            let whole = paren(alloc, tree)?;
            Ok(logic_moved(LogicPoint::BehindTruth(whole), 0))
        }
        _ => Ok(None),
    }
}

/// A closing parenthesis behind a truth.
fn close_truth(
    alloc: Global,
    tree: Expr,
    stack: &mut Vec<Opening>,
) -> Result<Option<LogicMoved>, OutOfMemory>
    ensures { IfOk result (λ moved. LogicMoves (logic.closing (logic.TruthOne (tree_of tree)) (open_of stack.old.items []))
        (logic.open_size (open_of stack.old.items []) + size (tree_of tree)) moved (open_of stack.new.items [])) }
{
    let inner = logic_fold(alloc, 0, tree, stack)?;
    let moved = grouped(alloc, inner, stack)?;
    Ok(moved)
}

/// A closing parenthesis behind a number. Where it closes nothing but this, the number may be a duplication factor.
#[tactic(auto, using(crate::proofs::LogicStackLaws::open_of_push))]
fn close_number(
    alloc: Global,
    tree: Expr,
    stack: &mut Vec<Opening>,
) -> Result<Option<LogicMoved>, OutOfMemory>
    ensures { IfOk result (λ moved. LogicMoves (logic.closing (logic.NumberOne (tree_of tree)) (open_of stack.old.items []))
        (logic.open_size (open_of stack.old.items []) + size (tree_of tree)) moved (open_of stack.new.items [])) }
{
    match stack.pop() {
        Some(Opening::Group) => Ok(logic_moved(LogicPoint::Closed(tree), 0)),
        Some(other) => {
            stack.push(other)?;
            let moved = close_truth(alloc, tree, stack)?;
            Ok(moved)
        }
        None => Ok(None),
    }
}

/// A closing parenthesis.
fn closing(
    alloc: Global,
    operand: Operand,
    stack: &mut Vec<Opening>,
) -> Result<Option<LogicMoved>, OutOfMemory>
    ensures { IfOk result (λ moved. LogicMoves (logic.closing (operand_of operand) (open_of stack.old.items []))
        (logic.open_size (open_of stack.old.items []) + operand_weight (operand_of operand)) moved (open_of stack.new.items [])) }
{
    match operand {
        Operand::Number(tree) => close_number(alloc, tree, stack),
        Operand::Truth(tree) => close_truth(alloc, tree, stack),
        Operand::Text(_) => Ok(None),
    }
}

/// The first letter of an operator word behind a truth.
fn push_operator(
    alloc: Global,
    operator: Operator,
    rest: Remainder,
    tree: Expr,
    stack: &mut Vec<Opening>,
) -> Result<Option<LogicMoved>, OutOfMemory>
    ensures { IfOk result (λ moved. LogicMoves (logic.joining operator (letters_of rest) (Some (tree_of tree)) (open_of stack.old.items []))
        (logic.open_size (open_of stack.old.items []) + size (tree_of tree)) moved (open_of stack.new.items [])) }
{
    let left = logic_fold(alloc, operator.strength(), tree, stack)?;
    stack.push(Opening::LeftOperand(operator, left))?;
    Ok(logic_moved(LogicPoint::Letters(rest), 2))
}

/// The first letter of an operator word behind an operand.
fn joining(
    alloc: Global,
    operator: Operator,
    rest: Remainder,
    operand: Operand,
    stack: &mut Vec<Opening>,
) -> Result<Option<LogicMoved>, OutOfMemory>
    ensures { IfOk result (λ moved. LogicMoves (logic.joining operator (letters_of rest) (logic.truth_of (operand_of operand)) (open_of stack.old.items []))
        (logic.open_size (open_of stack.old.items []) + operand_weight (operand_of operand)) moved (open_of stack.new.items [])) }
{
    match operand {
        Operand::Number(tree) => push_operator(alloc, operator, rest, tree, stack),
        Operand::Truth(tree) => push_operator(alloc, operator, rest, tree, stack),
        Operand::Text(_) => Ok(None),
    }
}

/// What comparisons begin with.
fn initial_of(letter: char) -> Option<Initial>
    ensures begins { is_some result ≡ logic.compares letter }
    ensures named { IfSome result (λ first. letter_of first ≡ letter) }
{
    match letter {
        'E' => Some(Initial::E),
        'N' => Some(Initial::N),
        'L' => Some(Initial::L),
        'G' => Some(Initial::G),
        _ => None,
    }
}

/// The first letter of a comparison.
fn comparing(operand: Operand, letter: char) -> Option<LogicMoved>
    ensures { (layers : List logic.Open) → LogicMoves (logic.comparing (operand_of operand) letter layers)
        (logic.open_size layers + operand_weight (operand_of operand)) result layers }
{
    let first = initial_of(letter)?;
    match operand {
        Operand::Number(tree) => logic_moved(LogicPoint::Comparing(first, false, tree), 2),
        Operand::Text(tree) => logic_moved(LogicPoint::Comparing(first, true, tree), 0),
        Operand::Truth(_) => None,
    }
}

/// A letter, upper-cased.
fn lettered(
    alloc: Global,
    operand: Operand,
    letter: char,
    stack: &mut Vec<Opening>,
) -> Result<Option<LogicMoved>, OutOfMemory>
    ensures { IfOk result (λ moved. LogicMoves (logic.lettered (operand_of operand) letter (open_of stack.old.items []))
        (logic.open_size (open_of stack.old.items []) + operand_weight (operand_of operand)) moved (open_of stack.new.items [])) }
{
    match letter {
        'A' => joining(alloc, Operator::And, Remainder::Nd, operand, stack),
        'O' => joining(alloc, Operator::Or, Remainder::R, operand, stack),
        'X' => joining(alloc, Operator::Xor, Remainder::Or, operand, stack),
        _ => Ok(comparing(operand, letter)),
    }
}

/// A character behind an operand.
pub(crate) fn behind(
    alloc: Global,
    operand: Operand,
    touch: bool,
    kind: Kind,
    c: char,
    stack: &mut Vec<Opening>,
) -> Result<Option<LogicMoved>, OutOfMemory>
    ensures { IfOk result (λ moved. LogicMoves (logic.behind_one (operand_of operand) touch kind c (open_of stack.old.items []))
        (logic.open_size (open_of stack.old.items []) + operand_weight (operand_of operand)) moved (open_of stack.new.items [])) }
{
    match kind {
        Kind::Blank => Ok(logic_moved(blanked(alloc, operand), 0)),
        Kind::Close => closing(alloc, operand, stack),
        Kind::Letter if !touch => lettered(alloc, operand, c.to_ascii_uppercase(), stack),
        _ => Ok(None),
    }
}
