//! Where a logical expression stands that is being read, and what is open in it.
ghost use Rattle.std.specs.Prelude.{◌≡◌, IfOk, Some, option_map};
ghost use Rattle.expression_grammar.specs.Views.{tree_of};
ghost use Rattle.logical_grammar.specs.LogicReading as logic;
ghost use Rattle.logical_grammar.specs.LogicViews.{relation_of, closes, operand_of};

use character_grammar::text_point::TextPoint;
use expression_grammar::pending::{Pending, Point};
use expression_grammar::tree::{Comparison, Expr, Operator, compared};
use hl_base::OutOfMemory;
use std::alloc::Global;

/// Something that is open.
#[derive(Drop)]
pub(crate) enum Opening {
    /// A NOT.
    Negation,
    /// An operator word with its left operand.
    LeftOperand(Operator, Expr),
    /// A parenthesis where a truth was wanted.
    Group,
}

impl Opening {
    /// Whether the end of a text closes it.
    pub(crate) fn closes(&self) -> bool
        ensures { result ≡ closes self.now }
    {
        match self {
            Opening::Negation | Opening::LeftOperand(_, _) => true,
            Opening::Group => false,
        }
    }
}

/// A relation whose left side is read.
#[derive(Drop)]
pub(crate) struct OpenRelation {
    pub(crate) comparison: Comparison,
    pub(crate) left: Expr,
}

/// The letters of an operator word that are to come.
#[derive(Clone, Copy)]
pub(crate) enum Remainder {
    Nd,
    D,
    Or,
    R,
    T,
}

/// The first letter of a comparison.
#[derive(Clone, Copy)]
pub(crate) enum Initial {
    E,
    N,
    L,
    G,
}

/// Where a logical expression stands. The last `bool` of a point says whether the character before is a symbol character.
#[derive(Drop)]
pub(crate) enum LogicPoint {
    /// A truth is wanted.
    Want(bool),
    /// Behind an N, as it is written and at a place, where a truth was wanted.
    NotOrAttribute(char, u32),
    /// Within an operator word.
    Letters(Remainder),
    /// Within a number, or behind it.
    Number(Option<OpenRelation>, Point, Vec<Pending>, bool),
    /// Within a text, or directly behind it.
    Text(Option<OpenRelation>, TextPoint, bool),
    /// Behind a text and blanks.
    BehindText(Expr),
    /// Behind the first letter of a comparison, of texts or of numbers, with its left side.
    Comparing(Initial, bool, Expr),
    /// The right side of a comparison, of texts or of numbers, is wanted.
    Right(bool, OpenRelation, bool),
    /// Directly behind the parenthesis that closes a number where a truth was wanted.
    Closed(Expr),
    /// Behind a truth that is no number, and has no side to come.
    BehindTruth(Expr),
}

/// What is whole at a point.
#[derive(Drop)]
pub(crate) enum Operand {
    Number(Expr),
    Truth(Expr),
    Text(Expr),
}

/// The next point, and by how many terms, operators and parentheses each expression that begins so is larger.
#[derive(Drop)]
pub(crate) struct LogicMoved {
    pub(crate) point: LogicPoint,
    pub(crate) more: u64,
}

/// A point that is so much larger.
pub(crate) fn logic_moved(point: LogicPoint, more: u64) -> Option<LogicMoved>
    ensures { result ≡ Some (record { point = point; more = more }) }
{
    Some(LogicMoved { point, more })
}

/// A number, or the truth of its comparison.
pub(crate) fn number_side(
    alloc: Global,
    relation: Option<OpenRelation>,
    tree: Expr,
) -> Result<Operand, OutOfMemory>
    ensures { IfOk result (λ operand. operand_of operand ≡ logic.number_side (option_map relation_of relation) (tree_of tree)) }
{
    match relation {
        Some(OpenRelation { comparison, left }) => {
            Ok(Operand::Truth(compared(alloc, comparison, left, tree)?))
        }
        None => Ok(Operand::Number(tree)),
    }
}

/// A text, or the truth of its comparison.
pub(crate) fn text_side(
    alloc: Global,
    relation: Option<OpenRelation>,
    tree: Expr,
) -> Result<Operand, OutOfMemory>
    ensures { IfOk result (λ operand. operand_of operand ≡ logic.text_side (option_map relation_of relation) (tree_of tree)) }
{
    match relation {
        Some(OpenRelation { comparison, left }) => {
            Ok(Operand::Truth(compared(alloc, comparison, left, tree)?))
        }
        None => Ok(Operand::Text(tree)),
    }
}

/// The truth that an operand is; a text is none.
pub(crate) fn truth_of(operand: Operand) -> Option<Expr>
    ensures { option_map tree_of result ≡ logic.truth_of (operand_of operand) }
{
    match operand {
        Operand::Number(tree) => Some(tree),
        Operand::Truth(tree) => Some(tree),
        Operand::Text(_) => None,
    }
}
