//! One character more of an expression: the automaton that reads all grammars.
//!
//! A stack holds what is open, and a point stands above it. No step looks below the topmost sign, operator or parenthesis
//! that it closes, so a text is read in one pass, and no call recurses on it.
ghost use Rattle.std.specs.Prelude.{◌≡◌, ◌+◌, ◌≤◌, [], ◌∷◌, IfOk, is_some, option_map};
ghost use Rattle.expression_grammar.specs.Characters as characters;
ghost use Rattle.expression_grammar.specs.Moves.{Moves};
ghost use Rattle.expression_grammar.specs.Parts as parts;
ghost use Rattle.expression_grammar.specs.Reading as reading;
ghost use Rattle.expression_grammar.specs.Stacks.{all_close, stack_of, stand};
ghost use Rattle.expression_grammar.specs.Trees.{size};
ghost use Rattle.expression_grammar.specs.Views.{tree_of};

use crate::character::{Grammar, Kind, digit_value, kind_of};
use crate::part::{Move, Part, opening};
use crate::pending::{Pending, Point, fold};
use crate::spelled::Spelled;
use crate::tree::{Expr, Form, Operator, Reference, Sign, paren, variable};
use hl_base::OutOfMemory;
use std::alloc::Global;

/// The next point, and by how many terms, operators and parentheses each expression that begins so is larger.
#[derive(Drop)]
pub struct Moved {
    pub point: Point,
    pub more: u32,
}

/// A character where an operand is wanted. What an `Err` or `None` leaves of the stack is of no use.
#[tactic(auto, using(crate::proofs::StackLaws::stack_of_push, crate::proofs::StackLaws::trees_in_push))]
fn begin(
    grammar: Grammar,
    kind: Kind,
    c: char,
    at: u32,
    stack: &mut Vec<Pending>,
) -> Result<Option<Moved>, OutOfMemory>
    requires { kind ≡ characters.kind_of c }
    ensures { IfOk result (λ moved. Moves (reading.begun grammar kind (record { at = at; code = c }) (stack_of stack.old.items []))
        (reading.layers_size (stack_of stack.old.items []) + 1) moved (stack_of stack.new.items [])) }
{
    match kind {
        Kind::Blank if grammar.has_blanks() => Ok(Some(Moved {
            point: Point::Want,
            more: 0,
        })),
        Kind::Mark(operator) => begin_marked(grammar, operator, stack),
        Kind::Open => {
            stack.push(Pending::Open)?;
            Ok(Some(Moved {
                point: Point::Want,
                more: 1,
            }))
        }
        Kind::Digit => {
            let part = Part::Figures(Form::Decimal, 1, digit_value(c));
            Ok(Some(Moved {
                point: Point::Within(part),
                more: 0,
            }))
        }
        Kind::Letter => Ok(begin_word(grammar, c, at)),
        Kind::Ampersand if grammar.may_vary(Reference::Value) => {
            let part = Part::Sigil(Reference::Value, at);
            Ok(Some(Moved {
                point: Point::Within(part),
                more: 0,
            }))
        }
        _ => Ok(None),
    }
}

/// A sign, or the `*` that is a term.
#[tactic(auto, using(crate::proofs::StackLaws::stack_of_push, crate::proofs::StackLaws::trees_in_push))]
fn begin_marked(
    grammar: Grammar,
    operator: Operator,
    stack: &mut Vec<Pending>,
) -> Result<Option<Moved>, OutOfMemory>
    ensures { IfOk result (λ moved. Moves (reading.marked grammar operator (stack_of stack.old.items []))
        (reading.layers_size (stack_of stack.old.items []) + 1) moved (stack_of stack.new.items [])) }
{
    match operator {
        Operator::Add => {
            stack.push(Pending::Sign(Sign::Plus))?;
            Ok(Some(Moved {
                point: Point::Want,
                more: 1,
            }))
        }
        Operator::Subtract => {
            stack.push(Pending::Sign(Sign::Minus))?;
            Ok(Some(Moved {
                point: Point::Want,
                more: 1,
            }))
        }
        Operator::Multiply if grammar.is_ordinary() => Ok(Some(Moved {
            point: Point::Have(Expr::Here),
            more: 0,
        })),
        _ => Ok(None),
    }
}

/// The first letter of a symbol, or the letter of a term.
fn begin_word(grammar: Grammar, c: char, at: u32) -> Option<Moved>
    requires { characters.kind_of c ≡ Kind.Letter }
    ensures { (layers : _) → Moves (reading.begun grammar Kind.Letter (record { at = at; code = c }) layers) (reading.layers_size layers + 1) result layers }
{
    let letter = c.to_ascii_uppercase() as u8;
    if grammar.is_ordinary() || opening(grammar, letter).is_some() {
        let part = Part::Word(at, Spelled::new(c));
        Some(Moved {
            point: Point::Within(part),
            more: 0,
        })
    } else {
        None
    }
}

/// A character behind a tree. What an `Err` or `None` leaves of the stack is of no use.
#[tactic(auto, using(crate::proofs::StackLaws::stack_of_push, crate::proofs::StackLaws::trees_in_push))]
fn go_behind(
    alloc: Global,
    grammar: Grammar,
    kind: Kind,
    tree: Expr,
    stack: &mut Vec<Pending>,
) -> Result<Option<Moved>, OutOfMemory>
    ensures { IfOk result (λ moved. Moves (reading.behind grammar kind (tree_of tree) (stack_of stack.old.items []))
        (reading.layers_size (stack_of stack.old.items []) + size (tree_of tree)) moved (stack_of stack.new.items [])) }
{
    match kind {
        Kind::Blank if grammar.has_blanks() => Ok(Some(Moved {
            point: Point::Have(tree),
            more: 0,
        })),
        Kind::Mark(operator) => {
            let left = fold(alloc, operator.strength(), tree, stack)?;
            stack.push(Pending::Pair(operator, left))?;
            Ok(Some(Moved {
                point: Point::Want,
                more: 2,
            }))
        }
        Kind::Close => {
            let inner = fold(alloc, 0, tree, stack)?;
            let moved = close(alloc, inner, stack)?;
            Ok(moved)
        }
        Kind::Comma => {
            let inner = fold(alloc, 0, tree, stack)?;
            let moved = part_subscripts(inner, stack)?;
            Ok(moved)
        }
        _ => Ok(None),
    }
}

/// A closing parenthesis, behind all that its parentheses hold.
#[tactic(auto, using(crate::proofs::StackLaws::stack_of_push, crate::proofs::StackLaws::trees_in_push))]
fn close(alloc: Global, inner: Expr, stack: &mut Vec<Pending>) -> Result<Option<Moved>, OutOfMemory>
    ensures { IfOk result (λ moved. Moves (reading.closed (tree_of inner) (stack_of stack.old.items []))
        (reading.layers_size (stack_of stack.old.items []) + size (tree_of inner)) moved (stack_of stack.new.items [])) }
{
    match stack.pop() {
        Some(Pending::Open) => {
            let tree = paren(alloc, inner)?;
            Ok(Some(Moved {
                point: Point::Have(tree),
                more: 0,
            }))
        }
        Some(Pending::Subscript(asked, symbol, others)) => {
            let mut subscripts = others;
            subscripts.push(inner)?;
            let tree = variable(asked, symbol, subscripts);
            Ok(Some(Moved {
                point: Point::Have(tree),
                more: 0,
            }))
        }
        _ => Ok(None),
    }
}

/// A comma between subscripts.
#[tactic(auto, using(crate::proofs::StackLaws::stack_of_push, crate::proofs::StackLaws::trees_in_push))]
fn part_subscripts(inner: Expr, stack: &mut Vec<Pending>) -> Result<Option<Moved>, OutOfMemory>
    ensures { IfOk result (λ moved. Moves (reading.parted (tree_of inner) (stack_of stack.old.items []))
        (reading.layers_size (stack_of stack.old.items []) + size (tree_of inner)) moved (stack_of stack.new.items [])) }
{
    match stack.pop() {
        Some(Pending::Subscript(asked, symbol, others)) => {
            let mut subscripts = others;
            subscripts.push(inner)?;
            stack.push(Pending::Subscript(asked, symbol, subscripts))?;
            Ok(Some(Moved {
                point: Point::Want,
                more: 1,
            }))
        }
        _ => Ok(None),
    }
}

/// A character behind what is there of a term. What an `Err` or `None` leaves of the stack is of no use.
#[tactic(auto, using(crate::proofs::StackLaws::stack_of_push, crate::proofs::StackLaws::trees_in_push))]
fn go_within(
    alloc: Global,
    grammar: Grammar,
    part: Part,
    kind: Kind,
    c: char,
    at: u32,
    stack: &mut Vec<Pending>,
) -> Result<Option<Moved>, OutOfMemory>
    requires { kind ≡ characters.kind_of c }
    ensures { IfOk result (λ moved. Moves (reading.moved grammar (parts.after grammar part (record { at = at; code = c })) kind (stack_of stack.old.items []))
        (reading.layers_size (stack_of stack.old.items []) + 1) moved (stack_of stack.new.items [])) }
{
    match part.after(grammar, kind, c, at) {
        Move::To(part) => Ok(Some(Moved {
            point: Point::Within(part),
            more: 0,
        })),
        Move::Done(form, number) => {
            let tree = Expr::Number(form, number);
            Ok(Some(Moved {
                point: Point::Have(tree),
                more: 0,
            }))
        }
        Move::Begins(asked, symbol) => {
            stack.push(Pending::Subscript(asked, symbol, Vec::new(alloc)))?;
            Ok(Some(Moved {
                point: Point::Want,
                more: 2,
            }))
        }
        Move::Over(part) => end_part(alloc, grammar, part, kind, stack),
    }
}

/// A character behind a term that it does not belong to.
fn end_part(
    alloc: Global,
    grammar: Grammar,
    part: Part,
    kind: Kind,
    stack: &mut Vec<Pending>,
) -> Result<Option<Moved>, OutOfMemory>
    ensures { IfOk result (λ moved. Moves (reading.ended grammar (parts.finish grammar part) kind (stack_of stack.old.items []))
        (reading.layers_size (stack_of stack.old.items []) + 1) moved (stack_of stack.new.items [])) }
{
    match part.finish(alloc, grammar) {
        Some(tree) => {
            let moved = go_behind(alloc, grammar, kind, tree, stack)?;
            Ok(moved)
        }
        None => Ok(None),
    }
}

/// One character more. What an `Err` or `None` leaves of the stack is of no use.
#[tactic(auto, unfolding(crate::specs::Reading::step))]
pub fn step(
    alloc: Global,
    grammar: Grammar,
    point: Point,
    c: char,
    at: u32,
    stack: &mut Vec<Pending>,
) -> Result<Option<Moved>, OutOfMemory>
    ensures { IfOk result (λ moved. Moves (reading.step grammar (stand point (stack_of stack.old.items [])) (record { at = at; code = c }))
        (reading.weight (stand point (stack_of stack.old.items []))) moved (stack_of stack.new.items [])) }
{
    let kind = kind_of(c);
    match point {
        Point::Want => begin(grammar, kind, c, at, stack),
        Point::Have(tree) => go_behind(alloc, grammar, kind, tree, stack),
        Point::Within(part) => go_within(alloc, grammar, part, kind, c, at, stack),
    }
}

/// Whether nothing is open but signs and operators.
fn is_closed(stack: &[Pending]) -> bool
    ensures { result ≡ all_close stack.now }
{
    for pending in stack {
        if !pending.closes() {
            return false;
        }
    }
    true
}

/// Whether a text that ends here is an expression.
#[tactic(auto, unfolding(crate::specs::Reading::accept), using(crate::proofs::ClosedLaws::stack_whole, crate::proofs::ClosedLaws::part_whole))]
pub fn is_whole(grammar: Grammar, point: &Point, stack: &[Pending]) -> bool
    ensures { result ≡ is_some (reading.accept grammar (stand point.now (stack_of stack.now []))) }
{
    match point {
        Point::Want => false,
        Point::Have(_) => is_closed(stack),
        Point::Within(part) => part.is_whole(grammar) && is_closed(stack),
    }
}

/// The tree of a text that ends here. What an `Err` leaves of the stack is of no use.
#[tactic(auto, unfolding(crate::specs::Reading::accept))]
pub fn finish(
    alloc: Global,
    grammar: Grammar,
    point: Point,
    stack: &mut Vec<Pending>,
) -> Result<Option<Expr>, OutOfMemory>
    ensures { IfOk result (λ found. option_map tree_of found ≡ reading.accept grammar (stand point (stack_of stack.old.items []))) }
{
    match point {
        Point::Want => Ok(None),
        Point::Have(tree) => finish_tree(alloc, tree, stack),
        Point::Within(part) => match part.finish(alloc, grammar) {
            Some(tree) => finish_tree(alloc, tree, stack),
            None => Ok(None),
        },
    }
}

/// A tree behind which the text ends.
fn finish_tree(
    alloc: Global,
    tree: Expr,
    stack: &mut Vec<Pending>,
) -> Result<Option<Expr>, OutOfMemory>
    ensures { IfOk result (λ found. option_map tree_of found ≡ reading.whole (reading.fold 0 (tree_of tree) (stack_of stack.old.items []))) }
{
    let whole = fold(alloc, 0, tree, stack)?;
    if stack.is_empty() {
        Ok(Some(whole))
    } else {
        Ok(None)
    }
}
