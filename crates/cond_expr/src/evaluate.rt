//! The recursion over an expression. Each call tells an outcome, as in `symbol`. A tree that is parsed has at most 1,000
//! nodes, so it is at most 1,000 calls deep.
ghost use Rattle.std.specs.Prelude.{◌≡◌, ◌++◌, IfOk};
ghost use Rattle.expression_grammar.specs.Views.{tree_of, trees_in, items_in};
ghost use Rattle.expression_grammar.specs.Trees.{NoTrees, NoItems};
ghost use Rattle.cond_expr.specs.Outcome.{Tells};
ghost use Rattle.hl_base.specs.Order as order;
ghost use Rattle.cond_expr.specs.Values as values;

use crate::lookups::Lookups;
use crate::numbers::Numbers;
use crate::stop::Stop;
use crate::variable::{self, bit};
use crate::{arithmetic, characters, symbol};
use expression_grammar::{Attribute, Comparison, Expr, Item, Operator, Reference, Sign, Symbol};
use hl_base::{Notes, OutOfMemory, Text, compare};
use std::alloc::Global;
use std::cmp::Ordering;

/// What an operator makes of two numbers.
fn joined(
    alloc: Global,
    operator: Operator,
    left: i32,
    right: i32,
    notes: &mut Notes,
) -> Result<i32, Stop>
    ensures { Tells (values.joined operator left right) notes.old notes.new result }
{
    match operator {
        Operator::Add => symbol::checked(alloc, arithmetic::sum(left, right), notes),
        Operator::Subtract => symbol::checked(alloc, arithmetic::difference(left, right), notes),
        Operator::Multiply => symbol::checked(alloc, arithmetic::product(left, right), notes),
        Operator::Divide => symbol::checked(alloc, arithmetic::quotient(left, right), notes),
        Operator::And => Ok(bit(left != 0 && right != 0)),
        Operator::Or => Ok(bit(left != 0 || right != 0)),
        Operator::Xor => Ok(bit((left != 0) != (right != 0))),
    }
}

/// What a sign makes of a number.
fn signed(alloc: Global, sign: Sign, number: i32, notes: &mut Notes) -> Result<i32, Stop>
    ensures { Tells (values.signed sign number) notes.old notes.new result }
{
    match sign {
        Sign::Plus => Ok(number),
        Sign::Minus => symbol::checked(alloc, arithmetic::negated(number), notes),
    }
}

/// Whether a comparison holds of two operands that stand in this order.
fn holds(comparison: Comparison, order: Ordering) -> bool
    ensures { result ≡ values.holds comparison order }
{
    match comparison {
        Comparison::Eq => order.is_eq(),
        Comparison::Ne => order.is_ne(),
        Comparison::Lt => order.is_lt(),
        Comparison::Le => order.is_le(),
        Comparison::Gt => order.is_gt(),
        Comparison::Ge => order.is_ge(),
    }
}

/// Whether an expression is a text: T', or what has quotes.
fn is_text(e: &Expr) -> bool
    ensures { result ≡ values.is_text (tree_of e.now) }
{
    match e {
        Expr::Symbol(Reference::Of(Attribute::Type), _)
        | Expr::Variable(Reference::Of(Attribute::Type), _, _)
        | Expr::Quoted(_)
        | Expr::Duplicated(_, _)
        | Expr::Substring(_, _, _)
        | Expr::SubstringToEnd(_, _)
        | Expr::Joined(_, _) => true,
        Expr::Symbol(_, _)
        | Expr::Variable(_, _, _)
        | Expr::Number(_, _)
        | Expr::Here
        | Expr::Signed(_, _)
        | Expr::Pair(_, _, _)
        | Expr::Paren(_)
        | Expr::Not(_)
        | Expr::Compared(_, _, _) => false,
    }
}

/// Which of two texts is the lesser.
fn ordered(left: &Text, right: &Text) -> Ordering
    ensures { result ≡ order.compare left.now right.now }
{
    compare(left.as_str(), right.as_str())
}

/// A text with another behind it.
fn appended(mut text: Text, more: &Text) -> Result<Text, OutOfMemory>
    ensures { IfOk result (λ whole. whole ≡ text ++ more.now) }
{
    text.push_str(more.as_str())?;
    Ok(text)
}

/// The number of an arithmetic or logical expression: 1 where it is true, 0 where it is false.
#[cycle(evaluate)]
pub fn number<Q: Lookups>(alloc: Global, e: &Expr, q: &Q, notes: &mut Notes) -> Result<i32, Stop>
    ensures { Tells (values.number (tree_of e.now) (Q.told q.now)) notes.old notes.new result }
{
    match e {
        Expr::Number(_, bits) => Ok(bits.cast_signed()),
        Expr::Symbol(asked, symbol) => {
            variable::number_of_symbol(alloc, *asked, &symbol.name, q, notes)
        }
        Expr::Variable(asked, symbol, subscripts) => {
            let at = numbers(alloc, subscripts, q, notes)?;
            variable::number_of_variable(alloc, *asked, &symbol.name, at.as_slice(), q, notes)
        }
        Expr::Signed(sign, operand) => {
            let n = number(alloc, operand, q, notes)?;
            signed(alloc, *sign, n, notes)
        }
        Expr::Pair(operator, left, right) => {
            let m = number(alloc, left, q, notes)?;
            joined_with(alloc, *operator, m, right, q, notes)
        }
        Expr::Paren(inner) => number(alloc, inner, q, notes),
        Expr::Not(operand) => {
            let n = number(alloc, operand, q, notes)?;
            Ok(bit(n == 0))
        }
        Expr::Compared(comparison, left, right) => {
            if is_text(left) {
                let a = text(alloc, left, q, notes)?;
                return compared_text(alloc, *comparison, &a, right, q, notes);
            }
            let m = number(alloc, left, q, notes)?;
            compared_with(alloc, *comparison, m, right, q, notes)
        }
        Expr::Here
        | Expr::Quoted(_)
        | Expr::Duplicated(_, _)
        | Expr::Substring(_, _, _)
        | Expr::SubstringToEnd(_, _)
        | Expr::Joined(_, _) => Ok(0),
    }
}

/// An operator whose left operand is this number.
#[cycle(evaluate)]
fn joined_with<Q: Lookups>(
    alloc: Global,
    operator: Operator,
    left: i32,
    right: &Expr,
    q: &Q,
    notes: &mut Notes,
) -> Result<i32, Stop>
    ensures { Tells (values.joined_with operator left (tree_of right.now) (Q.told q.now)) notes.old notes.new result }
{
    let n = number(alloc, right, q, notes)?;
    joined(alloc, operator, left, n, notes)
}

/// A comparison whose left operand is this number.
#[cycle(evaluate)]
fn compared_with<Q: Lookups>(
    alloc: Global,
    comparison: Comparison,
    left: i32,
    right: &Expr,
    q: &Q,
    notes: &mut Notes,
) -> Result<i32, Stop>
    ensures { Tells (values.compared_with comparison left (tree_of right.now) (Q.told q.now)) notes.old notes.new result }
{
    let n = number(alloc, right, q, notes)?;
    Ok(bit(holds(comparison, left.cmp(&n))))
}

/// A comparison whose left operand is this text.
#[cycle(evaluate)]
fn compared_text<Q: Lookups>(
    alloc: Global,
    comparison: Comparison,
    left: &Text,
    right: &Expr,
    q: &Q,
    notes: &mut Notes,
) -> Result<i32, Stop>
    ensures { Tells (values.compared_text comparison left.now (tree_of right.now) (Q.told q.now)) notes.old notes.new result }
{
    let b = text(alloc, right, q, notes)?;
    Ok(bit(holds(comparison, ordered(left, &b))))
}

/// The text of a character expression.
#[cycle(evaluate)]
pub fn text<Q: Lookups>(alloc: Global, e: &Expr, q: &Q, notes: &mut Notes) -> Result<Text, Stop>
    ensures { Tells (values.text (tree_of e.now) (Q.told q.now)) notes.old notes.new result }
{
    match e {
        Expr::Symbol(asked, symbol) => {
            variable::asked_text_of_symbol(alloc, *asked, &symbol.name, q)
        }
        Expr::Variable(asked, symbol, subscripts) => {
            let at = numbers(alloc, subscripts, q, notes)?;
            variable::asked_text_of_variable(alloc, *asked, &symbol.name, at.as_slice(), q, notes)
        }
        Expr::Quoted(items) => {
            let whole = pieces(alloc, items, q, notes)?;
            characters::limited(alloc, whole, notes)
        }
        Expr::Duplicated(factor, whole) => {
            let n = number(alloc, factor, q, notes)?;
            duplicated_by(alloc, n, whole, q, notes)
        }
        Expr::Substring(whole, start, count) => {
            let s = text(alloc, whole, q, notes)?;
            let m = number(alloc, start, q, notes)?;
            substring_from(alloc, &s, m, count, q, notes)
        }
        Expr::SubstringToEnd(whole, start) => {
            let s = text(alloc, whole, q, notes)?;
            substring_to_end_of(alloc, &s, start, q, notes)
        }
        Expr::Joined(left, right) => {
            let a = text(alloc, left, q, notes)?;
            joined_text(alloc, a, right, q, notes)
        }
        Expr::Number(_, _)
        | Expr::Here
        | Expr::Signed(_, _)
        | Expr::Pair(_, _, _)
        | Expr::Paren(_)
        | Expr::Not(_)
        | Expr::Compared(_, _, _) => Ok(Text::new(alloc)),
    }
}

/// So many copies of a text.
#[cycle(evaluate)]
fn duplicated_by<Q: Lookups>(
    alloc: Global,
    factor: i32,
    whole: &Expr,
    q: &Q,
    notes: &mut Notes,
) -> Result<Text, Stop>
    ensures { Tells (values.duplicated_by factor (tree_of whole.now) (Q.told q.now)) notes.old notes.new result }
{
    let s = text(alloc, whole, q, notes)?;
    characters::duplicated(alloc, factor, &s, notes)
}

/// The substring of a text from this character on.
#[cycle(evaluate)]
fn substring_from<Q: Lookups>(
    alloc: Global,
    whole: &Text,
    start: i32,
    count: &Expr,
    q: &Q,
    notes: &mut Notes,
) -> Result<Text, Stop>
    ensures { Tells (values.substring_from whole.now start (tree_of count.now) (Q.told q.now)) notes.old notes.new result }
{
    let n = number(alloc, count, q, notes)?;
    characters::substring(alloc, whole, start, n, notes)
}

/// The substring of a text to its end.
#[cycle(evaluate)]
fn substring_to_end_of<Q: Lookups>(
    alloc: Global,
    whole: &Text,
    start: &Expr,
    q: &Q,
    notes: &mut Notes,
) -> Result<Text, Stop>
    ensures { Tells (values.substring_to_end_of whole.now (tree_of start.now) (Q.told q.now)) notes.old notes.new result }
{
    let m = number(alloc, start, q, notes)?;
    characters::substring_to_end(alloc, whole, m, notes)
}

/// A text joined with another.
#[cycle(evaluate)]
fn joined_text<Q: Lookups>(
    alloc: Global,
    left: Text,
    right: &Expr,
    q: &Q,
    notes: &mut Notes,
) -> Result<Text, Stop>
    ensures { Tells (values.joined_text left (tree_of right.now) (Q.told q.now)) notes.old notes.new result }
{
    let b = text(alloc, right, q, notes)?;
    let whole = appended(left, &b)?;
    characters::limited(alloc, whole, notes)
}

/// The numbers of some expressions in order.
#[cycle(evaluate)]
pub fn numbers<Q: Lookups>(
    alloc: Global,
    trees: &[Expr],
    q: &Q,
    notes: &mut Notes,
) -> Result<Numbers, Stop>
    ensures { Tells (values.numbers (trees_in NoTrees trees.now) (Q.told q.now)) notes.old notes.new result }
{
    let mut values = Numbers::new(alloc);
    for tree in trees {
        let n = number(alloc, tree, q, notes)?;
        values.push(n)?;
    }
    Ok(values)
}

/// What stands between quotes, with its variable symbols replaced.
#[cycle(evaluate)]
fn pieces<Q: Lookups>(alloc: Global, items: &[Item], q: &Q, notes: &mut Notes) -> Result<Text, Stop>
    ensures { Tells (values.pieces (items_in NoItems items.now) (Q.told q.now)) notes.old notes.new result }
{
    let mut whole = Text::new(alloc);
    for item in items {
        let part = piece(alloc, item, q, notes)?;
        whole.push_str(part.as_str())?;
    }
    Ok(whole)
}

/// What an item between quotes stands for.
#[cycle(evaluate)]
fn piece<Q: Lookups>(alloc: Global, item: &Item, q: &Q, notes: &mut Notes) -> Result<Text, Stop>
    ensures { Tells (values.piece item.now (Q.told q.now)) notes.old notes.new result }
{
    match item {
        Item::Plain(characters) => Ok(characters.copy(alloc)?),
        Item::Inserted(symbol, subscripts) => inserted(alloc, symbol, subscripts, q, notes),
    }
}

/// A variable symbol with its subscripts, in a text.
#[cycle(evaluate)]
pub fn inserted<Q: Lookups>(
    alloc: Global,
    symbol: &Symbol,
    subscripts: &[Expr],
    q: &Q,
    notes: &mut Notes,
) -> Result<Text, Stop>
    ensures { Tells (values.inserted symbol.now (trees_in NoTrees subscripts.now) (Q.told q.now)) notes.old notes.new result }
{
    let at = numbers(alloc, subscripts, q, notes)?;
    variable::text_of_variable(alloc, &symbol.name, at.as_slice(), q, notes)
}
