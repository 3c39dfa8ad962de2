//! The tree of an expression.
ghost use Rattle.std.specs.Prelude.{◌≡◌, IfOk};
ghost use Rattle.expression_grammar.specs.Views.{tree_of, trees_in, items_in};
ghost use Rattle.expression_grammar.specs.Trees.{Variable, Signed, Pair, Paren, Quoted, Duplicated, Substring, SubstringToEnd, Joined, Not, Compared, NoTrees, NoItems};

use hl_base::{Name, OutOfMemory, Text};
use std::alloc::Global;

/// How a self-defining term is written (SC26-4940, "Self-defining terms").
#[derive(Clone, Copy, Debug, PartialEq, Eq)]
pub enum Form {
    Decimal,
    Hexadecimal,
    Binary,
    Character,
}

/// The attribute that a reference asks for (SC26-4940, "Attribute references").
#[derive(Clone, Copy, Debug, PartialEq, Eq)]
pub enum Attribute {
    Count,
    Number,
    Length,
    Defined,
    Type,
}

/// What is asked of a symbol: its value, or an attribute.
#[derive(Clone, Copy, Debug, PartialEq, Eq)]
pub enum Reference {
    Value,
    Of(Attribute),
}

/// A sign before an operand.
#[derive(Clone, Copy, Debug, PartialEq, Eq)]
pub enum Sign {
    Plus,
    Minus,
}

/// An operator between two operands.
#[derive(Clone, Copy, Debug, PartialEq, Eq)]
pub enum Operator {
    Add,
    Subtract,
    Multiply,
    Divide,
    And,
    Or,
    Xor,
}

/// A comparison of two operands.
#[derive(Clone, Copy, Debug, PartialEq, Eq)]
pub enum Comparison {
    Eq,
    Ne,
    Lt,
    Le,
    Gt,
    Ge,
}

/// A symbol, and where in the text it begins, in characters from 0; a variable symbol begins with its `&`.
#[derive(Drop)]
pub struct Symbol {
    pub name: Name,
    pub at: u32,
}

/// An expression.
#[derive(Drop)]
#[cycle(tree)]
pub enum Expr {
    Number(Form, u32),
    Here,
    Symbol(Reference, Symbol),
    Variable(Reference, Symbol, Vec<Expr>),
    Signed(Sign, Box<Expr>),
    Pair(Operator, Box<Expr>, Box<Expr>),
    Paren(Box<Expr>),
    Not(Box<Expr>),
    Compared(Comparison, Box<Expr>, Box<Expr>),
    Quoted(Vec<Item>),
    Duplicated(Box<Expr>, Box<Expr>),
    Substring(Box<Expr>, Box<Expr>, Box<Expr>),
    SubstringToEnd(Box<Expr>, Box<Expr>),
    Joined(Box<Expr>, Box<Expr>),
}

/// A part of a quoted text.
#[derive(Drop)]
#[cycle(tree)]
pub enum Item {
    Plain(Text),
    Inserted(Symbol, Vec<Expr>),
}

/// A sign before an operand.
pub fn signed(alloc: Global, sign: Sign, operand: Expr) -> Result<Expr, OutOfMemory>
    ensures { IfOk result (λ e. tree_of e ≡ Signed sign (tree_of operand)) }
{
    Ok(Expr::Signed(sign, Box::new(alloc, operand)?))
}

/// An operator between two operands.
pub fn pair(alloc: Global, operator: Operator, left: Expr, right: Expr) -> Result<Expr, OutOfMemory>
    ensures { IfOk result (λ e. tree_of e ≡ Pair operator (tree_of left) (tree_of right)) }
{
    let left = Box::new(alloc, left)?;
    Ok(Expr::Pair(operator, left, Box::new(alloc, right)?))
}

/// An expression in parentheses.
pub fn paren(alloc: Global, inner: Expr) -> Result<Expr, OutOfMemory>
    ensures { IfOk result (λ e. tree_of e ≡ Paren (tree_of inner)) }
{
    Ok(Expr::Paren(Box::new(alloc, inner)?))
}

/// A variable symbol with its subscripts.
pub fn variable(asked: Reference, symbol: Symbol, subscripts: Vec<Expr>) -> Expr
    ensures { tree_of result ≡ Variable asked symbol (trees_in NoTrees subscripts.items) }
{
    Expr::Variable(asked, symbol, subscripts)
}

/// A quoted text.
pub fn quoted(items: Vec<Item>) -> Expr
    ensures { tree_of result ≡ Quoted (items_in NoItems items.items) }
{
    Expr::Quoted(items)
}

/// A text so many times.
pub fn duplicated(alloc: Global, factor: Expr, text: Expr) -> Result<Expr, OutOfMemory>
    ensures { IfOk result (λ e. tree_of e ≡ Duplicated (tree_of factor) (tree_of text)) }
{
    let factor = Box::new(alloc, factor)?;
    Ok(Expr::Duplicated(factor, Box::new(alloc, text)?))
}

/// So many characters of a text from a place on.
pub fn substring(alloc: Global, text: Expr, start: Expr, count: Expr) -> Result<Expr, OutOfMemory>
    ensures { IfOk result (λ e. tree_of e ≡ Substring (tree_of text) (tree_of start) (tree_of count)) }
{
    let text = Box::new(alloc, text)?;
    let start = Box::new(alloc, start)?;
    Ok(Expr::Substring(text, start, Box::new(alloc, count)?))
}

/// All characters of a text from a place on.
pub fn substring_to_end(alloc: Global, text: Expr, start: Expr) -> Result<Expr, OutOfMemory>
    ensures { IfOk result (λ e. tree_of e ≡ SubstringToEnd (tree_of text) (tree_of start)) }
{
    let text = Box::new(alloc, text)?;
    Ok(Expr::SubstringToEnd(text, Box::new(alloc, start)?))
}

/// Two texts, one behind the other.
pub fn joined(alloc: Global, left: Expr, right: Expr) -> Result<Expr, OutOfMemory>
    ensures { IfOk result (λ e. tree_of e ≡ Joined (tree_of left) (tree_of right)) }
{
    let left = Box::new(alloc, left)?;
    Ok(Expr::Joined(left, Box::new(alloc, right)?))
}

/// The contrary of a truth.
pub fn negated(alloc: Global, operand: Expr) -> Result<Expr, OutOfMemory>
    ensures { IfOk result (λ e. tree_of e ≡ Not (tree_of operand)) }
{
    Ok(Expr::Not(Box::new(alloc, operand)?))
}

/// A comparison of two operands.
pub fn compared(
    alloc: Global,
    comparison: Comparison,
    left: Expr,
    right: Expr,
) -> Result<Expr, OutOfMemory>
    ensures { IfOk result (λ e. tree_of e ≡ Compared comparison (tree_of left) (tree_of right)) }
{
    let left = Box::new(alloc, left)?;
    Ok(Expr::Compared(comparison, left, Box::new(alloc, right)?))
}
