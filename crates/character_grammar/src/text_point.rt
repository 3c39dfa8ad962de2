//! Where a character expression stands that is being read.
ghost use Rattle.std.specs.Prelude.{◌≡◌, IfOk};
ghost use Rattle.character_grammar.specs.TextReading as texts;
ghost use Rattle.character_grammar.specs.TextViews.{opened_of, left_of};
ghost use Rattle.expression_grammar.specs.Views.{tree_of, trees_in};
ghost use Rattle.expression_grammar.specs.Trees.{NoTrees};

use crate::quoted::Characters;
use expression_grammar::pending::{Pending, Point};
use expression_grammar::spelled::Spelled;
use expression_grammar::tree::{
    Attribute, Expr, Item, Reference, Symbol, duplicated, joined as joined_to, variable,
};
use hl_base::OutOfMemory;
use std::alloc::Global;

/// What stands before a quoted text: what it is joined to, and its duplication factor.
#[derive(Drop)]
pub struct Opened {
    pub left: Option<Expr>,
    pub factor: Option<Expr>,
}

/// What a variable symbol belongs to.
#[derive(Drop)]
pub enum Holder {
    /// A quoted text, with the items before the symbol.
    InText(Opened, Vec<Item>),
    /// A `T'`.
    AsType(Option<Expr>),
}

/// What an arithmetic expression belongs to.
#[derive(Drop)]
pub enum Frame {
    /// A duplication factor.
    Factor(Option<Expr>),
    /// The subscripts of a variable symbol, with those that are there.
    Subscripts(Holder, Symbol, Vec<Expr>),
    /// The start of a substring.
    Start(Opened, Vec<Item>),
    /// The count of a substring.
    Count(Opened, Vec<Item>, Expr),
}

/// Where a character expression stands. An `Option` is what the next part is to be joined to.
#[derive(Drop)]
pub enum TextPoint {
    /// A part is wanted.
    WantPart(Option<Expr>),
    /// A quoted text is wanted, behind its duplication factor.
    WantQuote(Option<Expr>, Expr),
    /// Within a quoted text: its items, and the plain characters behind them.
    Inside(Opened, Vec<Item>, Characters),
    /// The same, and an ampersand at a place.
    Lone(Opened, Vec<Item>, Characters, u32),
    /// A variable symbol at a place.
    Naming(Holder, u32, Spelled),
    /// Behind the subscripts of a variable symbol in a quoted text.
    Behind(Opened, Vec<Item>),
    /// Behind an apostrophe, which may end the quoted text.
    Closed(Opened, Vec<Item>, Characters),
    /// Within an arithmetic expression.
    Within(Frame, Point, Vec<Pending>),
    /// The count of a substring is wanted, or a `*`.
    WantCount(Opened, Vec<Item>, Expr),
    /// Behind the `*`.
    Star(Opened, Vec<Item>, Expr),
    /// Behind a `T`.
    Letter(Option<Expr>),
    /// Behind a `T'`.
    Asked(Option<Expr>),
    /// Behind the `&` at a place whose type is asked for.
    Sigil(Option<Expr>, u32),
    /// An ordinary symbol at a place whose type is asked for.
    Word(Option<Expr>, u32, Spelled),
    /// Behind a part that is whole.
    Done(Expr),
}

/// A part behind what it is joined to.
pub fn joined(alloc: Global, left: Option<Expr>, part: Expr) -> Result<Expr, OutOfMemory>
    ensures { IfOk result (λ e. tree_of e ≡ texts.joined (left_of left) (tree_of part)) }
{
    match left {
        Some(before) => joined_to(alloc, before, part),
        None => Ok(part),
    }
}

/// A text behind its duplication factor and what it is joined to.
pub fn built(alloc: Global, opened: Opened, text: Expr) -> Result<Expr, OutOfMemory>
    ensures { IfOk result (λ e. tree_of e ≡ texts.built (opened_of opened) (tree_of text)) }
{
    let Opened { left, factor } = opened;
    match factor {
        Some(count) => joined(alloc, left, duplicated(alloc, count, text)?),
        None => joined(alloc, left, text),
    }
}

/// The type of a variable symbol.
pub fn typed(
    alloc: Global,
    left: Option<Expr>,
    symbol: Symbol,
    subscripts: Vec<Expr>,
) -> Result<Expr, OutOfMemory>
    ensures { IfOk result (λ e. tree_of e ≡ texts.typed (left_of left) symbol (trees_in NoTrees subscripts.items)) }
{
    joined(
        alloc,
        left,
        variable(Reference::Of(Attribute::Type), symbol, subscripts),
    )
}

/// The type of an ordinary symbol.
pub fn typed_name(
    alloc: Global,
    left: Option<Expr>,
    place: u32,
    name: &Spelled,
) -> Result<Expr, OutOfMemory>
    ensures { IfOk result (λ e. tree_of e ≡ texts.typed_name (left_of left) place name.now) }
{
    let symbol = Symbol {
        name: name.name(),
        at: place,
    };
    joined(
        alloc,
        left,
        Expr::Symbol(Reference::Of(Attribute::Type), symbol),
    )
}
