//! What is held of a symbol.
ghost use Rattle.std.specs.Prelude.{◌≤◌};
ghost use Rattle.expression_grammar.specs.Trees.{size};
ghost use Rattle.expression_grammar.specs.Spelling.{most_parts};
ghost use Rattle.expression_grammar.specs.Views.{tree_of};

use crate::{Known, Trouble};
use expression_grammar::Expr;
use trace_values::{Reloc, SymbolRow};

/// An EQU that waits for symbols.
#[derive(Drop)]
pub(crate) struct Deferred {
    pub(crate) sized: bool,
    pub(crate) expression: Expr,
    pub(crate) here: Option<Reloc>,
    ghost small: { size (tree_of expression) ≤ most_parts },
}

/// How a symbol stands: its row is all there is to say, or its EQU waits, or its EQU was tried and has no value. Few symbols wait, so
/// what is held of an EQU stands apart.
#[derive(Drop)]
pub(crate) enum Standing {
    Settled,
    Deferred(Box<Deferred>),
    Faulty,
}

/// A symbol.
#[derive(Drop)]
pub(crate) struct Held {
    pub(crate) row: SymbolRow,
    pub(crate) standing: Standing,
}

impl Held {
    ghost use Rattle.std.specs.Prelude.{◌≡◌};
    ghost use Rattle.ordinary_symbols.specs.Table.{known_of, known_of_row, trouble_of};
    ghost use Rattle.ordinary_symbols.specs.Views.{standing_of};

    /// What is known of the symbol.
    pub(crate) fn known(&self) -> Option<Known>
        ensures { result ≡ known_of (standing_of self.now.standing) self.now.row }
    {
        match &self.standing {
            Standing::Settled => self.known_by_row(),
            Standing::Deferred(_) | Standing::Faulty => None,
        }
    }

    /// Why its EQU has no value, if it has none.
    pub(crate) fn trouble(&self) -> Option<Trouble>
        ensures { result ≡ trouble_of (standing_of self.now.standing) }
    {
        match &self.standing {
            Standing::Settled => None,
            Standing::Deferred(_) => Some(Trouble::Unresolved),
            Standing::Faulty => Some(Trouble::Unsimple),
        }
    }

    /// What is known of the symbol by its row.
    fn known_by_row(&self) -> Option<Known>
        ensures { result ≡ known_of_row self.now.row }
    {
        let value = self.row.value?;
        Some(Known {
            value,
            length: self.row.attr.length,
        })
    }
}
