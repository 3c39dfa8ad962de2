//! Fields with the values of their variable symbols.
//!
//! Each call tells an outcome, as those of `cond_expr::evaluate`.
ghost use Rattle.std.specs.Prelude.{◌≡◌, map};
ghost use Rattle.expression_grammar.specs.Views.{tree_of};
ghost use Rattle.cond_expr.specs.Outcome.{Tells};
ghost use Rattle.statement_reading.specs.Templates as parts;
ghost use Rattle.statement_reading.specs.Views.{part_of, parts_of};
ghost use Rattle.conditional_asm.specs.Substitution as substitution;

use cond_expr::evaluate::inserted;
use cond_expr::{Lookups, Stop};
use hl_base::{Notes, Text};
use operand_grammar::Expr;
use statement_reading::{Piece, Template};
use std::alloc::Global;

/// The text of a variable symbol.
fn symbol_text<Q: Lookups>(
    alloc: Global,
    tree: &Expr,
    q: &Q,
    notes: &mut Notes,
) -> Result<Text, Stop>
    ensures { Tells (substitution.part_text (parts.variable (tree_of tree.now)) (Q.told q.now)) notes.old notes.new result }
{
    match tree {
        Expr::Variable(_, symbol, subscripts) => {
            match inserted(alloc, symbol, subscripts.as_slice(), q, notes) {
                Ok(text) => Ok(text),
                Err(stop) => Err(stop),
            }
        }
        Expr::Number(_, _)
        | Expr::Here
        | Expr::Symbol(_, _)
        | Expr::Signed(_, _)
        | Expr::Pair(_, _, _)
        | Expr::Paren(_)
        | Expr::Not(_)
        | Expr::Compared(_, _, _)
        | Expr::Quoted(_)
        | Expr::Duplicated(_, _)
        | Expr::Substring(_, _, _)
        | Expr::SubstringToEnd(_, _)
        | Expr::Joined(_, _) => Ok(Text::new(alloc)),
    }
}

/// The text of a piece.
fn piece_text<Q: Lookups>(
    alloc: Global,
    piece: &Piece,
    q: &Q,
    notes: &mut Notes,
) -> Result<Text, Stop>
    ensures { Tells (substitution.part_text (part_of piece.now) (Q.told q.now)) notes.old notes.new result }
{
    match piece {
        Piece::Plain(text) => Ok(text.copy(alloc)?),
        Piece::Variable(tree) => symbol_text(alloc, tree, q, notes),
    }
}

/// The texts of some pieces behind one another.
fn pieces_text<Q: Lookups>(
    alloc: Global,
    pieces: &[Piece],
    q: &Q,
    notes: &mut Notes,
) -> Result<Text, Stop>
    ensures { Tells (substitution.substituted (map part_of pieces.now) (Q.told q.now)) notes.old notes.new result }
{
    let mut whole = Text::new(alloc);
    for piece in pieces {
        match piece_text(alloc, piece, q, notes) {
            Ok(text) => whole.push_str(text.as_str())?,
            Err(stop) => return Err(stop),
        }
    }
    Ok(whole)
}

/// A field with the values of its variable symbols in their places.
pub fn substitute<Q: Lookups>(
    alloc: Global,
    template: &Template,
    q: &Q,
    notes: &mut Notes,
) -> Result<Text, Stop>
    ensures { Tells (substitution.substituted (parts_of template.now) (Q.told q.now)) notes.old notes.new result }
{
    match pieces_text(alloc, template.pieces.as_slice(), q, notes) {
        Ok(text) => Ok(text),
        Err(stop) => Err(stop),
    }
}
