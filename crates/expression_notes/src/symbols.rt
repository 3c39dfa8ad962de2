//! Symbols that are not defined, or have no value.
ghost use Rattle.std.specs.Prelude.{◌≡◌, [], ◌∷◌, ◌++◌, OnOk};
ghost use Rattle.expression_grammar.specs.Views.{tree_of};
ghost use Rattle.ordinary_symbols.specs.Known.{names};
ghost use Rattle.ordinary_symbols.specs.Shown.{table_of};
ghost use Rattle.ordinary_symbols.specs.Table.{known};
ghost use Rattle.expression_notes.specs.Repeating.{is_said, once_behind, says_undefined};
ghost use Rattle.expression_notes.specs.Expressions.{undefined};

use expression_grammar::Expr;
use hl_base::{Name, OutOfMemory};
use note_rows::Row;
use ordinary_symbols::Symbols;

/// Whether a row says of this symbol that it is not defined.
fn says_undefined(row: &Row, name: &Name) -> bool
    ensures { result ≡ says_undefined name.now row.now }
{
    match row {
        Row::UndefinedSymbol(other) => other.text() == name.text(),
        _ => false,
    }
}

/// Whether that is said already.
fn is_said(rows: &[Row], name: &Name) -> bool
    ensures { result ≡ is_said rows.now name.now }
{
    rows.iter().any(|row| says_undefined(row, name))
}

/// Says of a symbol that it is not defined, where nothing is known of it and that was not said yet. An `Err` changes nothing.
pub fn push_symbol(symbols: &Symbols, name: &Name, rows: &mut Vec<Row>) -> Result<(), OutOfMemory>
    ensures ok { OnOk result (rows.new.items ≡ rows.old.items ++ once_behind rows.old.items (undefined (known (table_of symbols.now)) (name.now ∷ []))) }
{
    if symbols.known(name).is_none() && !is_said(rows.as_slice(), name) {
        rows.push(Row::UndefinedSymbol(name.copy()))?;
    }
    Ok(())
}

/// The same of each symbol of an expression, from left to right. An `Err` leaves only some of it said.
pub(crate) fn push_undefined(
    symbols: &Symbols,
    e: &Expr,
    rows: &mut Vec<Row>,
) -> Result<(), OutOfMemory>
    ensures { OnOk result (rows.new.items ≡ rows.old.items ++ once_behind rows.old.items (undefined (known (table_of symbols.now)) (names (tree_of e.now)))) }
{
    match e {
        Expr::Symbol(_, symbol) => push_symbol(symbols, &symbol.name, rows),
        Expr::Signed(_, operand) => push_undefined(symbols, operand, rows),
        Expr::Pair(_, left, right) => {
            push_undefined(symbols, left, rows)?;
            push_undefined(symbols, right, rows)
        }
        Expr::Paren(inner) => push_undefined(symbols, inner, rows),
        _ => Ok(()),
    }
}
