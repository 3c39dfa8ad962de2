//! EQU.
ghost use Rattle.std.specs.Prelude.{◌≡◌, ◌≤◌, ◌++◌, OnOk};
ghost use Rattle.constant_grammar.specs.Views.{tree_in};
ghost use Rattle.expression_grammar.specs.Spelling.{most_parts};
ghost use Rattle.expression_grammar.specs.Trees.{size};
ghost use Rattle.expression_grammar.specs.Views.{tree_of};
ghost use Rattle.ordinary_symbols.specs.Shown.{table_of};
ghost use Rattle.symbol_definitions.specs.Equates as spec;

use crate::defining::{defer, define};
use constant_grammar::Formula;
use expression_grammar::Expr;
use expression_notes::{Wanted, push_row, value_row};
use hl_base::{Attr, Name, OutOfMemory};
use note_rows::Row;
use ordinary_symbols::{EvalFault, Symbols};
use std::alloc::Global;
use trace_values::Reloc;

/// What EQU says beside its expression: the symbol of its label, if it has one, the type letter, the length, if one is given
/// that counts, and the value of `*`.
#[derive(Drop)]
pub struct Equating {
    pub label: Option<Name>,
    pub letter: u8,
    pub length: Option<u32>,
    pub here: Option<Reloc>,
}

/// The attributes of the symbol, where this length is that of its expression.
fn attr_of(letter: u8, length: Option<u32>, implied: u32) -> Attr
    ensures { result ≡ spec.attr_of letter length implied }
{
    Attr {
        letter,
        length: length.unwrap_or(implied),
    }
}

/// The value of an expression, if it has one.
fn value_of(value: Result<Reloc, EvalFault>) -> Option<Reloc>
    ensures { result ≡ spec.value_of value }
{
    match value {
        Ok(value) => Some(value),
        Err(_) => None,
    }
}

/// Defines the symbol of a label, if there is one.
fn define_label(
    alloc: Global,
    symbols: &mut Symbols,
    label: Option<Name>,
    value: Option<Reloc>,
    attr: Attr,
    rows: &mut Vec<Row>,
) -> Result<(), OutOfMemory>
    ensures defined { OnOk result (table_of symbols.new ≡ spec.with_label label (spec.settled_as value attr) (table_of symbols.old)) }
    ensures said { OnOk result (rows.new.items ≡ rows.old.items ++ spec.said_of_label label (table_of symbols.old)) }
{
    match label {
        Some(name) => define(alloc, symbols, name, value, attr, rows),
        None => Ok(()),
    }
}

/// An EQU whose expression has a symbol without value yet: its symbol waits, if it has one.
fn equate_later(
    alloc: Global,
    symbols: &mut Symbols,
    equating: Equating,
    e: Expr,
    rows: &mut Vec<Row>,
) -> Result<(), OutOfMemory>
    requires { size (tree_of e) ≤ most_parts }
    ensures defined { OnOk result (table_of symbols.new ≡ spec.equated_later equating (tree_of e) (table_of symbols.old)) }
    ensures said { OnOk result (rows.new.items ≡ rows.old.items ++ spec.said_of_label equating.label (table_of symbols.old)) }
{
    let Equating {
        label,
        letter,
        length,
        here,
    } = equating;
    let attr = attr_of(letter, length, 1);
    let sized = length.is_some();
    match label {
        Some(name) => defer(alloc, symbols, name, attr, sized, e, here, rows),
        None => Ok(()),
    }
}

/// An EQU whose symbols all have values.
fn equate_now(
    alloc: Global,
    symbols: &mut Symbols,
    equating: Equating,
    e: &Expr,
    rows: &mut Vec<Row>,
) -> Result<(), OutOfMemory>
    requires { size (tree_of e.now) ≤ most_parts }
    ensures defined { OnOk result (table_of symbols.new ≡ spec.equated_now equating (tree_of e.now) (table_of symbols.old)) }
    ensures said { OnOk result (rows.new.items ≡ rows.old.items ++ spec.said_of_equate_now equating (tree_of e.now) (table_of symbols.old)) }
{
    let value = symbols.eval(e, equating.here);
    let implied = symbols.equated_length(e);
    let attr = attr_of(equating.letter, equating.length, implied);
    let said = value_row(Wanted::Value, &value);
    define_label(alloc, symbols, equating.label, value_of(value), attr, rows)?;
    push_row(rows, said)
}

/// EQU with this tree.
fn equate_tree(
    alloc: Global,
    symbols: &mut Symbols,
    equating: Equating,
    tree: Expr,
    rows: &mut Vec<Row>,
) -> Result<(), OutOfMemory>
    requires { size (tree_of tree) ≤ most_parts }
    ensures defined { OnOk result (table_of symbols.new ≡ spec.equated equating (tree_of tree) (table_of symbols.old)) }
    ensures said { OnOk result (rows.new.items ≡ rows.old.items ++ spec.said_of_equate equating (tree_of tree) (table_of symbols.old)) }
{
    if symbols.first_unknown(&tree).is_some() {
        return equate_later(alloc, symbols, equating, tree, rows);
    }
    equate_now(alloc, symbols, equating, &tree, rows)
}

/// EQU: defines the symbol of its label by an expression, and says what there is to say of the name and of the value. Where a
/// symbol of the expression has no value yet, its own waits. An `Err` may leave it defined.
pub fn equate(
    alloc: Global,
    symbols: &mut Symbols,
    equating: Equating,
    formula: Formula,
    rows: &mut Vec<Row>,
) -> Result<(), OutOfMemory>
    ensures defined { OnOk result (table_of symbols.new ≡ spec.equated equating (tree_in formula) (table_of symbols.old)) }
    ensures said { OnOk result (rows.new.items ≡ rows.old.items ++ spec.said_of_equate equating (tree_in formula) (table_of symbols.old)) }
{
    let Formula { tree } = formula;
    equate_tree(alloc, symbols, equating, Box::into_inner(tree), rows)
}

/// EQU whose expression cannot be read: its symbol is defined and has no value.
pub fn equate_unread(
    alloc: Global,
    symbols: &mut Symbols,
    equating: Equating,
    rows: &mut Vec<Row>,
) -> Result<(), OutOfMemory>
    ensures defined { OnOk result (table_of symbols.new ≡ spec.equated_unread equating (table_of symbols.old)) }
    ensures said { OnOk result (rows.new.items ≡ rows.old.items ++ spec.said_of_label equating.label (table_of symbols.old)) }
{
    let attr = attr_of(equating.letter, equating.length, 1);
    define_label(alloc, symbols, equating.label, None, attr, rows)
}
