//! Definitions with a value.
ghost use Rattle.std.specs.Prelude.{◌≡◌, ◌≤◌, ◌++◌, ◌∷◌, [], OnOk};
ghost use Rattle.expression_grammar.specs.Spelling.{most_parts};
ghost use Rattle.expression_grammar.specs.Trees.{size};
ghost use Rattle.expression_grammar.specs.Views.{tree_of};
ghost use Rattle.note_rows.specs.declared.row.Row.TheVariants.{DefinedTwice};
ghost use Rattle.ordinary_symbols.specs.Shown.{table_of};
ghost use Rattle.symbol_definitions.specs.Definitions as spec;

use expression_grammar::Expr;
use hl_base::{Attr, Frames, Name, OutOfMemory};
use note_rows::Row;
use ordinary_symbols::{DefineFault, Symbols};
use std::alloc::Global;
use trace_values::{Reloc, SymbolRow};

/// The row of a symbol; who knows its statement fills in the stack.
fn row(alloc: Global, name: &Name, value: Option<Reloc>, attr: Attr) -> SymbolRow
    ensures { result ≡ spec.row_of name.now value attr }
{
    SymbolRow {
        name: name.copy(),
        value,
        attr,
        stack: Frames::new(alloc),
    }
}

/// Says that a name is taken.
fn say_taken(name: Name, rows: &mut Vec<Row>) -> Result<(), OutOfMemory>
    ensures { OnOk result (rows.new.items ≡ rows.old.items ++ DefinedTwice name ∷ []) }
{
    rows.push(Row::DefinedTwice(name))?;
    Ok(())
}

/// Defines a symbol; where its name is taken that is said, and the first definition stands. An `Err` may leave it defined.
#[tactic(auto, using(crate::proofs::EntryLaws::entry_new, crate::proofs::EntryLaws::entry_taken, crate::proofs::EntryLaws::name_new, crate::proofs::EntryLaws::name_taken))]
pub fn define(
    alloc: Global,
    symbols: &mut Symbols,
    name: Name,
    value: Option<Reloc>,
    attr: Attr,
    rows: &mut Vec<Row>,
) -> Result<(), OutOfMemory>
    ensures defined { OnOk result (table_of symbols.new ≡ spec.with_entry (spec.settled name value attr) (table_of symbols.old)) }
    ensures said { OnOk result (rows.new.items ≡ rows.old.items ++ spec.said_of_name (table_of symbols.old) name) }
{
    match symbols.define(alloc, row(alloc, &name, value, attr)) {
        Ok(()) => Ok(()),
        Err(DefineFault::AlreadyDefined) => say_taken(name, rows),
        Err(DefineFault::OutOfMemory) => Err(OutOfMemory),
    }
}

/// The same of the symbol of an EQU that waits.
#[tactic(auto, using(crate::proofs::EntryLaws::entry_new, crate::proofs::EntryLaws::entry_taken, crate::proofs::EntryLaws::name_new, crate::proofs::EntryLaws::name_taken))]
pub(crate) fn defer(
    alloc: Global,
    symbols: &mut Symbols,
    name: Name,
    attr: Attr,
    sized: bool,
    e: Expr,
    here: Option<Reloc>,
    rows: &mut Vec<Row>,
) -> Result<(), OutOfMemory>
    requires { size (tree_of e) ≤ most_parts }
    ensures defined { OnOk result (table_of symbols.new ≡ spec.with_entry (spec.deferred name attr sized (tree_of e) here) (table_of symbols.old)) }
    ensures said { OnOk result (rows.new.items ≡ rows.old.items ++ spec.said_of_name (table_of symbols.old) name) }
{
    match symbols.defer(alloc, row(alloc, &name, None, attr), sized, e, here) {
        Ok(()) => Ok(()),
        Err(DefineFault::AlreadyDefined) => say_taken(name, rows),
        Err(DefineFault::OutOfMemory) => Err(OutOfMemory),
    }
}
