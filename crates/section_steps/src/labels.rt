//! Labels.
ghost use Rattle.std.specs.Prelude.{◌≡◌, ◌++◌, OnOk, IfOk};
ghost use Rattle.ordinary_symbols.specs.Shown.{table_of};
ghost use Rattle.section_steps.specs.Labels as spec;
ghost use Rattle.symbol_definitions.specs.Definitions.{is_new, said_of_name, settled, with_entry};

use crate::places::value_at;
use hl_base::{Attr, Name, OutOfMemory};
use note_rows::Row;
use ordinary_symbols::Symbols;
use section_table::Place;
use std::alloc::Global;
use symbol_definitions::define;
use trace_values::Reloc;

/// What a label means on a statement that has no type and length of its own.
pub(crate) const PLAIN: Attr = Attr {
    letter: b'U',
    length: 1,
};

/// Defines the symbol of a label on a place, if there is one.
pub(crate) fn define_label(
    alloc: Global,
    symbols: &mut Symbols,
    label: Option<Name>,
    place: Option<Place>,
    attr: Attr,
    rows: &mut Vec<Row>,
) -> Result<(), OutOfMemory>
    ensures defined { OnOk result (table_of symbols.new ≡ spec.with_label label place attr (table_of symbols.old)) }
    ensures said { OnOk result (rows.new.items ≡ rows.old.items ++ spec.said_of_label label (table_of symbols.old)) }
{
    match label {
        Some(name) => define(alloc, symbols, name, value_at(place)?, attr, rows),
        None => Ok(()),
    }
}

/// Defines a symbol with a value, and says whether its name was free.
#[tactic(auto, using(crate::proofs::Counts::new_by_count))]
pub(crate) fn define_new(
    alloc: Global,
    symbols: &mut Symbols,
    name: Name,
    value: Reloc,
    attr: Attr,
    rows: &mut Vec<Row>,
) -> Result<bool, OutOfMemory>
    ensures new { IfOk result (λ free. free ≡ is_new (table_of symbols.old) name) }
    ensures defined { OnOk result (table_of symbols.new ≡ with_entry (settled name (Some value) attr) (table_of symbols.old)) }
    ensures said { OnOk result (rows.new.items ≡ rows.old.items ++ said_of_name (table_of symbols.old) name) }
{
    let before = symbols.count();
    define(alloc, symbols, name, Some(value), attr, rows)?;
    Ok(before < symbols.count())
}
