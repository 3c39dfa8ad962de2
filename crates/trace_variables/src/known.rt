//! The global SET symbols that a call declares.
ghost use Rattle.std.specs.Prelude.{◌≡◌, [], map, IfOk, OnOk};
ghost use Rattle.std.specs.List.{flat_map};
ghost use Rattle.trace_variables.specs.Seen.{seen_key, seen_symbols, symbol_of, declared_symbol, noted, all_noted, is_among};

use crate::key::{Key, Kind};
use hl_base::{Declaration, OutOfMemory, SetValue};
use std::alloc::Global;
use std::collections::BTreeSet;
use trace_values::TraceItem;

/// Symbols, each by the key of its element 0, or of its element 1 where it was declared with a subscript.
pub(crate) type Symbols = BTreeSet<Key>;

/// The symbol of an element.
fn symbol_of(key: &Key) -> Key
    ensures { seen_key result ≡ symbol_of (seen_key key.now) }
{
    Key::of(&key.name.name, key.kind, u32::from(key.element > 0))
}

/// The symbol that is declared.
fn declared_symbol(declaration: &Declaration) -> Key
    ensures { seen_key result ≡ declared_symbol declaration.now }
{
    Key::of(
        &declaration.name,
        Kind::of(declaration.kind),
        u32::from(declaration.array),
    )
}

/// A symbol is declared.
fn note(symbols: &mut Symbols, declaration: &Declaration) -> Result<(), OutOfMemory>
    ensures { OnOk result (seen_symbols symbols.new ≡ noted (seen_symbols symbols.old) declaration.now) }
{
    if !declaration.global {
        return Ok(());
    }
    symbols.insert(declared_symbol(declaration))?;
    Ok(())
}

/// Symbols are declared, one after another.
fn note_all(symbols: &mut Symbols, declarations: &[Declaration]) -> Result<(), OutOfMemory>
    ensures { OnOk result (seen_symbols symbols.new ≡ all_noted (seen_symbols symbols.old) declarations.now) }
{
    for declaration in declarations {
        note(symbols, declaration)?;
    }
    Ok(())
}

/// The global symbols that items declare.
pub(crate) fn known_by(alloc: Global, items: &[&TraceItem]) -> Result<Symbols, OutOfMemory>
    ensures { IfOk result (λ symbols. seen_symbols symbols ≡ all_noted [] (flat_map (λ item. item.declared) (map (λ i. i.now) items.now))) }
{
    let mut symbols = BTreeSet::new(alloc);
    for item in items {
        note_all(&mut symbols, item.declared.as_slice())?;
    }
    Ok(symbols)
}

/// Whether the symbol of a value is one of these.
pub(crate) fn is_among(symbols: &Symbols, key: &Key, value: &SetValue) -> bool
    ensures { result ≡ is_among (seen_symbols symbols.now) (seen_key key.now, value.now) }
{
    symbols.contains(&symbol_of(key))
}
