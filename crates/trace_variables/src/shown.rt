//! Variable symbols as they are shown.
ghost use Rattle.std.specs.Prelude.{◌≡◌, [], ◌∷◌, ◌++◌, true, false, map, filter, string_bytes, IfOk, OnOk};
ghost use Rattle.hl_base.specs.declared.set.SetValue.TheVariants.{A};
ghost use Rattle.trace_variables.specs.Seen.{seen, seen_key, seen_symbols, is_among};
ghost use Rattle.trace_variables.specs.Shown.{is_plain, shown_name, text_of, shown};

use crate::key::Key;
use crate::known::{Symbols, is_among};
use crate::values::Values;
use hl_base::{OutOfMemory, SetValue, Text};
use std::alloc::Global;
use trace_values::{Variable, Variables};

/// Whether a symbol is shown without a subscript: `&SYSLIST` never is.
fn is_plain(key: &Key) -> bool
    ensures { result ≡ is_plain (seen_key key.now) }
{
    key.element == 0 && key.name.name.text() != "SYSLIST"
}

/// The name as it is shown.
fn shown_name(alloc: Global, key: &Key) -> Result<String, OutOfMemory>
    ensures { IfOk result (λ name. string_bytes name ≡ shown_name (seen_key key.now)) }
{
    let name = key.name.name.text();
    if is_plain(key) {
        return Ok(format!(in alloc; "&{name}")?);
    }
    Ok(format!(in alloc; "&{name}({})", key.element)?)
}

/// A number in decimal, with a minus sign below 0.
fn decimal(alloc: Global, number: i32) -> Result<Text, OutOfMemory>
    ensures { IfOk result (λ text. text ≡ text_of (A number)) }
{
    let digits = format!(in alloc; "{number}")?;
    Text::of(alloc, digits.as_str())
}

/// A value as text.
fn text_of(alloc: Global, value: &SetValue) -> Result<Text, OutOfMemory>
    ensures { IfOk result (λ text. text ≡ text_of value.now) }
{
    match value {
        SetValue::A(number) => decimal(alloc, *number),
        SetValue::B(bit) => decimal(alloc, i32::from(*bit)),
        SetValue::C(text) => text.copy(alloc),
    }
}

/// A value under its key, as it is shown.
fn shown(alloc: Global, key: &Key, value: &SetValue, global: bool) -> Result<Variable, OutOfMemory>
    ensures { IfOk result (λ variable. variable ≡ shown global (seen_key key.now, value.now)) }
{
    let name = shown_name(alloc, key)?;
    Ok(Variable {
        name: Text::of(alloc, name.as_str())?,
        value: text_of(alloc, value)?,
        global,
    })
}

/// Adds local values as they are shown, in their order.
pub(crate) fn show_locals(
    alloc: Global,
    rows: &mut Variables,
    values: &Values,
) -> Result<(), OutOfMemory>
    ensures { OnOk result (rows.new ≡ rows.old ++ map (shown false) (seen values.now)) }
{
    for (key, value) in values {
        rows.push(shown(alloc, key, value, false)?)?;
    }
    Ok(())
}

/// Adds a global value as it is shown, if its symbol is one of these.
fn show_known(
    alloc: Global,
    rows: &mut Variables,
    symbols: &Symbols,
    key: &Key,
    value: &SetValue,
) -> Result<(), OutOfMemory>
    ensures { OnOk result (rows.new ≡ rows.old ++ map (shown true) (filter (is_among (seen_symbols symbols.now)) ((seen_key key.now, value.now) ∷ []))) }
{
    if !is_among(symbols, key, value) {
        return Ok(());
    }
    rows.push(shown(alloc, key, value, true)?)
}

/// Adds the global values of these symbols as they are shown, in their order.
pub(crate) fn show_globals(
    alloc: Global,
    rows: &mut Variables,
    values: &Values,
    symbols: &Symbols,
) -> Result<(), OutOfMemory>
    ensures { OnOk result (rows.new ≡ rows.old ++ map (shown true) (filter (is_among (seen_symbols symbols.now)) (seen values.now))) }
{
    for (key, value) in values {
        show_known(alloc, rows, symbols, key, value)?;
    }
    Ok(())
}
