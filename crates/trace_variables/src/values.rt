//! What statements leave of the values of variable symbols.
ghost use Rattle.std.specs.Prelude.{◌≡◌, map, IfOk, OnOk};
ghost use Rattle.std.specs.List.{fold};
ghost use Rattle.trace_variables.specs.Values.{unset, after_setting, after_settings, after_declaration, after_declarations, after_locals, after_globals, local_values};
ghost use Rattle.trace_variables.specs.Seen.{seen};

use crate::key::{Key, Kind};
use hl_base::{Declaration, OutOfMemory, SetKind, SetValue, Text};
use std::alloc::Global;
use std::collections::BTreeMap;
use trace_values::{Setting, TraceItem};

/// Values by their keys.
pub(crate) type Values = BTreeMap<Key, SetValue>;

/// What a symbol of a type holds where nothing was set: 0, 0 or the empty text.
fn unset(alloc: Global, kind: SetKind) -> SetValue
    ensures { result ≡ unset kind }
{
    match kind {
        SetKind::A => SetValue::A(0),
        SetKind::B => SetValue::B(false),
        SetKind::C => SetValue::C(Text::new(alloc)),
    }
}

/// An element gets a value.
fn set(alloc: Global, values: &mut Values, setting: &Setting) -> Result<(), OutOfMemory>
    ensures { OnOk result (seen values.new ≡ after_setting (seen values.old) setting.now) }
{
    let kind = Kind::of_value(&setting.value);
    let key = Key::of(&setting.name, kind, setting.element);
    let value = setting.value.copy(alloc)?;
    values.insert(key, value)?;
    Ok(())
}

/// Elements get values, one after another.
fn set_all(alloc: Global, values: &mut Values, settings: &[Setting]) -> Result<(), OutOfMemory>
    ensures { OnOk result (seen values.new ≡ after_settings (seen values.old) settings.now) }
{
    for setting in settings {
        set(alloc, values, setting)?;
    }
    Ok(())
}

/// A scalar is declared, global or local as it is wanted.
fn declare(
    alloc: Global,
    values: &mut Values,
    declaration: &Declaration,
    global: bool,
) -> Result<(), OutOfMemory>
    ensures { OnOk result (seen values.new ≡ after_declaration global (seen values.old) declaration.now) }
{
    if declaration.array || declaration.global != global {
        return Ok(());
    }
    let key = Key::of(&declaration.name, Kind::of(declaration.kind), 0);
    if values.contains_key(&key) {
        return Ok(());
    }
    let value = unset(alloc, declaration.kind);
    values.insert(key, value)?;
    Ok(())
}

/// Scalars are declared, one after another.
fn declare_all(
    alloc: Global,
    values: &mut Values,
    declarations: &[Declaration],
    global: bool,
) -> Result<(), OutOfMemory>
    ensures { OnOk result (seen values.new ≡ after_declarations global (seen values.old) declarations.now) }
{
    for declaration in declarations {
        declare(alloc, values, declaration, global)?;
    }
    Ok(())
}

/// What a statement does to the local symbols of its call.
fn pass_locals(alloc: Global, values: &mut Values, item: &TraceItem) -> Result<(), OutOfMemory>
    ensures { OnOk result (seen values.new ≡ after_locals (seen values.old) item.now) }
{
    declare_all(alloc, values, item.declared.as_slice(), false)?;
    set_all(alloc, values, item.locals.as_slice())
}

/// What a statement does to the global symbols.
pub(crate) fn pass_globals(
    alloc: Global,
    values: &mut Values,
    item: &TraceItem,
) -> Result<(), OutOfMemory>
    ensures { OnOk result (seen values.new ≡ after_globals (seen values.old) item.now) }
{
    declare_all(alloc, values, item.declared.as_slice(), true)?;
    set_all(alloc, values, item.globals.as_slice())
}

/// What statements do to the local symbols of their call, one after another.
fn pass_all(alloc: Global, values: &mut Values, items: &[&TraceItem]) -> Result<(), OutOfMemory>
    ensures { OnOk result (seen values.new ≡ fold after_locals (seen values.old) (map (λ i. i.now) items.now)) }
{
    for item in items {
        pass_locals(alloc, values, item)?;
    }
    Ok(())
}

/// The local values of a call that had done this, and goes on with this item.
pub(crate) fn locals_after(
    alloc: Global,
    done: &[&TraceItem],
    own: &TraceItem,
) -> Result<Values, OutOfMemory>
    ensures { IfOk result (λ values. seen values ≡ local_values (map (λ i. i.now) done.now) own.now) }
{
    let mut values = BTreeMap::new(alloc);
    let entry = match done.first() {
        Some(first) => first.entry.as_slice(),
        None => own.entry.as_slice(),
    };
    set_all(alloc, &mut values, entry)?;
    pass_all(alloc, &mut values, done)?;
    Ok(values)
}
