//! What a trace leaves of the global SET symbols.
ghost use Rattle.std.specs.Prelude.{◌≡◌, ◌==◌, ◌++◌, map, IfOk, OnOk};
ghost use Rattle.std.specs.List.{flat_map};
ghost use Rattle.trace_arena.specs.Nodes.{IsLive};
ghost use Rattle.trace_arena.specs.Points.{points};
ghost use Rattle.trace_variables.specs.Values.{place_of};
ghost use Rattle.trace_variables.specs.Globals.{setting_of, settings_of, globals_after};
ghost use Rattle.trace_variables.specs.Seen.{seen, seen_key, set_kind};

use crate::key::{Key, Kind};
use crate::values::Values;
use crate::variables::globals_before;
use hl_base::{OutOfMemory, SetValue};
use std::alloc::Global;
use trace_arena::{NodeId, TraceArena};
use trace_values::{Setting, Settings, TraceItem};

/// Whether a symbol is of a type.
fn is_of(key: &Key, kind: Kind) -> bool
    ensures { result ≡ (place_of (seen_key key.now).kind == place_of (set_kind kind)) }
{
    matches!(
        (key.kind, kind),
        (Kind::A, Kind::A) | (Kind::B, Kind::B) | (Kind::C, Kind::C)
    )
}

/// The setting of a value under its key.
fn setting_of(alloc: Global, key: &Key, value: &SetValue) -> Result<Setting, OutOfMemory>
    ensures { IfOk result (λ setting. setting ≡ setting_of (seen_key key.now, value.now)) }
{
    Ok(Setting {
        name: key.name.name.copy(),
        element: key.element,
        value: value.copy(alloc)?,
    })
}

/// Adds a value under its key, if its symbol is of a type.
fn add_of(
    alloc: Global,
    settings: &mut Settings,
    kind: Kind,
    key: &Key,
    value: &SetValue,
) -> Result<(), OutOfMemory>
    ensures { OnOk result (settings.new ≡ settings.old ++ settings_of (set_kind kind) (seen_key key.now, value.now)) }
{
    if !is_of(key, kind) {
        return Ok(());
    }
    settings.push(setting_of(alloc, key, value)?)
}

/// Adds the values of the symbols of a type, in their order.
fn add_all_of(
    alloc: Global,
    settings: &mut Settings,
    kind: Kind,
    values: &Values,
) -> Result<(), OutOfMemory>
    ensures { OnOk result (settings.new ≡ settings.old ++ flat_map (settings_of (set_kind kind)) (seen values.now)) }
{
    for (key, value) in values {
        add_of(alloc, settings, kind, key, value)?;
    }
    Ok(())
}

/// What the points of a root leave of the global SET symbols: element 0 of each that was declared without a subscript, and
/// each other element that was set, with its value behind the last point. They stand by type, then in the byte order of
/// their names, then by element.
pub fn globals_at_end(
    alloc: Global,
    arena: &TraceArena<TraceItem>,
    root: NodeId,
) -> Result<Settings, OutOfMemory>
    requires live { IsLive arena.now.nodes root.0 }
    ensures { IfOk result (λ settings. settings ≡ globals_after (map (λ p. p.item) (points arena.now.nodes root.0))) }
{
    let values = globals_before(alloc, arena, root, arena.points(root))?;
    let mut settings = Settings::new(alloc);
    add_all_of(alloc, &mut settings, Kind::A, &values)?;
    add_all_of(alloc, &mut settings, Kind::B, &values)?;
    add_all_of(alloc, &mut settings, Kind::C, &values)?;
    Ok(settings)
}
