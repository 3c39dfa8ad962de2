//! The paths that a program touches.
ghost use Rattle.std.specs.Prelude.{◌≡◌, [], map, IfOk, OnOk};
ghost use Rattle.std.specs.List.{flat_map};
ghost use Rattle.std.specs.Ordering.{nat_cmp};
ghost use Rattle.std.specs.BTreeSet.{insert_key};
ghost use Rattle.hl_base.specs.declared.place.PathId.{PathId as Path};
ghost use Rattle.text_lists.specs.Definitions.{defined_paths};
ghost use Rattle.trace_arena.specs.Nodes.{IsLive};
ghost use Rattle.trace_arena.specs.Points.{points};
ghost use Rattle.trace_paths.specs.Touched.{frame_path};
ghost use Rattle.trace_values.specs.CallFrames.{frames_of};
ghost use Rattle.program_names.specs.Paths as rules;

use hl_base::{Origin, OutOfMemory, PathId};
use program_occurrences::is_entered;
use std::alloc::Global;
use std::collections::BTreeSet;
use text_lists::DefinitionLists;
use trace_arena::{NodeId, TraceArena};
use trace_cursor::Cursor;
use trace_values::{OwnFrames, TraceItem};

/// A path is met.
fn meet(met: &mut BTreeSet<u32>, path: PathId) -> Result<(), OutOfMemory>
    ensures { OnOk result (met.new.keys ≡ insert_key nat_cmp met.old.keys path.0) }
{
    met.insert(path.0)?;
    Ok(())
}

/// The paths of the frames of a call are met.
fn meet_call(met: &mut BTreeSet<u32>, frames: &OwnFrames) -> Result<(), OutOfMemory>
    ensures { OnOk result (met.new.keys ≡ rules.with_paths met.old.keys (map frame_path (frames_of frames.now))) }
{
    for frame in frames.outer() {
        meet(met, frame.origin.path)?;
    }
    meet(met, frames.origin().path)
}

/// The path of a place is met, if there is one.
fn meet_place(met: &mut BTreeSet<u32>, place: Option<Origin>) -> Result<(), OutOfMemory>
    ensures { OnOk result (met.new.keys ≡ rules.with_paths met.old.keys (rules.called_path place)) }
{
    match place {
        Some(origin) => meet(met, origin.path),
        None => Ok(()),
    }
}

/// The place of the prototype of the macro whose call an item entered.
pub(crate) fn entered(item: &TraceItem) -> Option<Origin>
    ensures { result ≡ rules.entered item.now }
{
    if is_entered(item) {
        return item.called;
    }
    None
}

/// The paths of an item are met.
fn meet_item(met: &mut BTreeSet<u32>, item: &TraceItem) -> Result<(), OutOfMemory>
    ensures { OnOk result (met.new.keys ≡ rules.with_paths met.old.keys (rules.item_paths item.now)) }
{
    meet_call(met, &item.frames)?;
    meet_place(met, entered(item))
}

/// The paths that the points of a root touch.
pub(crate) fn met_paths(
    alloc: Global,
    arena: &TraceArena<TraceItem>,
    root: NodeId,
) -> Result<BTreeSet<u32>, OutOfMemory>
    requires live { IsLive arena.now.nodes root.0 }
    ensures { IfOk result (λ met. met.keys ≡ rules.met_paths (points arena.now.nodes root.0)) }
{
    let mut met = BTreeSet::new(alloc);
    let Some(mut cursor) = Cursor::at(arena, root, 0) else {
        return Ok(met);
    };
    for _ in 0..arena.points(root) {
        meet_item(&mut met, cursor.item(arena))?;
        let _ = cursor.advance(arena);
    }
    Ok(met)
}

/// Paths in a list.
fn listed(alloc: Global, met: &BTreeSet<u32>) -> Result<Vec<PathId>, OutOfMemory>
    ensures { IfOk result (λ paths. paths.items ≡ map (λ n. record { 0 = n }) met.now.keys) }
{
    let mut paths = Vec::new(alloc);
    for path in met {
        paths.push(PathId(*path))?;
    }
    Ok(paths)
}

/// These paths are met.
fn meet_all(met: &mut BTreeSet<u32>, paths: &[PathId]) -> Result<(), OutOfMemory>
    ensures { OnOk result (met.new.keys ≡ rules.with_paths met.old.keys (map (λ path. path.0) paths.now)) }
{
    for path in paths {
        meet(met, *path)?;
    }
    Ok(())
}

/// The paths that were met, and those of the statements of definitions.
pub(crate) fn touched(
    alloc: Global,
    met: BTreeSet<u32>,
    definitions: &DefinitionLists,
) -> Result<Vec<PathId>, OutOfMemory>
    ensures { IfOk result (λ paths. paths.items
        ≡ map (λ n. record { 0 = n }) (rules.with_paths met.keys (flat_map defined_paths definitions.now))) }
{
    let mut met = met;
    let paths = definitions.paths(alloc)?;
    meet_all(&mut met, paths.as_slice())?;
    listed(alloc, &met)
}
