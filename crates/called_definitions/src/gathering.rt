//! The definitions of a trace.
ghost use Rattle.std.specs.Prelude.{◌≡◌, IfOk, OnOk};
ghost use Rattle.trace_arena.specs.Nodes.{IsLive};
ghost use Rattle.trace_arena.specs.Points.{points};
ghost use Rattle.called_definitions.specs.Called as called;
ghost use Rattle.called_definitions.specs.Told.{AreFound};

use crate::reading::list_at;
use hl_base::{Origin, OutOfMemory};
use macro_library::Members;
use std::alloc::Global;
use text_lists::{DefinitionLists, TextLists};
use text_pool::Present;
use trace_arena::{NodeId, TraceArena};
use trace_cursor::Cursor;
use trace_values::TraceItem;

/// Adds the definition whose prototype stands at a place, if it is not there yet.
fn add_definition<P: Present>(
    alloc: Global,
    texts: &TextLists,
    present: &P,
    definition: Option<Origin>,
    members: &mut Members,
    known: &mut DefinitionLists,
) -> Result<(), OutOfMemory>
    requires { AreFound (P.members present.now) members.old }
    ensures found { OnOk result (AreFound (P.members present.now) members.new) }
    ensures known { OnOk result (known.new ≡ called.with_definition texts.now (P.members present.now) known.old definition) }
{
    let Some(origin) = definition else {
        return Ok(());
    };
    if known.list_of(origin).is_some() {
        return Ok(());
    }
    let list = list_at(alloc, texts, present, origin, members)?;
    known.add(origin, list)
}

/// The statements of the definitions of the macros whose statements the points of a root are, as the texts and the members have
/// them.
pub fn definitions_of<P: Present>(
    alloc: Global,
    arena: &TraceArena<TraceItem>,
    root: NodeId,
    texts: &TextLists,
    present: &P,
) -> Result<DefinitionLists, OutOfMemory>
    requires live { IsLive arena.now.nodes root.0 }
    ensures { IfOk result (λ known. known ≡ called.definitions_of texts.now (P.members present.now) (points arena.now.nodes root.0)) }
{
    let mut members = Members::new(alloc);
    let mut known = DefinitionLists::new(alloc);
    let Some(mut cursor) = Cursor::at(arena, root, 0) else {
        return Ok(known);
    };
    for _ in 0..arena.points(root) {
        let definition = cursor.item(arena).definition;
        add_definition(alloc, texts, present, definition, &mut members, &mut known)?;
        let _ = cursor.advance(arena);
    }
    Ok(known)
}

/// Adds the definitions whose prototypes stand at these places, each that is not there yet.
pub fn add_definitions<P: Present>(
    alloc: Global,
    texts: &TextLists,
    present: &P,
    prototypes: &[Origin],
    known: &mut DefinitionLists,
) -> Result<(), OutOfMemory>
    ensures { OnOk result (known.new ≡ called.with_prototypes texts.now (P.members present.now) known.old prototypes.now) }
{
    let mut members = Members::new(alloc);
    for origin in prototypes {
        add_definition(alloc, texts, present, Some(*origin), &mut members, known)?;
    }
    Ok(())
}
