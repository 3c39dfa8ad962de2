//! Assembling a program for what it tells of names.
ghost use Rattle.std.specs.Prelude.{◌≡◌, IfOk};
ghost use Rattle.std.specs.Str.{chars};
ghost use Rattle.text_pool.specs.Pool.{IsLive as IsLiveText, text_of};
ghost use Rattle.trace_arena.specs.Nodes.{IsLive};
ghost use Rattle.trace_arena.specs.Points.{points};
ghost use Rattle.program_names.specs.Names.{names_in, names_of};

use crate::names::AssembledNames;
use crate::paths::{met_paths, touched};
use crate::prototypes::prototypes;
use crate::symbols::{Defined, symbols_of};
use crate::texts::texts_at;
use called_definitions::{add_definitions, definitions_of};
use document_store::DocumentStore;
use hl_base::{Ledger, OutOfMemory, PathId, Steps, TextId};
use program_launch::trace_program;
use program_occurrences::occurrences;
use std::alloc::Global;
use text_pool::Present;
use trace_arena::{NodeId, TraceArena};
use trace_values::TraceItem;

/// What the points of a root tell.
fn names_in<P: Present>(
    alloc: Global,
    path: PathId,
    store: &DocumentStore,
    present: &P,
    arena: &TraceArena<TraceItem>,
    root: NodeId,
) -> Result<AssembledNames, OutOfMemory>
    requires live { IsLive arena.now.nodes root.0 }
    ensures { IfOk result (λ names. names ≡ names_in store.now.store path.0 (P.members present.now) (points arena.now.nodes root.0)) }
{
    let met = met_paths(alloc, arena, root)?;
    let texts = texts_at(alloc, store, &met)?;
    let mut definitions = definitions_of(alloc, arena, root, &texts, present)?;
    let occurrences = occurrences(alloc, arena, root, &texts, &definitions, present)?;
    let symbols = symbols_of(alloc, arena, root)?;
    let places = prototypes(alloc, arena, root, &texts)?;
    add_definitions(alloc, &texts, present, places.as_slice(), &mut definitions)?;
    let touched = touched(alloc, met, &definitions)?;
    let Defined { rows, sections } = symbols;
    Ok(AssembledNames {
        path,
        rows,
        sections,
        occurrences,
        touched,
    })
}

/// What an assembly of the program of a path and a text tells of names, with this SYSPARM, these members and this budget, where its
/// statements stand in the texts of this store.
pub fn assemble_names<P: Present, L: Ledger>(
    alloc: Global,
    path: PathId,
    text: TextId,
    parm: &str,
    store: &DocumentStore,
    present: &P,
    budget: u32,
    steps: &mut Steps<L>,
) -> Result<AssembledNames, OutOfMemory>
    requires live { IsLiveText (P.texts present.now) text.0 }
    ensures { IfOk result (λ names. names
        ≡ names_of store.now.store path.0 (text_of (P.texts present.now) text.0) (chars parm.now) (P.members present.now) budget) }
{
    let text = present.pool().shared(alloc, text)?;
    let mut arena = TraceArena::new(alloc);
    let root = trace_program(alloc, path, &text, parm, present, budget, &mut arena, steps)?;
    names_in(alloc, path, store, present, &arena, root)
}
