//! Assembling a program for its figures.
ghost use Rattle.std.specs.Prelude.{◌≡◌, length, IfOk};
ghost use Rattle.std.specs.Str.{chars};
ghost use Rattle.text_pool.specs.Pool.{IsLive as IsLiveText, text_of};
ghost use Rattle.trace_arena.specs.Nodes.{IsLive};
ghost use Rattle.trace_arena.specs.Points.{points};
ghost use Rattle.program_assembly.specs.Figures.{figures_of, symbol_count};

use crate::figures::{Figures, Summary};
use crate::statements::generated;
use crate::{Assembly, KeptExpansions};
use hl_base::{Ledger, OutOfMemory, PathId, Steps, TextId};
use statement_checks::section_layout::lay_out;
use std::alloc::Global;
use text_pool::Present;
use trace_arena::{NodeId, TraceArena};
use trace_values::TraceItem;

/// A count as a number of 32 bits. One that is larger is more than memory has room for.
fn count_of(count: usize) -> Result<u32, OutOfMemory>
    ensures { IfOk result (λ number. number ≡ count) }
{
    u32::try_from(count).map_err(|_| OutOfMemory)
}

/// How many symbols the statements define that the points of a root generated.
fn symbol_count(
    alloc: Global,
    arena: &TraceArena<TraceItem>,
    root: NodeId,
) -> Result<usize, OutOfMemory>
    requires live { IsLive arena.now.nodes root.0 }
    ensures { IfOk result (λ count. count ≡ symbol_count (points arena.now.nodes root.0)) }
{
    let lines = generated(alloc, arena, root)?;
    let layout = lay_out(alloc, &lines)?;
    Ok(layout.symbols.count())
}

/// The figures of an assembly whose points stand in this arena.
pub(crate) fn figures_in(
    alloc: Global,
    arena: &TraceArena<TraceItem>,
    assembly: Assembly,
) -> Result<Figures, OutOfMemory>
    requires live { IsLive arena.now.nodes assembly.root.0 }
    ensures { IfOk result (λ figures. figures ≡ record {
      summary = record {
        points = assembly.points;
        symbols = symbol_count (points arena.now.nodes assembly.root.0);
        diagnostics = length assembly.notes;
      };
      globals = assembly.globals;
    }) }
{
    let symbols = symbol_count(alloc, arena, assembly.root)?;
    let summary = Summary {
        points: assembly.points,
        symbols: count_of(symbols)?,
        diagnostics: count_of(assembly.notes.as_slice().len())?,
    };
    Ok(Figures {
        summary,
        globals: assembly.globals,
    })
}

/// The figures of an assembly of the program of a path and a text, with this SYSPARM, these members and this budget. It is
/// assembled afresh, and nothing of the assembly is kept but its figures.
pub fn assemble_figures<P: Present, L: Ledger>(
    alloc: Global,
    path: PathId,
    text: TextId,
    parm: &str,
    present: &P,
    budget: u32,
    steps: &mut Steps<L>,
) -> Result<Figures, OutOfMemory>
    requires live { IsLiveText (P.texts present.now) text.0 }
    ensures { IfOk result (λ figures. figures
        ≡ figures_of path.0 (text_of (P.texts present.now) text.0) (chars parm.now) (P.members present.now) budget) }
{
    KeptExpansions::new(alloc).figures(alloc, path, text, parm, present, budget, steps)
}
