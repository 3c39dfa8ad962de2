//! Going through the points.
ghost use Rattle.std.specs.Prelude.{◌≡◌, [], IfOk, OnOk};
ghost use Rattle.std.specs.List.{fold};
ghost use Rattle.defined_symbols.specs.Symbols.{defined_by, with_symbols};
ghost use Rattle.running_calls.specs.Calls.{passed};
ghost use Rattle.standing_occurrences.specs.Standing.{with_first};
ghost use Rattle.trace_arena.specs.Nodes.{IsLive};
ghost use Rattle.trace_arena.specs.Points.{points};
ghost use Rattle.program_occurrences.specs.Met.{met_with};
ghost use Rattle.program_occurrences.specs.Occurrences.{of_point};
ghost use Rattle.program_occurrences.specs.Programs.{occurrences_of};

use crate::point::{Met, push_point};
use defined_symbols::DefinedSymbols;
use hl_base::OutOfMemory;
use running_calls::RunningCalls;
use standing_occurrences::Standing;
use std::alloc::Global;
use text_lists::{DefinitionLists, TextLists};
use text_pool::Present;
use trace_arena::{NodeId, TraceArena};
use trace_cursor::Cursor;
use trace_values::TraceItem;

/// What the points so far have left.
#[derive(Drop)]
struct Walk {
    calls: RunningCalls,
    symbols: DefinedSymbols,
    kept: Standing,
}

impl Walk {
    /// Before the first point.
    fn new(alloc: Global) -> Walk
        ensures calls { result.calls ≡ [] }
        ensures symbols { result.symbols ≡ [] }
        ensures kept { result.kept ≡ [] }
    {
        Walk {
            calls: RunningCalls::new(alloc),
            symbols: DefinedSymbols::new(alloc),
            kept: Standing::new(alloc),
        }
    }

    /// Passes a point of a level.
    fn pass<P: Present>(
        &mut self,
        alloc: Global,
        texts: &TextLists,
        definitions: &DefinitionLists,
        present: &P,
        level: u32,
        item: &TraceItem,
    ) -> Result<(), OutOfMemory>
        ensures calls { OnOk result (self.new.calls ≡ passed self.old.calls level item.now) }
        ensures symbols { OnOk result (self.new.symbols ≡ with_symbols self.old.symbols (defined_by item.now.line)) }
        ensures kept { OnOk result (self.new.kept ≡ fold with_first self.old.kept
            (of_point texts.now definitions.now (P.members present.now) (met_with self.old.calls self.old.symbols level item.now) item.now)) }
    {
        self.calls.meet(alloc, level, item)?;
        let Some(call) = self.calls.at(level) else {
            return Ok(());
        };
        let met = Met {
            level,
            calls: &self.calls,
            variables: &call.variables,
            first: self.symbols.first(&item.line),
        };
        push_point(
            alloc,
            texts,
            definitions,
            present,
            &met,
            item,
            &mut self.kept,
        )?;
        self.calls.pass(alloc, item)?;
        self.symbols.pass(alloc, &item.line)?;
        Ok(())
    }
}

/// The occurrences of the points of a root, whose statements stand in these texts, where these are the statements of the
/// definitions of macros, and these members are there.
pub fn occurrences<P: Present>(
    alloc: Global,
    arena: &TraceArena<TraceItem>,
    root: NodeId,
    texts: &TextLists,
    definitions: &DefinitionLists,
    present: &P,
) -> Result<Standing, OutOfMemory>
    requires live { IsLive arena.now.nodes root.0 }
    ensures { IfOk result (λ kept. kept ≡ occurrences_of texts.now definitions.now (P.members present.now) (points arena.now.nodes root.0)) }
{
    let mut walk = Walk::new(alloc);
    let Some(mut cursor) = Cursor::at(arena, root, 0) else {
        return Ok(walk.kept);
    };
    for _ in 0..arena.points(root) {
        walk.pass(
            alloc,
            texts,
            definitions,
            present,
            cursor.calls(),
            cursor.item(arena),
        )?;
        let _ = cursor.advance(arena);
    }
    Ok(walk.kept)
}
