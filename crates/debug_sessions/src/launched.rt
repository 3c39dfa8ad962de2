//! The trace of a program that is launched.
ghost use Rattle.std.specs.Prelude.{◌≡◌};
ghost use Rattle.trace_arena.specs.Nodes.{IsLive};
ghost use Rattle.trace_arena.specs.Points.{points};

use macro_debugger::Debug;
use std::marker::Model;
use trace_arena::{NodeId, TraceArena};
use trace_values::TraceItem;

/// The trace of a program as it is launched, with all that holds it. Contracts see its points.
#[derive(Drop)]
pub struct Launched {
    pub(crate) arena: TraceArena<TraceItem>,
    pub(crate) debug: Debug,
}

impl Model for Launched {
    ghost use Rattle.std.specs.Prelude.{◌≡◌, List, None};
    ghost use Rattle.trace_values.specs.declared.item.TraceItem.{TraceItem};
    ghost use Rattle.trace_arena.specs.Points.{Point, points};
    ghost use Rattle.macro_debugger.specs.Walks.{HasTrace, launched};

    ghost Value = { List (Point TraceItem) };

    ghost view = { λ l. points l.arena.nodes l.debug.root.0 };

    ghost invariant = { λ l. HasTrace l.arena.nodes l.debug × (l.debug.place ≡ None) };
}

impl Launched {
    /// The points of a root, with the arena that holds it.
    pub fn of(arena: TraceArena<TraceItem>, root: NodeId) -> Launched
        requires live { IsLive arena.nodes root.0 }
        ensures { result ≡ points arena.nodes root.0 }
    {
        let count = arena.points(root);
        let debug = Debug::launch(root, count);
        Launched { arena, debug }
    }
}
