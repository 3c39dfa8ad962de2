//! Steps and their ends.
ghost use Rattle.std.specs.Prelude.{◌≡◌, slice_get};
ghost use Rattle.std.specs.Option.{ForSome};
ghost use Rattle.trace_arena.specs.Points.{points};
ghost use Rattle.trace_cursor.specs.Places.{StandsAt};
ghost use Rattle.macro_debugger.specs.Stops.{depth, holds};

use trace_arena::TraceArena;
use trace_cursor::Cursor;
use trace_values::TraceItem;

/// Which later points end a step, besides those with a breakpoint.
#[derive(Clone, Copy, Debug, PartialEq, Eq)]
pub enum StepRule {
    /// Every point.
    In,
    /// Those that are no deeper than the place.
    Over,
    /// Those that are less deep than the place.
    Out,
    /// None.
    Continue,
}

/// Why a step ended.
#[derive(Clone, Copy, Debug, PartialEq, Eq)]
pub enum Reason {
    Breakpoint,
    Step,
}

/// The point at which a step ended, counted from 0.
#[derive(Clone, Copy, Debug, PartialEq, Eq)]
pub struct Stop {
    pub index: u32,
    pub reason: Reason,
}

impl StepRule {
    /// Whether the rule holds at a point, seen from a place that is so deep.
    pub(crate) fn holds(self, from: u32, arena: &TraceArena<TraceItem>, cursor: &Cursor) -> bool
        requires stands { StandsAt arena.now.nodes cursor.now }
        ensures { ForSome (slice_get (points arena.now.nodes cursor.now.root.0) cursor.now.index)
            (λ point. result ≡ holds self from (depth point)) }
    {
        match self {
            StepRule::In => true,
            StepRule::Over => cursor.depth(arena) <= from,
            StepRule::Out => cursor.depth(arena) < from,
            StepRule::Continue => false,
        }
    }
}
