//! A walk and its steps.
ghost use Rattle.std.specs.Prelude.{◌≡◌, ◌<◌, [], Some, drop, slice_get, IfOk, IfSome, IsSome, OnOk, OnErr};
ghost use Rattle.std.specs.Option.{ForSome};
ghost use Rattle.trace_arena.specs.Points.{points};
ghost use Rattle.trace_cursor.specs.Places.{StandsAt};
ghost use Rattle.macro_debugger.specs.Stops.{replaced, reason_at, depth_at, first_later, first_stop};
ghost use Rattle.macro_debugger.specs.Walks.{launched, HasTrace, trace_of, stack_here, next_stop, stepped, IsFrame, variables_here};

use crate::breakpoints::Breakpoints;
use crate::shown::{part, stack_at};
use crate::stop::{Reason, StepRule, Stop};
use hl_base::{Frames, OutOfMemory, PathId};
use std::alloc::Global;
use std::marker::Model;
use trace_arena::{NodeId, TraceArena};
use trace_cursor::Cursor;
use trace_values::{TraceItem, Variables};
use trace_variables::{frames_have_variables, variables_at};

/// A walk through the points of a root, which its launcher owns. It holds nothing of the arena.
#[derive(Drop)]
pub struct Debug {
    root: NodeId,
    points: u32,
    // The point where the walk stands; none is before the first point.
    place: Option<u32>,
    breakpoints: Breakpoints,
}

impl Model for Debug {
    ghost use Rattle.macro_debugger.specs.Walks.{Walk};

    ghost Value = { Walk };

    ghost use Rattle.std.specs.Prelude.{◌<◌};
    ghost use Rattle.std.specs.Option.{ForSome};

    ghost view = { λ d. record {
      root = d.root;
      points = d.points;
      place = d.place;
      breakpoints = d.breakpoints;
    } };

    ghost invariant = { λ d. ForSome d.place (λ index. index < d.points) };
}

impl Debug {
    /// A walk that stands before the first point of a root, which has so many, without breakpoints. It takes no memory.
    pub fn launch(root: NodeId, points: u32) -> Debug
        ensures { result ≡ launched root points }
    {
        Debug {
            root,
            points,
            place: None,
            breakpoints: Breakpoints::none(),
        }
    }

    /// The root of the trace.
    pub fn root(&self) -> NodeId
        ensures { result ≡ self.now.root }
    {
        self.root
    }

    /// Breakpoints at these lines of a file, counted from 0, in place of those that it had. An `Err` changes nothing.
    pub fn set_breakpoints(
        &mut self,
        alloc: Global,
        path: PathId,
        lines: &[u32],
    ) -> Result<(), OutOfMemory>
        ensures set { OnOk result
            (self.new ≡ record self.old { breakpoints = replaced path.0 lines.now self.old.breakpoints }) }
        ensures refused { OnErr result (self.new ≡ self.old) }
    {
        self.breakpoints.set(alloc, path, lines)
    }

    /// No breakpoint is set any more. It takes no memory.
    pub fn clear_breakpoints(&mut self)
        ensures { self.new ≡ record self.old { breakpoints = [] } }
    {
        self.breakpoints = Breakpoints::none();
    }

    /// How deep the place is.
    fn depth(&self, arena: &TraceArena<TraceItem>) -> u32
        requires trace { HasTrace arena.now.nodes self.now }
        ensures { result ≡ depth_at (trace_of arena.now.nodes self.now) self.now.place }
    {
        let Some(index) = self.place else {
            return 0;
        };
        match Cursor::at(arena, self.root, index) {
            Some(cursor) => cursor.depth(arena),
            None => 0,
        }
    }

    /// The first point behind the place.
    fn first_later(&self) -> u32
        ensures { result ≡ first_later self.now.place }
    {
        // The number of points has 32 bits, and so has that of each place behind one.
        let _points = self.points;
        match self.place {
            Some(index) => index + 1,
            None => 0,
        }
    }

    /// Why a step ends at a point, if it does, seen from a place that is so deep.
    fn reason_at(
        &self,
        arena: &TraceArena<TraceItem>,
        cursor: &Cursor,
        rule: StepRule,
        from: u32,
    ) -> Option<Reason>
        requires stands { StandsAt arena.now.nodes cursor.now }
        ensures { ForSome (slice_get (points arena.now.nodes cursor.now.root.0) cursor.now.index)
            (λ point. result ≡ reason_at self.now.breakpoints rule from point) }
    {
        if self.breakpoints.hold(cursor.origin(arena)) {
            return Some(Reason::Breakpoint);
        }
        if rule.holds(from, arena, cursor) {
            return Some(Reason::Step);
        }
        None
    }

    /// The first end of a step from a point on, seen from a place that is so deep.
    fn first_stop(
        &self,
        arena: &TraceArena<TraceItem>,
        first: u32,
        rule: StepRule,
        from: u32,
    ) -> Option<Stop>
        requires trace { HasTrace arena.now.nodes self.now }
        ensures stop { result ≡ first_stop (reason_at self.now.breakpoints rule from) first
            (drop first (trace_of arena.now.nodes self.now)) }
        ensures inside { IfSome result (λ stop. stop.index < self.now.points) }
    {
        let Some(mut cursor) = Cursor::at(arena, self.root, first) else {
            return None;
        };
        for index in first..self.points {
            if let Some(reason) = self.reason_at(arena, &cursor, rule, from) {
                return Some(Stop { index, reason });
            }
            let _ = cursor.advance(arena);
        }
        None
    }

    /// The least later point at which a breakpoint is set or the rule holds, where the walk stands then. If there is none, it
    /// stays where it is.
    pub fn next_stop(&mut self, arena: &TraceArena<TraceItem>, rule: StepRule) -> Option<Stop>
        requires trace { HasTrace arena.now.nodes self.old }
        ensures stop { result ≡ next_stop self.old (trace_of arena.now.nodes self.old) rule }
        ensures place { self.new ≡ stepped self.old result }
        ensures trace { HasTrace arena.now.nodes self.new }
    {
        let from = self.depth(arena);
        let first = self.first_later();
        let stop = self.first_stop(arena, first, rule, from)?;
        self.place = Some(stop.index);
        Some(stop)
    }

    /// The point where the walk stands.
    fn index(&self) -> u32
        requires stopped { IsSome self.now.place }
        ensures place { self.now.place ≡ Some result }
        ensures inside { result < self.now.points }
    {
        self.place.unwrap()
    }

    /// The frames of the point where the walk stands, outermost first.
    pub fn stack(&self, alloc: Global, arena: &TraceArena<TraceItem>) -> Result<Frames, OutOfMemory>
        requires trace { HasTrace arena.now.nodes self.now }
        requires stopped { IsSome self.now.place }
        ensures { IfOk result (λ frames. stack_here (trace_of arena.now.nodes self.now) self.now ≡ Some frames) }
    {
        stack_at(alloc, arena, self.root, self.index())
    }

    /// The global variable symbols of a frame of that point, or the local ones. Frames are counted from 1, the innermost first.
    pub fn variables(
        &self,
        alloc: Global,
        arena: &TraceArena<TraceItem>,
        frame: u32,
        globals: bool,
    ) -> Result<Variables, OutOfMemory>
        requires trace { HasTrace arena.now.nodes self.now }
        requires frame { IsFrame (stack_here (trace_of arena.now.nodes self.now) self.now) frame }
        ensures { IfOk result (λ rows. variables_here (trace_of arena.now.nodes self.now) self.now frame globals ≡ Some rows) }
    {
        frames_have_variables();
        let shown = variables_at(alloc, arena, self.root, self.index(), frame)?;
        part(alloc, &shown.unwrap(), globals)
    }
}
