//! Cursors: where a point stands.
ghost use Rattle.std.specs.Prelude.{◌≡◌, ◌+◌, ◌<◌, ◌≤◌, List, length, MatchOption, Some, slice_get};
ghost use Rattle.std.specs.Bool.{OnTrue, OnFalse};
ghost use Rattle.std.specs.Option.{option_map};
ghost use Rattle.trace_values.specs.declared.item.TraceItem.{TraceItem};
ghost use Rattle.trace_arena.specs.Nodes.{Node, IsLive};
ghost use Rattle.trace_arena.specs.Points.{points};
ghost use Rattle.trace_cursor.specs.Places.{StandsAt};
ghost use Rattle.trace_cursor.specs.Stacks.{counted, depth_of};

use crate::frames::{calls_before, frames_before, more_frames};
use crate::search::{Place, place_at};
use hl_base::Origin;
use trace_arena::{NodeId, TraceArena, arena_is_whole};
use trace_values::TraceItem;

/// A place at a point of a root. It holds no memory and nothing of the arena.
#[derive(Clone, Copy, Debug)]
pub struct Cursor {
    root: NodeId,
    index: u32,
    node: NodeId,
    at: usize,
    stop: usize,
    // How many frames stand round those of the item.
    outer: u32,
    calls: u32,
}

/// The search from the root down.
fn find(arena: &TraceArena<TraceItem>, root: NodeId, index: u32) -> Cursor
    requires live { IsLive arena.now.nodes root.0 }
    requires inside { index < length (points arena.now.nodes root.0) }
    ensures stands { StandsAt arena.now.nodes result }
    ensures root { result.root ≡ root }
    ensures index { result.index ≡ index }
{
    arena_is_whole(arena);
    let mut node = root;
    let mut rest = index;
    let mut outer = 0;
    let mut calls = 0;
    loop {
        match place_at(arena, node, rest) {
            Place::Inside(inner) => {
                outer = more_frames(outer, frames_before(arena.items(node), inner.at));
                calls += calls_before(inner.at);
                node = inner.child;
                rest = inner.left;
            }
            Place::Own(run) => {
                return Cursor {
                    root,
                    index,
                    node,
                    at: run.at,
                    stop: run.stop,
                    outer,
                    calls,
                };
            }
        }
    }
}

impl Cursor {
    /// The cursor at a point of a root, counted from 0. There is none exactly past the last point.
    pub fn at(arena: &TraceArena<TraceItem>, root: NodeId, index: u32) -> Option<Cursor>
        requires live { IsLive arena.now.nodes root.0 }
        ensures { MatchOption result (length (points arena.now.nodes root.0) ≤ index)
            (λ c. StandsAt arena.now.nodes c × (c.root ≡ root) × (c.index ≡ index)) }
    {
        if index >= arena.points(root) {
            return None;
        }
        Some(find(arena, root, index))
    }

    /// Steps to the next point. It answers false exactly at the last point, and then stays there.
    pub fn advance(&mut self, arena: &TraceArena<TraceItem>) -> bool
        requires live { IsLive arena.now.nodes self.old.root.0 }
        requires stands { StandsAt arena.now.nodes self.old }
        ensures stands { StandsAt arena.now.nodes self.new }
        ensures root { self.new.root ≡ self.old.root }
        ensures next { OnTrue result (self.new.index ≡ self.old.index + 1) }
        ensures stays { OnFalse result (self.new ≡ self.old) }
        ensures last { OnFalse result (length (points arena.now.nodes self.old.root.0) ≡ self.old.index + 1) }
    {
        let points = arena.points(self.root);
        let index = self.index + 1;
        if self.at + 1 < self.stop {
            self.index = index;
            self.at += 1;
            return true;
        }
        if index >= points {
            return false;
        }
        *self = find(arena, self.root, index);
        true
    }

    /// The item that was appended at the point.
    pub fn item<'a>(&self, arena: &'a TraceArena<TraceItem>) -> &'a TraceItem
        requires stands { StandsAt arena.now.nodes self.now }
        ensures { option_map (λ point. point.item) (slice_get (points arena.now.nodes self.now.root.0) self.now.index)
            ≡ Some result.now }
    {
        &arena.items(self.node)[self.at]
    }

    /// How many frames of macros and copies the point is within, or the greatest number once that is reached.
    pub fn depth(&self, arena: &TraceArena<TraceItem>) -> u32
        requires stands { StandsAt arena.now.nodes self.now }
        ensures { option_map (λ point. counted (depth_of point)) (slice_get (points arena.now.nodes self.now.root.0) self.now.index)
            ≡ Some result }
    {
        more_frames(self.outer, self.item(arena).frames.count() - 1)
    }

    /// How many calls the point is within: how many items there are behind which the nodes that it stands in are linked.
    pub fn calls(&self) -> u32
        ensures { (nodes : List (Node TraceItem)) → StandsAt nodes self.now →
            option_map (λ point. length point.calls) (slice_get (points nodes self.now.root.0) self.now.index) ≡ Some result }
    {
        self.calls
    }

    /// Where the statement of the point stands.
    pub fn origin(&self, arena: &TraceArena<TraceItem>) -> Origin
        requires stands { StandsAt arena.now.nodes self.now }
        ensures { option_map (λ point. point.item.frames.innermost.origin)
            (slice_get (points arena.now.nodes self.now.root.0) self.now.index) ≡ Some result }
    {
        self.item(arena).frames.origin()
    }
}
