//! What is true of every arena, for its callers.
ghost use Rattle.std.specs.Prelude.{ℕ, ◌≡◌, ◌↔◌, length};
ghost use Rattle.trace_arena.specs.Nodes.{node_at, outside, IsLive, IsReached};
ghost use Rattle.trace_arena.specs.Points.{weave, points};
ghost use Rattle.trace_arena.specs.Whole.{IsWhole};

use crate::TraceArena;

/// Heights fall along links, links are owners of their children and stand in their places; and the points of a node are
/// its items with the points of its children. It does nothing; its contract is the claim.
pub fn arena_is_whole<I>(arena: &TraceArena<I>)
    ensures whole { IsWhole arena.now.nodes }
    ensures woven { (x : ℕ) → points arena.now.nodes x
        ≡ weave (points arena.now.nodes) 0 (node_at arena.now.nodes x).items (node_at arena.now.nodes x).links }
    ensures counted { (x : ℕ) → length (points arena.now.nodes x) ≡ (node_at arena.now.nodes x).total }
{
    let _ = &arena.slots;
}

/// The live nodes are those that are reached from an owner that is no link. It does nothing; its contract is the claim.
pub fn live_nodes_are_reached<I>(arena: &TraceArena<I>)
    ensures { (x : ℕ) → IsLive arena.now.nodes x ↔ IsReached arena.now.nodes (outside arena.now.nodes) x }
{
    let _ = &arena.slots;
}
