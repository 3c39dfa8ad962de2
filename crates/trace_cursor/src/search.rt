//! The search for a point within one node.
ghost use Rattle.std.specs.Prelude.{◌≡◌, ◌<◌, ◌≤◌, IfSome, None, length};
ghost use Rattle.trace_arena.specs.Nodes.{node_at, IsLive};
ghost use Rattle.trace_cursor.specs.Places.{totals, gap_stop, gap_before, Counts, IsChild, IsOwn, IsPlace};

use trace_arena::{Link, NodeId, TraceArena, arena_is_whole};

/// A child of a node, the number of a point among those of the child, and how many of the node's items stand before it.
#[derive(Clone, Copy)]
pub(crate) struct Inner {
    pub(crate) child: NodeId,
    pub(crate) left: u32,
    pub(crate) at: usize,
}

/// Items of a node with no link between them: from `at` on, before `stop`.
#[derive(Clone, Copy)]
pub(crate) struct Run {
    pub(crate) at: usize,
    pub(crate) stop: usize,
}

/// Where a point of a node stands: among the points of a child, or among the node's own items.
pub(crate) enum Place {
    Inside(Inner),
    Own(Run),
}

/// How many links have at most so many points before them.
fn links_before(links: &[Link], rest: u32) -> usize
    ensures { Counts links.now rest result }
{
    let mut low = 0;
    let mut high = links.len();
    while low < high {
        let middle = low + (high - low) / 2;
        if links[middle].before <= rest {
            low = middle + 1;
        } else {
            high = middle;
        }
    }
    low
}

/// The child of the last of so many links, if the point is one of the child's.
fn in_child<I: Drop>(arena: &TraceArena<I>, node: NodeId, rest: u32, count: usize) -> Option<Inner>
    requires live { IsLive arena.now.nodes node.0 }
    requires counts { Counts (node_at arena.now.nodes node.0).links rest count }
    ensures child { IfSome result (λ inner. IsChild (totals arena.now.nodes) (node_at arena.now.nodes node.0).links rest
        inner.child.0 inner.left inner.at) }
    ensures none { result ≡ None → gap_before (totals arena.now.nodes) 0 (node_at arena.now.nodes node.0).links count ≤ rest }
{
    arena_is_whole(arena);
    if count == 0 {
        return None;
    }
    let link = arena.links(node)[count - 1];
    let left = rest - link.before;
    if left >= arena.points(link.child) {
        return None;
    }
    Some(Inner {
        child: link.child,
        left,
        at: link.at,
    })
}

/// How many items stand before the link behind so many others, or all of them where there is no further link.
fn gap_end(links: &[Link], items: usize, count: usize) -> usize
    ensures { result ≡ gap_stop items links.now count }
{
    match links.get(count) {
        Some(link) => link.at,
        None => items,
    }
}

/// The item of a point behind so many links and their children, with those that follow it up to the next link.
fn own_run<I: Drop>(arena: &TraceArena<I>, node: NodeId, rest: u32, count: usize) -> Run
    requires live { IsLive arena.now.nodes node.0 }
    requires inside { rest < (node_at arena.now.nodes node.0).total }
    requires counts { Counts (node_at arena.now.nodes node.0).links rest count }
    requires behind { gap_before (totals arena.now.nodes) 0 (node_at arena.now.nodes node.0).links count ≤ rest }
    ensures { IsOwn (totals arena.now.nodes) (node_at arena.now.nodes node.0).links (length (node_at arena.now.nodes node.0).items)
        rest result.at result.stop }
{
    arena_is_whole(arena);
    let links = arena.links(node);
    let items = arena.items(node).len();
    let stop = gap_end(links, items, count);
    if count == 0 {
        let at = rest as usize;
        return Run { at, stop };
    }
    let link = links[count - 1];
    let behind = rest - link.before - arena.points(link.child);
    Run {
        at: link.at + behind as usize,
        stop,
    }
}

/// Where a point of a node stands.
pub(crate) fn place_at<I: Drop>(arena: &TraceArena<I>, node: NodeId, rest: u32) -> Place
    requires live { IsLive arena.now.nodes node.0 }
    requires inside { rest < (node_at arena.now.nodes node.0).total }
    ensures { IsPlace arena.now.nodes node.0 rest result }
{
    let count = links_before(arena.links(node), rest);
    match in_child(arena, node, rest, count) {
        Some(inner) => Place::Inside(inner),
        None => Place::Own(own_run(arena, node, rest, count)),
    }
}
