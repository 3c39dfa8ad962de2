//! The item of a place on the way to a point.
ghost use Rattle.std.specs.Prelude.{◌≡◌, Some, slice_get};
ghost use Rattle.trace_arena.specs.Nodes.{node_at};
ghost use Rattle.trace_cursor.specs.Pasts.{IsThere};

use trace_arena::TraceArena;
use trace_cursor::ItemPlace;
use trace_values::TraceItem;

/// The item of a place.
pub(crate) fn item_at(arena: &TraceArena<TraceItem>, place: ItemPlace) -> &TraceItem
    requires there { IsThere arena.now.nodes place }
    ensures { slice_get (node_at arena.now.nodes place.node.0).items place.at ≡ Some result.now }
{
    &arena.items(place.node)[place.at]
}
