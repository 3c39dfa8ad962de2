//! A place in the points of a node: a cursor finds the point of a number, says what stands there and steps to the next.
//!
//! A cursor is a few numbers: its root and the number of its point, and the node, place and end of the items that stand
//! at the points from there on, with the number of frames round them. So a step is mostly an addition, and otherwise the
//! new search from the root. Its contract: the cursor of a number stands at the point of that number, there is none
//! exactly past the last point, and a step leads to the next. A cursor is good as long as its root has an owner
//! (`cursors_stand`).
//!
//! Of an item it knows the frames, and nothing else of what it says.
#![tactic(auto)]

mod cursor;
mod descent;
mod frames;
mod laws;
mod search;

pub use cursor::Cursor;
pub use descent::{ItemPlace, path};
pub use laws::{cursors_stand, linked_points_stand_within, traced_points_are_the_points};
