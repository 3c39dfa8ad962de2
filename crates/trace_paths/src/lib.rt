//! The files that a trace touches: the path of each frame of its points, once, in the order of their numbers.
//!
//! The frames round a point's own are those of the items after which its nodes are linked, and these are items of other points.
//! So the paths are gathered from the own frames of all points, in one pass.
//!
//! It knows nothing of how a trace came about and of what its points say.
#![tactic(auto)]

mod path_ids;
mod touched;

pub use path_ids::PathIds;
pub use touched::touched_paths;
