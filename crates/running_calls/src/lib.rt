//! What variable symbols mean in each call that is running, as the points of a trace are gone through.
//!
//! A call is known by its level: how many calls stand round it. At a point of a level the calls within that level have ended; the
//! call of the level goes on, or is entered there, by the values of its first point. `RunningCalls` keeps the calls of the levels,
//! the outermost first. Contracts see that list; `Follows` says that it is the one of a list of points.
//!
//! It knows nothing of texts and statements.
#![tactic(auto)]

mod calls;
pub mod laws;

pub use calls::{RunningCall, RunningCalls};
