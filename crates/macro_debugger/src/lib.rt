//! A walk through the points of a trace, as a debugger makes it: where it stops next, and what it shows there.
//!
//! A walk has the root of a trace, a place and breakpoints. The place is a point, which is a statement seen before its
//! effect, or stands before the first point. A step leads to the least later point at which a breakpoint is set or the rule
//! of the step holds, and if there is none the walk stays where it is (`Debug::next_stop`). At a point it shows the frames
//! (`stack`) and the variables of a frame (`variables`). The rules are stepIn, next, stepOut and continue of the Debug Adapter
//! Protocol. All that is known of a trace is the list of its points, so a walk stays in the trace of its launch whatever is
//! assembled meanwhile.
//!
//! It knows nothing of messages, of sessions, of the texts of files and of what a statement means.
#![tactic(auto)]

mod breakpoints;
mod debug;
mod laws;
mod shown;
mod stop;

pub use debug::Debug;
pub use laws::{breakpoints_are_replaced, stops_are_the_least};
pub use stop::{Reason, StepRule, Stop};
