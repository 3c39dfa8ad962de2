//! What is kept of a call that ran, and the law that where it holds, it is the run.
//!
//! A run leaves an outcome: its points, its end, its cost, what it read of its world, and what it put and counted
//! (`specs/Outcomes`). An outcome names no world. If a world answers what was read, and fuel and depth go so far, the
//! plain run of the call is that run (module `laws`): so an outcome that was kept may be taken in its place. A call under
//! way is a moment (`specs/Moments`), and each move makes the next one of it.
//!
//! It knows nothing of how outcomes are found, and of what an item says.
#![tactic(auto)]

mod laws;
mod summary;

pub use laws::{
    moves_lead, nested_calls_join, outcomes_stand, points_are_items, runs_are_outcomes,
};
pub use summary::CallSummary;
