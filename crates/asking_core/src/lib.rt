//! Machines that touch what surrounds them only by asking and putting, the worlds that answer them, and footprints.
//!
//! A machine's call is run over a world: each step asks a key, puts a value, emits an item, takes a unit of fuel, or
//! runs a nested call. The plain run is a definition (`specs/Runs`): what happens where nothing is kept. A `Footprint`
//! is what a run read of its world. The law of footprints (module `laws`) says that a run stands for every state of the
//! world that answers alike what it read; so an outcome that was kept may be taken in place of a run.
//!
//! It knows nothing of HLASM, of what a key asks and an item carries, and keeps nothing itself.
#![tactic(auto)]

mod carrying;
mod example;
mod footprint;
mod laws;
mod machine;
mod world;

pub use carrying::carry;
pub use example::{an_unfit_world_breaks_the_law, counters_that_go_round_fit};
pub use footprint::{Footprint, Noted};
pub use laws::{
    depth_shifts, footprints_suffice, fuel_shifts, merged_footprints_say_both, one_run, run_leaves,
};
pub use machine::{Action, AskMachine, Given};
pub use world::World;
