//! The world of a program: what conditional assembly asks of its surroundings, and what it puts there.
//!
//! A `ProgramWorld` keeps what was put (global SET symbols, operations, symbols, the section), how many calls were counted,
//! how deep the call stands, which outermost statement is processed, the text of the program, and SYSPARM, and is told what is
//! found under the names of members. Contracts see a state of these parts (`specs/World`), where what was put is a function from
//! keys, and the members one from names. The world fits the rules on keys of `call_sites` (`the_world_fits`), so whatever holds
//! of runs over a world that fits holds over this one. What was found under a name is kept, so that a member is looked for once,
//! and so is what lies ahead in the text, which is looked through at the first question for a symbol that is not defined yet.
//!
//! It knows nothing of what statements do and of where members come from.
#![tactic(auto)]

mod laws;
mod puts;
mod sources;
mod world;

pub use laws::the_world_fits;
pub use world::ProgramWorld;
