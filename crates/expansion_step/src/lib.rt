//! The machine that expands, in code: for each language that is given in code, an asking machine whose plain runs are the
//! language's plain expansions.
//!
//! A language (`CodedLanguage`) says what its statements do, as far as the answers to its questions lead, and how a point
//! is kept. `Expander` does the rest: it asks and begins a statement again with each answer, puts, branches, copies, and
//! enters calls, as the model of `plain_expansion` does (`specs/Places` says at which place of it a `Local` stands). As an
//! `AskMachine` it watches itself: it counts its actions between two units of fuel, and asks and puts only what it may.
//!
//! It knows nothing of HLASM: not what a statement reads, what a key asks, and what a point carries.
#![tactic(auto)]

mod act;
mod entrance;
mod expander;
mod language;
mod laws;
mod machine;
mod phase;
mod stack;
mod step;

pub use act::{Act, Entry, Fault, Performed};
pub use expander::Expander;
pub use language::CodedLanguage;
pub use laws::{runs_are_expansions, watched_calls_run};
pub use phase::{Local, Watched};
pub use stack::{Level, Stack};
