//! What an assembly of a program tells of names: its symbols and sections, the occurrences of names, and the paths that it touches.
//!
//! `assemble_names` runs the open code of a program afresh, in an arena of its own, and reads off its points what questions on
//! symbols are answered from (`AssembledNames`): the layout gives symbols and sections, and the texts that are present at the paths
//! that the points touch give the places of names. Nothing is reported of the run, and no more of it is kept.
//!
//! Its one contract in words: what is told is a function of the points of the program's plain expansion and of the texts that are
//! present (`specs/Names`). It knows nothing of requests and of when they are answered.
#![tactic(auto)]

mod assembling;
mod names;
mod paths;
mod prototypes;
mod stacks;
mod statements;
mod symbols;
mod texts;

pub use assembling::assemble_names;
pub use names::AssembledNames;
pub use program_assembly;
pub use program_launch;
