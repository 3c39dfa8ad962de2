//! Assembling a program: its open code is run over the world of a program, and what is reported of it is read off its
//! points.
//!
//! `specs/Notes` says what is reported of a run, in whole lists: the column faults of the program's text, then what is
//! reported of each point at its whole stack, then that the budget was used up, or that the text ended without END. It is
//! the same for every machine that runs the calls.
//!
//! `assemble_figures` assembles a program afresh and tells what the assembly comes to in figures (`specs/Figures`).
//!
//! It knows nothing of messages, of documents and of when an assembly is made.
#![tactic(auto)]

mod assembled_figures;
mod assembler;
mod assembly;
mod checked_layout;
mod column_notes;
mod end_notes;
mod figures;
mod kept_expansions;
mod notes;
mod places;
mod plain;
mod point_notes;
mod report;
mod statements;

pub use assembled_figures::assemble_figures;
pub use assembler::Assembler;
pub use assembly::{Assembly, assemble};
pub use figures::{Figures, Summary};
pub use kept_expansions::KeptExpansions;
pub use plain::assemblies_are_plain;
pub use statement_checks::section_layout;
