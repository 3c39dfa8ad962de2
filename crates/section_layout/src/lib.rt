//! The layout of the statements that an assembly generates: where each stands, the sections, the literal pools, the symbols with
//! their values, and what is said of each statement.
//!
//! The statements are laid out one after the other (`section_steps`). After the last one deferred EQUs are settled, and what is
//! left of each statement is judged by the values that are known then.
//!
//! It knows nothing of stacks, files and macros: a statement is its line, and is told by its number. Its one contract: the
//! layout is a function of the lines (`lay_out`). It follows the HLASM Language Reference SC26-4940, "Program sectioning",
//! "Location counter", "Symbols", "Literals".
#![tactic(auto)]

mod judge;
pub mod laws;
mod layout;
mod rows;
mod sections;
mod walk;

pub use layout::{Layout, StatementLayout, lay_out};
pub use section_steps;
