//! The statements of an assembler source text: which lines belong together, what kind of statement they are, their
//! fields with the place of each character, and the faults of their columns.
//!
//! It knows nothing of symbols, macros or files, and of an operation only what decides the format of its statement. Its
//! one contract: `read_statements` gives the statements of the text, or there was no memory for them. Every line of a
//! text belongs to exactly one statement (module `laws`). Those who read fields find here how a text is read character by
//! character (module `text`). It follows the HLASM Language Reference SC26-4940, "Assembler language coding
//! conventions". Lines count from 0 and columns from 1, in characters.
#![tactic(auto)]

mod build;
mod column;
mod fault;
mod front_field;
pub mod laws;
mod places;
mod quotes;
mod reader;
mod run;
mod shape;
mod statement;
pub mod text;

pub use column::split_columns;
pub use fault::{ColumnFault, Faults};
pub use quotes::ends_quoted;
pub use statement::{Field, Shape, Statement, Statements, read_statements};
