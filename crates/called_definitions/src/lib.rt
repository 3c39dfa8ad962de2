//! The statements of the definitions of the macros that a trace goes through.
//!
//! A definition is read where its prototype stands, with the members that it copies in place; one whose MEND does not stand in the
//! text of its prototype has no statement. `definitions_of` reads each once, and `add_definitions` those of other places. Its
//! contract: the definitions are a function of the points, of the texts and of what is found under the names of members
//! (`specs/Called`).
//!
//! It knows nothing of occurrences and values. It follows the HLASM Language Reference SC26-4940, "Format of a macro
//! definition", "COPY instruction".
#![tactic(auto)]

mod gathering;
mod member;
mod reading;

pub use gathering::{add_definitions, definitions_of};
