//! One statement of an assembly after the other is laid out: it takes room in its section, moves the location counter, begins or
//! resumes a section, defines symbols, or places a pool of literals.
//!
//! It knows nothing of how statements come about, and of the values that deferred EQUs get in the end: what an expression of a
//! statement comes to is known where each of its symbols was defined before it. Its one contract: what there is after a
//! statement, and what is kept of it, is a function of the statement and of what there was before it (`State::step`). It follows
//! the HLASM Language Reference SC26-4940, "Program sectioning", "Location counter", "Assembler instruction statements".
#![tactic(auto)]

mod constants;
mod end;
mod equate;
mod gathering;
mod instruction;
mod labels;
mod literals;
mod mark;
mod needs;
mod org;
mod places;
mod pools;
mod section;
mod states;
mod step;
mod symbols;

pub use constant_expressions;
pub use layout_statements;
pub use states::{Laid, Left, State};
