//! Macro definitions that are asked for: the one that begins at a MACRO, with the members that it copies, and the one that the
//! name of an operation stands for.
//!
//! A definition is worked out by asking (`specs/Asked`): of each member that a COPY met next names it is asked what it is. The
//! functions say how far the answers that were given lead, which is to the definition, to its first fault, or to the first key
//! that has no answer.
//!
//! It knows nothing of statements' effects, of calls and of where answers live. It follows the HLASM Language Reference
//! SC26-4940, "COPY instruction", "Source macro definitions", "Library macro definitions".
#![tactic(auto)]

mod definition;
mod member;
mod operation;

pub use definition::{AskedDefinition, asked_definition};
pub use member::{known_at, member_of};
pub use operation::{AskedOperation, Sought, asked_operation};
