//! A statement of conditional assembly, read once: what its fields say before anything has a value, in a form that is
//! performed as often as one likes and reads no text again.
//!
//! `ReadStatement::of` reads a statement. An operation without an ampersand is known when it is read, so only what the
//! fields say for its one task is read (`read_body`); an operation with variable symbols keeps the texts of the fields, and
//! whoever knows its values calls `read_body`. A fault is a value of the reading. Each call gives exactly what its
//! definition says; only want of memory is free. It knows nothing of values and of what a statement does. It follows the
//! HLASM Language Reference SC26-4940, "SETA instruction", "SETB instruction", "SETC instruction", "AIF instruction", "AGO
//! instruction", "ACTR instruction", "MNOTE instruction", "COPY instruction", "END instruction", "Model statements".
#![tactic(auto)]

mod body;
mod branch;
mod condition;
mod declaration;
mod entry;
mod expression;
mod fields;
pub mod laws;
mod message;
mod setting;
mod statement;
mod task;

pub use body::{Body, read_body};
pub use condition::Choices;
pub use conditional_fields;
pub use conditional_fields::{Goto, Piece, Selector, Template};
pub use declaration::read_member;
pub use fields::{Entry, Fields};
pub use message::Message;
pub use setting::Setting;
pub use statement::{Instruction, Known, ReadStatement, Varying};
pub use task::{Task, is_generated, is_lasting, task_of};
