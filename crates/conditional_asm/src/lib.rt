//! What statements of conditional assembly do, one at a time, once they are read: in one call over all operations
//! (`perform`, or `effect`, which reads the statement first), and in the parts of which it is made: fields with the values of
//! their variable symbols (`substitute`), what is done by what the fields say (`doing`), whether an operation is defined
//! (`defined`), and the notes of these. Statements and their fields `statement_reading` and `conditional_fields` read, whose
//! names are passed on here.
//!
//! It changes nothing: an `Act` says what its caller is to do. It knows nothing of macros and of where values live; what
//! surrounds a statement it is told by `Lookups`. Each call gives exactly what its definition says, or the key that is
//! needed and was not answered; a statement that cannot be read gives `H010` with how far some right text begins with it;
//! only want of memory is free. It follows the HLASM Language Reference SC26-4940, "Conditional assembly instructions", "SETA
//! instruction", "SETB instruction", "SETC instruction", "AIF instruction", "AGO instruction", "ACTR instruction", "MNOTE
//! instruction", "COPY instruction", "END instruction", "Model statements".
#![tactic(auto)]

mod act;
mod aif;
mod branching;
mod copying;
mod definition;
mod generating;
mod laws;
mod message;
mod performing;
mod repeating;
mod setting;
mod substitution;
mod trouble;

pub use act::{Act, Effect};
pub use conditional_fields::{ago, declarations, ended};
pub use definition::defined;
pub use laws::{effects_are_asked, effects_stay};
pub use performing::{doing, effect, perform};
pub use repeating::once;
pub use statement_reading::{
    Body, Choices, Entry, Fields, Goto, Instruction, Known, Message, Piece, ReadStatement,
    Selector, Setting, Task, Template, Varying, is_generated, is_lasting, read_body, task_of,
};
pub use substitution::substitute;
pub use trouble::{left_out, no_operation, open_apostrophe, undefined, unreadable};
