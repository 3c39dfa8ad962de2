//! The occurrences of the names of one statement, where it is met: what each of its names names there, whether it is defined
//! there, and where it stands.
//!
//! A name is an occurrence where it has a meaning: a variable symbol that has one before the statement or is given one at this
//! very place; a sequence symbol that a branch finds, or that is the label; an ordinary symbol in the operands of a statement
//! that was generated, or the label that defines one first of all; the operation of a macro call; the member that a COPY took.
//!
//! It knows nothing of texts, of traces and of the statements before: what is known there (`Surroundings`) is handed in. Its
//! contract: what comes to stand is what the definition says of the names, each after those before it (`of_names`). It
//! follows the HLASM Language Reference SC26-4940, "Symbols", "Variable symbols", "Sequence symbols"; what counts is this
//! project's own.
#![tactic(auto)]

mod names;
mod naming;
mod surroundings;
mod variable;

pub use names::{occurrence_of, push_occurrences};
pub use naming::Naming;
pub use surroundings::Surroundings;
