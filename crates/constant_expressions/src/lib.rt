//! The expressions of an operand of DC or DS, or of a literal: what its factor and its length come to by what is known of
//! symbols, and what is said of all its expressions.
//!
//! It knows nothing of statements and places beyond the value of `*`. Its contracts: the numbers that are told of an operand
//! (`told_numbers`), and what is said of its expressions after what was said before (`push_operand`), are functions of what
//! was read and of what is known. It follows the HLASM Language Reference SC26-4940, "DC instruction", "Address constants".
#![tactic(auto)]

mod notes;
mod telling;

pub use notes::push_operand;
pub use telling::{told, told_numbers};
