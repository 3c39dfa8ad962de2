//! Ordinary expressions that are read at a glance: a number, a symbol or `*` alone, and the sum or the difference of `*` or a symbol
//! and a decimal number. Most expressions of operands are such, and are read here in one pass, without the states of the reader of
//! expressions and without its list of what is still to be joined.
//!
//! It knows nothing of operands, statements and values. Its contracts: where it finds a tree, that is the one that is read of the
//! text (`read_plain`), or of so many characters at its front before a delimiter (`term_front`); where it finds none, nothing is said
//! of the text. It follows the HLASM Language Reference SC26-4940, "Terms", "Expressions".
#![tactic(auto)]

mod glance;
mod quoted;
mod sums;
mod term;

pub use glance::{read_plain, sole_term};
pub use term::{TermFront, term_front};
