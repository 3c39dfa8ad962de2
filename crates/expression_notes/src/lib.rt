//! What is said of the ordinary expressions of a statement, by what is known of symbols: that one has no value, or is
//! relocatable where a number is needed, and that a symbol is not defined.
//!
//! It knows nothing of statements, and of where their expressions come from: they are pushed one after the other, after what
//! was said before. Its contracts: what is said of an expression is a function of its tree, of its place, and of what is known
//! (`push_expression`); that a symbol is not defined is said once, however often the statement uses it (`push_symbol`). It
//! follows the HLASM Language Reference SC26-4940, "Expressions"; what is said is this project's.
#![tactic(auto)]

pub mod laws;
mod symbols;
mod values;

pub use symbols::push_symbol;
pub use values::{Wanted, push_expression, push_row, value_row};
