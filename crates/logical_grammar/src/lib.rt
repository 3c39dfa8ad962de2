//! Which texts are logical expressions.
//!
//! It knows nothing of operations, symbols or values. Its contract: `parse_logic` gives the tree of a logical expression,
//! or `At(n)`, the length of the longest prefix of the text that some logical expression of at most `MOST_PARTS` terms,
//! operators and pairs of parentheses begins with; a text has one tree (module `laws`). It follows the HLASM Language
//! Reference SC26-4940, "Logical (SETB) expressions"; the grammar stands in docs/EXPRESSIONS.md.
#![tactic(auto)]

pub mod laws;
mod logic_behind;
mod logic_point;
mod logic_reader;
mod parse_truth;

pub use character_grammar;
pub use parse_truth::{parse_logic, parse_logic_front};
