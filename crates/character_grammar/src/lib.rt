//! Which texts are character expressions.
//!
//! It knows nothing of operations, symbols or values. Its contract: `parse_char` gives the tree of a character expression,
//! or `At(n)`, the length of the longest prefix of the text that some character expression of at most `MOST_PARTS` terms,
//! operators and pairs of parentheses begins with; a text has one tree (module `laws`). The automaton that reads them is
//! public (`text_reader`, `in_place`, `text_point`, `quoted`), for the reader of logical expressions, which hold character ones. It
//! follows the HLASM Language Reference SC26-4940, "Character (SETC) expressions"; the grammar stands in
//! docs/EXPRESSIONS.md.
#![tactic(auto)]

pub mod in_place;
pub mod laws;
mod parse_text;
pub mod quoted;
pub mod text_point;
pub mod text_reader;

pub use parse_text::parse_char;
