//! The trees of expressions, and which texts are arithmetic and ordinary expressions.
//!
//! It knows nothing of operations, symbols or values. Its contracts: `parse_arith` and `parse_ordinary` give the tree of
//! an expression, or `At(n)`, the length of the longest prefix of the text that some expression of at most `MOST_PARTS`
//! terms, operators and pairs of parentheses begins with; a text has one tree (module `laws`). The automaton that reads
//! arithmetic is public (`reader`, `pending`, `part`, `spelled`, `character`), for the readers of the expressions that hold
//! arithmetic ones. It follows the HLASM Language Reference SC26-4940, "Arithmetic (SETA) expressions" and "Expressions";
//! the grammar stands in docs/EXPRESSIONS.md.
#![tactic(auto)]

pub mod character;
mod fault;
pub mod front;
pub mod laws;
mod parse;
pub mod part;
pub mod pending;
pub mod reader;
pub mod spelled;
pub mod tree;

pub use character::Grammar;
pub use fault::SyntaxFault;
pub use front::{Front, parse_front, parse_variable};
pub use parse::{MOST_PARTS, parse_arith, parse_ordinary};
pub use tree::{Attribute, Comparison, Expr, Form, Item, Operator, Reference, Sign, Symbol};
