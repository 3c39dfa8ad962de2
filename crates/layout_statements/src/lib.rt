//! Generated statements as they are read for laying them out, each once: the symbol of its label, and what it asks for.
//!
//! It knows nothing of values, places and sections: expressions are trees, or the place where they cannot be read. Its one
//! contract: what is read of a statement is a function of its name entry, operation and operands (`LayoutStatement::read`). It
//! follows the HLASM Language Reference SC26-4940, "Assembler instruction statements", "Machine instruction statements".
#![tactic(auto)]

mod bases;
mod equate;
mod expressions;
mod kind;
mod lists;
mod statement;
mod symbols;

pub use equate::Equate;
pub use expressions::{Reading, mentions_place};
pub use lists::ReadLiteral;
pub use statement::{LayoutStatement, Task};
pub use symbols::ReadSymbol;
