//! What is said of the operands of machine instructions: their number, registers, masks, immediate values, lengths and
//! targets.
//!
//! It is told the values of the expressions of an operand, and knows nothing of texts, symbols, and how an operand is read.
//! Its contracts: what is said of so many operands (`count_note`), of a value of some kind (`value_note`) and of a target
//! (`target_note`) is what the specification says. It follows the z/Architecture Principles of Operation SA22-7832,
//! "Instruction formats", and the HLASM Language Reference SC26-4940, "Machine instruction statements".
#![tactic(auto)]

mod bounds;
mod counts;
mod targets;
mod values;

pub use bounds::{Bounds, allowed};
pub use counts::count_note;
pub use targets::target_note;
pub use values::value_note;
