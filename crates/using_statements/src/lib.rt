//! USING and DROP: what is said of them, and which ranges there are after them.
//!
//! A statement is read from its operand field, and judged by what is known of symbols and by the place where it stands. One of
//! which something is said changes nothing, except that a DROP passes over registers that are not in use.
//!
//! It knows nothing of other statements, and nothing of where the ranges in force come from. Its contracts: what is said
//! (`push_using`, `push_drop`), and the ranges after it, are functions of what is known, of the place, of the ranges before and of
//! the operand field. It follows the HLASM Language Reference SC26-4940, "USING instruction", "DROP instruction".
#![tactic(auto)]

mod dropping;
pub mod laws;
mod registers;
mod saying;
mod statements;
mod unused;
mod using;
mod values;
mod written;

pub use statements::{push_drop, push_using};
