//! The ordinary symbols of an assembly, the values of ordinary expressions, and EQUs that wait for symbols.
//!
//! `Symbols` is a table of rows in order of definition. `eval` gives the value of an expression over it: a number of 32 bits,
//! absolute or in one section, judged for the whole expression, or the first fault from left to right. An EQU whose symbols
//! have no value yet is deferred, and `resolve_deferred` tries the deferred ones in rounds, as the definition says; the code
//! goes another way to the same symbols.
//!
//! It knows nothing of statements, operations, places and literals. It follows the HLASM Language Reference SC26-4940,
//! "Symbols", "Expressions", "EQU instruction".
#![tactic(auto)]

mod evaluate;
mod fault;
mod held;
mod key;
mod known;
pub mod laws;
mod resolve;
mod sections;
mod sums;
mod symbols;

pub use fault::{DefineFault, EvalFault, Trouble};
pub use known::Known;
pub use symbols::Symbols;
