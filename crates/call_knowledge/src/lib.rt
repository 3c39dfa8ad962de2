//! What a call knows of variable symbols, and what a statement changes of it: the SET symbols that are declared or set in it,
//! how many branches it may still take, its system variable symbols, and in a macro what its parameters and `&SYSLIST` are
//! worth.
//!
//! `Surroundings` tell an expression what each variable symbol stands for; the value of a global SET symbol is asked for.
//! SETx (`setting`), a declaration (`declaring`), ACTR (`counting`) and a branch (`branching`) change nothing by themselves:
//! they give a small `Change`, and `change` makes it. Each call gives exactly what its definition says; only want of memory
//! is free.
//!
//! It knows nothing of statements, of lists of statements, and of where the values of global SET symbols live. It follows the
//! HLASM Language Reference SC26-4940, "SET symbols", "Subscripted SET symbols", "System variable symbols", "ACTR
//! instruction".
#![tactic(auto)]

mod aim;
mod change;
mod deed;
mod knowledge;
mod meaning;
mod surroundings;
mod system;

pub use aim::Aim;
pub use call_sites;
pub use change::Change;
pub use deed::{Deed, Put, counting};
pub use knowledge::Knowledge;
pub use surroundings::{Surroundings, answered};
pub use system::SystemVariable;
