//! How statements define ordinary symbols: a label with a value, an external symbol, EQU; and what is said of it.
//!
//! A name that is taken keeps its first definition, and that is said. EQU defines its symbol with a value where each symbol of
//! its expression has one, and else defers it.
//!
//! It knows nothing of operations, places and sections beyond values. Its contracts: which symbols there are after a
//! definition, and what is said of it, is what the definitions say (`define`, `equate`). It follows the HLASM Language
//! Reference SC26-4940, "Symbols", "EQU instruction".
#![tactic(auto)]

mod defining;
mod equating;

pub use defining::define;
pub use equating::{Equating, equate, equate_unread};
