//! What a macro asks at its entry, and what it knows of variable symbols before its first statement.
//!
//! It asks for those of its system variables that its statements name, for all of them where a statement may copy a member when
//! the macro is called (`specs/Entries`); its parameters are bound to the operands of its call. What the answers say is fixed
//! for the whole call. Its first statement shows the parameters, and of the system variables those that its definition names
//! (`specs/Shown`).
//!
//! It knows nothing of statements' effects and of where answers live. It follows the HLASM Language Reference SC26-4940, "System
//! variable symbols", "Symbolic parameters".
#![tactic(auto)]

mod entry;
mod showing;
mod systems;

pub use entry::{bound_at_entry, entry_keys};
