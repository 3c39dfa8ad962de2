//! What is called, what is answered to keys, and the rules on keys: the plain values between the machine that expands
//! open code and macros and the world that answers it.
//!
//! Contracts see a call and an answer as trees of numbers (`kept_values`); `specs/Calls` reads a call back from its tree. A
//! call of a macro holds the macro's definition and what its name entry and its operands come to; what is answered to the name
//! of an operation is the macro that it is, and what is answered to the name of a member is its path and its text.
//! The rules (`specs/Rules`) say which keys' answers counting and entering calls may change, which keys a statement may
//! give an answer, and how an answer within a nested call is taken back to the start of its caller.
//!
//! It knows nothing of how statements are read, of what a call processes, and of where answers live.
#![tactic(auto)]

mod call_site;
mod known;
mod laws;
mod number;
mod own_definition;
mod rules;

pub use call_site::{CallSite, MacroCall};
pub use known::{Known, KnownMacro, KnownMember};
pub use laws::calls_are_read_back;
pub use macro_library;
pub use rules::{is_moving, is_writable, rebased};
