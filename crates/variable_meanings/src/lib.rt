//! What variable symbols mean in a call of a macro, or in open code, as its statements are processed: where a symbol is
//! known, and what it is.
//!
//! A parameter and a system variable have their meaning from the entry on, any other symbol from the statement on that declares
//! it, or sets it first without a declaration; a meaning stands for good. All of this is a function of the points of a trace
//! (`call_before`). At the places where a statement itself gives a meaning the symbol has it already (`meaning_at`).
//!
//! It knows nothing of values and of texts. It follows the HLASM Language Reference SC26-4940, "Symbolic parameters", "System
//! variable symbols", "SET symbols".
#![tactic(auto)]

mod call;
mod known;
pub mod laws;
mod meaning;
mod place;

pub use call::CallVariables;
pub use meaning::Meaning;
