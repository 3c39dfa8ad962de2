//! The values of expressions of conditional assembly, with the notes that tell an author what went wrong.
//!
//! `eval_a`, `eval_b` and `eval_c` give the value of an expression and its notes, in 32 bits with sign, operands from left to
//! right and both sides always; or, in `asked`, the first key whose answer is needed and was not given. An evaluation knows
//! its surroundings by `Lookups` alone; whoever asks for it begins it again with one more answer. The modules below are the
//! parts of which values are made, each telling an `Outcome`, for whoever evaluates more than one expression.
//!
//! It knows nothing of statements and of where values live. It follows the HLASM Language Reference SC26-4940, "Arithmetic
//! (SETA) expressions", "Logical (SETB) expressions", "Character (SETC) expressions", "Data attributes".
#![tactic(auto)]

pub mod arithmetic;
pub mod characters;
pub mod evaluate;
mod evaluated;
mod laws;
mod lookups;
mod numbers;
mod stop;
pub mod symbol;
pub mod term;
mod trouble;
pub mod variable;

pub use evaluated::{Evaluated, eval_a, eval_b, eval_c};
pub use laws::{more_answers_change_nothing, restarts_end, values_are_asked};
pub use lookups::{Found, Lookups};
pub use numbers::Numbers;
pub use stop::Stop;
pub use trouble::note;
