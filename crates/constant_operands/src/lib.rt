//! What an operand of DC or DS, or a literal after its equals sign, comes to once its factor and its length have numbers: how
//! many bytes it takes on which boundary, what a label on it means, and what is said of it.
//!
//! It knows nothing of symbols, statements and places: whoever lays out evaluates the expressions in parentheses and tells
//! their numbers. Its contracts: what is read of an operand is a function of its text (`ConstantOperand::read`), and what it
//! comes to is a function of what was read and of what is told (`ConstantOperand::measure`). It follows the HLASM Language
//! Reference SC26-4940, "DC instruction", "DS instruction", "Literals"; the bounds are this project's profile.
#![tactic(auto)]

mod label;
mod measure;
mod number;
mod operand;
mod room;
mod said;

pub use measure::Measure;
pub use number::{Told, ToldNumbers};
pub use operand::{ConstantOperand, ConstantUse};
pub use room::Extent;
