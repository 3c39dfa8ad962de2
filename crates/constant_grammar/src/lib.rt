//! How an operand of DC and DS, and a literal after its equals sign, is read: duplication factor, type, explicit length and
//! values.
//!
//! It knows nothing of statements, of symbols and their values, and of bytes. Its contracts: what is read of an operand is a
//! function of its text (`Constant::read`), and nothing exactly if it is not written as a constant is; bounds of numbers
//! and what stands in quotes are for others to judge. It follows the HLASM Language Reference SC26-4940, "DC instruction",
//! "Duplication factor", "Modifiers", "Nominal value".
#![tactic(auto)]

mod amount;
mod constant;
mod digits;
mod element;
mod letters;
mod nominal;
mod tree;

pub use amount::Amount;
pub use constant::Constant;
pub use digits::digits_in;
pub use element::{Element, read_formula};
pub use nominal::Nominal;
pub use tree::Formula;
