//! Which base register and displacement an address has: the ranges that USING begins and DROP ends.
//!
//! It knows nothing of statements, operands and symbols: whoever reads a USING hands in a value and registers. Its
//! contract, *cover*: among all registers whose range has the address, the one of the least displacement, and among
//! equal ones the greatest register (HLASM Language Reference SC26-4940, "USING instruction", "DROP instruction").
#![tactic(auto)]

mod range;
mod ranges;

pub use range::{PAGE, Range};
pub use ranges::{REGISTERS, Ranges};
