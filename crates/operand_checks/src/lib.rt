//! What is said of the operands of machine instructions: by their symbols, the ranges of USING, and the places of literals.
//!
//! An operand is judged by its kind, as its instruction has it: a register, a mask or an immediate value by its value, an address
//! by its displacement, its index or length and its base, a target by its place. An address without base must stand in a range.
//!
//! It knows nothing of statements before and after, of how ranges begin and end, and of pools. Its contracts: what is said of
//! an instruction (`machine_notes`) and of the addresses in a constant (`address_notes`) is a function of what is known where it
//! stands. It follows the HLASM Language Reference SC26-4940, "Machine instruction statements", "Addresses", "USING instruction".
#![tactic(auto)]

mod addresses;
mod displacements;
mod expressions;
mod literals;
mod machine;
mod setting;

pub use literals::address_notes;
pub use machine::machine_notes;
pub use setting::Setting;
