//! The operand field of a generated statement, split into its operands as `operand_list` has it, at less cost: where no comma stands
//! behind the first apostrophe of a field, and each of its characters is ASCII, as in most fields, its bytes alone tell where it is to
//! be cut, and what stands behind that apostrophe is all of one operand.
//!
//! It knows nothing of operations, expressions or values. Its contract: the operands of a field are the texts between its commas
//! outside quotes and parentheses (`split_field`), as everywhere.
#![tactic(auto)]

mod cutting;
mod split;
mod state;

pub use split::split_field;
