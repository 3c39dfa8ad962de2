//! How the operand field of a statement falls into operands, and a sublist into elements.
//!
//! It knows nothing of operations, expressions or values. Its contracts: the operands of a field are the texts between its
//! commas outside quotes and parentheses (`split_operands`), and those of a sublist the texts between its own
//! (`split_sublist`). It follows the HLASM Language Reference SC26-4940, "Operand entry" and "Sublists in operands".
#![tactic(auto)]

mod split;
mod split_elements;

pub use hlasm_statements;
pub use split::{Operands, split_operands};
pub use split_elements::split_sublist;
