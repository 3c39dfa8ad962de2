//! Which operands of a machine instruction are literals, and where a literal ends in its operand.
//!
//! An operand that begins with an equals sign is a literal. It is all of the operand where that is a constant with its values;
//! else a last pair of parentheses stands after it, which is an index or a length.
//!
//! It knows nothing of what a literal comes to, of pools and places. Its contract: what is a literal in an operand, and what
//! stands after it, is a function of the operand (`literal_operand`). It follows the HLASM Language Reference SC26-4940,
//! "Literals"; where a literal ends is this project's.
#![tactic(auto)]

mod literal;
mod pair;

pub use literal::{LiteralOperand, literal_operand};
