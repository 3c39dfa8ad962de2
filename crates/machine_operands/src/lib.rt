//! The operands of machine instructions as they are written: what is read of one, by its kind.
//!
//! An operand is a value, an address or a target. A value and a target are expressions. An address is a displacement, after
//! which an index, a length or a base may stand in parentheses. A literal may stand as a displacement, and as a target where
//! its instruction lets it.
//!
//! It knows nothing of what an operand comes to, of symbols and places. Its contract: what is read of an operand, or how many
//! of its characters a right one of its kind begins with, is a function of the kind and the text (`MachineOperand::read`). It
//! follows the HLASM Language Reference SC26-4940, "Operand entries", "Addresses", "Literals".
#![tactic(auto)]

mod address;
mod form;
mod operand;
mod parts;
mod reading;
mod text;

pub use form::{AddressForm, OperandForm, form_of};
pub use operand::{Address, Displacement, MachineOperand, Written, begins_literal, read_term};
