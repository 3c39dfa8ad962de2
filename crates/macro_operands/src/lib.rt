//! What the name entry and the operands of a macro call come to, in one call (`call_operands`): the operand field is split as
//! it is written, then each entry gets the values of its variable symbols, and is cut after 1,024 characters.
//!
//! It knows nothing of macro definitions: which operand gives which parameter a value, whoever binds them knows. What surrounds
//! a statement it is told by `Lookups`. The call gives exactly what its definition says, or the key that is needed and was not
//! answered; only want of memory is free. It follows the HLASM Language Reference SC26-4940, "Macro instruction format",
//! "Name entry", "Operand entry", "Values in operands", "Variable symbols".
#![tactic(auto)]

mod call;
mod laws;
mod value;

pub use call::{CallOperands, CallValues, call_operands};
pub use laws::{calls_are_asked, calls_stay};
