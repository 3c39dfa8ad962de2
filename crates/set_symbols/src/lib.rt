//! SET symbols of one macro call or of open code: which are declared, of which type, and what they hold.
//!
//! Contracts see a table as the list of its symbols in the order of declaration, each with its type, whether it is
//! global, and a finite map from elements to the values that were set. Element 0 is the value without a subscript
//! (HLASM Language Reference SC26-4940, "SET symbols").
//!
//! It knows nothing of statements, expressions, parameters and where the values of globals live. Whether a symbol was
//! declared with a subscript is its caller's to know.
#![tactic(auto)]

mod fault;
mod laws;
mod symbol;
mod table;

pub use fault::SetFault;
pub use laws::{declared_symbols_stand, set_values_stand};
pub use symbol::Declared;
pub use table::{LAST_ELEMENT, SetTable};
