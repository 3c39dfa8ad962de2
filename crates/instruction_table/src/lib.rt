//! The operations that are built in: the machine instructions with their formats, lengths and operand kinds, and the
//! assembler's own operations by what they are for.
//!
//! It knows nothing of statements, operands or macros, and nobody else has a list of operations. Its one contract: what
//! a name means as an operation is what the public table and the lists of the specification say (`operation`, `find`).
#![tactic(auto)]

mod encodings;
mod format;
mod meaning;
mod others;
mod rows;
mod table;

pub use encodings::{Encoding, Kind};
pub use format::{Format, encoding, length, operands, optional};
pub use meaning::Operation;
pub use table::{find, operation};
