//! Where names stand in a statement as it is written: its variable and sequence symbols, its label, its operation, the
//! ordinary symbols that its operation reads in the operands, and the member of a COPY.
//!
//! It knows nothing of what a name means, of values, and of statements before and after. What an operation reads of its
//! operands is told by the operation after substitution (`operand_use`); whether a symbol has a meaning, defines, or is defined is for
//! others to say. Its contracts: the names of a statement are a function of its fields (`names_in`), and a name stands where
//! its first character stands and ends at column 71 at the latest (`span_of`). It follows the HLASM Language Reference SC26-4940,
//! "Variable symbols", "Sequence symbols", "Symbols", "Attributes", "DC instruction" and "Literals".
#![tactic(auto)]

mod constant;
mod name;
mod operand;
mod scan;
mod spans;
mod statement;
mod text;
mod uses;

pub use name::{NameKind, WrittenName, WrittenNames};
pub use spans::{Span, span_of};
pub use statement::names_in;
pub use uses::{OperandUse, operand_use};
