//! What the fields of a statement of conditional assembly say, before anything has a value: a field as plain characters and
//! variable symbols (`Template::read`), declarations of SET symbols (`declarations`), where AGO branches to (`ago`), and
//! where the operand field of a generated statement ends (`ended`). The modules below are the parts of which these are made,
//! for whoever reads other fields.
//!
//! It knows nothing of values, of operations and of what a statement does. Each call gives exactly what its definition says,
//! or, where a text cannot be read, `At` with how far some right text begins with it; only want of memory is free. It
//! follows the HLASM Language Reference SC26-4940, "Variable symbols", "Subscripted SET symbols", "Concatenating symbols and
//! characters", "Sequence symbols", "GBLA, GBLB, and GBLC instructions", "LCLA, LCLB, and LCLC instructions", "AIF
//! instruction", "AGO instruction", "Computed AGO instruction", "Operand entry".
#![tactic(auto)]

pub mod branch;
pub mod character;
mod declaration;
mod ending;
pub mod front;
pub mod place;
pub mod sequence;
pub mod template;

pub use branch::{Goto, Selector, ago};
pub use declaration::declarations;
pub use ending::ended;
pub use operand_grammar;
pub use template::{Piece, Template};
