//! What a label means to attribute references, by the operation that it stands on and its operands.
//!
//! It knows nothing of statements, of values and of where labels are kept. Its contracts: the type letter and the length of
//! a label (`attributes`), whether a label on an operation defines a symbol at all (`defines`), and what the symbols mean
//! that EXTRN and WXTRN name (`external`). Everyone who needs one of these asks here. It follows the HLASM Language
//! Reference SC26-4940, "Attribute references", "Type attribute (T')", "Length attribute (L')"; the letters of each operation
//! are this project's profile.
#![tactic(auto)]

mod constants;
mod equate;
mod labels;
mod meaning;

pub use labels::{attributes, external};
pub use meaning::{OpMeaning, defines};
