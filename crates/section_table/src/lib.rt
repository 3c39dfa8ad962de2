//! The sections of an assembly: which there are, how far each has come, and which one statements go on in.
//!
//! A section begins when it is entered for the first time and goes on where it was left when it is entered again. Bytes are
//! taken in the current section on a boundary, or not at all where it would get too long.
//!
//! It knows nothing of statements, symbols and literals: a section is a name, empty for the unnamed one. Its contracts: what
//! each call makes of the list of sections is what the definitions say. It follows the HLASM Language Reference SC26-4940,
//! "Program sectioning", "CSECT instruction", "DSECT instruction", "START instruction", "ORG instruction".
#![tactic(auto)]

mod span;
mod table;

pub use span::Span;
pub use table::{Place, SectionTable};
