//! The types of constants as a table: how each is spelled, what it says to attribute references, how long a constant of it
//! is, on which boundary it stands, which explicit lengths it may have, and what its values are.
//!
//! It knows nothing of operands, statements and places: whoever reads a constant or lays one out asks here, so that the
//! table stands once. Its one contract: each answer is that of the table in the specification. It follows the HLASM
//! Language Reference SC26-4940, "DC instruction" and "Summary of constants"; which types there are, and their bounds, are
//! this project's profile.
#![tactic(auto)]

mod constant_type;
mod lengths;

pub use constant_type::{ConstantType, ValueKind};
pub use lengths::Purpose;
