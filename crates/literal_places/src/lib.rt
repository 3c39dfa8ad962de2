//! The literals of an assembly: those of the current pool, and where those of earlier pools stand.
//!
//! A literal that is used joins the current pool. When a pool is closed it has a place, or none where it did not fit, and another
//! pool begins.
//!
//! It knows nothing of statements and of how a pool gets its place. Its contracts: which literals there are after each call,
//! and where one that was used stands, is what the definitions say. It follows the HLASM Language Reference SC26-4940,
//! "Literals", "Literal pool".
#![tactic(auto)]

mod literals;

pub use literals::{LiteralUse, Literals};
