//! The location counter of a section: where the next byte goes, and how long the section is.
//!
//! Bytes are taken on a boundary, or not at all where the section would get too long; ORG moves the counter to a place or to
//! the end. It knows nothing of statements, names of sections and symbols. It follows the HLASM Language Reference SC26-4940,
//! "Location counter", "ORG instruction", "DS instruction".
#![tactic(auto)]

mod boundary;
mod counter;

pub use counter::{Counter, MOST_BYTES};
