//! The occurrences of names that stand: of several at one place in a text the first in the order of processing.
//!
//! `Standing` takes occurrences as statements are processed, one after the other, and keeps the first of each place; so a
//! macro that is called a thousand times leaves no more of them than its text has. Contracts see the list of those that
//! stand, in the order of processing.
//!
//! It knows nothing of texts, statements and questions, nor of what an occurrence names. Its one contract: what is kept
//! after some occurrences is what the definition says of their list (`standing`). The rule is this project's own.
#![tactic(auto)]

pub mod laws;
mod place;
mod standing;

pub use standing::Standing;
