//! What T' and L' of a symbol mean that no statement has defined yet, by the place of a statement of open code among those
//! that are processed.
//!
//! The statements of a text are numbered with its comments and blank statements, but open code is processed without them.
//! Its one contract: `Foresight` answers for each name and each place what the definition *lookahead* finds after the
//! statement that is processed there. It knows nothing of values, of macro calls and of what was defined so far.
#![tactic(auto)]

mod foresight;
mod numbers;

pub use foresight::Foresight;
