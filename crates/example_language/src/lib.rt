//! A small macro language in code, to run the machine of `expansion_step` on, and a world in memory.
//!
//! The language is the one of the rows that `plain_expansion` works out (`specs/Example` there): lists of lines that say a
//! number or what the world's value is, set that value, branch, call and copy lists, return and finish. A `Program` fixes
//! the lists of a language. The world has one value and a count of calls.
//!
//! It knows nothing of HLASM, and no part of the language server stands on it.
#![tactic(auto)]

mod effects;
mod language;
mod lines;
mod values;
mod world;

pub use language::{ExampleLanguage, Program};
pub use lines::{Line, Listing};
pub use values::{Change, Knowledge, ListNumber, Question, Shown, Value};
pub use world::Cells;
