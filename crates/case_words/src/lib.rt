//! Words of cases of conditional assembly: what surrounds an expression or a statement, and how values, notes and what is
//! asked are written down. tests/cases/README.md says what each word means. The crate promises nothing of them but what
//! the trait `Lookups` asks of surroundings.
#![tactic(auto)]

mod surroundings;
mod values;

pub use surroundings::Surroundings;
pub use values::{in_full, key, noted, value};
