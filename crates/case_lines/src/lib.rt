//! Tables of cases, a line each: what is read, ` => ` and the answer that is wanted; what is read may have several fields,
//! with ` | ` between them. `compare_tables` reads the cases of one table from standard input, prints each whose answer
//! differs, and at the end `N passed, M failed`.
//!
//! A program says what its tables are by the trait `CaseTable`, and what each answers. tests/cases/README.md says how
//! characters are written that would be hard to see. The crate promises nothing of an answer: what the crates promise
//! stands on their own functions.
#![tactic(auto)]

mod cases;
mod compare;
mod escapes;

pub use cases::CaseTable;
pub use compare::compare_tables;
