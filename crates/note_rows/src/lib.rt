//! What can be reported of a statement: each note's code, severity and text, in one place.
//!
//! A row is one kind of note, with the name or number that its text speaks of. Its note has exactly the code, the
//! severity and the text of the table (`specs/Table.antt`), and the stack that it is given. Whoever reports builds its
//! notes here, and no other crate has a text of a note.
//!
//! It knows nothing of when a note comes, nor of the order of notes: that is for those who report. The codes and texts are
//! this project's own; the severities are those of the Language Server Protocol 3.17, `DiagnosticSeverity`.
#![tactic(auto)]

mod building;
mod row;
mod wording;

pub use building::{note, stands_at_start};
pub use row::Row;
