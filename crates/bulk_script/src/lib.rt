//! What a session from a number is told and what it comes to: the texts of ten members and of a program of so many calls of them, the
//! messages that open it and edit it ten times, and the lines that say what its assemblies came to.
//!
//! Everything here is a function of numbers (`specs/`). It knows nothing of sessions, of libraries and of what an assembly is.
#![tactic(auto)]

mod lines;
mod messages;
mod texts;

pub use lines::{Outcome, lines_of};
pub use messages::{PROGRAM, changed, initialize, initialized, opened};
pub use texts::{EDITS, MEMBERS, Place, edited_place, member_name, member_text, program_text};
