//! A session of any size from one number: ten members, a program of so many calls of them, and ten edits of it.
//!
//! `bulk_lines` makes a library in memory and a session over it, opens the program, edits it ten times, makes a Turn behind each,
//! and answers the six lines that say what the assemblies came to. It asks no other library.
//!
//! Its one contract in words: the lines are those that `specs/Bulk` computes from fresh assemblies of the program's texts, whatever the
//! session keeps between its Turns.
//!
//! Within the crate, `shelf` has the library, whose calls have the answers that `specs/Shelf` says, and `running` leads the session
//! through the messages of `bulk_script`. What the session knows between them is in `specs/Inside`.
#![tactic(auto)]

mod running;
mod shelf;

pub use running::bulk_lines;
pub use session_core;
