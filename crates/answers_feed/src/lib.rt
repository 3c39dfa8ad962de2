//! The list of diagnostics of a program, as the editor shows it (LSP 3.17, "PublishDiagnostics Notification").
//!
//! `published` makes the list of the notes of a program: where each note is shown, its code and severity, and as related
//! places the macros and members in which it arose. It asks the document store for the texts that are present, and knows
//! nothing of the assembly that made the notes.
#![tactic(auto)]

mod diagnostics;
pub mod laws;
mod shelf;
mod sites;
mod wording;

pub use diagnostics::published;
