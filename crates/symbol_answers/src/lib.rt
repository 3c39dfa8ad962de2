//! The answers to questions on the symbols of a text: where a symbol is defined and named, what is said of it, and which
//! symbols a document defines (LSP 3.17, "Goto Definition Request", "Find References Request", "Hover Request", "Document
//! Symbols Request").
//!
//! A question is a path and a position. It means the occurrence that holds the column there; `definition`, `references` and
//! `hover` say what is to be shown of that, and nothing where no occurrence holds it. `document_symbols` goes by the symbols
//! alone. What names, values and sections there are is handed in, and texts are asked of the document store.
//!
//! It knows nothing of statements, assemblies and sessions: not where occurrences come from, nor which of several programs is
//! asked. Its contract: each answer is exactly what the definition of its name says.
#![tactic(auto)]

mod answers;
mod entity;
mod kept_site;
pub mod laws;
mod place;
mod question;
mod spots;
mod symbols;
mod wording;

pub use answers::{definition, document_symbols, hover, references};
