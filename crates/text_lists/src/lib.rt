//! The statements of texts by the places where they stand.
//!
//! `TextLists` takes the texts of paths, each once, and reads them; it lends the list of a path, and the statement that begins at a
//! place. Contracts see the list of the texts, each as its path and its statements. A statement that is lent has a place in the
//! text for each character of its fields. `DefinitionLists` keeps the statements of macro definitions by the places of their
//! prototypes.
//!
//! It knows nothing of what statements do, nor of which texts there are. It follows the HLASM Language Reference SC26-4940,
//! "Assembler language coding conventions".
#![tactic(auto)]

mod definitions;
mod list;
mod lists;

pub use definitions::DefinitionLists;
pub use lists::TextLists;
