//! Texts under numbers: each text is held once, and its owners are counted.
//!
//! Contracts see the pool as a finite map from the live numbers to what is held of each, the characters and the count
//! of owners. Equal numbers of live texts are equal texts and equal texts have equal numbers, so callers compare
//! numbers. A number is free again with its last owner, and may be given out again for another text. Texts are told apart
//! by a hash before they are compared.
//!
//! `Present` is the bound for who has the members of an assembly, whose texts are live in a pool.
//!
//! It knows nothing of documents, files and paths: an owner is whoever asked for the text. A text has at most 4 MiB in
//! UTF-8.
#![tactic(auto)]

mod entry;
mod fault;
mod laws;
mod pool;
mod present;
mod starts;

pub use fault::PoolFault;
pub use laws::{freed_numbers_are_free, interned_texts_stand};
pub use pool::{LONGEST_TEXT, TextPool, live_texts_differ};
pub use present::Present;
