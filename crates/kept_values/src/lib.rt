//! What may be kept and compared: the trait `Kept`, and the keys, answers, names and texts that meet it.
//!
//! Contracts see a kept value as a tree of numbers (`specs/Trees`). `same` tells whether two values have one tree,
//! `number` is a number that values with one tree share, and `copy` gives a value with the same tree. The trees of
//! names, texts, keys and answers are one exactly if the values are one (module `laws`).
//!
//! It knows nothing of machines, worlds and macros, and of what a key asks.
#![tactic(auto)]

mod answer;
mod kept;
mod key;
mod laws;
mod number;
mod text;

pub use kept::Kept;
pub use laws::codes_are_values;
