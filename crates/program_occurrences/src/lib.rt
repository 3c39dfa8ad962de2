//! The occurrences of names in a program that was assembled: ordinary, variable and sequence symbols, macros and members, where they
//! stand, what they name and where they are defined.
//!
//! `occurrences` goes through the points of an assembly once. A statement that is processed gives the occurrences of its names as
//! they are written, a macro that is called those of its prototype, and a member that is copied its beginning; of several at one
//! place the first stands. Its contract: the occurrences are a function of the points, of the texts, of the statements of
//! definitions and of what is found under the names of members (`specs/Occurrences`).
//!
//! It knows nothing of how points come about, of values and of questions. It follows the HLASM Language Reference SC26-4940; which
//! names count is this project's own.
#![tactic(auto)]

mod counting;
mod known;
mod label;
mod operation;
mod point;
mod prototype;
mod walk;

pub use operation::is_entered;
pub use walk::occurrences;
