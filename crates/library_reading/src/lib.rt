//! What a session asks of its library of files, and what comes of the answers: the configuration, its library folders, and the
//! members in them.
//!
//! `read_configuration` reads the two files of a root and then the members of all library folders, `read_member` one member
//! again. Each says which calls it made of the library, and what comes of their answers in the store of documents and in the
//! log: for the calls that are to come there is one definition of what is asked next and of what comes of it, and a call of
//! this crate makes these and no others. A library that refuses a call ends nothing: that is a line of the log, or a member
//! that cannot be read.
//!
//! It knows nothing of messages, programs and statements, and does not say which member a program gets.
#![tactic(auto)]

mod answers;
mod asking;
mod folders;
mod laws;
mod logs;
mod members;
mod reading;
mod rows;

pub use laws::{order_of_names_is_unique, readings_go_by_their_calls};
pub use logs::Logs;
pub use members::{drop_path, read_member};
pub use reading::{groups_path, programs_path, read_configuration};
