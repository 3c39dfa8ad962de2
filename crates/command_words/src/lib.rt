//! The words after the program's name, and the command that they ask for.
//!
//! The words are one command line of `clap`: two options, `budget` and `count`, and two positions. What that takes, and what
//! the options and positions are given by it, is clap's own; `specs/CommandLine` says what the command line is, and
//! `specs/Commands` what is asked for by what is given: which command, which of the options belong to it, and which numbers.
//! Help, the version, and whatever clap refuses is not a command.
//!
//! It knows nothing of what a command does.
#![tactic(auto)]

mod command;
mod command_line;
mod fault;
pub mod laws;
mod numbers;
mod reading;
mod usage;

pub use command::Command;
pub use fault::WordsFault;
pub use reading::read_words;
pub use usage::advice;
