//! Macro definitions: where one ends as it is written, its prototype, its statements with those of copied members in place,
//! and the system variables that they name.
//!
//! `read_definition` reads the definition that begins at a statement MACRO of a list, or gives its first fault, or asks for
//! the member that the COPY met next names. A `Def` shares the lines that it is made of, each of which was read once; `same`
//! tells two apart by a number of their contents first. `behind_definition` says where processing goes on after a
//! definition as it is written, and `defining_at` whether a member defines an operation.
//!
//! A definition can be kept as a value (`KeptDefinition`): it is what a world answers to the name of an operation, and what a
//! call is made of. Contracts see it as the tree of numbers of what it says (`specs/Trees`), and it is read back from that tree
//! (`contents_are_read_back`). Its number is that of its content, so that two are told apart without reading them. A copy
//! shares the definition.
//!
//! It knows nothing of calls, worlds and files: what members are is told to it. It follows the HLASM Language Reference
//! SC26-4940, "Format of a macro definition", "Macro prototype statement", "Inner macro definitions", "COPY instruction",
//! "System variable symbols".
#![tactic(auto)]

mod content;
mod copying;
mod definition;
mod extent;
mod fault;
mod kept_definition;
mod later;
mod laws;
mod line;
mod member;
mod survey;
mod variables;

pub use definition::{Def, read_definition};
pub use extent::{behind_definition, defining_at, macro_at};
pub use fault::DefFault;
pub use kept_definition::KeptDefinition;
pub use laws::contents_are_read_back;
pub use member::{Member, MemberFile, Members};
pub use statement_listing;
pub use variables::SystemVariables;
