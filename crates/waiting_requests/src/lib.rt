//! The requests on symbols that wait until no program is queued, and what they are answered then (LSP 3.17, "Language
//! Features", "Cancellation Support").
//!
//! A request is added after those that wait (`Waiting::push`), removed and answered where the client cancels it
//! (`Waiting::cancel`), and answered with all the others where no program is queued (`Waiting::answer`). Each is answered from
//! what one program's latest assembly tells of names (`ProgramNames`): the program that the document is, or the first one that
//! touches it.
//!
//! It knows nothing of the queue and of Turns, of how an assembly comes to what it tells, and of frames. Its contract: the
//! requests that wait and the bodies that are written are exactly those of the definitions.
#![tactic(auto)]

mod answer;
mod bodies;
pub mod laws;
mod names;
mod request;
mod waiting;

pub use names::ProgramNames;
pub use request::{Question, Request};
pub use waiting::Waiting;
