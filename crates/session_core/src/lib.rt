//! The session of an editor: what one message does, and what one Turn publishes.
//!
//! `Session::message` takes the body of a message, `Session::turn` makes the list of the first queued program, and
//! `take_output` hands out what was written, each body in its frame. Messages are those of LSP 3.17 over JSON-RPC 2.0.
//!
//! Its one contract in words: from any state, in any order, and whatever the library answers, the new state, the calls that
//! are made of the library and the bodies written are those of the definition, `message` or `turn`, and nothing else has
//! changed; where memory runs out nothing is written, and the session answers no more. It knows nothing of the source and
//! the sink, of when a Turn is made, and of what a library is.
//!
//! Within the crate, `receiving` goes from a body to what it does: `lifecycle` begins and ends the session, `requests`,
//! `notifications` (documents) and `watching` (files) take the others, `settling` takes leave of documents that are no
//! programs any more, `debugging` takes debug messages, `symbols` takes requests on symbols and answers them, and `replies` has
//! the bodies written. `session_state` has the state and its Turns, `programs` the queue, the documents by number and what was
//! published, `lists` the list of a program, its trace and what it tells of names, and `figures` its figures.
#![tactic(auto)]

mod bodies;
mod connection;
mod debugging;
mod fault;
mod figures;
pub mod laws;
mod lifecycle;
mod lists;
mod notifications;
mod programs;
mod receiving;
mod replies;
mod requests;
mod session;
mod session_state;
mod settling;
mod state;
mod symbols;
mod watching;

pub use connection::Connection;
pub use fault::SessionFault;
pub use program_names::program_assembly::{Figures, Summary};
pub use session::Session;
