//! Debug sessions: what each message of a debugger's client comes to (Debug Adapter Protocol), but for the assembly of the
//! program that is launched.
//!
//! `DebugSessions` has up to eight sessions, each known by a number. A message is to the session of a number:
//! `DebugSessions::answer` takes it as it was read and answers what is written for it. A launch needs the trace of a program;
//! `wanted_program` tells of which path, so that its caller can assemble it and hand it in (`Launched`). The session owns that
//! trace, so whatever is assembled later changes none of its stops.
//!
//! Its one contract in words: the sessions after a message and the messages that are written are those of the definition
//! (`answer`), of the points of the launch's trace alone; a message that is refused changes nothing but how many messages its
//! session has sent. It knows nothing of the editor's messages, of documents and of how a program is assembled.
#![tactic(auto)]

mod breakpoints;
mod debugger;
mod effects;
mod event;
mod launch;
mod launched;
pub mod laws;
mod numbering;
mod refusals;
mod replies;
mod rows;
mod sessions;
mod shown;
mod walking;
mod wants;

pub use launched::Launched;
pub use replies::Answer;
pub use sessions::DebugSessions;
