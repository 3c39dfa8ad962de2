//! The language server as one call: bytes in, bytes out.
//!
//! `run` takes the words of the command line, a source, a sink and a library of files, and answers a `Status`. Its
//! contract is the headline: where source and sink tell their bytes and the library its calls, the bytes written and the
//! status are those of the plain session for the bytes taken, however they were cut, and for these calls with their
//! answers; want of memory or a fault of the source or the sink only ends it after a prefix. Messages follow LSP 3.17 over
//! JSON-RPC 2.0.
//!
//! It knows nothing of terminals, processes and file systems: the program `hlasm_ls` hands in the real ones. Within the crate,
//! `feeding` takes the next body from the source, `sending` has the session hear it and puts what is written into the
//! sink, and `serving` joins them. What words ask for is `command_words`'s, and what a message does `session_core`'s.
#![tactic(auto)]

mod bulk;
mod feeding;
pub mod laws;
mod sending;
mod serving;
mod status;

pub use serving::run;
pub use status::Status;
