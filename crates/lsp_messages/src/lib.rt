//! The messages of the Language Server Protocol 3.17 that are read and written, as JSON values (JSON-RPC 2.0), and the
//! notification `hlasm/dap`, which carries messages of debuggers.
//!
//! `read_lsp` tells which message a value is, or the first reason why it is none; `is_response` tells an answer to a
//! request of ours, of which there are none. `LspOut::text` is the body of a message that is written, and `answer_text`
//! that of the reply to a request on symbols. `==` compares lists of reports, member by member, as they are shown. The crate knows nothing of frames, of the order in which messages may
//! come, of what a message does, or of what a debugger's message says.
//!
//! Its one contract in words: a value is read as the standard's shapes say, members in the order in which the shapes
//! name them, lists from the first element on, so that the first member that is missing or wrong is the one that is
//! named; and what is written is the compact text of a stated value, members in the order of the bytes of their names.
#![tactic(auto)]

mod answering;
mod incoming;
pub mod laws;
mod members;
mod outgoing;
mod parameters;
mod reading;
mod shapes;
mod writing;

pub use answering::answer_text;
pub use incoming::{ChangeKind, DebugMessage, FileChange, FileChanges, Head, Id, LspIn, Refusal};
pub use outgoing::{
    Diagnostic, Diagnostics, DocumentSymbol, DocumentSymbols, Location, Locations, LspOut,
    Relation, Relations, Span, SymbolAnswer, SymbolKind,
};
pub use reading::{is_response, read_lsp};
pub use writing::initialize_result;
