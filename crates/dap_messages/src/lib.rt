//! The messages of the Debug Adapter Protocol that are read and written, as JSON values.
//!
//! `read_dap` tells which request of a debugger's client a value is, or the first reason why it is none. `DapOut::value` is
//! a message that is written, and the functions of `bodies` make what it carries: `DapOut::value` and they have no number
//! with a fraction, so the text of each is known byte for byte. The crate knows nothing of traces, of sessions and their
//! numbers, of which request may come when, or of what one does.
//!
//! Its one contract in words: a value is read as the protocol's shapes say, each argument as the kind that its request wants,
//! and is else no debug message, an unknown command, or a command with wrong arguments, in this order; and what is written is
//! a stated value, members in the order of the bytes of their names.
#![tactic(auto)]

mod arguments;
mod bodies;
mod commands;
mod members;
mod outgoing;
mod reading;
mod requests;

pub use bodies::{
    StackFrame, StopReason, Variable, breakpoints_body, capabilities_body, continued_body,
    scopes_body, stack_body, stopped_body, threads_body, variables_body,
};
pub use outgoing::DapOut;
pub use reading::read_dap;
pub use requests::{BreakLines, DapCommand, DapHead, DapIn, DapRefusal};
