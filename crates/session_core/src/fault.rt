//! Why a session answers nothing more.
use thiserror::Error;

/// Why an event was not taken in.
#[derive(Clone, Copy, Debug, PartialEq, Eq, Error)]
pub enum SessionFault {
    /// An earlier event met want of memory.
    #[error("the session is spent")]
    Spent,

    /// There was no memory for the event: nothing was added to the output, and the session is spent.
    #[error("out of memory")]
    OutOfMemory,
}
