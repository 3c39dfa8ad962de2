//! What happens after a response.
use dap_messages::StopReason;

/// An event of the protocol that a session tells of.
#[derive(Clone, Copy, Debug, PartialEq, Eq)]
pub(crate) enum Event {
    /// The session takes breakpoints from now on.
    Initialized,
    /// The program is stopped.
    Stopped { reason: StopReason },
    /// The program has come to the end of its trace.
    Terminated,
}
