//! How a session stands to its client.

/// What a message came to.
#[derive(Clone, Copy, Debug, PartialEq, Eq)]
pub enum Connection {
    /// The session goes on.
    Running,
    /// `exit` came: after `shutdown` was answered, or before.
    Exit(bool),
}
