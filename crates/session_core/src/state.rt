//! What a session knows between two events.
use hl_base::PathId;
use lsp_messages::Diagnostics;

/// How far the session has come.
#[derive(Clone, Copy, Debug, PartialEq, Eq)]
pub(crate) enum Stage {
    /// Nothing was answered yet.
    Fresh,
    /// `initialize` was answered.
    Active,
    /// `shutdown` was answered.
    Closing,
    /// `exit` came: after `shutdown` was answered, or before.
    Ended { closed: bool },
}

/// What was last published of a program: its list, and the version of the text that it is of.
#[derive(Drop)]
pub(crate) struct LastList {
    pub(crate) path: PathId,
    pub(crate) version: i32,
    pub(crate) list: Diagnostics,
}
