//! Commands.

/// What the words ask for.
#[derive(Clone, Copy, Debug, PartialEq, Eq)]
pub enum Command {
    /// The session, over standard input and output, where a program may be given so many statements.
    Serve { budget: u32 },

    /// A session of its own, with a program of so many calls.
    Bulk { count: u32 },
}
