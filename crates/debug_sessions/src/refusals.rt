//! The reasons for which a request is refused.
ghost use Rattle.std.specs.Prelude.{◌≡◌};
ghost use Rattle.debug_sessions.specs.Refusals.{told, first_of};

/// Why a request is refused.
#[derive(Clone, Copy, Debug, PartialEq, Eq)]
pub(crate) enum Refusal {
    /// The command is not known.
    UnknownCommand,
    /// The number is not in use.
    NoSession,
    /// Eight other sessions are in use.
    TooManySessions,
    /// The number is in use.
    AlreadyInitialized,
    /// An argument is missing, of a wrong kind, or names nothing that is shown at this stop.
    BadArguments,
    /// The session has a launch.
    AlreadyLaunched,
    /// The path is that of no open program.
    NoProgram,
    /// The session has no launch.
    NotLaunched,
    /// The launch has begun.
    AlreadyStarted,
    /// The program is not stopped.
    NotStopped,
}

impl Refusal {
    /// The reason as it is told.
    pub(crate) fn told(self) -> &'static str
        ensures { result.now ≡ told self }
    {
        match self {
            Refusal::UnknownCommand => "UnknownCommand",
            Refusal::NoSession => "NoSession",
            Refusal::TooManySessions => "TooManySessions",
            Refusal::AlreadyInitialized => "AlreadyInitialized",
            Refusal::BadArguments => "BadArguments",
            Refusal::AlreadyLaunched => "AlreadyLaunched",
            Refusal::NoProgram => "NoProgram",
            Refusal::NotLaunched => "NotLaunched",
            Refusal::AlreadyStarted => "AlreadyStarted",
            Refusal::NotStopped => "NotStopped",
        }
    }
}

/// The first reason that there is.
pub(crate) fn first_of(reasons: &[Option<Refusal>]) -> Option<Refusal>
    ensures { result ≡ first_of reasons.now }
{
    for reason in reasons {
        if let Some(why) = reason {
            return Some(*why);
        }
    }
    None
}
