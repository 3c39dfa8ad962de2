//! How a run ends.
ghost use Rattle.std.specs.Prelude.{◌≡◌};
ghost use Rattle.hlasm_server.specs.Status.{number_of};

use std::fmt;

/// How a run ended. Its number is the status that the process ends with.
#[derive(Clone, Copy, Debug, PartialEq, Eq)]
pub enum Status {
    /// `exit` came after `shutdown` was answered, or the lines of `bulk` are written.
    Done,
    /// `exit` came before `shutdown` was answered.
    NoShutdown,
    /// The input ended before `exit`.
    InputEnded,
    /// There was no memory for the next step.
    OutOfMemory,
    /// The source refused a call.
    ReadFault,
    /// The sink refused a call.
    WriteFault,
    /// The first so many bytes of the input begin no sequence of frames, and fewer do.
    BadFrame { at: u64 },
    /// The words are no command.
    BadWords,
    /// 2^40 bytes were taken, with neither an `exit` nor a byte outside the frames among them.
    InputTooLong,
}

impl Status {
    /// The exit status of the process.
    pub fn number(self) -> u8
        ensures { result ≡ number_of self }
    {
        match self {
            Status::Done => 0,
            Status::NoShutdown => 1,
            Status::InputEnded => 2,
            Status::OutOfMemory => 3,
            Status::BadFrame { .. } => 4,
            Status::ReadFault => 5,
            Status::WriteFault => 6,
            Status::BadWords => 7,
            Status::InputTooLong => 8,
        }
    }
}

impl fmt::Display for Status {
    fn fmt<W: fmt::Write>(&self, f: &mut fmt::Formatter<W>) -> fmt::Result {
        match self {
            Status::Done => write!(f, "Done"),
            Status::NoShutdown => write!(f, "NoShutdown"),
            Status::InputEnded => write!(f, "InputEnded"),
            Status::OutOfMemory => write!(f, "OutOfMemory"),
            Status::ReadFault => write!(f, "ReadFault"),
            Status::WriteFault => write!(f, "WriteFault"),
            Status::BadFrame { at } => write!(f, "BadFrame at {at}"),
            Status::BadWords => write!(f, "BadWords"),
            Status::InputTooLong => write!(f, "InputTooLong"),
        }
    }
}
