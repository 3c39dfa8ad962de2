//! What an operation is for.
ghost use Rattle.std.specs.Prelude.{◌≡◌};

use crate::Format;

/// What an operation is for. Only one that is `Machine` has a format.
#[derive(Clone, Copy, Debug, PartialEq, Eq)]
pub enum Operation {
    /// Conditional assembly: it has its effect while statements are processed, and is not generated.
    Conditional,
    /// An ordinary assembler operation.
    Ordinary,
    /// COPY and MNOTE: in both lists.
    Both,
    /// Accepted, and doing nothing; ordinary too.
    Silent,
    /// Left out of this profile.
    LeftOut,
    /// A machine instruction.
    Machine(Format),
    /// None that is built in.
    Unknown,
}

impl Operation {
    ghost use Rattle.instruction_table.specs.Others.{format_in};

    /// The format of a machine instruction.
    pub fn format(self) -> Option<Format>
        ensures { result ≡ format_in self }
    {
        match self {
            Operation::Machine(format) => Some(format),
            _ => None,
        }
    }
}
