//! What is read: the requests of a debugger's client, and why a value is none.
ghost use Rattle.std.specs.Prelude.{◌≡◌, [], ◌∷◌, ◌++◌, OnOk, OnErr};

use hl_base::{OutOfMemory, Text};
use std::alloc::Global;
use std::marker::Model;
use thiserror::Error;

/// A request, by the number that its client gave it.
#[derive(Debug, Drop)]
pub struct DapIn {
    pub seq: i32,
    pub command: DapCommand,
}

/// What a client asks (Debug Adapter Protocol, "Requests"). Paths are as they came; a frame and a reference are those of
/// an earlier answer.
#[derive(Debug, Drop)]
pub enum DapCommand {
    Initialize,
    Launch { program: Text, stop_on_entry: bool },
    SetBreakpoints { path: Text, lines: BreakLines },
    ConfigurationDone,
    Threads,
    StackTrace,
    Scopes { frame: i32 },
    Variables { reference: i32 },
    Next,
    StepIn,
    StepOut,
    Continue,
    Disconnect,
}

/// What a request says of itself, whatever its arguments are.
#[derive(Debug, Drop)]
pub struct DapHead {
    pub seq: i32,
    pub command: Text,
}

/// Why a value is no request that is understood.
#[derive(Debug, Drop, Error)]
pub enum DapRefusal {
    /// It is no request of the protocol.
    #[error("no debug message")]
    NotDap,

    /// There is no such command.
    #[error("unknown command")]
    UnknownCommand(DapHead),

    /// An argument is missing or of a wrong kind.
    #[error("bad arguments")]
    BadArguments(DapHead),

    /// There was no memory for the request or its refusal.
    #[error("out of memory")]
    OutOfMemory,
}

impl From<OutOfMemory> for DapRefusal {
    ghost use Rattle.dap_messages.specs.declared.requests.DapRefusal.TheVariants.{OutOfMemory as out_of_memory};

    ghost from_gives = { λ _ refusal. refusal ≡ out_of_memory };

    fn from(_refused: OutOfMemory) -> DapRefusal {
        DapRefusal::OutOfMemory
    }
}

/// The lines of breakpoints, in order, each from 1. Contracts see the list.
#[derive(Debug, Drop)]
pub struct BreakLines {
    lines: Vec<u32>,
}

impl Model for BreakLines {
    ghost use Rattle.std.specs.Prelude.{ℕ, List};

    ghost Value = { List ℕ };

    ghost view = { λ s. s.lines.items };
}

impl BreakLines {
    /// No line.
    pub fn new(alloc: Global) -> BreakLines
        ensures { result ≡ [] }
    {
        BreakLines {
            lines: Vec::new(alloc),
        }
    }

    /// Adds a line behind those that are there. An `Err` changes nothing.
    pub fn push(&mut self, line: u32) -> Result<(), OutOfMemory>
        ensures ok { OnOk result (self.new ≡ self.old ++ line ∷ []) }
        ensures err { OnErr result (self.new ≡ self.old) }
    {
        self.lines.push(line)?;
        Ok(())
    }

    /// The lines in order.
    pub fn as_slice(&self) -> &[u32]
        ensures { result.now ≡ self.now }
    {
        self.lines.as_slice()
    }
}
