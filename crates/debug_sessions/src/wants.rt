//! What a request wants of its session.
ghost use Rattle.std.specs.Prelude.{◌≡◌, ℕ, List, option_map};
ghost use Rattle.std.specs.Borrow.{Bor};
ghost use Rattle.debug_sessions.specs.Refusals.{want_of, want_of_head, wanted, frame_named, frame_wanted, launched_by, launched_in};
ghost use Rattle.debug_sessions.specs.Shown.{asked, is_frame, frame_of_reference, is_global};

use dap_messages::{DapCommand, DapHead, DapIn, DapRefusal};
use hl_base::Text;

/// What the session of a request is to be, so that the request is not refused.
#[derive(Clone, Copy, Debug, PartialEq, Eq)]
pub(crate) enum Want {
    /// There is none yet: the number is free.
    Free,
    /// Nothing was launched in it.
    Idle,
    /// Its launch has not begun.
    Launched,
    /// Its program is stopped.
    Stop,
    /// It is in use.
    Session,
}

/// What a command wants.
fn want_of(command: &DapCommand) -> Want
    ensures { result ≡ want_of command.now }
{
    match command {
        DapCommand::Initialize => Want::Free,
        DapCommand::Launch { .. } => Want::Idle,
        DapCommand::SetBreakpoints { .. } => Want::Session,
        DapCommand::ConfigurationDone => Want::Launched,
        DapCommand::Threads => Want::Session,
        DapCommand::StackTrace => Want::Stop,
        DapCommand::Scopes { .. } => Want::Stop,
        DapCommand::Variables { .. } => Want::Stop,
        DapCommand::Next => Want::Stop,
        DapCommand::StepIn => Want::Stop,
        DapCommand::StepOut => Want::Stop,
        DapCommand::Continue => Want::Stop,
        DapCommand::Disconnect => Want::Session,
    }
}

/// What a request wants of which the head alone is known.
fn want_of_head(head: &DapHead) -> Want
    ensures { result ≡ want_of_head head.now }
{
    if head.command.as_str() == "initialize" {
        Want::Free
    } else {
        Want::Session
    }
}

/// What a request wants.
pub(crate) fn wanted(read: &Result<DapIn, DapRefusal>) -> Want
    ensures { result ≡ wanted read.now }
{
    match read {
        Ok(request) => want_of(&request.command),
        Err(DapRefusal::NotDap) => Want::Session,
        Err(DapRefusal::UnknownCommand(head)) => want_of_head(head),
        Err(DapRefusal::BadArguments(head)) => want_of_head(head),
        Err(DapRefusal::OutOfMemory) => Want::Session,
    }
}

/// A number as it is asked for: a negative one is of nothing, as 0 is.
pub(crate) fn asked(number: i32) -> u32
    ensures { result ≡ asked number }
{
    number.max(0).unsigned_abs()
}

/// The frame whose variables a reference is of.
pub(crate) fn frame_of_reference(reference: u32) -> u32
    ensures { result ≡ frame_of_reference reference }
{
    reference / 2 + reference % 2
}

/// A frame of this number is among so many, which are numbered from 1.
pub(crate) fn is_frame(count: usize, frame: u32) -> bool
    ensures { result ≡ is_frame count frame }
{
    0 < frame && (frame as usize) <= count
}

/// Whether a reference is of global variables.
pub(crate) fn is_global(reference: u32) -> bool
    ensures { result ≡ is_global reference }
{
    reference % 2 == 0
}

/// The frame that a command names, or that of the reference that it names.
fn frame_named(command: &DapCommand) -> Option<u32>
    ensures { result ≡ frame_named command.now }
{
    match command {
        DapCommand::Initialize => None,
        DapCommand::Launch { .. } => None,
        DapCommand::SetBreakpoints { .. } => None,
        DapCommand::ConfigurationDone => None,
        DapCommand::Threads => None,
        DapCommand::StackTrace => None,
        DapCommand::Scopes { frame } => Some(asked(*frame)),
        DapCommand::Variables { reference } => Some(frame_of_reference(asked(*reference))),
        DapCommand::Next => None,
        DapCommand::StepIn => None,
        DapCommand::StepOut => None,
        DapCommand::Continue => None,
        DapCommand::Disconnect => None,
    }
}

/// The frame that a request names.
pub(crate) fn frame_wanted(read: &Result<DapIn, DapRefusal>) -> Option<u32>
    ensures { result ≡ frame_wanted read.now }
{
    match read {
        Ok(request) => frame_named(&request.command),
        Err(_) => None,
    }
}

/// The path of the program that a command launches.
fn launched_by(command: &DapCommand) -> Option<&Text>
    ensures { option_map (λ (path : Bor (List ℕ)). path.now) result ≡ launched_by command.now }
{
    match command {
        DapCommand::Initialize => None,
        DapCommand::Launch { program, .. } => Some(program),
        DapCommand::SetBreakpoints { .. } => None,
        DapCommand::ConfigurationDone => None,
        DapCommand::Threads => None,
        DapCommand::StackTrace => None,
        DapCommand::Scopes { .. } => None,
        DapCommand::Variables { .. } => None,
        DapCommand::Next => None,
        DapCommand::StepIn => None,
        DapCommand::StepOut => None,
        DapCommand::Continue => None,
        DapCommand::Disconnect => None,
    }
}

/// The path of the program that a request launches.
pub(crate) fn launched_in(read: &Result<DapIn, DapRefusal>) -> Option<&Text>
    ensures { option_map (λ (path : Bor (List ℕ)). path.now) result ≡ launched_in read.now }
{
    match read {
        Ok(request) => launched_by(&request.command),
        Err(_) => None,
    }
}
