//! The lines of the table of refusals: each holds or not.
ghost use Rattle.std.specs.Prelude.{◌≡◌, Option, option_map, is_some, length, IfOk};
ghost use Rattle.std.specs.Borrow.{Bor};
ghost use Rattle.debug_sessions.specs.declared.debugger.Debugger.{Debugger as Seen};
ghost use Rattle.debug_sessions.specs.Refusals as table;
ghost use Rattle.debug_sessions.specs.Shown.{stack};

use crate::debugger::Debugger;
use crate::launch::Launch;
use crate::refusals::Refusal;
use crate::wants::{Want, frame_wanted, is_frame};
use dap_messages::{DapIn, DapRefusal};
use hl_base::OutOfMemory;
use std::alloc::Global;

/// How many sessions may be in use at once.
const MOST_SESSIONS: usize = 8;

/// A reason, if it is there.
fn where_so(holds: bool, why: Refusal) -> Option<Refusal>
    ensures { result ≡ table.where_so holds why }
{
    if holds { Some(why) } else { None }
}

/// The command is none of the protocol's that are known here.
pub(crate) fn unknown_command(read: &Result<DapIn, DapRefusal>) -> Option<Refusal>
    ensures { result ≡ table.unknown_command read.now }
{
    match read {
        Ok(_) => None,
        Err(DapRefusal::NotDap) => None,
        Err(DapRefusal::UnknownCommand(_)) => Some(Refusal::UnknownCommand),
        Err(DapRefusal::BadArguments(_)) => None,
        Err(DapRefusal::OutOfMemory) => None,
    }
}

/// The number is not in use, and the command does not begin a session.
pub(crate) fn no_session(want: Want, found: Option<&Debugger>) -> Option<Refusal>
    ensures { result ≡ table.no_session want (option_map (λ (d : Bor Seen). d.now) found.entry) }
{
    match want {
        Want::Free => None,
        Want::Idle => where_so(!is_open(found), Refusal::NoSession),
        Want::Launched => where_so(!is_open(found), Refusal::NoSession),
        Want::Stop => where_so(!is_open(found), Refusal::NoSession),
        Want::Session => where_so(!is_open(found), Refusal::NoSession),
    }
}

/// A session is to begin, and eight others are in use.
pub(crate) fn too_many(want: Want, others: usize) -> Option<Refusal>
    ensures { result ≡ table.too_many want others }
{
    match want {
        Want::Free => where_so(MOST_SESSIONS <= others, Refusal::TooManySessions),
        Want::Idle => None,
        Want::Launched => None,
        Want::Stop => None,
        Want::Session => None,
    }
}

/// A session is to begin whose number is in use.
pub(crate) fn already_initialized(want: Want, found: Option<&Debugger>) -> Option<Refusal>
    ensures { result ≡ table.already_initialized want (option_map (λ (d : Bor Seen). d.now) found.entry) }
{
    match want {
        Want::Free => where_so(is_open(found), Refusal::AlreadyInitialized),
        Want::Idle => None,
        Want::Launched => None,
        Want::Stop => None,
        Want::Session => None,
    }
}

/// An argument is missing or of a wrong kind.
pub(crate) fn bad_arguments(read: &Result<DapIn, DapRefusal>) -> Option<Refusal>
    ensures { result ≡ table.bad_arguments read.now }
{
    match read {
        Ok(_) => None,
        Err(DapRefusal::NotDap) => None,
        Err(DapRefusal::UnknownCommand(_)) => None,
        Err(DapRefusal::BadArguments(_)) => Some(Refusal::BadArguments),
        Err(DapRefusal::OutOfMemory) => None,
    }
}

/// A second launch.
pub(crate) fn already_launched(want: Want, found: Option<&Debugger>) -> Option<Refusal>
    ensures { result ≡ table.already_launched want (option_map (λ (d : Bor Seen). d.now) found.entry) }
{
    match want {
        Want::Free => None,
        Want::Idle => where_so(is_launched(found), Refusal::AlreadyLaunched),
        Want::Launched => None,
        Want::Stop => None,
        Want::Session => None,
    }
}

/// The path of a launch is that of no open program.
pub(crate) fn no_program(want: Want, is_program: bool) -> Option<Refusal>
    ensures { result ≡ table.no_program want is_program }
{
    match want {
        Want::Free => None,
        Want::Idle => where_so(!is_program, Refusal::NoProgram),
        Want::Launched => None,
        Want::Stop => None,
        Want::Session => None,
    }
}

/// configurationDone before a launch.
pub(crate) fn not_launched(want: Want, found: Option<&Debugger>) -> Option<Refusal>
    ensures { result ≡ table.not_launched want (option_map (λ (d : Bor Seen). d.now) found.entry) }
{
    match want {
        Want::Free => None,
        Want::Idle => None,
        Want::Launched => where_so(!is_launched(found), Refusal::NotLaunched),
        Want::Stop => None,
        Want::Session => None,
    }
}

/// A second configurationDone.
pub(crate) fn already_started(want: Want, found: Option<&Debugger>) -> Option<Refusal>
    ensures { result ≡ table.already_started want (option_map (λ (d : Bor Seen). d.now) found.entry) }
{
    match want {
        Want::Free => None,
        Want::Idle => None,
        Want::Launched => where_so(is_started(found), Refusal::AlreadyStarted),
        Want::Stop => None,
        Want::Session => None,
    }
}

/// A command that needs a stop, and there is none.
pub(crate) fn not_stopped(want: Want, found: Option<&Debugger>) -> Option<Refusal>
    ensures { result ≡ table.not_stopped want (option_map (λ (d : Bor Seen). d.now) found.entry) }
{
    match want {
        Want::Free => None,
        Want::Idle => None,
        Want::Launched => None,
        Want::Stop => where_so(!is_stopped(found), Refusal::NotStopped),
        Want::Session => None,
    }
}

/// The session is in use.
fn is_open(found: Option<&Debugger>) -> bool
    ensures { result ≡ is_some (option_map (λ (d : Bor Seen). d.now) found.entry) }
{
    match found {
        Some(_) => true,
        None => false,
    }
}

/// The session has a launch.
fn is_launched(found: Option<&Debugger>) -> bool
    ensures { result ≡ is_some (table.launch_in (option_map (λ (d : Bor Seen). d.now) found.entry)) }
{
    match found {
        Some(debugger) => debugger.launch.is_some(),
        None => false,
    }
}

/// Its launch has begun.
fn is_started(found: Option<&Debugger>) -> bool
    ensures { result ≡ table.is_started (option_map (λ (d : Bor Seen). d.now) found.entry) }
{
    match found {
        Some(debugger) => match &debugger.launch {
            Some(launch) => launch.is_started(),
            None => false,
        },
        None => false,
    }
}

/// Its program is stopped.
fn is_stopped(found: Option<&Debugger>) -> bool
    ensures { result ≡ table.is_stopped (option_map (λ (d : Bor Seen). d.now) found.entry) }
{
    match found {
        Some(debugger) => match &debugger.launch {
            Some(launch) => launch.is_stopped(),
            None => false,
        },
        None => false,
    }
}

/// An argument names no frame or reference of this stop.
pub(crate) fn no_frame(
    alloc: Global,
    read: &Result<DapIn, DapRefusal>,
    found: Option<&Debugger>,
) -> Result<Option<Refusal>, OutOfMemory>
    ensures { IfOk result (λ why. why
        ≡ table.no_frame (table.frame_wanted read.now) (table.frames_in (option_map (λ (d : Bor Seen). d.now) found.entry))) }
{
    let Some(frame) = frame_wanted(read) else {
        return Ok(None);
    };
    let frames = frames_in(alloc, found)?;
    Ok(where_so(!is_frame(frames, frame), Refusal::BadArguments))
}

/// How many frames are shown of the point where a session stands.
fn frames_in(alloc: Global, found: Option<&Debugger>) -> Result<usize, OutOfMemory>
    ensures { IfOk result (λ count. count ≡ table.frames_in (option_map (λ (d : Bor Seen). d.now) found.entry)) }
{
    match found {
        Some(debugger) => match &debugger.launch {
            Some(launch) => count_frames(alloc, launch),
            None => Ok(0),
        },
        None => Ok(0),
    }
}

/// How many frames are shown of the point where a launch is stopped.
fn count_frames(alloc: Global, launch: &Launch) -> Result<usize, OutOfMemory>
    ensures { IfOk result (λ count. count ≡ length (stack launch.now)) }
{
    if !launch.is_stopped() {
        return Ok(0);
    }
    let frames = launch.stack(alloc)?;
    Ok(frames.as_slice().len())
}
