//! What is written for a debug message.
ghost use Rattle.std.specs.Prelude.{◌≡◌, false, [], ◌∷◌, map, chars, IfOk, OnOk};
ghost use Rattle.dap_messages.specs.Written.{value_of, has_fraction, body_of, body_has_fraction, response_value, refusal_value, event_value};
ghost use Rattle.debug_sessions.specs.State.{next_seq};
ghost use Rattle.debug_sessions.specs.Refusals.{told};
ghost use Rattle.debug_sessions.specs.Answers.{event_message, events_behind, last_seq, head_of, no_head};
ghost use Rattle.debug_sessions.specs.Written.{AreWhole};

use crate::effects::Done;
use crate::event::Event;
use crate::refusals::Refusal;
use dap_messages::{DapHead, DapIn, DapOut, DapRefusal, stopped_body};
use hl_base::{OutOfMemory, Text};
use serde_json::Value;
use std::alloc::Global;

/// What is written for a debug message.
#[derive(Drop)]
pub enum Answer {
    /// It is no debug message: a line of the log says `hlasm/dap: NotDap`.
    NotDap,
    /// These messages go to the client of the session of its number, in order. No body of theirs has a number with a fraction.
    Messages(Vec<DapOut>),
}

/// The number of the message behind so many others.
pub(crate) fn next_seq(seq: u64) -> u64
    ensures { result ≡ next_seq seq }
{
    seq.saturating_add(1)
}

/// An event as a message of a number.
fn event_message(alloc: Global, event: Event, seq: u64) -> Result<DapOut, OutOfMemory>
    ensures value { IfOk result (λ m. value_of m ≡ event_message event seq) }
    ensures whole { IfOk result (λ m. has_fraction m ≡ false) }
{
    match event {
        Event::Initialized => happened(alloc, "initialized", seq, None),
        Event::Stopped { reason } => {
            let body = stopped_body(alloc, reason)?;
            happened(alloc, "stopped", seq, Some(body))
        }
        Event::Terminated => happened(alloc, "terminated", seq, None),
    }
}

/// A message that tells of an event of a name.
#[tactic(auto, unfolding(dap_messages::specs::Written::value_of))]
fn happened(
    alloc: Global,
    event: &str,
    seq: u64,
    body: Option<Value>,
) -> Result<DapOut, OutOfMemory>
    requires whole { body_has_fraction body ≡ false }
    ensures value { IfOk result (λ m. value_of m ≡ event_value (chars event.now) seq (body_of body)) }
    ensures whole { IfOk result (λ m. has_fraction m ≡ false) }
{
    Ok(DapOut::Event {
        event: Text::of(alloc, event)?,
        seq,
        body,
    })
}

/// The response to a request of this command and number.
#[tactic(auto, unfolding(dap_messages::specs::Written::value_of))]
fn response(
    alloc: Global,
    command: &str,
    request: i32,
    seq: u64,
    body: Option<Value>,
) -> Result<DapOut, OutOfMemory>
    requires whole { body_has_fraction body ≡ false }
    ensures value { IfOk result (λ m. value_of m ≡ response_value (chars command.now) request seq (body_of body)) }
    ensures whole { IfOk result (λ m. has_fraction m ≡ false) }
{
    Ok(DapOut::Response {
        command: Text::of(alloc, command)?,
        request,
        seq,
        body,
    })
}

/// What is written for a request that is done, where this is the number of the last message; behind it that is the number of
/// the last one of these.
pub(crate) fn messages_of(
    alloc: Global,
    command: &str,
    request: i32,
    seq: &mut u64,
    done: Done,
) -> Result<Vec<DapOut>, OutOfMemory>
    requires whole { body_has_fraction done.body ≡ false }
    ensures seq { OnOk result (seq.new ≡ last_seq (next_seq seq.old) done.event) }
    ensures messages { IfOk result (λ messages. map value_of messages.items
        ≡ response_value (chars command.now) request (next_seq seq.old) (body_of done.body) ∷ events_behind (next_seq seq.old) done.event) }
    ensures whole { IfOk result (λ messages. AreWhole messages.items) }
{
    let mut messages = Vec::with_capacity(alloc, 2)?;
    *seq = next_seq(*seq);
    messages.push(response(alloc, command, request, *seq, done.body)?)?;
    if let Some(event) = done.event {
        *seq = next_seq(*seq);
        messages.push(event_message(alloc, event, *seq)?)?;
    }
    Ok(messages)
}

/// What is written for a request that is refused.
pub(crate) fn refused(
    alloc: Global,
    read: &Result<DapIn, DapRefusal>,
    seq: u64,
    why: Refusal,
) -> Result<Vec<DapOut>, OutOfMemory>
    ensures messages { IfOk result (λ messages. map value_of messages.items
        ≡ refusal_value (head_of read.now).command (head_of read.now).seq seq (chars (told why)) ∷ []) }
    ensures whole { IfOk result (λ messages. AreWhole messages.items) }
{
    let mut messages = Vec::with_capacity(alloc, 1)?;
    let head = head_of(alloc, read)?;
    messages.push(refusal(alloc, head, seq, why)?)?;
    Ok(messages)
}

/// The refusal of a request.
#[tactic(auto, unfolding(dap_messages::specs::Written::value_of))]
fn refusal(alloc: Global, head: DapHead, seq: u64, why: Refusal) -> Result<DapOut, OutOfMemory>
    ensures value { IfOk result (λ m. value_of m ≡ refusal_value head.command head.seq seq (chars (told why))) }
    ensures whole { IfOk result (λ m. has_fraction m ≡ false) }
{
    let message = Text::of(alloc, why.told())?;
    Ok(DapOut::Refusal {
        command: head.command,
        request: head.seq,
        seq,
        message,
    })
}

/// What a request says of itself.
fn head_of(alloc: Global, read: &Result<DapIn, DapRefusal>) -> Result<DapHead, OutOfMemory>
    ensures { IfOk result (λ head. head ≡ head_of read.now) }
{
    match read {
        Ok(request) => head(alloc, request.seq, request.command.name()),
        Err(DapRefusal::NotDap) => Ok(no_head(alloc)),
        Err(DapRefusal::UnknownCommand(told)) => head(alloc, told.seq, told.command.as_str()),
        Err(DapRefusal::BadArguments(told)) => head(alloc, told.seq, told.command.as_str()),
        Err(DapRefusal::OutOfMemory) => Ok(no_head(alloc)),
    }
}

/// In place of what is not there.
fn no_head(alloc: Global) -> DapHead
    ensures { result ≡ no_head }
{
    DapHead {
        seq: 0,
        command: Text::new(alloc),
    }
}

fn head(alloc: Global, seq: i32, command: &str) -> Result<DapHead, OutOfMemory>
    ensures { IfOk result (λ head. head ≡ record { seq = seq; command = chars command.now }) }
{
    Ok(DapHead {
        seq,
        command: Text::of(alloc, command)?,
    })
}
