//! What is written: the messages of the debugger.
ghost use Rattle.std.specs.Prelude.{◌≡◌, false, IfOk};
ghost use Rattle.serde_json.specs.Data.{Data};
ghost use Rattle.serde_json.specs.View.{view};
ghost use Rattle.serde_json.specs.Written.{has_float};
ghost use Rattle.dap_messages.specs.Written.{response_value, refusal_value, event_value, body_of, value_of, has_fraction};

use crate::members::{
    no_members, object, with_copy, with_flag, with_integer, with_long, with_text, with_word,
};
use hl_base::{OutOfMemory, Text};
use serde_json::Value;
use std::alloc::Global;

/// A message of the debugger, by the number that its session gives it; a request is known by the number that its client
/// gave it.
#[derive(Drop)]
pub enum DapOut {
    /// A request was done.
    Response {
        command: Text,
        request: i32,
        seq: u64,
        body: Option<Value>,
    },

    /// A request is refused.
    Refusal {
        command: Text,
        request: i32,
        seq: u64,
        message: Text,
    },

    /// Something happened.
    Event {
        event: Text,
        seq: u64,
        body: Option<Value>,
    },
}

impl DapOut {
    /// The message as a JSON value. Where its body has no number with a fraction, it has none, and its compact text is known
    /// byte for byte.
    #[tactic(auto, unfolding(crate::specs::Written::value_of))]
    pub fn value(&self, alloc: Global) -> Result<Value, OutOfMemory>
        ensures value { IfOk result (λ v. view v ≡ value_of self.now) }
        ensures whole { IfOk result (λ v. has_fraction self.now ≡ false
            → has_float (view v) ≡ false) }
    {
        match self {
            DapOut::Response {
                command,
                request,
                seq,
                body,
            } => response(alloc, command, *request, *seq, body),
            DapOut::Refusal {
                command,
                request,
                seq,
                message,
            } => refusal(alloc, command, *request, *seq, message),
            DapOut::Event { event, seq, body } => happened(alloc, event, *seq, body),
        }
    }
}

fn response(
    alloc: Global,
    command: &Text,
    request: i32,
    seq: u64,
    body: &Option<Value>,
) -> Result<Value, OutOfMemory>
    ensures { IfOk result (λ v. view v ≡ response_value command.now request seq (body_of body.now)) }
{
    match body {
        Some(body) => answer_with(alloc, command, request, seq, body),
        None => answer_alone(alloc, command, request, seq),
    }
}

/// A response with a body.
fn answer_with(
    alloc: Global,
    command: &Text,
    request: i32,
    seq: u64,
    body: &Value,
) -> Result<Value, OutOfMemory>
    ensures { IfOk result (λ v. view v
        ≡ response_value command.now request seq (Some (view body.now))) }
{
    let made = with_copy(alloc, no_members(alloc), "body", body);
    let made = with_text(alloc, made, "command", command);
    let made = with_integer(alloc, made, "request_seq", request);
    let made = with_long(alloc, made, "seq", seq);
    let made = with_flag(alloc, made, "success", true);
    object(with_word(alloc, made, "type", "response"))
}

/// A response without a body.
fn answer_alone(alloc: Global, command: &Text, request: i32, seq: u64) -> Result<Value, OutOfMemory>
    ensures { IfOk result (λ v. view v ≡ response_value command.now request seq None) }
{
    let made = with_text(alloc, no_members(alloc), "command", command);
    let made = with_integer(alloc, made, "request_seq", request);
    let made = with_long(alloc, made, "seq", seq);
    let made = with_flag(alloc, made, "success", true);
    object(with_word(alloc, made, "type", "response"))
}

fn refusal(
    alloc: Global,
    command: &Text,
    request: i32,
    seq: u64,
    message: &Text,
) -> Result<Value, OutOfMemory>
    ensures { IfOk result (λ v. view v ≡ refusal_value command.now request seq message.now) }
{
    let made = with_text(alloc, no_members(alloc), "command", command);
    let made = with_text(alloc, made, "message", message);
    let made = with_integer(alloc, made, "request_seq", request);
    let made = with_long(alloc, made, "seq", seq);
    let made = with_flag(alloc, made, "success", false);
    object(with_word(alloc, made, "type", "response"))
}

/// An event.
fn happened(
    alloc: Global,
    event: &Text,
    seq: u64,
    body: &Option<Value>,
) -> Result<Value, OutOfMemory>
    ensures { IfOk result (λ v. view v ≡ event_value event.now seq (body_of body.now)) }
{
    match body {
        Some(body) => told_with(alloc, event, seq, body),
        None => told_alone(alloc, event, seq),
    }
}

/// An event with a body.
fn told_with(alloc: Global, event: &Text, seq: u64, body: &Value) -> Result<Value, OutOfMemory>
    ensures { IfOk result (λ v. view v ≡ event_value event.now seq (Some (view body.now))) }
{
    let made = with_copy(alloc, no_members(alloc), "body", body);
    let made = with_text(alloc, made, "event", event);
    let made = with_long(alloc, made, "seq", seq);
    object(with_word(alloc, made, "type", "event"))
}

/// An event without a body.
fn told_alone(alloc: Global, event: &Text, seq: u64) -> Result<Value, OutOfMemory>
    ensures { IfOk result (λ v. view v ≡ event_value event.now seq None) }
{
    let made = with_text(alloc, no_members(alloc), "event", event);
    let made = with_long(alloc, made, "seq", seq);
    object(with_word(alloc, made, "type", "event"))
}
