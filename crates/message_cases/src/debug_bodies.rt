//! Debug messages that are written, as a case words them. A frame is `LINE; NAME; PATH`, a variable `NAME; VALUE`.
use crate::json::{value, written_value};
use dap_messages::{
    DapOut, StackFrame, StopReason, Variable, breakpoints_body, capabilities_body, continued_body,
    scopes_body, stack_body, stopped_body, threads_body, variables_body,
};
use hl_base::{OutOfMemory, Text};
use serde_json::Value;
use std::alloc::Global;

/// What stands before the first semicolon, and what stands behind it.
fn cut(words: &str) -> (&str, &str) {
    words.split_once("; ").unwrap_or((words, ""))
}

fn breakpoints(alloc: Global, fields: &[String]) -> Result<Value, OutOfMemory> {
    let mut lines = Vec::new(alloc);
    for field in fields {
        lines.push(field.as_str().parse::<u32>().unwrap_or(0))?;
    }
    breakpoints_body(alloc, lines.as_slice())
}

fn frame(alloc: Global, words: &str) -> Result<StackFrame, OutOfMemory> {
    let (line, words) = cut(words);
    let (name, path) = cut(words);
    Ok(StackFrame {
        name: Text::of(alloc, name)?,
        path: Text::of(alloc, path)?,
        line: line.parse::<u32>().unwrap_or(0),
    })
}

fn stack(alloc: Global, fields: &[String]) -> Result<Value, OutOfMemory> {
    let mut frames = Vec::new(alloc);
    for field in fields {
        frames.push(frame(alloc, field.as_str())?)?;
    }
    stack_body(alloc, frames.as_slice())
}

fn variable(alloc: Global, words: &str) -> Result<Variable, OutOfMemory> {
    let (name, value) = cut(words);
    Ok(Variable {
        name: Text::of(alloc, name)?,
        value: Text::of(alloc, value)?,
    })
}

fn variables(alloc: Global, fields: &[String]) -> Result<Value, OutOfMemory> {
    let mut variables = Vec::new(alloc);
    for field in fields {
        variables.push(variable(alloc, field.as_str())?)?;
    }
    variables_body(alloc, variables.as_slice())
}

fn reason(word: &str) -> StopReason {
    match word {
        "entry" => StopReason::Entry,
        "breakpoint" => StopReason::Breakpoint,
        _ => StopReason::Step,
    }
}

/// The body of this kind; one of JSON else, and `null` in place of what is no JSON.
fn body_named(alloc: Global, kind: &str, fields: &[String]) -> Result<Value, OutOfMemory> {
    match (kind, fields) {
        ("capabilities", []) => capabilities_body(alloc),
        ("breakpoints", lines) => breakpoints(alloc, lines),
        ("threads", []) => threads_body(alloc),
        ("stack", frames) => stack(alloc, frames),
        ("scopes", [number]) => { scopes_body(alloc, number.as_str().parse::<u32>().unwrap_or(0)) }
        ("variables", shown) => variables(alloc, shown),
        ("continued", []) => continued_body(alloc),
        ("stopped", [word]) => stopped_body(alloc, reason(word.as_str())),
        _ => Ok(value(alloc, kind.as_bytes())?.unwrap_or(Value::Null)),
    }
}

/// The body that the last fields word, if there are some.
fn body(alloc: Global, fields: &[String]) -> Result<Option<Value>, OutOfMemory> {
    match fields {
        [kind, fields @ ..] => Ok(Some(body_named(alloc, kind.as_str(), fields)?)),
        [] => Ok(None),
    }
}

fn response(
    alloc: Global,
    command: &str,
    request: &str,
    seq: &str,
    fields: &[String],
) -> Result<DapOut, OutOfMemory> {
    Ok(DapOut::Response {
        command: Text::of(alloc, command)?,
        request: request.parse::<i32>().unwrap_or(0),
        seq: seq.parse::<u64>().unwrap_or(0),
        body: body(alloc, fields)?,
    })
}

fn refusal(
    alloc: Global,
    command: &str,
    request: &str,
    seq: &str,
    message: &str,
) -> Result<DapOut, OutOfMemory> {
    Ok(DapOut::Refusal {
        command: Text::of(alloc, command)?,
        request: request.parse::<i32>().unwrap_or(0),
        seq: seq.parse::<u64>().unwrap_or(0),
        message: Text::of(alloc, message)?,
    })
}

fn event(alloc: Global, event: &str, seq: &str, fields: &[String]) -> Result<DapOut, OutOfMemory> {
    Ok(DapOut::Event {
        event: Text::of(alloc, event)?,
        seq: seq.parse::<u64>().unwrap_or(0),
        body: body(alloc, fields)?,
    })
}

/// The message that the fields word, if they word one.
fn message(alloc: Global, kind: &str, fields: &[String]) -> Result<Option<DapOut>, OutOfMemory> {
    match (kind, fields) {
        ("response", [command, request, seq, body @ ..]) => {
            let (request, seq) = (request.as_str(), seq.as_str());
            Ok(Some(response(alloc, command.as_str(), request, seq, body)?))
        }
        ("refusal", [command, request, seq, name]) => {
            let (request, seq) = (request.as_str(), seq.as_str());
            Ok(Some(refusal(alloc, command.as_str(), request, seq, name.as_str())?))
        }
        ("event", [name, seq, body @ ..]) => {
            Ok(Some(event(alloc, name.as_str(), seq.as_str(), body)?))
        }
        _ => Ok(None),
    }
}

/// The text of the message that the fields word.
pub fn text(alloc: Global, kind: &str, fields: &[String]) -> Result<String, OutOfMemory> {
    match message(alloc, kind, fields)? {
        Some(message) => written_value(alloc, &message.value(alloc)?),
        None => Ok(String::from_str(alloc, "no message")?),
    }
}
