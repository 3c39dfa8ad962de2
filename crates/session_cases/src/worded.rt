//! What is written for a message, in words: the number of each message, and after a slash that of the request that it answers.
use dap_messages::DapOut;
use debug_sessions::Answer;
use hl_base::OutOfMemory;
use json_view::compact;
use serde_json::Value;
use std::alloc::Global;

/// What a message carries, behind a blank; nothing where it carries nothing.
fn body(alloc: Global, body: &Option<Value>) -> Result<String, OutOfMemory> {
    match body {
        Some(value) => {
            let text = compact(alloc, value)?;
            let text = String::from_utf8_lossy(alloc, text.as_slice())?;
            Ok(format!(in alloc; " {text}")?)
        }
        None => Ok(String::new(alloc)),
    }
}

/// A message.
fn message(alloc: Global, out: &DapOut) -> Result<String, OutOfMemory> {
    match out {
        DapOut::Response {
            command,
            request,
            seq,
            body: carried,
        } => {
            let carried = body(alloc, carried)?;
            Ok(format!(in alloc; "{seq}/{request} {}{carried}", command.as_str())?)
        }
        DapOut::Refusal {
            command,
            request,
            seq,
            message,
        } => {
            let (command, message) = (command.as_str(), message.as_str());
            Ok(format!(in alloc; "{seq}/{request} {command} refused: {message}")?)
        }
        DapOut::Event {
            event,
            seq,
            body: carried,
        } => {
            let carried = body(alloc, carried)?;
            Ok(format!(in alloc; "{seq} {}{carried}", event.as_str())?)
        }
    }
}

/// All that is written for a message, with semicolons between them.
pub fn worded(alloc: Global, answer: &Answer) -> Result<String, OutOfMemory> {
    let mut said = String::new(alloc);
    let messages = match answer {
        Answer::NotDap => return Ok(String::from_str(alloc, "log hlasm/dap: NotDap")?),
        Answer::Messages(messages) => messages,
    };
    for out in messages {
        if !said.is_empty() {
            said.push_str("; ")?;
        }
        said.push_str(message(alloc, out)?.as_str())?;
    }
    Ok(said)
}
