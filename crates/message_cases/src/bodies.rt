//! Messages that are written, as a case words them.
use crate::answers::answer;
use crate::json::value;
use crate::messages::id_worded;
use crate::reports::reports;
use hl_base::{OutOfMemory, Text};
use lsp_messages::{Id, LspOut, answer_text, initialize_result};
use serde_json::Value;
use std::alloc::Global;

/// The body of a message.
fn text(alloc: Global, message: &LspOut) -> Result<String, OutOfMemory> {
    Ok(String::from_utf8_lossy(alloc, message.text(alloc)?.as_slice())?)
}

/// A result: what `initialize` is answered, or a value; `null` in place of what is no JSON.
fn result(alloc: Global, words: &str) -> Result<Value, OutOfMemory> {
    if words == "initialize_result" {
        return initialize_result(alloc);
    }
    Ok(value(alloc, words.as_bytes())?.unwrap_or(Value::Null))
}

fn reply(alloc: Global, id: &str, words: &str) -> Result<String, OutOfMemory> {
    let (id, result) = (id_worded(alloc, id)?, result(alloc, words)?);
    text(alloc, &LspOut::Reply { id, result })
}

/// The id that is worded so; `-` is none.
fn id_if(alloc: Global, words: &str) -> Result<Option<Id>, OutOfMemory> {
    if words == "-" {
        return Ok(None);
    }
    Ok(Some(id_worded(alloc, words)?))
}

fn fault(alloc: Global, id: &str, code: &str, message: &str) -> Result<String, OutOfMemory> {
    let (id, message) = (id_if(alloc, id)?, Text::of(alloc, message)?);
    let code = code.parse::<i32>().unwrap_or(0);
    text(alloc, &LspOut::Fault { id, code, message })
}

fn log(alloc: Global, message: &str) -> Result<String, OutOfMemory> {
    let message = Text::of(alloc, message)?;
    text(alloc, &LspOut::Log { message })
}

/// The list of a document; a version that is no number is none.
fn list(alloc: Global, uri: &str, version: &str, fields: &[String]) -> Result<String, OutOfMemory> {
    let (uri, diagnostics) = (Text::of(alloc, uri)?, reports(alloc, fields)?);
    let version = version.parse::<i32>().ok();
    let list = LspOut::Published {
        uri,
        version,
        diagnostics,
    };
    text(alloc, &list)
}

/// The answer to a request on symbols.
fn answered(alloc: Global, id: &str, kind: &str, fields: &[String]) -> Result<String, OutOfMemory> {
    let id = id_worded(alloc, id)?;
    let body = answer_text(alloc, &id, &answer(alloc, kind, fields)?)?;
    Ok(String::from_utf8_lossy(alloc, body.as_slice())?)
}

/// A message of a debug session.
fn debugged(alloc: Global, session: &str, words: &str) -> Result<String, OutOfMemory> {
    let session = session.parse::<u32>().unwrap_or(0);
    let message = value(alloc, words.as_bytes())?.unwrap_or(Value::Null);
    text(alloc, &LspOut::Dap { session, message })
}

/// The body of the message of this kind, if there is one.
pub fn body(alloc: Global, kind: &str, fields: &[String]) -> Result<String, OutOfMemory> {
    match (kind, fields) {
        ("reply", [id, result]) => reply(alloc, id.as_str(), result.as_str()),
        ("fault", [id, code, message]) => {
            fault(alloc, id.as_str(), code.as_str(), message.as_str())
        }
        ("log", [message]) => log(alloc, message.as_str()),
        ("list", [uri, version, reports @ ..]) => {
            list(alloc, uri.as_str(), version.as_str(), reports)
        }
        ("answer", [id, kind, fields @ ..]) => {
            answered(alloc, id.as_str(), kind.as_str(), fields)
        }
        ("debug", [session, message]) => debugged(alloc, session.as_str(), message.as_str()),
        _ => Ok(String::from_str(alloc, "no message")?),
    }
}
