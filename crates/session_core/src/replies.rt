//! The bodies that a session writes (JSON-RPC 2.0, "Response object"; LSP 3.17, `ErrorCodes`).
ghost use Rattle.std.specs.Prelude.{◌≡◌, ◌≢◌, ◌++◌, [], ◌∷◌, false, None, IfOk, OnOk, OnErr};
ghost use Rattle.std.specs.Prelude.{codes, encode_utf8_all, string_bytes, IsSome, Some};
ghost use Rattle.serde_json.specs.View.{view};
ghost use Rattle.serde_json.specs.Written.{has_float};
ghost use Rattle.session_core.specs.Debugging.{debug_body};
ghost use Rattle.session_core.specs.Inside.{list_told};
ghost use Rattle.std.specs.Str.{chars};
ghost use Rattle.session_core.specs.Replies.{initialize_reply, shutdown_reply, refusal, parse_error, invalid_request, not_initialized};
ghost use Rattle.session_core.specs.Replies.{unknown_method, bad_parameter, log_line, logged_line, bad_params, refusal_of, list_body};

use document_store::StoreFault;
use hl_base::{OutOfMemory, Text};
use lsp_messages::{Diagnostics, Id, LspOut, initialize_result};
use serde_json::Value;
use std::alloc::Global;

/// The reply to `initialize`.
#[tactic(auto, unfolding(lsp_messages::specs::Written::text_of, lsp_messages::specs::Written::value_of))]
pub(crate) fn initialize_reply(alloc: Global, id: Id) -> Result<Vec<u8>, OutOfMemory>
    ensures { IfOk result (λ body. body.items ≡ initialize_reply id) }
{
    let result = initialize_result(alloc)?;
    LspOut::Reply { id, result }.text(alloc)
}

/// The reply to `shutdown`.
#[tactic(auto, unfolding(lsp_messages::specs::Written::text_of, lsp_messages::specs::Written::value_of))]
pub(crate) fn shutdown_reply(alloc: Global, id: Id) -> Result<Vec<u8>, OutOfMemory>
    ensures { IfOk result (λ body. body.items ≡ shutdown_reply id) }
{
    let result = Value::Null;
    LspOut::Reply { id, result }.text(alloc)
}

fn refusal(alloc: Global, id: Option<Id>, code: i32, text: &str) -> Result<Vec<u8>, OutOfMemory>
    ensures { IfOk result (λ body. body.items ≡ refusal id code text.now) }
{
    let message = Text::of(alloc, text)?;
    LspOut::Fault { id, code, message }.text(alloc)
}

/// The body is no JSON.
pub(crate) fn parse_error(alloc: Global) -> Result<Vec<u8>, OutOfMemory>
    ensures { IfOk result (λ body. body.items ≡ parse_error) }
{
    refusal(alloc, None, -32700, "parse error")
}

/// No message, or one that may not stand here.
pub(crate) fn invalid_request(alloc: Global, id: Option<Id>) -> Result<Vec<u8>, OutOfMemory>
    ensures { IfOk result (λ body. body.items ≡ invalid_request id) }
{
    refusal(alloc, id, -32600, "invalid request")
}

/// A request before the session began.
pub(crate) fn not_initialized(alloc: Global, id: Id) -> Result<Vec<u8>, OutOfMemory>
    ensures { IfOk result (λ body. body.items ≡ not_initialized id) }
{
    refusal(alloc, Some(id), -32002, "not initialized")
}

/// No such request.
pub(crate) fn unknown_method(alloc: Global, id: Id) -> Result<Vec<u8>, OutOfMemory>
    ensures { IfOk result (λ body. body.items ≡ unknown_method id) }
{
    refusal(alloc, Some(id), -32601, "unknown method")
}

/// A parameter of a request is missing or of a wrong kind, in words.
fn bad_parameter_text(alloc: Global, name: &Text) -> Result<String, OutOfMemory>
    ensures { IfOk result (λ text. string_bytes text ≡ codes "bad parameter: " ++ encode_utf8_all name.now) }
{
    let name = name.as_str();
    Ok(format!(in alloc; "bad parameter: {name}")?)
}

/// A parameter is missing or of a wrong kind.
pub(crate) fn bad_parameter(alloc: Global, id: Id, name: &Text) -> Result<Vec<u8>, OutOfMemory>
    ensures { IfOk result (λ body. body.items ≡ bad_parameter id name.now) }
{
    let text = bad_parameter_text(alloc, name)?;
    refusal(alloc, Some(id), -32602, &text)
}

/// A line of the log: the method of a notification, and why it was refused.
pub(crate) fn log_line(alloc: Global, method: &str, why: &str) -> Result<Vec<u8>, OutOfMemory>
    ensures { IfOk result (λ body. body.items ≡ log_line method.now why.now) }
{
    let line = format!(in alloc; "{method}: {why}")?;
    let message = Text::of(alloc, &line)?;
    LspOut::Log { message }.text(alloc)
}

/// A line of the log as it is.
pub(crate) fn logged_line(alloc: Global, line: &Text) -> Result<Vec<u8>, OutOfMemory>
    ensures { IfOk result (λ body. body.items ≡ logged_line line.now) }
{
    let message = line.copy(alloc)?;
    LspOut::Log { message }.text(alloc)
}

/// A parameter of a notification is missing or of a wrong kind, as the log has it.
pub(crate) fn bad_params(alloc: Global, name: &Text) -> Result<String, OutOfMemory>
    ensures { IfOk result (λ text. string_bytes text ≡ bad_params name.now) }
{
    let name = name.as_str();
    Ok(format!(in alloc; "BadParams({name})")?)
}

/// A message to the client of a debug session. It has no number with a fraction.
#[tactic(auto, unfolding(lsp_messages::specs::Written::text_of, lsp_messages::specs::Written::value_of))]
pub(crate) fn debug_body(
    alloc: Global,
    session: u32,
    message: Value,
) -> Result<Vec<u8>, OutOfMemory>
    requires whole { has_float (view message) ≡ false }
    ensures { IfOk result (λ body. body.items ≡ debug_body session (view message)) }
{
    LspOut::Dap { session, message }.text(alloc)
}

/// Why the documents stay as they are, as the log has it.
pub(crate) fn refusal_of(alloc: Global, fault: StoreFault) -> Result<String, OutOfMemory>
    ensures text { IfOk result (λ text. string_bytes text ≡ refusal_of fault) }
    ensures memory { IfOk result (λ text. fault ≢ StoreFault.OutOfMemory) }
{
    match fault {
        StoreFault::BadUri => Ok(String::from_str(alloc, "BadUri")?),
        StoreFault::AlreadyOpen => Ok(String::from_str(alloc, "AlreadyOpen")?),
        StoreFault::TooMany => Ok(String::from_str(alloc, "TooMany")?),
        StoreFault::TextTooLong => Ok(String::from_str(alloc, "TextTooLong")?),
        StoreFault::NotOpen => Ok(String::from_str(alloc, "NotOpen")?),
        StoreFault::LibraryTooLarge => Ok(String::from_str(alloc, "LibraryTooLarge")?),
        StoreFault::BadRange(number) => Ok(format!(in alloc; "BadRange({number})")?),
        StoreFault::OutOfMemory => Err(OutOfMemory),
    }
}

/// The list of a message that publishes one.
fn list_told(message: LspOut) -> Diagnostics
    requires { IsSome (list_told message) }
    ensures { list_told message ≡ Some result }
{
    match message {
        LspOut::Published {
            uri: _uri,
            version: _version,
            diagnostics,
        } => diagnostics,
        LspOut::Reply {
            id: _id,
            result: _result,
        } => unreachable!(),
        LspOut::Fault {
            id: _id,
            code: _code,
            message: _message,
        } => unreachable!(),
        LspOut::Log { message: _message } => unreachable!(),
        LspOut::Dap {
            session: _session,
            message: _message,
        } => unreachable!(),
    }
}

/// A list as it is published of a document, and the list itself.
pub(crate) fn list_body(
    alloc: Global,
    uri: &str,
    version: Option<i32>,
    list: Diagnostics,
) -> Result<(Vec<u8>, Diagnostics), OutOfMemory>
    ensures body { IfOk result (λ told. told.0.items ≡ list_body (chars uri.now) version list) }
    ensures list { IfOk result (λ told. told.1 ≡ list) }
{
    let uri = Text::of(alloc, uri)?;
    let message = LspOut::Published {
        uri,
        version,
        diagnostics: list,
    };
    let body = message.text(alloc)?;
    let list = list_told(message);
    Ok((body, list))
}
