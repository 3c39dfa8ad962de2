//! What is read, in words.
use crate::json::{no_json, value, written_value};
use hl_base::{Edit, OutOfMemory, Position, Text};
use lsp_messages::{
    ChangeKind, DebugMessage, FileChange, Head, Id, LspIn, Refusal, is_response, read_lsp,
};
use std::alloc::{AllocError, Global};

/// An id in words: a text in quotes.
fn id(alloc: Global, id: &Id) -> Result<String, AllocError> {
    match id {
        Id::Number(number) => format!(in alloc; "{number}"),
        Id::Words(words) => format!(in alloc; "'{}'", words.as_str()),
    }
}

/// The id that is worded so.
pub fn id_worded(alloc: Global, words: &str) -> Result<Id, OutOfMemory> {
    match words.strip_prefix("'") {
        Some(text) => Ok(Id::Words(Text::of(alloc, text.strip_suffix("'").unwrap_or(text))?)),
        None => Ok(Id::Number(words.parse::<i32>().unwrap_or(0))),
    }
}

/// A copy of the id that is worded so.
pub fn copied(alloc: Global, words: &str) -> Result<String, OutOfMemory> {
    let copy = id_worded(alloc, words)?.copy(alloc)?;
    Ok(id(alloc, &copy)?)
}

/// A head in words: the method, and the id if there is one.
fn head(alloc: Global, head: &Head) -> Result<String, AllocError> {
    let method = head.method.as_str();
    match &head.id {
        None => String::from_str(alloc, method),
        Some(it) => {
            let it = id(alloc, it)?;
            format!(in alloc; "{method} {it}")
        }
    }
}

fn place(alloc: Global, place: Option<Position>) -> Result<String, AllocError> {
    match place {
        None => String::from_str(alloc, "*"),
        Some(place) => format!(in alloc; "{}.{}", place.line, place.character),
    }
}

fn edit(alloc: Global, edit: &Edit) -> Result<String, AllocError> {
    let (from, to) = (place(alloc, edit.from)?, place(alloc, edit.to)?);
    format!(in alloc; " {from}-{to}'{}'", edit.text.as_str())
}

fn change(alloc: Global, uri: &Text, version: i32, edits: &[Edit]) -> Result<String, AllocError> {
    let mut words = format!(in alloc; "change {} {version}", uri.as_str())?;
    for one in edits {
        words.push_str(edit(alloc, one)?.as_str())?;
    }
    Ok(words)
}

fn initialize(alloc: Global, request: &Id, root: &Option<Text>) -> Result<String, AllocError> {
    let request = id(alloc, request)?;
    let root = match root {
        None => "-",
        Some(root) => root.as_str(),
    };
    format!(in alloc; "initialize {request} {root}")
}

fn shutdown(alloc: Global, request: &Id) -> Result<String, AllocError> {
    let request = id(alloc, request)?;
    format!(in alloc; "shutdown {request}")
}

fn open(
    alloc: Global,
    uri: &Text,
    language: &Text,
    version: i32,
    text: &Text,
) -> Result<String, AllocError> {
    let (uri, language, text) = (uri.as_str(), language.as_str(), text.as_str());
    format!(in alloc; "open {uri} {language} {version} '{text}'")
}

fn file_change(alloc: Global, change: &FileChange) -> Result<String, AllocError> {
    let kind = match change.kind {
        ChangeKind::Created => "created",
        ChangeKind::Changed => "changed",
        ChangeKind::Deleted => "deleted",
    };
    format!(in alloc; " {kind}'{}'", change.uri.as_str())
}

fn watched(alloc: Global, changes: &[FileChange]) -> Result<String, AllocError> {
    let mut words = String::from_str(alloc, "watched")?;
    for one in changes {
        words.push_str(file_change(alloc, one)?.as_str())?;
    }
    Ok(words)
}

/// A request on a place of a document.
fn asked(
    alloc: Global,
    word: &str,
    request: &Id,
    uri: &Text,
    at: Position,
) -> Result<String, AllocError> {
    let (request, uri, at) = (id(alloc, request)?, uri.as_str(), place(alloc, Some(at))?);
    format!(in alloc; "{word} {request} {uri} {at}")
}

fn references(
    alloc: Global,
    request: &Id,
    uri: &Text,
    at: Position,
    declarations: bool,
) -> Result<String, AllocError> {
    let words = asked(alloc, "references", request, uri, at)?;
    format!(in alloc; "{words} {declarations}")
}

fn symbols(alloc: Global, request: &Id, uri: &Text) -> Result<String, AllocError> {
    let (request, uri) = (id(alloc, request)?, uri.as_str());
    format!(in alloc; "symbols {request} {uri}")
}

fn cancelled(alloc: Global, request: &Id) -> Result<String, AllocError> {
    let request = id(alloc, request)?;
    format!(in alloc; "cancel {request}")
}

fn debugged(alloc: Global, session: u32, message: &DebugMessage) -> Result<String, OutOfMemory> {
    let message = written_value(alloc, message.as_json())?;
    Ok(format!(in alloc; "debug {session} {message}")?)
}

/// A message in words.
fn message(alloc: Global, message: &LspIn) -> Result<String, OutOfMemory> {
    match message {
        LspIn::Initialize { id, root } => Ok(initialize(alloc, id, root)?),
        LspIn::Shutdown { id } => Ok(shutdown(alloc, id)?),
        LspIn::Definition { id, uri, at } => Ok(asked(alloc, "definition", id, uri, *at)?),
        LspIn::References {
            id,
            uri,
            at,
            declarations,
        } => Ok(references(alloc, id, uri, *at, *declarations)?),
        LspIn::Hover { id, uri, at } => Ok(asked(alloc, "hover", id, uri, *at)?),
        LspIn::DocumentSymbol { id, uri } => Ok(symbols(alloc, id, uri)?),
        LspIn::Dap { session, message } => debugged(alloc, *session, message),
        notification => Ok(told(alloc, notification)?),
    }
}

/// A notification of the language server protocol in words.
fn told(alloc: Global, message: &LspIn) -> Result<String, AllocError> {
    match message {
        LspIn::Initialized => String::from_str(alloc, "initialized"),
        LspIn::Exit => String::from_str(alloc, "exit"),
        LspIn::DidOpen {
            uri,
            language,
            version,
            text,
        } => open(alloc, uri, language, *version, text),
        LspIn::DidChange {
            uri,
            version,
            edits,
        } => change(alloc, uri, *version, edits.as_slice()),
        LspIn::DidClose { uri } => format!(in alloc; "close {}", uri.as_str()),
        LspIn::DidSave => String::from_str(alloc, "save"),
        LspIn::DidChangeConfiguration => String::from_str(alloc, "configuration"),
        LspIn::DidChangeWatchedFiles { changes } => watched(alloc, changes.as_slice()),
        LspIn::Cancel { id } => cancelled(alloc, id),
        _ => String::from_str(alloc, "no notification"),
    }
}

fn unknown_method(alloc: Global, of: &Head) -> Result<String, AllocError> {
    let of = head(alloc, of)?;
    format!(in alloc; "{of}: UnknownMethod")
}

fn bad_params(alloc: Global, of: &Head, name: &Text) -> Result<String, AllocError> {
    let of = head(alloc, of)?;
    format!(in alloc; "{of}: BadParams({})", name.as_str())
}

/// A refusal in words.
fn refusal(alloc: Global, refusal: &Refusal) -> Result<String, OutOfMemory> {
    match refusal {
        Refusal::NotRequest => Ok(String::from_str(alloc, "NotRequest")?),
        Refusal::UnknownMethod(head) => Ok(unknown_method(alloc, head)?),
        Refusal::BadParams(head, name) => Ok(bad_params(alloc, head, name)?),
        Refusal::OutOfMemory => Err(OutOfMemory),
    }
}

/// The message that a body is.
pub fn read(alloc: Global, body: &str) -> Result<String, OutOfMemory> {
    match value(alloc, body.as_bytes())? {
        Some(value) => match read_lsp(alloc, &value) {
            Ok(read) => message(alloc, &read),
            Err(refused) => refusal(alloc, &refused),
        },
        None => no_json(alloc),
    }
}

/// Whether the message of a method is a request, in a table that names no id.
fn is_request(method: &str) -> bool {
    match method {
        "initialize" => true,
        "textDocument/definition" => true,
        "textDocument/references" => true,
        "textDocument/hover" => true,
        "textDocument/documentSymbol" => true,
        _ => false,
    }
}

/// The body of a message: a request has the id 5.
fn body(alloc: Global, method: &str, params: &str) -> Result<String, AllocError> {
    let id = if is_request(method) { "\"id\":5," } else { "" };
    format!(in alloc; "{{{id}\"jsonrpc\":\"2.0\",\"method\":\"{method}\",\"params\":{params}}}")
}

/// The message of these parameters.
pub fn of_parameters(alloc: Global, method: &str, params: &str) -> Result<String, OutOfMemory> {
    read(alloc, body(alloc, method, params)?.as_str())
}

/// Whether a body answers a request of ours.
pub fn is_answer(alloc: Global, body: &str) -> Result<String, OutOfMemory> {
    match value(alloc, body.as_bytes())? {
        Some(value) => Ok(format!(in alloc; "{}", is_response(&value))?),
        None => no_json(alloc),
    }
}
