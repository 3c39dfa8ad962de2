//! Which message a value is.
ghost use Rattle.std.specs.Prelude.{◌≡◌, Result, IfOk, IsTrue, Some, None, Err};
ghost use Rattle.serde_json.specs.View.{view};
ghost use Rattle.lsp_messages.specs.Messages.{is_response, is_version_2, method_of, id_of, head_with, unless_bad, refusal_for, initialized_at, definition_at, references_at, hover_at, symbols_of, request_of, notification_of, message_named, message_of, said_by};
ghost use Rattle.json_view.specs.Answers.{Answers};
ghost use Rattle.json_view.specs.Members.{shown};
ghost use Rattle.lsp_messages.specs.Parameters.{named_by};
ghost use Rattle.lsp_messages.specs.Shapes.{root_of, place_asked, references_asked, document_asked};
ghost use Rattle.lsp_messages.specs.declared.incoming.LspIn.{LspIn};
ghost use Rattle.lsp_messages.specs.declared.parameters.Parameter.{Parameter};

use crate::incoming::{Head, Id, LspIn, Refusal};
use crate::parameters::{Parameter, ParameterFault};
use crate::shapes::{
    cancelled, changed, closed, debugged, document_asked, opened, place_asked, references_asked,
    root, watched,
};
use hl_base::{OutOfMemory, Text};
use json_view::{MemberFault, need_int, need_text};
use serde_json::Value;
use std::alloc::Global;

/// Whether a value answers a request of ours (JSON-RPC 2.0, "Response object"): it has a result or an error, and no
/// method. It is no request; whoever sent no request drops it.
pub fn is_response(v: &Value) -> bool
    ensures answer { result ≡ is_response (view v.now) }
    ensures no_request { IsTrue result → message_of (view v.now) ≡ Err Refusal.NotRequest }
{
    v.get("method").is_none() && (v.get("result").is_some() || v.get("error").is_some())
}

/// The message that a value is, or the first reason why it is none. A method of a request is unknown as one of a
/// notification, and the other way round; the refusal's head has the id and the method as they came.
#[tactic(auto, unfolding(crate::specs::Messages::message_of))]
pub fn read_lsp(alloc: Global, v: &Value) -> Result<LspIn, Refusal>
    ensures { Answers said_by result (message_of (view v.now)) }
{
    if !is_version_2(v) {
        return Err(Refusal::NotRequest);
    }
    let method = method(v)?;
    let id = id(alloc, v)?;
    message_named(alloc, method, id, v)
}

/// Whether it names the version of JSON-RPC that LSP uses.
fn is_version_2(v: &Value) -> bool
    ensures { result ≡ is_version_2 (view v.now) }
{
    v.get("jsonrpc")
        .and_then(Value::as_str)
        .is_some_and(|version| "2.0" == version)
}

fn method(v: &Value) -> Result<&str, Refusal>
    ensures { Answers said_by (shown (λ s. s.now) result) (method_of (view v.now)) }
{
    match need_text(v, "method") {
        Ok(method) => Ok(method),
        Err(_) => Err(Refusal::NotRequest),
    }
}

/// The id, if there is one.
fn id(alloc: Global, v: &Value) -> Result<Option<Id>, Refusal>
    ensures { Answers said_by result (id_of (view v.now)) }
{
    match need_text(v, "id") {
        Ok(words) => Ok(Some(Id::Words(Text::of(alloc, words)?))),
        Err(MemberFault::Missing) => Ok(None),
        Err(MemberFault::WrongKind) => match need_int(v, "id") {
            Ok(number) => Ok(Some(Id::Number(number))),
            Err(_) => Err(Refusal::NotRequest),
        },
    }
}

fn message_named(alloc: Global, method: &str, id: Option<Id>, v: &Value) -> Result<LspIn, Refusal>
    ensures { Answers said_by result (message_named method.now id (view v.now)) }
{
    match id {
        Some(id) => request(alloc, method, id, v),
        None => notification(alloc, method, v),
    }
}

fn request(alloc: Global, method: &str, id: Id, v: &Value) -> Result<LspIn, Refusal>
    ensures { Answers said_by result (request_of method.now id (view v.now)) }
{
    match method {
        "initialize" => initialize(alloc, method, id, v),
        "shutdown" => Ok(LspIn::Shutdown { id }),
        "textDocument/definition" => definition(alloc, method, id, v),
        "textDocument/references" => references(alloc, method, id, v),
        "textDocument/hover" => hover(alloc, method, id, v),
        "textDocument/documentSymbol" => document_symbol(alloc, method, id, v),
        _ => unknown_method(alloc, method, Some(id)),
    }
}

fn initialize(alloc: Global, method: &str, id: Id, v: &Value) -> Result<LspIn, Refusal>
    ensures { Answers said_by result (unless_bad (head_with method.now (Some id))
        (initialized_at id (root_of (view v.now)))) }
{
    match root(alloc, v) {
        Ok(root) => Ok(LspIn::Initialize { id, root }),
        Err(fault) => bad_params(alloc, method, Some(id), fault),
    }
}

fn definition(alloc: Global, method: &str, id: Id, v: &Value) -> Result<LspIn, Refusal>
    ensures { Answers said_by result (unless_bad (head_with method.now (Some id))
        (definition_at id (place_asked (view v.now)))) }
{
    match place_asked(alloc, v) {
        Ok(asked) => Ok(LspIn::Definition {
            id,
            uri: asked.uri,
            at: asked.at,
        }),
        Err(fault) => bad_params(alloc, method, Some(id), fault),
    }
}

fn references(alloc: Global, method: &str, id: Id, v: &Value) -> Result<LspIn, Refusal>
    ensures { Answers said_by result (unless_bad (head_with method.now (Some id))
        (references_at id (references_asked (view v.now)))) }
{
    match references_asked(alloc, v) {
        Ok(asked) => Ok(LspIn::References {
            id,
            uri: asked.uri,
            at: asked.at,
            declarations: asked.declarations,
        }),
        Err(fault) => bad_params(alloc, method, Some(id), fault),
    }
}

fn hover(alloc: Global, method: &str, id: Id, v: &Value) -> Result<LspIn, Refusal>
    ensures { Answers said_by result (unless_bad (head_with method.now (Some id))
        (hover_at id (place_asked (view v.now)))) }
{
    match place_asked(alloc, v) {
        Ok(asked) => Ok(LspIn::Hover {
            id,
            uri: asked.uri,
            at: asked.at,
        }),
        Err(fault) => bad_params(alloc, method, Some(id), fault),
    }
}

fn document_symbol(alloc: Global, method: &str, id: Id, v: &Value) -> Result<LspIn, Refusal>
    ensures { Answers said_by result (unless_bad (head_with method.now (Some id))
        (symbols_of id (document_asked (view v.now)))) }
{
    match document_asked(alloc, v) {
        Ok(uri) => Ok(LspIn::DocumentSymbol { id, uri }),
        Err(fault) => bad_params(alloc, method, Some(id), fault),
    }
}

fn notification(alloc: Global, method: &str, v: &Value) -> Result<LspIn, Refusal>
    ensures { Answers said_by result (notification_of method.now (view v.now)) }
{
    match method {
        "initialized" => Ok(LspIn::Initialized),
        "exit" => Ok(LspIn::Exit),
        "textDocument/didOpen" => unless_bad(alloc, method, opened(alloc, v)),
        "textDocument/didChange" => unless_bad(alloc, method, changed(alloc, v)),
        "textDocument/didClose" => unless_bad(alloc, method, closed(alloc, v)),
        "textDocument/didSave" => Ok(LspIn::DidSave),
        "workspace/didChangeConfiguration" => Ok(LspIn::DidChangeConfiguration),
        "workspace/didChangeWatchedFiles" => unless_bad(alloc, method, watched(alloc, v)),
        "$/cancelRequest" => unless_bad(alloc, method, cancelled(alloc, v)),
        "hlasm/dap" => unless_bad(alloc, method, debugged(alloc, v)),
        _ => unknown_method(alloc, method, None),
    }
}

/// A notification whose parameters were read.
fn unless_bad(
    alloc: Global,
    method: &str,
    read: Result<LspIn, ParameterFault>,
) -> Result<LspIn, Refusal>
    ensures { (wanted : Result LspIn Parameter) → Answers named_by read wanted
        → Answers said_by result (unless_bad (head_with method.now None) wanted) }
{
    match read {
        Ok(message) => Ok(message),
        Err(fault) => bad_params(alloc, method, None, fault),
    }
}

fn bad_params(
    alloc: Global,
    method: &str,
    id: Option<Id>,
    fault: ParameterFault,
) -> Result<LspIn, Refusal>
    ensures { Answers said_by result (Err (refusal_for (head_with method.now id) fault)) }
{
    match fault {
        ParameterFault::Bad(parameter) => {
            let name = Text::of(alloc, parameter.name())?;
            Err(Refusal::BadParams(head(alloc, method, id)?, name))
        }
        ParameterFault::OutOfMemory => Err(Refusal::OutOfMemory),
    }
}

fn unknown_method(alloc: Global, method: &str, id: Option<Id>) -> Result<LspIn, Refusal>
    ensures { Answers said_by result (Err (Refusal.UnknownMethod (head_with method.now id))) }
{
    Err(Refusal::UnknownMethod(head(alloc, method, id)?))
}

fn head(alloc: Global, method: &str, id: Option<Id>) -> Result<Head, OutOfMemory>
    ensures { IfOk result (λ head. head ≡ head_with method.now id) }
{
    Ok(Head {
        id,
        method: Text::of(alloc, method)?,
    })
}
