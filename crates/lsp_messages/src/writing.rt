//! The bodies that are written.
ghost use Rattle.std.specs.Prelude.{◌≡◌, ◌≢◌, ◌≤◌, [], false, codes, Some, IfOk, map};
ghost use Rattle.serde_json.specs.Data.{array, depth};
ghost use Rattle.serde_json.specs.Read.{max_depth};
ghost use Rattle.serde_json.specs.View.{view, items_of};
ghost use Rattle.json_view.specs.Texts.{reading};
ghost use Rattle.lsp_messages.specs.Written.{id_value, answered_value, reply_value, error_value, fault_value, notification_value, log_params, position_value, span_value, location_value, relation_value, report_value, placed_value, diagnostic_value, published_params, value_of, text_of, has_fraction, sync_value, capabilities_value, server_value, initialize_result_value, dap_params};

use crate::incoming::Id;
use crate::members::{
    no_members, object, with_copy, with_flag, with_integer, with_item, with_made, with_number,
    with_text, with_value, with_word,
};
use crate::outgoing::{Diagnostic, LspOut, Relation, Span};
use hl_base::{OutOfMemory, Position, Text};
use json_view::compact;
use serde_json::Value;
use std::alloc::Global;

impl LspOut {
    /// The body of the message, in UTF-8 without blanks. The digits of a fraction in a reply's result or in a debug message are
    /// free but for what they read as; no other message has one.
    pub fn text(&self, alloc: Global) -> Result<Vec<u8>, OutOfMemory>
        ensures text { IfOk result (λ text. has_fraction self.now ≡ false
            → text.items ≡ text_of self.now) }
        ensures reads_back { IfOk result (λ text. depth (value_of self.now) ≤ max_depth
            → reading text.items ≡ Some (value_of self.now)) }
    {
        compact(alloc, &self.value(alloc)?)
    }

    /// The message as a JSON value.
    #[tactic(auto, unfolding(crate::specs::Written::value_of))]
    fn value(&self, alloc: Global) -> Result<Value, OutOfMemory>
        ensures { IfOk result (λ v. view v ≡ value_of self.now) }
    {
        match self {
            LspOut::Reply { id, result } => reply(alloc, id, result),
            LspOut::Fault { id, code, message } => fault(alloc, id, *code, message),
            LspOut::Log { message } => log(alloc, message),
            LspOut::Published {
                uri,
                version,
                diagnostics,
            } => published(alloc, uri, *version, diagnostics.as_slice()),
            LspOut::Dap { session, message } => debugged(alloc, *session, message),
        }
    }
}

fn reply(alloc: Global, id: &Id, outcome: &Value) -> Result<Value, OutOfMemory>
    ensures { IfOk result (λ v. view v ≡ reply_value id.now (view outcome.now)) }
{
    let made = with_made(alloc, no_members(alloc), "id", id_json(alloc, id));
    let made = with_word(alloc, made, "jsonrpc", "2.0");
    object(with_copy(alloc, made, "result", outcome))
}

fn fault(alloc: Global, id: &Option<Id>, code: i32, message: &Text) -> Result<Value, OutOfMemory>
    ensures { IfOk result (λ v. view v ≡ fault_value id.now code message.now) }
{
    let error = error_json(alloc, code, message);
    let made = with_made(alloc, no_members(alloc), "error", error);
    let made = with_made(alloc, made, "id", answered_json(alloc, id));
    object(with_word(alloc, made, "jsonrpc", "2.0"))
}

fn log(alloc: Global, message: &Text) -> Result<Value, OutOfMemory>
    ensures { IfOk result (λ v. view v
        ≡ notification_value (codes "window/logMessage") (log_params message.now)) }
{
    let params = log_json(alloc, message)?;
    notification(alloc, "window/logMessage", params)
}

fn published(
    alloc: Global,
    uri: &Text,
    version: Option<i32>,
    diagnostics: &[Diagnostic],
) -> Result<Value, OutOfMemory>
    ensures { IfOk result (λ v. view v ≡ notification_value
        (codes "textDocument/publishDiagnostics")
        (published_params uri.now version diagnostics.now)) }
{
    let params = published_json(alloc, uri, version, diagnostics)?;
    notification(alloc, "textDocument/publishDiagnostics", params)
}

fn debugged(alloc: Global, session: u32, message: &Value) -> Result<Value, OutOfMemory>
    ensures { IfOk result (λ v. view v
        ≡ notification_value (codes "hlasm/dap") (dap_params session (view message.now))) }
{
    let params = dap_json(alloc, session, message)?;
    notification(alloc, "hlasm/dap", params)
}

fn notification(alloc: Global, method: &str, params: Value) -> Result<Value, OutOfMemory>
    ensures { IfOk result (λ v. view v ≡ notification_value method.now (view params)) }
{
    let made = with_word(alloc, no_members(alloc), "jsonrpc", "2.0");
    let made = with_word(alloc, made, "method", method);
    object(with_value(alloc, made, "params", params))
}

fn id_json(alloc: Global, id: &Id) -> Result<Value, OutOfMemory>
    ensures { IfOk result (λ v. view v ≡ id_value id.now) }
{
    match id {
        Id::Number(number) => Ok(Value::from(*number)),
        Id::Words(words) => Ok(Value::try_from_str(alloc, words.as_str())?),
    }
}

fn answered_json(alloc: Global, id: &Option<Id>) -> Result<Value, OutOfMemory>
    ensures { IfOk result (λ v. view v ≡ answered_value id.now) }
{
    match id {
        Some(id) => id_json(alloc, id),
        None => Ok(Value::Null),
    }
}

fn error_json(alloc: Global, code: i32, message: &Text) -> Result<Value, OutOfMemory>
    ensures { IfOk result (λ v. view v ≡ error_value code message.now) }
{
    let made = with_integer(alloc, no_members(alloc), "code", code);
    object(with_text(alloc, made, "message", message))
}

fn log_json(alloc: Global, message: &Text) -> Result<Value, OutOfMemory>
    ensures { IfOk result (λ v. view v ≡ log_params message.now) }
{
    let made = with_text(alloc, no_members(alloc), "message", message);
    object(with_number(alloc, made, "type", 2))
}

fn dap_json(alloc: Global, session: u32, message: &Value) -> Result<Value, OutOfMemory>
    ensures { IfOk result (λ v. view v ≡ dap_params session (view message.now)) }
{
    let made = with_copy(alloc, no_members(alloc), "message", message);
    object(with_number(alloc, made, "session", session))
}

fn published_json(
    alloc: Global,
    uri: &Text,
    version: Option<i32>,
    diagnostics: &[Diagnostic],
) -> Result<Value, OutOfMemory>
    ensures { IfOk result (λ v. view v ≡ published_params uri.now version diagnostics.now) }
{
    match version {
        Some(version) => versioned_json(alloc, uri, version, diagnostics),
        None => unversioned_json(alloc, uri, diagnostics),
    }
}

/// The reports of a version of a document.
fn versioned_json(
    alloc: Global,
    uri: &Text,
    version: i32,
    diagnostics: &[Diagnostic],
) -> Result<Value, OutOfMemory>
    ensures { IfOk result (λ v. view v ≡ published_params uri.now (Some version) diagnostics.now) }
{
    let list = diagnostics_json(alloc, diagnostics);
    let made = with_made(alloc, no_members(alloc), "diagnostics", list);
    let made = with_text(alloc, made, "uri", uri);
    object(with_integer(alloc, made, "version", version))
}

/// The reports of a document that has no version.
fn unversioned_json(
    alloc: Global,
    uri: &Text,
    diagnostics: &[Diagnostic],
) -> Result<Value, OutOfMemory>
    ensures { IfOk result (λ v. view v ≡ published_params uri.now None diagnostics.now) }
{
    let list = diagnostics_json(alloc, diagnostics);
    let made = with_made(alloc, no_members(alloc), "diagnostics", list);
    object(with_text(alloc, made, "uri", uri))
}

fn diagnostics_json(alloc: Global, diagnostics: &[Diagnostic]) -> Result<Value, OutOfMemory>
    ensures { IfOk result (λ v. view v ≡ array (items_of (map diagnostic_value diagnostics.now))) }
{
    let mut values = Vec::with_capacity(alloc, diagnostics.len())?;
    for diagnostic in diagnostics {
        values = with_item(values, diagnostic_json(alloc, diagnostic))?;
    }
    Ok(Value::Array(values))
}

fn diagnostic_json(alloc: Global, diagnostic: &Diagnostic) -> Result<Value, OutOfMemory>
    ensures { IfOk result (λ v. view v ≡ diagnostic_value diagnostic.now) }
{
    let related = diagnostic.related.as_slice();
    if related.is_empty() {
        lone_json(alloc, diagnostic)
    } else {
        related_json(alloc, diagnostic, related)
    }
}

/// A report that speaks of no other place.
fn lone_json(alloc: Global, diagnostic: &Diagnostic) -> Result<Value, OutOfMemory>
    ensures { IfOk result (λ v. view v ≡ report_value diagnostic.now []) }
{
    let made = with_text(alloc, no_members(alloc), "code", &diagnostic.code);
    let made = with_text(alloc, made, "message", &diagnostic.message);
    let made = with_made(alloc, made, "range", span_json(alloc, diagnostic.range));
    let severity = Value::from(diagnostic.severity);
    let made = with_made(alloc, made, "severity", Ok(severity));
    object(with_word(alloc, made, "source", "hlasm_ls"))
}

/// A report that speaks of other places.
fn related_json(
    alloc: Global,
    diagnostic: &Diagnostic,
    related: &[Relation],
) -> Result<Value, OutOfMemory>
    requires { related.now ≢ [] }
    ensures { IfOk result (λ v. view v ≡ report_value diagnostic.now related.now) }
{
    let places = relations_json(alloc, related)?;
    placed_json(alloc, diagnostic, places)
}

fn placed_json(alloc: Global, diagnostic: &Diagnostic, places: Value) -> Result<Value, OutOfMemory>
    ensures { IfOk result (λ v. view v ≡ placed_value diagnostic.now (view places)) }
{
    let made = with_value(alloc, no_members(alloc), "relatedInformation", places);
    let made = with_text(alloc, made, "code", &diagnostic.code);
    let made = with_text(alloc, made, "message", &diagnostic.message);
    let made = with_made(alloc, made, "range", span_json(alloc, diagnostic.range));
    let severity = Value::from(diagnostic.severity);
    let made = with_made(alloc, made, "severity", Ok(severity));
    object(with_word(alloc, made, "source", "hlasm_ls"))
}

fn relations_json(alloc: Global, related: &[Relation]) -> Result<Value, OutOfMemory>
    ensures { IfOk result (λ v. view v ≡ array (items_of (map relation_value related.now))) }
{
    let mut values = Vec::with_capacity(alloc, related.len())?;
    for relation in related {
        values = with_item(values, relation_json(alloc, relation))?;
    }
    Ok(Value::Array(values))
}

fn relation_json(alloc: Global, relation: &Relation) -> Result<Value, OutOfMemory>
    ensures { IfOk result (λ v. view v ≡ relation_value relation.now) }
{
    let location = location_json(alloc, &relation.uri, relation.range);
    let made = with_made(alloc, no_members(alloc), "location", location);
    object(with_text(alloc, made, "message", &relation.message))
}

fn location_json(alloc: Global, uri: &Text, range: Span) -> Result<Value, OutOfMemory>
    ensures { IfOk result (λ v. view v ≡ location_value uri.now range) }
{
    let made = with_made(alloc, no_members(alloc), "range", span_json(alloc, range));
    object(with_text(alloc, made, "uri", uri))
}

fn span_json(alloc: Global, span: Span) -> Result<Value, OutOfMemory>
    ensures { IfOk result (λ v. view v ≡ span_value span) }
{
    let end = position_json(alloc, span.end);
    let made = with_made(alloc, no_members(alloc), "end", end);
    let start = position_json(alloc, span.start);
    object(with_made(alloc, made, "start", start))
}

fn position_json(alloc: Global, position: Position) -> Result<Value, OutOfMemory>
    ensures { IfOk result (λ v. view v ≡ position_value position) }
{
    let made = with_number(alloc, no_members(alloc), "character", position.character);
    object(with_number(alloc, made, "line", position.line))
}

/// The result of `initialize`: what the server offers, its name and its version.
pub fn initialize_result(alloc: Global) -> Result<Value, OutOfMemory>
    ensures { IfOk result (λ v. view v ≡ initialize_result_value) }
{
    let capabilities = capabilities_json(alloc);
    let made = with_made(alloc, no_members(alloc), "capabilities", capabilities);
    object(with_made(alloc, made, "serverInfo", server_json(alloc)))
}

fn capabilities_json(alloc: Global) -> Result<Value, OutOfMemory>
    ensures { IfOk result (λ v. view v ≡ capabilities_value) }
{
    let made = with_word(alloc, no_members(alloc), "positionEncoding", "utf-16");
    let made = with_made(alloc, made, "textDocumentSync", sync_json(alloc));
    let made = with_flag(alloc, made, "hoverProvider", true);
    let made = with_flag(alloc, made, "definitionProvider", true);
    let made = with_flag(alloc, made, "referencesProvider", true);
    object(with_flag(alloc, made, "documentSymbolProvider", true))
}

fn sync_json(alloc: Global) -> Result<Value, OutOfMemory>
    ensures { IfOk result (λ v. view v ≡ sync_value) }
{
    let made = with_number(alloc, no_members(alloc), "change", 2);
    object(with_flag(alloc, made, "openClose", true))
}

fn server_json(alloc: Global) -> Result<Value, OutOfMemory>
    ensures { IfOk result (λ v. view v ≡ server_value) }
{
    let made = with_word(alloc, no_members(alloc), "name", "hlasm_ls");
    object(with_word(alloc, made, "version", "1"))
}
