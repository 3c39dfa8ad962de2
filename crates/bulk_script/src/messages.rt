//! The bodies of the messages (Language Server Protocol 3.17).
ghost use Rattle.std.specs.Prelude.{◌≡◌, Some, IfOk};
ghost use Rattle.serde_json.specs.View.{view};
ghost use Rattle.json_view.specs.Texts.{reading};
ghost use Rattle.bulk_script.specs.Messages as rules;

use crate::texts::Place;
use hl_base::OutOfMemory;
use json_view::compact;
use serde_json::{Value, json};
use std::alloc::Global;

/// The URI of the folder that the client works in.
const ROOT: &str = "file:///bulk";

/// The URI of the program.
pub const PROGRAM: &str = "file:///bulk/BULK.hlasm";

/// A notification.
fn notification(alloc: Global, method: &str, params: Value) -> Result<Value, OutOfMemory>
    ensures { IfOk result (λ v. view v ≡ rules.notification_value method.now (view params)) }
{
    Ok(json!(in alloc; {"jsonrpc": "2.0", "method": method, "params": params})?)
}

/// The folder of the client, as the parameters of its first request.
fn initialize_params(alloc: Global) -> Result<Value, OutOfMemory>
    ensures { IfOk result (λ v. view v ≡ rules.initialize_params) }
{
    Ok(json!(in alloc; {"rootUri": ROOT})?)
}

/// A request of the number 1.
fn first_request(alloc: Global, method: &str, params: Value) -> Result<Value, OutOfMemory>
    ensures { IfOk result (λ v. view v ≡ rules.first_request method.now (view params)) }
{
    Ok(json!(in alloc; {"id": 1u32, "jsonrpc": "2.0", "method": method, "params": params})?)
}

/// The client begins in its folder, as a value.
fn initialize_json(alloc: Global) -> Result<Value, OutOfMemory>
    ensures { IfOk result (λ v. view v ≡ rules.initialize_value) }
{
    let params = initialize_params(alloc)?;
    first_request(alloc, "initialize", params)
}

/// The client begins in its folder.
pub fn initialize(alloc: Global) -> Result<Vec<u8>, OutOfMemory>
    ensures { IfOk result (λ body. reading body.items ≡ Some rules.initialize_value) }
{
    let value = initialize_json(alloc)?;
    compact(alloc, &value)
}

/// The client is ready, as a value.
fn initialized_json(alloc: Global) -> Result<Value, OutOfMemory>
    ensures { IfOk result (λ v. view v ≡ rules.initialized_value) }
{
    let params = json!(in alloc; {})?;
    notification(alloc, "initialized", params)
}

/// The client is ready.
pub fn initialized(alloc: Global) -> Result<Vec<u8>, OutOfMemory>
    ensures { IfOk result (λ body. reading body.items ≡ Some rules.initialized_value) }
{
    let value = initialized_json(alloc)?;
    compact(alloc, &value)
}

/// The program with a text, as a value.
fn document_json(alloc: Global, text: &str) -> Result<Value, OutOfMemory>
    ensures { IfOk result (λ v. view v ≡ rules.opened_document text.now) }
{
    Ok(json!(in alloc; {
        "languageId": "hlasm",
        "text": text,
        "uri": PROGRAM,
        "version": 1u32
    })?)
}

/// The program is opened with a text, as a value.
fn opened_json(alloc: Global, text: &str) -> Result<Value, OutOfMemory>
    ensures { IfOk result (λ v. view v ≡ rules.opened_value text.now) }
{
    let document = document_json(alloc, text)?;
    let params = json!(in alloc; {"textDocument": document})?;
    notification(alloc, "textDocument/didOpen", params)
}

/// The program is opened with a text.
pub fn opened(alloc: Global, text: &str) -> Result<Vec<u8>, OutOfMemory>
    ensures { IfOk result (λ body. reading body.items ≡ Some (rules.opened_value text.now)) }
{
    let value = opened_json(alloc, text)?;
    compact(alloc, &value)
}

/// A place of a text.
fn position_json(alloc: Global, line: u32, column: u32) -> Result<Value, OutOfMemory>
    ensures { IfOk result (λ v. view v ≡ rules.position_value line column) }
{
    Ok(json!(in alloc; {"character": column, "line": line})?)
}

/// The range of a place.
fn range_json(alloc: Global, place: Place) -> Result<Value, OutOfMemory>
    ensures { IfOk result (λ v. view v ≡ rules.range_value place) }
{
    let start = position_json(alloc, place.line, place.first)?;
    let end = position_json(alloc, place.line, place.end)?;
    Ok(json!(in alloc; {"end": end, "start": start})?)
}

/// The text of a place becomes another, as a value.
fn change_json(alloc: Global, place: Place, text: &str) -> Result<Value, OutOfMemory>
    ensures { IfOk result (λ v. view v ≡ rules.change_value place text.now) }
{
    let range = range_json(alloc, place)?;
    Ok(json!(in alloc; {"range": range, "text": text})?)
}

/// The program in the version of a number.
fn versioned_json(alloc: Global, version: u32) -> Result<Value, OutOfMemory>
    ensures { IfOk result (λ v. view v ≡ rules.versioned_document version) }
{
    Ok(json!(in alloc; {"uri": PROGRAM, "version": version})?)
}

/// The parameters of a change.
fn changed_params(
    alloc: Global,
    version: u32,
    place: Place,
    text: &str,
) -> Result<Value, OutOfMemory>
    ensures { IfOk result (λ v. view v ≡ rules.changed_params version place text.now) }
{
    let change = change_json(alloc, place, text)?;
    let document = versioned_json(alloc, version)?;
    Ok(json!(in alloc; {"contentChanges": [change], "textDocument": document})?)
}

/// The text of a place becomes another in the version of a number, as a value.
fn changed_json(alloc: Global, version: u32, place: Place, text: &str) -> Result<Value, OutOfMemory>
    ensures { IfOk result (λ v. view v ≡ rules.changed_value version place text.now) }
{
    let params = changed_params(alloc, version, place, text)?;
    notification(alloc, "textDocument/didChange", params)
}

/// The text of a place of the program becomes another, in the version of a number.
pub fn changed(
    alloc: Global,
    version: u32,
    place: Place,
    text: &str,
) -> Result<Vec<u8>, OutOfMemory>
    ensures { IfOk result (λ body. reading body.items ≡ Some (rules.changed_value version place text.now)) }
{
    let value = changed_json(alloc, version, place, text)?;
    compact(alloc, &value)
}
