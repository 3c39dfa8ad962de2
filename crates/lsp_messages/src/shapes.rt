//! The parameters of each message.
ghost use Rattle.std.specs.Prelude.{◌≡◌, map, option_map};
ghost use Rattle.serde_json.specs.Data.{object, no_members};
ghost use Rattle.serde_json.specs.Find.{as_str, as_array};
ghost use Rattle.serde_json.specs.View.{view, items_view};
ghost use Rattle.json_view.specs.Answers.{Answers};
ghost use Rattle.json_view.specs.Members.{shown};
ghost use Rattle.lsp_messages.specs.Parameters.{named_by, all, each};
ghost use Rattle.lsp_messages.specs.Shapes.{params_of, document_in, is_null_at, given, checked_uri, folder_in, first_folder, root_among, own_root, folders_in, root_of, opened, place_in, place_at, edit_within, edit_in, edits_in, changed, closed, file_change_in, file_changes_in, watched, asked_uri, place_asked, references_asked, document_asked, cancelled, debugged};

use crate::incoming::{DebugMessage, FileChange, FileChanges, LspIn};
use crate::parameters::{
    Parameter, ParameterFault, change_kind, coordinate, element, list, object, object_if,
    request_id, session_number, text, truth, whole,
};
use file_uri::{UriFault, file_path};
use hl_base::{Edit, Edits, Position, Text};
use json_view::{opt_list, opt_text};
use serde_json::{Map, Value};
use std::alloc::Global;

/// The document and the place that a request is on.
#[derive(Drop)]
pub struct AskedPlace {
    pub uri: Text,
    pub at: Position,
}

/// The same of a request for references, and whether the definition is to be among them.
#[derive(Drop)]
pub struct AskedReferences {
    pub uri: Text,
    pub at: Position,
    pub declarations: bool,
}

/// The parameters of a message, or the value that is handed in where there are none.
fn params<'a>(message: &'a Value, none: &'a Value) -> Result<&'a Value, Parameter>
    requires { view none.now ≡ object no_members }
    ensures { shown (λ o. view o.now) result ≡ params_of (view message.now) }
{
    Ok(object_if(message, Parameter::Params)?.unwrap_or(none))
}

/// The URI of the folder that the client works in.
#[tactic(auto, unfolding(crate::specs::Shapes::root_of))]
pub fn root(alloc: Global, message: &Value) -> Result<Option<Text>, ParameterFault>
    ensures { Answers named_by result (root_of (view message.now)) }
{
    let none = Value::Object(Map::new(alloc));
    let params = params(message, &none)?;
    let own = own_root(alloc, params)?;
    let folders = folders(params)?;
    root_among(alloc, own, folders)
}

fn is_null_at(value: &Value, parameter: Parameter) -> bool
    ensures { result ≡ is_null_at parameter (view value.now) }
{
    value
        .get(parameter.name())
        .and_then(Value::as_null)
        .is_some()
}

fn given_text(value: &Value, parameter: Parameter) -> Result<Option<&str>, Parameter>
    ensures { shown (option_map (λ s. s.now)) result ≡ given as_str parameter (view value.now) }
{
    if is_null_at(value, parameter) {
        return Ok(None);
    }
    opt_text(value, parameter.name()).map_err(|_| parameter)
}

fn given_list<'a>(value: &'a Value, parameter: Parameter) -> Result<Option<&'a [Value]>, Parameter>
    ensures { shown (option_map (λ l. items_view l.now)) result
        ≡ given as_array parameter (view value.now) }
{
    if is_null_at(value, parameter) {
        return Ok(None);
    }
    opt_list(value, parameter.name()).map_err(|_| parameter)
}

/// The client's own root.
fn own_root<'a>(alloc: Global, params: &'a Value) -> Result<Option<&'a str>, ParameterFault>
    ensures { Answers named_by (shown (option_map (λ s. s.now)) result) (own_root (view params.now)) }
{
    let own = given_text(params, Parameter::RootUri)?;
    if let Some(uri) = own {
        check_uri(alloc, uri, Parameter::RootUri)?;
    }
    Ok(own)
}

fn folders(params: &Value) -> Result<&[Value], Parameter>
    ensures { shown (λ l. map view l.now) result ≡ folders_in (view params.now) }
{
    match given_list(params, Parameter::WorkspaceFolders)? {
        Some(folders) => Ok(folders),
        None => Ok(&[]),
    }
}

fn root_among(
    alloc: Global,
    own: Option<&str>,
    folders: &[Value],
) -> Result<Option<Text>, ParameterFault>
    ensures { Answers named_by result (root_among (option_map (λ s. s.now) own.entry) (map view folders.now)) }
{
    match own {
        Some(uri) => {
            check_folders(folders)?;
            Ok(Some(Text::of(alloc, uri)?))
        }
        None => first_folder(alloc, folders),
    }
}

fn first_folder(alloc: Global, folders: &[Value]) -> Result<Option<Text>, ParameterFault>
    ensures { Answers named_by result (first_folder (map view folders.now)) }
{
    let Some((first, others)) = folders.split_first() else {
        return Ok(None);
    };
    let uri = folder(first)?;
    check_uri(alloc, uri, Parameter::Uri)?;
    check_folders(others)?;
    Ok(Some(Text::of(alloc, uri)?))
}

fn check_folders(folders: &[Value]) -> Result<(), Parameter>
    ensures { result ≡ all folder_in (map view folders.now) }
{
    for element in folders {
        folder(element)?;
    }
    Ok(())
}

/// The URI of a folder.
fn folder(value: &Value) -> Result<&str, Parameter>
    ensures { shown (λ s. s.now) result ≡ folder_in (view value.now) }
{
    text(element(value, Parameter::WorkspaceFolders)?, Parameter::Uri)
}

fn check_uri(alloc: Global, uri: &str, parameter: Parameter) -> Result<(), ParameterFault>
    ensures { Answers named_by result (checked_uri parameter uri.now) }
{
    match file_path(alloc, uri) {
        Ok(_) => Ok(()),
        Err(UriFault::BadUri) => Err(ParameterFault::Bad(parameter)),
        Err(UriFault::OutOfMemory) => Err(ParameterFault::OutOfMemory),
    }
}

/// A document that is opened.
#[tactic(auto, unfolding(crate::specs::Shapes::opened))]
pub fn opened(alloc: Global, message: &Value) -> Result<LspIn, ParameterFault>
    ensures { Answers named_by result (opened (view message.now)) }
{
    let none = Value::Object(Map::new(alloc));
    let document = document(message, &none)?;
    let uri = text(document, Parameter::Uri)?;
    let language = text(document, Parameter::LanguageId)?;
    let version = whole(document, Parameter::Version)?;
    let content = text(document, Parameter::Text)?;
    Ok(LspIn::DidOpen {
        uri: Text::of(alloc, uri)?,
        language: Text::of(alloc, language)?,
        version,
        text: Text::of(alloc, content)?,
    })
}

/// A document that is closed.
#[tactic(auto, unfolding(crate::specs::Shapes::closed))]
pub fn closed(alloc: Global, message: &Value) -> Result<LspIn, ParameterFault>
    ensures { Answers named_by result (closed (view message.now)) }
{
    let none = Value::Object(Map::new(alloc));
    let uri = text(document(message, &none)?, Parameter::Uri)?;
    Ok(LspIn::DidClose {
        uri: Text::of(alloc, uri)?,
    })
}

/// A document that is changed.
#[tactic(auto, unfolding(crate::specs::Shapes::changed))]
pub fn changed(alloc: Global, message: &Value) -> Result<LspIn, ParameterFault>
    ensures { Answers named_by result (changed (view message.now)) }
{
    let none = Value::Object(Map::new(alloc));
    let params = params(message, &none)?;
    let document = object(params, Parameter::TextDocument)?;
    let uri = text(document, Parameter::Uri)?;
    let version = whole(document, Parameter::Version)?;
    let edits = edits(alloc, params)?;
    Ok(LspIn::DidChange {
        uri: Text::of(alloc, uri)?,
        version,
        edits,
    })
}

/// The members that name a document.
fn document<'a>(message: &'a Value, none: &'a Value) -> Result<&'a Value, Parameter>
    requires { view none.now ≡ object no_members }
    ensures { shown (λ o. view o.now) result ≡ document_in (view message.now) }
{
    object(params(message, none)?, Parameter::TextDocument)
}

fn edits(alloc: Global, params: &Value) -> Result<Edits, ParameterFault>
    ensures { Answers named_by result (edits_in (view params.now)) }
{
    edits_of(alloc, list(params, Parameter::ContentChanges)?)
}

fn edits_of(alloc: Global, changes: &[Value]) -> Result<Edits, ParameterFault>
    ensures { Answers named_by result (each edit_in (map view changes.now)) }
{
    let mut edits = Edits::new(alloc);
    for change in changes {
        edits.push(edit(alloc, change)?)?;
    }
    Ok(edits)
}

fn edit(alloc: Global, value: &Value) -> Result<Edit, ParameterFault>
    ensures { Answers named_by result (edit_in (view value.now)) }
{
    let change = element(value, Parameter::ContentChanges)?;
    let replacement = text(change, Parameter::Text)?;
    let range = object_if(change, Parameter::Range)?;
    edit_within(alloc, replacement, range)
}

fn edit_within(
    alloc: Global,
    replacement: &str,
    range: Option<&Value>,
) -> Result<Edit, ParameterFault>
    ensures { Answers named_by result (edit_within replacement.now (option_map (λ o. view o.now) range.entry)) }
{
    let (from, to) = match range {
        None => (None, None),
        Some(range) => (
            Some(place_at(range, Parameter::Start)?),
            Some(place_at(range, Parameter::End)?),
        ),
    };
    Ok(Edit {
        from,
        to,
        text: Text::of(alloc, replacement)?,
    })
}

fn place_at(range: &Value, parameter: Parameter) -> Result<Position, Parameter>
    ensures { result ≡ place_at parameter (view range.now) }
{
    place(object(range, parameter)?)
}

fn place(value: &Value) -> Result<Position, Parameter>
    ensures { result ≡ place_in (view value.now) }
{
    Ok(Position {
        line: coordinate(value, Parameter::Line)?,
        character: coordinate(value, Parameter::Character)?,
    })
}

/// Files that changed outside the editor.
#[tactic(auto, unfolding(crate::specs::Shapes::watched))]
pub fn watched(alloc: Global, message: &Value) -> Result<LspIn, ParameterFault>
    ensures { Answers named_by result (watched (view message.now)) }
{
    let none = Value::Object(Map::new(alloc));
    let changes = file_changes(alloc, params(message, &none)?)?;
    Ok(LspIn::DidChangeWatchedFiles { changes })
}

fn file_changes(alloc: Global, params: &Value) -> Result<FileChanges, ParameterFault>
    ensures { Answers named_by result (file_changes_in (view params.now)) }
{
    file_changes_of(alloc, list(params, Parameter::Changes)?)
}

fn file_changes_of(alloc: Global, elements: &[Value]) -> Result<FileChanges, ParameterFault>
    ensures { Answers named_by result (each file_change_in (map view elements.now)) }
{
    let mut changes = FileChanges::new(alloc);
    for element in elements {
        changes.push(file_change(alloc, element)?)?;
    }
    Ok(changes)
}

fn file_change(alloc: Global, value: &Value) -> Result<FileChange, ParameterFault>
    ensures { Answers named_by result (file_change_in (view value.now)) }
{
    let change = element(value, Parameter::Changes)?;
    let uri = text(change, Parameter::Uri)?;
    let kind = change_kind(change, Parameter::ChangeType)?;
    Ok(FileChange {
        uri: Text::of(alloc, uri)?,
        kind,
    })
}

/// The URI of the document that is asked for.
fn asked_uri(alloc: Global, params: &Value) -> Result<Text, ParameterFault>
    ensures { Answers named_by result (asked_uri (view params.now)) }
{
    let uri = text(object(params, Parameter::TextDocument)?, Parameter::Uri)?;
    check_uri(alloc, uri, Parameter::Uri)?;
    Ok(Text::of(alloc, uri)?)
}

/// The place of which a definition or a hover is asked for.
#[tactic(auto, unfolding(crate::specs::Shapes::place_asked))]
pub fn place_asked(alloc: Global, message: &Value) -> Result<AskedPlace, ParameterFault>
    ensures { Answers named_by result (place_asked (view message.now)) }
{
    let none = Value::Object(Map::new(alloc));
    let params = params(message, &none)?;
    let uri = asked_uri(alloc, params)?;
    let at = place_at(params, Parameter::Place)?;
    Ok(AskedPlace { uri, at })
}

/// The place of which references are asked for.
#[tactic(auto, unfolding(crate::specs::Shapes::references_asked))]
pub fn references_asked(alloc: Global, message: &Value) -> Result<AskedReferences, ParameterFault>
    ensures { Answers named_by result (references_asked (view message.now)) }
{
    let none = Value::Object(Map::new(alloc));
    let params = params(message, &none)?;
    let uri = asked_uri(alloc, params)?;
    let at = place_at(params, Parameter::Place)?;
    let context = object(params, Parameter::Context)?;
    let declarations = truth(context, Parameter::IncludeDeclaration)?;
    Ok(AskedReferences {
        uri,
        at,
        declarations,
    })
}

/// The document of which the symbols are asked for.
#[tactic(auto, unfolding(crate::specs::Shapes::document_asked))]
pub fn document_asked(alloc: Global, message: &Value) -> Result<Text, ParameterFault>
    ensures { Answers named_by result (document_asked (view message.now)) }
{
    let none = Value::Object(Map::new(alloc));
    asked_uri(alloc, params(message, &none)?)
}

/// A request that is cancelled.
#[tactic(auto, unfolding(crate::specs::Shapes::cancelled))]
pub fn cancelled(alloc: Global, message: &Value) -> Result<LspIn, ParameterFault>
    ensures { Answers named_by result (cancelled (view message.now)) }
{
    let none = Value::Object(Map::new(alloc));
    let params = params(message, &none)?;
    let id = request_id(alloc, params, Parameter::Request)?;
    Ok(LspIn::Cancel { id })
}

/// A message of a debugger's client.
#[tactic(auto, unfolding(crate::specs::Shapes::debugged))]
pub fn debugged(alloc: Global, message: &Value) -> Result<LspIn, ParameterFault>
    ensures { Answers named_by result (debugged (view message.now)) }
{
    let none = Value::Object(Map::new(alloc));
    let params = params(message, &none)?;
    let session = session_number(params, Parameter::Session)?;
    let request = object(params, Parameter::Message)?;
    Ok(LspIn::Dap {
        session,
        message: DebugMessage::of(request)?,
    })
}
