//! The parameters of messages, by name, and what each is read as.
ghost use Rattle.std.specs.Prelude.{◌≡◌, option_map};
ghost use Rattle.serde_json.specs.Find.{as_str, as_array, as_bool};
ghost use Rattle.serde_json.specs.View.{view, items_view};
ghost use Rattle.json_view.specs.Answers.{Answers};
ghost use Rattle.json_view.specs.Members.{shown, as_i32, as_object_value};
ghost use Rattle.lsp_messages.specs.Parameters.{name_of, needed, optional, object_in, coordinate, session_number, as_id, as_change_kind, named_by};

use crate::incoming::{ChangeKind, Id};
use hl_base::{OutOfMemory, Text};
use json_view::{
    MemberFault, need_int, need_list, need_object, need_text, need_uint, opt_bool, opt_object,
};
use serde_json::Value;
use std::alloc::Global;

/// A member of the parameters of a message.
#[derive(Clone, Copy, Debug, PartialEq, Eq)]
pub enum Parameter {
    Params,
    RootUri,
    WorkspaceFolders,
    TextDocument,
    Uri,
    LanguageId,
    Version,
    Text,
    ContentChanges,
    Range,
    Start,
    End,
    Line,
    Character,
    Changes,
    ChangeType,
    Place,
    Context,
    IncludeDeclaration,
    Request,
    Session,
    Message,
}

impl Parameter {
    /// Its name (LSP 3.17).
    pub fn name(self) -> &'static str
        ensures { result.now ≡ name_of self }
    {
        match self {
            Parameter::Params => "params",
            Parameter::RootUri => "rootUri",
            Parameter::WorkspaceFolders => "workspaceFolders",
            Parameter::TextDocument => "textDocument",
            Parameter::Uri => "uri",
            Parameter::LanguageId => "languageId",
            Parameter::Version => "version",
            Parameter::Text => "text",
            Parameter::ContentChanges => "contentChanges",
            Parameter::Range => "range",
            Parameter::Start => "start",
            Parameter::End => "end",
            Parameter::Line => "line",
            Parameter::Character => "character",
            Parameter::Changes => "changes",
            Parameter::ChangeType => "type",
            Parameter::Place => "position",
            Parameter::Context => "context",
            Parameter::IncludeDeclaration => "includeDeclaration",
            Parameter::Request => "id",
            Parameter::Session => "session",
            Parameter::Message => "message",
        }
    }
}

/// Why there are no parameters of a message: the first that is missing or wrong, or want of memory.
#[derive(Clone, Copy, Debug, PartialEq, Eq)]
pub enum ParameterFault {
    Bad(Parameter),
    OutOfMemory,
}

impl From<Parameter> for ParameterFault {
    ghost use Rattle.lsp_messages.specs.declared.parameters.ParameterFault.TheVariants.{Bad as bad};

    ghost from_gives = { λ parameter fault. fault ≡ bad parameter };

    fn from(parameter: Parameter) -> ParameterFault {
        ParameterFault::Bad(parameter)
    }
}

impl From<OutOfMemory> for ParameterFault {
    ghost use Rattle.lsp_messages.specs.declared.parameters.ParameterFault.TheVariants.{OutOfMemory as out_of_memory};

    ghost from_gives = { λ _ fault. fault ≡ out_of_memory };

    fn from(_refused: OutOfMemory) -> ParameterFault {
        ParameterFault::OutOfMemory
    }
}

pub fn text(value: &Value, parameter: Parameter) -> Result<&str, Parameter>
    ensures { shown (λ s. s.now) result ≡ needed as_str parameter (view value.now) }
{
    need_text(value, parameter.name()).map_err(|_| parameter)
}

pub fn whole(value: &Value, parameter: Parameter) -> Result<i32, Parameter>
    ensures { result ≡ needed as_i32 parameter (view value.now) }
{
    need_int(value, parameter.name()).map_err(|_| parameter)
}

/// A line or a character: at most 2^31 - 1 (LSP 3.17, `uinteger`).
pub fn coordinate(value: &Value, parameter: Parameter) -> Result<u32, Parameter>
    ensures { result ≡ needed coordinate parameter (view value.now) }
{
    let number = need_uint(value, parameter.name()).map_err(|_| parameter)?;
    if number < 0x8000_0000 {
        Ok(number)
    } else {
        Err(parameter)
    }
}

/// The number of a debug session: from 1 to 2^31 - 1.
pub fn session_number(value: &Value, parameter: Parameter) -> Result<u32, Parameter>
    ensures { result ≡ needed session_number parameter (view value.now) }
{
    let number = need_uint(value, parameter.name()).map_err(|_| parameter)?;
    if number > 0 && number < 0x8000_0000 {
        Ok(number)
    } else {
        Err(parameter)
    }
}

pub fn truth(value: &Value, parameter: Parameter) -> Result<bool, Parameter>
    ensures { result ≡ needed as_bool parameter (view value.now) }
{
    match opt_bool(value, parameter.name()) {
        Ok(Some(truth)) => Ok(truth),
        Ok(None) => Err(parameter),
        Err(_) => Err(parameter),
    }
}

/// The id of a request: a text, or a whole number of 32 bits.
pub fn request_id(alloc: Global, value: &Value, parameter: Parameter) -> Result<Id, ParameterFault>
    ensures { Answers named_by result (needed as_id parameter (view value.now)) }
{
    match need_text(value, parameter.name()) {
        Ok(words) => Ok(Id::Words(Text::of(alloc, words)?)),
        Err(MemberFault::Missing) => Err(ParameterFault::Bad(parameter)),
        Err(MemberFault::WrongKind) => match need_int(value, parameter.name()) {
            Ok(number) => Ok(Id::Number(number)),
            Err(_) => Err(ParameterFault::Bad(parameter)),
        },
    }
}

pub fn object<'a>(value: &'a Value, parameter: Parameter) -> Result<&'a Value, Parameter>
    ensures { shown (λ o. view o.now) result ≡ needed as_object_value parameter (view value.now) }
{
    need_object(value, parameter.name()).map_err(|_| parameter)
}

pub fn object_if<'a>(value: &'a Value, parameter: Parameter) -> Result<Option<&'a Value>, Parameter>
    ensures { shown (option_map (λ o. view o.now)) result
        ≡ optional as_object_value parameter (view value.now) }
{
    opt_object(value, parameter.name()).map_err(|_| parameter)
}

pub fn list<'a>(value: &'a Value, parameter: Parameter) -> Result<&'a [Value], Parameter>
    ensures { shown (λ l. items_view l.now) result ≡ needed as_array parameter (view value.now) }
{
    need_list(value, parameter.name()).map_err(|_| parameter)
}

/// What happened to a file, by its number.
pub fn change_kind(value: &Value, parameter: Parameter) -> Result<ChangeKind, Parameter>
    ensures { result ≡ needed as_change_kind parameter (view value.now) }
{
    let number = need_uint(value, parameter.name()).map_err(|_| parameter)?;
    match number {
        1 => Ok(ChangeKind::Created),
        2 => Ok(ChangeKind::Changed),
        3 => Ok(ChangeKind::Deleted),
        _ => Err(parameter),
    }
}

/// An element of the list of that name, which is to be an object.
pub fn element(value: &Value, list: Parameter) -> Result<&Value, Parameter>
    ensures { shown (λ o. view o.now) result ≡ object_in list (view value.now) }
{
    if value.is_object() {
        Ok(value)
    } else {
        Err(list)
    }
}
