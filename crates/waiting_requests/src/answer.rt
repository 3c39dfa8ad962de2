//! What a request is answered.
ghost use Rattle.std.specs.Prelude.{◌≡◌, IfOk, option_map};
ghost use Rattle.std.specs.Option.{option_copied};
ghost use Rattle.std.specs.Str.{chars};
ghost use Rattle.waiting_requests.specs.Answers as answers;

use crate::names::ProgramNames;
use crate::request::{Question, Request};
use document_store::DocumentStore;
use file_uri::{UriFault, file_path};
use hl_base::{OutOfMemory, PathId, Text};
use lsp_messages::{DocumentSymbols, Locations, SymbolAnswer};
use std::alloc::Global;
use symbol_answers::{definition, document_symbols, hover, references};

/// The number of a path, where a document of it is open.
fn open_number(store: &DocumentStore, path: &str) -> Option<PathId>
    ensures { option_map (λ id. id.0) result ≡ answers.open_number store.now.store (chars path.now) }
{
    let id = store.path_id(path)?;
    if store.document_at(id).is_some() {
        Some(id)
    } else {
        None
    }
}

/// The number of the path that a URI names, where a document of it is open.
fn document_asked(
    alloc: Global,
    store: &DocumentStore,
    uri: &Text,
) -> Result<Option<PathId>, OutOfMemory>
    ensures { IfOk result (λ found. option_map (λ id. id.0) found ≡ answers.document_asked store.now.store uri.now) }
{
    match file_path(alloc, uri.as_str()) {
        Ok(path) => Ok(open_number(store, path.as_str())),
        Err(UriFault::BadUri) => Ok(None),
        Err(UriFault::OutOfMemory) => Err(OutOfMemory),
    }
}

/// The program at a path.
fn program_at<'s, 'a>(
    programs: &'s [ProgramNames<'a>],
    path: PathId,
) -> Option<&'s ProgramNames<'a>>
    ensures { option_copied result ≡ answers.program_at programs.now path.0 }
{
    programs.iter().find(|names| names.path().0 == path.0)
}

/// The first program that touches a path.
fn program_touching<'s, 'a>(
    programs: &'s [ProgramNames<'a>],
    path: PathId,
) -> Option<&'s ProgramNames<'a>>
    ensures { option_copied result ≡ answers.program_touching programs.now path.0 }
{
    programs.iter().find(|names| names.touches(path))
}

/// The program from whose assembly a question in the document of a path is answered.
fn program_for<'s, 'a>(
    programs: &'s [ProgramNames<'a>],
    path: PathId,
) -> Option<&'s ProgramNames<'a>>
    ensures { option_copied result ≡ answers.program_for programs.now path.0 }
{
    match program_at(programs, path) {
        Some(names) => Some(names),
        None => program_touching(programs, path),
    }
}

/// What is answered where no program has the document: nothing, no place, and no symbol.
fn no_answer(alloc: Global, question: Question) -> SymbolAnswer
    ensures { result ≡ answers.no_answer question }
{
    match question {
        Question::Definition { at: _ } => SymbolAnswer::Nothing,
        Question::References {
            at: _,
            declarations: _,
        } => SymbolAnswer::Places(Locations::new(alloc)),
        Question::Hover { at: _ } => SymbolAnswer::Nothing,
        Question::Symbols => SymbolAnswer::Symbols(DocumentSymbols::new(alloc)),
    }
}

/// What is answered where the document is not open: nothing, and no place.
fn closed_answer(alloc: Global, question: Question) -> SymbolAnswer
    ensures { result ≡ answers.closed_answer question }
{
    match question {
        Question::Definition { at: _ } => SymbolAnswer::Nothing,
        Question::References {
            at: _,
            declarations: _,
        } => SymbolAnswer::Places(Locations::new(alloc)),
        Question::Hover { at: _ } => SymbolAnswer::Nothing,
        Question::Symbols => SymbolAnswer::Nothing,
    }
}

/// What is answered in the document of a path from what an assembly tells.
fn answer_from(
    alloc: Global,
    store: &DocumentStore,
    names: &ProgramNames<'_>,
    path: PathId,
    question: Question,
) -> Result<SymbolAnswer, OutOfMemory>
    ensures { IfOk result (λ answer. answer ≡ answers.answer_from store.now.store names.now path.0 question) }
{
    let occurrences = names.occurrences();
    match question {
        Question::Definition { at } => definition(alloc, occurrences, store, path, at),
        Question::References { at, declarations } => {
            references(alloc, occurrences, store, path, at, declarations)
        }
        Question::Hover { at } => {
            let (rows, sections) = (names.rows(), names.sections());
            hover(alloc, rows, sections, occurrences, store, path, at)
        }
        Question::Symbols => document_symbols(alloc, names.rows(), store, path),
    }
}

/// What is answered in the open document of a path.
fn answer_at(
    alloc: Global,
    store: &DocumentStore,
    programs: &[ProgramNames<'_>],
    path: PathId,
    question: Question,
) -> Result<SymbolAnswer, OutOfMemory>
    ensures { IfOk result (λ answer. answer ≡ answers.answer_at store.now.store programs.now path.0 question) }
{
    match program_for(programs, path) {
        Some(names) => answer_from(alloc, store, names, path, question),
        None => Ok(no_answer(alloc, question)),
    }
}

/// What a request is answered.
pub(crate) fn answer_of(
    alloc: Global,
    store: &DocumentStore,
    programs: &[ProgramNames<'_>],
    request: &Request,
) -> Result<SymbolAnswer, OutOfMemory>
    ensures { IfOk result (λ answer. answer ≡ answers.answer_of store.now.store programs.now request.now) }
{
    match document_asked(alloc, store, &request.uri)? {
        Some(path) => answer_at(alloc, store, programs, path, request.question),
        None => Ok(closed_answer(alloc, request.question)),
    }
}
