//! The open documents, by the numbers of their paths, and the queue of programs.
ghost use Rattle.std.specs.Prelude.{◌≡◌, ◌≤◌, ◌++◌, [], length, map, filter, not, Some, None, OnOk};
ghost use Rattle.std.specs.Prelude.{OnErr, IfOk, Option, option_map, slice_get, take};
ghost use Rattle.std.specs.Rc.{rc_str_bytes};
ghost use Rattle.std.specs.Borrow.{Bor};
ghost use Rattle.std.specs.List.{list_any};
ghost use Rattle.std.specs.Str.{chars};
ghost use Rattle.std.specs.Vec.{vec_len, vec_capacity};
ghost use Rattle.file_uri.specs.Paths.{path_of};
ghost use Rattle.document_store.specs.Store.{OpenDocument, number_of};
ghost use Rattle.document_store.specs.Shown.{IsShown, Shows};
ghost use Rattle.session_core.specs.State.{is_number, number_named, document_at, is_program, programs, is_queued};
ghost use Rattle.session_core.specs.State.{with_programs, without, last_list, without_list, published_without, with_list};
ghost use Rattle.session_core.specs.Inside.{wanted_of};
ghost use Rattle.session_core.specs.declared.state.LastList.{LastList as Last};

use crate::state::LastList;
use document_store::{Document, DocumentStore, MOST_DOCUMENTS, MemberText};
use file_uri::{UriFault, file_path};
use group_members::MemberIndex;
use hl_base::{OutOfMemory, PathId};
use library_folders::{Folder, is_member};
use program_names::AssembledNames;
use std::alloc::Global;
use std::rc::RcStr;

/// The language of programs.
const PROGRAM_LANGUAGE: &str = "hlasm";

/// The open document of a number.
pub(crate) fn document_at(store: &DocumentStore, path: PathId) -> Option<Document<'_>>
    requires few { length store.now.store.documents ≤ MOST_DOCUMENTS }
    ensures { IsShown store.now.store.paths (document_at store.now.store path) result }
{
    for index in 0..MOST_DOCUMENTS as u32 {
        match store.document(index) {
            Some(document) if document.path == path => return Some(document),
            Some(_) => {}
            None => return None,
        }
    }
    None
}

/// An empty text in place of one that is not there.
fn no_text(alloc: Global) -> Result<RcStr, OutOfMemory> {
    Ok(RcStr::from_str(alloc, "")?)
}

/// The text of the open document of a number, shared.
pub(crate) fn text_at(
    alloc: Global,
    store: &DocumentStore,
    path: PathId,
) -> Result<RcStr, OutOfMemory>
    ensures { IfOk result (λ text. (document : OpenDocument) → document_at store.now.store path ≡ Some document
        → slice_get store.now.store.paths path.0 ≡ Some document.path
        → number_of store.now.store.paths document.path ≡ Some path.0
        → chars (rc_str_bytes text) ≡ document.text) }
{
    match store.present(path) {
        Some(MemberText::File(text)) => store.pool().shared(alloc, text),
        Some(MemberText::Unreadable) => no_text(alloc),
        None => no_text(alloc),
    }
}

/// The number of the path that a URI names, if a document of it was ever opened.
pub(crate) fn number_named(
    alloc: Global,
    store: &DocumentStore,
    uri: &str,
) -> Result<Option<PathId>, OutOfMemory>
    ensures { IfOk result (λ number. number ≡ number_named store.now.store (chars uri.now)) }
{
    match file_path(alloc, uri) {
        Ok(path) => Ok(store.path_id(path.as_str())),
        Err(UriFault::BadUri) => Ok(None),
        Err(UriFault::OutOfMemory) => Err(OutOfMemory),
    }
}

/// Whether a document of a path and a language is a program.
fn is_program(folders: &[Folder], path: &str, language: &str) -> bool
    ensures { (shown : OpenDocument) → chars path.now ≡ shown.path → chars language.now ≡ shown.language
        → result ≡ is_program folders.now shown }
{
    language == PROGRAM_LANGUAGE && !is_member(folders, path)
}

/// Whether a document is a program, as the store shows it.
pub(crate) fn is_program_shown(
    folders: &[Folder],
    store: &DocumentStore,
    document: &Document<'_>,
) -> bool
    requires shown { (shown : OpenDocument) × Shows store.now.store.paths shown document.now }
    ensures { (shown : OpenDocument) → Shows store.now.store.paths shown document.now → result ≡ is_program folders.now shown }
{
    is_program(folders, store.path_text(document.path), document.language)
}

/// Whether a program is among these.
pub(crate) fn is_queued(queue: &[PathId], path: PathId) -> bool
    ensures { result ≡ is_queued queue.now path }
{
    queue.iter().any(|queued| path == *queued)
}

/// Adds a document, if it is a program that is not among the first so many of the queue.
fn queue_document(
    folders: &[Folder],
    store: &DocumentStore,
    document: &Document<'_>,
    kept: usize,
    queue: &mut Vec<PathId>,
) -> Result<(), OutOfMemory>
    requires shown { (shown : OpenDocument) × Shows store.now.store.paths shown document.now }
    ensures { OnOk result ((shown : OpenDocument) → Shows store.now.store.paths shown document.now
        → queue.new.items ≡ queue.old.items ++ wanted_of folders.now (take kept queue.old.items) shown document.now.path) }
{
    let queued = &queue[..kept.min(queue.len())];
    if is_program_shown(folders, store, document) && !is_queued(queued, document.path) {
        queue.push(document.path)?;
    }
    Ok(())
}

/// Queues every open program, in order of opening; one that is queued keeps its place.
pub(crate) fn queue_programs(
    folders: &[Folder],
    store: &DocumentStore,
    queue: &mut Vec<PathId>,
) -> Result<(), OutOfMemory>
    requires few { length store.now.store.documents ≤ MOST_DOCUMENTS }
    ensures { OnOk result (queue.new.items ≡ with_programs queue.old.items (programs folders.now store.now.store)) }
{
    let kept = queue.as_slice().len();
    for index in 0..MOST_DOCUMENTS as u32 {
        let Some(document) = store.document(index) else {
            return Ok(());
        };
        queue_document(folders, store, &document, kept, queue)?;
    }
    Ok(())
}

/// What was last published of a program.
pub(crate) fn last_list(published: &[LastList], path: PathId) -> Option<&LastList>
    ensures { option_map (λ (last : Bor Last). last.now) result ≡ last_list published.now path }
{
    published.iter().find(|last| last.path == path)
}

/// Drops a program from these.
pub(crate) fn drop_program(programs: &mut Vec<PathId>, path: PathId)
    ensures { programs.new.items ≡ without programs.old.items (Some path) }
{
    programs.retain(|other| *other != path);
}

/// Drops a program from these, if there is one of the number.
pub(crate) fn drop_named(programs: &mut Vec<PathId>, path: Option<PathId>)
    ensures { programs.new.items ≡ without programs.old.items path }
{
    if let Some(path) = path {
        drop_program(programs, path);
    }
}

/// Drops what was published of a program.
fn drop_list(published: &mut Vec<LastList>, path: PathId)
    ensures items { published.new.items ≡ without_list published.old.items path }
    ensures bound { vec_len published.new ≤ vec_len published.old }
    ensures capacity { vec_capacity published.new ≡ vec_capacity published.old }
{
    published.retain(|last| last.path != path);
}

/// Drops a program from the queue, and what was published of it.
pub(crate) fn forget(queue: &mut Vec<PathId>, published: &mut Vec<LastList>, path: Option<PathId>)
    ensures queue { queue.new.items ≡ without queue.old.items path }
    ensures published { published.new.items ≡ published_without published.old.items path }
{
    if let Some(path) = path {
        drop_program(queue, path);
        drop_list(published, path);
    }
}

/// No list counts as that of what is there any more, and where members are found and what programs tell of names is to be found
/// anew.
pub(crate) fn forget_members(
    listed: &mut Vec<PathId>,
    index: &mut Option<MemberIndex>,
    names: &mut Option<Vec<AssembledNames>>,
)
    ensures listed { listed.new.items ≡ [] }
    ensures index { index.new ≡ None }
    ensures names { names.new ≡ None }
{
    listed.clear();
    *index = None;
    *names = None;
}

/// Keeps this as the last list of its program. An `Err` changes nothing.
pub(crate) fn keep_list(published: &mut Vec<LastList>, last: LastList) -> Result<(), OutOfMemory>
    ensures ok { OnOk result (published.new.items ≡ with_list published.old.items last) }
    ensures err { OnErr result (published.new.items ≡ published.old.items) }
{
    published.reserve(1)?;
    drop_list(published, last.path);
    published.push_reserved(last);
    Ok(())
}
