//! The list of diagnostics of a program (LSP 3.17, "PublishDiagnostics Notification").
ghost use Rattle.std.specs.Prelude.{◌≡◌, ◌++◌, IfOk, OnOk, drop, map};
ghost use Rattle.document_store.specs.Store.{OpenDocument};
ghost use Rattle.answers_feed.specs.Diagnostics as shown;
ghost use Rattle.answers_feed.specs.Kept.{members_in};
ghost use Rattle.answers_feed.specs.Sites.{IsOpen, site_at, sites_of};

use crate::shelf::{Shelf, relation_in};
use crate::sites::program_site;
use crate::wording::{code_text, severity_number};
use document_store::DocumentStore;
use hl_base::{Frame, Note, OutOfMemory, PathId, Position};
use library_folders::Folder;
use lsp_messages::{Diagnostic, Diagnostics, Relation, Relations, Span};
use note_rows::stands_at_start;
use std::alloc::Global;
use text_sites::TextSite;

/// At most so many notes of a document are sent.
const MOST_PUBLISHED: usize = 1000;

/// The line of the statement of open code that a stack begins with.
fn line_of(stack: &[Frame]) -> u32
    ensures { result ≡ shown.line_of stack.now }
{
    match stack.first() {
        Some(frame) => frame.origin.line,
        None => 0,
    }
}

/// Where a line begins.
fn line_start(line: u32) -> Span
    ensures { result ≡ shown.line_start line }
{
    let start = Position { line, character: 0 };
    Span { start, end: start }
}

/// Where a note of a program is shown.
fn span_of_note(own: &TextSite<'_>, note: &Note) -> Span
    ensures { result ≡ shown.span_of_note own.now.text note.now }
{
    let line = line_of(note.stack.as_slice());
    if stands_at_start(note) {
        line_start(line)
    } else {
        own.line_span(line)
    }
}

/// A frame as the editor shows it: in the program itself, or in a member.
fn relation_of(
    alloc: Global,
    program: PathId,
    own: &TextSite<'_>,
    members: &mut Shelf<'_>,
    frame: &Frame,
) -> Result<Relation, OutOfMemory>
    ensures relation { IfOk result (λ relation. relation ≡ shown.relation_of (site_at program.0 own.now (members_in members.old)) frame.now) }
    ensures same { OnOk result (members_in members.new ≡ members_in members.old) }
{
    if frame.origin.path == program {
        relation_in(alloc, own, frame)
    } else {
        members.relation_of(alloc, frame)
    }
}

/// Frames as the editor shows them, in order.
fn relations_of(
    alloc: Global,
    program: PathId,
    own: &TextSite<'_>,
    members: &mut Shelf<'_>,
    frames: &[Frame],
) -> Result<Relations, OutOfMemory>
    ensures relations { IfOk result (λ related. related ≡ map (shown.relation_of (site_at program.0 own.now (members_in members.old))) frames.now) }
    ensures same { OnOk result (members_in members.new ≡ members_in members.old) }
{
    let mut related = Relations::new(alloc);
    for frame in frames {
        related.push(relation_of(alloc, program, own, members, frame)?)?;
    }
    Ok(related)
}

/// The frames within the outermost.
fn inner_frames(stack: &[Frame]) -> &[Frame]
    ensures { result.now ≡ drop 1 stack.now }
{
    match stack {
        [_, inner @ ..] => inner,
        [] => stack,
    }
}

/// A note of a program as the editor shows it.
fn diagnostic_of_note(
    alloc: Global,
    program: PathId,
    own: &TextSite<'_>,
    members: &mut Shelf<'_>,
    note: &Note,
) -> Result<Diagnostic, OutOfMemory>
    ensures diagnostic { IfOk result (λ d. d ≡ shown.diagnostic_of_note program.0 (site_at program.0 own.now (members_in members.old)) note.now) }
    ensures same { OnOk result (members_in members.new ≡ members_in members.old) }
{
    let inner = inner_frames(note.stack.as_slice());
    Ok(Diagnostic {
        code: code_text(alloc, note.code)?,
        message: note.text.copy(alloc)?,
        range: span_of_note(own, note),
        severity: severity_number(note.severity),
        related: relations_of(alloc, program, own, members, inner)?,
    })
}

/// The diagnostics of these notes of the program that is open at the path of a number, at most a thousand. Frames of other
/// paths stand in members, which are the files of the library folders.
#[tactic(auto, unfolding(crate::specs::Diagnostics::published))]
pub fn published(
    alloc: Global,
    notes: &[Note],
    program: PathId,
    folders: &[Folder],
    store: &DocumentStore,
) -> Result<Diagnostics, OutOfMemory>
    ensures { IfOk result (λ list. (document : OpenDocument) → IsOpen store.now.store program.0 document
        → list ≡ shown.published program.0 (sites_of folders.now store.now.store program.0 document) notes.now) }
{
    let own = program_site(alloc, store, program)?;
    let mut members = Shelf::new(alloc, folders, store);
    let most = &notes[..MOST_PUBLISHED.min(notes.len())];
    let mut list = Diagnostics::new(alloc);
    for note in most {
        list.push(diagnostic_of_note(alloc, program, &own, &mut members, note)?)?;
    }
    Ok(list)
}
