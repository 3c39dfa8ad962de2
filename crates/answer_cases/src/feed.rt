//! Lists of programs, in words.
use crate::asking::span_worded;
use crate::naming::number_of;
use crate::scene::store_of;
use crate::words::{add_part, cut, number};
use answers_feed::published;
use document_store::DocumentStore;
use hl_base::{
    Frame, FrameKind, Frames, Name, Note, Notes, Origin, OutOfMemory, PathId, Severity, Text,
};
use library_folders::Folder;
use lsp_messages::{Diagnostic, Diagnostics, Relation};
use std::alloc::{AllocError, Global};

/// `copy NAME LINE PATH` or `macro NAME LINE PATH`; any other kind is open code, whose name is a hyphen.
fn frame(store: &DocumentStore, words: &str) -> Frame {
    let (kind, words) = cut(words);
    let (name, words) = cut(words);
    let (line, path) = cut(words);
    Frame {
        kind: match kind {
            "copy" => FrameKind::Copy,
            "macro" => FrameKind::Macro,
            _ => FrameKind::OpenCode,
        },
        name: Name::read(name),
        origin: Origin {
            path: number_of(store, path),
            line: number(line),
        },
    }
}

/// `CODE SEVERITY TEXT`, the severity an `E`, a `W` or an `I`.
fn note_with(alloc: Global, words: &str, stack: Frames) -> Result<Note, OutOfMemory> {
    let (code, words) = cut(words);
    let (severity, text) = cut(words);
    Ok(Note {
        code: code.parse::<u16>().unwrap_or(0),
        severity: match severity {
            "E" => Severity::Error,
            "W" => Severity::Warning,
            _ => Severity::Information,
        },
        text: Text::of(alloc, text)?,
        stack,
    })
}

/// A note, and after it ` @ ` and a frame for each of its frames, outermost first.
fn note(alloc: Global, store: &DocumentStore, words: &str) -> Result<Note, OutOfMemory> {
    let mut parts = words.split(" @ ");
    let own = parts.next().unwrap_or("");
    let mut stack = Frames::new(alloc);
    for part in parts {
        stack.push(frame(store, part))?;
    }
    note_with(alloc, own, stack)
}

/// Notes with semicolons between them, or none.
fn notes(alloc: Global, store: &DocumentStore, words: &str) -> Result<Notes, OutOfMemory> {
    let mut notes = Notes::new(alloc);
    for part in words.split("; ") {
        if !part.is_empty() {
            notes.push(note(alloc, store, part)?)?;
        }
    }
    Ok(notes)
}

/// The only library folder.
fn folders(alloc: Global, folder: &str) -> Result<Vec<Folder>, OutOfMemory> {
    let mut folders = Vec::new(alloc);
    folders.push(Folder {
        path: Text::of(alloc, folder)?,
        optional: false,
    })?;
    Ok(folders)
}

/// The list of a program with these notes, where this is the only library folder.
fn list(
    alloc: Global,
    store: &DocumentStore,
    folder: &str,
    program: PathId,
    words: &str,
) -> Result<Diagnostics, OutOfMemory> {
    let folders = folders(alloc, folder)?;
    let notes = notes(alloc, store, words)?;
    published(alloc, notes.as_slice(), program, folders.as_slice(), store)
}

/// ` @ URI SPAN MESSAGE`.
fn relation_worded(alloc: Global, relation: &Relation) -> Result<String, AllocError> {
    let span = span_worded(alloc, relation.range)?;
    format!(in alloc;
        " @ {} {span} {}",
        relation.uri.as_str(),
        relation.message.as_str()
    )
}

/// `CODE SEVERITY SPAN MESSAGE`, and the related places behind it.
fn diagnostic_worded(alloc: Global, diagnostic: &Diagnostic) -> Result<String, AllocError> {
    let span = span_worded(alloc, diagnostic.range)?;
    let (code, message) = (diagnostic.code.as_str(), diagnostic.message.as_str());
    let mut words = format!(in alloc; "{code} {} {span} {message}", diagnostic.severity)?;
    for relation in diagnostic.related.as_slice() {
        words.push_str(relation_worded(alloc, relation)?.as_str())?;
    }
    Ok(words)
}

/// The list of a program, with semicolons between its reports.
pub fn list_shown(
    alloc: Global,
    texts: &str,
    folder: &str,
    program: &str,
    notes: &str,
) -> Result<String, OutOfMemory> {
    let store = store_of(alloc, texts)?;
    let list = list(alloc, &store, folder, number_of(&store, program), notes)?;
    let mut words = String::new(alloc);
    for diagnostic in list.as_slice() {
        add_part(
            &mut words,
            "; ",
            diagnostic_worded(alloc, diagnostic)?.as_str(),
        )?;
    }
    Ok(words)
}

/// Whether the lists of a program with these and with other notes say the same.
pub fn is_same(
    alloc: Global,
    texts: &str,
    folder: &str,
    program: &str,
    one: &str,
    other: &str,
) -> Result<String, OutOfMemory> {
    let store = store_of(alloc, texts)?;
    let program = number_of(&store, program);
    let one = list(alloc, &store, folder, program, one)?;
    let other = list(alloc, &store, folder, program, other)?;
    Ok(format!(in alloc; "{}", one == other)?)
}
