//! Texts, symbols and occurrences in words.
ghost use Rattle.std.specs.Prelude.{◌≤◌, length, IfSome};

use crate::naming::{number_of, occurrence};
use crate::words::{cut, number};
use document_store::{DocumentStore, StoreFault};
use hl_base::{Attr, Frame, FrameKind, Frames, Name, Origin, OutOfMemory};
use standing_occurrences::Standing;
use std::alloc::Global;
use text_pool::LONGEST_TEXT;
use trace_values::{Occurrences, Reloc, Section, SectionId, Sections, SymbolRow, SymbolRows};

/// What is asked about.
#[derive(Drop)]
pub struct Scene {
    pub store: DocumentStore,
    pub rows: SymbolRows,
    pub sections: Sections,
    pub standing: Standing,
}

/// Want of memory; other faults leave the store as it is.
fn unless_full<T: Drop>(answer: Result<T, StoreFault>) -> Result<(), OutOfMemory> {
    match answer {
        Ok(_) => Ok(()),
        Err(StoreFault::OutOfMemory) => Err(OutOfMemory),
        Err(_) => Ok(()),
    }
}

/// A text that a file may have; one that is too long cannot be read.
fn short(text: &str) -> Option<&str>
    ensures { IfSome result (λ text. length text.now ≤ LONGEST_TEXT) }
{
    if text.len() > LONGEST_TEXT {
        return None;
    }
    Some(text)
}

/// `open URI TEXT`, `file PATH TEXT` or `unreadable PATH`; also `at PATH: TEXT`, a file whose path may have blanks.
fn add_text(alloc: Global, store: &mut DocumentStore, words: &str) -> Result<(), OutOfMemory> {
    let (kind, words) = cut(words);
    let (name, text) = cut(words);
    match kind {
        "open" => unless_full(store.open_text(alloc, name, "hlasm", 1, text)),
        "file" => unless_full(store.set_member(alloc, name, short(text))),
        "at" => {
            let (path, text) = words.split_once(": ").unwrap_or((words, ""));
            unless_full(store.set_member(alloc, path, short(text)))
        }
        _ => unless_full(store.set_member(alloc, name, None)),
    }
}

/// The store of texts, with semicolons between them.
pub fn store_of(alloc: Global, texts: &str) -> Result<DocumentStore, OutOfMemory> {
    let mut store = DocumentStore::new(alloc);
    for part in texts.split("; ") {
        add_text(alloc, &mut store, part)?;
    }
    Ok(store)
}

/// A value: a number, an offset behind the number of a section, or none.
fn value(word: &str) -> Option<Reloc> {
    match word.split_once(':') {
        Some((section, offset)) => Some(Reloc {
            section: Some(SectionId(number(section))),
            value: offset.parse::<i32>().unwrap_or(0),
        }),
        None => match word.parse::<i32>() {
            Ok(value) => Some(Reloc {
                section: None,
                value,
            }),
            Err(_) => None,
        },
    }
}

/// The stack of a statement of open code.
fn stack_at(
    alloc: Global,
    store: &DocumentStore,
    path: &str,
    line: &str,
) -> Result<Frames, OutOfMemory> {
    let mut stack = Frames::new(alloc);
    stack.push(Frame {
        kind: FrameKind::OpenCode,
        name: None,
        origin: Origin {
            path: number_of(store, path),
            line: number(line),
        },
    })?;
    Ok(stack)
}

/// `NAME LETTER LENGTH PATH LINE VALUE`.
fn add_row(
    alloc: Global,
    store: &DocumentStore,
    rows: &mut SymbolRows,
    words: &str,
) -> Result<(), OutOfMemory> {
    let (name, words) = cut(words);
    let (letter, words) = cut(words);
    let (length, words) = cut(words);
    let (path, words) = cut(words);
    let (line, word) = cut(words);
    let Some(name) = Name::read(name) else {
        return Ok(());
    };
    rows.push(SymbolRow {
        name,
        value: value(word),
        attr: Attr {
            letter: letter.as_bytes().first().copied().unwrap_or(b'U'),
            length: number(length),
        },
        stack: stack_at(alloc, store, path, line)?,
    })
}

/// `section NAME`, where the unnamed one has none, or `symbol`, as above.
fn add_symbol(
    alloc: Global,
    store: &DocumentStore,
    rows: &mut SymbolRows,
    sections: &mut Sections,
    words: &str,
) -> Result<(), OutOfMemory> {
    let (kind, words) = cut(words);
    match kind {
        "section" => sections.push(Section {
            name: Name::read(words),
            length: 0,
        }),
        "symbol" => add_row(alloc, store, rows, words),
        _ => Ok(()),
    }
}

/// Occurrences in the order of processing, with semicolons between them.
fn occurrences(
    alloc: Global,
    store: &DocumentStore,
    words: &str,
) -> Result<Occurrences, OutOfMemory> {
    let mut list = Occurrences::new(alloc);
    for part in words.split("; ") {
        if let Some(one) = occurrence(store, part) {
            list.push(one)?;
        }
    }
    Ok(list)
}

/// The scene of texts, of sections and symbols, and of occurrences.
pub fn scene_of(
    alloc: Global,
    texts: &str,
    symbols: &str,
    places: &str,
) -> Result<Scene, OutOfMemory> {
    let store = store_of(alloc, texts)?;
    let mut rows = SymbolRows::new(alloc);
    let mut sections = Sections::new(alloc);
    for part in symbols.split("; ") {
        add_symbol(alloc, &store, &mut rows, &mut sections, part)?;
    }
    let list = occurrences(alloc, &store, places)?;
    Ok(Scene {
        standing: Standing::of(alloc, list.as_slice())?,
        store,
        rows,
        sections,
    })
}
