//! Readings of a library, one after another.
use crate::holdings::library_of;
use crate::words::{add_part, cut};
use document_store::{DocumentStore, MemberText};
use hl_base::OutOfMemory;
use io_edge::{MemoryCall, MemoryLibrary};
use library_reading::{Logs, drop_path, read_configuration, read_member};
use std::alloc::{AllocError, Global};

/// A library, and what was read of it.
#[derive(Drop)]
struct Desk {
    library: MemoryLibrary,
    store: DocumentStore,
    logs: Logs,
}

/// The lines that were said since they were last asked for, with bars between them, or that nothing was said.
fn said(alloc: Global, logs: &mut Logs) -> Result<String, AllocError> {
    let mut lines = String::new(alloc);
    for line in logs.lines() {
        add_part(&mut lines, ", ", line.as_str())?;
    }
    logs.clear();
    if lines.is_empty() {
        lines.push_str("nothing")?;
    }
    Ok(lines)
}

/// What is present at a path: `text TEXT` of at most 20 bytes, `text` and its length, `unreadable` or `none`.
fn present(alloc: Global, store: &DocumentStore, path: &str) -> Result<String, AllocError> {
    let Some(number) = store.path_id(path) else {
        return String::from_str(alloc, "none");
    };
    match store.present(number) {
        None => String::from_str(alloc, "none"),
        Some(MemberText::Unreadable) => String::from_str(alloc, "unreadable"),
        Some(MemberText::File(id)) => shown(alloc, store.pool().text(id)),
    }
}

/// A short text, or the length of a long one.
fn shown(alloc: Global, text: &str) -> Result<String, AllocError> {
    let length = text.len();
    if length <= 20 {
        format!(in alloc; "text {text}")
    } else {
        format!(in alloc; "text of {length}")
    }
}

impl Desk {
    /// What `configuration ROOT`, `member PATH`, `drop PATH`, `message` and `present PATH` answer: what was said, or what is
    /// present. `message` begins another message.
    fn answer(&mut self, alloc: Global, call: &str) -> Result<String, OutOfMemory> {
        match cut(call) {
            ("configuration", root) => {
                read_configuration(
                    alloc,
                    root,
                    &mut self.library,
                    &mut self.store,
                    &mut self.logs,
                )?;
            }
            ("member", path) => {
                read_member(
                    alloc,
                    path,
                    &mut self.library,
                    &mut self.store,
                    &mut self.logs,
                )?;
            }
            ("drop", path) => drop_path(&mut self.store, path),
            ("present", path) => return Ok(present(alloc, &self.store, path)?),
            _ => self.logs = Logs::new(alloc),
        }
        Ok(said(alloc, &mut self.logs)?)
    }
}

/// A call of a library in words.
fn noted(alloc: Global, call: &MemoryCall) -> Result<String, AllocError> {
    match call {
        MemoryCall::List { folder, .. } => format!(in alloc; "list {folder}"),
        MemoryCall::Read { path, .. } => format!(in alloc; "read {path}"),
    }
}

/// What the calls answer in turn, with semicolons between them; last the calls that were made of the library.
pub fn answers(alloc: Global, holds: &str, calls: &[String]) -> Result<String, OutOfMemory> {
    let mut desk = Desk {
        library: library_of(alloc, holds)?,
        store: DocumentStore::new(alloc),
        logs: Logs::new(alloc),
    };
    let mut answers = String::new(alloc);
    for call in calls {
        let answer = desk.answer(alloc, call.as_str())?;
        add_part(&mut answers, "; ", answer.as_str())?;
    }
    let mut made = String::new(alloc);
    for call in desk.library.noted() {
        add_part(&mut made, ", ", noted(alloc, call)?.as_str())?;
    }
    add_part(&mut answers, "; ", made.as_str())?;
    Ok(answers)
}
