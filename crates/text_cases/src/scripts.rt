//! Calls of a store of documents, and what each answers.
ghost use Rattle.std.specs.Prelude.{◌≤◌, length, IfSome};
ghost use Rattle.text_pool.specs.Pool.{IsLive};

use crate::changes::{edits_worded, refusal, shown};
use document_store::{DocumentStore, MemberText, StoreFault};
use hl_base::{Edits, OutOfMemory, PathId, TextId};
use std::alloc::Global;
use text_pool::{LONGEST_TEXT, PoolFault, TextPool};

/// What stands before the first blank, and what stands behind it.
fn cut(words: &str) -> (&str, &str) {
    words.split_once(' ').unwrap_or((words, ""))
}

/// What a call answers that only succeeds or is refused.
fn told(alloc: Global, answer: Result<(), StoreFault>) -> Result<String, OutOfMemory> {
    match answer {
        Ok(()) => Ok(String::from_str(alloc, "ok")?),
        Err(fault) => refusal(alloc, fault),
    }
}

/// `open URI VERSION TEXT`.
fn open(alloc: Global, store: &mut DocumentStore, words: &str) -> Result<String, OutOfMemory> {
    let (uri, words) = cut(words);
    let (version, text) = cut(words);
    let version = version.parse::<i32>().unwrap_or(0);
    told(alloc, store.open_text(alloc, uri, "hlasm", version, text))
}

/// `fill COUNT`: opens `file:///d0.hlasm` and so on.
fn fill(alloc: Global, store: &mut DocumentStore, words: &str) -> Result<String, OutOfMemory> {
    for number in 0..words.parse::<u32>().unwrap_or(0) {
        let uri = format!(in alloc; "file:///d{number}.hlasm")?;
        if let Err(fault) = store.open_text(alloc, uri.as_str(), "hlasm", 1, "x") {
            return refusal(alloc, fault);
        }
    }
    told(alloc, Ok(()))
}

/// `change URI VERSION; CHANGE; CHANGE`.
fn change(alloc: Global, store: &mut DocumentStore, words: &str) -> Result<String, OutOfMemory> {
    let (call, changes) = words.split_once("; ").unwrap_or((words, ""));
    let (uri, version) = cut(call);
    let version = version.parse::<i32>().unwrap_or(0);
    let edits = if changes.is_empty() {
        Edits::new(alloc)
    } else {
        edits_worded(alloc, changes)?
    };
    told(alloc, store.change(alloc, uri, version, edits.as_slice()))
}

/// `close URI`.
fn close(alloc: Global, store: &mut DocumentStore, uri: &str) -> Result<String, OutOfMemory> {
    told(alloc, store.close(alloc, uri))
}

/// `keep PATH; TEXT`: a file of a member that was read.
fn keep(alloc: Global, store: &mut DocumentStore, words: &str) -> Result<String, OutOfMemory> {
    let (path, text) = words.split_once("; ").unwrap_or((words, ""));
    told(alloc, kept(store.set_member(alloc, path, short(text))))
}

/// `unreadable PATH`: one that cannot be read.
fn unreadable(alloc: Global, store: &mut DocumentStore, path: &str) -> Result<String, OutOfMemory> {
    told(alloc, kept(store.set_member(alloc, path, None)))
}

/// `keep-many COUNT SIZE`: files `/m0`, `/m1` and so on of so many bytes each, until one is refused.
fn keep_many(alloc: Global, store: &mut DocumentStore, words: &str) -> Result<String, OutOfMemory> {
    let (count, size) = cut(words);
    let text = blanks(alloc, size.parse::<u32>().unwrap_or(0))?;
    for number in 0..count.parse::<u32>().unwrap_or(0) {
        let path = format!(in alloc; "/m{number}")?;
        if let Err(fault) = store.set_member(alloc, path.as_str(), short(text.as_str())) {
            return refusal(alloc, fault);
        }
    }
    told(alloc, Ok(()))
}

/// A text of so many blanks.
fn blanks(alloc: Global, count: u32) -> Result<String, OutOfMemory> {
    let mut text = String::new(alloc);
    for _ in 0..count {
        text.push(' ')?;
    }
    Ok(text)
}

/// A text that a file may have; one that is too long cannot be read.
fn short(text: &str) -> Option<&str>
    ensures { IfSome result (λ text. length text.now ≤ LONGEST_TEXT) }
{
    if text.len() > LONGEST_TEXT {
        return None;
    }
    Some(text)
}

/// Whether a file was kept.
fn kept(answer: Result<PathId, StoreFault>) -> Result<(), StoreFault> {
    match answer {
        Ok(_) => Ok(()),
        Err(fault) => Err(fault),
    }
}

/// `drop PATH`; where it has no number, a number past the last is dropped.
fn drop_one(alloc: Global, store: &mut DocumentStore, path: &str) -> Result<String, OutOfMemory> {
    let number = store.path_id(path).unwrap_or(PathId(u32::MAX));
    store.drop_member(number);
    told(alloc, Ok(()))
}

/// `drop-all`.
fn drop_all(alloc: Global, store: &mut DocumentStore) -> Result<String, OutOfMemory> {
    store.drop_members();
    told(alloc, Ok(()))
}

/// What is present at a path.
fn present(store: &DocumentStore, path: &str) -> Option<MemberText> {
    store.present(store.path_id(path)?)
}

/// Whether a fact holds.
fn truth(alloc: Global, holds: bool) -> Result<String, OutOfMemory> {
    Ok(String::from_str(alloc, if holds { "yes" } else { "no" })?)
}

/// `same PATH; PATH`: whether one text is present at both.
fn same(alloc: Global, store: &DocumentStore, words: &str) -> Result<String, OutOfMemory> {
    let (one, other) = words.split_once("; ").unwrap_or((words, ""));
    truth(alloc, present(store, one) == present(store, other))
}

/// `found PATH`: a text is present there, a file that cannot be read, or nothing.
fn found(alloc: Global, store: &DocumentStore, path: &str) -> Result<String, OutOfMemory> {
    let word = match present(store, path) {
        Some(MemberText::File(_)) => "text",
        Some(MemberText::Unreadable) => "unreadable",
        None => "nothing",
    };
    Ok(String::from_str(alloc, word)?)
}

/// `version NUMBER`: of the open document of that place, from 0.
fn version(alloc: Global, store: &DocumentStore, words: &str) -> Result<String, OutOfMemory> {
    match store.document(words.parse::<u32>().unwrap_or(0)) {
        Some(document) => Ok(format!(in alloc; "{}", document.version)?),
        None => Ok(String::from_str(alloc, "none")?),
    }
}

/// The number of the text that is present at a path.
fn text_id(store: &DocumentStore, path: &str) -> Option<TextId>
    ensures { IfSome result (λ id. IsLive store.now.pool id.0) }
{
    match store.present(store.path_id(path)?)? {
        MemberText::File(id) => Some(id),
        MemberText::Unreadable => None,
    }
}

/// `text PATH`: the number of the text that is present there, and the text.
fn text_at(alloc: Global, store: &DocumentStore, path: &str) -> Result<String, OutOfMemory> {
    let Some(id) = text_id(store, path) else {
        return Ok(String::from_str(alloc, "no text")?);
    };
    let text = shown(alloc, String::from_str(alloc, store.pool().text(id))?)?;
    Ok(format!(in alloc; "{} {text}", id.0)?)
}

/// `line NUMBER PATH`: the line of that number, from 0, of the text that is present there, in brackets.
fn line_at(alloc: Global, store: &DocumentStore, words: &str) -> Result<String, OutOfMemory> {
    let (number, path) = cut(words);
    let number = number.parse::<u32>().unwrap_or(0);
    let Some(id) = text_id(store, path) else {
        return Ok(String::from_str(alloc, "no text")?);
    };
    match store.pool().line(id, number) {
        Some(line) => Ok(format!(in alloc; "[{line}]")?),
        None => Ok(String::from_str(alloc, "none")?),
    }
}

/// `shared PATH`: the text that is present there, shared before what is kept of the file is dropped.
fn shared(alloc: Global, store: &mut DocumentStore, path: &str) -> Result<String, OutOfMemory> {
    let Some(id) = text_id(store, path) else {
        return Ok(String::from_str(alloc, "no text")?);
    };
    let text = store.pool().shared(alloc, id)?;
    drop_one(alloc, store, path)?;
    Ok(String::from_str(alloc, text.as_str())?)
}

/// `intern TEXT`: the number of a text in a new pool, or why it is refused.
fn interned(alloc: Global, text: &str) -> Result<String, OutOfMemory> {
    match TextPool::new(alloc).intern(alloc, text) {
        Ok(id) => Ok(format!(in alloc; "{}", id.0)?),
        Err(PoolFault::OutOfMemory) => Err(OutOfMemory),
        Err(PoolFault::TooLong) => Ok(format!(in alloc; "{}", PoolFault::TooLong)?),
    }
}

/// What a call that changes nothing answers.
fn asked(
    alloc: Global,
    store: &DocumentStore,
    call: &str,
    words: &str,
) -> Result<String, OutOfMemory> {
    match call {
        "present" => truth(alloc, present(store, words).is_some()),
        "found" => found(alloc, store, words),
        "number" => truth(alloc, store.path_id(words).is_some()),
        "same" => same(alloc, store, words),
        "version" => version(alloc, store, words),
        "text" => text_at(alloc, store, words),
        "line" => line_at(alloc, store, words),
        "intern" => interned(alloc, words),
        _ => Ok(String::from_str(alloc, "no call")?),
    }
}

/// What a call answers.
fn answer(alloc: Global, store: &mut DocumentStore, line: &str) -> Result<String, OutOfMemory> {
    let (call, words) = cut(line);
    match call {
        "open" => open(alloc, store, words),
        "fill" => fill(alloc, store, words),
        "change" => change(alloc, store, words),
        "close" => close(alloc, store, words),
        "keep" => keep(alloc, store, words),
        "unreadable" => unreadable(alloc, store, words),
        "keep-many" => keep_many(alloc, store, words),
        "drop" => drop_one(alloc, store, words),
        "drop-all" => drop_all(alloc, store),
        "shared" => shared(alloc, store, words),
        _ => asked(alloc, store, call, words),
    }
}

/// What the calls answer in turn, with semicolons between them.
pub fn answers(alloc: Global, calls: &[String]) -> Result<String, OutOfMemory> {
    let mut store = DocumentStore::new(alloc);
    let mut answers = String::new(alloc);
    for call in calls {
        if !answers.is_empty() {
            answers.push_str("; ")?;
        }
        answers.push_str(answer(alloc, &mut store, call.as_str())?.as_str())?;
    }
    Ok(answers)
}
