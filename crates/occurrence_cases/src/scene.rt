//! A program with its occurrences.
ghost use Rattle.std.specs.Prelude.{◌≡◌, ◌≤◌, length, IfSome};
ghost use Rattle.text_pool.specs.Pool.{IsLive};

use crate::words::cut;
use called_definitions::definitions_of;
use document_store::{DocumentStore, MemberText, StoreFault};
use expansion_memo::Memo;
use group_members::{GroupMembers, MemberIndex};
use hl_base::{Ledger, OutOfMemory, PathId, Steps, Text, TextId};
use macro_expand::{Expander, HlasmLanguage};
use program_assembly::assemble;
use program_occurrences::occurrences;
use standing_occurrences::Standing;
use std::alloc::Global;
use std::marker::Brand;
use std::sync::ledger::Blank;
use text_lists::TextLists;
use text_pool::LONGEST_TEXT;
use trace_arena::TraceArena;
use trace_paths::PathIds;
use trace_values::TraceItem;

/// How many statements a program may have.
const BUDGET: u32 = 400_000;

/// What is asked about.
#[derive(Drop)]
pub struct Scene {
    pub store: DocumentStore,
    pub standing: Standing,
}

/// Want of memory; other faults leave the store as it is.
fn unless_full<T: Drop>(answer: Result<T, StoreFault>) -> Result<(), OutOfMemory> {
    match answer {
        Ok(_) => Ok(()),
        Err(StoreFault::OutOfMemory) => Err(OutOfMemory),
        Err(_) => Ok(()),
    }
}

/// A text that a file may have; one that is too long cannot be read.
fn short(text: &str) -> Option<&str>
    ensures { IfSome result (λ text. length text.now ≤ LONGEST_TEXT) }
{
    if text.len() > LONGEST_TEXT {
        return None;
    }
    Some(text)
}

/// `open URI TEXT`, `file PATH TEXT` or `unreadable PATH`.
fn add_text(alloc: Global, store: &mut DocumentStore, words: &str) -> Result<(), OutOfMemory> {
    let (kind, words) = cut(words);
    let (name, text) = cut(words);
    match kind {
        "open" => unless_full(store.open_text(alloc, name, "hlasm", 1, text)),
        "file" => unless_full(store.set_member(alloc, name, short(text))),
        _ => unless_full(store.set_member(alloc, name, None)),
    }
}

/// The texts that are present at paths.
fn texts_at(
    alloc: Global,
    store: &DocumentStore,
    paths: &PathIds,
) -> Result<TextLists, OutOfMemory> {
    let mut texts = TextLists::new(alloc);
    for path in paths.as_slice() {
        if let Some(MemberText::File(text)) = store.present(*path) {
            texts.add(alloc, *path, store.pool().text(text))?;
        }
    }
    Ok(texts)
}

/// The occurrences of the program of a path and a text of the store, whose members are in these folders.
fn standing_of<L: Ledger>(
    alloc: Global,
    store: &DocumentStore,
    path: PathId,
    text: TextId,
    folders: &[Text],
    blank: Blank,
) -> Result<Standing, OutOfMemory>
    requires live { IsLive store.now.pool text.0 }
    requires name { blank.name ≡ L.name }
    requires parts { blank.parts ≡ L.parts }
    requires one { blank.parts ≡ 1 }
{
    let index = MemberIndex::of(alloc, store)?;
    let members = GroupMembers::new(store, &index, folders);
    let machine = Expander::new(HlasmLanguage::new());
    let mut memo: Memo<Expander> = Memo::new(alloc);
    let mut arena: TraceArena<TraceItem> = TraceArena::new(alloc);
    let mut steps = Steps::<L>::open(blank);
    let made = assemble(
        &machine, alloc, path, text, "", &members, &mut memo, &mut arena, BUDGET, &mut steps,
    )?;
    let texts = texts_at(alloc, store, &made.touched)?;
    let definitions = definitions_of(alloc, &arena, made.root, &texts, &members)?;
    occurrences(alloc, &arena, made.root, &texts, &definitions, &members)
}

/// The occurrences of the program of a path, whose members are in this folder; none if no text is present there.
fn standing_at(
    alloc: Global,
    store: &DocumentStore,
    path: &str,
    folder: &str,
) -> Result<Standing, OutOfMemory> {
    let Some(number) = store.path_id(path) else {
        return Ok(Standing::new(alloc));
    };
    let Some(MemberText::File(text)) = store.present(number) else {
        return Ok(Standing::new(alloc));
    };
    let mut folders = Vec::new(alloc);
    folders.push(Text::of(alloc, folder)?)?;
    standing_of::<Brand>(alloc, store, number, text, &folders, Blank::new(1))
}

/// The scene of texts, of the path of a program and of the folder that has its members.
pub fn scene_of(
    alloc: Global,
    texts: &str,
    program: &str,
    folder: &str,
) -> Result<Scene, OutOfMemory> {
    let mut store = DocumentStore::new(alloc);
    for part in texts.split("; ") {
        add_text(alloc, &mut store, part)?;
    }
    let standing = standing_at(alloc, &store, program, folder)?;
    Ok(Scene { store, standing })
}
