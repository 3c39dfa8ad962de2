//! The texts that are present at paths.
ghost use Rattle.std.specs.Prelude.{◌≡◌, IfOk, OnOk};
ghost use Rattle.program_names.specs.Texts as rules;

use document_store::{DocumentStore, MemberText};
use hl_base::{OutOfMemory, PathId};
use std::alloc::Global;
use std::collections::BTreeSet;
use text_lists::TextLists;

/// Adds the text that is present at a path, if there is one.
fn add_text(
    alloc: Global,
    store: &DocumentStore,
    path: PathId,
    texts: &mut TextLists,
) -> Result<(), OutOfMemory>
    ensures { OnOk result (texts.new ≡ rules.with_text store.now.store texts.old path.0) }
{
    match store.present(path) {
        Some(MemberText::File(text)) => texts.add(alloc, path, store.pool().text(text)),
        Some(MemberText::Unreadable) => Ok(()),
        None => Ok(()),
    }
}

/// The texts that are present at these paths.
pub(crate) fn texts_at(
    alloc: Global,
    store: &DocumentStore,
    paths: &BTreeSet<u32>,
) -> Result<TextLists, OutOfMemory>
    ensures { IfOk result (λ texts. texts ≡ rules.texts_at store.now.store paths.now.keys) }
{
    let mut texts = TextLists::new(alloc);
    for path in paths {
        add_text(alloc, store, PathId(*path), &mut texts)?;
    }
    Ok(texts)
}
