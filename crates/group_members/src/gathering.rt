//! The index of all members of a store.
ghost use Rattle.std.specs.Prelude.{◌≡◌, ◌<◌, ◌+◌, length, OnOk, IfOk, IfSome};
ghost use Rattle.std.specs.Option.{option_map};
ghost use Rattle.std.specs.Str.{chars};
ghost use Rattle.document_store.specs.Shown.{PathsDiffer};
ghost use Rattle.group_members.specs.Members.{is_before, Indexes};
ghost use Rattle.group_members.specs.Gathering.{IndexesFirst, goes_first};

use crate::MemberIndex;
use document_store::{DocumentStore, paths_have_files};
use hl_base::{OutOfMemory, PathId};
use member_paths::{file_name_of, folder_of, member_name};
use std::alloc::Global;

/// Whether a path comes before another by its bytes.
fn is_before(path: &str, other: &str) -> bool
    ensures { result ≡ is_before (chars path.now) (chars other.now) }
{
    path.as_bytes().cmp(other.as_bytes()).is_lt()
}

/// Whether a path stands in place of the one that was found before, if any.
fn goes_first(store: &DocumentStore, found: Option<PathId>, path: &str) -> bool
    requires { IfSome found (λ other. other.0 < length store.now.store.paths) }
    ensures { result ≡ goes_first store.now.store.paths (option_map (λ other. other.0) found) (chars path.now) }
{
    match found {
        Some(other) => is_before(path, store.path_text(other)),
        None => true,
    }
}

/// Takes in the next path, if something is present there. What an `Err` leaves is of no use.
fn take_in(
    alloc: Global,
    store: &DocumentStore,
    path: PathId,
    index: &mut MemberIndex,
) -> Result<(), OutOfMemory>
    requires given { path.0 < length store.now.store.paths }
    requires differ { PathsDiffer store.now.store.paths }
    requires indexed { IndexesFirst store.now.store path.0 index.old }
    ensures { OnOk result (IndexesFirst store.now.store (path.0 + 1) index.new) }
{
    if store.present(path).is_none() {
        return Ok(());
    }
    let text = store.path_text(path);
    let Some(name) = member_name(file_name_of(text)) else {
        return Ok(());
    };
    let folder = folder_of(text);
    if goes_first(store, index.number(folder, &name), text) {
        index.put(alloc, folder, &name, path)?;
    }
    Ok(())
}

impl MemberIndex {
    /// The index of all members of a store. It goes over its paths once.
    pub fn of(alloc: Global, store: &DocumentStore) -> Result<MemberIndex, OutOfMemory>
        ensures { IfOk result (λ index. Indexes store.now.store index) }
    {
        paths_have_files(store);
        let mut index = MemberIndex::new(alloc);
        for number in 0..store.path_count() {
            take_in(alloc, store, PathId(number as u32), &mut index)?;
        }
        Ok(index)
    }
}
