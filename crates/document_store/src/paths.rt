//! Numbers of paths: a path gets the next when a document of it is opened or a file of it is kept for the first time, and
//! keeps it.
ghost use Rattle.std.specs.Prelude.{◌≡◌, ◌<◌, ◌≤◌, ◌^◌, ◌++◌, ◌∷◌, [], Some, IfOk, IfErr, length, if◌then◌else◌};
ghost use Rattle.std.specs.Str.{chars};
ghost use Rattle.std.specs.Vec.{vec_len, vec_capacity};
ghost use Rattle.indexmap.specs.IndexSet.{spare};
ghost use Rattle.document_store.specs.Store.{number_of};
ghost use Rattle.document_store.specs.Changes.{with_path, beside_path};
ghost use Rattle.document_store.specs.Inside.{path_in, paths_in};

use crate::{MemberText, StoreFault};
use hl_base::PathId;
use indexmap::IndexSet;

/// The number of a path.
pub(crate) fn number_in(paths: &IndexSet<String>, path: &str) -> Option<usize>
    ensures { result ≡ number_of (paths_in paths.now.keys) (chars path.now) }
{
    paths.get_index_of(path)
}

/// The number that a path has once it is entered; no memory where no number of 32 bits is left.
pub(crate) fn number_for(paths: &IndexSet<String>, path: &str) -> Result<PathId, StoreFault>
    requires { length paths.now.keys ≤ 2 ^ 32 }
    ensures number { IfOk result (λ id. number_of (with_path (paths_in paths.now.keys) (chars path.now)) (chars path.now) ≡ Some id.0) }
    ensures few { IfOk result (λ _. length (with_path (paths_in paths.now.keys) (chars path.now)) ≤ 2 ^ 32) }
    ensures memory { IfErr result (λ fault. fault ≡ StoreFault.OutOfMemory) }
{
    match number_in(paths, path) {
        Some(number) => Ok(PathId(number as u32)),
        None => match u32::try_from(paths.len()) {
            Ok(number) => Ok(PathId(number)),
            Err(_) => Err(StoreFault::OutOfMemory),
        },
    }
}

/// Gives a path a number, if it has none, with what is kept of its file.
pub(crate) fn enter(
    paths: &mut IndexSet<String>,
    files: &mut Vec<Option<MemberText>>,
    path: String,
    file: Option<MemberText>,
)
    requires room { 0 < spare paths.old }
    requires place { vec_len files.old < vec_capacity files.old }
    ensures paths { paths_in paths.new.keys ≡ with_path (paths_in paths.old.keys) (path_in path) }
    ensures files { files.new.items ≡ beside_path (paths_in paths.old.keys) (path_in path) files.old.items file }
{
    match paths.insert(path) {
        Ok(added) => put_beside(files, added, file),
        Err(_) => unreachable!(),
    }
}

/// Puts what is kept of a file behind the others, if its path was added.
fn put_beside(files: &mut Vec<Option<MemberText>>, added: bool, file: Option<MemberText>)
    requires { vec_len files.old < vec_capacity files.old }
    ensures { files.new.items ≡ (if added then files.old.items ++ file ∷ [] else files.old.items) }
{
    if added {
        files.push_reserved(file);
    }
}
