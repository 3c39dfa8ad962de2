//! Library folders.
ghost use Rattle.std.specs.Prelude.{◌≡◌, ◌++◌, ◌∷◌, [], if◌then◌else◌, map, OnOk, IfOk};
ghost use Rattle.std.specs.Str.{chars};
ghost use Rattle.library_folders.specs.Folders as rules;

use hl_base::{OutOfMemory, Text};
use member_paths::{folder_of, folder_path};
use program_config::{Group, Library};
use std::alloc::Global;

/// A library folder by its path, from the root of the file system; an optional one may be absent.
#[derive(Debug, Drop)]
pub struct Folder {
    pub path: Text,
    pub optional: bool,
}

/// Whether a folder is the one of a path.
fn is_at(folder: &Folder, path: &str) -> bool
    ensures { result ≡ rules.is_at (chars path.now) folder.now }
{
    folder.path.as_str() == path
}

/// Whether a folder is among the library folders.
pub fn is_library_folder(folders: &[Folder], path: &str) -> bool
    ensures { result ≡ rules.is_library_folder folders.now (chars path.now) }
{
    folders.iter().any(|folder| is_at(folder, path))
}

/// Whether a file lies in a library folder.
pub fn is_member(folders: &[Folder], path: &str) -> bool
    ensures { result ≡ rules.is_member folders.now (chars path.now) }
{
    is_library_folder(folders, folder_of(path))
}

/// Adds the folders of a group behind those that are there. What an `Err` leaves is of no use.
fn name_all(
    alloc: Global,
    root: &str,
    libraries: &[Library],
    named: &mut Vec<Folder>,
) -> Result<(), OutOfMemory>
    ensures { OnOk result (named.new.items ≡ named.old.items ++ map (rules.folder_in (chars root.now)) libraries.now) }
{
    for library in libraries {
        named.push(Folder {
            path: folder_path(alloc, root, library.path.as_str())?,
            optional: library.optional,
        })?;
    }
    Ok(())
}

/// The folders of all groups, as often as they are named.
fn named_folders(alloc: Global, root: &str, groups: &[Group]) -> Result<Vec<Folder>, OutOfMemory>
    ensures { IfOk result (λ named. named.items ≡ rules.named_folders (chars root.now) groups.now) }
{
    let mut named = Vec::new(alloc);
    for group in groups {
        name_all(alloc, root, group.libraries.as_slice(), &mut named)?;
    }
    Ok(named)
}

/// Whether one of these entries says that the folder of a path is optional.
fn may_be_absent(named: &[Folder], path: &str) -> bool
    ensures { result ≡ rules.may_be_absent named.now (chars path.now) }
{
    named
        .iter()
        .any(|folder| is_at(folder, path) && folder.optional)
}

/// The folder of a path, as these entries say.
fn folder_at(alloc: Global, named: &[Folder], path: &str) -> Result<Folder, OutOfMemory>
    ensures { IfOk result (λ folder. folder ≡ rules.folder_at named.now (chars path.now)) }
{
    Ok(Folder {
        path: Text::of(alloc, path)?,
        optional: may_be_absent(named, path),
    })
}

/// Adds the folder of a path behind the others, if it is not among them. What an `Err` leaves is of no use.
fn include(
    alloc: Global,
    named: &[Folder],
    path: &str,
    list: &mut Vec<Folder>,
) -> Result<(), OutOfMemory>
    ensures { OnOk result (list.new.items ≡ (if rules.is_library_folder list.old.items (chars path.now) then list.old.items else list.old.items ++ rules.folder_at named.now (chars path.now) ∷ [])) }
{
    if !is_library_folder(list.as_slice(), path) {
        list.push(folder_at(alloc, named, path)?)?;
    }
    Ok(())
}

/// The folders of these entries, each once.
fn distinct(alloc: Global, named: &[Folder]) -> Result<Vec<Folder>, OutOfMemory>
    ensures { IfOk result (λ list. list.items ≡ rules.distinct named.now) }
{
    let mut list = Vec::new(alloc);
    for folder in named {
        include(alloc, named, folder.path.as_str(), &mut list)?;
    }
    Ok(list)
}

/// The library folders: each folder of each group once, in order of first mention. A folder is optional where any of its
/// entries says so.
pub fn folders_of(alloc: Global, root: &str, groups: &[Group]) -> Result<Vec<Folder>, OutOfMemory>
    ensures { IfOk result (λ list. list.items ≡ rules.folders_of (chars root.now) groups.now) }
{
    let named = named_folders(alloc, root, groups)?;
    distinct(alloc, named.as_slice())
}
