//! Which path has the member of a name in a folder.
ghost use Rattle.std.specs.Prelude.{◌≡◌, ℕ, List, None, Some, OnOk, IfOk};
ghost use Rattle.std.specs.Option.{option_map, option_copied};
ghost use Rattle.std.specs.Map.{update};
ghost use Rattle.std.specs.Str.{bytes_eq};
ghost use Rattle.indexmap.specs.IndexMap.{get_by_text};
ghost use Rattle.group_members.specs.Index as numbers;

use hl_base::{Name, OutOfMemory, PathId};
use indexmap::IndexMap;
use std::alloc::Global;

/// The paths of members by the folders in which they lie, and by the names of the members.
#[derive(Drop)]
pub struct MemberIndex {
    folders: IndexMap<String, IndexMap<String, PathId>>,
}

/// Puts a path at a name, in place of the one that is there. What an `Err` leaves is of no use.
fn put_name(
    alloc: Global,
    names: &mut IndexMap<String, PathId>,
    name: &Name,
    path: PathId,
) -> Result<(), OutOfMemory>
    ensures { OnOk result ((other : List ℕ) → get_by_text names.new other ≡ update bytes_eq (get_by_text names.old) name.now (Some path) other) }
{
    let key = String::from_str(alloc, name.text())?;
    names.insert(key, path)?;
    Ok(())
}

/// The names of a folder that has one member.
fn one_name(
    alloc: Global,
    name: &Name,
    path: PathId,
) -> Result<IndexMap<String, PathId>, OutOfMemory>
    ensures { IfOk result (λ names. (other : List ℕ) → get_by_text names other ≡ update bytes_eq (λ _. None) name.now (Some path) other) }
{
    let mut names = IndexMap::new(alloc);
    put_name(alloc, &mut names, name, path)?;
    Ok(names)
}

impl MemberIndex {
    /// No member. It takes no memory.
    pub(crate) fn new(alloc: Global) -> MemberIndex
        ensures { (folder name : List ℕ) → numbers.number_in result folder name ≡ None }
    {
        MemberIndex {
            folders: IndexMap::new(alloc),
        }
    }

    /// The number of the path of a member; none where the folder has no such member. It takes no memory.
    pub(crate) fn number(&self, folder: &str, name: &Name) -> Option<PathId>
        ensures { option_map (λ path. path.0) result ≡ numbers.number_in self.now folder.now name.now }
    {
        let names = self.folders.get(folder)?;
        names.get(name.text()).copied()
    }

    /// Puts a path at a folder and a name, in place of the one that is there. What an `Err` leaves is of no use.
    pub(crate) fn put(
        &mut self,
        alloc: Global,
        folder: &str,
        name: &Name,
        path: PathId,
    ) -> Result<(), OutOfMemory>
        ensures { OnOk result ((f n : List ℕ) → numbers.number_in self.new f n ≡ numbers.put folder.now name.now path.0 (numbers.number_in self.old) f n) }
    {
        match self.folders.get_mut(folder) {
            Some(names) => put_name(alloc, names, name, path),
            None => self.begin(alloc, folder, name, path),
        }
    }

    /// Puts a path at a name and at a folder that has no members.
    fn begin(
        &mut self,
        alloc: Global,
        folder: &str,
        name: &Name,
        path: PathId,
    ) -> Result<(), OutOfMemory>
        requires { get_by_text self.old.folders folder.now ≡ None }
        ensures { OnOk result ((f n : List ℕ) → numbers.number_in self.new f n ≡ numbers.put folder.now name.now path.0 (numbers.number_in self.old) f n) }
    {
        let names = one_name(alloc, name, path)?;
        let key = String::from_str(alloc, folder)?;
        self.folders.insert(key, names)?;
        Ok(())
    }
}
