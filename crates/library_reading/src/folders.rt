//! Library folders that are read.
ghost use Rattle.std.specs.Prelude.{◌≡◌, map, filter, string_bytes, IfOk, OnOk};
ghost use Rattle.std.specs.Str.{chars};
ghost use Rattle.library_reading.specs.Asked.{AsksOver, folder_asked};
ghost use Rattle.library_reading.specs.Inside.{folder_answer};
ghost use Rattle.library_reading.specs.Order.{in_order};
ghost use Rattle.library_reading.specs.Reading.{is_member, names_told, path_in, folder_told, members_read, folder_read};
ghost use Rattle.library_reading.specs.Taking.{member_read, each_with_room};

use crate::answers::FolderAnswer;
use crate::asking::ask_folder;
use crate::logs::Logs;
use crate::members::read_member;
use document_store::DocumentStore;
use hl_base::OutOfMemory;
use io_edge::Library;
use library_folders::Folder;
use member_paths::member_name;
use std::alloc::Global;

/// Whether the file of a name is a member.
fn is_member(name: &str) -> bool
    ensures { result ≡ is_member name.now }
{
    member_name(name).is_some()
}

/// Leaves the names of members, in the order of their bytes.
fn leave_members(names: &mut Vec<String>)
    ensures { map string_bytes names.new.items ≡ filter is_member (in_order (map string_bytes names.old.items)) }
{
    names.sort_unstable();
    names.retain(|name| is_member(name.as_str()));
}

/// The names of the members of a folder, in the order of their bytes.
fn names_told(alloc: Global, answer: FolderAnswer) -> Vec<String>
    ensures { map string_bytes result.items ≡ names_told (folder_answer answer) }
{
    match answer {
        FolderAnswer::Absent => Vec::new(alloc),
        FolderAnswer::Found(mut names) => {
            leave_members(&mut names);
            names
        }
        FolderAnswer::Refused => Vec::new(alloc),
    }
}

/// Says what is to be said of a folder.
fn say_folder(
    alloc: Global,
    folder: &Folder,
    answer: &FolderAnswer,
    logs: &mut Logs,
) -> Result<(), OutOfMemory>
    ensures { OnOk result (logs.new ≡ folder_told logs.old folder.now (folder_answer answer.now)) }
{
    match answer {
        FolderAnswer::Absent => {
            if folder.optional {
                Ok(())
            } else {
                logs.say(alloc, folder.path.as_str(), "Absent")
            }
        }
        FolderAnswer::Found(_) => Ok(()),
        FolderAnswer::Refused => logs.say(alloc, folder.path.as_str(), "Unlisted"),
    }
}

/// Lists a folder.
fn list_folder<B: Library>(
    alloc: Global,
    folder: &Folder,
    library: &mut B,
) -> Result<FolderAnswer, OutOfMemory>
    ensures { AsksOver (folder_asked folder.now.path) folder_answer result
        (B.calls library.old) (B.calls library.new) (B.faults library.old) (B.faults library.new) }
{
    ask_folder(alloc, folder.path.as_str(), library)
}

/// The path of the file of a name in a folder. It is made at its length, so that it takes memory once.
fn path_in(alloc: Global, folder: &Folder, name: &str) -> Result<String, OutOfMemory>
    ensures { IfOk result (λ path. chars (string_bytes path) ≡ path_in folder.now.path name.now) }
{
    let folder = folder.path.as_str();
    let length = folder.len().saturating_add(name.len()).saturating_add(1);
    let mut path = String::with_capacity(alloc, length)?;
    path.push_str(folder)?;
    path.push_str("/")?;
    path.push_str(name)?;
    Ok(path)
}

/// Reads the member of a name in a folder, and answers whether there was room.
fn read_named<B: Library>(
    alloc: Global,
    folder: &Folder,
    name: &str,
    library: &mut B,
    store: &mut DocumentStore,
    logs: &mut Logs,
) -> Result<bool, OutOfMemory>
    ensures { AsksOver (member_read (path_in folder.now.path name.now) (record { store = store.old.store; log = logs.old }))
        (λ room. record { taking = record { store = store.new.store; log = logs.new }; room = room }) result
        (B.calls library.old) (B.calls library.new) (B.faults library.old) (B.faults library.new) }
{
    let path = path_in(alloc, folder, name)?;
    read_member(alloc, path.as_str(), library, store, logs)
}

/// Reads the members of these names in a folder, and answers whether there was room for all.
fn read_members<B: Library>(
    alloc: Global,
    folder: &Folder,
    names: &[String],
    library: &mut B,
    store: &mut DocumentStore,
    logs: &mut Logs,
) -> Result<bool, OutOfMemory>
    ensures { AsksOver (members_read folder.now.path (map string_bytes names.now) (record { store = store.old.store; log = logs.old }))
        (λ room. record { taking = record { store = store.new.store; log = logs.new }; room = room }) result
        (B.calls library.old) (B.calls library.new) (B.faults library.old) (B.faults library.new) }
{
    for name in names {
        let room = read_named(alloc, folder, name.as_str(), library, store, logs)?;
        if !room {
            return Ok(false);
        }
    }
    Ok(true)
}

/// Lists a folder and reads its members, and answers whether there was room for all.
fn read_folder<B: Library>(
    alloc: Global,
    folder: &Folder,
    library: &mut B,
    store: &mut DocumentStore,
    logs: &mut Logs,
) -> Result<bool, OutOfMemory>
    ensures { AsksOver (folder_read folder.now (record { store = store.old.store; log = logs.old }))
        (λ room. record { taking = record { store = store.new.store; log = logs.new }; room = room }) result
        (B.calls library.old) (B.calls library.new) (B.faults library.old) (B.faults library.new) }
{
    let answer = list_folder(alloc, folder, library)?;
    say_folder(alloc, folder, &answer, logs)?;
    let names = names_told(alloc, answer);
    read_members(alloc, folder, names.as_slice(), library, store, logs)
}

/// Reads folders, and answers whether there was room for all their members.
pub(crate) fn read_folders<B: Library>(
    alloc: Global,
    folders: &[Folder],
    library: &mut B,
    store: &mut DocumentStore,
    logs: &mut Logs,
) -> Result<bool, OutOfMemory>
    ensures { AsksOver (each_with_room folder_read folders.now (record { store = store.old.store; log = logs.old }))
        (λ room. record { taking = record { store = store.new.store; log = logs.new }; room = room }) result
        (B.calls library.old) (B.calls library.new) (B.faults library.old) (B.faults library.new) }
{
    for folder in folders {
        let room = read_folder(alloc, folder, library, store, logs)?;
        if !room {
            return Ok(false);
        }
    }
    Ok(true)
}
