//! The library folders of the configuration files, and what a program has of its group, in words.
use hl_base::{OutOfMemory, Text};
use library_folders::{
    Configuration, Folder, folders_for, folders_of, group_of, is_library_folder, is_member,
    parm_for,
};
use program_config::{ConfigFault, Groups, Programs, read_groups, read_programs};
use std::alloc::{AllocError, Global};

/// The groups of a file; none where it has a fault.
fn groups(alloc: Global, file: &str) -> Result<Groups, OutOfMemory> {
    match read_groups(alloc, file.as_bytes()) {
        Ok(groups) => Ok(groups),
        Err(ConfigFault::OutOfMemory) => Err(OutOfMemory),
        Err(_) => Ok(Groups::new(alloc)),
    }
}

/// The entries of a file; none where it has a fault.
fn programs(alloc: Global, file: &str) -> Result<Programs, OutOfMemory> {
    match read_programs(alloc, file.as_bytes()) {
        Ok(programs) => Ok(programs),
        Err(ConfigFault::OutOfMemory) => Err(OutOfMemory),
        Err(_) => Ok(Programs::new(alloc)),
    }
}

/// The library folders of a file of groups.
fn folders(alloc: Global, file: &str, root: &str) -> Result<Vec<Folder>, OutOfMemory> {
    folders_of(alloc, root, groups(alloc, file)?.as_slice())
}

/// The path of a folder, and a question mark where it is optional.
fn folder_worded(alloc: Global, folder: &Folder) -> Result<String, AllocError> {
    let mark = if folder.optional { "?" } else { "" };
    format!(in alloc; "{}{mark};", folder.path.as_str())
}

/// The library folders, with a semicolon behind each.
pub fn listed(alloc: Global, file: &str, root: &str) -> Result<String, OutOfMemory> {
    let mut words = String::new(alloc);
    for folder in &folders(alloc, file, root)? {
        words.push_str(folder_worded(alloc, folder)?.as_str())?;
    }
    Ok(words)
}

/// Whether a path is that of a library folder, and whether a file of this path lies in one.
fn stands(folders: &[Folder], path: &str) -> &'static str {
    match (is_library_folder(folders, path), is_member(folders, path)) {
        (true, true) => "both;",
        (true, false) => "folder;",
        (false, true) => "member;",
        (false, false) => "neither;",
    }
}

/// What paths are to the library folders, with a semicolon behind each.
pub fn standing(
    alloc: Global,
    file: &str,
    root: &str,
    paths: &[String],
) -> Result<String, OutOfMemory> {
    let folders = folders(alloc, file, root)?;
    let mut words = String::new(alloc);
    for path in paths {
        words.push_str(stands(folders.as_slice(), path.as_str()))?;
    }
    Ok(words)
}

/// A group and a SYSPARM, and folders with a blank before each.
fn choice_worded(
    alloc: Global,
    group: &str,
    parm: &str,
    folders: &[Text],
) -> Result<String, AllocError> {
    let mut words = format!(in alloc; "{group}[{parm}]")?;
    for folder in folders {
        words.push(' ')?;
        words.push_str(folder.as_str())?;
    }
    Ok(words)
}

/// The group of a program, its SYSPARM, and its folders; a root that is a hyphen is none.
pub fn chosen(
    alloc: Global,
    files: (&str, &str),
    root: &str,
    path: &str,
) -> Result<String, OutOfMemory> {
    let configuration = Configuration {
        groups: groups(alloc, files.0)?,
        programs: programs(alloc, files.1)?,
    };
    let root = if root == "-" { None } else { Some(root) };
    let group = match group_of(root, &configuration, path) {
        Some(group) => group.name.as_str(),
        None => "no group ",
    };
    let folders = folders_for(alloc, root, &configuration, path)?;
    let parm = parm_for(root, &configuration, path);
    Ok(choice_worded(alloc, group, parm, folders.as_slice())?)
}
