//! The configuration files, in words.
use hl_base::{OutOfMemory, Text};
use program_config::{
    ConfigFault, Entry, Group, Groups, Libraries, Library, Programs, group_of, read_groups,
    read_programs,
};
use std::alloc::{AllocError, Global};

/// A library in words: its path, with a question mark behind it where it is optional.
fn library(alloc: Global, library: &Library) -> Result<String, AllocError> {
    let mark = if library.optional { "?" } else { "" };
    format!(in alloc; " {}{mark}", library.path.as_str())
}

/// A group in words: its name, SYSPARM in brackets, and its libraries.
fn group(alloc: Global, group: &Group) -> Result<String, AllocError> {
    let mut words = format!(in alloc; "{}[{}]", group.name.as_str(), group.sysparm.as_str())?;
    for one in group.libraries.as_slice() {
        words.push_str(library(alloc, one)?.as_str())?;
    }
    words.push_str(";")?;
    Ok(words)
}

fn groups(alloc: Global, groups: &Groups) -> Result<String, AllocError> {
    let mut words = String::new(alloc);
    for one in groups.as_slice() {
        words.push_str(group(alloc, one)?.as_str())?;
    }
    Ok(words)
}

fn programs(alloc: Global, programs: &Programs) -> Result<String, AllocError> {
    let mut words = String::new(alloc);
    for entry in programs.as_slice() {
        let (program, group) = (entry.program.as_str(), entry.group.as_str());
        words.push_str(format!(in alloc; "{program}={group};")?.as_str())?;
    }
    Ok(words)
}

/// A fault in words.
fn fault(alloc: Global, fault: &ConfigFault) -> Result<String, OutOfMemory> {
    match fault {
        ConfigFault::NotJson => Ok(String::from_str(alloc, "NotJson")?),
        ConfigFault::BadMember(name) => Ok(format!(in alloc; "BadMember({})", name.as_str())?),
        ConfigFault::OutOfMemory => Err(OutOfMemory),
    }
}

/// The groups of a file.
pub fn groups_read(alloc: Global, text: &str) -> Result<String, OutOfMemory> {
    match read_groups(alloc, text.as_bytes()) {
        Ok(read) => Ok(groups(alloc, &read)?),
        Err(refused) => fault(alloc, &refused),
    }
}

/// The entries of a file.
pub fn programs_read(alloc: Global, text: &str) -> Result<String, OutOfMemory> {
    match read_programs(alloc, text.as_bytes()) {
        Ok(read) => Ok(programs(alloc, &read)?),
        Err(refused) => fault(alloc, &refused),
    }
}

/// The entries that are worded `PATTERN=GROUP`, with a comma between them.
fn entries_worded(alloc: Global, words: &str) -> Result<Programs, OutOfMemory> {
    let mut programs = Programs::new(alloc);
    for word in words.split(',') {
        let (program, group) = word.split_once('=').unwrap_or((word, ""));
        let (program, group) = (Text::of(alloc, program)?, Text::of(alloc, group)?);
        programs.push(Entry { program, group })?;
    }
    Ok(programs)
}

/// Groups of these names, with a comma between them.
fn groups_worded(alloc: Global, words: &str) -> Result<Groups, OutOfMemory> {
    let mut groups = Groups::new(alloc);
    for word in words.split(',') {
        let (name, libraries) = (Text::of(alloc, word)?, Libraries::new(alloc));
        let sysparm = Text::new(alloc);
        groups.push(Group {
            name,
            libraries,
            sysparm,
        })?;
    }
    Ok(groups)
}

/// The place of the group of a path.
pub fn place(
    alloc: Global,
    entries: &str,
    groups: &str,
    path: &str,
) -> Result<String, OutOfMemory> {
    let (programs, groups) = (
        entries_worded(alloc, entries)?,
        groups_worded(alloc, groups)?,
    );
    match group_of(&programs, &groups, path) {
        Some(group) => Ok(format!(in alloc; "{}", group.0)?),
        None => Ok(String::from_str(alloc, "none")?),
    }
}
