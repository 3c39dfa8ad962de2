//! What names of members mean to a group.
use crate::scene::store_of;
use crate::words::add_part;
use group_members::{GroupMembers, MemberIndex};
use hl_base::{Answer, Name, OutOfMemory, Text};
use std::alloc::Global;
use text_pool::Present;

/// Paths of folders, with commas between them.
fn folders(alloc: Global, words: &str) -> Result<Vec<Text>, OutOfMemory> {
    let mut folders = Vec::new(alloc);
    for path in words.split(", ") {
        folders.push(Text::of(alloc, path)?)?;
    }
    Ok(folders)
}

/// The text that is found under a name, `unreadable`, `nothing`, or `no name`.
fn told<'a>(members: &'a GroupMembers<'a>, name: &str) -> &'a str {
    let Some(name) = Name::read(name) else {
        return "no name";
    };
    match members.member(&name) {
        Answer::File(_, text) => members.pool().text(text),
        Answer::Unreadable => "unreadable",
        _ => "nothing",
    }
}

/// What is found under names in turn, with semicolons between them.
pub fn answers(
    alloc: Global,
    texts: &str,
    paths: &str,
    names: &[String],
) -> Result<String, OutOfMemory> {
    let store = store_of(alloc, texts)?;
    let index = MemberIndex::of(alloc, &store)?;
    let folders = folders(alloc, paths)?;
    let members = GroupMembers::new(&store, &index, folders.as_slice());
    let mut words = String::new(alloc);
    for name in names {
        add_part(&mut words, "; ", told(&members, name.as_str()))?;
    }
    Ok(words)
}
