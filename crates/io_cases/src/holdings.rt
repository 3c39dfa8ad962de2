//! What a library holds, in words.
use crate::words::{cut, number};
use io_edge::{MemoryFile, MemoryFolder, MemoryLibrary};
use std::alloc::{AllocError, Global};

/// `PATH NAMES`: a folder.
fn folder(alloc: Global, words: &str) -> Result<MemoryFolder, AllocError> {
    let (path, words) = cut(words);
    let mut names = Vec::new(alloc);
    for name in words.split(' ') {
        if !name.is_empty() {
            names.push(String::from_str(alloc, name)?)?;
        }
    }
    Ok(MemoryFolder {
        path: String::from_str(alloc, path)?,
        names,
    })
}

/// A file of these bytes.
fn file(alloc: Global, path: &str, bytes: Vec<u8>) -> Result<MemoryFile, AllocError> {
    Ok(MemoryFile {
        path: String::from_str(alloc, path)?,
        bytes,
    })
}

/// So many bytes of one character.
fn blanks(alloc: Global, count: usize) -> Result<Vec<u8>, AllocError> {
    let mut bytes = Vec::new(alloc);
    bytes.resize(count, b' ')?;
    Ok(bytes)
}

/// The library that these parts describe: `folder PATH NAMES`, `file PATH TEXT`, `blank PATH COUNT`, a file of so many blanks,
/// `broken PATH`, a file that is not UTF-8, and `fails NUMBER`.
pub fn library_of(alloc: Global, words: &str) -> Result<MemoryLibrary, AllocError> {
    let mut folders = Vec::new(alloc);
    let mut files = Vec::new(alloc);
    let mut failing = Vec::new(alloc);
    for part in words.split("; ") {
        let (kind, rest) = cut(part);
        let (path, text) = cut(rest);
        match kind {
            "folder" => folders.push(folder(alloc, rest)?)?,
            "file" => {
                let bytes = Vec::from_slice(alloc, text.as_bytes())?;
                files.push(file(alloc, path, bytes)?)?;
            }
            "blank" => files.push(file(alloc, path, blanks(alloc, number(text))?)?)?,
            "broken" => files.push(file(alloc, path, Vec::from_slice(alloc, &[255])?)?)?,
            _ => failing.push(number(path) as u64)?,
        }
    }
    Ok(MemoryLibrary::new(alloc, folders, files, failing))
}
