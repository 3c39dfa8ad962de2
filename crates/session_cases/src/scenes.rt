//! The source, the sink and the library of a run, as its settings word them.
use crate::frames::framed;
use crate::messages::cut;
use crate::numbers::{answers, number_or, numbers, sizes};
use crate::running::words;
use hl_base::OutOfMemory;
use io_edge::{MemoryFile, MemoryFolder, MemoryLibrary, MemorySink, MemorySource};
use std::alloc::{AllocError, Global};

/// The room of a sink, and the most bytes of a put, where none is set.
const ROOM: usize = 8_192;

/// The folder of all members.
const FOLDER: &str = "/w/mac";

/// The files of each library by their paths.
const FILES: [(&str, &str); 4] = [
    (
        "/w/.hlasmplugin/proc_grps.json",
        r#"{"pgroups":[{"name":"G","libs":["mac"]}]}"#,
    ),
    (
        "/w/.hlasmplugin/pgm_conf.json",
        r#"{"pgms":[{"program":"*.hlasm","pgroup":"G"}]}"#,
    ),
    ("/w/mac/MAC.mac", " MACRO\n MAC\n MEND\n"),
    ("/w/mac/C.mac", " COPY C\n"),
];

/// Whether a run may have a setting of this name.
fn is_setting(name: &str) -> bool {
    match name {
        "in" | "bytes" | "first" | "pieces" | "waiting" | "takes" => true,
        "room" | "most" | "puts" => true,
        "folder" | "calls" => true,
        _ => false,
    }
}

/// The name of a setting that no run may have, if there is one.
pub fn wrong_setting(settings: &[String]) -> Option<&str> {
    for setting in settings {
        let (name, _) = cut(setting.as_str());
        if !is_setting(name) {
            return Some(name);
        }
    }
    None
}

/// The value of a setting, or nothing where it is not set.
fn value<'a>(settings: &'a [String], name: &str) -> &'a str {
    for setting in settings {
        let (known, value) = cut(setting.as_str());
        if known == name {
            return value;
        }
    }
    ""
}

/// What comes in: `in NAME; ..`, bodies in their frames, and behind them `bytes TEXT`; of all this `first COUNT` bytes.
fn input(alloc: Global, settings: &[String]) -> Result<Vec<u8>, AllocError> {
    let mut bytes = framed(alloc, value(settings, "in"))?;
    bytes.extend_from_slice(value(settings, "bytes").as_bytes())?;
    bytes.truncate(number_or(value(settings, "first"), usize::MAX));
    Ok(bytes)
}

/// The source: its input in `pieces SIZES`, its answers `waiting yes no`, and the `takes NUMBERS` that fail.
pub fn source(alloc: Global, settings: &[String]) -> Result<MemorySource, AllocError> {
    let bytes = input(alloc, settings)?;
    let sizes = sizes(alloc, value(settings, "pieces"))?;
    let waiting = answers(alloc, value(settings, "waiting"))?;
    let failing = numbers(alloc, value(settings, "takes"))?;
    Ok(MemorySource::new(bytes, sizes, waiting, failing))
}

/// The sink: its `room COUNT`, the `most COUNT` bytes of a put, and the `puts NUMBERS` that fail.
pub fn sink(alloc: Global, settings: &[String]) -> Result<MemorySink, OutOfMemory> {
    let room = number_or(value(settings, "room"), ROOM);
    let most = number_or(value(settings, "most"), ROOM).max(1);
    let failing = numbers(alloc, value(settings, "puts"))?;
    MemorySink::new(alloc, room, most, failing)
}

/// The folder of members with these names in it, where there are any.
fn folders(alloc: Global, names: &str) -> Result<Vec<MemoryFolder>, AllocError> {
    let mut folders = Vec::new(alloc);
    if !names.is_empty() {
        folders.push(MemoryFolder {
            path: String::from_str(alloc, FOLDER)?,
            names: words(alloc, names)?,
        })?;
    }
    Ok(folders)
}

/// A file.
fn file(alloc: Global, path: &str, text: &str) -> Result<MemoryFile, AllocError> {
    Ok(MemoryFile {
        path: String::from_str(alloc, path)?,
        bytes: Vec::from_slice(alloc, text.as_bytes())?,
    })
}

/// The files of each library.
fn files(alloc: Global) -> Result<Vec<MemoryFile>, AllocError> {
    let mut files = Vec::new(alloc);
    for (path, text) in &FILES {
        files.push(file(alloc, path, text)?)?;
    }
    Ok(files)
}

/// The library: its files, `folder NAMES`, and the `calls NUMBERS` that fail.
pub fn library(alloc: Global, settings: &[String]) -> Result<MemoryLibrary, AllocError> {
    let folders = folders(alloc, value(settings, "folder"))?;
    let files = files(alloc)?;
    let failing = numbers(alloc, value(settings, "calls"))?;
    Ok(MemoryLibrary::new(alloc, folders, files, failing))
}
