//! Calls of a library that holds its folders and files.
use crate::words::{add_answer, cut, numbers};
use hl_base::OutOfMemory;
use io_edge::{
    Library, LibraryFault, MemoryCall, MemoryFile, MemoryFolder, MemoryLibrary, SureLibrary,
};
use std::alloc::{AllocError, Global};

/// What a library holds, and which of its calls fail.
#[derive(Drop)]
struct Holdings {
    folders: Vec<MemoryFolder>,
    files: Vec<MemoryFile>,
    failing: Vec<u64>,
}

/// `PATH NAME`: a folder of one name.
fn folder(alloc: Global, words: &str) -> Result<MemoryFolder, AllocError> {
    let (path, name) = cut(words);
    let mut names = Vec::new(alloc);
    names.push(String::from_str(alloc, name)?)?;
    Ok(MemoryFolder {
        path: String::from_str(alloc, path)?,
        names,
    })
}

/// `PATH TEXT`: a file.
fn file(alloc: Global, words: &str) -> Result<MemoryFile, AllocError> {
    let (path, text) = cut(words);
    Ok(MemoryFile {
        path: String::from_str(alloc, path)?,
        bytes: Vec::from_slice(alloc, text.as_bytes())?,
    })
}

/// `folder PATH NAME`, `file PATH TEXT` and `fails NUMBERS`, with semicolons between them.
fn held_by(alloc: Global, words: &str) -> Result<Holdings, AllocError> {
    let mut folders = Vec::new(alloc);
    let mut files = Vec::new(alloc);
    let mut failing = Vec::new(alloc);
    for part in words.split("; ") {
        match cut(part) {
            ("folder", words) => folders.push(folder(alloc, words)?)?,
            ("file", words) => files.push(file(alloc, words)?)?,
            (_, words) => failing = numbers(alloc, words)?,
        }
    }
    Ok(Holdings {
        folders,
        files,
        failing,
    })
}

/// A refusal.
fn refused(alloc: Global, fault: LibraryFault) -> Result<String, OutOfMemory> {
    match fault {
        LibraryFault::Failed => Ok(String::from_str(alloc, "refused")?),
        LibraryFault::OutOfMemory => Err(OutOfMemory),
    }
}

/// What `list PATH` answers: the names, with blanks between them.
fn listed<B: Library>(alloc: Global, library: &mut B, path: &str) -> Result<String, OutOfMemory> {
    match library.list(alloc, path) {
        Ok(Some(names)) => {
            let mut words = String::new(alloc);
            for name in &names {
                if !words.is_empty() {
                    words.push_str(" ")?;
                }
                words.push_str(name.as_str())?;
            }
            Ok(words)
        }
        Ok(None) => Ok(String::from_str(alloc, "none")?),
        Err(fault) => refused(alloc, fault),
    }
}

/// What `read PATH` answers: the text.
fn read<B: Library>(alloc: Global, library: &mut B, path: &str) -> Result<String, OutOfMemory> {
    match library.read(alloc, path) {
        Ok(Some(bytes)) => Ok(String::from_utf8_lossy(alloc, bytes.as_slice())?),
        Ok(None) => Ok(String::from_str(alloc, "none")?),
        Err(fault) => refused(alloc, fault),
    }
}

/// What a call answers.
fn answer<B: Library>(alloc: Global, library: &mut B, call: &str) -> Result<String, OutOfMemory> {
    match cut(call) {
        ("list", path) => listed(alloc, library, path),
        ("read", path) => read(alloc, library, path),
        _ => Ok(String::from_str(alloc, "no call")?),
    }
}

/// What the calls of a library answer in turn.
fn asked<B: Library>(
    alloc: Global,
    library: &mut B,
    calls: &[String],
) -> Result<String, OutOfMemory> {
    let mut answers = String::new(alloc);
    for call in calls {
        let answer = answer(alloc, library, call.as_str())?;
        add_answer(&mut answers, answer.as_str())?;
    }
    Ok(answers)
}

/// Adds the calls that were noted.
fn add_noted(alloc: Global, answers: &mut String, noted: &[MemoryCall]) -> Result<(), AllocError> {
    let noted = format!(in alloc; "{noted:?}")?;
    add_answer(answers, noted.as_str())
}

/// A library of which calls may fail.
fn of_memory(alloc: Global, holds: Holdings, calls: &[String]) -> Result<String, OutOfMemory> {
    let mut library = MemoryLibrary::new(alloc, holds.folders, holds.files, holds.failing);
    let mut answers = asked(alloc, &mut library, calls)?;
    add_noted(alloc, &mut answers, library.noted())?;
    Ok(answers)
}

/// A library of which no call fails.
fn of_sure(alloc: Global, holds: Holdings, calls: &[String]) -> Result<String, OutOfMemory> {
    let mut library = SureLibrary::new(alloc, holds.folders, holds.files);
    let mut answers = asked(alloc, &mut library, calls)?;
    add_noted(alloc, &mut answers, library.noted())?;
    Ok(answers)
}

/// What the calls of a library answer in turn, with semicolons between them; what it noted comes last. One that holds
/// `sure` first is one of which no call fails.
pub fn answers(alloc: Global, holds: &str, calls: &[String]) -> Result<String, OutOfMemory> {
    match holds.strip_prefix("sure; ") {
        Some(holds) => of_sure(alloc, held_by(alloc, holds)?, calls),
        None => of_memory(alloc, held_by(alloc, holds)?, calls),
    }
}
