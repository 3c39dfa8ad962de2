//! Asks a library over the file system: `folder_cases CALL..` prints what each call answers, a line each, and then how
//! many were refused.
//!
//! A call is `list=FOLDER`, which answers the names in order of their bytes, `read=FILE`, which answers the text, or
//! `all=FOLDER`, which reads every file that is listed and answers how many there are and how long they are together. An
//! absent folder or file is answered `none`, a refused call `refused`. The crate `io_edge` promises nothing of what such a
//! library reads: here it is shown on folders.
#![tactic(auto)]

use hl_base::OutOfMemory;
use io_edge::{FolderLibrary, Library, LibraryFault};
use std::alloc::Global;
use std::env;
use std::io::{self, ErrorKind};
use std::process::ExitCode;

/// An answer in words.
fn worded(
    alloc: Global,
    answer: Result<Option<String>, LibraryFault>,
) -> Result<String, OutOfMemory> {
    match answer {
        Ok(Some(words)) => Ok(words),
        Ok(None) => Ok(String::from_str(alloc, "none")?),
        Err(LibraryFault::Failed) => Ok(String::from_str(alloc, "refused")?),
        Err(LibraryFault::OutOfMemory) => Err(OutOfMemory),
    }
}

/// Names with blanks between them.
fn joined(alloc: Global, names: &[String]) -> Result<String, OutOfMemory> {
    let mut words = String::new(alloc);
    for name in names {
        if !words.is_empty() {
            words.push_str(" ")?;
        }
        words.push_str(name.as_str())?;
    }
    Ok(words)
}

/// The names of a folder in order.
fn listed<B: Library>(
    alloc: Global,
    library: &mut B,
    folder: &str,
) -> Result<Option<String>, LibraryFault> {
    let Some(mut names) = library.list(alloc, folder)? else {
        return Ok(None);
    };
    names.sort_unstable();
    Ok(Some(joined(alloc, names.as_slice())?))
}

/// The text of a file.
fn read<B: Library>(
    alloc: Global,
    library: &mut B,
    path: &str,
) -> Result<Option<String>, LibraryFault> {
    match library.read(alloc, path)? {
        Some(bytes) => Ok(Some(String::from_utf8_lossy(alloc, bytes.as_slice())?)),
        None => Ok(None),
    }
}

/// How many files a folder has, and how long they are together.
fn counted<B: Library>(
    alloc: Global,
    library: &mut B,
    folder: &str,
) -> Result<Option<String>, LibraryFault> {
    let Some(names) = library.list(alloc, folder)? else {
        return Ok(None);
    };
    let mut files = 0u64;
    let mut length = 0u64;
    for name in &names {
        let path = format!(in alloc; "{folder}/{name}")?;
        if let Some(bytes) = library.read(alloc, path.as_str())? {
            files = files.saturating_add(1);
            length = length.saturating_add(bytes.len() as u64);
        }
    }
    Ok(Some(format!(in alloc; "{files} files, {length} bytes")?))
}

/// What a call answers.
fn answer<B: Library>(alloc: Global, library: &mut B, call: &str) -> Result<String, OutOfMemory> {
    match call.split_once('=') {
        Some(("list", folder)) => worded(alloc, listed(alloc, library, folder)),
        Some(("read", path)) => worded(alloc, read(alloc, library, path)),
        Some(("all", folder)) => worded(alloc, counted(alloc, library, folder)),
        _ => Ok(String::from_str(alloc, "no call")?),
    }
}

/// Prints what each call answers.
fn print_answers(rt: &HostRuntime) -> io::Result<()> {
    let mut library = FolderLibrary::new(rt);
    let mut words = env::args(rt)?;
    let _name = words.next();
    for word in words {
        match answer(rt.alloc(), &mut library, word.as_str()) {
            Ok(answer) => println!(rt; "{word}: {answer}")?,
            Err(OutOfMemory) => return Err(io::Error::from(ErrorKind::OutOfMemory)),
        }
    }
    println!(rt; "{} refused", library.refusals())
}

fn main(rt: HostRuntime) -> ExitCode {
    match print_answers(&rt) {
        Ok(()) => ExitCode::SUCCESS,
        Err(_) => ExitCode::FAILURE,
    }
}
