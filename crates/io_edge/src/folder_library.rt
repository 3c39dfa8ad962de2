//! A library over std's file system.
ghost use Rattle.std.specs.Prelude.{◌≡◌, ◌≢◌, ℕ, ◌^◌, ◌≤◌, Some, None, Ok, IfOk, IfErr, IfSome, IsErr, OnOk, length, vec_len};
ghost use Rattle.std.specs.IoError.{error_kind};
ghost use Rattle.io_edge.specs.LibraryCall.{HasLibraryCause};

use crate::{Library, LibraryFault};
use std::alloc::Global;
use std::fs::{DirEntry, OpenFile};
use std::io::{Error, ErrorKind, Read};
use std::marker::Model;
use std::rt::Files;
use std::{fs, io};

/// How many bytes a file may have, so that none takes the memory of all others.
const LONGEST_FILE: u64 = 0x400_0000;

/// The room into which files are read first: most need no more.
const USUAL_ROOM: usize = 0x1_0000;

/// A library over a file system. It tells nothing of what it reads.
///
/// The files of a folder are what its names lead to, links followed: a name that is not UTF-8 or leads to no file is left
/// out. An absent folder or file is answered as absent; a file in the place of a folder, a folder in the place of a file,
/// and a file of more than 64 MiB are refused.
#[derive(Drop)]
pub struct FolderLibrary<R: Files + AllocGlobal + Clone + Drop> {
    files: R,
    // The room into which each file is read first, empty until one is read. It serves all files, so that no room is set to zero
    // for each of them.
    room: Vec<u8>,
    refusals: u64,
}

impl<R: Files + AllocGlobal + Clone + Drop> Model for FolderLibrary<R> {
    ghost use Rattle.std.specs.Prelude.{ℕ};

    ghost Value = { ℕ };

    ghost view = { λ l. l.refusals };
}

/// What an error of the file system is.
fn fault_of(error: &Error) -> LibraryFault
    ensures no_memory { error_kind error.now ≡ ErrorKind.OutOfMemory → result ≡ LibraryFault.OutOfMemory }
    ensures others { error_kind error.now ≢ ErrorKind.OutOfMemory → result ≡ LibraryFault.Failed }
{
    match error.kind() {
        ErrorKind::OutOfMemory => LibraryFault::OutOfMemory,
        _ => LibraryFault::Failed,
    }
}

/// What there is, or `None` where there is nothing.
fn unless_absent<T: Drop>(sought: io::Result<T>) -> Result<Option<T>, LibraryFault>
    ensures found { IfOk sought (λ found. result ≡ Ok (Some found)) }
    ensures absent { IfErr sought (λ error. error_kind error ≡ ErrorKind.NotFound → result ≡ Ok None) }
    ensures refused { IfErr sought (λ error. error_kind error ≢ ErrorKind.NotFound → IsErr result) }
{
    match sought {
        Ok(found) => Ok(Some(found)),
        Err(error) if error.kind() == ErrorKind::NotFound => Ok(None),
        Err(error) => Err(fault_of(&error)),
    }
}

/// Whether an entry of a folder leads to a file. A link that leads nowhere or to itself does not.
fn is_file<R: Files + AllocGlobal + Clone + Drop>(
    files: &R,
    entry: &DirEntry<R>,
) -> Result<bool, LibraryFault> {
    match fs::metadata(files, entry.path()) {
        Ok(found) => Ok(found.is_file()),
        Err(error) => match error.kind() {
            ErrorKind::NotFound | ErrorKind::FilesystemLoop => Ok(false),
            _ => Err(fault_of(&error)),
        },
    }
}

/// The name of an entry that is a file. One that is not UTF-8 has none.
fn name_of_file<R: Files + AllocGlobal + Clone + Drop>(
    alloc: Global,
    files: &R,
    entry: io::Result<DirEntry<R>>,
) -> Result<Option<String>, LibraryFault> {
    match entry {
        Ok(entry) => {
            if is_file(files, &entry)? {
                Ok(Some(String::from_str(alloc, entry.file_name())?))
            } else {
                Ok(None)
            }
        }
        Err(error) if error.kind() == ErrorKind::InvalidFilename => Ok(None),
        Err(error) => Err(fault_of(&error)),
    }
}

/// The names of the files of a folder.
fn names_in<R: Files + AllocGlobal + Clone + Drop>(
    alloc: Global,
    files: &R,
    folder: &str,
) -> Result<Option<Vec<String>>, LibraryFault> {
    let Some(entries) = unless_absent(fs::read_dir(files, folder))? else {
        return Ok(None);
    };
    let mut names = Vec::new(alloc);
    for entry in entries {
        if let Some(name) = name_of_file(alloc, files, entry)? {
            names.push(name)?;
        }
    }
    Ok(Some(names))
}

/// Reads a file until the room is full or the file ends, and answers how many bytes were read.
fn fill<F: Read>(file: &mut F, room: &mut [u8]) -> io::Result<usize>
    ensures { IfOk result (λ filled. filled ≤ length room.new) }
{
    let mut filled = 0;
    for _ in 0..u64::MAX {
        if filled >= room.len() {
            break;
        }
        match file.read(&mut room[filled..]) {
            Ok(0) => break,
            Ok(count) => filled += count,
            Err(error) if error.kind() == ErrorKind::Interrupted => {}
            Err(error) => return Err(error),
        }
    }
    Ok(filled)
}

/// The room that a long file needs: as much as it says, and a byte more, at which its end shows.
fn room_for<F: OpenFile>(file: &F) -> usize {
    match file.metadata() {
        Ok(found) => found.len().min(LONGEST_FILE) as usize + 1,
        Err(_) => 0,
    }
}

/// The bytes of a file of which these were read, and which may have more.
fn long_bytes<F: Read + OpenFile + Drop>(
    alloc: Global,
    file: F,
    front: &[u8],
) -> Result<Vec<u8>, LibraryFault>
    ensures { IfOk result (λ bytes. vec_len bytes ≤ 2 ^ 26) }
{
    let mut bytes = Vec::with_capacity(alloc, room_for(&file).max(front.len()))?;
    bytes.extend_from_slice(front)?;
    match file.take(LONGEST_FILE).read_to_end(&mut bytes) {
        Ok(_) if bytes.len() as u64 <= LONGEST_FILE => Ok(bytes),
        Ok(_) => Err(LibraryFault::Failed),
        Err(error) => Err(fault_of(&error)),
    }
}

/// The bytes of a file.
fn bytes_of<F: Read + OpenFile + Drop>(
    alloc: Global,
    mut file: F,
    room: &mut [u8],
) -> Result<Vec<u8>, LibraryFault>
    requires { length room.old ≤ USUAL_ROOM }
    ensures { IfOk result (λ bytes. vec_len bytes ≤ 2 ^ 26) }
{
    match fill(&mut file, room) {
        Ok(filled) if filled < room.len() => Ok(Vec::from_slice(alloc, &room[..filled])?),
        Ok(_) => long_bytes(alloc, file, room),
        Err(error) => Err(fault_of(&error)),
    }
}

/// Makes the room, if there is none.
fn make_room(room: &mut Vec<u8>) -> Result<(), LibraryFault>
    ensures { OnOk result (vec_len room.new ≡ USUAL_ROOM) }
{
    if room.len() != USUAL_ROOM {
        room.resize(USUAL_ROOM, 0)?;
    }
    Ok(())
}

/// The bytes of the file at a path.
fn bytes_at<R: Files + AllocGlobal + Clone + Drop>(
    alloc: Global,
    files: &R,
    room: &mut Vec<u8>,
    path: &str,
) -> Result<Option<Vec<u8>>, LibraryFault>
    ensures { IfOk result (λ found. IfSome found (λ bytes. vec_len bytes ≤ 2 ^ 26)) }
{
    let Some(file) = unless_absent(fs::open(files, path))? else {
        return Ok(None);
    };
    make_room(room)?;
    Ok(Some(bytes_of(alloc, file, room.as_mut_slice())?))
}

impl<R: Files + AllocGlobal + Clone + Drop> FolderLibrary<R> {
    ghost use Rattle.io_edge.specs.MemoryLibrary.{refusals_after};

    /// A library over the files of the system.
    pub fn new(files: R) -> FolderLibrary<R>
        ensures { result ≡ 0 }
    {
        FolderLibrary {
            room: Vec::new(files.alloc()),
            files,
            refusals: 0,
        }
    }

    /// How many calls failed, or the greatest u64.
    pub fn refusals(&self) -> u64
        ensures { result ≡ self.now }
    {
        self.refusals
    }

    /// Counts a call that failed.
    fn count<T: Drop>(&mut self, answer: &Result<T, LibraryFault>)
        ensures counts { self.new ≡ refusals_after answer.now self.old }
        ensures cause { HasLibraryCause self.old self.new answer.now }
    {
        if let Err(LibraryFault::Failed) = answer {
            self.refusals = self.refusals.saturating_add(1);
        }
    }
}

impl<R: Files + AllocGlobal + Clone + Drop> Library for FolderLibrary<R> {
    ghost use Rattle.io_edge.specs.MemoryLibrary.{refusals_after};

    ghost calls = { λ _. None };

    ghost faults = { λ refusals. refusals };

    fn list(&mut self, alloc: Global, folder: &str) -> Result<Option<Vec<String>>, LibraryFault>
        ensures cause { HasLibraryCause self.old self.new result }
        ensures counts { self.new ≡ refusals_after result self.old }
    {
        let answer = names_in(alloc, &self.files, folder);
        self.count(&answer);
        answer
    }

    fn read(&mut self, alloc: Global, path: &str) -> Result<Option<Vec<u8>>, LibraryFault>
        ensures cause { HasLibraryCause self.old self.new result }
        ensures counts { self.new ≡ refusals_after result self.old }
        ensures longest { IfOk result (λ found. IfSome found (λ bytes. vec_len bytes ≤ 2 ^ 26)) }
    {
        let answer = bytes_at(alloc, &self.files, &mut self.room, path);
        self.count(&answer);
        answer
    }
}
