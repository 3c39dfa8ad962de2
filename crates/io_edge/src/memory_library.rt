//! A library that holds its folders and files.
ghost use Rattle.std.specs.Prelude.{◌≡◌, ◌↔◌, ◌≤◌, ◌++◌, List, [], ◌∷◌, Some, Ok, map, find, length, string_bytes};
ghost use Rattle.std.specs.Prelude.{IfOk, OnOk, OnErr, IsErr, IsErrOf, IsTrue};
ghost use Rattle.std.specs.Option.{option_map, option_copied};
ghost use Rattle.std.specs.Str.{bytes_eq};
ghost use Rattle.io_edge.specs.Counts.{IsToFail, one_more};
ghost use Rattle.io_edge.specs.LibraryCall.{listing, reading, lists, reads, refused};
ghost use Rattle.io_edge.specs.Told.{Gains, HasRisen};
ghost use Rattle.io_edge.specs.MemoryLibrary.{names_at, bytes_at};
ghost use Rattle.io_edge.specs.MemoryLibraryParts.{folder_of, file_of};

use crate::number::is_listed;
use crate::{Failed, Library, LibraryFault};
use hl_base::OutOfMemory;
use std::alloc::Global;
use std::marker::Model;

/// A folder and the names of its files.
#[derive(Debug, Drop)]
pub struct MemoryFolder {
    pub path: String,
    pub names: Vec<String>,
}

/// A file and its bytes.
#[derive(Debug, Drop)]
pub struct MemoryFile {
    pub path: String,
    pub bytes: Vec<u8>,
}

/// A call of a library in memory with its answer.
#[derive(Debug, Drop)]
pub enum MemoryCall {
    List {
        folder: String,
        answer: Result<Option<Vec<String>>, Failed>,
    },
    Read {
        path: String,
        answer: Result<Option<Vec<u8>>, Failed>,
    },
}

/// A library that holds its folders and files. Contracts see what it holds.
#[derive(Drop)]
pub struct MemoryLibrary {
    folders: Vec<MemoryFolder>,
    files: Vec<MemoryFile>,
    failing: Vec<u64>,
    calls: Vec<MemoryCall>,
    refusals: u64,
}

impl Model for MemoryLibrary {
    ghost use Rattle.std.specs.Prelude.{map};
    ghost use Rattle.io_edge.specs.MemoryLibrary.{Shelf};
    ghost use Rattle.io_edge.specs.MemoryLibraryParts.{folder_of, file_of, call_of};

    ghost Value = { Shelf };

    ghost view = { λ l. record {
      folders = map folder_of l.folders.items;
      files = map file_of l.files.items;
      failing = l.failing.items;
      calls = map call_of l.calls.items;
      refusals = l.refusals;
    } };
}

/// Whether two paths are the same.
fn is_same_path(path: &str, other: &str) -> bool
    ensures { result ≡ bytes_eq path.now other.now }
{
    path == other
}

/// The same names once more.
fn copy_names(alloc: Global, names: &[String]) -> Result<Vec<String>, OutOfMemory>
    ensures { IfOk result (λ copies. map string_bytes copies.items ≡ map string_bytes names.now) }
{
    let mut copies = Vec::with_capacity(alloc, names.len())?;
    for name in names {
        let copy = String::from_str(alloc, name.as_str())?;
        copies.push(copy)?;
    }
    Ok(copies)
}

/// The first folder at a path.
fn folder_at<'a>(folders: &'a [MemoryFolder], path: &str) -> Option<&'a MemoryFolder>
    ensures { option_copied result ≡ find (λ folder. bytes_eq (string_bytes folder.path) path.now) folders.now }
{
    folders
        .iter()
        .find(|folder| is_same_path(folder.path.as_str(), path))
}

/// The first file at a path.
fn file_at<'a>(files: &'a [MemoryFile], path: &str) -> Option<&'a MemoryFile>
    ensures { option_copied result ≡ find (λ file. bytes_eq (string_bytes file.path) path.now) files.now }
{
    files
        .iter()
        .find(|file| is_same_path(file.path.as_str(), path))
}

/// The names in the first folder at a path, once more.
fn copy_names_at(
    alloc: Global,
    folders: &[MemoryFolder],
    path: &str,
) -> Result<Option<Vec<String>>, OutOfMemory>
    ensures { IfOk result (λ names. option_map (λ names. map string_bytes names.items) names
        ≡ names_at (map folder_of folders.now) path.now) }
{
    match folder_at(folders, path) {
        Some(folder) => Ok(Some(copy_names(alloc, &folder.names)?)),
        None => Ok(None),
    }
}

/// The bytes of the first file at a path, once more.
fn copy_bytes_at(
    alloc: Global,
    files: &[MemoryFile],
    path: &str,
) -> Result<Option<Vec<u8>>, OutOfMemory>
    ensures { IfOk result (λ bytes. option_map (λ bytes. bytes.items) bytes
        ≡ bytes_at (map file_of files.now) path.now) }
{
    match file_at(files, path) {
        Some(file) => Ok(Some(Vec::from_slice(alloc, &file.bytes)?)),
        None => Ok(None),
    }
}

impl MemoryLibrary {
    ghost use Rattle.io_edge.specs.MemoryLibrary.{Shelf, after_call, names_at, bytes_at};
    ghost use Rattle.io_edge.specs.MemoryLibraryParts.{folder_of, file_of, call_of};

    /// A library of these folders and files; of two equal paths the first counts. The calls of the numbers that are
    /// listed fail; every call counts, from 1, but those that met want of memory.
    pub fn new(
        alloc: Global,
        folders: Vec<MemoryFolder>,
        files: Vec<MemoryFile>,
        failing: Vec<u64>,
    ) -> MemoryLibrary
        ensures { result ≡ record {
          folders = map folder_of folders.items;
          files = map file_of files.items;
          failing = failing.items;
          calls = [];
          refusals = 0;
        } }
    {
        MemoryLibrary {
            folders,
            files,
            failing,
            calls: Vec::new(alloc),
            refusals: 0,
        }
    }

    /// The calls so far with their answers, but those that met want of memory.
    pub fn noted(&self) -> &[MemoryCall]
        ensures { map call_of result.now ≡ self.now.calls }
    {
        self.calls.as_slice()
    }

    /// How many calls failed, or the greatest u64.
    pub fn refusals(&self) -> u64
        ensures { result ≡ self.now.refusals }
    {
        self.refusals
    }

    /// Notes a call that was answered. An `Err` changes nothing.
    fn note(&mut self, call: MemoryCall) -> Result<(), OutOfMemory>
        ensures ok { OnOk result (self.new ≡ record self.old { calls = self.old.calls ++ call_of call ∷ [] }) }
        ensures err { OnErr result (self.new ≡ self.old) }
    {
        self.calls.push(call)?;
        Ok(())
    }

    /// Notes a call that fails, and counts it. An `Err` changes nothing.
    fn refuse(&mut self, call: MemoryCall) -> Result<(), OutOfMemory>
        ensures ok { OnOk result (self.new ≡ record self.old {
          calls = self.old.calls ++ call_of call ∷ [];
          refusals = one_more self.old.refusals;
        }) }
        ensures later { OnOk result (self.old.refusals ≤ self.new.refusals) }
        ensures risen { OnOk result (HasRisen self.old.refusals self.new.refusals) }
        ensures err { OnErr result (self.new ≡ self.old) }
    {
        self.calls.push(call)?;
        self.refusals = self.refusals.saturating_add(1);
        Ok(())
    }

    /// Notes a listing that fails, and counts it. An `Err` changes nothing.
    fn refuse_listing(&mut self, alloc: Global, folder: &str) -> Result<(), OutOfMemory>
        ensures ok { OnOk result (self.new ≡ record self.old {
          calls = self.old.calls ++ lists folder.now refused ∷ [];
          refusals = one_more self.old.refusals;
        }) }
        ensures later { OnOk result (self.old.refusals ≤ self.new.refusals) }
        ensures risen { OnOk result (HasRisen self.old.refusals self.new.refusals) }
        ensures err { OnErr result (self.new ≡ self.old) }
    {
        let folder = String::from_str(alloc, folder)?;
        self.refuse(MemoryCall::List {
            folder,
            answer: Err(Failed),
        })
    }

    /// Notes a reading that fails, and counts it. An `Err` changes nothing.
    fn refuse_reading(&mut self, alloc: Global, path: &str) -> Result<(), OutOfMemory>
        ensures ok { OnOk result (self.new ≡ record self.old {
          calls = self.old.calls ++ reads path.now refused ∷ [];
          refusals = one_more self.old.refusals;
        }) }
        ensures later { OnOk result (self.old.refusals ≤ self.new.refusals) }
        ensures risen { OnOk result (HasRisen self.old.refusals self.new.refusals) }
        ensures err { OnErr result (self.new ≡ self.old) }
    {
        let path = String::from_str(alloc, path)?;
        self.refuse(MemoryCall::Read {
            path,
            answer: Err(Failed),
        })
    }

    /// Answers a listing, and notes it. An `Err` changes nothing.
    fn answer_listing(
        &mut self,
        alloc: Global,
        folder: &str,
    ) -> Result<Option<Vec<String>>, OutOfMemory>
        ensures names { IfOk result (λ names. option_map (λ names. map string_bytes names.items) names
            ≡ names_at self.old.folders folder.now) }
        ensures ok { IfOk result (λ names. self.new ≡ record self.old { calls = self.old.calls ++ listing folder.now (Ok names) }) }
        ensures err { OnErr result (self.new ≡ self.old) }
    {
        let path = String::from_str(alloc, folder)?;
        let noted = copy_names_at(alloc, &self.folders, folder)?;
        let names = copy_names_at(alloc, &self.folders, folder)?;
        self.note(MemoryCall::List {
            folder: path,
            answer: Ok(noted),
        })?;
        Ok(names)
    }

    /// Answers a reading, and notes it. An `Err` changes nothing.
    fn answer_reading(&mut self, alloc: Global, path: &str) -> Result<Option<Vec<u8>>, OutOfMemory>
        ensures bytes { IfOk result (λ bytes. option_map (λ bytes. bytes.items) bytes
            ≡ bytes_at self.old.files path.now) }
        ensures ok { IfOk result (λ bytes. self.new ≡ record self.old { calls = self.old.calls ++ reading path.now (Ok bytes) }) }
        ensures err { OnErr result (self.new ≡ self.old) }
    {
        let asked = String::from_str(alloc, path)?;
        let noted = copy_bytes_at(alloc, &self.files, path)?;
        let bytes = copy_bytes_at(alloc, &self.files, path)?;
        self.note(MemoryCall::Read {
            path: asked,
            answer: Ok(noted),
        })?;
        Ok(bytes)
    }
}

/// Whether the next call is to fail, where so many were made.
fn is_to_fail(failing: &[u64], calls: usize) -> bool
    ensures { IsTrue result ↔ IsToFail failing.now calls }
{
    is_listed(failing, (calls as u64).saturating_add(1))
}

impl Library for MemoryLibrary {
    ghost use Rattle.io_edge.specs.LibraryCall.{HasLibraryCause};
    ghost use Rattle.io_edge.specs.MemoryLibrary.{Shelf, after_call, names_at, bytes_at};

    ghost calls = { λ l. Some l.calls };

    ghost faults = { λ l. l.refusals };

    fn list(&mut self, alloc: Global, folder: &str) -> Result<Option<Vec<String>>, LibraryFault>
        ensures calls { Gains (Some self.old.calls) (listing folder.now result) (Some self.new.calls) }
        ensures cause { HasLibraryCause self.old.refusals self.new.refusals result }

        ensures refused { IsToFail self.old.failing (length self.old.calls) → IsErr result }
        ensures failed { IsErrOf result LibraryFault.Failed → IsToFail self.old.failing (length self.old.calls) }
        ensures names { IfOk result (λ names. option_map (λ names. map string_bytes names.items) names
            ≡ names_at self.old.folders folder.now) }
        ensures after { self.new ≡ after_call self.old (listing folder.now result) result }
        ensures kept { IsErrOf result LibraryFault.OutOfMemory → self.new ≡ self.old }
    {
        if is_to_fail(&self.failing, self.calls.len()) {
            self.refuse_listing(alloc, folder)?;
            return Err(LibraryFault::Failed);
        }
        Ok(self.answer_listing(alloc, folder)?)
    }

    fn read(&mut self, alloc: Global, path: &str) -> Result<Option<Vec<u8>>, LibraryFault>
        ensures calls { Gains (Some self.old.calls) (reading path.now result) (Some self.new.calls) }
        ensures cause { HasLibraryCause self.old.refusals self.new.refusals result }

        ensures refused { IsToFail self.old.failing (length self.old.calls) → IsErr result }
        ensures failed { IsErrOf result LibraryFault.Failed → IsToFail self.old.failing (length self.old.calls) }
        ensures bytes { IfOk result (λ bytes. option_map (λ bytes. bytes.items) bytes
            ≡ bytes_at self.old.files path.now) }
        ensures after { self.new ≡ after_call self.old (reading path.now result) result }
        ensures kept { IsErrOf result LibraryFault.OutOfMemory → self.new ≡ self.old }
    {
        if is_to_fail(&self.failing, self.calls.len()) {
            self.refuse_reading(alloc, path)?;
            return Err(LibraryFault::Failed);
        }
        Ok(self.answer_reading(alloc, path)?)
    }
}
