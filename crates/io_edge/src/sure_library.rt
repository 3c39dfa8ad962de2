//! A library that holds its folders and files and never fails.
ghost use Rattle.std.specs.Prelude.{◌≡◌, ℕ, List, [], Some, map, string_bytes, IfOk, IfErr, IsErrOf};
ghost use Rattle.std.specs.Option.{option_map};
ghost use Rattle.io_edge.specs.Told.{Gains};

use crate::{Library, LibraryFault, MemoryCall, MemoryFile, MemoryFolder, MemoryLibrary};
use std::alloc::Global;
use std::marker::Model;

/// A library that holds its folders and files, of which no call fails but for want of memory. Contracts see what it
/// holds.
#[derive(Drop)]
pub struct SureLibrary {
    held: MemoryLibrary,
}

impl Model for SureLibrary {
    ghost use Rattle.std.specs.Prelude.{◌≡◌, []};
    ghost use Rattle.io_edge.specs.SureForms.{Cabinet};

    ghost Value = { Cabinet };

    ghost view = { λ l. record {
      folders = l.held.folders;
      files = l.held.files;
      calls = l.held.calls;
    } };

    ghost invariant = { λ l. record {
      none_fails : l.held.failing ≡ [];
      none_failed : l.held.refusals ≡ 0;
    } };
}

impl SureLibrary {
    ghost use Rattle.io_edge.specs.SureForms.{Cabinet};
    ghost use Rattle.io_edge.specs.MemoryLibraryParts.{folder_of, file_of, call_of};

    /// A library of these folders and files; of two equal paths the first counts.
    pub fn new(alloc: Global, folders: Vec<MemoryFolder>, files: Vec<MemoryFile>) -> SureLibrary
        ensures { result ≡ record {
          folders = map folder_of folders.items;
          files = map file_of files.items;
          calls = [];
        } }
    {
        SureLibrary {
            held: MemoryLibrary::new(alloc, folders, files, Vec::new(alloc)),
        }
    }

    /// The calls so far with their answers, but those that met want of memory.
    pub fn noted(&self) -> &[MemoryCall]
        ensures { map call_of result.now ≡ self.now.calls }
    {
        self.held.noted()
    }
}

impl Library for SureLibrary {
    ghost use Rattle.io_edge.specs.LibraryCall.{listing, reading, HasLibraryCause};
    ghost use Rattle.io_edge.specs.MemoryLibrary.{names_at, bytes_at};
    ghost use Rattle.io_edge.specs.SureForms.{Cabinet, after_asked};

    ghost calls = { λ l. Some l.calls };

    ghost faults = { λ _. 0 };

    fn list(&mut self, alloc: Global, folder: &str) -> Result<Option<Vec<String>>, LibraryFault>
        ensures calls { Gains (Some self.old.calls) (listing folder.now result) (Some self.new.calls) }
        ensures cause { HasLibraryCause 0 0 result }

        ensures names { IfOk result (λ names. option_map (λ names. map string_bytes names.items) names
            ≡ names_at self.old.folders folder.now) }
        ensures never_failed { IfErr result (λ fault. fault ≡ LibraryFault.OutOfMemory) }
        ensures after { self.new ≡ after_asked self.old (listing folder.now result) }
    {
        self.held.list(alloc, folder)
    }

    fn read(&mut self, alloc: Global, path: &str) -> Result<Option<Vec<u8>>, LibraryFault>
        ensures calls { Gains (Some self.old.calls) (reading path.now result) (Some self.new.calls) }
        ensures cause { HasLibraryCause 0 0 result }

        ensures bytes { IfOk result (λ bytes. option_map (λ bytes. bytes.items) bytes
            ≡ bytes_at self.old.files path.now) }
        ensures never_failed { IfErr result (λ fault. fault ≡ LibraryFault.OutOfMemory) }
        ensures after { self.new ≡ after_asked self.old (reading path.now result) }
    {
        self.held.read(alloc, path)
    }
}
