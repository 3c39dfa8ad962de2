//! Where files come from.
ghost use Rattle.std.specs.Prelude.{ℕ, List, Option};
ghost use Rattle.io_edge.specs.Told.{Gains};
ghost use Rattle.io_edge.specs.LibraryCall.{LibraryCall, listing, reading, HasLibraryCause};

use crate::LibraryFault;
use std::alloc::Global;

/// Folders of files, asked by path.
pub trait Library {
    /// The calls so far with their answers, if told; those that met want of memory are left out.
    ghost calls: { Self → Option (List LibraryCall) };

    /// How often a call was refused, or the greatest u64.
    ghost faults: { Self → ℕ };

    /// The names of the files of a folder; `None` where there is no such folder.
    fn list(&mut self, alloc: Global, folder: &str) -> Result<Option<Vec<String>>, LibraryFault>
        ensures calls { Gains (calls self.old) (listing folder.now result) (calls self.new) }
        ensures cause { HasLibraryCause (faults self.old) (faults self.new) result };

    /// The bytes of a file; `None` where there is no such file.
    fn read(&mut self, alloc: Global, path: &str) -> Result<Option<Vec<u8>>, LibraryFault>
        ensures calls { Gains (calls self.old) (reading path.now result) (calls self.new) }
        ensures cause { HasLibraryCause (faults self.old) (faults self.new) result };
}
