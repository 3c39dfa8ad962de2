//! The two calls of a library.
ghost use Rattle.std.specs.Str.{chars};
ghost use Rattle.library_reading.specs.Asked.{AsksOver, file_asked, folder_asked};
ghost use Rattle.library_reading.specs.Inside.{file_answer, folder_answer};

use crate::answers::{FileAnswer, FolderAnswer};
use hl_base::OutOfMemory;
use io_edge::{Library, LibraryFault};
use std::alloc::Global;

/// Lists a folder.
pub(crate) fn ask_folder<B: Library>(
    alloc: Global,
    folder: &str,
    library: &mut B,
) -> Result<FolderAnswer, OutOfMemory>
    ensures { AsksOver (folder_asked (chars folder.now)) folder_answer result
        (B.calls library.old) (B.calls library.new) (B.faults library.old) (B.faults library.new) }
{
    match library.list(alloc, folder) {
        Ok(Some(names)) => Ok(FolderAnswer::Found(names)),
        Ok(None) => Ok(FolderAnswer::Absent),
        Err(LibraryFault::Failed) => Ok(FolderAnswer::Refused),
        Err(LibraryFault::OutOfMemory) => Err(OutOfMemory),
    }
}

/// Reads a file.
pub(crate) fn ask_file<B: Library>(
    alloc: Global,
    path: &str,
    library: &mut B,
) -> Result<FileAnswer, OutOfMemory>
    ensures { AsksOver (file_asked (chars path.now)) file_answer result
        (B.calls library.old) (B.calls library.new) (B.faults library.old) (B.faults library.new) }
{
    match library.read(alloc, path) {
        Ok(Some(bytes)) => Ok(FileAnswer::Found(bytes)),
        Ok(None) => Ok(FileAnswer::Absent),
        Err(LibraryFault::Failed) => Ok(FileAnswer::Refused),
        Err(LibraryFault::OutOfMemory) => Err(OutOfMemory),
    }
}
