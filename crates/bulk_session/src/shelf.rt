//! The library of the session: a folder of members, and a configuration with one group for all programs.
ghost use Rattle.std.specs.Prelude.{◌≡◌, [], ◌∷◌, map, string_bytes, IfOk};
ghost use Rattle.io_edge.specs.MemoryLibraryParts.{folder_of, file_of};
ghost use Rattle.bulk_script.specs.Texts as texts;
ghost use Rattle.bulk_session.specs.Shelf as shelf;

use bulk_script::{MEMBERS, member_name, member_text};
use hl_base::OutOfMemory;
use io_edge::{Library, LibraryFault, MemoryFile, MemoryFolder, SureLibrary};
use std::alloc::Global;

const FOLDER: &str = "/bulk/lib";

const GROUPS_PATH: &str = "/bulk/.hlasmplugin/proc_grps.json";

const GROUPS: &str = r#"{"pgroups":[{"name":"BULK","libs":["lib"]}]}"#;

const PROGRAMS_PATH: &str = "/bulk/.hlasmplugin/pgm_conf.json";

const PROGRAMS: &str = r#"{"pgms":[{"program":"*","pgroup":"BULK"}]}"#;

/// A library in memory that holds the configuration and the members. Whatever it was asked, each call has the answer that they have
/// for it.
#[derive(Drop)]
pub(crate) struct BulkLibrary {
    held: SureLibrary,
    ghost folders_are: { held.folders ≡ shelf.folders },
    ghost files_are: { held.files ≡ shelf.files },
    ghost all_answered: { map shelf.answered held.calls ≡ held.calls },
}

/// A file.
fn file(alloc: Global, path: &str, text: &str) -> Result<MemoryFile, OutOfMemory>
    ensures { IfOk result (λ file. file_of file ≡ record { path = path.now; bytes = text.now }) }
{
    Ok(MemoryFile {
        path: String::from_str(alloc, path)?,
        bytes: Vec::from_slice(alloc, text.as_bytes())?,
    })
}

/// The file of a member.
fn member_file(alloc: Global, number: u32) -> Result<MemoryFile, OutOfMemory>
    ensures { IfOk result (λ file. file_of file ≡ shelf.member_file number) }
{
    let name = member_name(alloc, number)?;
    let text = member_text(alloc, number)?;
    let path = format!(in alloc; "{FOLDER}/{name}")?;
    file(alloc, path.as_str(), text.as_str())
}

/// The names of the members.
fn member_names(alloc: Global) -> Result<Vec<String>, OutOfMemory>
    ensures { IfOk result (λ names. map string_bytes names.items ≡ map texts.member_name (shelf.first_numbers 10)) }
{
    let mut names = Vec::new(alloc);
    for number in 0..MEMBERS {
        names.push(member_name(alloc, number)?)?;
    }
    Ok(names)
}

/// The files of the configuration.
fn configuration_files(alloc: Global) -> Result<Vec<MemoryFile>, OutOfMemory>
    ensures { IfOk result (λ held. map file_of held.items ≡ shelf.groups_file ∷ shelf.programs_file ∷ []) }
{
    let mut files = Vec::new(alloc);
    files.push(file(alloc, GROUPS_PATH, GROUPS)?)?;
    files.push(file(alloc, PROGRAMS_PATH, PROGRAMS)?)?;
    Ok(files)
}

/// The files of the configuration and of the members.
fn all_files(alloc: Global) -> Result<Vec<MemoryFile>, OutOfMemory>
    ensures { IfOk result (λ held. map file_of held.items ≡ shelf.files) }
{
    let mut files = configuration_files(alloc)?;
    for number in 0..MEMBERS {
        files.push(member_file(alloc, number)?)?;
    }
    Ok(files)
}

/// The folder of the members.
fn member_folder(alloc: Global) -> Result<MemoryFolder, OutOfMemory>
    ensures { IfOk result (λ folder. folder_of folder ≡ record { path = shelf.folder_path; names = map texts.member_name (shelf.first_numbers 10) }) }
{
    Ok(MemoryFolder {
        path: String::from_str(alloc, FOLDER)?,
        names: member_names(alloc)?,
    })
}

impl BulkLibrary {
    /// The library, of which nothing was asked.
    pub(crate) fn new(alloc: Global) -> Result<BulkLibrary, OutOfMemory> {
        let folder = member_folder(alloc)?;
        let mut folders = Vec::new(alloc);
        folders.push(folder)?;
        let files = all_files(alloc)?;
        Ok(BulkLibrary {
            held: SureLibrary::new(alloc, folders, files),
        })
    }
}

impl Library for BulkLibrary {
    ghost use Rattle.std.specs.Prelude.{Some};

    ghost calls = { λ l. Some l.held.calls };

    ghost faults = { λ _. 0 };

    fn list(&mut self, alloc: Global, folder: &str) -> Result<Option<Vec<String>>, LibraryFault> {
        self.held.list(alloc, folder)
    }

    fn read(&mut self, alloc: Global, path: &str) -> Result<Option<Vec<u8>>, LibraryFault> {
        self.held.read(alloc, path)
    }
}
