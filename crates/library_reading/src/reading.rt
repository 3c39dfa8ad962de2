//! The configuration, read whole.
ghost use Rattle.std.specs.Prelude.{◌≡◌, IfOk};
ghost use Rattle.std.specs.Str.{chars};
ghost use Rattle.library_reading.specs.Asked.{AsksOver};
ghost use Rattle.library_reading.specs.Reading.{files_read, configuration_read};
ghost use Rattle.library_reading.specs.Rows.{groups_path, programs_path};

use crate::folders::read_folders;
use crate::logs::Logs;
use crate::rows::{read_group_file, read_program_file};
use document_store::DocumentStore;
use hl_base::{OutOfMemory, Text};
use io_edge::Library;
use library_folders::{Configuration, folders_of};
use std::alloc::Global;

/// Where the groups of a root stand.
pub fn groups_path(alloc: Global, root: &str) -> Result<Text, OutOfMemory>
    ensures { IfOk result (λ path. path ≡ groups_path (chars root.now)) }
{
    let mut path = Text::of(alloc, root)?;
    path.push_str("/.hlasmplugin/proc_grps.json")?;
    Ok(path)
}

/// Where the programs of a root stand.
pub fn programs_path(alloc: Global, root: &str) -> Result<Text, OutOfMemory>
    ensures { IfOk result (λ path. path ≡ programs_path (chars root.now)) }
{
    let mut path = Text::of(alloc, root)?;
    path.push_str("/.hlasmplugin/pgm_conf.json")?;
    Ok(path)
}

/// Reads the two files of a root.
fn read_files<B: Library>(
    alloc: Global,
    root: &str,
    library: &mut B,
    logs: &mut Logs,
) -> Result<Configuration, OutOfMemory>
    ensures { AsksOver (files_read (chars root.now) logs.old)
        (λ configuration. record { configuration = configuration; log = logs.new }) result
        (B.calls library.old) (B.calls library.new) (B.faults library.old) (B.faults library.new) }
{
    let path = groups_path(alloc, root)?;
    let groups = read_group_file(alloc, path.as_str(), library, logs)?;
    let path = programs_path(alloc, root)?;
    let programs = read_program_file(alloc, path.as_str(), library, logs)?;
    Ok(Configuration { groups, programs })
}

/// Reads the configuration of a root, which is a path without `/` at its end, and all members of its library folders in place
/// of those that were read before. After an `Err` nothing is known of the store and the log.
pub fn read_configuration<B: Library>(
    alloc: Global,
    root: &str,
    library: &mut B,
    store: &mut DocumentStore,
    logs: &mut Logs,
) -> Result<Configuration, OutOfMemory>
    ensures { AsksOver (configuration_read (chars root.now) (record { store = store.old.store; log = logs.old }))
        (λ configuration. record { configuration = configuration; taking = record { store = store.new.store; log = logs.new } }) result
        (B.calls library.old) (B.calls library.new) (B.faults library.old) (B.faults library.new) }
{
    store.drop_members();
    let configuration = read_files(alloc, root, library, logs)?;
    let folders = folders_of(alloc, root, configuration.groups.as_slice())?;
    read_folders(alloc, folders.as_slice(), library, store, logs)?;
    Ok(configuration)
}
