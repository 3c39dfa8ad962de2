//! The two files of the configuration.
ghost use Rattle.std.specs.Prelude.{◌≡◌, ◌≢◌, ◌++◌, codes, IfOk, OnOk};
ghost use Rattle.std.specs.Str.{chars};
ghost use Rattle.program_config.specs.Files.{groups_of, programs_of};
ghost use Rattle.library_reading.specs.Asked.{AsksOver};
ghost use Rattle.library_reading.specs.Log.{said};
ghost use Rattle.library_reading.specs.Rows.{rows_read, rows_told, words_of};

use crate::answers::FileAnswer;
use crate::asking::ask_file;
use crate::logs::Logs;
use hl_base::{OutOfMemory, Text};
use io_edge::Library;
use program_config::{ConfigFault, Groups, Programs, read_groups, read_programs};
use std::alloc::Global;

/// The member of this name is missing or wrong, in words.
fn bad_member(alloc: Global, name: &Text) -> Result<Text, OutOfMemory>
    ensures { IfOk result (λ why. why ≡ codes "BadConfig(" ++ (name.now ++ codes ")")) }
{
    let mut why = Text::of(alloc, "BadConfig(")?;
    why.push_str(name.as_str())?;
    why.push_str(")")?;
    Ok(why)
}

/// Says why a file of the configuration is none of its form.
fn say_fault(
    alloc: Global,
    path: &str,
    fault: ConfigFault,
    logs: &mut Logs,
) -> Result<(), OutOfMemory>
    ensures said { OnOk result (logs.new ≡ said logs.old (chars path.now) (words_of fault)) }
    ensures memory { OnOk result (fault ≢ ConfigFault.OutOfMemory) }
{
    match fault {
        ConfigFault::NotJson => logs.say(alloc, path, "BadConfig(json)"),
        ConfigFault::BadMember(name) => {
            let why = bad_member(alloc, &name)?;
            logs.say(alloc, path, why.as_str())
        }
        ConfigFault::OutOfMemory => Err(OutOfMemory),
    }
}

/// The groups that bytes say; none where they are of another form.
fn groups_told(
    alloc: Global,
    path: &str,
    bytes: &[u8],
    logs: &mut Logs,
) -> Result<Groups, OutOfMemory>
    ensures { IfOk result (λ rows. rows_told logs.old (chars path.now) (groups_of bytes.now) ≡ record { rows = rows; log = logs.new }) }
{
    match read_groups(alloc, bytes) {
        Ok(groups) => Ok(groups),
        Err(fault) => {
            say_fault(alloc, path, fault, logs)?;
            Ok(Groups::new(alloc))
        }
    }
}

/// The entries that bytes say; none where they are of another form.
fn programs_told(
    alloc: Global,
    path: &str,
    bytes: &[u8],
    logs: &mut Logs,
) -> Result<Programs, OutOfMemory>
    ensures { IfOk result (λ rows. rows_told logs.old (chars path.now) (programs_of bytes.now) ≡ record { rows = rows; log = logs.new }) }
{
    match read_programs(alloc, bytes) {
        Ok(programs) => Ok(programs),
        Err(fault) => {
            say_fault(alloc, path, fault, logs)?;
            Ok(Programs::new(alloc))
        }
    }
}

/// Reads the groups of a root.
pub(crate) fn read_group_file<B: Library>(
    alloc: Global,
    path: &str,
    library: &mut B,
    logs: &mut Logs,
) -> Result<Groups, OutOfMemory>
    ensures { AsksOver (rows_read groups_of (chars path.now) logs.old) (λ rows. record { rows = rows; log = logs.new }) result
        (B.calls library.old) (B.calls library.new) (B.faults library.old) (B.faults library.new) }
{
    match ask_file(alloc, path, library)? {
        FileAnswer::Absent => Ok(Groups::new(alloc)),
        FileAnswer::Found(bytes) => groups_told(alloc, path, &bytes, logs),
        FileAnswer::Refused => {
            logs.say(alloc, path, "BadConfig")?;
            Ok(Groups::new(alloc))
        }
    }
}

/// Reads the entries of a root.
pub(crate) fn read_program_file<B: Library>(
    alloc: Global,
    path: &str,
    library: &mut B,
    logs: &mut Logs,
) -> Result<Programs, OutOfMemory>
    ensures { AsksOver (rows_read programs_of (chars path.now) logs.old) (λ rows. record { rows = rows; log = logs.new }) result
        (B.calls library.old) (B.calls library.new) (B.faults library.old) (B.faults library.new) }
{
    match ask_file(alloc, path, library)? {
        FileAnswer::Absent => Ok(Programs::new(alloc)),
        FileAnswer::Found(bytes) => programs_told(alloc, path, &bytes, logs),
        FileAnswer::Refused => {
            logs.say(alloc, path, "BadConfig")?;
            Ok(Programs::new(alloc))
        }
    }
}
