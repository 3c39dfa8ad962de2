//! What a program has of its group.
ghost use Rattle.std.specs.Prelude.{◌≡◌, ◌∷◌, [], Some, map, option_map, IfOk};
ghost use Rattle.std.specs.Option.{option_copied};
ghost use Rattle.std.specs.Str.{chars};
ghost use Rattle.member_paths.specs.Paths as paths;
ghost use Rattle.library_folders.specs.Folders as rules;

use crate::Configuration;
use hl_base::{OutOfMemory, Text};
use member_paths::folder_path;
use program_config::{Group, Library};
use std::alloc::Global;

/// The path of a file from the root, where it lies below the root.
fn path_below<'a>(root: &str, path: &'a str) -> Option<&'a str>
    ensures { option_map (λ below. chars below.now) result ≡ rules.path_below (chars root.now) (chars path.now) }
{
    match path.strip_prefix(root) {
        Some(rest) => rest.strip_prefix('/'),
        None => None,
    }
}

/// The group of the program of a path that lies below the root.
fn group_below<'a>(configuration: &'a Configuration, below: &str) -> Option<&'a Group>
    ensures { option_copied result ≡ rules.group_below configuration.now (chars below.now) }
{
    let place = program_config::group_of(&configuration.programs, &configuration.groups, below)?;
    configuration.groups.as_slice().get(place.0)
}

/// The group of a program: none without a root, for a path that does not lie below it, and where no entry matches the path
/// or the one that does names no group.
pub fn group_of<'a>(
    root: Option<&str>,
    configuration: &'a Configuration,
    path: &str,
) -> Option<&'a Group>
    ensures { option_copied result ≡ rules.group_of (option_map (λ r. chars r.now) root.entry) configuration.now (chars path.now) }
{
    let below = path_below(root?, path)?;
    group_below(configuration, below)
}

/// The value of `&SYSPARM` of a program: that of its group, empty without one.
pub fn parm_for<'a>(root: Option<&str>, configuration: &'a Configuration, path: &str) -> &'a str
    ensures { chars result.now ≡ rules.parm_for (option_map (λ r. chars r.now) root.entry) configuration.now (chars path.now) }
{
    match group_of(root, configuration, path) {
        Some(group) => group.sysparm.as_str(),
        None => "",
    }
}

/// The paths of these folders, in order.
fn paths_of(alloc: Global, root: &str, libraries: &[Library]) -> Result<Vec<Text>, OutOfMemory>
    ensures { IfOk result (λ list. list.items ≡ map (λ library. paths.folder_path (chars root.now) library.path) libraries.now) }
{
    let mut list = Vec::new(alloc);
    for library in libraries {
        list.push(folder_path(alloc, root, library.path.as_str())?)?;
    }
    Ok(list)
}

/// The folders in which the members of a program are searched, in that order: those of its group, none without one.
pub fn folders_for(
    alloc: Global,
    root: Option<&str>,
    configuration: &Configuration,
    path: &str,
) -> Result<Vec<Text>, OutOfMemory>
    ensures { IfOk result (λ list. list.items ≡ rules.folders_for (option_map (λ r. chars r.now) root.entry) configuration.now (chars path.now)) }
{
    let Some(root) = root else {
        return Ok(Vec::new(alloc));
    };
    match group_of(Some(root), configuration, path) {
        Some(group) => paths_of(alloc, root, group.libraries.as_slice()),
        None => Ok(Vec::new(alloc)),
    }
}
