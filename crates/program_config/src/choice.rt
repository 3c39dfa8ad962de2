//! The group of a program.
ghost use Rattle.std.specs.Prelude.{◌≡◌, option_map};
ghost use Rattle.std.specs.Option.{option_copied};
ghost use Rattle.program_config.specs.Choice.{entry_for, place_of, group_of};

use crate::groups::{Group, Groups};
use crate::pattern::matches;
use crate::programs::{Entry, Programs};

/// A group, by its place among the groups, from 0.
#[derive(Clone, Copy, Debug, PartialEq, Eq)]
pub struct GroupId(pub usize);

/// The group of the program of a path, if there is one. The path is that from the root, without a slash before it.
pub fn group_of(programs: &Programs, groups: &Groups, path: &str) -> Option<GroupId>
    ensures { option_map (λ id. id.0) result ≡ group_of programs.now groups.now path.now }
{
    let entry = entry_for(programs.as_slice(), path)?;
    let place = place_of(groups.as_slice(), entry.group.as_str())?;
    Some(GroupId(place))
}

/// The first entry that matches a path.
fn entry_for<'a>(entries: &'a [Entry], path: &str) -> Option<&'a Entry>
    ensures { option_copied result ≡ entry_for entries.now path.now }
{
    entries.iter().find(|entry| matches(entry.program.as_str().as_bytes(), path.as_bytes()))
}

/// The place of the first group of a name.
fn place_of(groups: &[Group], name: &str) -> Option<usize>
    ensures { result ≡ place_of groups.now name.now }
{
    groups.iter().position(|group| group.name.as_str() == name)
}
