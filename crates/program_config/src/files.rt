//! The two files.
ghost use Rattle.std.specs.Prelude.{◌≡◌, List, Some, IfOk, Result, chars, length, map};
ghost use Rattle.serde_json.specs.View.{view};
ghost use Rattle.json_view.specs.Answers.{Answers};
ghost use Rattle.program_config.specs.declared.members.Member.{Member as MemberName};
ghost use Rattle.program_config.specs.declared.groups.Group.{Group as GroupRow};
ghost use Rattle.program_config.specs.declared.programs.Entry.{Entry as EntryRow};
ghost use Rattle.program_config.specs.Members.{name_of, named_by, each};
ghost use Rattle.program_config.specs.Files.{described, library_in, fitting, sysparm_of, sysparm_in, libraries_in, group_in, groups_in, entry_in, programs_in, unless_bad, groups_of, programs_of, said_by};

use crate::groups::{Group, Groups, Libraries, Library};
use crate::members::{Member, MemberError, element, list, object_if, text, text_if, truth_if};
use crate::programs::{Entry, Programs};
use hl_base::{OutOfMemory, Text};
use json_view::{ParseFault, parse};
use serde_json::Value;
use std::alloc::Global;
use thiserror::Error;

/// Why a file says nothing.
#[derive(Debug, Drop, Error)]
pub enum ConfigFault {
    /// The bytes are no JSON text.
    #[error("no JSON text")]
    NotJson,

    /// The member of that name is missing or wrong.
    #[error("bad member")]
    BadMember(Text),

    /// There was no memory for what the file says.
    #[error("out of memory")]
    OutOfMemory,
}

impl From<OutOfMemory> for ConfigFault {
    ghost use Rattle.program_config.specs.declared.files.ConfigFault.TheVariants.{OutOfMemory as out_of_memory};

    ghost from_gives = { λ _ fault. fault ≡ out_of_memory };

    fn from(_refused: OutOfMemory) -> ConfigFault {
        ConfigFault::OutOfMemory
    }
}

/// The groups that the bytes of `proc_grps.json` say, or the first reason why they say none.
pub fn read_groups(alloc: Global, bytes: &[u8]) -> Result<Groups, ConfigFault>
    ensures { Answers said_by result (groups_of bytes.now) }
{
    match parse(alloc, bytes) {
        Ok(file) => groups_told(alloc, groups(alloc, &file)),
        Err(ParseFault::NotJson) => Err(ConfigFault::NotJson),
        Err(ParseFault::OutOfMemory) => Err(ConfigFault::OutOfMemory),
    }
}

/// The entries that the bytes of `pgm_conf.json` say, or the first reason why they say none.
pub fn read_programs(alloc: Global, bytes: &[u8]) -> Result<Programs, ConfigFault>
    ensures { Answers said_by result (programs_of bytes.now) }
{
    match parse(alloc, bytes) {
        Ok(file) => programs_told(alloc, programs(alloc, &file)),
        Err(ParseFault::NotJson) => Err(ConfigFault::NotJson),
        Err(ParseFault::OutOfMemory) => Err(ConfigFault::OutOfMemory),
    }
}

fn groups_told(alloc: Global, read: Result<Groups, MemberError>) -> Result<Groups, ConfigFault>
    ensures { (wanted : Result (List GroupRow) MemberName) → Answers named_by read wanted
        → Answers said_by result (unless_bad wanted) }
{
    match read {
        Ok(groups) => Ok(groups),
        Err(MemberError::Bad(member)) => Err(ConfigFault::BadMember(name(alloc, member)?)),
        Err(MemberError::OutOfMemory) => Err(ConfigFault::OutOfMemory),
    }
}

fn programs_told(
    alloc: Global,
    read: Result<Programs, MemberError>,
) -> Result<Programs, ConfigFault>
    ensures { (wanted : Result (List EntryRow) MemberName) → Answers named_by read wanted
        → Answers said_by result (unless_bad wanted) }
{
    match read {
        Ok(programs) => Ok(programs),
        Err(MemberError::Bad(member)) => Err(ConfigFault::BadMember(name(alloc, member)?)),
        Err(MemberError::OutOfMemory) => Err(ConfigFault::OutOfMemory),
    }
}

/// The name of a member, as a text.
fn name(alloc: Global, member: Member) -> Result<Text, OutOfMemory>
    ensures { IfOk result (λ text. text ≡ chars (name_of member)) }
{
    Text::of(alloc, member.name())
}

fn groups(alloc: Global, file: &Value) -> Result<Groups, MemberError>
    ensures { Answers named_by result (groups_in (view file.now)) }
{
    groups_among(alloc, list(file, Member::Groups)?)
}

fn groups_among(alloc: Global, elements: &[Value]) -> Result<Groups, MemberError>
    ensures { Answers named_by result (each group_in (map view elements.now)) }
{
    let mut groups = Groups::new(alloc);
    for element in elements {
        groups.push(group(alloc, element)?)?;
    }
    Ok(groups)
}

#[tactic(auto, unfolding(crate::specs::Files::group_in))]
fn group(alloc: Global, value: &Value) -> Result<Group, MemberError>
    ensures { Answers named_by result (group_in (view value.now)) }
{
    let group = element(value, Member::Groups)?;
    let name = text(group, Member::Name)?;
    let libraries = libraries(alloc, group)?;
    let sysparm = sysparm(alloc, group)?;
    Ok(Group {
        name: Text::of(alloc, name)?,
        libraries,
        sysparm,
    })
}

fn libraries(alloc: Global, group: &Value) -> Result<Libraries, MemberError>
    ensures { Answers named_by result (libraries_in (view group.now)) }
{
    libraries_among(alloc, list(group, Member::Libs)?)
}

fn libraries_among(alloc: Global, elements: &[Value]) -> Result<Libraries, MemberError>
    ensures { Answers named_by result (each library_in (map view elements.now)) }
{
    let mut libraries = Libraries::new(alloc);
    for element in elements {
        libraries.push(library(alloc, element)?)?;
    }
    Ok(libraries)
}

fn library(alloc: Global, value: &Value) -> Result<Library, MemberError>
    ensures { Answers named_by result (library_in (view value.now)) }
{
    match value.as_str() {
        Some(path) => Ok(Library {
            path: Text::of(alloc, path)?,
            optional: false,
        }),
        None => described(alloc, value),
    }
}

/// A library that is an object.
fn described(alloc: Global, value: &Value) -> Result<Library, MemberError>
    ensures { Answers named_by result (described (view value.now)) }
{
    let library = element(value, Member::Libs)?;
    let path = text(library, Member::Path)?;
    let optional = truth_if(library, Member::Optional)?;
    Ok(Library {
        path: Text::of(alloc, path)?,
        optional: optional.unwrap_or(false),
    })
}

/// The value of SYSPARM.
fn sysparm(alloc: Global, group: &Value) -> Result<Text, MemberError>
    ensures { Answers named_by result (sysparm_in (view group.now)) }
{
    match object_if(group, Member::AsmOptions)? {
        Some(options) => sysparm_among(alloc, options),
        None => Ok(Text::new(alloc)),
    }
}

fn sysparm_among(alloc: Global, options: &Value) -> Result<Text, MemberError>
    ensures { Answers named_by result (sysparm_of (Some (view options.now))) }
{
    match text_if(options, Member::Sysparm)? {
        Some(text) => fitting(alloc, text),
        None => Ok(Text::new(alloc)),
    }
}

/// A value of at most 255 characters.
fn fitting(alloc: Global, text: &str) -> Result<Text, MemberError>
    ensures { Answers named_by result (fitting text.now) }
{
    if character_count(text) <= 255 {
        Ok(Text::of(alloc, text)?)
    } else {
        Err(MemberError::Bad(Member::Sysparm))
    }
}

/// How many characters a text has.
fn character_count(text: &str) -> usize
    ensures { result ≡ length (chars text.now) }
{
    text.chars().count()
}

fn programs(alloc: Global, file: &Value) -> Result<Programs, MemberError>
    ensures { Answers named_by result (programs_in (view file.now)) }
{
    programs_among(alloc, list(file, Member::Programs)?)
}

fn programs_among(alloc: Global, elements: &[Value]) -> Result<Programs, MemberError>
    ensures { Answers named_by result (each entry_in (map view elements.now)) }
{
    let mut programs = Programs::new(alloc);
    for element in elements {
        programs.push(entry(alloc, element)?)?;
    }
    Ok(programs)
}

fn entry(alloc: Global, value: &Value) -> Result<Entry, MemberError>
    ensures { Answers named_by result (entry_in (view value.now)) }
{
    let entry = element(value, Member::Programs)?;
    let program = text(entry, Member::Program)?;
    let group = text(entry, Member::Group)?;
    Ok(Entry {
        program: Text::of(alloc, program)?,
        group: Text::of(alloc, group)?,
    })
}
