//! Definitions in short, and which members define operations.
use crate::bindings::{noted, push_parameters};
use crate::listings::{Placed, listing, members, read_placed};
use crate::words::{push_word, word};
use hl_base::{Frames, Name, OutOfMemory};
use macro_library::{
    Def, DefFault, SystemVariables, behind_definition, defining_at, read_definition,
};
use note_rows::{Row, note};
use statement_listing::Line;
use std::alloc::{AllocError, Global};

/// Each statement of a definition is told if there are no more than so many.
const MOST_TOLD: usize = 12;

/// Where a statement stands, its path and its line, and its operation; a comment has none.
fn statement(alloc: Global, line: &Line) -> Result<String, AllocError> {
    let at = line.origin();
    format!(in alloc;
        "{}:{} {}",
        at.path.0,
        at.line,
        line.statement().op.as_str()
    )
}

/// Adds how many statements there are, and each of them if they are few.
fn push_statements(alloc: Global, line: &mut String, list: &[Line]) -> Result<(), OutOfMemory> {
    let count = list.len();
    push_word(line, format!(in alloc; "{count} statements")?.as_str())?;
    if count <= MOST_TOLD {
        for one in list {
            push_word(line, statement(alloc, one)?.as_str().trim_end())?;
        }
    }
    Ok(())
}

/// Adds a name where it is named.
fn push_if(line: &mut String, named: bool, name: &str) -> Result<(), OutOfMemory> {
    if named {
        push_word(line, name)?;
    }
    Ok(())
}

/// Adds the system variables that are named.
fn push_variables(line: &mut String, variables: SystemVariables) -> Result<(), OutOfMemory> {
    push_if(line, variables.sysndx, "&SYSNDX")?;
    push_if(line, variables.sysect, "&SYSECT")?;
    push_if(line, variables.syslist, "&SYSLIST")?;
    push_if(line, variables.sysmac, "&SYSMAC")?;
    push_if(line, variables.sysnest, "&SYSNEST")?;
    push_if(line, variables.sysparm, "&SYSPARM")
}

/// Where its prototype stands, what that says, the statements, the system variables, and whether it copies later.
fn content(alloc: Global, definition: &Def) -> Result<String, OutOfMemory> {
    let at = definition.origin();
    let prototype = definition.prototype();
    let operation = prototype.operation().text();
    let mut line = format!(in alloc; "{}:{} {operation}", at.path.0, at.line)?;
    push_parameters(alloc, &mut line, prototype.parameters())?;
    push_statements(alloc, &mut line, definition.list().lines())?;
    push_variables(&mut line, definition.variables())?;
    push_if(&mut line, definition.copies_later(), "copies later")?;
    Ok(line)
}

/// The text of a row of notes, with its code.
fn row(alloc: Global, row: Row) -> Result<String, OutOfMemory> {
    noted(alloc, &note(alloc, &row, Frames::new(alloc))?)
}

/// The note of a fault, or the member that is asked for.
fn refusal(alloc: Global, fault: DefFault) -> Result<String, OutOfMemory> {
    match fault {
        DefFault::NoMend => row(alloc, Row::MissingMend),
        DefFault::BadPrototype => row(alloc, Row::BadPrototype),
        DefFault::CopyAbsent(name) => row(alloc, Row::AbsentMember(name)),
        DefFault::CopyUnreadable(name) => row(alloc, Row::UnreadableMember(name)),
        DefFault::CopyCycle(name) => row(alloc, Row::RecursiveMember(name)),
        DefFault::TooLong(name) => row(alloc, Row::DefinitionTooLong(name)),
        DefFault::Asks(name) => Ok(format!(in alloc; "asks {}", name.text())?),
        DefFault::OutOfMemory => Err(OutOfMemory),
    }
}

/// The definition that begins at the place that is meant, or its first fault.
fn told(alloc: Global, placed: &Placed, told: &[String]) -> Result<String, OutOfMemory> {
    let members = members(alloc, told)?;
    match read_definition(alloc, &placed.list, placed.start, &members) {
        Ok(definition) => content(alloc, &definition),
        Err(fault) => refusal(alloc, fault),
    }
}

/// The same, and where processing goes on behind it.
pub fn definitions(
    alloc: Global,
    written: &str,
    members: &[String],
) -> Result<String, OutOfMemory> {
    let placed = read_placed(alloc, written)?;
    let mut line = told(alloc, &placed, members)?;
    let behind = behind_definition(&placed.list, placed.start)?;
    push_word(&mut line, format!(in alloc; "behind {behind}")?.as_str())?;
    Ok(line)
}

/// The number of the MACRO by which a member defines an operation, or `none`.
pub fn defining(alloc: Global, written: &str, operation: &str) -> Result<String, OutOfMemory> {
    let list = listing(alloc, 0, written)?;
    let Some(operation) = Name::read(operation) else {
        return word(alloc, "no name");
    };
    match defining_at(&list, &operation) {
        Some(at) => Ok(format!(in alloc; "{at}")?),
        None => word(alloc, "none"),
    }
}
