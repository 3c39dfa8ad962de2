//! Lists of statements as they are written in cases, and what cases tell of members.
use hl_base::{Name, OutOfMemory, PathId};
use hlasm_statements::read_statements;
use macro_library::{Member, MemberFile, Members};
use statement_listing::Listing;
use std::alloc::{AllocError, Global};
use std::rc::RcStr;

/// A list, and the number of the statement in it that is meant.
#[derive(Drop)]
pub struct Placed {
    pub list: Listing,
    pub start: u32,
}

/// Adds a line as it is written: it begins in column 2, or in column 1 where a colon stands before it.
fn push_line(text: &mut String, line: &str) -> Result<(), AllocError> {
    match line.strip_prefix(':') {
        Some(line) => text.push_str(line),
        None => {
            text.push(' ')?;
            text.push_str(line)
        }
    }
}

/// The text whose lines are written so, with ` / ` between them.
fn text_of(alloc: Global, written: &str) -> Result<String, AllocError> {
    let mut text = String::new(alloc);
    let mut is_first = true;
    for line in written.split(" / ") {
        if !is_first {
            text.push('\n')?;
        }
        push_line(&mut text, line)?;
        is_first = false;
    }
    Ok(text)
}

/// The statements of the text that is written so, at the path of a number.
pub fn listing(alloc: Global, path: u32, written: &str) -> Result<Listing, OutOfMemory> {
    let text = text_of(alloc, written)?;
    let statements = read_statements(alloc, text.as_str())?;
    Listing::of(alloc, PathId(path), statements)
}

/// The number that digits are.
fn number(digits: &str) -> u32 {
    digits.parse::<u32>().unwrap_or(0)
}

/// The list that is written `PATH:START TEXT`.
pub fn read_placed(alloc: Global, written: &str) -> Result<Placed, OutOfMemory> {
    let (numbers, text) = written.split_once(' ').unwrap_or(("", written));
    let (path, start) = numbers.split_once(':').unwrap_or(("", numbers));
    let list = listing(alloc, number(path), text)?;
    Ok(Placed {
        list,
        start: number(start),
    })
}

/// A member of which this is said: `absent`, `unreadable`, or its text behind an equals sign, at the path of a number.
fn member(alloc: Global, path: u32, said: &str) -> Result<Member, OutOfMemory> {
    match said {
        "absent" => Ok(Member::Absent),
        "unreadable" => Ok(Member::Unreadable),
        said => {
            let text = text_of(alloc, said.strip_prefix("= ").unwrap_or(said))?;
            let text = RcStr::from_str(alloc, text.as_str())?;
            Ok(Member::File(MemberFile::of(alloc, PathId(path), text)?))
        }
    }
}

/// The members of which something is said, each behind its name. Their paths are numbered from 1.
pub fn members(alloc: Global, told: &[String]) -> Result<Members, OutOfMemory> {
    let mut members = Members::new(alloc);
    let mut path = 0u32;
    for one in told {
        path = path.saturating_add(1);
        let (name, said) = one.split_once(' ').unwrap_or((one.as_str(), ""));
        if let Some(name) = Name::read(name) {
            members.add(alloc, &name, member(alloc, path, said)?)?;
        }
    }
    Ok(members)
}
