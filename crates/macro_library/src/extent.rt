//! Where a definition ends as it is written, and which statement is its prototype.
ghost use Rattle.std.specs.Prelude.{◌≡◌, ◌+◌, ◌≤◌, IfOk, IfSome, drop, length, option_map};
ghost use Rattle.macro_library.specs.Extents as extents;
ghost use Rattle.macro_library.specs.Inside.{headed_of};

use crate::line::{begins, behind, closes, name_of};
use hl_base::{Name, OutOfMemory};
use statement_listing::{Line, Listing};

/// How many lines there are up to the MEND that ends the definition in which they stand, and the MEND.
pub(crate) fn line_count(lines: &[Line]) -> Result<Option<usize>, OutOfMemory>
    ensures value { IfOk result (λ count. count ≡ extents.line_count 0 lines.now) }
    ensures within { IfOk result (λ count. IfSome count (λ n. n ≤ length lines.now)) }
{
    let mut begun = 0;
    let mut count: usize = 0;
    let mut left = lines;
    while let [line, rest @ ..] = left {
        if closes(begun, line) {
            return Ok(Some(count + 1));
        }
        begun = behind(begun, line)?;
        count += 1;
        left = rest;
    }
    Ok(None)
}

/// The lines behind the MACRO of this number.
pub(crate) fn behind_macro(lines: &[Line], start: u32) -> &[Line]
    ensures { result.now ≡ drop (start + 1) lines.now }
{
    let from = start as usize + 1;
    if from <= lines.len() {
        return lines.split_at(from).1;
    }
    &[]
}

/// The lines of a definition, of which so many are behind its MACRO.
pub(crate) fn counted(lines: &[Line], count: Option<usize>) -> &[Line]
    requires { IfSome count (λ n. n ≤ length lines.now) }
    ensures { result.now ≡ extents.counted lines.now count }
{
    match count {
        Some(count) => lines.split_at(count).0,
        None => lines,
    }
}

/// Where processing goes on behind the definition whose MACRO has this number in a list.
pub fn behind_definition(list: &Listing, start: u32) -> Result<usize, OutOfMemory>
    ensures { IfOk result (λ n. n ≡ extents.behind_definition list.now start) }
{
    let lines = behind_macro(list.lines(), start);
    let count = line_count(lines)?;
    let own = counted(lines, count);
    Ok(
        (start as usize + 1)
            .checked_add(own.len())
            .ok_or(OutOfMemory)?,
    )
}

/// The first line that is neither a comment nor blank, how many are before it, and those behind it.
#[derive(Clone, Copy)]
pub(crate) struct Headed<'a> {
    pub at: usize,
    pub line: &'a Line,
    pub rest: &'a [Line],
}

/// The first line that is neither a comment nor blank, if there is one.
pub(crate) fn first_plain(lines: &[Line]) -> Option<Headed<'_>>
    ensures { option_map headed_of result ≡ extents.headed lines.now }
{
    let mut at = 0;
    let mut left = lines;
    while let [line, rest @ ..] = left {
        if line.reading().is_some() {
            return Some(Headed { at, line, rest });
        }
        at += 1;
        left = rest;
    }
    None
}

/// Whether a prototype has this operation.
fn is_prototype_of(operation: &Name, prototype: Option<Headed<'_>>) -> bool
    ensures { result ≡ extents.is_prototype_of operation.now (option_map headed_of prototype.entry) }
{
    match prototype {
        Some(prototype) => match name_of(prototype.line.statement().op.as_str()) {
            Some(name) => name.text() == operation.text(),
            None => false,
        },
        None => false,
    }
}

/// The number of the MACRO that begins the list of a member: it is the first statement that is neither a comment nor blank.
pub fn macro_at(list: &Listing) -> Option<usize>
    ensures { result ≡ extents.macro_at list.now }
{
    match first_plain(list.lines()) {
        Some(first) => {
            if begins(first.line) {
                return Some(first.at);
            }
            None
        }
        None => None,
    }
}

/// The number of the MACRO in the list of a member that defines an operation: it is the first statement that is neither a
/// comment nor blank, and the prototype behind it has the operation, whatever else is wrong with it.
pub fn defining_at(list: &Listing, operation: &Name) -> Option<usize>
    ensures { result ≡ extents.defining_at operation.now list.now }
{
    match first_plain(list.lines()) {
        Some(first) => {
            if begins(first.line) && is_prototype_of(operation, first_plain(first.rest)) {
                return Some(first.at);
            }
            None
        }
        None => None,
    }
}
