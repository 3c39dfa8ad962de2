//! The notes of statements.
ghost use Rattle.std.specs.Prelude.{◌≡◌, IfOk};
ghost use Rattle.std.specs.Str.{chars};
ghost use Rattle.conditional_asm.specs.Troubles as troubles;

use cond_expr::note;
use hl_base::{Frames, Note, OutOfMemory, Severity, Text};
use std::alloc::Global;

/// A label alone, or an operation that is substituted by nothing.
pub fn no_operation(alloc: Global) -> Result<Note, OutOfMemory>
    ensures { IfOk result (λ n. n ≡ troubles.no_operation) }
{
    note(
        alloc,
        4,
        Severity::Error,
        "the statement has no operation",
        "",
        "",
    )
}

/// An operand field that ends within quotes.
pub fn open_apostrophe(alloc: Global) -> Result<Note, OutOfMemory>
    ensures { IfOk result (λ n. n ≡ troubles.open_apostrophe) }
{
    note(
        alloc,
        6,
        Severity::Error,
        "an apostrophe is not closed",
        "",
        "",
    )
}

/// An operand that reads no further than a place, in characters from 0.
pub fn unreadable(alloc: Global, at: u32) -> Result<Note, OutOfMemory>
    ensures { IfOk result (λ n. n ≡ troubles.unreadable at) }
{
    let place = format!(in alloc; "{at}")?;
    let before = "the operand cannot be read at character ";
    note(alloc, 10, Severity::Error, before, place.as_str(), "")
}

/// An operation that nothing defines, as it is written.
pub fn undefined(alloc: Global, op: &str) -> Result<Note, OutOfMemory>
    ensures { IfOk result (λ n. n ≡ troubles.undefined (chars op.now)) }
{
    note(
        alloc,
        40,
        Severity::Error,
        "operation ",
        op,
        " is not defined",
    )
}

/// An operation that is left out.
pub fn left_out(alloc: Global, op: &str) -> Result<Note, OutOfMemory>
    ensures { IfOk result (λ n. n ≡ troubles.left_out (chars op.now)) }
{
    note(
        alloc,
        41,
        Severity::Warning,
        "operation ",
        op,
        " is left out of this profile",
    )
}

/// What the author of a statement says, with an empty stack.
pub(crate) fn author(alloc: Global, severity: Severity, words: Text) -> Note
    ensures { result ≡ troubles.author severity words }
{
    Note {
        code: 0,
        severity,
        text: words,
        stack: Frames::new(alloc),
    }
}
