//! The notes of an evaluation.
ghost use Rattle.std.specs.Prelude.{◌≡◌, ◌++◌, IfOk};
ghost use Rattle.std.specs.Str.{chars};
ghost use Rattle.cond_expr.specs.Troubles as troubles;

use hl_base::{Frames, Name, Note, OutOfMemory, Severity, Text};
use std::alloc::Global;

/// A note whose text is these three parts, with an empty stack.
pub fn note(
    alloc: Global,
    code: u16,
    severity: Severity,
    before: &str,
    name: &str,
    behind: &str,
) -> Result<Note, OutOfMemory>
    ensures { IfOk result (λ n. n ≡ troubles.note code severity ((chars before.now ++ chars name.now) ++ chars behind.now)) }
{
    let mut text = Text::of(alloc, before)?;
    text.push_str(name)?;
    text.push_str(behind)?;
    Ok(Note {
        code,
        severity,
        text,
        stack: Frames::new(alloc),
    })
}

/// A number outside 32 bits with sign.
pub(crate) fn overflow(alloc: Global) -> Result<Note, OutOfMemory>
    ensures { IfOk result (λ n. n ≡ troubles.overflow) }
{
    note(
        alloc,
        23,
        Severity::Error,
        "arithmetic result does not fit 32 bits",
        "",
        "",
    )
}

/// Why a variable symbol stands for nothing, by its code.
pub(crate) fn fault(alloc: Global, code: u16, name: &Name) -> Result<Note, OutOfMemory>
    ensures { IfOk result (λ n. n ≡ troubles.fault code name.now) }
{
    if code == 22 {
        return bad_subscript(alloc, name);
    }
    no_value(alloc, name)
}

/// A subscript out of range, or one where none may stand, or none where one must.
fn bad_subscript(alloc: Global, name: &Name) -> Result<Note, OutOfMemory>
    ensures { IfOk result (λ n. n ≡ troubles.bad_subscript name.now) }
{
    note(
        alloc,
        22,
        Severity::Error,
        "subscript of &",
        name.text(),
        " is out of range",
    )
}

/// A variable symbol that stands for nothing here.
fn no_value(alloc: Global, name: &Name) -> Result<Note, OutOfMemory>
    ensures { IfOk result (λ n. n ≡ troubles.no_value name.now) }
{
    note(
        alloc,
        20,
        Severity::Error,
        "&",
        name.text(),
        " has no value here",
    )
}

/// A symbol that is neither defined nor found ahead.
pub(crate) fn no_length(alloc: Global, symbol: &str) -> Result<Note, OutOfMemory>
    ensures { IfOk result (λ n. n ≡ troubles.no_length (chars symbol.now)) }
{
    note(
        alloc,
        24,
        Severity::Warning,
        "symbol ",
        symbol,
        " has no length attribute",
    )
}

/// A variable symbol whose text is no self-defining term, where a number is wanted.
pub(crate) fn no_number(alloc: Global, name: &Name) -> Result<Note, OutOfMemory>
    ensures { IfOk result (λ n. n ≡ troubles.no_number name.now) }
{
    note(
        alloc,
        26,
        Severity::Error,
        "value of &",
        name.text(),
        " is not a number",
    )
}

/// A substring that begins outside its text.
pub(crate) fn outside(alloc: Global) -> Result<Note, OutOfMemory>
    ensures { IfOk result (λ n. n ≡ troubles.outside) }
{
    note(
        alloc,
        27,
        Severity::Error,
        "substring begins outside the text",
        "",
        "",
    )
}

/// A text of more than 1,024 characters.
pub(crate) fn too_long(alloc: Global) -> Result<Note, OutOfMemory>
    ensures { IfOk result (λ n. n ≡ troubles.too_long) }
{
    note(
        alloc,
        28,
        Severity::Error,
        "text is longer than 1024 characters",
        "",
        "",
    )
}
