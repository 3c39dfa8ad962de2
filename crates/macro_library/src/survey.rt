//! What is known of the statements of a definition, found in one pass.
ghost use Rattle.std.specs.Prelude.{◌≡◌, IfOk, fold, map};
ghost use Rattle.macro_library.specs.Contents as contents;
ghost use Rattle.macro_library.specs.Later as later;
ghost use Rattle.macro_library.specs.Variables as variables;

use crate::SystemVariables;
use crate::content::line_number;
use crate::later::may_copy_by;
use crate::line::behind;
use crate::variables::{NONE_NAMED, joined, named_within};
use hl_base::OutOfMemory;
use statement_listing::Line;

/// What is known of some lines.
#[derive(Clone, Copy)]
pub(crate) struct Survey {
    /// The system variables that those name which stand in no inner definition.
    pub(crate) variables: SystemVariables,
    /// Whether one of them may copy a member when the macro is called.
    pub(crate) copies_later: bool,
    /// The number of their content behind what stood before.
    pub(crate) number: u64,
}

/// What is known of lines, behind what has this number.
pub(crate) fn survey_of(start: u64, lines: &[Line]) -> Result<Survey, OutOfMemory>
    ensures variables { IfOk result (λ known. known.variables ≡ variables.variables_of lines.now) }
    ensures copies { IfOk result (λ known. known.copies_later ≡ later.copies_later lines.now) }
    ensures number { IfOk result (λ known. known.number ≡ fold contents.written_number start (map contents.written lines.now)) }
{
    let mut variables = NONE_NAMED;
    let mut copies_later = false;
    let mut number = start;
    let mut begun = 0;
    let mut left = lines;
    while let [line, rest @ ..] = left {
        variables = joined(variables, named_within(begun, line));
        copies_later = may_copy_by(copies_later, begun, line);
        number = line_number(number, line);
        begun = behind(begun, line)?;
        left = rest;
    }
    Ok(Survey {
        variables,
        copies_later,
        number,
    })
}
