//! Where the operand field of a generated statement ends.
ghost use Rattle.std.specs.Prelude.{◌≡◌, [], length, IfOk};
ghost use Rattle.std.specs.Str.{chars};
ghost use Rattle.conditional_fields.specs.Endings as endings;

use crate::character::{before, head};
use hl_base::{Nesting, OutOfMemory, Text};
use std::alloc::Global;

/// How many characters of a text belong to the operand field.
fn field_length(text: &str) -> Result<usize, OutOfMemory>
    ensures { IfOk result (λ n. n ≡ length (endings.field_of (chars text.now))) }
{
    let mut nesting = Nesting::new();
    let mut count: usize = 0;
    let mut rest = text;
    while let Some((c, behind)) = head(rest) {
        if (c == ' ' || c == '\t') && !nesting.is_quoted(c) {
            return Ok(count);
        }
        nesting.read(c)?;
        count = count.checked_add(1).ok_or(OutOfMemory)?;
        rest = behind;
    }
    Ok(count)
}

/// What of a text belongs to the operand field: all before a blank outside quotes.
pub fn ended(alloc: Global, text: &str) -> Result<Text, OutOfMemory>
    ensures { IfOk result (λ field. field ≡ endings.field_of (chars text.now)) }
{
    let length = field_length(text)?;
    Text::of(alloc, before(text, length))
}
