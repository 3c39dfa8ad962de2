//! Whether a field is closed.
ghost use Rattle.std.specs.Prelude.{◌≡◌, IfOk};
ghost use Rattle.std.specs.Str.{chars};
ghost use Rattle.hlasm_statements.specs.Fields.{ends_quoted};

use hl_base::{Nesting, OutOfMemory};

/// Whether a text ends within quotes: an apostrophe of it is not closed. It serves the operand field as it was read, and
/// as substitution leaves it. `OutOfMemory` only where more parentheses are open than a `u32` counts.
pub fn ends_quoted(text: &str) -> Result<bool, OutOfMemory>
    ensures { IfOk result (λ open_text. open_text ≡ ends_quoted (chars text.now)) }
{
    let mut nesting = Nesting::new();
    for c in text.chars() {
        nesting.read(c)?;
    }
    Ok(nesting.is_quoted(' '))
}
