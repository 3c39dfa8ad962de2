//! Texts, character by character.
ghost use Rattle.std.specs.Prelude.{◌≡◌, ◌==◌, ◌+◌, false, slice_index, IfOk};
ghost use Rattle.std.specs.List.{list_any, prefix_len};
ghost use Rattle.std.specs.Char.{is_ascii_digit};
ghost use Rattle.std.specs.Str.{chars};
ghost use Rattle.statement_names.specs.Names as names;

use hl_base::{Name, OutOfMemory, is_symbol_character};
use hlasm_statements::text::head;

/// The name that a text spells.
pub(crate) fn name_of(text: &str) -> Option<Name>
    ensures { result ≡ names.name_of (chars text.now) }
{
    Name::read(text)
}

/// Whether a text has an ampersand.
pub(crate) fn has_ampersand(text: &str) -> bool
    ensures { result ≡ list_any (λ c. c == 38) (chars text.now) }
{
    text.chars().any(|c| c == '&')
}

/// How many letters and digits a text begins with.
pub(crate) fn word_length(text: &str) -> usize
    ensures { result ≡ names.word_length (chars text.now) }
{
    text.chars().take_while(|c| is_symbol_character(*c)).count()
}

/// How many digits a text begins with.
pub(crate) fn digit_count(text: &str) -> usize
    ensures { result ≡ prefix_len is_ascii_digit (chars text.now) }
{
    text.chars().take_while(|c| c.is_ascii_digit()).count()
}

/// Whether a text begins with this character, which is not the one of code 0.
pub(crate) fn is_front(text: &str, wanted: char) -> bool
    requires { (wanted == 0) ≡ false }
    ensures { result ≡ (slice_index (chars text.now) 0 == wanted) }
{
    match head(text) {
        Some((c, _)) => c == wanted,
        None => false,
    }
}

/// A number of characters. `OutOfMemory` where it is more than a `u32` counts.
pub(crate) fn counted(count: usize) -> Result<u32, OutOfMemory>
    ensures { IfOk result (λ n. n ≡ count) }
{
    let counted = u32::try_from(count).map_err(|_| OutOfMemory)?;
    Ok(counted)
}

/// A place so many characters behind another. `OutOfMemory` where it is more than a `u32` counts.
pub(crate) fn advance(at: u32, count: usize) -> Result<u32, OutOfMemory>
    ensures { IfOk result (λ n. n ≡ at + count) }
{
    at.checked_add(counted(count)?).ok_or(OutOfMemory)
}
