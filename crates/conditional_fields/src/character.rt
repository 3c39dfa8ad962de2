//! Texts, character by character: those of `hlasm_statements`, and what else is asked of the front of a text.
ghost use Rattle.std.specs.Prelude.{◌≡◌, ◌==◌, false, length, slice_index, IfOk, encode_utf8_all};
ghost use Rattle.std.specs.Str.{chars};
ghost use Rattle.hl_base.specs.Symbols as symbols;
ghost use Rattle.conditional_fields.specs.Declarations as declarations;
ghost use Rattle.conditional_fields.specs.Sequences as sequences;

use hl_base::{Name, OutOfMemory, is_letter, is_symbol_character};
pub use operand_grammar::hlasm_statements::text::{
    before, behind, character_count, head, is_nothing,
};

/// How many characters a text has, as a `u32`. `OutOfMemory` where a text has more than it counts.
pub(crate) fn short_count(text: &str) -> Result<u32, OutOfMemory>
    ensures { IfOk result (λ n. n ≡ length (chars text.now)) }
{
    let count = u32::try_from(character_count(text)).map_err(|_| OutOfMemory)?;
    Ok(count)
}

/// Whether a text begins with a letter.
pub(crate) fn begins_with_letter(text: &str) -> bool
    ensures { result ≡ symbols.is_letter (slice_index (chars text.now) 0) }
{
    match head(text) {
        Some((c, _)) => is_letter(c),
        None => false,
    }
}

/// Whether a text begins with this character, which is not the one of code 0.
pub fn begins_with(text: &str, wanted: char) -> bool
    requires { (wanted == 0) ≡ false }
    ensures { result ≡ (slice_index (chars text.now) 0 == wanted) }
{
    match head(text) {
        Some((c, _)) => c == wanted,
        None => false,
    }
}

/// How many letters and digits a text begins with.
pub(crate) fn letter_count(text: &str) -> usize
    ensures { result ≡ sequences.letter_count (chars text.now) }
{
    text.chars().take_while(|c| is_symbol_character(*c)).count()
}

/// How many digits a text begins with.
pub(crate) fn digit_count(text: &str) -> usize
    ensures { result ≡ declarations.digit_count (chars text.now) }
{
    text.chars().take_while(|c| c.is_ascii_digit()).count()
}

/// The name that a text spells.
pub fn name_of(text: &str) -> Option<Name>
    ensures { result ≡ symbols.symbol_of (encode_utf8_all (chars text.now)) }
{
    Name::read(text)
}
