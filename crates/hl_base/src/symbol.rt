//! The characters of symbols (HLASM Language Reference SC26-4940, "Symbols").
ghost use Rattle.std.specs.Prelude.{◌≡◌};
ghost use Rattle.hl_base.specs.Symbols as symbols;

/// Whether a character is a letter: `A` to `Z` in either case, `$`, `_`, `#` and `@`.
pub fn is_letter(c: char) -> bool
    ensures { result ≡ symbols.is_letter c }
{
    c.is_ascii_alphabetic() || matches!(c, '$' | '_' | '#' | '@')
}

/// Whether a character may stand in a symbol behind its first letter: a letter or a digit.
pub fn is_symbol_character(c: char) -> bool
    ensures { result ≡ symbols.is_symbol_character c }
{
    is_letter(c) || c.is_ascii_digit()
}
