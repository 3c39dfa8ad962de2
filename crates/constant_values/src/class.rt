//! Characters of values, by what they are.
ghost use Rattle.std.specs.Prelude.{◌≡◌};
ghost use Rattle.std.specs.Str.{chars};
ghost use Rattle.constant_values.specs.Classes as classes;

use hlasm_statements::text::head;

/// What a character of a value is.
#[derive(Clone, Copy, Debug, PartialEq, Eq)]
pub(crate) enum Class {
    HexadecimalDigit,
    Bit,
    DecimalDigit,
    Period,
}

/// Whether a character is of this class.
fn is_of(class: Class, c: char) -> bool
    ensures { result ≡ classes.is_of class c }
{
    match class {
        Class::HexadecimalDigit => c.is_ascii_hexdigit(),
        Class::Bit => c == '0' || c == '1',
        Class::DecimalDigit => c.is_ascii_digit(),
        Class::Period => c == '.',
    }
}

/// How many characters of a text are of this class.
pub(crate) fn count_of(class: Class, text: &str) -> usize
    ensures { result ≡ classes.count_of class (chars text.now) }
{
    let mut count = 0;
    let mut left = text;
    while let Some((c, rest)) = head(left) {
        left = rest;
        if is_of(class, c) {
            count += 1;
        }
    }
    count
}
