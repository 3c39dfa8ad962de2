//! Decimal numbers as values of constants (SC26-4940, "Fixed-point constants—F and H", "Decimal constants—P and Z").
ghost use Rattle.std.specs.Prelude.{◌≡◌};
ghost use Rattle.std.specs.Str.{chars};
ghost use Rattle.constant_values.specs.Numbers as numbers;

use crate::class::{Class, count_of};
use hlasm_statements::text::{behind, character_count, head};

/// Whether a text begins with a minus sign.
fn is_negative(text: &str) -> bool
    ensures { result ≡ numbers.is_negative (chars text.now) }
{
    matches!(head(text), Some(('-', _)))
}

/// Whether a text begins with a sign.
fn has_sign(text: &str) -> bool
    ensures { result ≡ numbers.has_sign (chars text.now) }
{
    matches!(head(text), Some(('+' | '-', _)))
}

/// What stands behind the sign of a number, if it has one.
fn unsigned(text: &str) -> &str
    ensures { chars result.now ≡ numbers.unsigned (chars text.now) }
{
    behind(text, usize::from(has_sign(text)))
}

/// Whether a text is a number without a sign: digits, and so many periods at most.
fn is_unsigned(most_periods: usize, text: &str) -> bool
    ensures { result ≡ numbers.is_unsigned most_periods (chars text.now) }
{
    let digits = count_of(Class::DecimalDigit, text);
    let periods = count_of(Class::Period, text);
    0 < digits && periods <= most_periods && character_count(text).saturating_sub(digits) == periods
}

/// Whether a text is a number with so many periods at most.
pub(crate) fn is_number(most_periods: usize, text: &str) -> bool
    ensures { result ≡ numbers.is_number most_periods (chars text.now) }
{
    is_unsigned(most_periods, unsigned(text))
}

/// The number that digits write with one digit more; the greatest one stays.
fn with_digit(number: u64, digit: char) -> u64
    ensures { result ≡ numbers.with_digit number digit }
{
    let value = u64::from(digit as u32).saturating_sub(48);
    number.saturating_mul(10).saturating_add(value)
}

/// The number that digits write.
fn magnitude(text: &str) -> u64
    ensures { result ≡ numbers.number_behind 0 (chars text.now) }
{
    let mut number = 0;
    let mut left = text;
    while let Some((c, rest)) = head(left) {
        number = with_digit(number, c);
        left = rest;
    }
    number
}

/// How many numbers below 0 so many bytes hold; more than 8 hold as many as 8.
fn half_range(bytes: usize) -> u64
    ensures { result ≡ numbers.half_range bytes }
{
    match bytes {
        0 => 0,
        1 => 0x80,
        2 => 0x8000,
        3 => 0x80_0000,
        4 => 0x8000_0000,
        5 => 0x80_0000_0000,
        6 => 0x8000_0000_0000,
        7 => 0x80_0000_0000_0000,
        _ => 0x8000_0000_0000_0000,
    }
}

/// Whether a number is one of so many numbers below 0, or of as many that are not.
fn fits_half(half: u64, text: &str) -> bool
    ensures { result ≡ numbers.fits_half half (chars text.now) }
{
    let magnitude = magnitude(unsigned(text));
    if is_negative(text) {
        return magnitude <= half;
    }
    magnitude < half
}

/// Whether a number without a period fits so many bytes as a binary number with a sign; no byte holds none.
pub(crate) fn fits(bytes: usize, text: &str) -> bool
    ensures { result ≡ numbers.fits bytes (chars text.now) }
{
    0 < bytes && fits_half(half_range(bytes), text)
}
