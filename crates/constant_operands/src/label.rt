//! What a label on an operand means.
ghost use Rattle.std.specs.Prelude.{◌≡◌};
ghost use Rattle.constant_grammar.specs.Views.{constant_of};
ghost use Rattle.constant_operands.specs.Labels as spec;

use crate::number::Number;
use constant_grammar::Constant;
use hl_base::Attr;

/// What a label means on an operand that was not read.
pub(crate) fn unread() -> Attr
    ensures { result ≡ spec.unread }
{
    Attr {
        letter: b'U',
        length: 1,
    }
}

/// The type letter.
fn letter_of(constant: &Constant) -> u8
    ensures { result ≡ spec.letter_by (constant_of constant.now) (constant_of constant.now).length }
{
    match &constant.length {
        Some(_) => constant.kind.letter_with_length(),
        None => constant.kind.letter(),
    }
}

/// The length of the first value, where none is written: at most 4,294,967,295.
fn implied_length(constant: &Constant) -> u32
    ensures { result ≡ spec.implied_length_of (constant_of constant.now) }
{
    match u32::try_from(constant.kind.implied_length(constant.first_digits())) {
        Ok(length) => length,
        Err(_) => u32::MAX,
    }
}

/// The length, which is 1 where one is written that has no right number.
fn length_of(constant: &Constant, length: Option<Number>) -> u32
    ensures { result ≡ spec.length_of (constant_of constant.now) length }
{
    match length {
        Some(Number::Known(bytes)) => bytes,
        Some(_) => 1,
        None => implied_length(constant),
    }
}

/// What a label means on an operand that was read.
pub(crate) fn attr_of(constant: &Constant, length: Option<Number>) -> Attr
    ensures { result ≡ spec.attr_of (constant_of constant.now) length }
{
    Attr {
        letter: letter_of(constant),
        length: length_of(constant, length),
    }
}
