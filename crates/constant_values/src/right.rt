//! Whether one value is right for its type, and whether it fits its length.
ghost use Rattle.std.specs.Prelude.{◌≡◌};
ghost use Rattle.std.specs.Str.{chars};
ghost use Rattle.constant_values.specs.Right as right;

use crate::class::{Class, count_of};
use crate::number::{fits, is_number};
use constant_grammar::digits_in;
use constant_table::{ConstantType, ValueKind};
use hlasm_statements::text::character_count;

/// Whether a text has a character, and all are of this class.
fn is_made_of(class: Class, text: &str) -> bool
    ensures { result ≡ right.is_made_of class (chars text.now) }
{
    let count = character_count(text);
    0 < count && count_of(class, text) == count
}

/// Whether a value has only characters that its kind has, and as it has them.
pub(crate) fn is_right(kind: ValueKind, text: &str) -> bool
    ensures { result ≡ right.is_right kind (chars text.now) }
{
    match kind {
        ValueKind::Text => 0 < character_count(text),
        ValueKind::HexadecimalDigits => is_made_of(Class::HexadecimalDigit, text),
        ValueKind::Bits => is_made_of(Class::Bit, text),
        ValueKind::Decimals => is_number(1, text),
        ValueKind::Integers => is_number(0, text),
        ValueKind::Expressions | ValueKind::Symbols | ValueKind::Addresses | ValueKind::Floats => {
            true
        }
    }
}

/// How many bytes a value takes where no length is given.
pub(crate) fn implied_bytes(kind: ConstantType, text: &str) -> usize
    ensures { result ≡ right.implied_bytes kind (chars text.now) }
{
    kind.implied_length(Some(digits_in(kind.kind(), text)))
}

/// How many bytes a binary number takes: as many as are given, or else as its type has.
fn binary_bytes(kind: ConstantType, explicit: Option<u32>) -> usize
    ensures { result ≡ right.binary_bytes kind explicit }
{
    match explicit {
        Some(bytes) => bytes as usize,
        None => kind.implied_length(None),
    }
}

/// Whether a value takes more bytes than it is given.
fn exceeds(kind: ConstantType, explicit: Option<u32>, text: &str) -> bool
    ensures { result ≡ right.exceeds kind explicit (chars text.now) }
{
    match explicit {
        Some(bytes) => (bytes as usize) < implied_bytes(kind, text),
        None => false,
    }
}

/// Whether a value that is right does not fit the length of the constant: the one that is given, or else that of the type.
pub(crate) fn is_too_long(kind: ConstantType, explicit: Option<u32>, text: &str) -> bool
    ensures { result ≡ right.is_too_long kind explicit (chars text.now) }
{
    match kind.kind() {
        ValueKind::Integers => is_number(0, text) && !fits(binary_bytes(kind, explicit), text),
        ValueKind::Decimals => is_number(1, text) && exceeds(kind, explicit, text),
        _ => false,
    }
}
