//! How many characters or digits the first value of a constant has: its length goes by them where none is given.
ghost use Rattle.std.specs.Prelude.{◌≡◌};
ghost use Rattle.std.specs.Str.{chars};
ghost use Rattle.constant_grammar.specs.Digits as digits;
ghost use Rattle.constant_grammar.specs.Views.{constant_of};

use crate::{Constant, Nominal};
use constant_table::ValueKind;
use operand_list::hlasm_statements::text::head;

/// How many characters a text has, two apostrophes and two ampersands being one each.
fn value_character_count(text: &str) -> usize
    ensures { result ≡ digits.characters (chars text.now) }
{
    let mut count = 0;
    let mut left = text;
    while let Some((c, rest)) = head(left) {
        left = rest;
        count += 1;
        if c == '\'' || c == '&' {
            if let Some((next, behind)) = head(rest) {
                if next == c {
                    left = behind;
                }
            }
        }
    }
    count
}

/// How many characters stand before the first comma.
fn first_count(text: &str) -> usize
    ensures { result ≡ digits.first_count (chars text.now) }
{
    text.chars().take_while(|c| *c != ',').count()
}

/// Whether a period stands before the first comma.
fn has_period(text: &str) -> bool
    ensures { result ≡ digits.has_period (chars text.now) }
{
    let mut left = text;
    while let Some((c, rest)) = head(left) {
        if c == '.' || c == ',' {
            return c == '.';
        }
        left = rest;
    }
    false
}

/// Whether a text begins with a sign.
fn has_sign(text: &str) -> bool
    ensures { result ≡ digits.has_sign (chars text.now) }
{
    matches!(head(text), Some(('+' | '-', _)))
}

/// How many digits the first decimal number of a text has: neither a sign before it nor a period counts.
fn decimal_count(text: &str) -> usize
    ensures { result ≡ digits.decimal_count (chars text.now) }
{
    let sign = usize::from(has_sign(text));
    let period = usize::from(has_period(text));
    first_count(text)
        .saturating_sub(sign)
        .saturating_sub(period)
}

/// How many characters or digits the first value of this kind has in the text of the values, rightly written or not.
pub fn digits_in(kind: ValueKind, text: &str) -> usize
    ensures { result ≡ digits.count_in kind (chars text.now) }
{
    match kind {
        ValueKind::Text => value_character_count(text),
        ValueKind::Decimals => decimal_count(text),
        _ => first_count(text),
    }
}

impl Constant {
    /// How many characters or digits the first value has, rightly written or not; `None` where there is no value. Of values
    /// in parentheses the number has no meaning.
    pub fn first_digits(&self) -> Option<usize>
        ensures { result ≡ digits.first_digits (constant_of self.now) }
    {
        match &self.nominal {
            Some(Nominal::Quoted(text)) => Some(digits_in(self.kind.kind(), text.as_str())),
            Some(Nominal::Enclosed(_)) => Some(0),
            None => None,
        }
    }
}
