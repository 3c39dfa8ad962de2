//! Ordinary symbols in constants.
ghost use Rattle.std.specs.Prelude.{◌≡◌, ◌++◌, [], slice_index, IfOk, OnOk};
ghost use Rattle.std.specs.Str.{chars};
ghost use Rattle.statement_names.specs.Constants as constants;

use crate::name::WrittenNames;
use crate::scan::{Sought, push_names};
use crate::text::{advance, digit_count};
use constant_table::ConstantType;
use hl_base::{Nesting, OutOfMemory};
use hlasm_statements::Field;
use hlasm_statements::text::{before, behind, head};

/// Adds the ordinary symbols in a text that stands behind so many characters of an operand field.
pub(crate) fn push_symbols(at: u32, text: &str, found: &mut WrittenNames) -> Result<(), OutOfMemory>
    ensures { OnOk result (found.new ≡ found.old ++ constants.symbols at (chars text.now)) }
{
    push_names(Sought::Symbols, Field::Operands, at, text, found)
}

/// How many characters stand up to the one with which no parenthesis is open any more.
fn group_count(text: &str) -> Result<usize, OutOfMemory>
    ensures { IfOk result (λ n. n ≡ constants.group_from [] (chars text.now)) }
{
    let mut nesting = Nesting::new();
    let mut count: usize = 0;
    let mut left = text;
    while let Some((c, rest)) = head(left) {
        nesting.read(c)?;
        count = count.checked_add(1).ok_or(OutOfMemory)?;
        if nesting.depth() == 0 {
            return Ok(count);
        }
        left = rest;
    }
    Ok(0)
}

/// How many characters a number at the front of a text takes.
fn amount_count(text: &str) -> Result<usize, OutOfMemory>
    ensures { IfOk result (λ n. n ≡ constants.amount_count (chars text.now)) }
{
    match head(text) {
        Some((c, _)) => {
            if c.is_ascii_digit() {
                return Ok(digit_count(text));
            }
            if c == '(' {
                return group_count(text);
            }
            Ok(0)
        }
        None => Ok(0),
    }
}

/// How many letters a type has that this text stands behind.
fn lengthened(kind: ConstantType, rest: &str) -> usize
    ensures { result ≡ constants.lengthened kind (chars rest.now) }
{
    match head(rest) {
        Some((c, _)) => {
            if kind.extended(c).is_some() {
                return 2;
            }
            1
        }
        None => 1,
    }
}

/// How many letters the type has at the front of a text.
fn type_count(text: &str) -> usize
    ensures { result ≡ constants.type_count (chars text.now) }
{
    match head(text) {
        Some((c, rest)) => match ConstantType::of_letter(c) {
            Some(kind) => lengthened(kind, rest),
            None => 0,
        },
        None => 0,
    }
}

/// Whether a text begins with a number.
fn begins_amount(text: &str) -> bool
    ensures { result ≡ constants.begins_amount (slice_index (chars text.now) 0) }
{
    match head(text) {
        Some((c, _)) => c.is_ascii_digit() || c == '(',
        None => false,
    }
}

/// Whether a text begins with an explicit length.
fn begins_length(text: &str) -> bool
    ensures { result ≡ constants.begins_length (chars text.now) }
{
    match head(text) {
        Some((c, rest)) => (c == 'L' || c == 'l') && begins_amount(rest),
        None => false,
    }
}

/// Adds the symbols of so many characters at the front of a text, and then those behind them.
fn push_apart(
    count: usize,
    at: u32,
    text: &str,
    found: &mut WrittenNames,
) -> Result<(), OutOfMemory>
    ensures { OnOk result (found.new ≡ found.old ++ constants.apart count at (chars text.now)) }
{
    let next = advance(at, count)?;
    push_symbols(at, before(text, count), found)?;
    push_symbols(next, behind(text, count), found)
}

/// Adds the symbols of the length and the values, behind the type.
fn push_behind_type(at: u32, text: &str, found: &mut WrittenNames) -> Result<(), OutOfMemory>
    ensures { OnOk result (found.new ≡ found.old ++ constants.behind_type at (chars text.now)) }
{
    if !begins_length(text) {
        return push_symbols(at, text, found);
    }
    let next = advance(at, 1)?;
    let rest = behind(text, 1);
    let count = amount_count(rest)?;
    push_apart(count, next, rest, found)
}

/// Adds the symbols behind the duplication factor.
fn push_behind_factor(at: u32, text: &str, found: &mut WrittenNames) -> Result<(), OutOfMemory>
    ensures { OnOk result (found.new ≡ found.old ++ constants.behind_factor at (chars text.now)) }
{
    let letters = type_count(text);
    if letters == 0 {
        return push_symbols(at, text, found);
    }
    let next = advance(at, letters)?;
    push_behind_type(next, behind(text, letters), found)
}

/// Adds the symbols of a constant that stands behind so many characters of an operand field.
pub(crate) fn push_constant(
    at: u32,
    text: &str,
    found: &mut WrittenNames,
) -> Result<(), OutOfMemory>
    ensures { OnOk result (found.new ≡ found.old ++ constants.constant_symbols at (chars text.now)) }
{
    let count = amount_count(text)?;
    let next = advance(at, count)?;
    push_symbols(at, before(text, count), found)?;
    push_behind_factor(next, behind(text, count), found)
}
