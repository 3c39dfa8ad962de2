//! Duplication factors and lengths (SC26-4940, "Duplication factor", "Length modifier").
ghost use Rattle.std.specs.Prelude.{◌≡◌, true, IfOk};
ghost use Rattle.std.specs.Str.{chars};
ghost use Rattle.std.specs.Option.{option_map};
ghost use Rattle.expression_grammar.specs.declared.character.Grammar.TheVariants.{Ordinary};
ghost use Rattle.expression_grammar.specs.Readings.{read_front};
ghost use Rattle.constant_grammar.specs.Amounts as amounts;
ghost use Rattle.constant_grammar.specs.Views.{amount_front_of, optional_of};

use crate::tree::Formula;
use expression_grammar::{Grammar, SyntaxFault, parse_front};
use hl_base::OutOfMemory;
use operand_list::hlasm_statements::text::{behind, head};
use std::alloc::Global;

/// A number as it is written: decimal digits, of which a number above 4,294,967,295 is read as this, or an expression in
/// parentheses.
#[derive(Drop)]
pub enum Amount {
    Decimal(u32),
    Computed(Formula),
}

/// A number, and how many characters it takes.
#[derive(Drop)]
pub(crate) struct AmountFront {
    pub(crate) amount: Amount,
    pub(crate) count: usize,
}

/// A number that may be left away, and how many characters it takes.
#[derive(Drop)]
pub(crate) struct OptionalAmount {
    pub(crate) amount: Option<Amount>,
    pub(crate) count: usize,
}

/// The number that decimal digits write with one digit more; the greatest one stays.
fn with_digit(number: u32, digit: char) -> u32
    requires { amounts.is_digit digit ≡ true }
    ensures { result ≡ amounts.with_digit number digit }
{
    let value = digit as u32 - 48;
    number.saturating_mul(10).saturating_add(value)
}

/// How many digits a text begins with.
fn digit_count(text: &str) -> usize
    ensures { result ≡ amounts.digit_count (chars text.now) }
{
    text.chars().take_while(|c| c.is_ascii_digit()).count()
}

/// The number of the digits that a text begins with.
fn decimal(text: &str) -> u32
    ensures { result ≡ amounts.number_behind 0 (chars text.now) }
{
    let mut number = 0;
    let mut left = text;
    while let Some((c, rest)) = head(left) {
        if !c.is_ascii_digit() {
            return number;
        }
        number = with_digit(number, c);
        left = rest;
    }
    number
}

/// The expression that stands behind a parenthesis and before another, with how many characters both and it take.
fn enclosed(alloc: Global, text: &str) -> Result<Option<AmountFront>, OutOfMemory>
    ensures { IfOk result (λ front. option_map amount_front_of front ≡ amounts.enclosed (read_front Ordinary (chars text.now))) }
{
    match parse_front(alloc, Grammar::Ordinary, text) {
        Ok(front) => Ok(Some(AmountFront {
            amount: Amount::Computed(Formula::new(alloc, front.tree)?),
            count: front.before.checked_add(2).ok_or(OutOfMemory)?,
        })),
        Err(SyntaxFault::At(_)) => Ok(None),
        Err(SyntaxFault::OutOfMemory) => Err(OutOfMemory),
    }
}

/// The number that a text begins with.
pub(crate) fn amount_front(alloc: Global, text: &str) -> Result<Option<AmountFront>, OutOfMemory>
    ensures { IfOk result (λ front. option_map amount_front_of front ≡ amounts.amount_front (chars text.now)) }
{
    match head(text) {
        None => Ok(None),
        Some((c, rest)) => {
            if c.is_ascii_digit() {
                return Ok(Some(AmountFront {
                    amount: Amount::Decimal(decimal(text)),
                    count: digit_count(text),
                }));
            }
            if c == '(' {
                return enclosed(alloc, rest);
            }
            Ok(None)
        }
    }
}

/// A number that was found behind so many characters.
fn given(front: AmountFront, before: usize) -> Result<OptionalAmount, OutOfMemory>
    ensures { IfOk result (λ optional. optional_of optional ≡ amounts.given before (amount_front_of front)) }
{
    Ok(OptionalAmount {
        count: front.count.checked_add(before).ok_or(OutOfMemory)?,
        amount: Some(front.amount),
    })
}

/// The number that a text begins with, which stands behind so many characters.
fn given_front(
    alloc: Global,
    text: &str,
    before: usize,
) -> Result<Option<OptionalAmount>, OutOfMemory>
    ensures { IfOk result (λ front. option_map optional_of front ≡ option_map (amounts.given before) (amounts.amount_front (chars text.now))) }
{
    match amount_front(alloc, text)? {
        Some(front) => Ok(Some(given(front, before)?)),
        None => Ok(None),
    }
}

/// No number.
fn omitted() -> OptionalAmount
    ensures { optional_of result ≡ amounts.omitted }
{
    OptionalAmount {
        amount: None,
        count: 0,
    }
}

/// Whether a duplication factor begins with this character.
fn begins_factor(c: char) -> bool
    ensures { result ≡ amounts.begins_factor c }
{
    c.is_ascii_digit() || c == '('
}

/// Whether an explicit length begins with this character.
fn begins_length(c: char) -> bool
    ensures { result ≡ amounts.begins_length c }
{
    c == 'L' || c == 'l'
}

/// The duplication factor that a text begins with, if it has one.
pub(crate) fn factor(alloc: Global, text: &str) -> Result<Option<OptionalAmount>, OutOfMemory>
    ensures { IfOk result (λ front. option_map optional_of front ≡ amounts.factor (chars text.now)) }
{
    match head(text) {
        Some((c, _)) => {
            if begins_factor(c) {
                return given_front(alloc, text, 0);
            }
            Ok(Some(omitted()))
        }
        None => Ok(Some(omitted())),
    }
}

/// The explicit length that a text begins with, if it has one.
pub(crate) fn explicit_length(
    alloc: Global,
    text: &str,
) -> Result<Option<OptionalAmount>, OutOfMemory>
    ensures { IfOk result (λ front. option_map optional_of front ≡ amounts.explicit_length (chars text.now)) }
{
    match head(text) {
        Some((c, rest)) => {
            if begins_length(c) {
                return given_front(alloc, rest, 1);
            }
            Ok(Some(omitted()))
        }
        None => Ok(Some(omitted())),
    }
}

/// What stands behind a number.
pub(crate) fn behind_amount<'a>(text: &'a str, amount: &OptionalAmount) -> &'a str
    ensures { chars result.now ≡ amounts.behind amount.now.count (chars text.now) }
{
    behind(text, amount.count)
}
