//! The numbers of an operand: its factor and its explicit length.
ghost use Rattle.std.specs.Prelude.{◌≡◌};
ghost use Rattle.std.specs.Option.{option_map};
ghost use Rattle.constant_grammar.specs.Views.{amount_of, constant_of, optional_amount_of};
ghost use Rattle.constant_operands.specs.Numbers as spec;

use crate::operand::ConstantUse;
use constant_grammar::{Amount, Constant};

/// The greatest duplication factor.
const MOST_COPIES: u32 = 16_777_215;

/// What an expression comes to where the operand stands.
#[derive(Clone, Copy, Debug, PartialEq, Eq)]
pub enum Told {
    /// An absolute number.
    Absolute(i32),
    /// Another value, or none although each of its symbols has one.
    Other,
    /// A symbol of it has no value yet.
    Unknown,
}

/// What the expressions of an operand come to. What is told of a number that is no expression does not count.
#[derive(Clone, Copy, Debug, PartialEq, Eq)]
pub struct ToldNumbers {
    pub factor: Told,
    pub length: Told,
}

/// What a number comes to.
#[derive(Clone, Copy, Debug, PartialEq, Eq)]
pub(crate) enum Number {
    /// It is within its bounds.
    Known(u32),
    /// It is out of its bounds.
    Refused,
    /// Its expression is no absolute number.
    NoNumber,
    /// Its expression has no value yet.
    Unknown,
}

/// A number that is none below the least and none above the greatest.
fn within(least: u32, greatest: u32, number: u32) -> Number
    ensures { result ≡ spec.within least greatest number }
{
    if least <= number && number <= greatest {
        Number::Known(number)
    } else {
        Number::Refused
    }
}

/// The same of a number with a sign.
fn within_signed(least: u32, greatest: u32, number: i32) -> Number
    ensures { result ≡ spec.within_signed least greatest number }
{
    if number < 0 {
        return Number::Refused;
    }
    within(least, greatest, number as u32)
}

/// The same of an expression.
fn told_number(least: u32, greatest: u32, told: Told) -> Number
    ensures { result ≡ spec.told_number least greatest told }
{
    match told {
        Told::Absolute(number) => within_signed(least, greatest, number),
        Told::Other => Number::NoNumber,
        Told::Unknown => Number::Unknown,
    }
}

/// A number as it is written; an expression comes to what is told of it.
fn number_of(least: u32, greatest: u32, told: Told, amount: &Amount) -> Number
    ensures { result ≡ spec.number_of least greatest told (amount_of amount.now) }
{
    match amount {
        Amount::Decimal(number) => within(least, greatest, *number),
        Amount::Computed(_) => told_number(least, greatest, told),
    }
}

impl Number {
    /// Whether it is out of its bounds.
    fn is_refused(self) -> bool
        ensures { result ≡ spec.is_refused self }
    {
        match self {
            Number::Refused => true,
            Number::Known(_) | Number::NoNumber | Number::Unknown => false,
        }
    }

    /// Whether it is not known.
    fn is_unknown(self) -> bool
        ensures { result ≡ spec.is_unknown self }
    {
        match self {
            Number::Unknown => true,
            Number::Known(_) | Number::Refused | Number::NoNumber => false,
        }
    }
}

/// The least factor: a literal makes at least one constant.
fn least_copies(used: ConstantUse) -> u32
    ensures { result ≡ spec.least_copies used }
{
    match used {
        ConstantUse::Literal => 1,
        ConstantUse::Dc | ConstantUse::Ds => 0,
    }
}

/// A factor; one that is left away is 1.
fn factor_of(used: ConstantUse, told: Told, factor: &Option<Amount>) -> Number
    ensures { result ≡ spec.factor_of used told (optional_amount_of factor.now) }
{
    match factor {
        Some(amount) => number_of(least_copies(used), MOST_COPIES, told, amount),
        None => Number::Known(1),
    }
}

/// An explicit length, if there is one, which is at most the greatest.
fn length_of(greatest: u32, told: Told, length: &Option<Amount>) -> Option<Number>
    ensures { result ≡ option_map (spec.number_of 0 greatest told) (optional_amount_of length.now) }
{
    match length {
        Some(amount) => Some(number_of(0, greatest, told, amount)),
        None => None,
    }
}

/// The numbers of an operand; no length is one that is left away.
#[derive(Clone, Copy, Debug, PartialEq, Eq)]
pub(crate) struct Numbers {
    pub(crate) factor: Number,
    pub(crate) length: Option<Number>,
}

impl Numbers {
    /// Those of a constant, by what is told of its expressions.
    pub(crate) fn of(used: ConstantUse, told: ToldNumbers, constant: &Constant) -> Numbers
        ensures { result ≡ spec.numbers_of used told (constant_of constant.now) }
    {
        let greatest = constant.kind.greatest_length(used.purpose());
        Numbers {
            factor: factor_of(used, told.factor, &constant.factor),
            length: length_of(greatest, told.length, &constant.length),
        }
    }

    /// Whether one of them is out of its bounds.
    pub(crate) fn are_refused(&self) -> bool
        ensures { result ≡ spec.are_refused self.now }
    {
        match self.length {
            Some(length) => self.factor.is_refused() || length.is_refused(),
            None => self.factor.is_refused(),
        }
    }

    /// Whether one of them is not known.
    pub(crate) fn are_unknown(&self) -> bool
        ensures { result ≡ spec.are_unknown self.now }
    {
        match self.length {
            Some(length) => self.factor.is_unknown() || length.is_unknown(),
            None => self.factor.is_unknown(),
        }
    }

    /// The explicit length, none where none is written; nothing where one is written that has no right number.
    pub(crate) fn explicit(&self) -> Option<Option<u32>>
        ensures { result ≡ spec.explicit_of self.now.length }
    {
        match self.length {
            None => Some(None),
            Some(Number::Known(bytes)) => Some(Some(bytes)),
            Some(_) => None,
        }
    }
}
