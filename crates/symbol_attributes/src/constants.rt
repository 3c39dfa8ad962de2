//! What a label on DC and DS means (SC26-4940, "DC instruction", "DS instruction").
ghost use Rattle.std.specs.Prelude.{◌≡◌, IfOk};
ghost use Rattle.constant_grammar.specs.Views.{amount_of, constant_of};
ghost use Rattle.symbol_attributes.specs.Constants as constants;

use constant_grammar::{Amount, Constant};
use constant_table::Purpose;
use hl_base::{Attr, OutOfMemory, Text};
use std::alloc::Global;

/// What a label means on a constant that cannot be read.
const UNREAD: Attr = Attr {
    letter: b'U',
    length: 1,
};

/// A length as a number of bytes that an attribute tells: at most 4,294,967,295.
fn told_length(length: usize) -> u32
    ensures { result ≡ constants.told_length length }
{
    match u32::try_from(length) {
        Ok(told) => told,
        Err(_) => u32::MAX,
    }
}

/// The length that is written, where it is a decimal number within its bounds.
fn explicit_length(amount: &Amount, greatest: u32) -> u32
    ensures { result ≡ constants.explicit_length greatest (amount_of amount.now) }
{
    match amount {
        Amount::Decimal(length) if *length <= greatest => *length,
        _ => 1,
    }
}

/// What a label on a constant means.
fn of_constant(purpose: Purpose, constant: &Constant) -> Attr
    ensures { result ≡ constants.of_constant purpose (constant_of constant.now) }
{
    match &constant.length {
        Some(length) => Attr {
            letter: constant.kind.letter_with_length(),
            length: explicit_length(length, constant.kind.greatest_length(purpose)),
        },
        None => Attr {
            letter: constant.kind.letter(),
            length: told_length(constant.kind.implied_length(constant.first_digits())),
        },
    }
}

/// Whether an operand lacks what it must have: DC wants values.
fn is_incomplete(purpose: Purpose, constant: &Constant) -> bool
    ensures { result ≡ constants.is_incomplete purpose (constant_of constant.now) }
{
    match purpose {
        Purpose::Constant => constant.nominal.is_none(),
        Purpose::Storage => false,
    }
}

/// What a label on DC or DS with these operands means: that on its first constant.
pub(crate) fn first_constant(
    alloc: Global,
    purpose: Purpose,
    operands: &[Text],
) -> Result<Attr, OutOfMemory>
    ensures { IfOk result (λ attr. attr ≡ constants.first_constant purpose operands.now) }
{
    let Some(operand) = operands.first() else {
        return Ok(UNREAD);
    };
    match Constant::read(alloc, operand.as_str())? {
        Some(constant) => {
            if is_incomplete(purpose, &constant) {
                return Ok(UNREAD);
            }
            Ok(of_constant(purpose, &constant))
        }
        None => Ok(UNREAD),
    }
}
