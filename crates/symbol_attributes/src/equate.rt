//! What a label on EQU means (SC26-4940, "EQU instruction").
ghost use Rattle.std.specs.Prelude.{◌≡◌, IfOk};
ghost use Rattle.symbol_attributes.specs.Equates as equates;

use cond_expr::term::term;
use hl_base::{Attr, OutOfMemory, Text, ebcdic};
use std::alloc::Global;

/// The letter of what has no letter of its own.
const UNDEFINED: u8 = b'U';

/// The greatest length that EQU gives.
const GREATEST_LENGTH: i32 = 65_535;

/// The number of the operand at this place, where it is a self-defining term.
fn number_at(alloc: Global, operands: &[Text], place: usize) -> Result<Option<i32>, OutOfMemory>
    ensures { IfOk result (λ number. number ≡ equates.number_at operands.now place) }
{
    match operands.get(place) {
        Some(operand) => term(alloc, operand),
        None => Ok(None),
    }
}

/// The printable character with this byte in code page 037, an ASCII character; U where there is none.
fn character_with(byte: u32) -> u8
    ensures { result ≡ equates.character_with byte }
{
    for c in b' '..127 {
        if u32::from(ebcdic(char::from(c))) == byte {
            return c;
        }
    }
    UNDEFINED
}

/// The same of a number with a sign.
fn character_of(byte: i32) -> u8
    ensures { result ≡ equates.character_of byte }
{
    if byte < 0 {
        return UNDEFINED;
    }
    character_with(byte as u32)
}

/// The type letter that a third operand with this number gives.
fn letter_of(number: Option<i32>) -> u8
    ensures { result ≡ equates.letter_of number }
{
    match number {
        Some(byte) => character_of(byte),
        None => UNDEFINED,
    }
}

/// The length that a second operand with this number gives.
fn length_of(number: Option<i32>) -> u32
    ensures { result ≡ equates.length_of number }
{
    match number {
        Some(length) if length >= 0 && length <= GREATEST_LENGTH => length as u32,
        _ => 1,
    }
}

/// What a label on EQU with these operands means.
pub(crate) fn equate(alloc: Global, operands: &[Text]) -> Result<Attr, OutOfMemory>
    ensures { IfOk result (λ attr. attr ≡ equates.equate operands.now) }
{
    let length = number_at(alloc, operands, 1)?;
    let letter = number_at(alloc, operands, 2)?;
    Ok(Attr {
        letter: letter_of(letter),
        length: length_of(length),
    })
}
