//! The type letter and the length of a label.
ghost use Rattle.std.specs.Prelude.{◌≡◌, IfOk};
ghost use Rattle.std.specs.Str.{chars};
ghost use Rattle.operand_list.specs.Split.{operands_of};
ghost use Rattle.symbol_attributes.specs.Attributes as spec;
ghost use Rattle.symbol_attributes.specs.Constants.{first_constant};

use crate::OpMeaning;
use crate::constants::first_constant;
use crate::equate::equate;
use constant_table::Purpose;
use hl_base::{Attr, OutOfMemory};
use instruction_table::{Format, length};
use operand_list::split_operands;
use std::alloc::Global;

/// A letter with the length 1.
fn plain(letter: u8) -> Attr
    ensures { result ≡ spec.plain letter }
{
    Attr { letter, length: 1 }
}

/// What a label on a machine instruction means.
fn of_instruction(format: Format) -> Attr
    ensures { result ≡ spec.of_instruction format }
{
    Attr {
        letter: b'I',
        length: u32::from(length(format)),
    }
}

/// What a label on an operation of the assembler means.
fn of_assembler(alloc: Global, name: &str, operands: &str) -> Result<Attr, OutOfMemory>
    ensures { IfOk result (λ attr. attr ≡ spec.of_assembler name.now (chars operands.now)) }
{
    match name {
        "CSECT" | "DSECT" | "START" => Ok(plain(b'J')),
        "EQU" => {
            let operands = split_operands(alloc, operands)?;
            equate(alloc, operands.as_slice())
        }
        "DC" => of_constants(alloc, Purpose::Constant, operands),
        "DS" => of_constants(alloc, Purpose::Storage, operands),
        _ => Ok(plain(b'U')),
    }
}

/// What a label on DC or DS with this operand field means.
fn of_constants(alloc: Global, purpose: Purpose, operands: &str) -> Result<Attr, OutOfMemory>
    ensures { IfOk result (λ attr. attr ≡ first_constant purpose (operands_of (chars operands.now))) }
{
    let operands = split_operands(alloc, operands)?;
    first_constant(alloc, purpose, operands.as_slice())
}

/// What a label means that stands on this operation with this operand field. A call of a macro gives M, and so does an
/// operation that is not known.
pub fn attributes(alloc: Global, op: &OpMeaning, operands: &str) -> Result<Attr, OutOfMemory>
    ensures { IfOk result (λ attr. attr ≡ spec.attributes op.now (chars operands.now)) }
{
    match op {
        OpMeaning::Machine(format) => Ok(of_instruction(*format)),
        OpMeaning::Assembler(name) => of_assembler(alloc, name.text(), operands),
        OpMeaning::Other => Ok(plain(b'M')),
    }
}

/// What the symbols mean that this operation names as external: T for EXTRN, `$` for WXTRN; no other names any.
pub fn external(op: &OpMeaning) -> Option<Attr>
    ensures { result ≡ spec.external op.now }
{
    let OpMeaning::Assembler(name) = op else {
        return None;
    };
    match name.text() {
        "EXTRN" => Some(plain(b'T')),
        "WXTRN" => Some(plain(b'$')),
        _ => None,
    }
}
