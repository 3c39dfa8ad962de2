//! What is said of an operand.
ghost use Rattle.std.specs.Prelude.{◌≡◌, [], ◌∷◌, ◌++◌, IfOk, OnOk};
ghost use Rattle.constant_grammar.specs.Views.{constant_of};
ghost use Rattle.constant_values.specs.Views.{values_of};
ghost use Rattle.constant_operands.specs.Said as spec;

use crate::number::{Number, Numbers};
use crate::operand::ConstantUse;
use constant_grammar::Constant;
use constant_table::{ConstantType, ValueKind};
use constant_values::Values;
use hl_base::OutOfMemory;
use note_rows::Row;
use std::alloc::Global;

/// That it cannot be read, and nothing else.
pub(crate) fn unread(alloc: Global) -> Result<Vec<Row>, OutOfMemory>
    ensures { IfOk result (λ rows. rows.items ≡ spec.unread) }
{
    let mut rows = Vec::new(alloc);
    rows.push(Row::BadConstant)?;
    Ok(rows)
}

/// Adds that a floating-point number is not read, where there is cause for it. Each row has a function of its own, so that it is made
/// only where it is said.
fn push_floating_point(rows: &mut Vec<Row>, cause: bool) -> Result<(), OutOfMemory>
    ensures { OnOk result (rows.new.items ≡ rows.old.items ++ spec.when cause Row.FloatingPoint) }
{
    if cause {
        rows.push(Row::FloatingPoint)?;
    }
    Ok(())
}

/// The same of a value that is wrong.
fn push_wrong(rows: &mut Vec<Row>, cause: bool) -> Result<(), OutOfMemory>
    ensures { OnOk result (rows.new.items ≡ rows.old.items ++ spec.when cause Row.BadNominalValue) }
{
    if cause {
        rows.push(Row::BadNominalValue)?;
    }
    Ok(())
}

/// The same of one that is too long.
fn push_too_long(rows: &mut Vec<Row>, cause: bool) -> Result<(), OutOfMemory>
    ensures { OnOk result (rows.new.items ≡ rows.old.items ++ spec.when cause Row.ValueTooLong) }
{
    if cause {
        rows.push(Row::ValueTooLong)?;
    }
    Ok(())
}

/// The same of a number that is not known.
fn push_unknown(rows: &mut Vec<Row>, cause: bool) -> Result<(), OutOfMemory>
    ensures { OnOk result (rows.new.items ≡ rows.old.items ++ spec.when cause Row.UnknownValue) }
{
    if cause {
        rows.push(Row::UnknownValue)?;
    }
    Ok(())
}

/// Whether values of this type are floating-point numbers, which are not read.
fn is_float(kind: ConstantType) -> bool
    ensures { result ≡ spec.is_float (spec.kind_of kind) }
{
    match kind.kind() {
        ValueKind::Floats => true,
        ValueKind::Text
        | ValueKind::HexadecimalDigits
        | ValueKind::Bits
        | ValueKind::Decimals
        | ValueKind::Integers
        | ValueKind::Expressions
        | ValueKind::Symbols
        | ValueKind::Addresses => false,
    }
}

/// Whether a factor is known and above 0.
fn is_some_copy(factor: Number) -> bool
    ensures { result ≡ spec.is_some_copy factor }
{
    match factor {
        Number::Known(copies) => 0 < copies,
        Number::Refused | Number::NoNumber | Number::Unknown => false,
    }
}

/// Whether constants are made of the values; DS makes none.
fn makes_constants(used: ConstantUse, factor: Number) -> bool
    ensures { result ≡ spec.makes_constants used factor }
{
    match used {
        ConstantUse::Dc | ConstantUse::Literal => is_some_copy(factor),
        ConstantUse::Ds => false,
    }
}

/// Whether a value does not fit its length, where that is known.
fn is_too_long(kind: ConstantType, numbers: &Numbers, values: &Values) -> bool
    ensures { result ≡ spec.is_too_long kind numbers.now.length (values_of values.now) }
{
    match numbers.explicit() {
        Some(explicit) => values.is_too_long(kind, explicit),
        None => false,
    }
}

/// What is said of an operand that was read, and whose numbers are not out of their bounds.
pub(crate) fn said_of(
    alloc: Global,
    used: ConstantUse,
    numbers: &Numbers,
    constant: &Constant,
    values: &Values,
) -> Result<Vec<Row>, OutOfMemory>
    ensures { IfOk result (λ rows. rows.items ≡ spec.said_of used numbers.now (constant_of constant.now) (values_of values.now)) }
{
    let kind = constant.kind;
    let unread = is_float(kind) && makes_constants(used, numbers.factor);
    let mut rows = Vec::new(alloc);
    push_floating_point(&mut rows, unread)?;
    let wrong = values.is_wrong(kind, constant.length.is_some());
    push_wrong(&mut rows, wrong)?;
    let too_long = is_too_long(kind, numbers, values);
    push_too_long(&mut rows, too_long)?;
    push_unknown(&mut rows, numbers.are_unknown())?;
    Ok(rows)
}
