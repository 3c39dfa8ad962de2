//! Literals in operands.
ghost use Rattle.std.specs.Prelude.{◌≡◌, [], Some, IfOk, is_some};
ghost use Rattle.std.specs.Str.{chars};
ghost use Rattle.std.specs.Option.{option_map};
ghost use Rattle.constant_operands.specs.Operands.{operand};
ghost use Rattle.constant_operands.specs.Views.{operand_of};
ghost use Rattle.literal_operands.specs.Literals as literals;
ghost use Rattle.literal_operands.specs.Views.{literal_of};

use crate::pair::last_pair;
use constant_operands::{ConstantOperand, ConstantUse};
use hl_base::OutOfMemory;
use hlasm_statements::split_columns;
use hlasm_statements::text::head;
use std::alloc::Global;

/// A literal in an operand: its text behind the equals sign, what that is as a constant, and what stands behind it.
#[derive(Drop)]
pub struct LiteralOperand<'a> {
    pub text: &'a str,
    pub constant: ConstantOperand,
    pub behind: &'a str,
}

/// Whether a text was read as a constant that has its values.
fn is_read(constant: &ConstantOperand) -> bool
    ensures { result ≡ is_some (operand_of constant.now).constant }
{
    constant.constant.is_some()
}

/// A literal that is all of a text, which was read.
fn whole(body: &str, constant: ConstantOperand) -> LiteralOperand<'_>
    requires { operand_of constant ≡ operand ConstantUse.Literal (chars body.now) }
    ensures { literal_of result ≡ literals.parted (chars body.now) [] }
{
    LiteralOperand {
        text: body,
        constant,
        behind: "",
    }
}

/// A literal of so many characters, and what stands behind it.
fn cut(alloc: Global, body: &str, at: usize) -> Result<LiteralOperand<'_>, OutOfMemory>
    ensures { IfOk result (λ literal. literal_of literal ≡ literals.cut at (chars body.now)) }
{
    let (text, behind) = split_columns(body, at);
    Ok(LiteralOperand {
        text,
        constant: ConstantOperand::read(alloc, ConstantUse::Literal, text)?,
        behind,
    })
}

/// The literal up to a pair of parentheses, or all of a text, which was read.
fn up_to(
    alloc: Global,
    pair: Option<usize>,
    body: &str,
    constant: ConstantOperand,
) -> Result<LiteralOperand<'_>, OutOfMemory>
    requires { operand_of constant ≡ operand ConstantUse.Literal (chars body.now) }
    ensures { IfOk result (λ literal. literal_of literal ≡ literals.up_to pair (chars body.now)) }
{
    match pair {
        Some(at) => cut(alloc, body, at),
        None => Ok(whole(body, constant)),
    }
}

/// The literal that stands at the front of the text behind an equals sign.
fn literal(alloc: Global, body: &str) -> Result<LiteralOperand<'_>, OutOfMemory>
    ensures { IfOk result (λ literal. literal_of literal ≡ literals.literal (chars body.now)) }
{
    let constant = ConstantOperand::read(alloc, ConstantUse::Literal, body)?;
    if is_read(&constant) {
        return Ok(whole(body, constant));
    }
    let pair = last_pair(alloc, body)?;
    up_to(alloc, pair, body, constant)
}

/// The literal behind an equals sign.
fn some_literal(alloc: Global, body: &str) -> Result<Option<LiteralOperand<'_>>, OutOfMemory>
    ensures { IfOk result (λ found. option_map literal_of found ≡ Some (literals.literal (chars body.now))) }
{
    Ok(Some(literal(alloc, body)?))
}

/// The literal in an operand of a machine instruction; `None` exactly where the operand does not begin with an equals sign.
pub fn literal_operand(
    alloc: Global,
    operand: &str,
) -> Result<Option<LiteralOperand<'_>>, OutOfMemory>
    ensures { IfOk result (λ found. option_map literal_of found ≡ literals.literal_in (chars operand.now)) }
{
    match head(operand) {
        Some(('=', body)) => some_literal(alloc, body),
        _ => Ok(None),
    }
}
