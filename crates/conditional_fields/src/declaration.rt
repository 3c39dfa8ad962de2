//! Declarations of SET symbols (SC26-4940, "GBLA, GBLB, and GBLC instructions", "LCLA, LCLB, and LCLC instructions").
ghost use Rattle.std.specs.Prelude.{◌+◌, Err};
ghost use Rattle.std.specs.Str.{chars};
ghost use Rattle.conditional_fields.specs.Answers.{Says, each};
ghost use Rattle.conditional_fields.specs.Declarations as declarations;

use crate::character::{before, behind, digit_count, head, letter_count, name_of};
use crate::place::{fault_at, further};
use crate::sequence::symbol_reach;
use hl_base::{Declaration, Declarations, SetKind, Text};
use operand_grammar::{SyntaxFault, split_operands};
use std::alloc::Global;

/// A declaration goes wrong at the sum of two places.
fn wrong_at(before: usize, more: usize) -> Result<bool, SyntaxFault>
    ensures { Says (λ array. array) (Err (before + more)) result }
{
    Err(fault_at(before, more))
}

/// An array ends with its parenthesis.
fn ended(digits: usize, rest: &str) -> Result<bool, SyntaxFault>
    ensures { Says (λ array. array) (declarations.ended digits (chars rest.now)) result }
{
    match head(rest) {
        Some(_) => wrong_at(digits, 2),
        None => Ok(true),
    }
}

/// Behind so many digits of an array comes its parenthesis.
fn closing(digits: usize, rest: &str) -> Result<bool, SyntaxFault>
    ensures { Says (λ array. array) (declarations.closing digits (chars rest.now)) result }
{
    match head(rest) {
        Some((c, rest)) => {
            if digits > 0 && c == ')' {
                return ended(digits, rest);
            }
            wrong_at(digits, 1)
        }
        None => wrong_at(digits, 1),
    }
}

/// Whether a variable symbol with this behind it is an array.
fn dimension(rest: &str) -> Result<bool, SyntaxFault>
    ensures { Says (λ array. array) (declarations.dimension (chars rest.now)) result }
{
    match head(rest) {
        Some((c, rest)) => {
            if c == '(' {
                let digits = digit_count(rest);
                return closing(digits, behind(rest, digits));
            }
            Err(SyntaxFault::At(0))
        }
        None => Ok(false),
    }
}

/// A declaration of the name behind an ampersand.
fn named(kind: SetKind, global: bool, rest: &str) -> Result<Declaration, SyntaxFault>
    ensures { Says (λ declaration. declaration) (declarations.named_behind kind global (chars rest.now)) result }
{
    let letters = letter_count(rest);
    let Some(name) = name_of(before(rest, letters)) else {
        return Err(SyntaxFault::At(symbol_reach(rest) + 1));
    };
    match dimension(behind(rest, letters)) {
        Ok(array) => Ok(Declaration {
            kind,
            name,
            global,
            array,
        }),
        Err(fault) => Err(further(further(fault, letters), 1)),
    }
}

/// What an operand declares.
fn declaration(kind: SetKind, global: bool, operand: &str) -> Result<Declaration, SyntaxFault>
    ensures { Says (λ declaration. declaration) (declarations.declaration kind global (chars operand.now)) result }
{
    match head(operand) {
        Some((c, rest)) => {
            if c == '&' {
                return named(kind, global, rest);
            }
            Err(SyntaxFault::At(0))
        }
        None => Err(SyntaxFault::At(0)),
    }
}

/// What each of some operands declares.
fn each_declaration(
    alloc: Global,
    kind: SetKind,
    global: bool,
    operands: &[Text],
) -> Result<Declarations, SyntaxFault>
    ensures { Says (λ list. list) (each (declarations.declaration kind global) operands.now) result }
{
    let mut list = Declarations::new(alloc);
    for operand in operands {
        match declaration(kind, global, operand.as_str()) {
            Ok(one) => list.push(one)?,
            Err(fault) => return Err(fault),
        }
    }
    Ok(list)
}

/// What the operand field of GBLA, GBLB, GBLC, LCLA, LCLB or LCLC declares: one variable symbol at least. `At` where an
/// operand is wrong: how many characters of the first such operand some right one begins with.
pub fn declarations(
    alloc: Global,
    kind: SetKind,
    global: bool,
    field: &str,
) -> Result<Declarations, SyntaxFault>
    ensures { Says (λ list. list) (declarations.declarations kind global (chars field.now)) result }
{
    let operands = split_operands(alloc, field)?;
    let list = each_declaration(alloc, kind, global, operands.as_slice())?;
    if list.as_slice().is_empty() {
        return Err(SyntaxFault::At(0));
    }
    Ok(list)
}
