//! Where AGO branches to (SC26-4940, "AGO instruction", "Computed AGO instruction").
ghost use Rattle.std.specs.Prelude.{◌≡◌, [], ◌∷◌, ◌++◌, drop, Ok, Err, OnOk, MatchResult};
ghost use Rattle.std.specs.Str.{chars};
ghost use Rattle.conditional_fields.specs.Answers.{Says, each};
ghost use Rattle.expression_grammar.specs.Views.{tree_of};
ghost use Rattle.conditional_fields.specs.Fronts.{IsFirstClosed};
ghost use Rattle.conditional_fields.specs.Branches as branches;
ghost use Rattle.conditional_fields.specs.Sequences as sequences;

use crate::character::{begins_with, behind};
use crate::front::{Front, Sought, begins_with_sought, reach};
use crate::place::{fault_at, further};
use crate::sequence::sequence;
use hl_base::{Name, OutOfMemory, Text};
use operand_grammar::{Expr, SyntaxFault, split_operands};
use std::alloc::Global;

/// Where an AGO branches to: a sequence symbol, or by a number the first or one of the others.
#[derive(Drop)]
pub enum Goto {
    To(Name),
    Among(Expr, Name, Vec<Name>),
}

/// A number, or a condition, in parentheses and a sequence symbol: the first operand of a computed AGO, or one of an AIF.
#[derive(Drop)]
pub struct Selector {
    pub tree: Expr,
    pub label: Name,
}

/// The sequence symbol behind the closing parenthesis of a number or condition.
fn labelled(sought: Sought, front: Front, operand: &str) -> Result<Selector, SyntaxFault>
    requires { IsFirstClosed sought (drop 1 (chars operand.now)) front.before (tree_of front.tree) }
    ensures { branches.IsChoiceRead sought (chars operand.now) result }
{
    let length = front.before.checked_add(2).ok_or(OutOfMemory)?;
    match sequence(behind(operand, length)) {
        Ok(label) => Ok(Selector {
            tree: front.tree,
            label,
        }),
        Err(fault) => Err(further(fault, length)),
    }
}

/// A number, or a condition, in parentheses and a sequence symbol; the first character is not looked at.
pub fn choice(alloc: Global, sought: Sought, operand: &str) -> Result<Selector, SyntaxFault>
    ensures { branches.IsChoiceRead sought (chars operand.now) result }
{
    let inner = behind(operand, 1);
    match begins_with_sought(alloc, sought, inner)? {
        Some(front) => labelled(sought, front, operand),
        None => Err(inner_fault(alloc, sought, inner)),
    }
}

/// Where a number or condition goes wrong that stands behind a parenthesis.
fn inner_fault(alloc: Global, sought: Sought, inner: &str) -> SyntaxFault
    ensures { branches.IsReachFault sought (chars inner.now) result }
{
    match reach(alloc, sought, inner) {
        Ok(inside) => fault_at(inside as usize, 1),
        Err(_) => SyntaxFault::OutOfMemory,
    }
}

/// The names of some sequence symbols.
fn labels(alloc: Global, operands: &[Text]) -> Result<Vec<Name>, SyntaxFault>
    ensures { MatchResult result (λ names. each sequences.sequence operands.now ≡ Ok names.items)
        (λ fault. Says (λ names. names) (each sequences.sequence operands.now) (Err fault)) }
{
    let mut names = Vec::new(alloc);
    for operand in operands {
        match sequence(operand.as_str()) {
            Ok(name) => push(&mut names, name)?,
            Err(fault) => return Err(fault),
        }
    }
    Ok(names)
}

/// Adds a name behind others.
fn push(names: &mut Vec<Name>, name: Name) -> Result<(), OutOfMemory>
    ensures { OnOk result (names.new.items ≡ names.old.items ++ name ∷ []) }
{
    names.push(name)?;
    Ok(())
}

/// The operands of a computed AGO.
fn among(alloc: Global, operands: &[Text]) -> Result<Goto, SyntaxFault>
    ensures { branches.IsAmong operands.now result }
{
    let [first, others @ ..] = operands else {
        return Err(SyntaxFault::At(0));
    };
    match choice(alloc, Sought::Number, first.as_str()) {
        Ok(choice) => match labels(alloc, others) {
            Ok(names) => Ok(Goto::Among(choice.tree, choice.label, names)),
            Err(fault) => Err(fault),
        },
        Err(fault) => Err(fault),
    }
}

/// Where the operand field of AGO branches to. `At` where it is wrong: in a computed AGO how many characters of the first
/// wrong operand some right one begins with, else how many of the field.
pub fn ago(alloc: Global, field: &str) -> Result<Goto, SyntaxFault>
    ensures { branches.IsGoto (chars field.now) result }
{
    if begins_with(field, '(') {
        let operands = split_operands(alloc, field)?;
        return among(alloc, operands.as_slice());
    }
    match sequence(field) {
        Ok(label) => Ok(Goto::To(label)),
        Err(fault) => Err(fault),
    }
}
