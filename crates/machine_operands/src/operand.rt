//! Operands.
ghost use Rattle.std.specs.Prelude.{◌≡◌, ◌&&◌, None, IfOk, IfSome};
ghost use Rattle.std.specs.Option.{option_map};
ghost use Rattle.std.specs.Str.{chars};
ghost use Rattle.constant_operands.specs.Views.{operand_of};
ghost use Rattle.expression_grammar.specs.Views.{tree_of};
ghost use Rattle.literal_operands.specs.Views.{literal_of};
ghost use Rattle.machine_operands.specs.Operands as spec;
ghost use Rattle.machine_operands.specs.Views.{machine_operand_of, written_of};

use crate::address::{behind_literal, plain_address};
use crate::reading::{Reading, read_whole};
use crate::text::sum;
use crate::{OperandForm, form_of};
use constant_grammar::Formula;
use constant_operands::ConstantOperand;
use expression_grammar::Expr;
use hl_base::OutOfMemory;
use hlasm_statements::text::{character_count, head};
use instruction_table::Kind;
use literal_operands::{LiteralOperand, literal_operand};
use plain_terms::sole_term;
use std::alloc::Global;

/// The displacement of an address.
#[derive(Drop)]
pub enum Displacement {
    Expression(Formula),
    /// The literal with which the operand begins.
    Literal,
}

/// An address: its displacement, what stands for an index or a length, and its base.
#[derive(Drop)]
pub struct Address {
    pub displacement: Displacement,
    pub first: Option<Formula>,
    pub base: Option<Formula>,
}

/// What is read of an operand.
#[derive(Drop)]
pub enum Written {
    /// The expression of a value or a target.
    Value(Formula),
    Address(Address),
    /// A literal as a target.
    LiteralTarget,
    /// It begins as a literal and is none.
    NoLiteral,
    /// It cannot be read: a right operand of its kind begins with so many of its characters, and with no more.
    Wrong(u32),
}

/// An operand of a machine instruction, and the literal with which it begins, if one may stand there. Few operands have one, so it
/// stands apart.
#[derive(Drop)]
pub struct MachineOperand {
    pub literal: Option<Box<ConstantOperand>>,
    pub written: Written,
}

/// An expression alone.
#[tactic(auto, unfolding(crate::specs::Operands::plain_value))]
fn plain_value(alloc: Global, text: &str) -> Result<Written, OutOfMemory>
    ensures { IfOk result (λ written. written_of written ≡ spec.plain_value (chars text.now)) }
{
    match read_whole(alloc, text)? {
        Reading::Tree(tree) => Ok(Written::Value(tree)),
        Reading::At(at) => Ok(Written::Wrong(at)),
    }
}

/// An operand without literal.
fn plain(alloc: Global, form: OperandForm, text: &str) -> Result<Written, OutOfMemory>
    ensures { IfOk result (λ written. written_of written ≡ spec.plain form (chars text.now)) }
{
    match form {
        OperandForm::Value | OperandForm::Target => plain_value(alloc, text),
        OperandForm::Address(form) => plain_address(alloc, form, text),
    }
}

/// A literal of so many characters as a target.
fn target_literal(count: u32, behind: &str) -> Written
    ensures { written_of result ≡ spec.target_literal count (chars behind.now) }
{
    match head(behind) {
        Some(_) => Written::Wrong(count),
        None => Written::LiteralTarget,
    }
}

/// A literal of so many characters that was read.
fn literal_as(
    alloc: Global,
    form: OperandForm,
    text: &str,
    count: u32,
    behind: &str,
) -> Result<Written, OutOfMemory>
    ensures { IfOk result (λ written. written_of written ≡ spec.literal_as form (chars text.now) count (chars behind.now)) }
{
    match form {
        OperandForm::Value => Ok(Written::Wrong(0)),
        OperandForm::Target => Ok(target_literal(count, behind)),
        OperandForm::Address(form) => behind_literal(alloc, form, text, count, behind),
    }
}

/// The same of one that was read or not.
fn literal_written(
    alloc: Global,
    form: OperandForm,
    constant: &ConstantOperand,
    text: &str,
    literal: &str,
    behind: &str,
) -> Result<Written, OutOfMemory>
    ensures { IfOk result (λ written. written_of written ≡ spec.literal_written form (operand_of constant.now).constant (chars text.now) (chars literal.now) (chars behind.now)) }
{
    match &constant.constant {
        Some(_) => {
            let count = sum(1, character_count(literal))?;
            literal_as(alloc, form, text, count, behind)
        }
        None => Ok(Written::NoLiteral),
    }
}

/// An operand that begins with a literal, which is this constant.
fn with_literal(
    alloc: Global,
    form: OperandForm,
    text: &str,
    literal: &str,
    constant: ConstantOperand,
    behind: &str,
) -> Result<MachineOperand, OutOfMemory>
    ensures { IfOk result (λ operand. machine_operand_of operand
        ≡ spec.with_literal form (chars text.now) (record { text = chars literal.now; constant = operand_of constant; behind = chars behind.now })) }
{
    let written = literal_written(alloc, form, &constant, text, literal, behind)?;
    Ok(MachineOperand {
        literal: Some(Box::new(alloc, constant)?),
        written,
    })
}

/// Whether a literal may stand in an operand, of an instruction that lets literals be targets or not.
fn takes_literal(form: OperandForm, targets: bool) -> bool
    ensures { result ≡ spec.takes_literal form targets }
{
    match form {
        OperandForm::Value => false,
        OperandForm::Target => targets,
        OperandForm::Address(_) => true,
    }
}

/// Whether an operand begins with an equals sign, so that it has a literal.
pub fn begins_literal(text: &str) -> bool
    ensures { result ≡ spec.begins_literal (chars text.now) }
{
    matches!(head(text), Some(('=', _)))
}

/// Whether an operand of a form may be an expression alone.
fn may_be_alone(form: OperandForm) -> bool
    ensures { result ≡ spec.may_be_alone form }
{
    match form {
        OperandForm::Value | OperandForm::Target => true,
        OperandForm::Address(form) => !form.needs_parts(),
    }
}

/// The expression that is all of an operand of a kind, where it is `*`, a symbol, a decimal or a hexadecimal number, or a character.
/// Most operands are such a term, and need nothing of what else an operand may be.
pub fn read_term(kind: Kind, text: &str) -> Option<Expr>
    ensures { IfSome result (λ tree. spec.IsAlone kind (chars text.now) (tree_of tree)) }
{
    if begins_literal(text) || !may_be_alone(form_of(kind)) {
        return None;
    }
    sole_term(text)
}

/// The literal in an operand, if one may stand there.
fn literal_if(
    alloc: Global,
    takes: bool,
    text: &str,
) -> Result<Option<LiteralOperand<'_>>, OutOfMemory>
    ensures { IfOk result (λ found. option_map literal_of found ≡ spec.literal_if takes (chars text.now)) }
{
    if takes {
        return literal_operand(alloc, text);
    }
    Ok(None)
}

/// An operand of a form that begins with a literal or not.
fn read_either(
    alloc: Global,
    form: OperandForm,
    targets: bool,
    text: &str,
) -> Result<MachineOperand, OutOfMemory>
    ensures { IfOk result (λ operand. machine_operand_of operand ≡ spec.operand_of_form form targets (chars text.now)) }
{
    match literal_if(alloc, takes_literal(form, targets), text)? {
        Some(found) => { with_literal(alloc, form, text, found.text, found.constant, found.behind) }
        None => Ok(MachineOperand {
            literal: None,
            written: plain(alloc, form, text)?,
        }),
    }
}

/// Whether an operand of a form begins with an equals sign where a literal may stand.
fn has_literal(form: OperandForm, targets: bool, text: &str) -> bool
    ensures { result ≡ (spec.takes_literal form targets && spec.begins_literal (chars text.now)) }
{
    takes_literal(form, targets) && begins_literal(text)
}

/// An operand of a form without literal.
fn read_plain(alloc: Global, form: OperandForm, text: &str) -> Result<MachineOperand, OutOfMemory>
    ensures { IfOk result (λ operand. machine_operand_of operand ≡ spec.operand_by form (chars text.now) None) }
{
    let written = plain(alloc, form, text)?;
    Ok(MachineOperand {
        literal: None,
        written,
    })
}

/// An operand of a form.
#[tactic(auto, using(crate::proofs::LiteralLaws::without_literal))]
fn read_form(
    alloc: Global,
    form: OperandForm,
    targets: bool,
    text: &str,
) -> Result<MachineOperand, OutOfMemory>
    ensures { IfOk result (λ operand. machine_operand_of operand ≡ spec.operand_of_form form targets (chars text.now)) }
{
    if has_literal(form, targets, text) {
        return read_either(alloc, form, targets, text);
    }
    read_plain(alloc, form, text)
}

impl MachineOperand {
    /// Reads an operand of a kind. Literals may be targets or not, as its instruction lets them.
    #[tactic(auto, unfolding(crate::specs::Operands::operand))]
    pub fn read(
        alloc: Global,
        kind: Kind,
        targets: bool,
        text: &str,
    ) -> Result<MachineOperand, OutOfMemory>
        ensures { IfOk result (λ operand. machine_operand_of operand ≡ spec.operand kind targets (chars text.now)) }
    {
        read_form(alloc, form_of(kind), targets, text)
    }
}
