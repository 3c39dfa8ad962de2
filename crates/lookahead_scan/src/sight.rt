//! What a statement is to a look ahead.
ghost use Rattle.std.specs.Prelude.{◌≡◌, IfOk, encode_utf8_all};
ghost use Rattle.hl_base.specs.Symbols.{symbol_of};
ghost use Rattle.lookahead_scan.specs.Sights as sights;

use hl_base::{Attr, Name, OutOfMemory, Text};
use hlasm_statements::Statement;
use std::alloc::Global;
use symbol_attributes::{OpMeaning, attributes, defines};

/// A label, and what it means to attribute references.
#[derive(Drop)]
pub struct Label {
    pub name: Name,
    pub attr: Attr,
}

/// What a statement is to a look ahead.
#[derive(Drop)]
pub enum Sight {
    /// Nothing that it looks for.
    Passed,
    /// A label that may be sought.
    Labelled(Label),
    /// END, with its label.
    Ended(Option<Label>),
    /// COPY of a member.
    Copied(Name),
}

/// What the operation of a statement does to a look ahead.
#[derive(Clone, Copy, Debug, PartialEq, Eq)]
pub enum Role {
    /// MACRO: a definition begins.
    Opens,
    /// MEND: a definition ends.
    Closes,
    /// COPY.
    Copies,
    /// END.
    Ends,
    /// Any other.
    Stands,
}

/// What an operation of this name does.
fn role_named(name: &str) -> Role
    ensures { result ≡ sights.role_named name.now }
{
    match name {
        "MACRO" => Role::Opens,
        "MEND" => Role::Closes,
        "COPY" => Role::Copies,
        "END" => Role::Ends,
        _ => Role::Stands,
    }
}

/// What an operation does, as it is written.
pub(crate) fn role_of(op: &Text) -> Role
    ensures { result ≡ sights.role_of op.now }
{
    match Name::read(op.as_str()) {
        Some(name) => role_named(name.text()),
        None => Role::Stands,
    }
}

/// What an operation means, as it is written: one with variable symbols is none that is built in.
fn meaning_of(op: &Text) -> OpMeaning
    ensures { result ≡ sights.meaning_of op.now }
{
    match Name::read(op.as_str()) {
        Some(name) => OpMeaning::built_in(&name),
        None => OpMeaning::Other,
    }
}

/// Whether a label on an operation is found: where it defines a symbol, or the operation is none that is built in.
fn is_found(op: &OpMeaning) -> bool
    ensures { result ≡ sights.is_found op.now }
{
    match op {
        OpMeaning::Other => true,
        _ => defines(op),
    }
}

/// A label of this name on the operation of a statement, if it is found there.
fn label_named(
    alloc: Global,
    name: Name,
    statement: &Statement,
) -> Result<Option<Label>, OutOfMemory>
    ensures { IfOk result (λ label. label ≡ sights.label_named name statement.now) }
{
    let meaning = meaning_of(&statement.op);
    if !is_found(&meaning) {
        return Ok(None);
    }
    let attr = attributes(alloc, &meaning, statement.operands.as_str())?;
    Ok(Some(Label { name, attr }))
}

/// The label of a statement, if it is found there. A label that stands alone has no operation, and is not.
fn label_of(alloc: Global, statement: &Statement) -> Result<Option<Label>, OutOfMemory>
    ensures { IfOk result (λ label. label ≡ sights.label_of statement.now) }
{
    if statement.op.is_empty() {
        return Ok(None);
    }
    match Name::read(statement.label.as_str()) {
        Some(name) => label_named(alloc, name, statement),
        None => Ok(None),
    }
}

/// The member that a COPY names, as it is written.
fn copied(operands: &Text) -> Sight
    ensures { result ≡ sights.copied operands.now }
{
    match Name::read(operands.as_str()) {
        Some(name) => Sight::Copied(name),
        None => Sight::Passed,
    }
}

/// What a statement is that stands in no definition and has this role.
pub(crate) fn sight_of(
    alloc: Global,
    role: Role,
    statement: &Statement,
) -> Result<Sight, OutOfMemory>
    ensures { IfOk result (λ sight. sight ≡ sights.sight role statement.now) }
{
    match role {
        Role::Opens | Role::Closes => Ok(Sight::Passed),
        Role::Copies => Ok(copied(&statement.operands)),
        Role::Ends => Ok(Sight::Ended(label_of(alloc, statement)?)),
        Role::Stands => match label_of(alloc, statement)? {
            Some(label) => Ok(Sight::Labelled(label)),
            None => Ok(Sight::Passed),
        },
    }
}
