//! The values of a constant (SC26-4940, "Nominal value").
ghost use Rattle.std.specs.Prelude.{◌≡◌, [], ◌∷◌, ◌++◌, false, map, IfOk, OnOk};
ghost use Rattle.std.specs.Str.{chars};
ghost use Rattle.std.specs.Option.{option_map};
ghost use Rattle.constant_grammar.specs.Nominals as nominals;
ghost use Rattle.constant_grammar.specs.Views.{element_of, nominal_of};

use crate::element::{Element, read_element};
use constant_table::ValueKind;
use hl_base::{OutOfMemory, Text};
use operand_list::hlasm_statements::text::{before, character_count, head};
use operand_list::split_sublist;
use std::alloc::Global;

/// The values of a constant: what stands between the apostrophes as it is written, or the elements in the parentheses.
#[derive(Drop)]
pub enum Nominal {
    Quoted(Text),
    Enclosed(Vec<Element>),
}

/// Whether values of this kind stand within parentheses; the others stand within apostrophes.
fn is_enclosed(kind: ValueKind) -> bool
    ensures { result ≡ nominals.is_enclosed kind }
{
    match kind {
        ValueKind::Expressions | ValueKind::Symbols | ValueKind::Addresses => true,
        ValueKind::Text
        | ValueKind::HexadecimalDigits
        | ValueKind::Bits
        | ValueKind::Decimals
        | ValueKind::Integers
        | ValueKind::Floats => false,
    }
}

/// Whether a text that stands behind an opening apostrophe ends with the closing one.
fn closes(text: &str) -> bool
    ensures { result ≡ nominals.closes false (chars text.now) }
{
    let mut left = text;
    let mut waits = false;
    while let Some((c, rest)) = head(left) {
        if waits && c != '\'' {
            return false;
        }
        waits = !waits && c == '\'';
        left = rest;
    }
    waits
}

/// What stands within the apostrophes behind the first of them.
fn quoted(alloc: Global, rest: &str) -> Result<Option<Text>, OutOfMemory>
    ensures { IfOk result (λ inner. inner ≡ nominals.quoted_inner (chars rest.now)) }
{
    if !closes(rest) {
        return Ok(None);
    }
    let count = character_count(rest).saturating_sub(1);
    Ok(Some(Text::of(alloc, before(rest, count))?))
}

/// Adds a value behind others.
fn push(values: &mut Vec<Element>, value: Element) -> Result<(), OutOfMemory>
    ensures { OnOk result (values.new.items ≡ values.old.items ++ value ∷ []) }
{
    values.push(value)?;
    Ok(())
}

/// The values of this kind that some texts are.
fn elements(
    alloc: Global,
    kind: ValueKind,
    texts: &[Text],
) -> Result<Option<Vec<Element>>, OutOfMemory>
    ensures { IfOk result (λ values. option_map (λ v. map element_of v.items) values ≡ nominals.all_elements kind texts.now) }
{
    let mut values = Vec::new(alloc);
    for text in texts {
        match read_element(alloc, kind, text)? {
            Some(value) => push(&mut values, value)?,
            None => return Ok(None),
        }
    }
    Ok(Some(values))
}

/// The values of this kind within parentheses.
fn enclosed(alloc: Global, kind: ValueKind, text: &str) -> Result<Option<Nominal>, OutOfMemory>
    ensures { IfOk result (λ nominal. option_map nominal_of nominal ≡ nominals.enclosed_value kind (chars text.now)) }
{
    match split_sublist(alloc, text)? {
        Some(texts) => match elements(alloc, kind, texts.as_slice())? {
            Some(values) => Ok(Some(Nominal::Enclosed(values))),
            None => Ok(None),
        },
        None => Ok(None),
    }
}

/// The values of this kind within apostrophes.
fn in_quotes(alloc: Global, text: &str) -> Result<Option<Nominal>, OutOfMemory>
    ensures { IfOk result (λ nominal. option_map nominal_of nominal ≡ nominals.quoted_value (chars text.now)) }
{
    match head(text) {
        Some(('\'', rest)) => match quoted(alloc, rest)? {
            Some(inner) => Ok(Some(Nominal::Quoted(inner))),
            None => Ok(None),
        },
        _ => Ok(None),
    }
}

/// The values of this kind that a text is.
pub(crate) fn read_nominal(
    alloc: Global,
    kind: ValueKind,
    text: &str,
) -> Result<Option<Nominal>, OutOfMemory>
    ensures { IfOk result (λ nominal. option_map nominal_of nominal ≡ nominals.nominal kind (chars text.now)) }
{
    if is_enclosed(kind) {
        return enclosed(alloc, kind, text);
    }
    in_quotes(alloc, text)
}
