//! What variable symbols are worth in expressions (SC26-4940, "Variable symbols", "Data attributes").
//!
//! Each call tells an outcome, as in `symbol`.
ghost use Rattle.std.specs.Prelude.{◌≡◌, List, [], ◌∷◌, None, pos, IfOk};
ghost use Rattle.hl_base.specs.declared.set.SetValue.TheVariants.{A};
ghost use Rattle.cond_expr.specs.Outcome.{Tells};
ghost use Rattle.hl_base.specs.declared.note.Note.{Note};
ghost use Rattle.cond_expr.specs.Terms as terms;
ghost use Rattle.cond_expr.specs.Variables as variables;

use crate::lookups::{Found, Lookups};
use crate::stop::Stop;
use crate::term::{element_count, term};
use crate::{symbol, trouble};
use expression_grammar::{Attribute, Reference};
use hl_base::{Name, Notes, OutOfMemory, SetValue, Text};
use operand_list::hlasm_statements::text::character_count;
use std::alloc::Global;

/// A number in decimal, with a minus sign below 0.
fn decimal(alloc: Global, number: i32) -> Result<Text, OutOfMemory>
    ensures { IfOk result (λ text. text ≡ variables.text_of (A number)) }
{
    let digits = format!(in alloc; "{number}")?;
    Text::of(alloc, digits.as_str())
}

/// A value as text.
pub fn text_of(alloc: Global, value: SetValue) -> Result<Text, OutOfMemory>
    ensures { IfOk result (λ text. text ≡ variables.text_of value) }
{
    match value {
        SetValue::A(number) => decimal(alloc, number),
        SetValue::B(bit) => decimal(alloc, i32::from(bit)),
        SetValue::C(text) => Ok(text),
    }
}

/// The text that a variable symbol stands for.
pub fn spelled(
    alloc: Global,
    name: &Name,
    found: Found,
    notes: &mut Notes,
) -> Result<Option<Text>, Stop>
    ensures { Tells (variables.spelled name.now found) notes.old notes.new result }
{
    match found {
        Found::Value(value) => Ok(Some(text_of(alloc, value)?)),
        Found::Parameter(text) => Ok(Some(text)),
        Found::Fault(code) => {
            notes.push(trouble::fault(alloc, code, name)?)?;
            Ok(None)
        }
        Found::Ask(key) => Err(Stop::Asked(key)),
    }
}

/// What a variable symbol is worth in a text.
pub fn text_found(alloc: Global, name: &Name, found: Found, notes: &mut Notes) -> Result<Text, Stop>
    ensures { Tells (variables.text_found name.now found) notes.old notes.new result }
{
    match spelled(alloc, name, found, notes)? {
        Some(text) => Ok(text),
        None => Ok(Text::new(alloc)),
    }
}

/// K' of a variable symbol.
pub fn count_found(alloc: Global, name: &Name, found: Found, notes: &mut Notes) -> Result<i32, Stop>
    ensures { Tells (variables.count_found name.now found) notes.old notes.new result }
{
    match spelled(alloc, name, found, notes)? {
        Some(text) => symbol::counted(alloc, character_count(text.as_str()), notes),
        None => Ok(0),
    }
}

/// L' of a variable symbol.
pub fn length_found<Q: Lookups>(
    alloc: Global,
    name: &Name,
    found: Found,
    q: &Q,
    notes: &mut Notes,
) -> Result<i32, Stop>
    ensures { Tells (variables.length_found (Q.told q.now) name.now found) notes.old notes.new result }
{
    match spelled(alloc, name, found, notes)? {
        Some(text) => symbol::length_of_text(alloc, &text, q, notes),
        None => Ok(1),
    }
}

/// D' of a variable symbol.
pub fn defined_found<Q: Lookups>(
    alloc: Global,
    name: &Name,
    found: Found,
    q: &Q,
    notes: &mut Notes,
) -> Result<i32, Stop>
    ensures { Tells (variables.defined_found (Q.told q.now) name.now found) notes.old notes.new result }
{
    match spelled(alloc, name, found, notes)? {
        Some(text) => symbol::defined_of_text(&text, q),
        None => Ok(0),
    }
}

/// A variable symbol within a quoted text.
pub fn text_of_variable<Q: Lookups>(
    alloc: Global,
    name: &Name,
    subscripts: &[i32],
    q: &Q,
    notes: &mut Notes,
) -> Result<Text, Stop>
    ensures { Tells (variables.text_of_variable (Q.told q.now) name.now subscripts.now) notes.old notes.new result }
{
    let found = q.variable(alloc, name, subscripts)?;
    text_found(alloc, name, found, notes)
}

/// A bit as a number.
pub(crate) fn bit(one: bool) -> i32
    ensures { result ≡ variables.bit one }
{
    if one { 1 } else { 0 }
}

/// The number of the text of a variable symbol: that of a self-defining term, or 0 with a note.
fn number_of_text(alloc: Global, name: &Name, text: &Text, notes: &mut Notes) -> Result<i32, Stop>
    ensures { Tells (variables.number_of_text name.now (terms.term text.now)) notes.old notes.new result }
{
    match term(alloc, text)? {
        Some(number) => Ok(number),
        None => {
            notes.push(trouble::no_number(alloc, name)?)?;
            Ok(0)
        }
    }
}

/// The number of a value.
fn number_of_value(
    alloc: Global,
    name: &Name,
    value: SetValue,
    notes: &mut Notes,
) -> Result<i32, Stop>
    ensures { Tells (variables.number_of_value name.now value) notes.old notes.new result }
{
    match value {
        SetValue::A(number) => Ok(number),
        SetValue::B(one) => Ok(bit(one)),
        SetValue::C(text) => number_of_text(alloc, name, &text, notes),
    }
}

/// What a variable symbol is worth as a number: 0 where it stands for nothing, with its note alone.
pub fn number_found(
    alloc: Global,
    name: &Name,
    found: Found,
    notes: &mut Notes,
) -> Result<i32, Stop>
    ensures { Tells (variables.number_found name.now found) notes.old notes.new result }
{
    match found {
        Found::Value(value) => number_of_value(alloc, name, value, notes),
        Found::Parameter(text) => number_of_text(alloc, name, &text, notes),
        Found::Fault(code) => {
            notes.push(trouble::fault(alloc, code, name)?)?;
            Ok(0)
        }
        Found::Ask(key) => Err(Stop::Asked(key)),
    }
}

/// N' of a variable symbol.
pub fn elements_found(
    alloc: Global,
    name: &Name,
    found: Found,
    notes: &mut Notes,
) -> Result<i32, Stop>
    ensures { Tells (variables.elements_found name.now found) notes.old notes.new result }
{
    match spelled(alloc, name, found, notes)? {
        Some(text) => symbol::counted(alloc, element_count(alloc, &text)?, notes),
        None => Ok(0),
    }
}

/// Whether a name with these subscripts is all of the operands of a macro call: `&SYSLIST` without a subscript.
fn is_operand_list(name: &Name, subscripts: &[i32]) -> bool
    ensures { result ≡ variables.is_operand_list name.now subscripts.now }
{
    subscripts.is_empty() && name.text() == "SYSLIST"
}

/// N' of `&SYSLIST` without a subscript: the positional operands, where its element 0 is the name entry of a call.
fn operand_count<Q: Lookups>(
    alloc: Global,
    name: &Name,
    q: &Q,
    notes: &mut Notes,
) -> Result<i32, Stop>
    ensures { Tells (variables.operands_found (Q.told q.now) name.now ((Q.told q.now).variable name.now (pos 0 ∷ []))) notes.old notes.new result }
{
    match q.variable(alloc, name, &[0])? {
        Found::Parameter(_) => symbol::counted(alloc, q.positionals() as usize, notes),
        Found::Ask(key) => Err(Stop::Asked(key)),
        Found::Value(_) | Found::Fault(_) => {
            let found = q.variable(alloc, name, &[])?;
            elements_found(alloc, name, found, notes)
        }
    }
}

/// N' of a variable symbol with these subscripts.
fn elements_of_variable<Q: Lookups>(
    alloc: Global,
    name: &Name,
    subscripts: &[i32],
    q: &Q,
    notes: &mut Notes,
) -> Result<i32, Stop>
    ensures { Tells (variables.elements_of_variable (Q.told q.now) name.now subscripts.now) notes.old notes.new result }
{
    if is_operand_list(name, subscripts) {
        return operand_count(alloc, name, q, notes);
    }
    let found = q.variable(alloc, name, subscripts)?;
    elements_found(alloc, name, found, notes)
}

/// T' of a text that is no self-defining term and not empty.
fn type_of_name<Q: Lookups>(alloc: Global, text: &Text, q: &Q) -> Result<Text, Stop>
    ensures { (notes : List Note) → Tells (variables.type_unless_term (Q.told q.now) text.now None) notes notes result }
{
    match Name::read(text.as_str()) {
        Some(name) => symbol::type_of(alloc, &name, q),
        None => Ok(symbol::letter(alloc, b'U')?),
    }
}

/// T' of a text.
pub fn type_of_text<Q: Lookups>(alloc: Global, text: &Text, q: &Q) -> Result<Text, Stop>
    ensures { (notes : List Note) → Tells (variables.type_of_text (Q.told q.now) text.now) notes notes result }
{
    if text.is_empty() {
        return Ok(symbol::letter(alloc, b'O')?);
    }
    match term(alloc, text)? {
        Some(_) => Ok(symbol::letter(alloc, b'N')?),
        None => type_of_name(alloc, text, q),
    }
}

/// T' of a variable symbol.
pub fn type_found<Q: Lookups>(
    alloc: Global,
    name: &Name,
    found: Found,
    q: &Q,
    notes: &mut Notes,
) -> Result<Text, Stop>
    ensures { Tells (variables.type_found (Q.told q.now) name.now found) notes.old notes.new result }
{
    match spelled(alloc, name, found, notes)? {
        Some(text) => type_of_text(alloc, &text, q),
        None => Ok(symbol::letter(alloc, b'O')?),
    }
}

/// T' of a variable symbol with these subscripts.
pub fn type_of_variable<Q: Lookups>(
    alloc: Global,
    name: &Name,
    subscripts: &[i32],
    q: &Q,
    notes: &mut Notes,
) -> Result<Text, Stop>
    ensures { Tells (variables.type_of_variable (Q.told q.now) name.now subscripts.now) notes.old notes.new result }
{
    let found = q.variable(alloc, name, subscripts)?;
    type_found(alloc, name, found, q, notes)
}

/// What is asked of a variable symbol with these subscripts, where it is a number.
pub fn number_of_variable<Q: Lookups>(
    alloc: Global,
    asked: Reference,
    name: &Name,
    subscripts: &[i32],
    q: &Q,
    notes: &mut Notes,
) -> Result<i32, Stop>
    ensures { Tells (variables.number_of_variable (Q.told q.now) asked name.now subscripts.now) notes.old notes.new result }
{
    match asked {
        Reference::Of(Attribute::Number) => {
            elements_of_variable(alloc, name, subscripts, q, notes)
        }
        Reference::Of(Attribute::Type) => Ok(0),
        Reference::Value => {
            let found = q.variable(alloc, name, subscripts)?;
            number_found(alloc, name, found, notes)
        }
        Reference::Of(Attribute::Count) => {
            let found = q.variable(alloc, name, subscripts)?;
            count_found(alloc, name, found, notes)
        }
        Reference::Of(Attribute::Length) => {
            let found = q.variable(alloc, name, subscripts)?;
            length_found(alloc, name, found, q, notes)
        }
        Reference::Of(Attribute::Defined) => {
            let found = q.variable(alloc, name, subscripts)?;
            defined_found(alloc, name, found, q, notes)
        }
    }
}

/// What is asked of an ordinary symbol, where it is a number.
pub fn number_of_symbol<Q: Lookups>(
    alloc: Global,
    asked: Reference,
    name: &Name,
    q: &Q,
    notes: &mut Notes,
) -> Result<i32, Stop>
    ensures { Tells (variables.number_of_symbol (Q.told q.now) asked name.now) notes.old notes.new result }
{
    match asked {
        Reference::Of(Attribute::Length) => symbol::length_of(alloc, name, q, notes),
        Reference::Of(Attribute::Defined) => symbol::defined_of(name, q),
        Reference::Value
        | Reference::Of(Attribute::Count)
        | Reference::Of(Attribute::Number)
        | Reference::Of(Attribute::Type) => Ok(0),
    }
}

/// What is asked of a variable symbol with these subscripts, where it is a text: T' alone.
pub fn asked_text_of_variable<Q: Lookups>(
    alloc: Global,
    asked: Reference,
    name: &Name,
    subscripts: &[i32],
    q: &Q,
    notes: &mut Notes,
) -> Result<Text, Stop>
    ensures { Tells (variables.asked_text_of_variable (Q.told q.now) asked name.now subscripts.now) notes.old notes.new result }
{
    match asked {
        Reference::Of(Attribute::Type) => type_of_variable(alloc, name, subscripts, q, notes),
        Reference::Value
        | Reference::Of(Attribute::Count)
        | Reference::Of(Attribute::Number)
        | Reference::Of(Attribute::Length)
        | Reference::Of(Attribute::Defined) => Ok(Text::new(alloc)),
    }
}

/// What is asked of an ordinary symbol, where it is a text: T' alone.
pub fn asked_text_of_symbol<Q: Lookups>(
    alloc: Global,
    asked: Reference,
    name: &Name,
    q: &Q,
) -> Result<Text, Stop>
    ensures { (notes : List Note) → Tells (variables.asked_text_of_symbol (Q.told q.now) asked name.now) notes notes result }
{
    match asked {
        Reference::Of(Attribute::Type) => symbol::type_of(alloc, name, q),
        Reference::Value
        | Reference::Of(Attribute::Count)
        | Reference::Of(Attribute::Number)
        | Reference::Of(Attribute::Length)
        | Reference::Of(Attribute::Defined) => Ok(Text::new(alloc)),
    }
}
