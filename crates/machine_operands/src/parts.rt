//! What stands in parentheses after a displacement.
ghost use Rattle.std.specs.Prelude.{◌≡◌, IfOk};
ghost use Rattle.std.specs.Str.{chars};
ghost use Rattle.constant_grammar.specs.Views.{tree_if, tree_in};
ghost use Rattle.machine_operands.specs.Parts as spec;
ghost use Rattle.machine_operands.specs.Views.{parts_of, parts_reading_of, reading_of};

use crate::AddressForm;
use crate::reading::{FrontReading, Reading, read_before, read_closed};
use crate::text::sum;
use constant_grammar::Formula;
use hl_base::OutOfMemory;
use hlasm_statements::text::{behind, character_count, head};
use std::alloc::Global;

/// An index, a length or a register in its place, and a base.
#[derive(Drop)]
pub(crate) struct AddressParts {
    pub(crate) first: Option<Formula>,
    pub(crate) base: Option<Formula>,
}

/// What is read of them, or how many characters can be read.
#[derive(Drop)]
pub(crate) enum PartsReading {
    Parts(AddressParts),
    At(u32),
}

/// An expression of so many characters, whose closing parenthesis is the last character of its text.
fn closed(count: u32, text: &str, tree: Formula, before: usize) -> Result<Reading, OutOfMemory>
    ensures { IfOk result (λ reading. reading_of reading ≡ spec.closed count (chars text.now) (record { tree = tree_in tree; before = before })) }
{
    let end = before.checked_add(1).ok_or(OutOfMemory)?;
    if end == character_count(text) {
        return Ok(Reading::Tree(tree));
    }
    Ok(Reading::At(sum(count, end)?))
}

/// The last expression.
#[tactic(auto, unfolding(crate::specs::Parts::last))]
fn last(alloc: Global, count: u32, text: &str) -> Result<Reading, OutOfMemory>
    ensures { IfOk result (λ reading. reading_of reading ≡ spec.last count (chars text.now)) }
{
    match read_closed(alloc, text)? {
        FrontReading::Tree(tree, before) => closed(count, text, tree, before),
        FrontReading::At(at) => Ok(Reading::At(sum(count, at as usize)?)),
    }
}

/// A base behind what stands before the comma.
fn with_base(first: Option<Formula>, base: Reading) -> PartsReading
    ensures { parts_reading_of result ≡ spec.with_base (tree_if first) (reading_of base) }
{
    match base {
        Reading::Tree(base) => PartsReading::Parts(AddressParts {
            first,
            base: Some(base),
        }),
        Reading::At(at) => PartsReading::At(at),
    }
}

/// What an only expression is.
fn only(form: AddressForm, tree: Formula) -> AddressParts
    ensures { parts_of result ≡ spec.only form (tree_in tree) }
{
    match form {
        AddressForm::Based => AddressParts {
            first: None,
            base: Some(tree),
        },
        AddressForm::Indexed | AddressForm::Counted => AddressParts {
            first: Some(tree),
            base: None,
        },
    }
}

/// The same of what was read.
fn alone(form: AddressForm, reading: Reading) -> PartsReading
    ensures { parts_reading_of result ≡ spec.alone form (reading_of reading) }
{
    match reading {
        Reading::Tree(tree) => PartsReading::Parts(only(form, tree)),
        Reading::At(at) => PartsReading::At(at),
    }
}

/// A base behind a comma, before which these characters stand.
fn with_first(
    alloc: Global,
    first: Option<Formula>,
    count: u32,
    at: u32,
    rest: &str,
) -> Result<PartsReading, OutOfMemory>
    ensures { IfOk result (λ parts. parts_reading_of parts ≡ spec.with_first (tree_if first) count at (chars rest.now)) }
{
    let end = sum(count, at as usize)?;
    match first {
        Some(first) => {
            let base = last(alloc, sum(end, 1)?, rest)?;
            Ok(with_base(Some(first), base))
        }
        None => Ok(PartsReading::At(end)),
    }
}

/// What stands behind so many characters, where no expression goes on.
#[tactic(auto, unfolding(crate::specs::Parts::two))]
fn two(
    alloc: Global,
    form: AddressForm,
    count: u32,
    text: &str,
    at: u32,
) -> Result<PartsReading, OutOfMemory>
    ensures { IfOk result (λ parts. parts_reading_of parts ≡ spec.two form count (chars text.now) at) }
{
    match head(behind(text, at as usize)) {
        Some((c, rest)) => {
            if c == ',' && form.has_two() {
                let first = read_before(alloc, text, at)?;
                return with_first(alloc, first, count, at, rest);
            }
            Ok(PartsReading::At(sum(count, at as usize)?))
        }
        None => Ok(PartsReading::At(sum(count, at as usize)?)),
    }
}

/// What begins with an expression.
#[tactic(auto, unfolding(crate::specs::Parts::given))]
fn given(
    alloc: Global,
    form: AddressForm,
    count: u32,
    text: &str,
) -> Result<PartsReading, OutOfMemory>
    ensures { IfOk result (λ parts. parts_reading_of parts ≡ spec.given form count (chars text.now)) }
{
    match read_closed(alloc, text)? {
        FrontReading::Tree(tree, before) => Ok(alone(form, closed(count, text, tree, before)?)),
        FrontReading::At(at) => two(alloc, form, count, text, at),
    }
}

/// What begins with a comma.
fn omitted(alloc: Global, count: u32, rest: &str) -> Result<PartsReading, OutOfMemory>
    ensures { IfOk result (λ parts. parts_reading_of parts ≡ spec.omitted count (chars rest.now)) }
{
    let base = last(alloc, sum(count, 1)?, rest)?;
    Ok(with_base(None, base))
}

/// What stands behind an opening parenthesis, which ends so many characters.
#[tactic(auto, unfolding(crate::specs::Parts::parts))]
pub(crate) fn read_parts(
    alloc: Global,
    form: AddressForm,
    count: u32,
    text: &str,
) -> Result<PartsReading, OutOfMemory>
    ensures { IfOk result (λ parts. parts_reading_of parts ≡ spec.parts form count (chars text.now)) }
{
    match head(text) {
        Some((c, rest)) => {
            if c == ',' && form.may_omit_first() {
                return omitted(alloc, count, rest);
            }
            given(alloc, form, count, text)
        }
        None => Ok(PartsReading::At(count)),
    }
}
