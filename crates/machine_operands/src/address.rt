//! Addresses.
ghost use Rattle.std.specs.Prelude.{◌≡◌, IfOk};
ghost use Rattle.std.specs.Str.{chars};
ghost use Rattle.constant_grammar.specs.Views.{tree_if};
ghost use Rattle.machine_operands.specs.Operands as spec;
ghost use Rattle.machine_operands.specs.Views.{displacement_of, parts_reading_of, written_of};

use crate::parts::{PartsReading, read_parts};
use crate::reading::{Reading, read_before, read_whole};
use crate::text::sum;
use crate::{Address, AddressForm, Displacement, Written};
use constant_grammar::Formula;
use hl_base::OutOfMemory;
use hlasm_statements::text::{behind, character_count, head};
use std::alloc::Global;

/// A displacement that is all of an operand.
fn bare(form: AddressForm, displacement: Displacement, text: &str) -> Result<Written, OutOfMemory>
    ensures { IfOk result (λ written. written_of written ≡ spec.bare form (displacement_of displacement) (chars text.now)) }
{
    if form.needs_parts() {
        return Ok(Written::Wrong(sum(0, character_count(text))?));
    }
    Ok(Written::Address(Address {
        displacement,
        first: None,
        base: None,
    }))
}

/// A displacement with what stands in parentheses.
fn with_parts(displacement: Displacement, parts: PartsReading) -> Written
    ensures { written_of result ≡ spec.with_parts (displacement_of displacement) (parts_reading_of parts) }
{
    match parts {
        PartsReading::Parts(parts) => Written::Address(Address {
            displacement,
            first: parts.first,
            base: parts.base,
        }),
        PartsReading::At(at) => Written::Wrong(at),
    }
}

/// A displacement that is an expression of so many characters, if it is one, before an opening parenthesis.
fn opened(
    alloc: Global,
    tree: Option<Formula>,
    form: AddressForm,
    at: u32,
    rest: &str,
) -> Result<Written, OutOfMemory>
    ensures { IfOk result (λ written. written_of written ≡ spec.opened (tree_if tree) form at (chars rest.now)) }
{
    match tree {
        Some(tree) => {
            let parts = read_parts(alloc, form, sum(at, 1)?, rest)?;
            Ok(with_parts(Displacement::Expression(tree), parts))
        }
        None => Ok(Written::Wrong(at)),
    }
}

/// What stands behind so many characters, where no expression goes on.
#[tactic(auto, unfolding(crate::specs::Operands::behind_expression))]
fn behind_expression(
    alloc: Global,
    form: AddressForm,
    text: &str,
    at: u32,
) -> Result<Written, OutOfMemory>
    ensures { IfOk result (λ written. written_of written ≡ spec.behind_expression form (chars text.now) at) }
{
    match head(behind(text, at as usize)) {
        Some((c, rest)) => {
            if c == '(' {
                let tree = read_before(alloc, text, at)?;
                return opened(alloc, tree, form, at, rest);
            }
            Ok(Written::Wrong(at))
        }
        None => Ok(Written::Wrong(at)),
    }
}

/// An address without literal.
#[tactic(auto, unfolding(crate::specs::Operands::plain_address))]
pub(crate) fn plain_address(
    alloc: Global,
    form: AddressForm,
    text: &str,
) -> Result<Written, OutOfMemory>
    ensures { IfOk result (λ written. written_of written ≡ spec.plain_address form (chars text.now)) }
{
    match read_whole(alloc, text)? {
        Reading::Tree(tree) => bare(form, Displacement::Expression(tree), text),
        Reading::At(at) => behind_expression(alloc, form, text, at),
    }
}

/// What stands behind a literal of so many characters.
fn open_literal(
    alloc: Global,
    form: AddressForm,
    count: u32,
    rest: &str,
) -> Result<Written, OutOfMemory>
    ensures { IfOk result (λ written. written_of written ≡ spec.open_literal form count (chars rest.now)) }
{
    let parts = read_parts(alloc, form, sum(count, 1)?, rest)?;
    Ok(with_parts(Displacement::Literal, parts))
}

/// An address that begins with a literal of so many characters, which is all of its operand or not.
pub(crate) fn behind_literal(
    alloc: Global,
    form: AddressForm,
    text: &str,
    count: u32,
    behind: &str,
) -> Result<Written, OutOfMemory>
    ensures { IfOk result (λ written. written_of written ≡ spec.behind_literal form (chars text.now) count (chars behind.now)) }
{
    match head(behind) {
        Some((c, rest)) => {
            if c == '(' {
                return open_literal(alloc, form, count, rest);
            }
            Ok(Written::Wrong(count))
        }
        None => bare(form, Displacement::Literal, text),
    }
}
