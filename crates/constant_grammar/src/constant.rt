//! Operands of DC and DS.
ghost use Rattle.std.specs.Prelude.{◌≡◌, Some, IfOk};
ghost use Rattle.std.specs.Str.{chars};
ghost use Rattle.std.specs.Option.{option_map};
ghost use Rattle.constant_grammar.specs.Constants as constants;
ghost use Rattle.constant_grammar.specs.Views.{constant_of, optional_amount_of, optional_nominal_of, optional_of};

use crate::amount::{Amount, OptionalAmount, behind_amount, explicit_length, factor};
use crate::letters::{Spelled, type_front};
use crate::nominal::{Nominal, read_nominal};
use constant_table::ConstantType;
use hl_base::OutOfMemory;
use operand_list::hlasm_statements::text::{behind, head};
use std::alloc::Global;

/// An operand of DC or DS, or of a literal behind its equals sign, as it is written. What is left away is `None`.
#[derive(Drop)]
pub struct Constant {
    pub factor: Option<Amount>,
    pub kind: ConstantType,
    pub length: Option<Amount>,
    pub nominal: Option<Nominal>,
}

/// The values that a text is, if it has any; the inner one is `None` where the text is empty.
fn values(
    alloc: Global,
    kind: ConstantType,
    text: &str,
) -> Result<Option<Option<Nominal>>, OutOfMemory>
    ensures { IfOk result (λ found. option_map optional_nominal_of found ≡ constants.values kind (chars text.now)) }
{
    if head(text).is_none() {
        return Ok(Some(None));
    }
    match read_nominal(alloc, kind.kind(), text)? {
        Some(nominal) => Ok(Some(Some(nominal))),
        None => Ok(None),
    }
}

/// A constant with this factor and this explicit length, which stands behind the type.
fn with_length(
    alloc: Global,
    factor: Option<Amount>,
    kind: ConstantType,
    length: OptionalAmount,
    text: &str,
) -> Result<Option<Constant>, OutOfMemory>
    ensures { IfOk result (λ constant. option_map constant_of constant ≡ constants.with_length (optional_amount_of factor) kind (Some (optional_of length)) (chars text.now)) }
{
    match values(alloc, kind, behind_amount(text, &length))? {
        Some(nominal) => Ok(Some(Constant {
            factor,
            kind,
            length: length.amount,
            nominal,
        })),
        None => Ok(None),
    }
}

/// What stands behind the type, of a constant with this factor.
fn behind_type(
    alloc: Global,
    factor: Option<Amount>,
    kind: ConstantType,
    text: &str,
) -> Result<Option<Constant>, OutOfMemory>
    ensures { IfOk result (λ constant. option_map constant_of constant ≡ constants.behind_type (optional_amount_of factor) kind (chars text.now)) }
{
    match explicit_length(alloc, text)? {
        Some(length) => with_length(alloc, factor, kind, length, text),
        None => Ok(None),
    }
}

/// What stands behind the duplication factor.
fn behind_factor(
    alloc: Global,
    factor: Option<Amount>,
    text: &str,
) -> Result<Option<Constant>, OutOfMemory>
    ensures { IfOk result (λ constant. option_map constant_of constant ≡ constants.behind_factor (optional_amount_of factor) (chars text.now)) }
{
    match type_front(text) {
        Some(Spelled { kind, count }) => behind_type(alloc, factor, kind, behind(text, count)),
        None => Ok(None),
    }
}

impl Constant {
    /// Reads an operand; `None` exactly where it is not written as a constant is.
    pub fn read(alloc: Global, text: &str) -> Result<Option<Constant>, OutOfMemory>
        ensures { IfOk result (λ constant. option_map constant_of constant ≡ constants.constant (chars text.now)) }
    {
        match factor(alloc, text)? {
            Some(factor) => {
                let rest = behind_amount(text, &factor);
                behind_factor(alloc, factor.amount, rest)
            }
            None => Ok(None),
        }
    }
}
