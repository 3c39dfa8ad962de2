//! How many bytes an operand takes, and where.
ghost use Rattle.std.specs.Prelude.{◌≡◌, ◌*◌, ◌<◌, IfOk};
ghost use Rattle.constant_grammar.specs.Views.{constant_of};
ghost use Rattle.constant_values.specs.Views.{values_of};
ghost use Rattle.constant_operands.specs.Room as spec;
ghost use Rattle.constant_operands.specs.Views.{operand_of};

use crate::ConstantOperand;
use crate::number::{Number, Numbers};
use constant_grammar::Constant;
use constant_values::{Values, boundary};
use hl_base::OutOfMemory;

/// So many bytes on a boundary. No byte only goes on to the boundary.
#[derive(Clone, Copy, Debug, PartialEq, Eq)]
pub struct Extent {
    pub boundary: u32,
    pub bytes: u64,
}

/// A number of bytes so many times, where it can be counted.
fn times(factor: u32, bytes: u64) -> Result<u64, OutOfMemory>
    ensures { IfOk result (λ product. product ≡ factor * bytes) }
{
    u64::from(factor).checked_mul(bytes).ok_or(OutOfMemory)
}

/// Where the values stand, so many times.
fn extent_by(
    factor: u32,
    explicit: Option<u32>,
    constant: &Constant,
    values: &Values,
) -> Result<Extent, OutOfMemory>
    ensures { IfOk result (λ extent. extent ≡ spec.extent_by factor explicit (constant_of constant.now) (values_of values.now)) }
{
    Ok(Extent {
        boundary: boundary(constant.kind, explicit.is_some()),
        bytes: times(factor, values.bytes(constant.kind, explicit)?)?,
    })
}

/// What the values take, with these numbers; nothing where one of the numbers is not known or out of its bounds.
pub(crate) fn extent_of(
    numbers: &Numbers,
    constant: &Constant,
    values: &Values,
) -> Result<Option<Extent>, OutOfMemory>
    ensures { IfOk result (λ extent. extent ≡ spec.extent_of numbers.now (constant_of constant.now) (values_of values.now)) }
{
    match numbers.factor {
        Number::Known(factor) => match numbers.explicit() {
            Some(explicit) => Ok(Some(extent_by(factor, explicit, constant, values)?)),
            None => Ok(None),
        },
        Number::Refused | Number::NoNumber | Number::Unknown => Ok(None),
    }
}

impl ConstantOperand {
    /// The boundary in bytes on which the operand stands as it is written, whatever its numbers come to; what was not read
    /// stands on any byte.
    pub fn boundary(&self) -> u32
        ensures boundary { result ≡ spec.boundary_of (operand_of self.now) }
        ensures some { 0 < result }
    {
        match &self.constant {
            Some(constant) => boundary(constant.kind, constant.length.is_some()),
            None => 1,
        }
    }
}
