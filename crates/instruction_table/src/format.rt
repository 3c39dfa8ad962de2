//! The formats of machine instructions.
ghost use Rattle.std.specs.Prelude.{◌≡◌, take, drop};
ghost use Rattle.instruction_table.specs.Formats as formats;

use crate::rows::KINDS;
use crate::{Encoding, Kind};

/// The format of a machine instruction with what its operands are: a row of the table of formats.
#[derive(Clone, Copy, Debug, PartialEq, Eq)]
pub struct Format {
    pub(crate) encoding: Encoding,
    /// Where its first operand stands in `KINDS`.
    pub(crate) first: u16,
    /// How many operands it has.
    pub(crate) count: u8,
    /// How many of the last may be left out.
    pub(crate) optional: u8,
}

/// How an instruction of this format is laid out.
pub fn encoding(f: Format) -> Encoding
    ensures { result ≡ formats.encoding_of f }
{
    f.encoding
}

/// How many bytes an instruction of this format takes.
pub fn length(f: Format) -> u8
    ensures { result ≡ formats.length_of f }
{
    match f.encoding {
        Encoding::Rr | Encoding::I | Encoding::E => 2,
        Encoding::Rx
        | Encoding::Rs
        | Encoding::Rsi
        | Encoding::Si
        | Encoding::S
        | Encoding::Ri
        | Encoding::Rre
        | Encoding::Rrf
        | Encoding::Rrd
        | Encoding::Ie => 4,
        _ => 6,
    }
}

/// What the operands of an instruction of this format are, in order.
pub fn operands(f: Format) -> &'static [Kind]
    ensures { result.now ≡ formats.operands_of f }
{
    front(behind(&KINDS, f.first as usize), f.count as usize)
}

/// What stands behind so many kinds.
#[tactic(auto, using(crate::proofs::Parts::past))]
fn behind(kinds: &'static [Kind], count: usize) -> &'static [Kind]
    ensures { result.now ≡ drop count kinds.now }
{
    if count < kinds.len() {
        &kinds[count..]
    } else {
        &[]
    }
}

/// So many kinds, or all where there are no more.
#[tactic(auto, using(crate::proofs::Parts::all))]
fn front(kinds: &'static [Kind], count: usize) -> &'static [Kind]
    ensures { result.now ≡ take count kinds.now }
{
    if count < kinds.len() {
        &kinds[..count]
    } else {
        kinds
    }
}

/// How many of the last operands may be left out.
pub fn optional(f: Format) -> u8
    ensures { result ≡ formats.optional_of f }
{
    f.optional
}
