//! What operands come to.
ghost use Rattle.std.specs.Prelude.{◌≡◌};
ghost use Rattle.ordinary_symbols.specs.Shown.{table_of};
ghost use Rattle.ordinary_symbols.specs.Table.{known};
ghost use Rattle.using_statements.specs.Values as spec;
ghost use Rattle.using_statements.specs.Views.{bounds_of};

use crate::written::Bounds;
use ordinary_symbols::{EvalFault, Symbols};
use trace_values::{Reloc, SectionId};
use using_ranges::REGISTERS;

/// Where ranges begin, and where they end, if that is written.
#[derive(Clone, Copy, Debug, PartialEq, Eq)]
pub struct Span {
    pub base: Reloc,
    pub end: Option<i32>,
}

/// Whether two values stand in one section, or are both numbers.
fn are_together(section: Option<SectionId>, other: Option<SectionId>) -> bool
    ensures { result ≡ spec.are_together section other }
{
    match (section, other) {
        (None, None) => true,
        (Some(section), Some(other)) => section.0 == other.0,
        (None, Some(_)) | (Some(_), None) => false,
    }
}

/// Whether ranges with this base can have this end.
pub(crate) fn may_end(base: Reloc, end: Reloc) -> bool
    ensures { result ≡ spec.may_end base end }
{
    are_together(base.section, end.section) && base.value < end.value
}

/// What a base and the value of an end come to.
fn span_before(base: Reloc, end: &Result<Reloc, EvalFault>) -> Option<Span>
    ensures { result ≡ spec.span_before base end.now }
{
    match end {
        Ok(end) if may_end(base, *end) => Some(Span {
            base,
            end: Some(end.value),
        }),
        Ok(_) | Err(_) => None,
    }
}

/// What bounds come to, where they are in order.
pub(crate) fn span_of(symbols: &Symbols, here: Option<Reloc>, bounds: &Bounds) -> Option<Span>
    ensures { result ≡ spec.span_of (known (table_of symbols.now)) here (bounds_of bounds.now) }
{
    let Ok(base) = symbols.eval(&bounds.start.tree, here) else {
        return None;
    };
    match &bounds.end {
        Some(end) => span_before(base, &symbols.eval(&end.tree, here)),
        None => Some(Span { base, end: None }),
    }
}

/// The register that a number is, if it is one.
fn register_in(section: Option<SectionId>, number: i32) -> Option<u8>
    ensures { result ≡ spec.register_in section number }
{
    if section.is_some() || number < 0 || number >= REGISTERS as i32 {
        return None;
    }
    Some(number as u8)
}

/// The register that a value is, if it is one.
pub(crate) fn register_of(value: &Result<Reloc, EvalFault>) -> Option<u8>
    ensures { result ≡ spec.register_of value.now }
{
    match value {
        Ok(value) => register_in(value.section, value.value),
        Err(_) => None,
    }
}
