//! Displacements.
ghost use Rattle.std.specs.Prelude.{◌≡◌};
ghost use Rattle.operand_checks.specs.Coverage as coverage;
ghost use Rattle.operand_checks.specs.Displacements as spec;

use instruction_table::Kind;
use machine_check::Bounds;
use note_rows::Row;
use trace_values::{Reloc, SectionId};
use using_ranges::Ranges;

/// The displacements of a kind of address: 12 bits without sign, or 20 bits with sign.
pub(crate) fn displacements(kind: Kind) -> Bounds
    ensures { result ≡ spec.displacements kind }
{
    match kind {
        Kind::IndexedLong | Kind::BasedLong => Bounds {
            least: -524_288,
            greatest: 524_287,
        },
        _ => Bounds {
            least: 0,
            greatest: 4095,
        },
    }
}

/// What is said of a number as a displacement.
fn number_note(bounds: Bounds, number: i32) -> Option<Row>
    ensures { result ≡ spec.said_of_displacement bounds number }
{
    if bounds.contains(number) {
        return None;
    }
    Some(Row::BadDisplacement)
}

/// What is said of a displacement with a base.
fn explicit_note(bounds: Bounds, place: Reloc) -> Option<Row>
    ensures { result ≡ spec.said_of_explicit bounds place.section place.value }
{
    match place.section {
        Some(_) => Some(Row::NotSimple),
        None => number_note(bounds, place.value),
    }
}

/// Whether an address is a number that needs no base.
fn is_displacement(bounds: Bounds, section: Option<SectionId>, number: i32) -> bool
    ensures { result ≡ spec.is_displacement bounds section number }
{
    match section {
        Some(_) => false,
        None => bounds.contains(number),
    }
}

/// Whether a range has an address.
fn is_covered(ranges: &Ranges, section: Option<SectionId>, offset: i32) -> bool
    ensures { result ≡ coverage.is_covered ranges.now section offset }
{
    ranges.cover(section, offset).is_some()
}

/// What is said of an address without base.
fn implicit_note(ranges: &Ranges, bounds: Bounds, place: Reloc) -> Option<Row>
    ensures { result ≡ spec.said_of_implicit ranges.now bounds place.section place.value }
{
    if is_displacement(bounds, place.section, place.value)
        || is_covered(ranges, place.section, place.value)
    {
        return None;
    }
    Some(Row::NoUsingRange)
}

/// What is said of a displacement with a base or without.
pub(crate) fn displacement_note(
    ranges: &Ranges,
    bounds: Bounds,
    is_based: bool,
    place: Reloc,
) -> Option<Row>
    ensures { result ≡ spec.said_of_place ranges.now bounds is_based place }
{
    if is_based {
        return explicit_note(bounds, place);
    }
    implicit_note(ranges, bounds, place)
}
