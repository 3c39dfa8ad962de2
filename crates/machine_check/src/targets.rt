//! Relative targets.
ghost use Rattle.std.specs.Prelude.{◌≡◌};
ghost use Rattle.machine_check.specs.Targets as specs;

use note_rows::Row;
use trace_values::{Reloc, SectionId};

/// Whether two places are in one section.
fn share_section(one: Option<SectionId>, other: Option<SectionId>) -> bool
    ensures { result ≡ specs.share_section one other }
{
    match (one, other) {
        (Some(one), Some(other)) => one.0 == other.0,
        _ => false,
    }
}

/// Whether a place is odd.
fn is_odd(place: i32) -> bool
    ensures { result ≡ specs.is_odd place }
{
    place % 2 != 0
}

/// What is said of a target of an instruction here: of its place, or of why it has none.
pub fn target_note(here: Reloc, target: Result<Reloc, Row>) -> Option<Row>
    ensures { result ≡ specs.said_of_target here target }
{
    match target {
        Err(said) => Some(said),
        Ok(place) if share_section(place.section, here.section) && is_odd(place.value) => {
            Some(Row::OddTarget)
        }
        Ok(_) => None,
    }
}
