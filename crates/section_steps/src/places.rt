//! Places in the current section.
ghost use Rattle.std.specs.Prelude.{◌≡◌, ◌<◌, IfOk};
ghost use Rattle.section_table.specs.Shown.{table_of};
ghost use Rattle.section_table.specs.Tables as tables;
ghost use Rattle.section_steps.specs.Places as spec;

use hl_base::OutOfMemory;
use section_table::{Place, SectionTable};
use trace_values::{Reloc, SectionId};

/// A place as a value. An `Err` comes where 32 bits do not count it.
fn reloc(place: Place) -> Result<Reloc, OutOfMemory>
    ensures { IfOk result (λ value. value ≡ spec.reloc_of place) }
{
    let Ok(section) = u32::try_from(place.section) else {
        return Err(OutOfMemory);
    };
    let Ok(value) = i32::try_from(place.offset) else {
        return Err(OutOfMemory);
    };
    Ok(Reloc {
        section: Some(SectionId(section)),
        value,
    })
}

/// The value of a place, if there is one.
pub(crate) fn value_at(place: Option<Place>) -> Result<Option<Reloc>, OutOfMemory>
    ensures { IfOk result (λ value. value ≡ spec.value_at place) }
{
    match place {
        Some(place) => Ok(Some(reloc(place)?)),
        None => Ok(None),
    }
}

/// Where bytes stand that were to be taken, and whether they fit; where they do not, the place stays.
#[derive(Clone, Copy)]
pub(crate) struct Stand {
    pub(crate) place: Option<Place>,
    pub(crate) fits: bool,
}

/// Takes so many bytes on a boundary in the current section, if they fit.
pub(crate) fn take(sections: &mut SectionTable, boundary: u32, bytes: u64) -> Stand
    requires { 0 < boundary }
    ensures place { result.place ≡ spec.stand boundary bytes (table_of sections.old) }
    ensures fits { result.fits ≡ spec.fits boundary bytes (table_of sections.old) }
    ensures taken { table_of sections.new ≡ tables.taken boundary bytes (table_of sections.old) }
{
    let stays = sections.here();
    match sections.take(boundary, bytes) {
        Some(place) => Stand {
            place: Some(place),
            fits: true,
        },
        None => Stand {
            place: stays,
            fits: false,
        },
    }
}

/// How many bytes lie between two places.
pub(crate) fn bytes_between(from: Option<Place>, to: Option<Place>) -> u32
    ensures { result ≡ spec.bytes_between from to }
{
    match (from, to) {
        (Some(from), Some(to)) => to.offset.saturating_sub(from.offset),
        _ => 0,
    }
}
