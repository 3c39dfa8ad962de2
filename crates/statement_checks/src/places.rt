//! Where literals stand.
ghost use Rattle.std.specs.Prelude.{◌≡◌, [], ◌∷◌, ◌++◌, IfOk, OnOk};
ghost use Rattle.literal_places.specs.Shown.{literals_of};
ghost use Rattle.section_layout.specs.Places.{reloc_of, value_at};
ghost use Rattle.statement_checks.specs.Places as spec;

use hl_base::OutOfMemory;
use literal_places::{LiteralUse, Literals};
use section_table::Place;
use std::alloc::Global;
use trace_values::{Reloc, SectionId};

/// A place as a value. An `Err` comes where 32 bits do not count it.
fn reloc(place: Place) -> Result<Reloc, OutOfMemory>
    ensures { IfOk result (λ value. value ≡ reloc_of place) }
{
    let Ok(section) = u32::try_from(place.section) else {
        return Err(OutOfMemory);
    };
    let Ok(value) = i32::try_from(place.offset) else {
        return Err(OutOfMemory);
    };
    Ok(Reloc {
        section: Some(SectionId(section)),
        value,
    })
}

/// The value of a place, if there is one.
fn value_at(place: Option<Place>) -> Result<Option<Reloc>, OutOfMemory>
    ensures { IfOk result (λ value. value ≡ value_at place) }
{
    match place {
        Some(place) => Ok(Some(reloc(place)?)),
        None => Ok(None),
    }
}

/// Where a literal stands, if it was not refused and its pool has a place.
fn place_in(literals: &Literals, one: &Option<LiteralUse>) -> Result<Option<Reloc>, OutOfMemory>
    ensures { IfOk result (λ place. place ≡ spec.place_in (literals_of literals.now) one.now) }
{
    match one {
        Some(one) => value_at(literals.place(*one)),
        None => Ok(None),
    }
}

/// Adds a place behind others.
fn push(places: &mut Vec<Option<Reloc>>, place: Option<Reloc>) -> Result<(), OutOfMemory>
    ensures { OnOk result (places.new.items ≡ places.old.items ++ place ∷ []) }
{
    places.push(place)?;
    Ok(())
}

/// Where each of some literals stands.
pub(crate) fn places_in(
    alloc: Global,
    literals: &Literals,
    mut uses: &[Option<LiteralUse>],
) -> Result<Vec<Option<Reloc>>, OutOfMemory>
    ensures { IfOk result (λ places. places.items ≡ spec.places_in (literals_of literals.now) uses.entry.now) }
{
    let mut places = Vec::new(alloc);
    while let [one, rest @ ..] = uses {
        push(&mut places, place_in(literals, one)?)?;
        uses = rest;
    }
    Ok(places)
}
