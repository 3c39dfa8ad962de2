//! The index of the labels of a list: where a branch to each goes.
ghost use Rattle.std.specs.Prelude.{◌≡◌, ℕ, List, IfOk, OnOk, option_copied};
ghost use Rattle.std.specs.Map.{lookup};
ghost use Rattle.statement_listing.specs.Listings.{found_label};
ghost use Rattle.statement_listing.specs.Sources.{noted, noted_found, spells};

use hl_base::{Name, OutOfMemory};
use indexmap::IndexMap;
use std::alloc::Global;

/// A place in 32 bits.
pub(crate) fn number_of(place: usize) -> Result<u32, OutOfMemory>
    ensures { IfOk result (λ n. n ≡ place) }
{
    match u32::try_from(place) {
        Ok(number) => Ok(number),
        Err(_) => Err(OutOfMemory),
    }
}

/// Notes the place of a label, unless an earlier one has it.
fn note_label(
    places: &mut IndexMap<String, u32>,
    alloc: Global,
    label: &Name,
    place: usize,
) -> Result<(), OutOfMemory>
    ensures { OnOk result ((name : List ℕ) → lookup (spells name) places.new.entries ≡ noted (lookup (spells name) places.old.entries) name label.now place) }
{
    if places.get(label.text()).is_some() {
        return Ok(());
    }
    let key = String::from_str(alloc, label.text())?;
    let place = number_of(place)?;
    places.insert(key, place)?;
    Ok(())
}

/// The label by which a branch finds a statement, where so many definitions are begun before it.
pub(crate) fn found_label(begun: usize, label: &Option<Name>) -> Option<&Name>
    ensures { option_copied result ≡ found_label begun label.now }
{
    if begun == 0 {
        return label.as_ref();
    }
    None
}

/// Notes the place of a statement with this label, if it has one.
pub(crate) fn note_found(
    places: &mut IndexMap<String, u32>,
    alloc: Global,
    label: Option<&Name>,
    place: usize,
) -> Result<(), OutOfMemory>
    ensures { OnOk result ((name : List ℕ) → lookup (spells name) places.new.entries ≡ noted_found (lookup (spells name) places.old.entries) name (option_copied label.entry) place) }
{
    match label {
        Some(label) => note_label(places, alloc, label, place),
        None => Ok(()),
    }
}
