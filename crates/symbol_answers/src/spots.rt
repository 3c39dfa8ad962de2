//! Occurrences as the client is shown them.
ghost use Rattle.std.specs.Prelude.{◌≡◌, ◌++◌, ◌∷◌, [], IfOk, OnOk, map, if◌then◌else◌};
ghost use Rattle.std.specs.Option.{option_copied};
ghost use Rattle.symbol_answers.specs.Answers as answers;
ghost use Rattle.symbol_answers.specs.Seen.{all_seen};
ghost use Rattle.symbol_answers.specs.Order as order;
ghost use Rattle.symbol_answers.specs.Questions as questions;

use crate::kept_site::KeptSite;
use crate::place::Place;
use crate::question::is_reference;
use document_store::DocumentStore;
use hl_base::OutOfMemory;
use lsp_messages::{Location, Locations, SymbolAnswer};
use std::alloc::Global;
use trace_values::{Entity, Occurrence};

/// An occurrence as the client is shown it.
fn location_of(
    alloc: Global,
    store: &DocumentStore,
    one: &Occurrence,
) -> Result<Location, OutOfMemory>
    ensures { IfOk result (λ location. location ≡ answers.location_of store.now.store (order.spot_of store.now.store one.now)) }
{
    let kept = KeptSite::of(alloc, store, one.path.0)?;
    kept.location(alloc, &Place::of(store, one))
}

/// Where something is defined, if it is.
pub(crate) fn place_told(
    alloc: Global,
    store: &DocumentStore,
    found: Option<&Occurrence>,
) -> Result<SymbolAnswer, OutOfMemory>
    ensures { IfOk result (λ answer. answer ≡ answers.place_told store.now.store (option_copied found.entry)) }
{
    match found {
        Some(one) => Ok(SymbolAnswer::Place(location_of(alloc, store, one)?)),
        None => Ok(SymbolAnswer::Nothing),
    }
}

/// Adds the place of an occurrence, if it names something as it is wanted.
fn add_reference<'a>(
    places: &mut Vec<Place<'a>>,
    store: &'a DocumentStore,
    one: &Occurrence,
    entity: &Entity,
    declarations: bool,
) -> Result<(), OutOfMemory>
    ensures { OnOk result (all_seen places.new.items ≡ all_seen places.old.items
        ++ map (order.spot_of store.now.store) (if questions.is_reference entity.now declarations one.now then one.now ∷ [] else [])) }
{
    if is_reference(one, entity, declarations) {
        places.push(Place::of(store, one))?;
    }
    Ok(())
}

/// The places of all occurrences that name something as it is wanted.
fn places_of<'a>(
    alloc: Global,
    store: &'a DocumentStore,
    occurrences: &[Occurrence],
    entity: &Entity,
    declarations: bool,
) -> Result<Vec<Place<'a>>, OutOfMemory>
    ensures { IfOk result (λ places. all_seen places.items
        ≡ map (order.spot_of store.now.store) (questions.references_of occurrences.now entity.now declarations)) }
{
    let mut places = Vec::new(alloc);
    for one in occurrences {
        add_reference(&mut places, store, one, entity, declarations)?;
    }
    Ok(places)
}

/// Brings places into their order.
fn bring_in_order(places: &mut Vec<Place<'_>>)
    ensures { all_seen places.new.items ≡ order.in_order (all_seen places.old.items) }
{
    places.sort_unstable();
}

/// Places as the client is shown them.
fn locations_at(
    alloc: Global,
    store: &DocumentStore,
    places: &[Place<'_>],
) -> Result<Locations, OutOfMemory>
    ensures { IfOk result (λ list. list ≡ map (answers.location_of store.now.store) (all_seen places.now)) }
{
    let mut list = Locations::new(alloc);
    let Some(first) = places.first() else {
        return Ok(list);
    };
    let mut kept = KeptSite::of(alloc, store, first.number)?;
    for place in places {
        kept.turn_to(alloc, place.number)?;
        list.push(kept.location(alloc, place)?)?;
    }
    Ok(list)
}

/// All occurrences that name something as it is wanted, as the client is shown them.
pub(crate) fn references_told(
    alloc: Global,
    store: &DocumentStore,
    occurrences: &[Occurrence],
    entity: &Entity,
    declarations: bool,
) -> Result<Locations, OutOfMemory>
    ensures { IfOk result (λ list. list ≡ answers.locations_of store.now.store (questions.references_of occurrences.now entity.now declarations)) }
{
    let mut places = places_of(alloc, store, occurrences, entity, declarations)?;
    bring_in_order(&mut places);
    locations_at(alloc, store, places.as_slice())
}
